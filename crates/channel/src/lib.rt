// The context multicast channel between cards (000 §4 and §6): broadcasts, single messages in flight and held, and inboxes, in one array
// of words that the caller lends. specs/Layout says where each thing lies.
#![tactic(auto)]

mod broadcast;
mod inbox;
mod layout;
mod letters;
mod send;
mod single;
mod sized;

pub use broadcast::take_broadcast;
pub use inbox::{head, receive};
pub use layout::{WORDS, begin, cards, limits_of, made, registers, taken, tasks};
pub use letters::word_fits;
pub use send::dispatch;
pub use single::take_single;
pub use sized::well_sized;

// What the numbers in a state are below (RULES 8.6 d to f): cards, sets of present cards, tasks, registers. A check of a whole state reads
// them once.
#[derive(Clone, Copy)]
pub struct Limits {
    pub cards: u32,
    pub sets: u32,
    pub tasks: u32,
    pub registers: u32,
}
