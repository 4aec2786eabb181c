// What programs share: how they read their input and write their text, and how one ends that cannot.
#![tactic(auto)]

mod ending;
mod page;
mod pieces;
mod refusals;

pub use ending::{Failure, ended, read_input, read_whole};
pub use page::Page;
pub use pieces::{decimal, hexadecimal};
pub use refusals::Refused;
