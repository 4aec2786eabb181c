// The registers' memory, an array of words that the caller lends: where things lie (specs/Layout), what a task is doing, the outboxes, the
// start, the check that refusal 6 for the state asks for, and what a panel shows.
#![tactic(auto)]

use names::Register;

pub mod begin;
pub mod doings;
pub mod layout;
pub mod outbox;
pub mod panel;
pub mod sized;

// What a task is doing (000, Figure 5: status).
#[derive(Clone, Copy, Debug, PartialEq, Eq)]
pub enum Doing {
    Quiet,
    // a read of a register is to be performed or sent
    AskingRead(Register),
    // an update: register, function, operand
    AskingUpdate(Register, u32, u32),
    // its message is on the way
    Waiting,
    // the value read
    DoneRead(u32),
    // the value that the update found
    DoneUpdate(u32),
}
