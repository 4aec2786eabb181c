// Which of the ten steps a code and its argument are, or the refusal from 10 to 15.
#![tactic(auto)]

use names::{Card, Register, Task};

mod steps;

pub use steps::decode;

// What a code and its argument are: one of the ten steps, decoded.
#[derive(Clone, Copy, Debug, PartialEq, Eq)]
pub enum Command {
    RequestRead(Task, Register),
    // function and operand
    RequestUpdate(Task, Register, u32, u32),
    Perform(Task),
    // to the chosen card
    SendRead(Task, Card),
    SendUpdate(Task),
    Dispatch(Card),
    TakeBroadcast(Card),
    TakeSingle(Task),
    Deliver(Card),
    Report(Task),
}
