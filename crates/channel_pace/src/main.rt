// Passes a million messages through the channel and writes the sum of what was received: the program whose time is measured against the
// same work in plain Rust (bench/channel.rs). A round passes two messages in fifteen calls.
#![tactic(auto)]

use console::Failure;
use names::refusals::Refusal;
use names::{Body, Card, Letter, Message, Packet, Register, Task};
use std::io::Write;
use std::process::ExitCode;

fn packet(value: u32, to: u32) -> Packet {
    let message = Message {
        task: Task(0),
        register: Register(1),
        body: Body::UpdateDo(2, value),
    };
    Packet::from(Letter { message, to })
}

// The operand or value of what was received, or 0.
fn value(received: Result<Message, Refusal>) -> u32 {
    match received {
        Ok(message) => message.body.value(),
        Err(_) => 0,
    }
}

// A broadcast from card 0 to cards 0, 1 and 2, which all eight take; then a single message from card 1 to card 2. Nothing is refused here.
fn round(memory: &mut [u32; channel::WORDS], i: u32, sum: u32) -> u32 {
    let _ = channel::dispatch(memory, Card(0), packet(i, 7));
    for card in 0..8 {
        let _ = channel::take_broadcast(memory, Card(card));
    }
    let a = value(channel::receive(memory, Card(0)));
    let b = value(channel::receive(memory, Card(1)));
    let c = value(channel::receive(memory, Card(2)));
    let _ = channel::dispatch(memory, Card(1), packet(i, 4));
    let _ = channel::take_single(memory, Task(0));
    let d = value(channel::receive(memory, Card(2)));
    sum.wrapping_add(a)
        .wrapping_add(b)
        .wrapping_add(c)
        .wrapping_add(d)
}

// As many rounds as there are broadcast numbers for, nearly.
fn rounds(memory: &mut [u32; channel::WORDS], start: u32) -> u32 {
    let _ = channel::begin(memory, 8, 16, 32);
    let mut sum = start;
    for i in 0..62500 {
        sum = round(memory, i, sum);
    }
    sum
}

fn run(rt: HostRuntime) -> Result<(), Failure> {
    let mut memory = [0; channel::WORDS];
    let mut sum = 0;
    for _ in 0..8 {
        sum = rounds(&mut memory, sum);
    }
    Ok(println!(rt; "{sum}")?)
}

fn main(rt: HostRuntime) -> ExitCode {
    console::ended(rt.stderr(), "channel_pace", run(rt))
}
