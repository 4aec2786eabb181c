// What a step asks, in 73 columns.
use crate::step::{Kind, Step};
use console::hexadecimal;
use names::refusals::Refusal;
use std::io;
use std::io::Write;

// The words for a kind: its name, what byte 0 of the argument is the number of, and what byte 1 is, where the kind names it.
struct Words {
    name: &'static str,
    whose: &'static str,
    which: Option<&'static str>,
}

impl Words {
    fn of(kind: Kind) -> Words {
        let (name, whose, which) = match kind {
            Kind::RequestRead => ("request read", "task", Some("register")),
            Kind::RequestUpdate => ("request update", "task", Some("register")),
            Kind::Perform => ("perform", "task", None),
            Kind::SendRead => ("send read", "task", Some("to card")),
            Kind::SendUpdate => ("send update", "task", None),
            Kind::Dispatch => ("dispatch", "card", None),
            Kind::TakeBroadcast => ("take broadcast", "card", None),
            Kind::TakeSingle => ("take single", "task", None),
            Kind::Deliver => ("deliver", "card", None),
            Kind::Report => ("report", "task", None),
        };
        Words { name, whose, which }
    }
}

// The function of an update.
fn function(number: u8) -> Option<&'static str> {
    match number {
        1 => Some("set"),
        2 => Some("add, stays at the top"),
        3 => Some("larger"),
        4 => Some("or"),
        5 => Some("add, comes round"),
        _ => None,
    }
}

// The bytes of a step as they stand in the file.
fn raw(out: &mut impl Write, step: &Step) -> io::Result<()> {
    let code = step.code;
    write!(out, "bytes {code:02x}")?;
    hexadecimal(out, &step.argument)?;
    write!(out, "{:41}", "")
}

fn read(out: &mut impl Write, step: &Step, kind: Kind) -> io::Result<()> {
    let Words { name, whose, which } = Words::of(kind);
    let [first, second, _, _, _, _, _, _] = step.argument;
    write!(out, "{name:<16}{whose:<5}{first:>3}")?;
    match which {
        Some(named) => write!(out, "  {named:<9}{second:>3}"),
        None => write!(out, "{:14}", ""),
    }
}

// The function of an update and its operand.
fn change(out: &mut impl Write, step: &Step, kind: Kind) -> io::Result<()> {
    let [_, _, number, _, a, b, c, d] = step.argument;
    match (kind, function(number)) {
        (Kind::RequestUpdate, Some(named)) => {
            let operand = u32::from_le_bytes([a, b, c, d]);
            write!(out, "  {named:<22}{operand:<11}")
        }
        _ => write!(out, "{:35}", ""),
    }
}

// The kind of a step, where its bytes can be read so: its code and an update's function are known, and the unnamed bytes are zero.
fn readable(step: &Step) -> Option<Kind> {
    match (step.kind()?, Refusal::try_from(step.result)) {
        (_, Ok(Refusal::NoStep | Refusal::NotZero)) => None,
        (Kind::RequestUpdate, _) if !names::known_function(u32::from(step.argument[2])) => None,
        (kind, _) => Some(kind),
    }
}

// Step k.
pub(crate) fn show(out: &mut impl Write, step: &Step) -> io::Result<()> {
    let k = step.number;
    write!(out, "{k:>4}  ")?;
    match readable(step) {
        Some(kind) => {
            read(out, step, kind)?;
            change(out, step, kind)
        }
        None => raw(out, step),
    }
}
