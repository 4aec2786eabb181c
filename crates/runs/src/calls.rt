// K13: request 65,535 passes, the next gives 23. Only calls beyond one file reach it.
//
// Kept: both memories stand apart and are handed to the store's functions by name, in no struct and to no closure: the channel's memory is only
// handed on, under the name `channel` (`.ci/layers`).
ghost use Rattle.std.specs.Prelude.{◌≤◌, length};

use names::placement::Placement;
use names::{Answer, Card, Register};
use std::io;
use std::io::Write;

// A step as it is given.
#[derive(Clone, Copy)]
struct Step {
    code: u8,
    argument: [u8; 8],
}

impl Step {
    // The argument has one byte, and zeros.
    fn of(code: u8, first: u8) -> Step {
        Step {
            code,
            argument: [first, 0, 0, 0, 0, 0, 0, 0],
        }
    }
}

// By the call that checks the state again, or by the one that does not.
fn call(
    registers: &mut [u32; 593],
    channel: &mut [u32; channel::WORDS],
    step: Step,
    checks: bool,
) -> Answer {
    if checks {
        store::step(registers, channel, step.code, step.argument)
    } else {
        store::advance(registers, channel, step.code, step.argument)
    }
}

// A round of steps, as often as there are requests: how many steps are taken.
fn taken(
    registers: &mut [u32; 593],
    channel: &mut [u32; channel::WORDS],
    round: &[Step],
    checks: bool,
) -> u32
    requires { length round.now ≤ 8 }
{
    let mut taken = 0u32;
    for _round in 0..65535u32 {
        for step in round {
            if names::is_taken(call(registers, channel, *step, checks).result) {
                taken += 1;
            }
        }
    }
    taken
}

// What a request gives now.
fn one_more(
    out: &mut impl Write,
    registers: &mut [u32; 593],
    channel: &mut [u32; channel::WORDS],
) -> io::Result<()> {
    let result = call(registers, channel, Step::of(1, 0), true).result;
    let requests = store::requests(registers);
    write!(out, ", requests {requests}, one more gives {result}")
}

// One card, one register, one task, which reads it: request, perform, report.
pub(crate) fn reads(out: &mut impl Write) -> io::Result<()> {
    let mut registers = [0u32; 593];
    let mut channel = [0u32; channel::WORDS];
    let placement = Placement {
        cards: 1,
        homes: b"\x00",
        copies: b"\x01",
        primaries: b"\x00",
    };
    let _ = store::start(&mut registers, &mut channel, &placement);
    let round = [Step::of(1, 0), Step::of(3, 0), Step::of(10, 0)];
    let taken = taken(&mut registers, &mut channel, &round, true);
    write!(out, "k13    65535 rounds of 3 steps, taken {taken}")?;
    one_more(out, &mut registers, &mut channel)?;
    writeln!(out)
}

// Two cards with a copy each; the task adds 1 to the register, and both cards take and deliver the update. Broadcast numbers end with the requests.
pub(crate) fn broadcasts(out: &mut impl Write) -> io::Result<()> {
    let mut registers = [0u32; 593];
    let mut channel = [0u32; channel::WORDS];
    let placement = Placement {
        cards: 2,
        homes: b"\x00",
        copies: b"\x03",
        primaries: b"\x00",
    };
    let _ = store::start(&mut registers, &mut channel, &placement);
    let round = [
        Step {
            code: 2,
            argument: [0, 0, 2, 0, 1, 0, 0, 0],
        },
        Step::of(5, 0),
        Step::of(6, 0),
        Step::of(7, 0),
        Step::of(9, 0),
        Step::of(7, 1),
        Step::of(9, 1),
        Step::of(10, 0),
    ];
    let taken = taken(&mut registers, &mut channel, &round, false);
    write!(
        out,
        "k13    65535 broadcasts in rounds of 8 steps, taken {taken}"
    )?;
    one_more(out, &mut registers, &mut channel)?;
    let first = store::value(&registers, &channel, Card(0), Register(0));
    let second = store::value(&registers, &channel, Card(1), Register(0));
    writeln!(out, ", copies {first} and {second}")
}
