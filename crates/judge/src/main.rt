// Judges sample run files, sound ones and one for each way of being spoiled, reads from two of them, and writes answer files into lent
// outputs. Each line of `stdin` is a sample, and gives a line of `stdout`, which is what the rules ask, worked out by hand.
//
// A line has what is to be done, a name that is said first, a colon, and bytes in hexadecimal. The first two are a length, low byte first:
// `j smallest: 08 00 01 01 01 00 00 00 01 00`. Bytes that it does not give are zero.
//   j, r  A file of that length is judged, or read from. It is: cards, registers, tasks, steps (low byte, high byte); homes; copies;
//         primaries; codes; arguments of eight bytes.
//   w     An answer file is written into an output of that length, all ones before. The bytes are the number of results and the number of
//         values, two bytes each, low byte first. The results are 0, 20 and zeros, the values 0, 0, 16,909,060 and zeros.
#![tactic(auto)]

mod answers;
mod files;
mod text;

use console::{Failure, Page};
use std::io;
use std::io::Write;
use std::process::ExitCode;

// Not inlined, nor is `answers::write`: so the room and the tables do not stand on the stack together.
#[inline(never)]
fn file_sample(out: &mut impl Write, kind: u8, digits: &[u8]) -> io::Result<()> {
    let mut room = [0; text::ROOM];
    let file = &mut room[..text::bytes_in(digits)];
    text::fill(file, digits);
    match kind {
        b'j' => files::judge(out, file),
        _ => files::read(out, file),
    }
}

fn sample(out: &mut impl Write, line: &[u8]) -> io::Result<()> {
    let [kind, _, rest @ ..] = line else {
        return Ok(());
    };
    let colon = rest.iter().position(|byte| *byte == b':');
    let (name, digits) = rest.split_at(colon.unwrap_or(rest.len()));
    out.write_all(name)?;
    write!(out, ": ")?;
    match *kind {
        b'w' => answers::write(out, digits),
        kind => file_sample(out, kind, digits),
    }
}

fn samples(out: &mut impl Write, input: &[u8]) -> io::Result<()> {
    for line in input.split_inclusive(|byte| *byte == b'\n') {
        let text = match line {
            [text @ .., b'\n'] => text,
            _ => line,
        };
        sample(out, text)?;
        writeln!(out)?;
    }
    Ok(())
}

// Kept: five lines that sums and view have too; shared, console would have a public function with a contract, an edit and the premise that
// the closure may be called.
fn run(rt: HostRuntime) -> Result<(), Failure> {
    let mut input = [0; 65536];
    let n = console::read_input(&mut rt.stdin(), &mut input)?;
    let mut out = Page::new(rt.stdout());
    samples(&mut out, &input[..n])?;
    Ok(out.flush()?)
}

fn main(rt: HostRuntime) -> ExitCode {
    console::ended(rt.stderr(), "judge", run(rt))
}
