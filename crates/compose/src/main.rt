// Reads a run in words from standard input and writes its run file to standard output. A text that is no run gets a message, and nothing is
// written. README.md says which lines there are, and what is said of a wrong one.
#![tactic(auto)]

mod failure;
mod lines;
mod run;
mod steps;
mod text;
mod words;

use failure::Failure;
use run::{LONGEST_FILE, Run};
use std::io::{Print, Read, Stdout};
use std::process::ExitCode;
use text::Text;

// The longest text has so many pieces, so long each.
const PIECES: usize = 64;

const PIECE: usize = 65536;

// Reads a text to its end, or until a line is wrong. Not inlined, nor is `write`: so their buffers do not stand on the stack together.
#[inline(never)]
fn read(input: &mut impl Read, text: &mut Text) -> Result<(), Failure> {
    let mut piece = [0u8; PIECE];
    for _ in 0..PIECES {
        let n = console::read_input(input, &mut piece)?;
        text.add(&piece[..n])?;
        if n < PIECE {
            return text.end();
        }
    }
    match console::read_input(input, &mut piece[..1])? {
        0 => text.end(),
        _ => Err(Failure::TooLong),
    }
}

#[inline(never)]
fn write(stdout: Stdout, run: &Run) -> Result<(), Failure> {
    let mut file = [0u8; LONGEST_FILE];
    let length = run.write(&mut file)?;
    stdout
        .write_all(&file[..length])
        .map_err(console::Failure::from)?;
    Ok(())
}

fn compose(rt: HostRuntime) -> Result<(), Failure> {
    let mut text = Text::new();
    read(&mut rt.stdin(), &mut text)?;
    write(rt.stdout(), text.run())
}

fn main(rt: HostRuntime) -> ExitCode {
    console::ended(rt.stderr(), "compose", compose(rt))
}
