// Reads an answer file (RULES 4) from standard input and writes a sentence for each refused step, then how many steps were taken and refused. An
// input that is no answer file gets a message, and nothing is written.
#![tactic(auto)]

use names::is_taken;
use std::io;
use std::io::Write;
use std::process::ExitCode;
use thiserror::Error;

#[derive(Clone, Copy, Debug, Error)]
enum Failure {
    #[error("the answer file is cut short")]
    CutShort,
    #[error("the answer file is too long")]
    TooLong,
    #[error("the answer file has more than 4096 steps")]
    TooManySteps,
    #[error("a result has no phrase")]
    NoPhrase,
    #[error(transparent)]
    Console(#[from] console::Failure),
}

// Whether a result says taken or has a phrase.
fn is_spoken(res: u8) -> bool {
    is_taken(res) || !words::phrase(res).is_empty()
}

// The results of an answer file, each of which can be said.
fn results_of(file: &[u8]) -> Result<&[u8], Failure> {
    let [low, high, rest @ ..] = file else {
        return Err(Failure::CutShort);
    };
    let steps = u16::from_le_bytes([*low, *high]) as usize;
    if steps > 4096 {
        return Err(Failure::TooManySteps);
    }
    if rest.len() < 5 * steps {
        return Err(Failure::CutShort);
    }
    if rest.len() > 5 * steps {
        return Err(Failure::TooLong);
    }
    let results = &rest[..steps];
    if !results.iter().all(|res| is_spoken(*res)) {
        return Err(Failure::NoPhrase);
    }
    Ok(results)
}

// The line of a refused step, whose result has a phrase: each sentence fits into 64 bytes.
fn line(out: &mut impl Write, step: u32, res: u8) -> io::Result<()> {
    let mut text = [0; 64];
    let length = words::sentence(step, res, &mut text).unwrap_or(0);
    out.write_all(&text[..(length as usize).min(64)])?;
    writeln!(out)
}

fn show(out: &mut impl Write, results: &[u8]) -> io::Result<()> {
    for (step, res) in (0..).zip(results) {
        if !is_taken(*res) {
            line(out, step, *res)?;
        }
    }
    let taken = results.iter().filter(|res| is_taken(**res)).count();
    let refused = results.len() - taken;
    writeln!(out, "taken {taken}, refused {refused}")
}

fn print(rt: HostRuntime, results: &[u8]) -> Result<(), console::Failure> {
    let mut out = console::Page::new(rt.stdout());
    show(&mut out, results)?;
    Ok(out.flush()?)
}

// No answer file fills the buffer: a longer input is judged by what is read of it.
fn run(rt: HostRuntime) -> Result<(), Failure> {
    let mut input = [0; 65536];
    let n = console::read_input(&mut rt.stdin(), &mut input)?;
    let results = results_of(&input[..n])?;
    Ok(print(rt, results)?)
}

fn main(rt: HostRuntime) -> ExitCode {
    console::ended(rt.stderr(), "say", run(rt))
}
