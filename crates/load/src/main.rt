// Draws a load: the seed and the number of steps are its two arguments, and a run file on standard input has the placement (RULES 17.7). What is no
// such number or file gets a message, and nothing is written. README.md says which.
#![tactic(auto)]

use console::{Refused, decimal};
use std::env::FillError;
use std::io::Write;
use std::process::ExitCode;
use std::rt::Env;
use thiserror::Error;

#[derive(Clone, Copy, Debug, Error)]
enum Failure {
    #[error("two numbers are wanted, a seed up to 4294967295 and how many steps, up to 4096")]
    Arguments,
    #[error(transparent)]
    Refused(#[from] Refused),
    #[error(transparent)]
    Console(#[from] console::Failure),
}

struct Numbers {
    seed: u32,
    steps: u32,
}

fn is_given(rt: HostRuntime, i: usize) -> bool {
    !matches!(rt.arg(i, &mut [0; 1]), Err(FillError::NotPresent))
}

// An argument of one to ten digits.
fn argument(rt: HostRuntime, i: usize) -> Option<u32> {
    let mut text = [0; 10];
    let n = rt.arg(i, &mut text).ok()?;
    decimal(std::str::from_utf8(&text[..n]).ok()?)
}

// If there are two arguments and these are the numbers. Argument 0 is the program's name.
fn asked(rt: HostRuntime) -> Option<Numbers> {
    let seed = argument(rt, 1)?;
    let steps = argument(rt, 2)?;
    if is_given(rt, 3) || steps > 4096 {
        return None;
    }
    Some(Numbers { seed, steps })
}

// An input that fills the buffer is longer than any file that is accepted, and what is read of it gets its number: 3 or 2.
fn run(rt: HostRuntime) -> Result<(), Failure> {
    let Numbers { seed, steps } = asked(rt).ok_or(Failure::Arguments)?;
    let mut input = [0; 65536];
    let n = console::read_input(&mut rt.stdin(), &mut input)?;
    let mut out = [0; 36949];
    let length = loads::load_for(seed, &input[..n], steps, &mut out).map_err(Refused)?;
    let load = &out[..(length as usize).min(out.len())];
    Ok(rt.stdout().write_all(load).map_err(console::Failure::from)?)
}

fn main(rt: HostRuntime) -> ExitCode {
    console::ended(rt.stderr(), "load", run(rt))
}
