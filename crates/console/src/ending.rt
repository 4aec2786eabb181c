// How a program ends. One that cannot go on says why on standard error, in one line, and ends with a status that is not 0.
ghost use Rattle.std.specs.Prelude.{◌≡◌, ◌≤◌, length, IfErr, IfOk, OnErr, OnOk};
ghost use Rattle.std.specs.Process.{exit_status};
ghost use Rattle.console.specs.declared.ending.Failure.TheVariants.{Unread};

use std::fmt::Display;
use std::io;
use std::io::{Read, Stderr, Write};
use std::process::ExitCode;
use thiserror::Error;

/// What every program can fail by.
#[derive(Clone, Copy, Debug, PartialEq, Eq, Error)]
pub enum Failure {
    #[error("the input cannot be read")]
    Unread,
    #[error("standard output cannot be written")]
    Unwritten,
}

// Input is read by `read_input` alone: any other error is one of output.
impl From<io::Error> for Failure {
    ghost use Rattle.console.specs.declared.ending.Failure.TheVariants.{Unwritten};

    ghost from_gives = { λ _ failure. failure ≡ Unwritten };

    fn from(_error: io::Error) -> Failure {
        Failure::Unwritten
    }
}

/// What the program of that name ends with: all that its `main` has. Where it cannot say why either, the status still tells.
pub fn ended<E: Display + Drop>(mut stderr: Stderr, name: &str, outcome: Result<(), E>) -> ExitCode
    ensures ok { OnOk outcome (exit_status result ≡ 0) }
    ensures err { OnErr outcome (exit_status result ≡ 1) }
{
    match outcome {
        Ok(()) => ExitCode::SUCCESS,
        Err(why) => {
            let _ = writeln!(stderr, "{name}: {why}");
            ExitCode::FAILURE
        }
    }
}

// Reads an input to its end or until the buffer is full: how many bytes it put at the start of the buffer.
// Kept: a loop over reads. `read_to_end` wants an allocator and has no limit, and `read_exact` doesn't say how much it read before the end.
pub fn read_whole(input: &mut impl Read, buffer: &mut [u8]) -> io::Result<usize>
    ensures { IfOk result (λ n. n ≤ length buffer.new) }
{
    let mut done = 0;
    while done < buffer.len() {
        match input.read(&mut buffer[done..])? {
            0 => break,
            n => done += n,
        }
    }
    Ok(done)
}

// The same, for a program: any error is that its input cannot be read.
pub fn read_input(input: &mut impl Read, buffer: &mut [u8]) -> Result<usize, Failure>
    ensures room { IfOk result (λ n. n ≤ length buffer.new) }
    ensures why { IfErr result (λ failure. failure ≡ Unread) }
{
    read_whole(input, buffer).map_err(|_| Failure::Unread)
}
