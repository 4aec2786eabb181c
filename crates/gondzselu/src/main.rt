// Reads a run file from standard input and writes its answer file to standard output; for a refused file, its refusal as one byte.
//
// It reads at most 65,536 bytes. No file of more than 36,949 is accepted, and past that the first bytes alone decide the refusal, 3 or 2
// (runfile, specs/FileRun, `long_file`), so a longer input gets its right number too.
#![tactic(auto)]

use console::Failure;
use std::io::Write;
use std::process::ExitCode;

fn run(rt: HostRuntime) -> Result<(), Failure> {
    let mut input = [0; 65536];
    let n = console::read_input(&mut rt.stdin(), &mut input)?;
    let mut out = [0; 20482];
    let count = runfile::reply(&input[..n], &mut out);
    Ok(rt.stdout().write_all(&out[..count])?)
}

fn main(rt: HostRuntime) -> ExitCode {
    console::ended(rt.stderr(), "gondzselu", run(rt))
}
