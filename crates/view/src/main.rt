// A readable view of a run, for a panel or a class: reads a run file from standard input, and prints its sizes, its placement, a line for each
// step with what the store answers, and how many steps were taken and refused. A refused file is one line. README.md says it column by column.
#![tactic(auto)]

mod answered;
mod asked;
mod placement;
mod step;

use answered::Reports;
use console::{Failure, Page, Refused};
use std::io;
use std::io::Write;
use std::process::ExitCode;
use step::Step;

fn steps(out: &mut impl Write, file: &[u8], answers: &[u8], n: u32) -> io::Result<()> {
    if n == 0 {
        return Ok(());
    }
    writeln!(out)?;
    let mut reports = Reports::new();
    for k in 0..n {
        let step = Step::of(file, answers, n, k);
        asked::show(out, &step)?;
        reports.show(out, &step)?;
    }
    Ok(())
}

fn show(out: &mut impl Write, file: &[u8]) -> io::Result<()> {
    let mut answers = [0u8; 20482];
    let tally = match runfile::answer(file, &mut answers) {
        Ok(tally) => tally,
        Err(refusal) => return writeln!(out, "{}", Refused(refusal)),
    };
    let sizes = runfile::sizes_of(file);
    placement::show(out, file, sizes)?;
    steps(out, file, &answers, sizes.steps)?;
    writeln!(out, "\ntaken {}, refused {}", tally.taken, tally.refused)
}

// Kept: five lines that judge and sums have too; shared, console would have a public function with a contract, an edit and the premise that
// the closure may be called.
// An input that fills the buffer is longer than any file that is accepted, and what is read of it gets its number: 3 or 2.
fn run(rt: HostRuntime) -> Result<(), Failure> {
    let mut input = [0u8; 65536];
    let n = console::read_input(&mut rt.stdin(), &mut input)?;
    let mut out = Page::new(rt.stdout());
    show(&mut out, &input[..n])?;
    Ok(out.flush()?)
}

fn main(rt: HostRuntime) -> ExitCode {
    console::ended(rt.stderr(), "view", run(rt))
}
