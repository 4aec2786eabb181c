// Runs K11, K12 and the stored files through the store, and compares what it writes with stored answers that an independent model worked out
// (README). Then K13, in calls beyond one file. A line for each; `stdout` is what the rules ask.
#![tactic(auto)]

mod calls;
mod files;

use console::{Failure, Page};
use std::io::Write;
use std::process::ExitCode;

// Each is NAME.run and NAME.answer.
const STORED: [&str; 17] = [
    "k11", "k12", "behind", "outbox", "inbox", "held", "counts", "past1", "past2", "past3",
    "past4", "full1", "full2", "guided", "full3", "mixed", "full4",
];

// Where a file cannot be read, nothing is printed: all lines, of 150 bytes at most, stand on one page before it is written.
fn run(rt: HostRuntime) -> Result<(), Failure> {
    let mut out = Page::new(rt.stdout());
    for name in STORED {
        files::run(rt, &mut out, name)?;
    }
    calls::reads(&mut out)?;
    calls::broadcasts(&mut out)?;
    Ok(out.flush()?)
}

fn main(rt: HostRuntime) -> ExitCode {
    console::ended(rt.stderr(), "runs", run(rt))
}
