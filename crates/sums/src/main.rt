// The sums of a run, for a panel: reads a run file from standard input, and prints a line for each register, with the sum of each card's group
// in the register's log and the total (RULES 16.8). A refused file is one line. README.md says it column by column.
#![tactic(auto)]

use console::{Failure, Page, Refused};
use names::Register;
use runfile::Sizes;
use std::io;
use std::io::Write;
use std::process::ExitCode;
use totals::{card_sums, total_by_card};

// The sizes, and the head of each column.
fn heads(out: &mut impl Write, sizes: Sizes) -> io::Result<()> {
    writeln!(out, "{sizes}\n")?;
    write!(out, "{:11}", "")?;
    for card in 0..sizes.cards {
        write!(out, "      card {card}")?;
    }
    writeln!(out, "       total")
}

// A register, the sum of each present card's group, and the total, in a column each.
fn line(out: &mut impl Write, register: u32, sums: &[u32], total: u32) -> io::Result<()> {
    write!(out, "register {register:2}")?;
    for sum in sums {
        write!(out, "{sum:12}")?;
    }
    writeln!(out, "{total:12}")
}

// Nothing is refused in the log of an accepted file.
fn register(out: &mut impl Write, file: &[u8], register: u32, cards: u32) -> io::Result<()> {
    let mut homes = [0; 4096];
    let mut operands = [0; 4096];
    let length = logs::log(file, Register(register), &mut homes, &mut operands).unwrap_or(0);
    let homes = &homes[..length];
    let operands = &operands[..length];
    let sums = card_sums(homes, operands);
    let total = total_by_card(homes, operands).unwrap_or(0);
    line(out, register, &sums[..cards.min(8) as usize], total)
}

fn show(out: &mut impl Write, file: &[u8]) -> io::Result<()> {
    match runfile::judge(file) {
        Err(refusal) => writeln!(out, "{}", Refused(refusal)),
        Ok(sizes) => {
            heads(out, sizes)?;
            for x in 0..sizes.registers {
                register(out, file, x, sizes.cards)?;
            }
            Ok(())
        }
    }
}

// Kept: five lines that judge and view have too; shared, console would have a public function with a contract, an edit and the premise that
// the closure may be called.
// An input that fills the buffer is longer than any file that is accepted, and what is read of it gets its number: 3 or 2.
fn run(rt: HostRuntime) -> Result<(), Failure> {
    let mut input = [0; 65536];
    let n = console::read_input(&mut rt.stdin(), &mut input)?;
    let mut out = Page::new(rt.stdout());
    show(&mut out, &input[..n])?;
    Ok(out.flush()?)
}

fn main(rt: HostRuntime) -> ExitCode {
    console::ended(rt.stderr(), "sums", run(rt))
}
