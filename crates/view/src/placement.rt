// The sizes of a run, the home of each task, and where each register's copies lie.
use names::{Card, Register, Task};
use std::io;
use std::io::Write;

fn home(out: &mut impl Write, file: &[u8], task: u32) -> io::Result<()> {
    let card = runfile::home(file, Task(task));
    writeln!(out, "task {task:>2}  home card {}", card.0)
}

fn register(out: &mut impl Write, file: &[u8], register: u32) -> io::Result<()> {
    let primary = runfile::primary(file, Register(register));
    write!(
        out,
        "register {register:>2}  primary card {}  copies on",
        primary.0
    )?;
    let copies = runfile::copies(file, Register(register));
    for card in (0..8).filter(|&card| names::member(copies, Card(card))) {
        write!(out, " {card}")?;
    }
    writeln!(out)
}

pub(crate) fn show(out: &mut impl Write, file: &[u8], sizes: runfile::Sizes) -> io::Result<()> {
    writeln!(out, "{sizes}\n")?;
    for task in 0..sizes.tasks {
        home(out, file, task)?;
    }
    writeln!(out)?;
    for x in 0..sizes.registers {
        register(out, file, x)?;
    }
    Ok(())
}
