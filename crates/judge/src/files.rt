// Files judged, and what the reader gives of them.
use crate::text::refused;
use console::hexadecimal;
use names::{Register, Task};
use runfile::{argument, code, copies, home, primary};
use std::io;
use std::io::Write;

/// The number of a file, and the sizes of an accepted one.
pub(crate) fn judge(out: &mut impl Write, file: &[u8]) -> io::Result<()> {
    let judged = runfile::judge(file);
    write!(out, "{}", refused(judged.err()))?;
    match judged {
        Ok(sizes) => write!(out, ", {sizes}"),
        Err(_) => Ok(()),
    }
}

/// What the reader gives of a file, judged or not.
pub(crate) fn read(out: &mut impl Write, file: &[u8]) -> io::Result<()> {
    write!(
        out,
        "{}, copies of register 0: {}, of register 1: {}, primary of register 0: {}",
        home(file, Task(1)).0,
        copies(file, Register(0)),
        copies(file, Register(1)),
        primary(file, Register(0)).0
    )?;
    write!(
        out,
        ", code of step 0: {}, of step 1: {}, argument of step 0:",
        code(file, 0),
        code(file, 1)
    )?;
    hexadecimal(out, &argument(file, 0))
}
