// What the store answered.
use crate::step::{Kind, Step};
use std::io;
use std::io::Write;

// The result of a step that is taken, and whose message is not held.
const DONE: u8 = 0;

// Of each task, whether its last request taken was of a read, so that a report of a read is known from one of an update.
#[derive(Drop)]
pub(crate) struct Reports {
    of_read: [bool; 16],
}

impl Reports {
    pub(crate) fn new() -> Reports {
        Reports {
            of_read: [false; 16],
        }
    }

    // What was answered to a step of a task, to the end of the line.
    pub(crate) fn show(&mut self, out: &mut impl Write, step: &Step) -> io::Result<()> {
        let result = step.result;
        if names::is_taken(result) {
            out.write_all(if result == DONE { b"taken" } else { b"held" })?;
            self.taken(out, step)?;
        } else {
            write!(out, "refused {result}: ")?;
            out.write_all(words::phrase(result))?;
        }
        writeln!(out)
    }

    // The value that a taken report gives: read, or found by an update.
    fn taken(&mut self, out: &mut impl Write, step: &Step) -> io::Result<()> {
        let task = step.argument[0] as usize % 16;
        let value = step.value;
        match step.kind() {
            Some(Kind::RequestRead) => self.of_read[task] = true,
            Some(Kind::RequestUpdate) => self.of_read[task] = false,
            Some(Kind::Report) if self.of_read[task] => write!(out, ", value {value}")?,
            Some(Kind::Report) => write!(out, ", found {value}")?,
            _ => {}
        }
        Ok(())
    }
}
