// A text as it is read, line by line. The first wrong line ends the reading.
use super::failure::{Failure, Wrong};
use super::lines::{Counts, Line, Part};
use super::run::Run;
use super::words::Words;
use arrayvec::ArrayVec;

// The line of sizes, if it says how many lines follow.
#[derive(Clone, Copy)]
struct Told {
    line: u32,
    counts: Counts,
}

#[derive(Drop)]
pub(crate) struct Text {
    // The line that is read: its number, from 1, and what there is of it.
    number: u32,
    line: ArrayVec<u8, 255>,
    // What the lines before it said, and the part that the last of them is of.
    last: Option<Part>,
    told: Option<Told>,
    run: Run,
}

impl Text {
    pub(crate) fn new() -> Text {
        Text {
            number: 1,
            line: ArrayVec::new(),
            last: None,
            told: None,
            run: Run::new(),
        }
    }

    // More of the text.
    pub(crate) fn add(&mut self, bytes: &[u8]) -> Result<(), Failure> {
        for byte in bytes {
            if *byte == b'\n' {
                self.end_line()?;
            } else if self.line.try_push(*byte).is_err() {
                return Err(self.failure(Wrong::NotUnderstood));
            }
        }
        Ok(())
    }

    // The text is whole, and with it its last line.
    pub(crate) fn end(&mut self) -> Result<(), Failure> {
        self.end_line()?;
        let told = self.told;
        match told {
            Some(told) if told.counts != self.run.counts() => Err(Failure::Line {
                line: told.line,
                wrong: Wrong::CountsOtherwise,
            }),
            _ => Ok(()),
        }
    }

    // What its lines said.
    pub(crate) fn run(&self) -> &Run {
        &self.run
    }

    fn failure(&self, wrong: Wrong) -> Failure {
        Failure::Line {
            line: self.number,
            wrong,
        }
    }

    fn end_line(&mut self) -> Result<(), Failure> {
        if let Err(wrong) = self.read_line() {
            return Err(self.failure(wrong));
        }
        self.line.clear();
        self.number = self.number.saturating_add(1);
        Ok(())
    }

    // A line without a word is passed over.
    fn read_line(&mut self) -> Result<(), Wrong> {
        let words = Words::new(self.line.as_slice());
        if words.is_empty() {
            return Ok(());
        }
        let line = Line::read(words).ok_or(Wrong::NotUnderstood)?;
        self.keep(line)
    }

    fn keep(&mut self, line: Line) -> Result<(), Wrong> {
        let part = line.part();
        if !part.follows(self.last) {
            return Err(Wrong::OutOfPlace);
        }
        self.last = Some(part);
        match line {
            Line::Sizes { cards, told } => {
                let line = self.number;
                self.told = told.map(|counts| Told { line, counts });
                self.run.set_cards(cards)
            }
            Line::Task { task, home } => self.run.add_task(task, home),
            Line::Register {
                register,
                primary,
                copies,
            } => self.run.add_register(register, copies, primary),
            Line::Step { place, step } => self.run.add_step(place, step),
            Line::Counts => Ok(()),
        }
    }
}
