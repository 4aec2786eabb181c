// What a line says, wherever it stands.
use super::steps::Step;
use super::words::{Words, decimal};

// The parts of a text, in their order.
#[derive(Clone, Copy, PartialEq, Eq, PartialOrd, Ord)]
pub(crate) enum Part {
    Sizes,
    Tasks,
    Registers,
    Steps,
    Counts,
}

impl Part {
    // Whether a line of this part may follow one of the last part, if there is one.
    pub(crate) fn follows(self, last: Option<Part>) -> bool {
        match last {
            None => self == Part::Sizes,
            Some(Part::Counts) => false,
            Some(last) => self != Part::Sizes && last <= self,
        }
    }
}

// How many lines of each part there are.
#[derive(Clone, Copy, PartialEq, Eq)]
pub(crate) struct Counts {
    pub registers: u32,
    pub tasks: u32,
    pub steps: u32,
}

#[derive(Clone, Copy)]
pub(crate) enum Line {
    Sizes {
        cards: u32,
        told: Option<Counts>,
    },
    Task {
        task: u8,
        home: u8,
    },
    Register {
        register: u8,
        primary: u8,
        copies: u8,
    },
    Step {
        place: Option<u32>,
        step: Step,
    },
    // How many steps were taken and refused: whichever numbers stand there.
    Counts,
}

impl Line {
    // What words say, if they are understood.
    pub(crate) fn read(line: Words) -> Option<Line> {
        let mut words = line;
        match words.next()? {
            b"cards" => Line::sizes(words),
            b"task" => Line::task(words),
            b"register" => Line::register(words),
            b"taken" => Line::counts(words),
            _ => Line::step(line),
        }
    }

    // With the cards alone, or with all four sizes.
    fn sizes(mut words: Words) -> Option<Line> {
        let cards = words.number()?;
        if words.is_empty() {
            return Some(Line::Sizes { cards, told: None });
        }
        let told = Counts {
            registers: words.number_after("registers")?,
            tasks: words.number_after("tasks")?,
            steps: words.number_after("steps")?,
        };
        words.is_empty().then_some(Line::Sizes {
            cards,
            told: Some(told),
        })
    }

    fn task(mut words: Words) -> Option<Line> {
        let task = words.byte()?;
        let home = words.byte_after("home card")?;
        words.is_empty().then_some(Line::Task { task, home })
    }

    fn register(mut words: Words) -> Option<Line> {
        let register = words.byte()?;
        let primary = words.byte_after("primary card")?;
        words.expect("copies on")?;
        Some(Line::Register {
            register,
            primary,
            copies: holders(words)?,
        })
    }

    fn counts(mut words: Words) -> Option<Line> {
        words.number()?;
        words.number_after("refused")?;
        words.is_empty().then_some(Line::Counts)
    }

    // Its number may stand before it, what was answered after it, and anything behind that.
    fn step(line: Words) -> Option<Line> {
        let mut words = line;
        let place = words.number();
        if place.is_none() {
            words = line;
        }
        let step = Step::read(&mut words)?;
        matches!(words.next(), None | Some(b"taken" | b"held" | b"refused")).then_some(Line::Step {
            place,
            step,
        })
    }

    pub(crate) fn part(&self) -> Part {
        match self {
            Line::Sizes { .. } => Part::Sizes,
            Line::Task { .. } => Part::Tasks,
            Line::Register { .. } => Part::Registers,
            Line::Step { .. } => Part::Steps,
            Line::Counts => Part::Counts,
        }
    }
}

// The set of the cards that words name.
fn holders(words: Words) -> Option<u8> {
    let mut set = 0;
    for word in words {
        set |= 1u8.checked_shl(decimal(word)?)?;
    }
    Some(set)
}
