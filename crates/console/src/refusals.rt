// Why a run file is refused (RULES 8.2). The programs give outputs that are long enough for every answer and every file, so 5 never comes.
use names::refusals::Refusal;
use std::fmt;

/// A run file that is refused, in words.
#[derive(Clone, Copy, Debug, PartialEq, Eq)]
pub struct Refused(pub Refusal);

impl fmt::Display for Refused {
    fn fmt<W: fmt::Write>(&self, f: &mut fmt::Formatter<W>) -> fmt::Result {
        let why = match self.0 {
            Refusal::FileTooShort => "too short for its sizes",
            Refusal::FileTooLong => "too long",
            Refusal::SizeOutOfRange => "a size out of range",
            Refusal::Misplaced => {
                "no copy, a copy or home on an absent card, or a primary without a copy"
            }
            _ => "",
        };
        write!(f, "refused {}: {why}", u8::from(self.0))
    }
}
