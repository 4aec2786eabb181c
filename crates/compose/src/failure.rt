// Why there is no run file, as standard error says it.
use arrayvec::CapacityError;
use console::Refused;
use thiserror::Error;

// What is wrong with a line, as it is said behind its number.
#[derive(Clone, Copy, Debug, Error)]
pub(crate) enum Wrong {
    #[error(" is not understood")]
    NotUnderstood,
    #[error(" is out of place")]
    OutOfPlace,
    #[error(" is one too many")]
    OneTooMany,
    #[error(" counts otherwise than the text")]
    CountsOtherwise,
    // No run file may have what the line says.
    #[error(": {0}")]
    Refused(Refused),
}

// The table of a line's part is full.
impl<T: Drop> From<CapacityError<T>> for Wrong {
    fn from(_full: CapacityError<T>) -> Wrong {
        Wrong::OneTooMany
    }
}

#[derive(Clone, Copy, Debug, Error)]
pub(crate) enum Failure {
    #[error(transparent)]
    Console(#[from] console::Failure),
    #[error("the text is longer than 4194304 bytes")]
    TooLong,
    #[error("line {line}{wrong}")]
    Line { line: u32, wrong: Wrong },
    #[error(transparent)]
    Refused(#[from] Refused),
}
