// A step of a run file, with what the store answered.
use names::placement::byte;

// What a step is, by its code (RULES 3).
#[derive(Clone, Copy, PartialEq, Eq)]
pub(crate) enum Kind {
    RequestRead,
    RequestUpdate,
    Perform,
    SendRead,
    SendUpdate,
    Dispatch,
    TakeBroadcast,
    TakeSingle,
    Deliver,
    Report,
}

// Kept: an `Option`. `TryFrom` wants an error type, and no use of a kind looks at an error.
impl Kind {
    pub(crate) fn of(code: u8) -> Option<Kind> {
        match code {
            1 => Some(Kind::RequestRead),
            2 => Some(Kind::RequestUpdate),
            3 => Some(Kind::Perform),
            4 => Some(Kind::SendRead),
            5 => Some(Kind::SendUpdate),
            6 => Some(Kind::Dispatch),
            7 => Some(Kind::TakeBroadcast),
            8 => Some(Kind::TakeSingle),
            9 => Some(Kind::Deliver),
            10 => Some(Kind::Report),
            _ => None,
        }
    }
}

#[derive(Clone, Copy)]
pub(crate) struct Step {
    pub(crate) number: u32,
    pub(crate) code: u8,
    pub(crate) argument: [u8; 8],
    pub(crate) result: u8,
    pub(crate) value: u32,
}

impl Step {
    // Step k of n.
    pub(crate) fn of(file: &[u8], answers: &[u8], n: u32, k: u32) -> Step {
        let at = 2 + n as usize + 4 * k as usize;
        Step {
            number: k,
            code: runfile::code(file, k),
            argument: runfile::argument(file, k),
            result: byte(answers, 2 + k as usize) as u8,
            value: u32::from_le_bytes([
                byte(answers, at) as u8,
                byte(answers, at + 1) as u8,
                byte(answers, at + 2) as u8,
                byte(answers, at + 3) as u8,
            ]),
        }
    }

    pub(crate) fn kind(&self) -> Option<Kind> {
        Kind::of(self.code)
    }
}
