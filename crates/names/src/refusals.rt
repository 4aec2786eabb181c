// Why a file, a placement, a step or an output is refused (RULES 8.2), and how a step is taken.
ghost use Rattle.std.specs.Prelude.{◌≡◌};
ghost use Rattle.names.specs.Refusals.{refusal_number, IsRefusal};

// Each has the number that files and C give it.
#[derive(Clone, Copy, Debug, PartialEq, Eq)]
pub enum Refusal {
    // of a run file, its placement, or an output
    FileTooShort = 1,
    FileTooLong = 2,
    SizeOutOfRange = 3,
    Misplaced = 4,
    OutputTooShort = 5,
    // of the memory and of a step's bytes
    IllSized = 6,
    NoStep = 10,
    NotZero = 11,
    NoTask = 12,
    NoRegister = 13,
    NoCard = 14,
    NoFunction = 15,
    // of the task
    RequestOpen = 20,
    NotReady = 21,
    CopiesForbid = 22,
    NoRequests = 23,
    // of the next move
    NothingToSend = 30,
    NoBroadcast = 31,
    NoneInFlight = 32,
    NothingToDeliver = 33,
    FarBehind = 34,
    Crowded = 35,
    // of a sentence
    NoPhrase = 36,
}

impl From<Refusal> for u8 {
    ghost from_gives = { λ refusal n. n ≡ refusal_number refusal };

    fn from(refusal: Refusal) -> u8 {
        refusal as u8
    }
}

// A number that refuses nothing.
#[derive(Clone, Copy, Debug, PartialEq, Eq)]
pub struct NoRefusal(pub u8);

impl TryFrom<u8> for Refusal {
    type Error = NoRefusal;

    ghost try_from_gives = { IsRefusal };

    fn try_from(number: u8) -> Result<Self, NoRefusal> {
        match number {
            1 => Ok(Refusal::FileTooShort),
            2 => Ok(Refusal::FileTooLong),
            3 => Ok(Refusal::SizeOutOfRange),
            4 => Ok(Refusal::Misplaced),
            5 => Ok(Refusal::OutputTooShort),
            6 => Ok(Refusal::IllSized),
            10 => Ok(Refusal::NoStep),
            11 => Ok(Refusal::NotZero),
            12 => Ok(Refusal::NoTask),
            13 => Ok(Refusal::NoRegister),
            14 => Ok(Refusal::NoCard),
            15 => Ok(Refusal::NoFunction),
            20 => Ok(Refusal::RequestOpen),
            21 => Ok(Refusal::NotReady),
            22 => Ok(Refusal::CopiesForbid),
            23 => Ok(Refusal::NoRequests),
            30 => Ok(Refusal::NothingToSend),
            31 => Ok(Refusal::NoBroadcast),
            32 => Ok(Refusal::NoneInFlight),
            33 => Ok(Refusal::NothingToDeliver),
            34 => Ok(Refusal::FarBehind),
            35 => Ok(Refusal::Crowded),
            36 => Ok(Refusal::NoPhrase),
            _ => Err(NoRefusal(number)),
        }
    }
}

// How a step is taken: done, or done with its message held.
#[derive(Clone, Copy, Debug, PartialEq, Eq)]
pub enum Taken {
    Done,
    Held,
}
