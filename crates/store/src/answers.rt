// A step's answer as C and the answer files have it: the result's number, and the value.
// Kept: functions and no `From`: three Results become one type, and what the calls read by is the name, `bare`, `done` or `answered`.
ghost use Rattle.std.specs.Prelude.{◌≡◌};
ghost use Rattle.names.specs.Refusals.{number_of, result_number};
ghost use Rattle.store.specs.Requests.{answered, bare};

use names::Answer;
use names::refusals::{Refusal, Taken};

// The answer to a report, with the value read or found.
pub(crate) fn answered(said: Result<u32, Refusal>) -> Answer
    ensures { result ≡ answered said }
{
    match said {
        Ok(value) => Answer { result: 0, value },
        Err(refusal) => Answer {
            result: refusal.into(),
            value: 0,
        },
    }
}

// An answer without a value.
pub(crate) fn bare(said: Result<Taken, Refusal>) -> Answer
    ensures { result ≡ bare (result_number said) }
{
    let result = match said {
        Ok(Taken::Done) => 0,
        Ok(Taken::Held) => 100,
        Err(refusal) => refusal.into(),
    };
    Answer { result, value: 0 }
}

// The answer to a step that holds no message.
pub(crate) fn done(said: Result<(), Refusal>) -> Answer
    ensures { result ≡ bare (number_of said) }
{
    bare(said.map(|()| Taken::Done))
}
