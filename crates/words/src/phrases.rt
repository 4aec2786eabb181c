// The phrase of each refusal of a step (RULES 14.3, docs/PHRASES.md).
ghost use Rattle.std.specs.Prelude.{◌≡◌};
ghost use Rattle.names.specs.Refusals.{refusal_number};
ghost use Rattle.words.specs.Phrases.{found, phrase_of};

use names::refusals::Refusal;

// Nothing for a refusal that no step has.
#[tactic(auto, unfolding(crate::specs::Phrases::phrase_of, crate::specs::Phrases::found))]
pub(crate) fn phrase(refusal: Refusal) -> &'static [u8]
    ensures { result.now ≡ phrase_of (refusal_number refusal) }
{
    match refusal {
        Refusal::IllSized => b"the store was changed from outside",
        Refusal::NoStep => b"there is no such step",
        Refusal::NotZero => b"a byte that must be zero is not",
        Refusal::NoTask => b"there is no such task",
        Refusal::NoRegister => b"there is no such register",
        Refusal::NoCard => b"there is no such card",
        Refusal::NoFunction => b"there is no such function",
        Refusal::RequestOpen => b"the task has an open request",
        Refusal::NotReady => b"the task is not ready for this step",
        Refusal::CopiesForbid => b"the copies do not allow this step",
        Refusal::NoRequests => b"no requests are left",
        Refusal::NothingToSend => b"the card has nothing to send",
        Refusal::NoBroadcast => b"the card has taken every broadcast",
        Refusal::NoneInFlight => b"the task has nothing on the way",
        Refusal::NothingToDeliver => b"the card has nothing to deliver",
        Refusal::FarBehind => b"a card is too many broadcasts behind",
        Refusal::Crowded => b"the card must deliver broadcasts first",
        Refusal::FileTooShort
        | Refusal::FileTooLong
        | Refusal::SizeOutOfRange
        | Refusal::Misplaced
        | Refusal::OutputTooShort
        | Refusal::NoPhrase => b"",
    }
}
