// Refusals in words, for a panel: "step 12: the card has nothing to deliver" (RULES 14).
#![tactic(auto)]

ghost use Rattle.std.specs.Prelude.{◌≡◌};
ghost use Rattle.words.specs.Phrases.{phrase_of};
ghost use Rattle.words.specs.Sentence.{said, said_of, sentence_output};

mod phrases;
mod text;

use names::refusals::Refusal;
use text::Text;

// The phrase of a refusal's number, nothing where it has none.
pub fn phrase(refusal: u8) -> &'static [u8]
    ensures { result.now ≡ phrase_of refusal }
{
    match Refusal::try_from(refusal) {
        Ok(refusal) => phrases::phrase(refusal),
        Err(_) => b"",
    }
}

// The sentence for a step, counted from 0, and its refusal, at the start of an output; its length. Refused are a number with no phrase, then an
// output shorter than the text; both leave the output as it was.
#[tactic(auto, using(crate::proofs::DecimalLaws::decimal_short, crate::proofs::PhraseLaws::short, crate::proofs::TextLaws::parts_are), unfolding(crate::specs::Phrases::silent, crate::specs::Sentence::told_of, crate::specs::Sentence::told_output, crate::specs::Sentence::said_of, crate::specs::Sentence::sentence_output))]
pub fn sentence(step: u32, refusal: u8, out: &mut [u8]) -> Result<u32, Refusal>
    ensures said { said result ≡ said_of step refusal out.old }
    ensures output { out.new ≡ sentence_output step refusal out.old }
{
    let phrase = phrase(refusal);
    if phrase.is_empty() {
        return Err(Refusal::NoPhrase);
    }
    let mut text = Text::new();
    text.push(b"step ");
    text.push_decimal(step);
    text.push(b": ");
    text.push(phrase);
    let text = text.as_slice();
    if out.len() < text.len() {
        return Err(Refusal::OutputTooShort);
    }
    out[..text.len()].copy_from_slice(text);
    Ok(text.len() as u32)
}
