// A card's inbox: a ring of 48 packets.
ghost use Rattle.std.specs.Prelude.{◌≡◌, ◌<◌, ◌≤◌};
ghost use Rattle.channel.specs.Inbox.{pushed, popped, got_of, receive_answer, receive_memory};

use super::layout::{Part, WORDS, Word, own, part_of, place_of, set_own, start};
use super::letters::{load, store};
use names::refusals::Refusal;
use names::{Card, Letter, Message, Packet};

// One packet more at the end of a card's inbox; nothing changes where there is no room.
pub(crate) fn push(memory: &mut [u32; WORDS], part: Part, packet: Packet)
    ensures { memory.new ≡ pushed memory.old part.card.0 packet }
{
    let count = own(memory, part, Word::Count);
    if count < 48 {
        store(memory, place_of(memory, part, count), packet);
        set_own(memory, part, Word::Count, count + 1);
    }
}

// The message of the first letter of a card's inbox.
fn first(memory: &[u32; WORDS], part: Part) -> Result<Message, Refusal>
    ensures { result ≡ got_of memory.now part.card.0 }
{
    if own(memory, part, Word::Count) == 0 {
        return Err(Refusal::NothingToDeliver);
    }
    let packet = load(memory, part.inbox_block(start(memory, part)));
    Ok(Letter::from(packet).message)
}

// The first letter of a card's inbox leaves it, where there is one.
fn drop_first(memory: &mut [u32; WORDS], part: Part)
    ensures { memory.new ≡ popped memory.old part.card.0 }
{
    let count = own(memory, part, Word::Count);
    if count != 0 {
        let next = start(memory, part).past(1);
        set_own(memory, part, Word::Head, next.k);
        set_own(memory, part, Word::Count, count - 1);
    }
}

// The message at the head of a card's inbox, which stays there: what `receive` would hand up.
pub fn head(memory: &[u32; WORDS], card: Card) -> Result<Message, Refusal>
    ensures { result ≡ receive_answer memory.now card }
{
    first(memory, part_of(memory, card)?)
}

// The channel's part of step 9: the head of the card's inbox leaves it.
pub fn receive(memory: &mut [u32; WORDS], card: Card) -> Result<Message, Refusal>
    ensures memory { memory.new ≡ receive_memory memory.old card }
    ensures answer { result ≡ receive_answer memory.old card }
{
    let part = part_of(memory, card)?;
    let got = first(memory, part);
    drop_first(memory, part);
    got
}
