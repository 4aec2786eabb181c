// Step 6, the channel's part: a message goes to its destinations.
ghost use Rattle.std.specs.Prelude.{◌≡◌, ◌<◌, ◌≤◌};
ghost use Rattle.names.specs.Letters.{letter_of};
ghost use Rattle.channel.specs.Dispatch.{near_at, near, cast_answer, cast_memory, fly_answer, fly_memory, dispatch_answer, dispatch_memory};

use super::layout::{
    MADE, MOST_BEHIND, Part, Slot, WORDS, broadcast_block, cards, made, part_of, taken_of,
};
use super::letters::{fits, mark, store};
use super::single::no_flight;
use names::letters::{repacked, task_in, to_in};
use names::refusals::{Refusal, Taken};
use names::{BroadcastNumber, Card, Packet};

// Whether one broadcast more leaves a card not too far behind.
fn near_at(memory: &[u32; WORDS], part: Part) -> bool
    ensures { result ≡ near_at memory.now part.card.0 }
{
    let taken = taken_of(memory, part).0 as usize;
    let last = made(memory).0 as usize;
    last + 1 <= taken + MOST_BEHIND as usize
}

// Whether one broadcast more leaves no card too far behind.
// Kept: a loop that returns. With `all` a step that is refused here takes a fifth longer (DESIGN-PASS).
fn near(memory: &[u32; WORDS]) -> bool
    ensures { result ≡ near memory.now }
{
    for i in 0..cards(memory) {
        if !near_at(memory, Part { card: Card(i) }) {
            return false;
        }
    }
    true
}

// A letter to more cards than one becomes the next broadcast.
fn cast(memory: &mut [u32; WORDS], packet: Packet) -> Result<Taken, Refusal>
    ensures memory { memory.new ≡ cast_memory memory.old (letter_of packet) }
    ensures answer { result ≡ cast_answer memory.old (letter_of packet) }
{
    if !near(memory) {
        return Err(Refusal::FarBehind);
    }
    if !fits(memory, packet) {
        return Err(Refusal::IllSized);
    }
    let last = made(memory);
    if 65535 <= last.0 {
        return Err(Refusal::IllSized);
    }
    let next = BroadcastNumber(last.0 + 1);
    store(memory, broadcast_block(next), repacked(packet));
    memory[MADE] = next.0;
    Ok(Taken::Done)
}

// A letter to one card is in flight, tagged with the number of broadcasts that the card, which sends it, has taken.
fn fly(memory: &mut [u32; WORDS], part: Part, packet: Packet) -> Result<Taken, Refusal>
    ensures memory { memory.new ≡ fly_memory memory.old part.card.0 (letter_of packet) }
    ensures answer { result ≡ fly_answer memory.old (letter_of packet) }
{
    if !fits(memory, packet) {
        return Err(Refusal::IllSized);
    }
    let slot = Slot {
        task: task_in(packet.word),
    };
    if !no_flight(memory, slot) {
        return Err(Refusal::IllSized);
    }
    let tag = taken_of(memory, part);
    mark(memory, slot.flight_block(), repacked(packet), tag);
    Ok(Taken::Done)
}

// Step 6, the channel's part: the message in a packet goes to its destinations. It is never taken out of the packet.
pub fn dispatch(memory: &mut [u32; WORDS], card: Card, packet: Packet) -> Result<Taken, Refusal>
    ensures memory { memory.new ≡ dispatch_memory memory.old card (letter_of packet).message (letter_of packet).to }
    ensures answer { result ≡ dispatch_answer memory.old card (letter_of packet).message (letter_of packet).to }
{
    let part = part_of(memory, card)?;
    if names::several(to_in(packet.word)) {
        return cast(memory, packet);
    }
    fly(memory, part, packet)
}
