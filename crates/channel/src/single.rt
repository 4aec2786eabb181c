// Step 8: a task's message in flight reaches its destination.
ghost use Rattle.std.specs.Prelude.{◌≡◌, ◌<◌, ◌≤◌, true};
ghost use Rattle.names.specs.CardSet.{single, sole_of};
ghost use Rattle.channel.specs.TakeSingle.{no_flight, joins_at, held_more, landed, land_answer, reach_answer, reach_memory, single_answer, single_memory};

use super::inbox::push;
use super::layout::{Part, Slot, WORDS, Word, own, set_own, taken_of, tasks};
use super::letters::{kind_at, load, mark, tag_at, to_at};
use names::refusals::{Refusal, Taken};
use names::{BroadcastNumber, Packet, Task};

// Whether a task has nothing in flight.
pub(crate) fn no_flight(memory: &[u32; WORDS], slot: Slot) -> bool
    ensures { result ≡ no_flight memory.now slot.task.0 }
{
    kind_at(memory, slot.flight_block().block) == 0
}

// The one destination of a message.
fn destination(to: u32) -> Part
    requires { single to ≡ true }
    ensures { result.card.0 ≡ sole_of to }
{
    Part {
        card: names::sole(to),
    }
}

// Whether a message with this tag joins a card's inbox, and is not held.
fn joins_at(memory: &[u32; WORDS], part: Part, tag: BroadcastNumber) -> bool
    ensures { result ≡ joins_at memory.now part.card.0 tag.0 }
{
    tag <= taken_of(memory, part)
}

// One packet more among those held for a card; nothing changes where there is no room.
fn hold(memory: &mut [u32; WORDS], part: Part, packet: Packet, tag: BroadcastNumber)
    ensures { memory.new ≡ held_more memory.old part.card.0 packet tag.0 }
{
    let held = own(memory, part, Word::Held);
    if held < 16 {
        mark(memory, part.held_block(held), packet, tag);
        set_own(memory, part, Word::Held, held + 1);
    }
}

// A task's message in flight reaches a card, where it joins the inbox or is held.
fn land(
    memory: &mut [u32; WORDS],
    slot: Slot,
    part: Part,
    packet: Packet,
    tag: BroadcastNumber,
    joins: bool,
)
    ensures { memory.new ≡ landed memory.old slot.task.0 part.card.0 packet tag.0 joins }
{
    let block = slot.flight_block().block;
    memory[block.at] = 0;
    if joins {
        push(memory, part, packet);
    } else {
        hold(memory, part, packet, tag);
    }
}

// Whether a card has room for a message, and what becomes of it there: it joins the inbox, or is held.
fn may_land(memory: &[u32; WORDS], part: Part, joins: bool) -> Result<Taken, Refusal>
    ensures { result ≡ land_answer memory.now part.card.0 joins }
{
    match joins {
        true if own(memory, part, Word::Count) < 48 => Ok(Taken::Done),
        false if own(memory, part, Word::Held) < 16 => Ok(Taken::Held),
        _ => Err(Refusal::IllSized),
    }
}

// A task's message in flight reaches its destination, where there is room.
fn reach(memory: &mut [u32; WORDS], slot: Slot) -> Result<Taken, Refusal>
    ensures memory { memory.new ≡ reach_memory memory.old slot.task.0 }
    ensures answer { result ≡ reach_answer memory.old slot.task.0 }
{
    let tagged = slot.flight_block();
    let packet = load(memory, tagged.block);
    let to = to_at(memory, tagged.block);
    if !names::single(to) {
        return Err(Refusal::IllSized);
    }
    let tag = tag_at(memory, tagged);
    let part = destination(to);
    let joins = joins_at(memory, part, tag);
    let taken = may_land(memory, part, joins)?;
    land(memory, slot, part, packet, tag, joins);
    Ok(taken)
}

// Step 8: the task's message in flight reaches its destination.
pub fn take_single(memory: &mut [u32; WORDS], task: Task) -> Result<Taken, Refusal>
    ensures memory { memory.new ≡ single_memory memory.old task }
    ensures answer { result ≡ single_answer memory.old task }
{
    if tasks(memory) <= task.0 {
        return Err(Refusal::NoTask);
    }
    let slot = Slot { task };
    if no_flight(memory, slot) {
        return Err(Refusal::NoneInFlight);
    }
    reach(memory, slot)
}
