// Step 7: a card takes the next broadcast, and what waited for it joins.
ghost use Rattle.std.specs.Prelude.{◌≡◌, cond, leb, ◌<◌, ◌≤◌, ◌+◌};
ghost use Rattle.channel.specs.TakeBroadcast.{ready_at, releasable_of, broadcast_at, broadcasts_of, swept_words, swept_kept, released_words, arrived, joined, room_answer, next_answer, next_memory, take_answer, take_memory};

use super::inbox::push;
use super::layout::{
    Part, WORDS, Word, broadcast_block, made, own, part_of, place_of, set_own, set_taken, taken_of,
};
use super::letters::{load, mark, tag_at, to_at};
use names::refusals::{Refusal, Taken};
use names::{BroadcastNumber, Card, Packet};

// How many held messages of a card wait for broadcast n.
fn releasable(memory: &[u32; WORDS], part: Part, n: BroadcastNumber) -> u32
    ensures { (result ≡ releasable_of memory.now part.card.0 n.0) × (result ≤ 16) }
{
    (0..own(memory, part, Word::Held).min(16)).fold(
        0,
        |sum, k|
            requires { (sum < 16) × (k < 16) }
        { sum + u32::from(tag_at(memory, part.held_block(k)) == n) },
    )
}

// One held message: it joins the inbox where its tag is n, and else it moves down to place `kept`.
fn sweep(memory: &mut [u32; WORDS], part: Part, n: BroadcastNumber, k: u32, kept: u32) -> u32
    requires { (k < 16) × (kept ≤ k) }
    ensures memory { memory.new ≡ swept_words part.card.0 n.0 k memory.old kept }
    ensures kept { (result ≡ swept_kept part.card.0 n.0 k memory.old kept) × (result ≤ kept + 1) }
{
    let tagged = part.held_block(k);
    let packet = load(memory, tagged.block);
    let tag = tag_at(memory, tagged);
    if tag == n {
        push(memory, part, packet);
        kept
    } else {
        mark(memory, part.held_block(kept), packet, tag);
        kept + 1
    }
}

// The held messages of a card with tag n join its inbox in order, and the others close up.
fn release(memory: &mut [u32; WORDS], part: Part, n: BroadcastNumber)
    ensures { memory.new ≡ released_words memory.old part.card.0 n.0 }
{
    let mut kept = 0;
    for k in 0..own(memory, part, Word::Held).min(16) {
        kept = sweep(memory, part, n, k, kept);
    }
    set_own(memory, part, Word::Held, kept);
}

// How many broadcasts stand in a card's inbox.
fn broadcasts(memory: &[u32; WORDS], part: Part) -> u32
    ensures { (result ≡ broadcasts_of memory.now part.card.0) × (result ≤ 48) }
{
    (0..own(memory, part, Word::Count).min(48)).fold(
        0,
        |sum, k|
            requires { (sum < 48) × (k < 48) }
        { sum + u32::from(names::several(to_at(memory, place_of(memory, part, k)))) },
    )
}

// Whether a card's inbox has 32 broadcasts. A shorter inbox is not counted through.
fn crowded(memory: &[u32; WORDS], part: Part) -> bool
    ensures { result ≡ leb 32 (broadcasts_of memory.now part.card.0) }
{
    32 <= own(memory, part, Word::Count) && 32 <= broadcasts(memory, part)
}

// A broadcast and its number reach a card, a destination: it joins the inbox, and then what waited for it.
fn arrive(memory: &mut [u32; WORDS], part: Part, number: BroadcastNumber, broadcast: Packet)
    ensures { memory.new ≡ arrived memory.old part.card.0 number.0 broadcast }
{
    push(memory, part, broadcast);
    release(memory, part, number);
}

// A card takes broadcast n, whose packet is `packet`.
fn join(memory: &mut [u32; WORDS], part: Part, n: BroadcastNumber, packet: Packet, there: bool)
    ensures { memory.new ≡ joined memory.old part.card.0 n.0 packet there }
{
    set_taken(memory, part, n);
    if there {
        arrive(memory, part, n, packet);
    } else {
        release(memory, part, n);
    }
}

// The number after x, which is below y.
fn after(x: BroadcastNumber, y: BroadcastNumber) -> BroadcastNumber
    requires { x.0 < y.0 }
    ensures { result.0 ≡ x.0 + 1 }
{
    BroadcastNumber(x.0 + 1)
}

// Whether a card's inbox has room for broadcast n and what it releases.
fn room(
    memory: &[u32; WORDS],
    part: Part,
    n: BroadcastNumber,
    there: bool,
) -> Result<Taken, Refusal>
    ensures { result ≡ room_answer memory.now part.card.0 n.0 there }
{
    if there && crowded(memory, part) {
        return Err(Refusal::Crowded);
    }
    let count = own(memory, part, Word::Count) as usize
        + releasable(memory, part, n) as usize
        + usize::from(there);
    if 48 < count {
        Err(Refusal::IllSized)
    } else {
        Ok(Taken::Done)
    }
}

// A card takes broadcast n, where there is room.
fn take_next(memory: &mut [u32; WORDS], part: Part, n: BroadcastNumber) -> Result<Taken, Refusal>
    ensures memory { memory.new ≡ next_memory memory.old part.card.0 n.0 }
    ensures answer { result ≡ next_answer memory.old part.card.0 n.0 }
{
    let block = broadcast_block(n);
    let packet = load(memory, block);
    let there = names::member(to_at(memory, block), part.card);
    let taken = room(memory, part, n, there)?;
    join(memory, part, n, packet, there);
    Ok(taken)
}

// Step 7: the card takes the next broadcast.
pub fn take_broadcast(memory: &mut [u32; WORDS], card: Card) -> Result<Taken, Refusal>
    ensures memory { memory.new ≡ take_memory memory.old card }
    ensures answer { result ≡ take_answer memory.old card }
{
    let part = part_of(memory, card)?;
    let taken = taken_of(memory, part);
    let last = made(memory);
    if last <= taken {
        return Err(Refusal::NoBroadcast);
    }
    take_next(memory, part, after(taken, last))
}
