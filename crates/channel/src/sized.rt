// The check of the whole memory that refusal 6 for the state asks for. Tests are joined by `&`, with no early return but among flight slots, which
// are mostly empty: a well-sized memory meets them all, and nothing waits for one of them.
ghost use Rattle.std.specs.Prelude.{◌≡◌, ◌+◌, ◌<◌, ◌≤◌, min, cond, ltb};
ghost use Rattle.lists.specs.Every.{each};
ghost use Rattle.automaton.specs.MostBehind.{most_behind};
ghost use Rattle.channel.specs.Layout.{channel_words, made_of};
ghost use Rattle.channel.specs.Letters.{limits_of};
ghost use Rattle.channel.specs.Sized.{block_fits, tagged_fits, inbox_fits, held_fits, flight_fits, broadcast_fits, counts_fit, card_fits, recent_fits, head_fits, well_sized};

use super::layout::{
    Block, CARDS, MOST_BEHIND, Part, RECENT, REGISTERS, Slot, TASKS, Tagged, WORDS, Word, cards,
    limits_of, made, own, place_of, sizes_fit, taken_of, tasks,
};
use super::letters::{tag_at, to_at, word_fits};
use super::single::no_flight;
use crate::Limits;
use names::{BroadcastNumber, Card, Task};

// A memory under this check, and its limits, which are read once.
#[derive(Drop)]
struct Checked<'a> {
    memory: &'a [u32; WORDS],
    limits: Limits,
    ghost limits_read: { limits ≡ limits_of memory.now },
}

impl<'a> Checked<'a> {
    // Whether a place has a message with no field past its limit.
    fn block_fits(&self, block: Block) -> bool
        ensures { result ≡ block_fits self.now.memory.now self.now.memory.now block.at }
    {
        word_fits(self.limits, self.memory[block.at])
    }

    // Whether its tag is not past its limit either.
    fn tagged_fits(&self, tagged: Tagged) -> bool
        ensures { result ≡ tagged_fits self.now.memory.now tagged.block.at }
    {
        self.block_fits(tagged.block) & (tag_at(self.memory, tagged).0 <= 65535)
    }

    // Whether a card's part is in order.
    fn card_fits(&self, part: Part) -> bool
        ensures { result ≡ card_fits self.now.memory.now part.card.0 }
    {
        let inbox = own(self.memory, part, Word::Count).min(48);
        let held = own(self.memory, part, Word::Held).min(16);
        counts_fit(self.memory, part)
            & (0..inbox).fold(
                true,
                |all, k| all & self.block_fits(place_of(self.memory, part, k)),
            )
            & (0..held).fold(true, |all, k| all & self.tagged_fits(part.held_block(k)))
    }

    // Whether a task's flight slot is in order.
    fn flight_fits(&self, slot: Slot) -> bool
        ensures { result ≡ flight_fits self.now.memory.now slot.task.0 }
    {
        let tagged = slot.flight_block();
        no_flight(self.memory, slot)
            || self.tagged_fits(tagged) & names::single(to_at(self.memory, tagged.block))
    }

    // Whether the broadcast at a place is in order.
    fn broadcast_fits(&self, place: usize) -> bool
        requires { place < most_behind }
        ensures { result ≡ broadcast_fits self.now.memory.now place }
    {
        let block = Block {
            at: RECENT + place * 2,
        };
        self.block_fits(block) & names::several(to_at(self.memory, block))
    }

    // Whether the last broadcasts are in order. Their places are taken as they lie, not by number, so that they are read one after another.
    fn recent_all(&self) -> bool
        ensures { result ≡ each (min (made_of self.now.memory.now) most_behind) (recent_fits self.now.memory.now) }
    {
        let last = made(self.memory);
        let first = first_recent(last);
        (0..last.0.min(MOST_BEHIND)).fold(true, |all, k| {
            all & self.broadcast_fits(first + k as usize)
        })
    }
}

// Whether a card's counts are in order.
fn counts_fit(memory: &[u32; WORDS], part: Part) -> bool
    ensures { result ≡ counts_fit memory.now part.card.0 }
{
    let taken = taken_of(memory, part).0 as usize;
    let last = made(memory).0 as usize;
    (taken <= last)
        & (last <= taken + MOST_BEHIND as usize)
        & (own(memory, part, Word::Head) < 48)
        & (own(memory, part, Word::Count) <= 48)
        & (own(memory, part, Word::Held) <= 16)
}

// The first place in use among the last broadcasts: 1 until the ring is full, for place 0 is used last.
fn first_recent(made: BroadcastNumber) -> usize
    ensures { (result ≡ cond (ltb made.0 most_behind) 1 0) × (result + min made.0 most_behind ≤ most_behind) }
{
    usize::from(made.0 < MOST_BEHIND)
}

// Whether the sizes and the number of broadcasts made are in range.
fn head_fits(memory: &[u32; WORDS]) -> bool
    ensures { result ≡ head_fits memory.now }
{
    sizes_fit(memory[CARDS], memory[TASKS], memory[REGISTERS]) & (made(memory).0 <= 65535)
}

// Whether the memory is well sized; else a step is refused with 6.
pub fn well_sized(memory: &[u32; WORDS]) -> bool
    ensures { result ≡ well_sized memory.now }
{
    let checked = Checked {
        memory,
        limits: limits_of(memory),
    };
    head_fits(memory)
        & (0..cards(memory)).fold(
            true,
            |all, i|
                requires { i < 8 }
            { all & checked.card_fits(Part { card: Card(i) }) },
        )
        & (0..tasks(memory)).all(
            |t|
                requires { t < 16 }
            { checked.flight_fits(Slot { task: Task(t) }) },
        )
        & checked.recent_all()
}
