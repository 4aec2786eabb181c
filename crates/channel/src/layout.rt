// Where things lie in the channel's memory, its sizes, and its start.
ghost use Rattle.std.specs.Prelude.{◌≡◌, ◌+◌, ◌<◌, ◌≤◌, ◌%◌, min, get_or, set, MatchResult};
ghost use Rattle.channel.specs.Layout.{channel_words, cards_of, tasks_of, registers_of, made_of, taken_of, head_of, own_word, taken_word, inbox_block, place_of, held_block, flight_block, broadcast_block, taken_by};
ghost use Rattle.names.specs.declared.refusals.Refusal.TheVariants.{NoCard};
ghost use Rattle.channel.specs.Letters.{limits_of};
ghost use Rattle.channel.specs.Begin.{sizes_fit, begin_answer, begin_memory};

use crate::Limits;
use names::placement::sizes_in_range;
use names::refusals::{Refusal, Taken};
use names::{BroadcastNumber, Card, Task};

// Words of the whole memory.
pub(crate) const CARDS: usize = 0;

pub(crate) const TASKS: usize = 1;

pub(crate) const REGISTERS: usize = 2;

pub(crate) const MADE: usize = 3;

// The words of card i start at FIRST + i * PART.
const FIRST: usize = 4;

const PART: usize = 148;

// Packets of two words: card i's inbox from INBOX + i * PART; with a tag, three words: what is held for it from KEPT + i * PART.
const INBOX: usize = 8;

const KEPT: usize = 104;

// Task t's message in flight, with its tag, is at FLIGHT + t * 3.
const FLIGHT: usize = 1188;

// How many broadcasts a card may be behind (RULES 7.5). The code says it here alone; so many are kept.
pub(crate) const MOST_BEHIND: u32 = 24;

// Broadcast n is at RECENT + n % MOST_BEHIND * 2, and this ring ends the memory.
pub(crate) const RECENT: usize = 1236;

pub const WORDS: usize = RECENT + MOST_BEHIND as usize * 2;

// The number of cards.
#[tactic(auto, unfolding(crate::specs::Layout::cards_of))]
pub fn cards(memory: &[u32; WORDS]) -> u32
    ensures { (result ≡ cards_of memory.now) × (result ≤ 8) }
{
    memory[CARDS].min(8)
}

// The number of tasks.
#[tactic(auto, unfolding(crate::specs::Layout::tasks_of))]
pub fn tasks(memory: &[u32; WORDS]) -> u32
    ensures { (result ≡ tasks_of memory.now) × (result ≤ 16) }
{
    memory[TASKS].min(16)
}

// The number of registers.
#[tactic(auto, unfolding(crate::specs::Layout::registers_of))]
pub fn registers(memory: &[u32; WORDS]) -> u32
    ensures { (result ≡ registers_of memory.now) × (result ≤ 32) }
{
    memory[REGISTERS].min(32)
}

// What the numbers in a state are below.
pub fn limits_of(memory: &[u32; WORDS]) -> Limits
    ensures { result ≡ limits_of memory.now }
{
    let cards = cards(memory);
    Limits {
        cards,
        sets: 1 << cards,
        tasks: tasks(memory),
        registers: registers(memory),
    }
}

// The number of broadcasts made, which is the number of the last.
pub fn made(memory: &[u32; WORDS]) -> BroadcastNumber
    ensures { result.0 ≡ made_of memory.now }
{
    BroadcastNumber(memory[MADE])
}

// A card that has a part of the memory.
#[derive(Clone, Copy)]
pub(crate) struct Part {
    pub(crate) card: Card,
    ghost below: { card.0 < 8 },
}

impl Part {
    // Where the packet at a place of a card's inbox lies.
    pub(crate) fn inbox_block(self, place: Place) -> Block
        ensures { result.at ≡ inbox_block self.card.0 place.k }
    {
        Block {
            at: INBOX + self.card.0 as usize * PART + place.k as usize * 2,
        }
    }

    // Where place k of what is held for a card lies.
    pub(crate) fn held_block(self, k: u32) -> Tagged
        requires { k < 16 }
        ensures { result.block.at ≡ held_block self.card.0 k }
    {
        let at = KEPT + self.card.0 as usize * PART + k as usize * 3;
        Tagged {
            block: Block { at },
        }
    }
}

// The part of a card, which the sizes must have.
pub(crate) fn part_of(memory: &[u32; WORDS], card: Card) -> Result<Part, Refusal>
    ensures { MatchResult result (λ part. (part.card ≡ card) × (card.0 < cards_of memory.now)) (λ refusal. (refusal ≡ NoCard) × (cards_of memory.now ≤ card.0)) }
{
    if cards(memory) <= card.0 {
        return Err(Refusal::NoCard);
    }
    Ok(Part { card })
}

// A task that has a place for a message in flight.
#[derive(Clone, Copy)]
pub(crate) struct Slot {
    pub(crate) task: Task,
    ghost below: { task.0 < 16 },
}

impl Slot {
    // Where a task's message in flight lies.
    pub(crate) fn flight_block(self) -> Tagged
        ensures { result.block.at ≡ flight_block self.task.0 }
    {
        let at = FLIGHT + self.task.0 as usize * 3;
        Tagged {
            block: Block { at },
        }
    }
}

// A place of an inbox's ring.
#[derive(Clone, Copy)]
pub(crate) struct Place {
    pub(crate) k: u32,
    ghost below: { k < 48 },
}

impl Place {
    // The place that comes k later: after the last comes the first.
    pub(crate) fn past(self, k: u32) -> Place
        requires { k < 48 }
        ensures { result.k ≡ (self.k + k) % 48 }
    {
        let k = self.k + k;
        if k < 48 {
            Place { k }
        } else {
            Place { k: k - 48 }
        }
    }
}

// Where the two words of a packet lie.
#[derive(Clone, Copy)]
pub(crate) struct Block {
    pub(crate) at: usize,
    ghost within: { at + 1 < channel_words },
}

// The block of a packet that has a tag after it.
#[derive(Clone, Copy)]
pub(crate) struct Tagged {
    pub(crate) block: Block,
    ghost within: { block.at + 2 < channel_words },
}

// A card's own words, in the order in which they begin its part.
#[derive(Clone, Copy)]
pub(crate) enum Word {
    Taken,
    Head,
    Count,
    Held,
}

// One of a card's own words.
pub(crate) fn own(memory: &[u32; WORDS], part: Part, word: Word) -> u32
    ensures { result ≡ get_or memory.now (own_word word part.card.0) 0 }
{
    memory[FIRST + part.card.0 as usize * PART + word as usize]
}

pub(crate) fn set_own(memory: &mut [u32; WORDS], part: Part, word: Word, x: u32)
    ensures { memory.new ≡ set memory.old (own_word word part.card.0) x }
{
    memory[FIRST + part.card.0 as usize * PART + word as usize] = x;
}

// How many broadcasts a present card has taken.
pub(crate) fn taken_of(memory: &[u32; WORDS], part: Part) -> BroadcastNumber
    ensures { result.0 ≡ taken_of memory.now part.card.0 }
{
    BroadcastNumber(own(memory, part, Word::Taken))
}

pub(crate) fn set_taken(memory: &mut [u32; WORDS], part: Part, n: BroadcastNumber)
    ensures { memory.new ≡ set memory.old (taken_word part.card.0) n.0 }
{
    set_own(memory, part, Word::Taken, n.0);
}

// Where an inbox starts in its ring. In a well-sized memory no start is past the ring's end, so nothing is divided.
pub(crate) fn start(memory: &[u32; WORDS], part: Part) -> Place
    ensures { result.k ≡ head_of memory.now part.card.0 % 48 }
{
    let head = own(memory, part, Word::Head);
    if head < 48 {
        Place { k: head }
    } else {
        Place { k: head % 48 }
    }
}

// Where place k of a card's inbox lies, oldest first.
pub(crate) fn place_of(memory: &[u32; WORDS], part: Part, k: u32) -> Block
    requires { k < 48 }
    ensures { result.at ≡ place_of memory.now part.card.0 k }
{
    part.inbox_block(start(memory, part).past(k))
}

// Where a broadcast lies.
pub(crate) fn broadcast_block(n: BroadcastNumber) -> Block
    ensures { result.at ≡ broadcast_block n.0 }
{
    Block {
        at: RECENT + (n.0 % MOST_BEHIND) as usize * 2,
    }
}

// The number of broadcasts that a card has taken; 0 for an absent card.
pub fn taken(memory: &[u32; WORDS], card: Card) -> BroadcastNumber
    ensures { result.0 ≡ taken_by memory.now card.0 }
{
    match part_of(memory, card) {
        Ok(part) => taken_of(memory, part),
        Err(_) => BroadcastNumber(0),
    }
}

// Whether the sizes are in range.
pub(crate) fn sizes_fit(cards: u32, tasks: u32, registers: u32) -> bool
    ensures { result ≡ sizes_fit cards tasks registers }
{
    sizes_in_range(cards as usize, registers as usize, tasks as usize)
}

// The memory for these sizes with every queue empty and no broadcast made.
pub fn begin(
    memory: &mut [u32; WORDS],
    cards: u32,
    tasks: u32,
    registers: u32,
) -> Result<Taken, Refusal>
    ensures memory { memory.new ≡ begin_memory memory.old cards tasks registers }
    ensures answer { result ≡ begin_answer cards tasks registers }
{
    if !sizes_fit(cards, tasks, registers) {
        return Err(Refusal::SizeOutOfRange);
    }
    *memory = [0; WORDS];
    memory[CARDS] = cards;
    memory[TASKS] = tasks;
    memory[REGISTERS] = registers;
    Ok(Taken::Done)
}
