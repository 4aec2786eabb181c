// Packets in the memory, and what of a letter in one is past its limit.
ghost use Rattle.std.specs.Prelude.{◌≡◌, ◌+◌, ◌<◌, ◌≤◌};
ghost use Rattle.names.specs.Letters.{letter_of, packet_at, letter_at, kind_at, tag_at, stored, marked};
ghost use Rattle.channel.specs.Layout.{channel_words};
ghost use Rattle.channel.specs.Letters.{fields_fit, fits, word_fits};

use super::layout::{Block, Tagged, WORDS, limits_of};
use crate::Limits;
use names::letters::{function_fits, function_in, kind_in, register_in, task_in, to_in};
use names::{BroadcastNumber, Packet};

// The kind, the destinations and the tag at a place.
pub(crate) fn kind_at(memory: &[u32; WORDS], block: Block) -> u32
    ensures { result ≡ kind_at memory.now block.at }
{
    kind_in(memory[block.at])
}

pub(crate) fn to_at(memory: &[u32; WORDS], block: Block) -> u32
    ensures { result ≡ (letter_at memory.now block.at).to }
{
    to_in(memory[block.at])
}

pub(crate) fn tag_at(memory: &[u32; WORDS], tagged: Tagged) -> BroadcastNumber
    ensures { result.0 ≡ tag_at memory.now tagged.block.at }
{
    BroadcastNumber(memory[tagged.block.at + 2])
}

// The packet at a place.
pub(crate) fn load(memory: &[u32; WORDS], block: Block) -> Packet
    ensures { result ≡ packet_at memory.now block.at }
{
    Packet {
        word: memory[block.at],
        value: memory[block.at + 1],
    }
}

// A packet to a place.
#[tactic(auto, unfolding(names::specs::Letters::stored))]
pub(crate) fn store(memory: &mut [u32; WORDS], block: Block, packet: Packet)
    ensures { memory.new ≡ stored memory.old block.at packet }
{
    memory[block.at] = packet.word;
    memory[block.at + 1] = packet.value;
}

// A packet and its tag to a place.
pub(crate) fn mark(memory: &mut [u32; WORDS], tagged: Tagged, packet: Packet, tag: BroadcastNumber)
    ensures { memory.new ≡ marked memory.old tagged.block.at packet tag.0 }
{
    store(memory, tagged.block, packet);
    memory[tagged.block.at + 2] = tag.0;
}

// Whether the fields of a packet's first word, but its kind, are within the limits, and there is a destination.
// Kept: `.0`, since limits are numbers, not tasks or registers.
fn fields_fit(limits: Limits, word: u32) -> bool
    ensures { result ≡ fields_fit limits word }
{
    let to = to_in(word);
    (task_in(word).0 < limits.tasks)
        & (register_in(word).0 < limits.registers)
        & function_fits(kind_in(word), function_in(word))
        & ((1 <= to) & (to < limits.sets))
}

// Whether no field of the letter that a packet carries is past its limit, there is a destination, and each is a present card.
pub(crate) fn fits(memory: &[u32; WORDS], packet: Packet) -> bool
    ensures { result ≡ fits memory.now (letter_of packet) }
{
    fields_fit(limits_of(memory), packet.word)
}

// Whether a packet's first word is of a message with no field past its limit.
pub fn word_fits(limits: Limits, word: u32) -> bool
    ensures { result ≡ word_fits limits word }
{
    let kind = kind_in(word);
    (1 <= kind) & (kind <= 4) & fields_fit(limits, word)
}
