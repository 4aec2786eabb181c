// A card's outbox: a ring of 16 packets.
ghost use Rattle.std.specs.Prelude.{◌≡◌, ◌<◌};
ghost use Rattle.names.specs.Letters.{packet_at, stored};
ghost use Rattle.tables.specs.Outbox.{out_count_of, roomy, posted, first_packet, unposted};

use super::layout::{OUT, OUTBOX, card_place};
use names::{Card, Letter, Packet};

// Kept beside those of the channel, as are the rings above them: one for both would take any array and place, so it would be public and need bounds
// from its callers, and the register layer would read words by the function that reads the channel's.
// The packet at a place.
fn load(registers: &[u32; 593], block: usize) -> Packet
    requires { block < 592 }
    ensures { result ≡ packet_at registers.now block }
{
    Packet {
        word: registers[block],
        value: registers[block + 1],
    }
}

// A packet to a place.
#[tactic(auto, unfolding(names::specs::Letters::stored))]
fn store(registers: &mut [u32; 593], block: usize, packet: Packet)
    requires { block < 592 }
    ensures { registers.new ≡ stored registers.old block packet }
{
    registers[block] = packet.word;
    registers[block + 1] = packet.value;
}

// The number of messages in a card's outbox.
pub fn count(registers: &[u32; 593], card: Card) -> u32
    ensures { result ≡ out_count_of registers.now card.0 }
{
    registers[OUTBOX + card_place(card) * 34 + 1]
}

// Whether one message more fits in a card's outbox.
#[tactic(auto, unfolding(crate::specs::Outbox::roomy))]
pub fn roomy(registers: &[u32; 593], card: Card) -> bool
    ensures { result ≡ roomy registers.now card.0 }
{
    count(registers, card) < 16
}

// One letter more at the end of a card's outbox; nothing changes where there is no room.
#[tactic(auto, using(lists::specs::Tests::cases), unfolding(crate::specs::Outbox::posted))]
pub fn post(registers: &mut [u32; 593], card: Card, letter: Letter)
    ensures { registers.new ≡ posted registers.old card.0 letter }
{
    let i = card_place(card);
    let at = OUTBOX + i * 34;
    let head = registers[at];
    let count = registers[at + 1];
    if 16 <= count {
        return;
    }
    let block = OUT + i * 34 + ((head % 16 + count) % 16) as usize * 2;
    store(registers, block, Packet::from(letter));
    registers[at + 1] = count + 1;
}

// The first packet of a card's outbox.
#[tactic(auto, unfolding(crate::specs::Outbox::first_packet))]
pub fn first(registers: &[u32; 593], card: Card) -> Packet
    ensures { result ≡ first_packet registers.now card.0 }
{
    let i = card_place(card);
    let head = registers[OUTBOX + i * 34];
    load(registers, OUT + i * 34 + (head % 16) as usize * 2)
}

// The first letter of a card's outbox leaves it.
#[tactic(auto, using(lists::specs::Tests::cases), unfolding(crate::specs::Outbox::unposted))]
pub fn unpost(registers: &mut [u32; 593], card: Card)
    ensures { registers.new ≡ unposted registers.old card.0 }
{
    let at = OUTBOX + card_place(card) * 34;
    let head = registers[at];
    let count = registers[at + 1];
    if count == 0 {
        return;
    }
    registers[at] = (head % 16 + 1) % 16;
    registers[at + 1] = count - 1;
}
