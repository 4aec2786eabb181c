// What the memories say to one who looks.
ghost use Rattle.std.specs.Prelude.{◌≡◌};
ghost use Rattle.tables.specs.Layout.{requests_of};
ghost use Rattle.tables.specs.Panel.{doing_shown};
ghost use Rattle.tables.specs.SideBySide.{value_shown, copies_shown};

use super::doings::load;
use super::layout::{REQUESTS, copy, copy_place, holders};
use crate::Doing;
use names::{Card, Register, Task};

// The number of requests taken.
pub fn requests(registers: &[u32; 593]) -> u32
    ensures { result ≡ requests_of registers.now }
{
    registers[REQUESTS]
}

// The value of a card's copy of a register; 0 for an absent card or register.
pub fn value(
    registers: &[u32; 593],
    channel: &[u32; channel::WORDS],
    card: Card,
    register: Register,
) -> u32
    ensures { result ≡ value_shown registers.now channel.now card register }
{
    if card.0 < channel::cards(channel) && register.0 < channel::registers(channel) {
        copy(registers, card, register)
    } else {
        0
    }
}

// The copies of a register, card by card; 0 for an absent card or register and for a card without a copy.
pub fn copies(
    registers: &[u32; 593],
    channel: &[u32; channel::WORDS],
    register: Register,
    out: &mut [u32; 8],
)
    ensures { out.new ≡ copies_shown registers.now channel.now register }
{
    *out = [0; 8];
    let cards = channel::cards(channel);
    let there = register.0 < channel::registers(channel);
    let holding = holders(registers, register);
    let first = copy_place(Card(0), register);
    // Kept: by number: the card's, the output's and the words'; `enumerate` would give one and leave the others by number.
    for i in 0..8 {
        let held = there & (i < cards) & names::member(holding, Card(i));
        out[i as usize] = names::picked(held, registers[first + i as usize]);
    }
}

// What a task is doing; quiet for an absent task.
#[tactic(auto, using(lists::specs::Tests::cases), unfolding(crate::specs::Panel::doing_shown))]
pub fn doing_of(registers: &[u32; 593], channel: &[u32; channel::WORDS], task: Task) -> Doing
    ensures { result ≡ doing_shown registers.now channel.now task }
{
    if task.0 < channel::tasks(channel) {
        load(registers, task)
    } else {
        Doing::Quiet
    }
}
