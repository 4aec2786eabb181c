// Whether a placement is accepted: the rules that a run file and a start without a file share.
ghost use Rattle.std.specs.Prelude.{◌≡◌, ◌^◌, ◌<◌, nat_lt, slice_index};
ghost use Rattle.names.specs.Placement.{Placement, placement, sizes_in_range, register_placed, homes_placed, registers_placed, sized, placed, placement_refusal};
ghost use Rattle.names.specs.Refusals.{number_of};

use crate::refusals::Refusal;
use crate::{Card, member};
use std::marker::Model;

// The byte at i, and 0 past the end.
pub fn byte(bytes: &[u8], i: usize) -> u32
    ensures { (result ≡ slice_index bytes.now i) × (result < 256) }
{
    match bytes.get(i) {
        Some(&byte) => byte as u32,
        None => 0,
    }
}

// Whether the numbers of cards, registers and tasks are in range.
#[tactic(auto, using(lists::specs::Tests::cases), unfolding(crate::specs::Placement::sizes_in_range))]
pub fn sizes_in_range(cards: usize, registers: usize, tasks: usize) -> bool
    ensures { result ≡ sizes_in_range cards registers tasks }
{
    (1 <= cards)
        & (cards <= 8)
        & (1 <= registers)
        & (registers <= 32)
        & (1 <= tasks)
        & (tasks <= 16)
}

// Whether each card of a set is one of the cards 0 to cards - 1.
pub fn all_present(set: u32, cards: u32) -> bool
    ensures { result ≡ nat_lt set (2 ^ cards) }
{
    32 <= cards || set >> cards == 0
}

// Whether a register has a copy, none on an absent card, and one on its primary.
#[tactic(auto, using(lists::specs::Tests::cases), unfolding(crate::specs::Placement::register_placed))]
fn register_placed(cards: u32, holders: u32, primary: Card) -> bool
    ensures { result ≡ register_placed cards holders primary.0 }
{
    1 <= holders && all_present(holders, cards) && member(holders, primary)
}

// The number of cards; by task its home card; by register the set of cards that hold a copy, and its primary card (RULES 1.7, 10.1).
#[derive(Drop)]
pub struct Placement<'a> {
    pub cards: u32,
    pub homes: &'a [u8],
    pub copies: &'a [u8],
    pub primaries: &'a [u8],
}

impl<'a> Model for Placement<'a> {
    ghost Value = { Placement };

    ghost view = { λ p. placement p.cards p.homes.now p.copies.now p.primaries.now };
}

impl<'a> Placement<'a> {
    // Whether the sizes are in range; the numbers of registers and tasks are the tables' lengths.
    #[tactic(auto, unfolding(crate::specs::Placement::sized))]
    pub fn is_sized(&self) -> bool
        ensures { result ≡ sized self.now }
    {
        sizes_in_range(self.cards as usize, self.copies.len(), self.homes.len())
            && self.primaries.len() == self.copies.len()
    }

    // Whether homes and copies lie as refusal 4 asks.
    #[tactic(auto, unfolding(crate::specs::Placement::placed))]
    pub fn is_placed(&self) -> bool
        ensures { result ≡ placed self.now }
    {
        homes_placed(self.cards, self.homes)
            && registers_placed(self.cards, self.copies, self.primaries)
    }

    // Whether it is accepted: 3 is judged before 4.
    #[tactic(auto, unfolding(crate::specs::Placement::placement_refusal))]
    pub fn judge(&self) -> Result<(), Refusal>
        ensures { number_of result ≡ placement_refusal self.now }
    {
        if !self.is_sized() {
            return Err(Refusal::SizeOutOfRange);
        }
        if !self.is_placed() {
            return Err(Refusal::Misplaced);
        }
        Ok(())
    }
}

// Whether each task's home is present.
#[tactic(auto, using(lists::specs::Every::each_zero, lists::specs::Every::each_more, lists::specs::Tests::cases), unfolding(crate::specs::Placement::homes_placed, crate::specs::Placement::home_placed))]
fn homes_placed(cards: u32, homes: &[u8]) -> bool
    ensures { result ≡ homes_placed cards homes.now }
{
    for &home in homes {
        if cards <= home as u32 {
            return false;
        }
    }
    true
}

// Whether each register is placed.
#[tactic(auto, using(lists::specs::Every::each_zero, lists::specs::Every::each_more), unfolding(crate::specs::Placement::registers_placed))]
fn registers_placed(cards: u32, copies: &[u8], primaries: &[u8]) -> bool
    ensures { result ≡ registers_placed cards copies.now primaries.now }
{
    for (x, &holders) in copies.iter().enumerate() {
        if !register_placed(cards, holders as u32, Card(byte(primaries, x))) {
            return false;
        }
    }
    true
}
