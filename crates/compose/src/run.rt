// The tables of a run (RULES 15.1), as its lines fill them.
ghost use Rattle.std.specs.Prelude.{◌≤◌, IfOk};

use super::failure::Wrong;
use super::lines::Counts;
use super::steps::Step;
use arrayvec::ArrayVec;
use console::Refused;
use names::placement::Placement;
use std::slice::from_ref;

pub(crate) const LONGEST_FILE: usize = 5 + 16 + 2 * 32 + 9 * 4096;

// Kept: parallel tables. `runfile::compose` takes them so, since C hands it such tables.
#[derive(Drop)]
pub(crate) struct Run {
    cards: u32,
    homes: ArrayVec<u8, 16>,
    copies: ArrayVec<u8, 32>,
    primaries: ArrayVec<u8, 32>,
    codes: ArrayVec<u8, 4096>,
    arguments: ArrayVec<u8, 32768>,
}

// A line is the next of its part, by the number that it gives.
fn in_turn(number: usize, next: usize) -> Result<(), Wrong> {
    if number == next {
        Ok(())
    } else {
        Err(Wrong::OutOfPlace)
    }
}

impl Run {
    pub(crate) fn new() -> Run {
        Run {
            cards: 0,
            homes: ArrayVec::new(),
            copies: ArrayVec::new(),
            primaries: ArrayVec::new(),
            codes: ArrayVec::new(),
            arguments: ArrayVec::new(),
        }
    }

    pub(crate) fn set_cards(&mut self, cards: u32) -> Result<(), Wrong> {
        self.cards = cards;
        self.judged(0, 1, 0)
    }

    pub(crate) fn add_task(&mut self, task: u8, home: u8) -> Result<(), Wrong> {
        in_turn(task as usize, self.homes.len())?;
        self.homes.try_push(home)?;
        self.judged(home, 1, 0)
    }

    pub(crate) fn add_register(
        &mut self,
        register: u8,
        copies: u8,
        primary: u8,
    ) -> Result<(), Wrong> {
        in_turn(register as usize, self.copies.len())?;
        self.copies.try_push(copies)?;
        self.primaries.try_push(primary)?;
        self.judged(0, copies, primary)
    }

    pub(crate) fn add_step(&mut self, place: Option<u32>, step: Step) -> Result<(), Wrong> {
        if let Some(place) = place {
            in_turn(place as usize, self.codes.len())?;
        }
        let (code, argument) = step.in_file();
        self.codes.try_push(code)?;
        self.arguments.try_extend_from_slice(&argument)?;
        Ok(())
    }

    // What is said of a run with one task and one register, where a line gives some of these; card 0, which is there, is right for the others.
    fn judged(&self, home: u8, copies: u8, primary: u8) -> Result<(), Wrong> {
        let placement = Placement {
            cards: self.cards,
            homes: from_ref(&home),
            copies: from_ref(&copies),
            primaries: from_ref(&primary),
        };
        placement
            .judge()
            .map_err(|refusal| Wrong::Refused(Refused(refusal)))
    }

    pub(crate) fn counts(&self) -> Counts {
        Counts {
            registers: self.copies.len() as u32,
            tasks: self.homes.len() as u32,
            steps: self.codes.len() as u32,
        }
    }

    // The run file at the start of an output: its length.
    #[tactic(auto, unfolding(runfile::specs::Compose::composed_of, runfile::specs::Compose::compose_refusal, runfile::specs::Head::placed_number))]
    pub(crate) fn write(&self, out: &mut [u8; LONGEST_FILE]) -> Result<usize, Refused>
        ensures { IfOk result (λ length. length ≤ LONGEST_FILE) }
    {
        let placement = Placement {
            cards: self.cards,
            homes: self.homes.as_slice(),
            copies: self.copies.as_slice(),
            primaries: self.primaries.as_slice(),
        };
        runfile::compose(
            &placement,
            self.codes.as_slice(),
            self.arguments.as_slice(),
            out,
        )
        .map(|length| length as usize)
        .map_err(Refused)
    }
}
