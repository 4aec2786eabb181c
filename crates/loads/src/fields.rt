// The fields of a step, drawn in layout order, and the eight bytes of its argument (RULES 17.3, 3.3).
ghost use Rattle.std.specs.Prelude.{◌≡◌, ◌+◌, ◌≤◌, ◌<◌, true, length};
ghost use Rattle.std.proofs.lemmas.List.Edits.{sets};
ghost use Rattle.names.specs.Placement.{sizes_in_range};
ghost use Rattle.loads.specs.Load.{fields, after_fields, zeros, filled};
ghost use Rattle.loads.specs.Filling.{argument_of};

use super::draws::{draw, function_from, next, one_of};

// How many there are of what a field names.
#[derive(Clone, Copy)]
pub(crate) struct Ranges {
    pub(crate) cards: u32,
    pub(crate) registers: u32,
    pub(crate) tasks: u32,
    ghost sound: { sizes_in_range cards registers tasks ≡ true },
}

// What a step names, 0 where its code names none, and the state after its draws.
#[derive(Clone, Copy)]
pub(crate) struct Fields {
    first: u32,
    second: u32,
    function: u32,
    operand: u32,
    pub(crate) state: u32,
    ghost bytes: { (first < 256) × (second < 256) × (function < 256) },
}

impl Fields {
    // The argument of these fields, at a place.
    pub(crate) fn put(self, out: &mut [u8], at: usize)
        requires { at + 8 ≤ length out.old }
        ensures { out.new ≡ sets out.old at (argument_of self.first self.second self.function self.operand) }
    {
        let [a, b, c, d] = self.operand.to_le_bytes();
        let first = self.first as u8;
        let second = self.second as u8;
        let function = self.function as u8;
        out[at..at + 8].copy_from_slice(&[first, second, function, 0, a, b, c, d]);
    }
}

// A field takes a draw; what is not named takes none.
#[tactic(auto, unfolding(names::specs::Placement::sizes_in_range, crate::specs::Filling::argument_of, crate::specs::Load::fields, crate::specs::Load::place, crate::specs::Load::bytes, crate::specs::Load::after_fields, crate::specs::Load::drawn, crate::specs::Load::filled))]
pub(crate) fn fields_from(code: u32, state: u32, ranges: Ranges) -> Fields
    ensures argument { argument_of result.first result.second result.function result.operand ≡ filled ranges.cards ranges.registers ranges.tasks (fields code) state zeros }
    ensures state { result.state ≡ after_fields (fields code) state }
{
    let one = next(state);
    let two = next(one);
    let first = match code {
        6 | 7 | 9 => one_of(state, ranges.cards),
        _ => one_of(state, ranges.tasks),
    };
    match code {
        1 => Fields {
            first,
            second: one_of(one, ranges.registers),
            function: 0,
            operand: 0,
            state: two,
        },
        4 => Fields {
            first,
            second: one_of(one, ranges.cards),
            function: 0,
            operand: 0,
            state: two,
        },
        2 => {
            let register = one_of(one, ranges.registers);
            let three = next(two);
            let function = function_from(two);
            let operand = draw(three);
            Fields {
                first,
                second: register,
                function,
                operand,
                state: next(three),
            }
        }
        _ => Fields {
            first,
            second: 0,
            function: 0,
            operand: 0,
            state: one,
        },
    }
}
