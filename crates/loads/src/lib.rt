// Loads: a run file drawn from a seed, for a placement and a number of steps, into an output that the caller lends (RULES 17).
#![tactic(auto)]

ghost use Rattle.std.specs.Prelude.{◌≡◌, ◌+◌, ◌*◌, ◌≤◌, ◌<◌, ◌++◌, map, length, set};
ghost use Rattle.std.proofs.lemmas.List.Edits.{sets};
ghost use Rattle.runfile.specs.RunFile.{joined};
ghost use Rattle.runfile.specs.Head.{head_of, told};
ghost use Rattle.loads.specs.Load.{after_step, step_from, steps_from, load_output, load_for_of, load_for_output};

use draws::{code_from, next};
use fields::{Ranges, fields_from};
use names::placement::Placement;
use names::refusals::Refusal;

mod draws;
mod fields;

// The step that is drawn from a state: its code and its argument, each at its place. Answers the state after it.
#[tactic(auto, unfolding(crate::specs::Load::after_step))]
fn put_step(out: &mut [u8], code: usize, argument: usize, ranges: Ranges, state: u32) -> u32
    requires { (code < length out.old) × (argument + 8 ≤ length out.old) }
    ensures output { out.new ≡ sets (set out.old code (step_from ranges.cards ranges.registers ranges.tasks state).code) argument (step_from ranges.cards ranges.registers ranges.tasks state).argument }
    ensures state { result ≡ after_step state }
{
    let drawn = code_from(state);
    let fields = fields_from(drawn, next(state), ranges);
    out[code] = drawn as u8;
    fields.put(out, argument);
    fields.state
}

// All steps, one after the other: codes from a place on, arguments behind them.
fn put_steps(out: &mut [u8], codes: usize, ranges: Ranges, steps: u32, seed: u32)
    requires { (steps ≤ 4096) × (codes + 9 * steps ≤ length out.old) }
    ensures { out.new ≡ sets out.old codes (map (λ s. s.code) (steps_from ranges.cards ranges.registers ranges.tasks steps seed) ++ joined (map (λ s. s.argument) (steps_from ranges.cards ranges.registers ranges.tasks steps seed))) }
{
    let n = steps as usize;
    let mut state = seed;
    for k in 0..n {
        state = put_step(out, codes + k, codes + n + 8 * k, ranges, state);
    }
}

// The load of a seed, at the start of a lent output: refused for sizes, then for the placement, then for an output that is shorter than the
// file, and the output as it was. The length is the file's.
#[tactic(auto, unfolding(crate::specs::Load::load_output))]
pub fn load(seed: u32, placement: &Placement, steps: u32, out: &mut [u8]) -> Result<u32, Refusal>
    ensures said { told result ≡ head_of placement.now steps out.old }
    ensures output { out.new ≡ load_output seed placement.now steps out.old }
{
    let length = runfile::head(placement, steps, out)?;
    let registers = placement.copies.len();
    let tasks = placement.homes.len();
    let ranges = Ranges {
        cards: placement.cards,
        registers: registers as u32,
        tasks: tasks as u32,
    };
    put_steps(
        out,
        5 + tasks + registers + placement.primaries.len(),
        ranges,
        steps,
        seed,
    );
    Ok(length)
}

// The load for the placement of a run file, of which no more is used: as `load`, and the refusal of the file first.
#[tactic(auto, using(runfile::proofs::RunFileLaws::accepted_tables), unfolding(crate::specs::Load::load_for_of, crate::specs::Load::load_for_output))]
pub fn load_for(seed: u32, file: &[u8], steps: u32, out: &mut [u8]) -> Result<u32, Refusal>
    ensures said { told result ≡ load_for_of seed file.now steps out.old }
    ensures output { out.new ≡ load_for_output seed file.now steps out.old }
{
    runfile::check(file)?;
    load(seed, &runfile::placement_in(file), steps, out)
}
