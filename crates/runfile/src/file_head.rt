// The head of a run file, its sizes and its placement, written into an output that the caller lends: with it begins each file that is written
// (RULES 15.3, 17.5).
ghost use Rattle.std.specs.Prelude.{◌≡◌, ◌≤◌, ◌<◌, true, length};
ghost use Rattle.std.proofs.lemmas.List.Edits.{sets};
ghost use Rattle.runfile.specs.RunFile.{size_bytes};
ghost use Rattle.runfile.specs.Head.{head_bytes, whole_length, head_sized, head_output, head_of, told};

use super::table::{put_table, put_tables};
use names::placement::Placement;
use names::refusals::Refusal;

// Whether the sizes are in range. The numbers of tasks and registers are the tables' lengths.
#[tactic(auto, unfolding(crate::specs::Head::head_sized))]
fn head_sized(placement: &Placement, steps: u32) -> bool
    ensures { result ≡ head_sized placement.now steps }
{
    placement.is_sized() && steps <= 4096
}

// The length of the whole file.
fn whole_length(placement: &Placement, steps: u32) -> usize
    requires { head_sized placement.now steps ≡ true }
    ensures { result ≡ whole_length placement.now steps }
{
    5 + placement.homes.len() + 2 * placement.copies.len() + 9 * steps as usize
}

#[tactic(auto, unfolding(crate::specs::RunFile::size_bytes))]
fn put_sizes(out: &mut [u8], cards: u32, registers: usize, tasks: usize, steps: u32)
    requires { (cards < 256) × (registers < 256) × (tasks < 256) × (steps ≤ 4096) × (5 ≤ length out.old) }
    ensures { out.new ≡ sets out.old 0 (size_bytes cards registers tasks steps) }
{
    let [low, high] = (steps as u16).to_le_bytes();
    put_table(
        out,
        0,
        &[cards as u8, registers as u8, tasks as u8, low, high],
    );
}

fn put_head(out: &mut [u8], placement: &Placement, steps: u32)
    requires { (head_sized placement.now steps ≡ true) × (whole_length placement.now steps ≤ length out.old) }
    ensures { out.new ≡ sets out.old 0 (head_bytes placement.now steps) }
{
    put_sizes(
        out,
        placement.cards,
        placement.copies.len(),
        placement.homes.len(),
        steps,
    );
    put_tables(
        out,
        5,
        placement.homes,
        placement.copies,
        placement.primaries,
    );
}

// The head of a run file with so many steps, at the start of a lent output that has room for the whole file: refused for sizes, then for the
// placement, then for an output that is shorter, and the output as it was. The length is the whole file's.
#[tactic(auto, unfolding(crate::specs::Head::head_of, crate::specs::Head::head_output, crate::specs::Head::head_refusal))]
pub fn head(placement: &Placement, steps: u32, out: &mut [u8]) -> Result<u32, Refusal>
    ensures said { told result ≡ head_of placement.now steps out.old }
    ensures output { out.new ≡ head_output placement.now steps out.old }
{
    if !head_sized(placement, steps) {
        return Err(Refusal::SizeOutOfRange);
    }
    if !placement.is_placed() {
        return Err(Refusal::Misplaced);
    }
    let length = whole_length(placement, steps);
    if out.len() < length {
        return Err(Refusal::OutputTooShort);
    }
    put_head(out, placement, steps);
    Ok(length as u32)
}
