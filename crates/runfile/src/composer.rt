// A run file written from tables into an output that the caller lends (RULES 15).
ghost use Rattle.std.specs.Prelude.{◌≡◌, ◌+◌, ◌≤◌, ◌++◌, length};
ghost use Rattle.std.proofs.lemmas.List.Edits.{sets};
ghost use Rattle.runfile.specs.Head.{told};
ghost use Rattle.runfile.specs.Compose.{with_steps, tables_sized, compose_output, composed_of};

use super::file_head::head;
use super::table::put_table;
use names::placement::Placement;
use names::refusals::Refusal;

// Whether the sizes are in range and parallel tables have one length. The numbers of tasks, registers and steps are the tables' lengths.
#[tactic(auto, unfolding(crate::specs::Compose::tables_sized, crate::specs::Head::head_sized))]
fn tables_sized(placement: &Placement, codes: &[u8], arguments: &[u8]) -> bool
    ensures { result ≡ tables_sized (with_steps placement.now codes.now arguments.now) }
{
    placement.is_sized() && codes.len() <= 4096 && arguments.len() == 8 * codes.len()
}

// Two tables, the one behind the other.
fn put_steps(out: &mut [u8], at: usize, codes: &[u8], arguments: &[u8])
    requires { at + length codes.now + length arguments.now ≤ length out.old }
    ensures { out.new ≡ sets out.old at (codes.now ++ arguments.now) }
{
    let next = put_table(out, at, codes);
    put_table(out, next, arguments);
}

// The run file of the tables, at the start of a lent output: refused for sizes, then for the placement, then for an output that is shorter, and
// the output as it was. Codes and arguments are carried unexamined.
#[tactic(auto, unfolding(crate::specs::Compose::composed_of, crate::specs::Compose::compose_output, crate::specs::Compose::compose_refusal))]
pub fn compose(
    placement: &Placement,
    codes: &[u8],
    arguments: &[u8],
    out: &mut [u8],
) -> Result<u32, Refusal>
    ensures said { told result ≡ composed_of (with_steps placement.now codes.now arguments.now) out.old }
    ensures output { out.new ≡ compose_output (with_steps placement.now codes.now arguments.now) out.old }
{
    if !tables_sized(placement, codes, arguments) {
        return Err(Refusal::SizeOutOfRange);
    }
    let length = head(placement, codes.len() as u32, out)?;
    put_steps(
        out,
        5 + placement.homes.len() + placement.copies.len() + placement.primaries.len(),
        codes,
        arguments,
    );
    Ok(length)
}
