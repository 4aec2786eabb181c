// The start from a placement.
ghost use Rattle.std.specs.Prelude.{◌≡◌, length};
ghost use Rattle.lists.specs.Loops.{turns};
ghost use Rattle.names.specs.Placement.{placement_refusal};
ghost use Rattle.names.specs.Refusals.{number_of};
ghost use Rattle.tables.specs.Start.{home_set, register_set, start_registers, start_channel};

use super::layout::{REGISTER, TASK};
use names::placement::{Placement, byte};
use names::refusals::Refusal;

// The tasks live at their homes.
fn place_tasks(registers: &mut [u32; 593], homes: &[u8])
    ensures { registers.new ≡ turns (home_set homes.now) (length homes.now) registers.old }
{
    for (t, &home) in homes.iter().enumerate() {
        registers[TASK + t % 16 * 2] = home as u32 * 2048;
    }
}

// The registers have their holders and their primaries.
fn place_registers(registers: &mut [u32; 593], copies: &[u8], primaries: &[u8])
    ensures { registers.new ≡ turns (register_set copies.now primaries.now) (length copies.now) registers.old }
{
    for (x, &holders) in copies.iter().enumerate() {
        registers[REGISTER + x % 32] = byte(primaries, x) % 8 + holders as u32 * 8;
    }
}

// Kept: the two memories apart, as C lends them; and the channel's is handed on under its name alone (`.ci/layers`).
// Both memories for this placement, with nothing asked or sent and every copy 0; or the refusal, 3 or 4, and both as they were.
pub fn start(
    registers: &mut [u32; 593],
    channel: &mut [u32; channel::WORDS],
    placement: &Placement,
) -> Result<(), Refusal>
    ensures registers { registers.new ≡ start_registers placement.now registers.old }
    ensures channel { channel.new ≡ start_channel placement.now channel.old }
    ensures number { number_of result ≡ placement_refusal placement.now }
{
    placement.judge()?;
    let tasks = placement.homes.len() as u32;
    let copied = placement.copies.len() as u32;
    let _ = channel::begin(channel, placement.cards, tasks, copied);
    *registers = [0; 593];
    place_tasks(registers, placement.homes);
    place_registers(registers, placement.copies, placement.primaries);
    Ok(())
}
