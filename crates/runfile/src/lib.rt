// Run files and answer files (RULES 3, 4). A run file is read where it lies: nothing of it is copied.
// Kept: functions of the bytes, not methods of a type over them. `sizes_of` to `argument` answer for every file, so such a type would say no more.
#![tactic(auto)]

ghost use Rattle.std.specs.Prelude.{◌≡◌, ◌+◌, ◌^◌, ◌≤◌, ◌<◌, get_or, length};
ghost use Rattle.lists.specs.Parts.{part};
ghost use Rattle.names.specs.Placement.{home, holders, primary};
ghost use Rattle.names.specs.Refusals.{number_of};
ghost use Rattle.runfile.specs.RunFile.{steps_in, copies_at, primaries_at, codes_at, arguments_at, file_length, placement_in, code_in, argument_in, sizes_in, sizes_sound, file_refusal, judgement_of, judged};

use names::placement::{Placement, byte, sizes_in_range};
use names::refusals::Refusal;
use names::{Card, Register, Task};
use std::fmt;

pub mod answer_file;
mod composer;
mod file_head;
mod run;
mod table;

pub use composer::compose;
pub use file_head::head;
pub use run::{answer, reply, start};

// The sizes that a run file gives first.
#[derive(Clone, Copy, Debug, PartialEq, Eq)]
pub struct Sizes {
    pub cards: u32,
    pub registers: u32,
    pub tasks: u32,
    pub steps: u32,
}

impl fmt::Display for Sizes {
    fn fmt<W: fmt::Write>(&self, f: &mut fmt::Formatter<W>) -> fmt::Result {
        let Sizes {
            cards,
            registers,
            tasks,
            steps,
        } = self;
        write!(
            f,
            "cards {cards}, registers {registers}, tasks {tasks}, steps {steps}"
        )
    }
}

// So many of the bytes from a place on, as far as the file has them.
fn part(file: &[u8], start: usize, count: usize) -> &[u8]
    ensures { result.now ≡ part file.now start count }
{
    let rest = &file[start.min(file.len())..];
    &rest[..count.min(rest.len())]
}

// The number of steps.
#[tactic(auto, unfolding(crate::specs::RunFile::steps_in))]
fn steps(file: &[u8]) -> u32
    ensures { (result ≡ steps_in file.now) × (result < 65536) }
{
    // Kept: `byte` gives numbers, which would be made bytes for from_le_bytes and a number again.
    byte(file, 3) + 256 * byte(file, 4)
}

// The sizes, whatever they are.
pub fn sizes_of(file: &[u8]) -> Sizes
    ensures { result ≡ sizes_in file.now }
{
    Sizes {
        cards: byte(file, 0),
        registers: byte(file, 1),
        tasks: byte(file, 2),
        steps: steps(file),
    }
}

// Where the copies begin.
#[tactic(auto, unfolding(crate::specs::RunFile::copies_at))]
fn copies_at(file: &[u8]) -> usize
    ensures { (result ≡ copies_at file.now) × (result ≤ 260) }
{
    5 + byte(file, 2) as usize
}

// Where the primaries begin.
#[tactic(auto, unfolding(crate::specs::RunFile::primaries_at))]
fn primaries_at(file: &[u8]) -> usize
    ensures { (result ≡ primaries_at file.now) × (result ≤ 515) }
{
    copies_at(file) + byte(file, 1) as usize
}

// Where the steps' codes begin.
#[tactic(auto, unfolding(crate::specs::RunFile::codes_at))]
fn codes_at(file: &[u8]) -> usize
    ensures { (result ≡ codes_at file.now) × (result ≤ 770) }
{
    primaries_at(file) + byte(file, 1) as usize
}

// Where the steps' arguments begin.
#[tactic(auto, unfolding(crate::specs::RunFile::arguments_at))]
fn arguments_at(file: &[u8]) -> usize
    ensures { (result ≡ arguments_at file.now) × (result ≤ 66305) }
{
    codes_at(file) + steps(file) as usize
}

// The length that the sizes ask for.
#[tactic(auto, unfolding(crate::specs::RunFile::file_length, crate::specs::RunFile::arguments_at, crate::specs::RunFile::codes_at, crate::specs::RunFile::primaries_at, crate::specs::RunFile::copies_at))]
fn length_asked(file: &[u8]) -> usize
    ensures { result ≡ file_length file.now }
{
    arguments_at(file) + 8 * steps(file) as usize
}

// Kept apart from `primary`: a line each, of another table and another type.
// The home card of a task.
pub fn home(file: &[u8], task: Task) -> Card
    ensures { result.0 ≡ home (placement_in file.now) task.0 }
{
    Card(byte(placement_in(file).homes, task.0 as usize))
}

// The set of cards that hold a copy of a register.
pub fn copies(file: &[u8], register: Register) -> u32
    ensures { result ≡ holders (placement_in file.now) register.0 }
{
    byte(placement_in(file).copies, register.0 as usize)
}

// The primary card of a register.
pub fn primary(file: &[u8], register: Register) -> Card
    ensures { result.0 ≡ primary (placement_in file.now) register.0 }
{
    Card(byte(placement_in(file).primaries, register.0 as usize))
}

// The code of step k.
#[tactic(auto, unfolding(crate::specs::RunFile::code_in))]
pub fn code(file: &[u8], k: u32) -> u8
    ensures { result ≡ code_in file.now k }
{
    byte(part(file, codes_at(file), steps(file) as usize), k as usize) as u8
}

// The eight argument bytes of step k.
pub fn argument(file: &[u8], k: u32) -> [u8; 8]
    ensures { result ≡ argument_in file.now k }
{
    let arguments = part(file, arguments_at(file), 8 * steps(file) as usize);
    let mut bytes = [0u8; 8];
    for (j, place) in bytes.iter_mut().enumerate() {
        *place = byte(arguments, 8 * k as usize + j) as u8;
    }
    bytes
}

// Whether the sizes are in range.
#[tactic(auto, unfolding(crate::specs::RunFile::sizes_sound))]
fn sizes_sound(file: &[u8]) -> bool
    ensures { result ≡ sizes_sound file.now }
{
    let sizes = sizes_of(file);
    sizes_in_range(
        sizes.cards as usize,
        sizes.registers as usize,
        sizes.tasks as usize,
    ) && sizes.steps <= 4096
}

// The placement, as far as the file has it.
#[tactic(auto, unfolding(crate::specs::RunFile::placement_in))]
pub fn placement_in(file: &[u8]) -> Placement
    ensures { result ≡ placement_in file.now }
{
    let sizes = sizes_of(file);
    let registers = sizes.registers as usize;
    Placement {
        cards: sizes.cards,
        homes: part(file, 5, sizes.tasks as usize),
        copies: part(file, copies_at(file), registers),
        primaries: part(file, primaries_at(file), registers),
    }
}

// The refusal of a file, if it is refused.
#[tactic(auto, unfolding(crate::specs::RunFile::file_refusal, crate::specs::RunFile::file_length, crate::specs::RunFile::codes_at, crate::specs::RunFile::primaries_at, crate::specs::RunFile::copies_at))]
pub fn check(file: &[u8]) -> Result<(), Refusal>
    ensures { number_of result ≡ file_refusal file.now }
{
    if file.len() < 5 {
        return Err(Refusal::FileTooShort);
    }
    if !sizes_sound(file) {
        return Err(Refusal::SizeOutOfRange);
    }
    let length = length_asked(file);
    if file.len() < length {
        return Err(Refusal::FileTooShort);
    }
    if length < file.len() {
        return Err(Refusal::FileTooLong);
    }
    if !placement_in(file).is_placed() {
        return Err(Refusal::Misplaced);
    }
    Ok(())
}

// An accepted file's sizes, or its refusal.
#[tactic(auto, unfolding(crate::specs::RunFile::judgement_of))]
pub fn judge(file: &[u8]) -> Result<Sizes, Refusal>
    ensures { judged result ≡ judgement_of file.now }
{
    check(file)?;
    Ok(sizes_of(file))
}
