// Step 3: a task performs its request on its own card.
ghost use Rattle.std.specs.Prelude.{◌≡◌};
ghost use Rattle.names.specs.Refusals.{number_of};
ghost use Rattle.tables.specs.SideBySide.{copy_of};
ghost use Rattle.store.specs.Perform.{alone, perform_read_number, perform_update_number, perform_number};
ghost use Rattle.store.specs.SideBySide.{perform_read_words, perform_update_words, copy_updated, perform_words};

use names::refusals::Refusal;
use names::{Card, Register, Task};
use tables::Doing;
use tables::doings::{load, store};
use tables::layout::{copy, copy_place, holders, holds, home};

// Whether a card is the only holder of a register.
#[tactic(auto, unfolding(crate::specs::Perform::alone))]
pub(crate) fn alone(registers: &[u32; 593], register: Register, card: Card) -> bool
    ensures { result ≡ alone registers.now register.0 card.0 }
{
    holds(registers, register, card) && !names::several(holders(registers, register))
}

#[tactic(auto, unfolding(crate::specs::Perform::perform_read_number))]
fn perform_read(registers: &mut [u32; 593], task: Task, register: Register) -> Result<(), Refusal>
    ensures registers { registers.new ≡ perform_read_words registers.old task.0 register.0 }
    ensures number { number_of result ≡ perform_read_number registers.old task.0 register.0 }
{
    let here = home(registers, task);
    if !holds(registers, register, here) {
        return Err(Refusal::CopiesForbid);
    }
    let value = copy(registers, here, register);
    store(registers, task, Doing::DoneRead(value));
    Ok(())
}

// A card's copy of a register is updated; what it had just before is the value that the update found.
// Kept: function and operand are two numbers; a pair of them would be taken apart at each of `Body`, `Doing`, `Command` and `names::update`.
#[tactic(auto, unfolding(crate::specs::Perform::copy_updated_at))]
pub(crate) fn update_copy(
    registers: &mut [u32; 593],
    card: Card,
    register: Register,
    function: u32,
    operand: u32,
) -> u32
    ensures registers { registers.new ≡ copy_updated registers.old card.0 register.0 function operand }
    ensures found { result ≡ copy_of registers.old card.0 register.0 }
{
    let found = copy(registers, card, register);
    let next = names::update(function, operand, found);
    registers[copy_place(card, register)] = next;
    found
}

#[tactic(auto, unfolding(crate::specs::Perform::perform_update_number))]
fn perform_update(
    registers: &mut [u32; 593],
    task: Task,
    register: Register,
    function: u32,
    operand: u32,
) -> Result<(), Refusal>
    ensures registers { registers.new ≡ perform_update_words registers.old task.0 register.0 function operand }
    ensures number { number_of result ≡ perform_update_number registers.old task.0 register.0 }
{
    let here = home(registers, task);
    if !alone(registers, register, here) {
        return Err(Refusal::CopiesForbid);
    }
    let found = update_copy(registers, here, register, function, operand);
    store(registers, task, Doing::DoneUpdate(found));
    Ok(())
}

// Step 3.
#[tactic(auto, unfolding(crate::specs::Perform::perform_number, crate::specs::Perform::perform_number_of))]
pub(crate) fn perform(registers: &mut [u32; 593], task: Task) -> Result<(), Refusal>
    ensures registers { registers.new ≡ perform_words registers.old task.0 }
    ensures number { number_of result ≡ perform_number registers.old task.0 }
{
    match load(registers, task) {
        Doing::AskingRead(x) => perform_read(registers, task, x),
        Doing::AskingUpdate(x, f, w) => perform_update(registers, task, x, f, w),
        _ => Err(Refusal::NotReady),
    }
}
