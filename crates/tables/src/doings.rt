// What a task is doing, in two words: one with kind, register and function, below the task's home, and the value.
ghost use Rattle.std.specs.Prelude.{◌≡◌, ◌<◌, cond};
ghost use Rattle.tables.specs.declared.Doing.TheVariants.{DoneUpdate};
ghost use Rattle.tables.specs.Doings.{doing_of, doing_kind, doing_register, doing_function, doing_value, doing_at, task_word_of, doing_stored};

use super::layout::{TASK, home_in, task_place};
use crate::Doing;
use names::{Card, Register, Task, picked};

// Kept: what a task does is a number in memory, which C lends and is shown (RULES 11.12).
#[tactic(auto, using(lists::specs::Tests::cases), unfolding(crate::specs::Doings::doing_of))]
fn doing_of(kind: u32, register: Register, function: u32, value: u32) -> Doing
    ensures { result ≡ doing_of kind register function value }
{
    match kind {
        0 => Doing::Quiet,
        1 => Doing::AskingRead(register),
        2 => Doing::AskingUpdate(register, function, value),
        3 => Doing::Waiting,
        4 => Doing::DoneRead(value),
        _ => Doing::DoneUpdate(value),
    }
}

impl Doing {
    // Its number.
    #[tactic(auto, unfolding(crate::specs::Doings::doing_kind))]
    pub fn kind(self) -> u32
        ensures { result ≡ doing_kind self }
    {
        match self {
            Doing::Quiet => 0,
            Doing::AskingRead(_) => 1,
            Doing::AskingUpdate(_, _, _) => 2,
            Doing::Waiting => 3,
            Doing::DoneRead(_) => 4,
            Doing::DoneUpdate(_) => 5,
        }
    }

    // The register that it asks for, else 0.
    #[tactic(auto, unfolding(crate::specs::Doings::doing_register))]
    fn register(self) -> Register
        ensures { result.0 ≡ doing_register self }
    {
        match self {
            Doing::AskingRead(x) | Doing::AskingUpdate(x, _, _) => x,
            _ => Register(0),
        }
    }

    // The function of the update that it asks for, else 0.
    #[tactic(auto, unfolding(crate::specs::Doings::doing_function))]
    fn function(self) -> u32
        ensures { result ≡ doing_function self }
    {
        match self {
            Doing::AskingUpdate(_, f, _) => f,
            _ => 0,
        }
    }

    // The value that a task has read or its update has found, or the operand of an update that it asks for; else 0.
    #[tactic(auto, unfolding(crate::specs::Doings::doing_value))]
    pub fn value(self) -> u32
        ensures { result ≡ doing_value self }
    {
        match self {
            Doing::AskingUpdate(_, _, v) | Doing::DoneRead(v) | Doing::DoneUpdate(v) => v,
            _ => 0,
        }
    }

    // The first word of a task with this home that does this.
    #[tactic(auto, unfolding(crate::specs::Doings::task_word_of))]
    fn word(self, home: Card) -> u32
        requires { home.0 < 2097152 }
        ensures { result ≡ task_word_of home.0 self }
    {
        self.kind() % 8 + self.register().0 % 32 * 8 + self.function() % 8 * 256 + home.0 * 2048
    }
}

// What a task is doing.
#[tactic(auto, unfolding(crate::specs::Doings::doing_in))]
pub fn load(registers: &[u32; 593], task: Task) -> Doing
    ensures { result ≡ doing_at registers.now task.0 }
{
    let at = TASK + task_place(task) * 2;
    let word = registers[at];
    let value = registers[at + 1];
    doing_of(word % 8, Register(word / 8 % 32), word / 256 % 8, value)
}

// The task now does this.
#[tactic(auto, unfolding(crate::specs::Doings::doing_stored))]
pub fn store(registers: &mut [u32; 593], task: Task, doing: Doing)
    ensures { registers.new ≡ doing_stored registers.old task.0 doing }
{
    let at = TASK + task_place(task) * 2;
    let home = home_in(registers[at]);
    registers[at] = doing.word(home);
    registers[at + 1] = doing.value();
}

// The task's update is done, with the value found, where a test holds. Its words are written either way: the test is not foreseen, and a jump that
// goes wrong costs more. Kept so: with a jump a run of steps took 2 % longer.
#[tactic(auto, unfolding(crate::specs::Doings::doing_stored))]
pub fn end_update(registers: &mut [u32; 593], task: Task, done: bool, found: u32)
    ensures { registers.new ≡ cond done (doing_stored registers.old task.0 (DoneUpdate found)) registers.old }
{
    let at = TASK + task_place(task) * 2;
    let word = registers[at];
    let value = registers[at + 1];
    let ended = Doing::DoneUpdate(found).word(home_in(word));
    registers[at] = picked(done, ended) | picked(!done, word);
    registers[at + 1] = picked(done, found) | picked(!done, value);
}
