// Where things lie in the registers' memory.
ghost use Rattle.std.specs.Prelude.{◌≡◌, ◌<◌, ◌%◌};
ghost use Rattle.tables.specs.Layout.{home_in, home_of, holders_of, primary_of, holds, side_by_side, only_card};
ghost use Rattle.tables.specs.SideBySide.{copy_of};

use names::{Card, Register, Task};

// The requests taken.
pub const REQUESTS: usize = 0;

// The two words of task t start at TASK + t * 2.
pub const TASK: usize = 1;

// The holders and the primary of register x.
pub const REGISTER: usize = 33;

// The copies, register after register.
pub const COPIES: usize = 65;

// The words of card i's outbox start at OUTBOX + i * 34; its 16 packets from OUT + i * 34 on.
pub const OUTBOX: usize = 321;

pub const OUT: usize = 323;

// A task's number below 16.
pub fn task_place(task: Task) -> usize
    ensures { (result ≡ task.0 % 16) × (result < 16) }
{
    (task.0 % 16) as usize
}

// A card's number below 8.
pub fn card_place(card: Card) -> usize
    ensures { (result ≡ card.0 % 8) × (result < 8) }
{
    (card.0 % 8) as usize
}

// A register's number below 32.
pub fn register_place(register: Register) -> usize
    ensures { (result ≡ register.0 % 32) × (result < 32) }
{
    (register.0 % 32) as usize
}

// The word of a card's copy of a register: those of one register lie side by side.
pub fn copy_place(card: Card, register: Register) -> usize
    ensures { (result ≡ side_by_side card.0 register.0) × (result < 321) }
{
    COPIES + register_place(register) * 8 + card_place(card)
}

// The home in a task's first word.
#[tactic(auto, unfolding(crate::specs::Layout::home_in))]
pub(crate) fn home_in(word: u32) -> Card
    ensures { (result.0 ≡ home_in word) × (result.0 < 2097152) }
{
    Card(word / 2048)
}

// The home card of a task.
pub fn home(registers: &[u32; 593], task: Task) -> Card
    ensures { result.0 ≡ home_of registers.now task.0 }
{
    home_in(registers[TASK + task_place(task) * 2])
}

// The set of cards that hold a copy of a register.
#[tactic(auto, unfolding(crate::specs::Layout::holders_in))]
pub fn holders(registers: &[u32; 593], register: Register) -> u32
    ensures { result ≡ holders_of registers.now register.0 }
{
    registers[REGISTER + register_place(register)] / 8
}

// The primary card of a register.
#[tactic(auto, unfolding(crate::specs::Layout::primary_in))]
pub fn primary(registers: &[u32; 593], register: Register) -> Card
    ensures { result.0 ≡ primary_of registers.now register.0 }
{
    Card(registers[REGISTER + register_place(register)] % 8)
}

// Whether a card holds a copy of a register.
#[tactic(auto, unfolding(crate::specs::Layout::holds))]
pub fn holds(registers: &[u32; 593], register: Register, card: Card) -> bool
    ensures { result ≡ holds registers.now register.0 card.0 }
{
    names::member(holders(registers, register), card)
}

// The value of a card's copy of a register.
pub fn copy(registers: &[u32; 593], card: Card, register: Register) -> u32
    ensures { result ≡ copy_of registers.now card.0 register.0 }
{
    registers[copy_place(card, register)]
}

// The set of one card.
pub fn only(card: Card) -> u32
    ensures { result ≡ only_card card.0 }
{
    1 << (card.0 % 8)
}
