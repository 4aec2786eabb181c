// The check of both memories that refusal 6 for the state asks for. Tests are joined by `&`, with no early return: well-sized
// memories meet them all, and nothing waits for one of them.
ghost use Rattle.std.specs.Prelude.{◌≡◌, ◌<◌};
ghost use Rattle.channel.specs.Letters.{limits_of};
ghost use Rattle.tables.specs.Sized.{asked_fits, task_fits, register_fits, out_fits, outbox_fits, registers_sized, store_sized};

use super::layout::{
    OUT, OUTBOX, REGISTER, REQUESTS, TASK, card_place, home_in, register_place, task_place,
};
use super::outbox::count;
use channel::Limits;
use names::letters::function_fits;
use names::{Card, Register, Task};

// Whether the register that a task of this kind asks for is present, and its function known.
#[tactic(auto, unfolding(crate::specs::Sized::asked_fits))]
fn asked_fits(limits: Limits, kind: u32, register: Register, function: u32) -> bool
    ensures { result ≡ asked_fits limits kind register.0 function }
{
    let asks = (kind == 1) | (kind == 2);
    (!asks | (register.0 < limits.registers)) & function_fits(kind, function)
}

// The registers' memory under this check, over a channel's, whose limits are read once.
#[derive(Drop)]
struct Checked<'a> {
    registers: &'a [u32; 593],
    channel: &'a [u32; channel::WORDS],
    limits: Limits,
    ghost limits_read: { limits ≡ limits_of channel.now },
}

impl<'a> Checked<'a> {
    // Whether a task's words are in order.
    fn task_fits(&self, task: Task) -> bool
        ensures { result ≡ task_fits self.now.registers.now self.now.channel.now task.0 }
    {
        let word = self.registers[TASK + task_place(task) * 2];
        let kind = word % 8;
        let register = Register(word / 8 % 32);
        (home_in(word).0 < self.limits.cards)
            & (kind <= 5)
            & asked_fits(self.limits, kind, register, word / 256 % 8)
    }

    // Whether a register's holders and primary are present cards.
    fn register_fits(&self, register: Register) -> bool
        ensures { result ≡ register_fits self.now.registers.now self.now.channel.now register.0 }
    {
        let word = self.registers[REGISTER + register_place(register)];
        (word / 8 < self.limits.sets) & (word % 8 < self.limits.cards)
    }

    // Whether place k of a card's outbox is in order.
    fn out_fits(&self, card: Card, k: u32) -> bool
        requires { k < 16 }
        ensures { result ≡ out_fits self.now.registers.now self.now.channel.now card.0 k }
    {
        let i = card_place(card);
        let head = self.registers[OUTBOX + i * 34];
        let block = OUT + i * 34 + ((head % 16 + k) % 16) as usize * 2;
        channel::word_fits(self.limits, self.registers[block])
    }

    // Whether a card's outbox is in order.
    fn outbox_fits(&self, card: Card) -> bool
        ensures { result ≡ outbox_fits self.now.registers.now self.now.channel.now card.0 }
    {
        let head = self.registers[OUTBOX + card_place(card) * 34];
        let count = count(self.registers, card);
        (head < 16)
            & (count <= 16)
            & (0..count.min(16)).fold(true, |all, k| all & self.out_fits(card, k))
    }
}

// Whether the registers' memory is well sized over this channel.
fn registers_sized(registers: &[u32; 593], channel: &[u32; channel::WORDS]) -> bool
    ensures { result ≡ registers_sized registers.now channel.now }
{
    let limits = channel::limits_of(channel);
    let checked = Checked {
        registers,
        channel,
        limits,
    };
    (registers[REQUESTS] <= 65535)
        & (0..limits.tasks).fold(true, |all, t| all & checked.task_fits(Task(t)))
        & (0..limits.registers).fold(true, |all, x| all & checked.register_fits(Register(x)))
        & (0..limits.cards).fold(true, |all, i| all & checked.outbox_fits(Card(i)))
}

// Whether both memories are well sized; else a step is refused with 6.
#[tactic(auto, unfolding(crate::specs::Sized::store_sized))]
pub fn well_sized(registers: &[u32; 593], channel: &[u32; channel::WORDS]) -> bool
    ensures { result ≡ store_sized registers.now channel.now }
{
    channel::well_sized(channel) & registers_sized(registers, channel)
}
