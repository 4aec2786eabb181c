// The log of a register in the run of a file (RULES 16.6): the updates by function 5 that the register's primary applied, in the order applied
// there, of each the home card of its task and its operand.
#![tactic(auto)]

ghost use Rattle.std.specs.Prelude.{◌≡◌, ◌+◌, ◌≤◌, ◌<◌, length};
ghost use Rattle.logs.specs.Entries.{entries, log_at, cards_put, operands_put};
ghost use Rattle.logs.specs.Logged.{logged};
ghost use Rattle.logs.specs.FileLog.{logged_of, cards_logged, operands_logged};
ghost use Rattle.runfile.specs.RunFile.{steps_in, placement_in, step_in};
ghost use Rattle.runfile.specs.Stepwise.{stored};

use names::refusals::Refusal;
use names::{Card, Register};

mod steps;

use steps::Log;

// An update in a log: the home card of its task, and its operand.
#[derive(Clone, Copy, Debug, PartialEq, Eq)]
pub struct Entry {
    pub card: Card,
    pub operand: u32,
}

// What a step adds at place n of both tables; answers the next place.
// Kept: two tables and not one of entries, since `cards_logged` and `operands_logged`, which `log` promises, speak of two.
#[tactic(auto, unfolding(crate::specs::Entries::cards_put, crate::specs::Entries::operands_put, crate::specs::Entries::entries))]
fn put(cards: &mut [u8; 4096], operands: &mut [u32; 4096], n: usize, added: Option<Entry>) -> usize
    requires { n < 4096 }
    ensures cards { cards.new ≡ cards_put cards.old n (entries added) }
    ensures operands { operands.new ≡ operands_put operands.old n (entries added) }
    ensures place { result ≡ n + length (entries added) }
{
    let Some(entry) = added else {
        return n;
    };
    cards[n] = (entry.card.0 % 256) as u8;
    operands[n] = entry.operand;
    n + 1
}

// Kept: the two memories apart, as C lends them; and the channel's is handed on under its name alone (`.ci/layers`).
// All steps, from the memories as they are.
fn go(
    log: &Log,
    registers: &mut [u32; 593],
    channel: &mut [u32; channel::WORDS],
    cards: &mut [u8; 4096],
    operands: &mut [u32; 4096],
) -> usize
    requires { steps_in log.now.file.now ≤ 4096 }
    ensures cards { cards.new ≡ cards_put cards.old 0 (log_at (placement_in log.now.file.now) log.now.register.0 (step_in log.now.file.now) (stored registers.old channel.old) (steps_in log.now.file.now)) }
    ensures operands { operands.new ≡ operands_put operands.old 0 (log_at (placement_in log.now.file.now) log.now.register.0 (step_in log.now.file.now) (stored registers.old channel.old) (steps_in log.now.file.now)) }
    ensures count { result ≡ length (log_at (placement_in log.now.file.now) log.now.register.0 (step_in log.now.file.now) (stored registers.old channel.old) (steps_in log.now.file.now)) }
{
    let steps = runfile::sizes_of(log.file).steps;
    let mut n: usize = 0;
    for k in 0..steps {
        let added = log.turn(registers, channel, k);
        n = put(cards, operands, n, added);
    }
    n
}

// The log of a register in the run of a file, at the start of two lent tables, which have room for that of any file: how many updates it has; or
// the refusal of the file, and the tables as they were.
#[tactic(auto, unfolding(crate::specs::FileLog::cards_logged, crate::specs::FileLog::operands_logged, crate::specs::FileLog::logged_of), using(names::proofs::RefusalsMeaning::not_zero))]
pub fn log(
    file: &[u8],
    register: Register,
    cards: &mut [u8; 4096],
    operands: &mut [u32; 4096],
) -> Result<usize, Refusal>
    ensures cards { cards.new ≡ cards_logged file.now register.0 cards.old }
    ensures operands { operands.new ≡ operands_logged file.now register.0 operands.old }
    ensures said { logged result ≡ logged_of file.now register.0 }
    ensures room { (logged result).length ≤ 4096 }
{
    let mut registers = [0u32; 593];
    let mut channel = [0u32; channel::WORDS];
    runfile::start(file, &mut registers, &mut channel)?;
    let log = Log { file, register };
    Ok(go(&log, &mut registers, &mut channel, cards, operands))
}
