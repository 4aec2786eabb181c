// Which step a code and its argument are.
ghost use Rattle.std.specs.Prelude.{◌≡◌, MatchResult};
ghost use Rattle.channel.specs.Layout.{cards_of, tasks_of, registers_of};
ghost use Rattle.commands.specs.Decode.{task_in, card_in, register_in, chosen_in, function_in, operand_in, rest_zero, decided, alone_judged, pair_judged, read_judged, chosen_judged, update_judged, task_judged, card_judged, decode_of};
ghost use Rattle.commands.specs.declared.Command.TheVariants.{RequestRead, RequestUpdate, SendRead};

use crate::Command;
use channel::{cards, registers, tasks};
use names::refusals::Refusal;
use names::{Card, Register, Task, known_function};

// Bytes 4 to 7, low byte first.
#[tactic(auto, unfolding(crate::specs::Decode::operand_in))]
fn operand(argument: [u8; 8]) -> u32
    ensures { result ≡ operand_in argument }
{
    u32::from_le_bytes([argument[4], argument[5], argument[6], argument[7]])
}

// Whether bytes 2 to 7 are zero.
#[tactic(auto, using(lists::specs::Tests::cases), unfolding(crate::specs::Decode::rest_zero))]
fn rest_zero(argument: [u8; 8]) -> bool
    ensures { result ≡ rest_zero argument }
{
    u64::from_le_bytes(argument) < 65536
}

// Whether byte 0 alone is named, one of so many; `absent` where there are not as many.
#[tactic(auto, using(lists::specs::Tests::cases), unfolding(crate::specs::Decode::alone_judged))]
fn judge_alone(argument: [u8; 8], count: u32, absent: Refusal) -> Result<(), Refusal>
    ensures { result ≡ alone_judged argument count absent }
{
    if argument[1] != 0 || !rest_zero(argument) {
        return Err(Refusal::NotZero);
    }
    if count <= argument[0] as u32 {
        return Err(absent);
    }
    Ok(())
}

// Whether a task is named and, in byte 1, one of so many; `absent` where there are not as many.
#[tactic(auto, using(lists::specs::Tests::cases), unfolding(crate::specs::Decode::pair_judged))]
fn judge_pair(argument: [u8; 8], tasks: u32, count: u32, absent: Refusal) -> Result<(), Refusal>
    ensures { result ≡ pair_judged argument tasks count absent }
{
    if !rest_zero(argument) {
        return Err(Refusal::NotZero);
    }
    if tasks <= argument[0] as u32 {
        return Err(Refusal::NoTask);
    }
    if count <= argument[1] as u32 {
        return Err(absent);
    }
    Ok(())
}

// Whether a task, a register, a function and an operand are named.
#[tactic(auto, using(lists::specs::Tests::cases), unfolding(crate::specs::Decode::update_judged))]
fn judge_update(argument: [u8; 8], registers: u32, tasks: u32) -> Result<(), Refusal>
    ensures { result ≡ update_judged argument registers tasks }
{
    if argument[3] != 0 {
        return Err(Refusal::NotZero);
    }
    if tasks <= argument[0] as u32 {
        return Err(Refusal::NoTask);
    }
    if registers <= argument[1] as u32 {
        return Err(Refusal::NoRegister);
    }
    if !known_function(argument[2] as u32) {
        return Err(Refusal::NoFunction);
    }
    Ok(())
}

// The task that is named alone.
// Kept beside `card_alone`: one for both would take what makes the value as a closure, with a premise and a clause on it, and be longer than both.
fn task_alone(argument: [u8; 8], tasks: u32) -> Result<Task, Refusal>
    ensures { MatchResult result (λ task. (task_judged argument tasks ≡ Ok tt) × (task ≡ task_in argument)) (λ refusal. task_judged argument tasks ≡ Err refusal) }
{
    judge_alone(argument, tasks, Refusal::NoTask)?;
    Ok(Task(argument[0] as u32))
}

// The card that is named alone.
fn card_alone(argument: [u8; 8], cards: u32) -> Result<Card, Refusal>
    ensures { MatchResult result (λ card. (card_judged argument cards ≡ Ok tt) × (card ≡ card_in argument)) (λ refusal. card_judged argument cards ≡ Err refusal) }
{
    judge_alone(argument, cards, Refusal::NoCard)?;
    Ok(Card(argument[0] as u32))
}

// Kept beside `send_read`, as `task_alone` is.
#[tactic(auto, unfolding(crate::specs::Decode::decided))]
fn request_read(argument: [u8; 8], registers: u32, tasks: u32) -> Result<Command, Refusal>
    ensures { result ≡ decided (read_judged argument registers tasks) (RequestRead (task_in argument) (register_in argument)) }
{
    judge_pair(argument, tasks, registers, Refusal::NoRegister)?;
    let task = Task(argument[0] as u32);
    let register = Register(argument[1] as u32);
    Ok(Command::RequestRead(task, register))
}

#[tactic(auto, unfolding(crate::specs::Decode::decided))]
fn request_update(argument: [u8; 8], registers: u32, tasks: u32) -> Result<Command, Refusal>
    ensures { result ≡ decided (update_judged argument registers tasks) (RequestUpdate (task_in argument) (register_in argument) (function_in argument) (operand_in argument)) }
{
    judge_update(argument, registers, tasks)?;
    let task = Task(argument[0] as u32);
    let register = Register(argument[1] as u32);
    let function = argument[2] as u32;
    let operand = operand(argument);
    Ok(Command::RequestUpdate(task, register, function, operand))
}

#[tactic(auto, unfolding(crate::specs::Decode::decided))]
fn send_read(argument: [u8; 8], cards: u32, tasks: u32) -> Result<Command, Refusal>
    ensures { result ≡ decided (chosen_judged argument cards tasks) (SendRead (task_in argument) (chosen_in argument)) }
{
    judge_pair(argument, tasks, cards, Refusal::NoCard)?;
    let task = Task(argument[0] as u32);
    let chosen = Card(argument[1] as u32);
    Ok(Command::SendRead(task, chosen))
}

// The command that a code and its argument are to a store with this channel, or their refusal. Each reads the sizes that it needs, no other.
// Inlined, so that a caller that looks for a few commands tests for no others.
#[inline(always)]
#[tactic(auto, using(lists::specs::Tests::cases), unfolding(crate::specs::Decode::decode_of, crate::specs::Decode::decided))]
pub fn decode(
    channel: &[u32; channel::WORDS],
    code: u8,
    argument: [u8; 8],
) -> Result<Command, Refusal>
    ensures { result ≡ decode_of code argument (cards_of channel.now) (registers_of channel.now) (tasks_of channel.now) }
{
    match code {
        1 => request_read(argument, registers(channel), tasks(channel)),
        2 => request_update(argument, registers(channel), tasks(channel)),
        3 => Ok(Command::Perform(task_alone(argument, tasks(channel))?)),
        4 => send_read(argument, cards(channel), tasks(channel)),
        5 => Ok(Command::SendUpdate(task_alone(argument, tasks(channel))?)),
        6 => Ok(Command::Dispatch(card_alone(argument, cards(channel))?)),
        7 => Ok(Command::TakeBroadcast(card_alone(argument, cards(channel))?)),
        8 => Ok(Command::TakeSingle(task_alone(argument, tasks(channel))?)),
        9 => Ok(Command::Deliver(card_alone(argument, cards(channel))?)),
        10 => Ok(Command::Report(task_alone(argument, tasks(channel))?)),
        0 | 11..=255 => Err(Refusal::NoStep),
    }
}
