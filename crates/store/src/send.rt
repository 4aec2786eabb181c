// Steps 4 and 5: a task's message joins its home's outbox.
ghost use Rattle.std.specs.Prelude.{◌≡◌};
ghost use Rattle.names.specs.Refusals.{number_of};
ghost use Rattle.store.specs.Send.{sent, read_sent_number, read_sent_words, update_sent_number, update_sent_words};

use super::perform::alone;
use names::refusals::Refusal;
use names::{Body, Card, Letter, Message, Task};
use tables::Doing;
use tables::doings::{load, store};
use tables::layout::{holders, holds, home, only};
use tables::outbox::{post, roomy};

// The message joins the outbox of the task's home, and the task waits.
#[tactic(auto, unfolding(crate::specs::Send::sent))]
fn send(registers: &mut [u32; 593], message: Message, to: u32)
    ensures { registers.new ≡ sent registers.old message.task.0 message.register.0 message.body to }
{
    let here = home(registers, message.task);
    post(registers, here, Letter { message, to });
    store(registers, message.task, Doing::Waiting);
}

// Step 4.
#[tactic(auto, unfolding(crate::specs::Send::read_sent_number, crate::specs::Send::read_sent_words, crate::specs::Send::read_number_of, crate::specs::Send::read_words_of, crate::specs::Send::send_read_number, crate::specs::Send::send_read_words))]
pub(crate) fn send_read(registers: &mut [u32; 593], task: Task, chosen: Card) -> Result<(), Refusal>
    ensures registers { registers.new ≡ read_sent_words registers.old task.0 chosen.0 }
    ensures number { number_of result ≡ read_sent_number registers.old task.0 chosen.0 }
{
    let Doing::AskingRead(register) = load(registers, task) else {
        return Err(Refusal::NotReady);
    };
    let here = home(registers, task);
    if holds(registers, register, here) || !holds(registers, register, chosen) {
        return Err(Refusal::CopiesForbid);
    }
    if !roomy(registers, here) {
        return Err(Refusal::IllSized);
    }
    let body = Body::ReadDo;
    send(
        registers,
        Message {
            task,
            register,
            body,
        },
        only(chosen),
    );
    Ok(())
}

// Step 5.
#[tactic(auto, unfolding(crate::specs::Send::update_sent_number, crate::specs::Send::update_sent_words, crate::specs::Send::update_number_of, crate::specs::Send::update_words_of, crate::specs::Send::send_update_number, crate::specs::Send::send_update_words))]
pub(crate) fn send_update(registers: &mut [u32; 593], task: Task) -> Result<(), Refusal>
    ensures registers { registers.new ≡ update_sent_words registers.old task.0 }
    ensures number { number_of result ≡ update_sent_number registers.old task.0 }
{
    let Doing::AskingUpdate(register, function, operand) = load(registers, task) else {
        return Err(Refusal::NotReady);
    };
    let here = home(registers, task);
    let to = holders(registers, register);
    if alone(registers, register, here) {
        return Err(Refusal::CopiesForbid);
    }
    if to < 1 || !roomy(registers, here) {
        return Err(Refusal::IllSized);
    }
    let body = Body::UpdateDo(function, operand);
    send(
        registers,
        Message {
            task,
            register,
            body,
        },
        to,
    );
    Ok(())
}
