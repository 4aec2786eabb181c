// Step 9: the head of a card's inbox is delivered (RULES 5.9), its parts in the order of 000 Figure 5: read, reply to a read, update, reply to an
// update. The figure's i is the card, c the message's task; j, the sender of a do message, to whom a reply goes, is that task's home.
ghost use Rattle.std.specs.Prelude.{◌≡◌};
ghost use Rattle.names.specs.Refusals.{number_of};
ghost use Rattle.names.specs.declared.Body.TheVariants.{ReadDo, UpdateDo};
ghost use Rattle.tables.specs.SideBySide.{copy_of};
ghost use Rattle.store.specs.Deliver.{replied, replies_here, body_number, message_number, deliver_number, deliver_channel};
ghost use Rattle.store.specs.SideBySide.{applied, body_words, message_words, deliver_registers};

use super::perform::update_copy;
use names::refusals::Refusal;
use names::{Body, Card, Letter, Message};
use tables::Doing;
use tables::doings::{end_update, store};
use tables::layout::{copy, holds, home, only, primary};
use tables::outbox::{post, roomy};

// Step 9: the channel's inbox is looked at first, and the head leaves it where the step is taken.
#[tactic(auto, unfolding(crate::specs::Deliver::deliver_channel, crate::specs::Deliver::deliver_number, crate::specs::Deliver::found_number), using(names::proofs::RefusalsMeaning::not_zero))]
pub(crate) fn deliver(
    registers: &mut [u32; 593],
    channel: &mut [u32; channel::WORDS],
    card: Card,
) -> Result<(), Refusal>
    ensures registers { registers.new ≡ deliver_registers registers.old channel.old card }
    ensures channel { channel.new ≡ deliver_channel registers.old channel.old card }
    ensures number { number_of result ≡ deliver_number registers.old channel.old card }
{
    let message = channel::head(channel, card)?;
    deliver_message(registers, card, message)?;
    let _ = channel::receive(channel, card);
    Ok(())
}

// A message takes effect on a card.
#[tactic(auto, unfolding(crate::specs::Deliver::body_number))]
fn deliver_message(registers: &mut [u32; 593], card: Card, message: Message) -> Result<(), Refusal>
    ensures registers { registers.new ≡ message_words registers.old card.0 message }
    ensures number { number_of result ≡ message_number registers.old card.0 message }
{
    match message.body {
        // receive((read-do, c, ξ, x), j)_i
        Body::ReadDo => deliver_read(registers, card, message),
        // receive((read-reply, c, ξ, x, v), j)_i: "status(c) := (read-report, ξ, x, v)"
        Body::ReadReply(v) => {
            store(registers, message.task, Doing::DoneRead(v));
            Ok(())
        }
        // receive((update-do, c, ξ, x, f), j)_i
        Body::UpdateDo(f, w) => deliver_update(registers, card, message, f, w),
        // receive((update-reply, c, ξ, x), j)_i: "status(c) := (update-report, ξ, x)", and the value found
        Body::UpdateReply(v) => {
            store(registers, message.task, Doing::DoneUpdate(v));
            Ok(())
        }
    }
}

// receive((read-do, c, ξ, x), j)_i: a reply with the value.
#[tactic(auto, unfolding(crate::specs::Deliver::body_number))]
fn deliver_read(registers: &mut [u32; 593], card: Card, message: Message) -> Result<(), Refusal>
    ensures registers { registers.new ≡ body_words registers.old card.0 message.task.0 message.register.0 ReadDo }
    ensures number { number_of result ≡ body_number registers.old card.0 message.task.0 message.register.0 ReadDo }
{
    if !roomy(registers, card) {
        return Err(Refusal::IllSized);
    }
    let body = Body::ReadReply(copy(registers, card, message.register));
    reply(registers, card, Message { body, ..message });
    Ok(())
}

// "add ((.., c, ξ, x, ..), {j}) to buffer": a card's reply to a task's card joins its outbox.
#[tactic(auto, unfolding(crate::specs::Deliver::replied))]
fn reply(registers: &mut [u32; 593], card: Card, message: Message)
    ensures { registers.new ≡ replied registers.old card.0 message.task.0 message.register.0 message.body }
{
    let to = only(home(registers, message.task));
    post(registers, card, Letter { message, to });
}

// receive((update-do, c, ξ, x, f), j)_i. Room for a reply is asked for before anything is changed.
#[tactic(auto, unfolding(crate::specs::Deliver::body_number))]
fn deliver_update(
    registers: &mut [u32; 593],
    card: Card,
    message: Message,
    function: u32,
    operand: u32,
) -> Result<(), Refusal>
    ensures registers { registers.new ≡ body_words registers.old card.0 message.task.0 message.register.0 (UpdateDo function operand) }
    ensures number { number_of result ≡ body_number registers.old card.0 message.task.0 message.register.0 (UpdateDo function operand) }
{
    if !replies(registers, card, message) {
        apply(registers, card, message, function, operand);
        return Ok(());
    }
    if !roomy(registers, card) {
        return Err(Refusal::IllSized);
    }
    let found = apply(registers, card, message, function, operand);
    let body = Body::UpdateReply(found);
    reply(registers, card, Message { body, ..message });
    Ok(())
}

// "val(x) := f(val(x))" and "if j = i then status(c) := (update-report, ξ, x)": applied on a card; done, if this is the task's home. Gives the
// value found.
#[tactic(auto, unfolding(crate::specs::Deliver::applied_at))]
fn apply(
    registers: &mut [u32; 593],
    card: Card,
    message: Message,
    function: u32,
    operand: u32,
) -> u32
    ensures registers { registers.new ≡ applied registers.old card.0 message.task.0 message.register.0 function operand }
    ensures found { result ≡ copy_of registers.old card.0 message.register.0 }
{
    let here = home(registers, message.task);
    let found = update_copy(registers, card, message.register, function, operand);
    end_update(registers, message.task, card == here, found);
    found
}

// "if j ∉ sites(x) and i = primary(x)": whether a card owes the reply to an update. Both tests are made: which of them fails is not foreseen.
#[tactic(auto, unfolding(crate::specs::Deliver::replies_here))]
fn replies(registers: &[u32; 593], card: Card, message: Message) -> bool
    ensures { result ≡ replies_here registers.now card.0 message.task.0 message.register.0 }
{
    let here = card == primary(registers, message.register);
    here & !holds(registers, message.register, home(registers, message.task))
}
