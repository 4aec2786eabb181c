// A step as it is given.
ghost use Rattle.std.specs.Prelude.{◌≡◌};
ghost use Rattle.store.specs.SideBySide.{taken, advanced, stepped};

use super::answers::{answered, bare, done};
use super::asking::{report, request};
use super::deliver::deliver;
use super::perform::perform;
use super::send::{send_read, send_update};
use super::traffic::dispatch;
use commands::{Command, decode};
use names::Answer;
use names::refusals::Refusal;
use tables::Doing;
use tables::sized::well_sized;

// A decoded step.
// Kept, here and in all of the store: two arrays, the registers' and the channel's, as C lends them and `advanced` speaks of them; and the channel's is
// handed on under its name alone (`.ci/layers`).
fn take(registers: &mut [u32; 593], channel: &mut [u32; channel::WORDS], command: Command) -> Answer
    ensures registers { registers.new ≡ (taken registers.old channel.old command).registers }
    ensures channel { channel.new ≡ (taken registers.old channel.old command).channel }
    ensures answer { result ≡ (taken registers.old channel.old command).answer }
{
    match command {
        Command::RequestRead(t, x) => done(request(registers, t, Doing::AskingRead(x))),
        Command::RequestUpdate(t, x, f, w) => {
            done(request(registers, t, Doing::AskingUpdate(x, f, w)))
        }
        Command::Perform(t) => done(perform(registers, t)),
        Command::SendRead(t, j) => done(send_read(registers, t, j)),
        Command::SendUpdate(t) => done(send_update(registers, t)),
        Command::Dispatch(i) => bare(dispatch(registers, channel, i)),
        Command::TakeBroadcast(i) => bare(channel::take_broadcast(channel, i)),
        Command::TakeSingle(t) => bare(channel::take_single(channel, t)),
        Command::Deliver(i) => done(deliver(registers, channel, i)),
        Command::Report(t) => answered(report(registers, t)),
    }
}

// A step on memories that need not be checked again: a run of many steps checks once, for each step keeps them well sized.
pub fn advance(
    registers: &mut [u32; 593],
    channel: &mut [u32; channel::WORDS],
    code: u8,
    argument: [u8; 8],
) -> Answer
    ensures registers { registers.new ≡ (advanced registers.old channel.old code argument).registers }
    ensures channel { channel.new ≡ (advanced registers.old channel.old code argument).channel }
    ensures answer { result ≡ (advanced registers.old channel.old code argument).answer }
{
    match decode(channel, code, argument) {
        Ok(command) => take(registers, channel, command),
        Err(refusal) => bare(Err(refusal)),
    }
}

// A step: 6 unless both memories are well sized.
pub fn step(
    registers: &mut [u32; 593],
    channel: &mut [u32; channel::WORDS],
    code: u8,
    argument: [u8; 8],
) -> Answer
    ensures registers { registers.new ≡ (stepped registers.old channel.old code argument).registers }
    ensures channel { channel.new ≡ (stepped registers.old channel.old code argument).channel }
    ensures answer { result ≡ (stepped registers.old channel.old code argument).answer }
{
    if !well_sized(registers, channel) {
        return bare(Err(Refusal::IllSized));
    }
    advance(registers, channel, code, argument)
}
