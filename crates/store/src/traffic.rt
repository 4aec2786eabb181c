// Steps 6, 7 and 8, which are the channel's but for the outbox.
ghost use Rattle.std.specs.Prelude.{◌≡◌};
ghost use Rattle.names.specs.Refusals.{result_number};
ghost use Rattle.store.specs.Traffic.{dispatch_number, dispatch_registers, dispatch_channel};

use names::Card;
use names::refusals::{Refusal, Taken};
use tables::outbox::{count, first, unpost};

// Step 6: the head of a card's outbox goes to the channel.
#[tactic(auto, unfolding(crate::specs::Traffic::dispatch_channel, crate::specs::Traffic::dispatch_number, crate::specs::Traffic::dispatch_registers), using(crate::proofs::Numbers::takings))]
pub(crate) fn dispatch(
    registers: &mut [u32; 593],
    channel: &mut [u32; channel::WORDS],
    card: Card,
) -> Result<Taken, Refusal>
    ensures registers { registers.new ≡ dispatch_registers registers.old channel.old card }
    ensures channel { channel.new ≡ dispatch_channel registers.old channel.old card }
    ensures number { result_number result ≡ dispatch_number registers.old channel.old card }
{
    if count(registers, card) == 0 {
        return Err(Refusal::NothingToSend);
    }
    let taken = channel::dispatch(channel, card, first(registers, card))?;
    unpost(registers, card);
    Ok(taken)
}
