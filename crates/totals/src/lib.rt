// The total of a log: of the updates of a register by function 5 the home card of each one's task, and its operand, in two parallel lists
// (RULES 16). Two readings, and both give the same.
#![tactic(auto)]

ghost use Rattle.std.specs.Prelude.{take, ◌≡◌};
ghost use Rattle.names.specs.Refusals.{number_of};
ghost use Rattle.totals.specs.Totals.{summed, card_added, card_sums, cards_known, log_refusal, totalled, total_of, total_by_card};

use names::refusals::Refusal;
use names::sum;

// Whether no card number is above 7. The loop has no way out between turns, so that the compiler can take several cards at once.
// Kept: `all` has one, and with it an entry takes 0.51 ns as it stands, against 0.10; 0.09 to 0.15 is what it took (ARCHITECTURE).
#[tactic(auto, using(lists::specs::Every::each_zero, lists::specs::Every::each_next), unfolding(crate::specs::Totals::cards_known))]
fn cards_known(cards: &[u8]) -> bool
    ensures { result ≡ cards_known cards.now }
{
    let mut known = true;
    for &card in cards {
        known &= card <= 7;
    }
    known
}

// Lists of unequal length are refused first, then a card above 7.
#[tactic(auto, unfolding(crate::specs::Totals::log_refusal))]
fn judge(cards: &[u8], operands: &[u32]) -> Result<(), Refusal>
    ensures { number_of result ≡ log_refusal cards.now operands.now }
{
    if cards.len() != operands.len() {
        return Err(Refusal::SizeOutOfRange);
    }
    if !cards_known(cards) {
        return Err(Refusal::NoCard);
    }
    Ok(())
}

// The numbers added as they stand, modulo 4,294,967,296.
#[tactic(auto, using(crate::proofs::Adding::summed_none, crate::proofs::Adding::summed_more))]
fn sum_of(numbers: &[u32]) -> u32
    ensures { result ≡ summed numbers.now }
{
    let mut total = 0;
    for &number in numbers {
        total = sum(total, number);
    }
    total
}

// One operand more in its card's sum, without a jump; the ninth sum is for all cards above 7, and no group's.
#[tactic(auto, using(crate::proofs::CardSums::added_apart))]
fn add(sums: &mut [u32; 9], card: usize, operand: u32)
    ensures { take 8 sums.new ≡ card_added (take 8 sums.old) card operand }
{
    let place = card.min(8);
    sums[place] = sum(sums[place], operand);
}

// The sum of each card's group, card 0 to card 7, of any two lists: as far as both go, and no card above 7.
pub fn card_sums(cards: &[u8], operands: &[u32]) -> [u32; 8]
    ensures { result ≡ card_sums cards.now operands.now }
{
    let mut sums = [0; 9];
    for (&card, &operand) in cards.iter().zip(operands) {
        add(&mut sums, card as usize, operand);
    }
    let [a, b, c, d, e, f, g, h, _] = sums;
    [a, b, c, d, e, f, g, h]
}

// The plain reading: the operands as they stand.
#[tactic(auto, using(crate::proofs::Given::given_err), unfolding(crate::specs::Totals::total_of))]
pub fn total(cards: &[u8], operands: &[u32]) -> Result<u32, Refusal>
    ensures { totalled result ≡ total_of cards.now operands.now }
{
    judge(cards, operands)?;
    Ok(sum_of(operands))
}

// By card: each card's group, then the groups. Kept beside `total`: C calls both, and a reading handed in would leave no line fewer.
#[tactic(auto, using(crate::proofs::Given::given_err), unfolding(crate::specs::Totals::total_by_card))]
pub fn total_by_card(cards: &[u8], operands: &[u32]) -> Result<u32, Refusal>
    ensures { totalled result ≡ total_by_card cards.now operands.now }
{
    judge(cards, operands)?;
    Ok(sum_of(&card_sums(cards, operands)))
}
