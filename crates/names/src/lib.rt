// The vocabulary that the channel, the registers and the run files share: cards, tasks, registers and broadcast numbers as types of
// their own (RULES 1.6), messages between cards, sets of cards, and what the functions of an update do.
#![tactic(auto)]

ghost use Rattle.std.specs.Prelude.{◌≡◌, ◌<◌, if◌then◌else◌};
ghost use Rattle.names.specs.CardSet.{member_of, several, single, sole_of};
ghost use Rattle.names.specs.Results.{is_taken};
ghost use Rattle.names.specs.Update.{raised, larger_of, sum_of, updated, known_function};

pub mod letters;
pub mod placement;
pub mod refusals;

// A card (000: site), numbered from 0.
#[derive(Clone, Copy, Debug, PartialEq, Eq, PartialOrd, Ord)]
pub struct Card(pub u32);

// A task (000: client), numbered from 0.
#[derive(Clone, Copy, Debug, PartialEq, Eq, PartialOrd, Ord)]
pub struct Task(pub u32);

// A register (000: object), numbered from 0.
#[derive(Clone, Copy, Debug, PartialEq, Eq, PartialOrd, Ord)]
pub struct Register(pub u32);

// The number of a broadcast, from 1; as a tag, the number of broadcasts that the sender had taken.
#[derive(Clone, Copy, Debug, PartialEq, Eq, PartialOrd, Ord)]
pub struct BroadcastNumber(pub u32);

// What a message asks or answers (000 §5.1), in the order in which Figure 5 receives it. In memory it is known by its kind (letters), and the
// kinds are numbered in another order.
#[derive(Clone, Copy, Debug, PartialEq, Eq)]
pub enum Body {
    // receive((read-do, c, ξ, x), j)_i
    ReadDo,
    // receive((read-reply, c, ξ, x, v), j)_i: the value
    ReadReply(u32),
    // receive((update-do, c, ξ, x, f), j)_i: function and operand
    UpdateDo(u32, u32),
    // receive((update-reply, c, ξ, x), j)_i: and, beside the figure, the value found
    UpdateReply(u32),
}

// A message serves the open request of one task on one register.
#[derive(Clone, Copy, Debug, PartialEq, Eq)]
pub struct Message {
    pub task: Task,
    pub register: Register,
    pub body: Body,
}

// A message with its destinations, a set of cards.
#[derive(Clone, Copy, Debug, PartialEq, Eq)]
pub struct Letter {
    pub message: Message,
    pub to: u32,
}

// A letter as it lies in memory (specs/Letters): kind, task, register, function and destinations in one word, the operand or value in another.
#[derive(Clone, Copy, Debug, PartialEq, Eq)]
pub struct Packet {
    pub word: u32,
    pub value: u32,
}

// What a step answers: 0 where it is taken, or 100 where it is taken and its message is held, else its refusal; and the value that a taken
// report gives, read or found, else 0.
// Kept: numbers, since `stepped` and `advanced` (store, SideBySide), which the functions for C promise, speak of this pair.
#[derive(Clone, Copy, Debug, PartialEq, Eq)]
pub struct Answer {
    pub result: u8,
    pub value: u32,
}

// Whether a result says that its step is taken.
pub fn is_taken(res: u8) -> bool
    ensures { result ≡ is_taken res }
{
    (res == 0) | (res == 100)
}

// Whether a card is in a set. A set of cards is a number: bit i, worth 2^i, is set where card i is in it.
#[tactic(auto, using(lists::specs::Tests::cases), unfolding(crate::specs::CardSet::member_of))]
pub fn member(set: u32, card: Card) -> bool
    ensures { result ≡ member_of set card.0 }
{
    card.0 < 32 && (set >> card.0) % 2 == 1
}

// Whether a set that is not empty has more cards than one.
pub fn several(set: u32) -> bool
    ensures { result ≡ several set }
{
    !single(set)
}

// Whether a set has one card: taking one from a number clears its lowest bit, and with it the only one.
pub fn single(set: u32) -> bool
    ensures { result ≡ single set }
{
    let cards = set % 256;
    cards != 0 && cards & (cards - 1) == 0
}

// The only card of a set that has one, else 0. The numbers 1, 2, 4 and 8, halved, less an eighth, are 0, 1, 2 and 3.
pub fn sole(set: u32) -> Card
    ensures { result.0 ≡ (if single set then sole_of set else 0) }
{
    if !single(set) {
        return Card(0);
    }
    let cards = set % 256;
    if cards < 16 {
        return Card(cards / 2 - cards / 8);
    }
    let high = cards / 16;
    Card(4 + high / 2 - high / 8)
}

// An add that stays at the largest value once there, as function 2 is: so a tally counts.
#[tactic(auto, unfolding(crate::specs::Update::raised))]
pub fn raise(value: u32, operand: u32) -> u32
    ensures { result ≡ raised value operand }
{
    value.saturating_add(operand)
}

// Function 5: an add that comes round to zero.
#[tactic(auto, unfolding(crate::specs::Update::sum_of))]
pub fn sum(value: u32, operand: u32) -> u32
    ensures { result ≡ sum_of value operand }
{
    value.wrapping_add(operand)
}

// Whether a function is one that an update may have.
// Kept: functions are numbers, since `updated` answers for every number (`functions_unknown`), and a packet may carry any of eight.
#[tactic(auto, using(lists::specs::Tests::cases), unfolding(crate::specs::Update::known_function))]
pub fn known_function(function: u32) -> bool
    ensures { result ≡ known_function function }
{
    (1 <= function) & (function <= 5)
}

// A value where a test holds, else 0.
// Kept: a test with a value beside it. An Option would be made of the two at each use, and taken apart here at once.
pub fn picked(holds: bool, value: u32) -> u32
    ensures { result ≡ (if holds then value else 0) }
{
    if holds { value } else { 0 }
}

// What an update makes of a value. An unknown function leaves it. All results are worked out and one is picked, with no jump by the function,
// which no processor foresees.
pub fn update(function: u32, operand: u32, value: u32) -> u32
    ensures { result ≡ updated function operand value }
{
    let all = sum(value, operand);
    picked(function == 1, operand)
        | picked((function == 2) | (function == 5), all)
        | picked((function == 2) & (all < value), 4294967295)
        | picked(function == 3, value.max(operand))
        | picked(function == 4, value | operand)
        | picked(!known_function(function), value)
}
