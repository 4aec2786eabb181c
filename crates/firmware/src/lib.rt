// The store for firmware: functions that C and Rust call (RULES 11.6). The caller lends both memories of a store, whole; include/gondzselu.h
// declares what is here.
// Kept: refusals as numbers, values beside them, placements in four parameters, the two memories apart, and functions that differ in one call, for
// C calls these functions so.
#![tactic(auto)]

ghost use Rattle.std.specs.Prelude.{◌≡◌};
ghost use Rattle.names.specs.Refusals.{number_of};
ghost use Rattle.names.specs.Placement.{placement, placement_refusal};
ghost use Rattle.channel.specs.Layout.{made_of, taken_by};
ghost use Rattle.tables.specs.Layout.{requests_of};
ghost use Rattle.tables.specs.Start.{start_registers, start_channel};
ghost use Rattle.store.specs.SideBySide.{stepped, advanced};
ghost use Rattle.tables.specs.Panel.{doing_shown};
ghost use Rattle.tables.specs.SideBySide.{value_shown, copies_shown};
ghost use Rattle.tables.specs.Doings.{doing_kind, doing_value};
ghost use Rattle.runfile.specs.RunFile.{file_refusal};
ghost use Rattle.runfile.specs.Run.{file_registers, file_channel, answer_refusal, answer_output};
ghost use Rattle.runfile.specs.Head.{head_of};
ghost use Rattle.runfile.specs.Compose.{tables, compose_output, composed_of};
ghost use Rattle.loads.specs.Load.{load_output};
ghost use Rattle.firmware.specs.RunTally.{ran_tally};
ghost use Rattle.firmware.specs.StepTally.{counts_of};
ghost use Rattle.firmware.specs.Value.{value_of};
ghost use Rattle.tally.specs.Tally.{counted_step};
ghost use Rattle.words.specs.Sentence.{said_of, sentence_output};
ghost use Rattle.totals.specs.Totals.{total_of, total_by_card};

use names::placement::Placement;
use names::refusals::Refusal;
use names::{Card, Register, Task};
use tally::Tally;

// A refusal's number, 0 where there is none: so C has it.
fn number<T: Drop>(judged: Result<T, Refusal>) -> u8
    ensures { result ≡ number_of judged }
{
    match judged {
        Ok(_) => 0,
        Err(refusal) => refusal.into(),
    }
}

// The same, and the value in what C lends, 0 where it is refused.
fn told(said: Result<u32, Refusal>, value: &mut u32) -> u8
    ensures value { value.new ≡ value_of said }
    ensures number { result ≡ number_of said }
{
    *value = said.unwrap_or(0);
    number(said)
}

// ---- sizes of the memories, in words of 32 bits

#[unsafe(no_mangle)]
pub extern "C" fn gondzselu_registers_words() -> usize
    ensures { result ≡ 593 }
{
    593
}

#[unsafe(no_mangle)]
pub extern "C" fn gondzselu_channel_words() -> usize
    ensures { result ≡ 1284 }
{
    channel::WORDS
}

// The version of what is offered: major * 1,000,000 + minor * 1,000 + patch.
#[unsafe(no_mangle)]
pub extern "C" fn gondzselu_version() -> u32
    ensures { result ≡ 11000 }
{
    11000
}

// ---- a whole run

// Answers a run file into a lent output: 0, or the refusal of the file or of the output (5) and the output as it was.
#[tactic(auto, using(crate::proofs::RunTallyLaws::refusal_is))]
#[unsafe(no_mangle)]
pub extern "C" fn gondzselu_answer(file: &[u8], out: &mut [u8]) -> u8
    ensures output { out.new ≡ answer_output file.now out.old }
    ensures number { result ≡ answer_refusal file.now out.old }
{
    number(runfile::answer(file, out))
}

// The same, with the run's steps counted in a lent tally. A refused file or output leaves it alone.
#[tactic(auto, using(crate::proofs::RunTallyLaws::refusal_is), unfolding(crate::specs::RunTally::ran_tally))]
#[unsafe(no_mangle)]
pub extern "C" fn gondzselu_answer_counted(file: &[u8], out: &mut [u8], tally: &mut Tally) -> u8
    ensures output { out.new ≡ answer_output file.now out.old }
    ensures tally { tally.new ≡ ran_tally file.now out.old tally.old }
    ensures number { result ≡ answer_refusal file.now out.old }
{
    let said = runfile::answer(file, out);
    let run = said.unwrap_or(Tally {
        taken: 0,
        refused: 0,
    });
    tally.count(run.taken, run.refused);
    number(said)
}

// Writes the run file of a placement and of a table of codes and one of arguments, eight bytes a step, into a lent output: 0, or the refusal of
// the tables (3, 4) or of the output (5) and the output as it was. The length is the file's, 0 where it is refused.
#[unsafe(no_mangle)]
pub extern "C" fn gondzselu_write(
    cards: u32,
    homes: &[u8],
    copies: &[u8],
    primaries: &[u8],
    codes: &[u8],
    arguments: &[u8],
    out: &mut [u8],
    length: &mut u32,
) -> u8
    ensures output { out.new ≡ compose_output (tables cards homes.now copies.now primaries.now codes.now arguments.now) out.old }
    ensures length { length.new ≡ (composed_of (tables cards homes.now copies.now primaries.now codes.now arguments.now) out.old).length }
    ensures number { result ≡ (composed_of (tables cards homes.now copies.now primaries.now codes.now arguments.now) out.old).refusal }
{
    let placement = Placement {
        cards,
        homes,
        copies,
        primaries,
    };
    told(runfile::compose(&placement, codes, arguments, out), length)
}

// Writes the load of a seed, for a placement and a number of steps, into a lent output: 0, or the refusal of the placement or the number (3, 4) or
// of the output (5) and the output as it was. The length is the file's, 0 where it is refused.
#[unsafe(no_mangle)]
pub extern "C" fn gondzselu_load(
    seed: u32,
    cards: u32,
    homes: &[u8],
    copies: &[u8],
    primaries: &[u8],
    steps: u32,
    out: &mut [u8],
    length: &mut u32,
) -> u8
    ensures output { out.new ≡ load_output seed (placement cards homes.now copies.now primaries.now) steps out.old }
    ensures length { length.new ≡ (head_of (placement cards homes.now copies.now primaries.now) steps out.old).length }
    ensures number { result ≡ (head_of (placement cards homes.now copies.now primaries.now) steps out.old).refusal }
{
    let placement = Placement {
        cards,
        homes,
        copies,
        primaries,
    };
    told(loads::load(seed, &placement, steps, out), length)
}

// ---- a store

// Begins a store: 0, or the placement's refusal (3, 4) and both memories as they were.
#[unsafe(no_mangle)]
pub extern "C" fn gondzselu_start(
    registers: &mut [u32; 593],
    channel: &mut [u32; channel::WORDS],
    cards: u32,
    homes: &[u8],
    copies: &[u8],
    primaries: &[u8],
) -> u8
    ensures registers { registers.new ≡ start_registers (placement cards homes.now copies.now primaries.now) registers.old }
    ensures channel { channel.new ≡ start_channel (placement cards homes.now copies.now primaries.now) channel.old }
    ensures number { result ≡ placement_refusal (placement cards homes.now copies.now primaries.now) }
{
    let placement = Placement {
        cards,
        homes,
        copies,
        primaries,
    };
    number(store::start(registers, channel, &placement))
}

// Begins a store from the placement in a run file: 0, or the refusal of the file (1 to 4) and both memories as they were.
#[unsafe(no_mangle)]
pub extern "C" fn gondzselu_start_file(
    registers: &mut [u32; 593],
    channel: &mut [u32; channel::WORDS],
    file: &[u8],
) -> u8
    ensures registers { registers.new ≡ file_registers file.now registers.old }
    ensures channel { channel.new ≡ file_channel file.now channel.old }
    ensures number { result ≡ file_refusal file.now }
{
    number(runfile::start(file, registers, channel))
}

// One step: its result, 0 where it is taken, 100 where it is taken and its message is held, and its value.
#[unsafe(no_mangle)]
pub extern "C" fn gondzselu_step(
    registers: &mut [u32; 593],
    channel: &mut [u32; channel::WORDS],
    code: u8,
    argument: &[u8; 8],
    value: &mut u32,
) -> u8
    ensures registers { registers.new ≡ (stepped registers.old channel.old code argument.now).registers }
    ensures channel { channel.new ≡ (stepped registers.old channel.old code argument.now).channel }
    ensures value { value.new ≡ (stepped registers.old channel.old code argument.now).answer.value }
    ensures result { result ≡ (stepped registers.old channel.old code argument.now).answer.result }
{
    let answer = store::step(registers, channel, code, *argument);
    *value = answer.value;
    answer.result
}

// A step by its result, as a tally counts it.
#[tactic(auto, unfolding(crate::specs::StepTally::counts_of))]
fn count_of(res: u8) -> Tally
    ensures { result ≡ counts_of res }
{
    if names::is_taken(res) {
        Tally {
            taken: 1,
            refused: 0,
        }
    } else {
        Tally {
            taken: 0,
            refused: 1,
        }
    }
}

// `gondzselu_step`, and the step counted in a lent tally: every refusal counts, 6 too.
#[tactic(auto, using(crate::proofs::StepTallyLaws::counted_once))]
#[unsafe(no_mangle)]
pub extern "C" fn gondzselu_step_counted(
    registers: &mut [u32; 593],
    channel: &mut [u32; channel::WORDS],
    code: u8,
    argument: &[u8; 8],
    value: &mut u32,
    tally: &mut Tally,
) -> u8
    ensures registers { registers.new ≡ (stepped registers.old channel.old code argument.now).registers }
    ensures channel { channel.new ≡ (stepped registers.old channel.old code argument.now).channel }
    ensures value { value.new ≡ (stepped registers.old channel.old code argument.now).answer.value }
    ensures tally { tally.new ≡ counted_step tally.old (stepped registers.old channel.old code argument.now).answer.result }
    ensures result { result ≡ (stepped registers.old channel.old code argument.now).answer.result }
{
    let result = gondzselu_step(registers, channel, code, argument, value);
    let step = count_of(result);
    tally.count(step.taken, step.refused);
    result
}

// The step without the check of the state, for a store that only this library has written since its start: on every well-sized pair of
// memories the same as `gondzselu_step` (store, specs/StepResults, `unchecked`).
#[unsafe(no_mangle)]
pub extern "C" fn gondzselu_advance(
    registers: &mut [u32; 593],
    channel: &mut [u32; channel::WORDS],
    code: u8,
    argument: &[u8; 8],
    value: &mut u32,
) -> u8
    ensures registers { registers.new ≡ (advanced registers.old channel.old code argument.now).registers }
    ensures channel { channel.new ≡ (advanced registers.old channel.old code argument.now).channel }
    ensures value { value.new ≡ (advanced registers.old channel.old code argument.now).answer.value }
    ensures result { result ≡ (advanced registers.old channel.old code argument.now).answer.result }
{
    let answer = store::advance(registers, channel, code, *argument);
    *value = answer.value;
    answer.result
}

// ---- words

// The sentence for a step, counted from 0, and its refusal, at the start of an output: 0, or 36 for a number with no phrase, then 5 for an
// output that is too short, both with the output as it was. The length is the text's, 0 where it is refused.
#[unsafe(no_mangle)]
pub extern "C" fn gondzselu_sentence(step: u32, refusal: u8, out: &mut [u8], length: &mut u32) -> u8
    ensures output { out.new ≡ sentence_output step refusal out.old }
    ensures length { length.new ≡ (said_of step refusal out.old).length }
    ensures number { result ≡ (said_of step refusal out.old).refusal }
{
    told(words::sentence(step, refusal, out), length)
}

// ---- totals of a log: home cards and operands of updates by function 5, in two parallel lists

// The operands added as they stand: 0 and the total, or 3 for lists of unequal length, then 14 for a card number above 7, and 0.
#[unsafe(no_mangle)]
pub extern "C" fn gondzselu_total(cards: &[u8], operands: &[u32], total: &mut u32) -> u8
    ensures total { total.new ≡ (total_of cards.now operands.now).total }
    ensures number { result ≡ (total_of cards.now operands.now).refusal }
{
    told(totals::total(cards, operands), total)
}

// Each card's operands, then these sums: the same (totals, specs/TotalsMeaning, `TotalsSame`).
#[unsafe(no_mangle)]
pub extern "C" fn gondzselu_total_by_card(cards: &[u8], operands: &[u32], total: &mut u32) -> u8
    ensures total { total.new ≡ (total_by_card cards.now operands.now).total }
    ensures number { result ≡ (total_by_card cards.now operands.now).refusal }
{
    told(totals::total_by_card(cards, operands), total)
}

// ---- what a panel reads

// The value of a card's copy of a register; 0 for an absent card or register.
#[unsafe(no_mangle)]
pub extern "C" fn gondzselu_copy(
    registers: &[u32; 593],
    channel: &[u32; channel::WORDS],
    card: u32,
    register: u32,
) -> u32
    ensures { result ≡ value_shown registers.now channel.now (record { 0 = card }) (record { 0 = register }) }
{
    store::value(registers, channel, Card(card), Register(register))
}

// The copies of a register on all eight cards at once, into a lent array: by card; 0 for an absent card or register and for a card without a copy.
#[unsafe(no_mangle)]
pub extern "C" fn gondzselu_copies(
    registers: &[u32; 593],
    channel: &[u32; channel::WORDS],
    register: u32,
    copies: &mut [u32; 8],
)
    ensures { copies.new ≡ copies_shown registers.now channel.now (record { 0 = register }) }
{
    store::copies(registers, channel, Register(register), copies);
}

// What a task is doing: 0 quiet, 1 asking for a read, 2 asking for an update, 3 waiting, 4 done with a read, 5 done with an update. An absent
// task is quiet.
#[unsafe(no_mangle)]
pub extern "C" fn gondzselu_task(
    registers: &[u32; 593],
    channel: &[u32; channel::WORDS],
    task: u32,
) -> u32
    ensures { result ≡ doing_kind (doing_shown registers.now channel.now (record { 0 = task })) }
{
    store::doing_of(registers, channel, Task(task)).kind()
}

// The value read by a task that is done with a read, the value found by one that is done with an update, the operand of one that asks for an
// update; else 0.
#[unsafe(no_mangle)]
pub extern "C" fn gondzselu_task_value(
    registers: &[u32; 593],
    channel: &[u32; channel::WORDS],
    task: u32,
) -> u32
    ensures { result ≡ doing_value (doing_shown registers.now channel.now (record { 0 = task })) }
{
    store::doing_of(registers, channel, Task(task)).value()
}

// Broadcasts made.
#[unsafe(no_mangle)]
pub extern "C" fn gondzselu_broadcasts(channel: &[u32; channel::WORDS]) -> u32
    ensures { result ≡ made_of channel.now }
{
    channel::made(channel).0
}

// Broadcasts that a card has taken; 0 for an absent card.
#[unsafe(no_mangle)]
pub extern "C" fn gondzselu_broadcasts_taken(channel: &[u32; channel::WORDS], card: u32) -> u32
    ensures { result ≡ taken_by channel.now card }
{
    channel::taken(channel, Card(card)).0
}

// Requests taken.
#[unsafe(no_mangle)]
pub extern "C" fn gondzselu_requests(registers: &[u32; 593]) -> u32
    ensures { result ≡ requests_of registers.now }
{
    store::requests(registers)
}
