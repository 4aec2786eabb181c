// Steps 1, 2 and 10: a task asks, and a done task reports.
ghost use Rattle.std.specs.Prelude.{◌≡◌};
ghost use Rattle.names.specs.Refusals.{number_of};
ghost use Rattle.store.specs.Requests.{answered, request_number, request_words, report_answer, report_words};

use names::Task;
use names::refusals::Refusal;
use tables::Doing;
use tables::doings::{load, store};
use tables::layout::REQUESTS;

// Steps 1 and 2: the quiet task now asks.
#[tactic(auto, unfolding(crate::specs::Requests::request_number, crate::specs::Requests::request_words, crate::specs::Requests::is_quiet))]
pub(crate) fn request(registers: &mut [u32; 593], task: Task, doing: Doing) -> Result<(), Refusal>
    ensures registers { registers.new ≡ request_words registers.old task.0 doing }
    ensures number { number_of result ≡ request_number registers.old task.0 }
{
    let Doing::Quiet = load(registers, task) else {
        return Err(Refusal::RequestOpen);
    };
    let n = registers[REQUESTS];
    if 65535 <= n {
        return Err(Refusal::NoRequests);
    }
    store(registers, task, doing);
    registers[REQUESTS] = n + 1;
    Ok(())
}

// Step 10: the done task becomes quiet. Gives the value read or found.
#[tactic(auto, unfolding(crate::specs::Requests::report_answer, crate::specs::Requests::report_words, crate::specs::Requests::report_of, names::specs::Results::is_taken))]
pub(crate) fn report(registers: &mut [u32; 593], task: Task) -> Result<u32, Refusal>
    ensures registers { registers.new ≡ report_words registers.old task.0 }
    ensures answer { answered result ≡ report_answer registers.old task.0 }
{
    let value = match load(registers, task) {
        Doing::DoneRead(v) => v,
        Doing::DoneUpdate(v) => v,
        _ => return Err(Refusal::NotReady),
    };
    store(registers, task, Doing::Quiet);
    Ok(value)
}
