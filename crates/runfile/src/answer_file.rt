// The answer file, written into an output that the caller lends.
ghost use Rattle.std.specs.Prelude.{◌≡◌, ◌+◌, ◌*◌, ◌≤◌, ◌<◌, length};
ghost use Rattle.names.specs.Refusals.{number_of};
ghost use Rattle.runfile.specs.AnswerFile.{word_stored, headed, put_answer, values_filled, write_refusal, written};

use super::table::put_table;
use names::Answer;
use names::refusals::Refusal;

// The value of step k into the array of values, which starts with the part.
#[tactic(auto, unfolding(crate::specs::AnswerFile::word_stored))]
fn fill_value(values: &mut [u8], k: usize, value: u32)
    requires { (k < 4096) × (4 * k + 4 ≤ length values.old) }
    ensures { values.new ≡ word_stored (4 * k) value values.old }
{
    put_table(values, 4 * k, &value.to_le_bytes());
}

// The number of steps.
// Kept: `n ≤ 4096`, asked by the private functions that write a file's parts. A run has it of `Steps`, `write` and `head` test it; the room in the
// output, which has n in it, would still be asked for, so that a type of n would save no clause.
#[tactic(auto, unfolding(crate::specs::AnswerFile::headed))]
pub(crate) fn put_count(out: &mut [u8], n: usize)
    requires { (n ≤ 4096) × (2 ≤ length out.old) }
    ensures { out.new ≡ headed n out.old }
{
    put_table(out, 0, &(n as u16).to_le_bytes());
}

// The answer of step k of n: its result, and its value in the part from 2 + n on.
pub(crate) fn put_answer(out: &mut [u8], n: usize, k: usize, answer: Answer)
    requires { (n ≤ 4096) × (k < n) × (2 + 5 * n ≤ length out.old) }
    ensures { out.new ≡ put_answer n k answer out.old }
{
    out[2 + k] = answer.result;
    fill_value(&mut out[2 + n..], k, answer.value);
}

// The values of all steps into the array of values, which starts with the part.
fn fill_values(part: &mut [u8], values: &[u32])
    requires { (length values.now ≤ 4096) × (4 * length values.now ≤ length part.old) }
    ensures { part.new ≡ values_filled values.now part.old }
{
    for (k, &value) in values.iter().enumerate() {
        fill_value(part, k, value);
    }
}

// A whole answer file, or the refusal of tables that no file has, or of an output that is too short. A refusal leaves the output untouched.
// The part from 2 + N on is lent once, for the whole array of values.
#[tactic(auto, unfolding(crate::specs::AnswerFile::write_refusal, crate::specs::AnswerFile::written))]
pub fn write(out: &mut [u8], results: &[u8], values: &[u32]) -> Result<(), Refusal>
    ensures refusal { number_of result ≡ write_refusal results.now values.now out.old }
    ensures output { out.new ≡ written results.now values.now out.old }
{
    let n = results.len();
    if 4096 < n || values.len() != n {
        return Err(Refusal::SizeOutOfRange);
    }
    if out.len() < 2 + 5 * n {
        return Err(Refusal::OutputTooShort);
    }
    put_count(out, n);
    put_table(out, 2, results);
    fill_values(&mut out[2 + n..], values);
    Ok(())
}
