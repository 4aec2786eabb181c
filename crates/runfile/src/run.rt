// A whole run: the file is judged, the store is started from its placement, and each step's answer is written as it comes.
ghost use Rattle.std.specs.Prelude.{◌≡◌, ◌+◌, ◌*◌, ◌≤◌, ◌<◌, Ok, ◌++◌, length, drop};
ghost use Rattle.names.specs.Placement.{placement_refusal};
ghost use Rattle.names.specs.Refusals.{number_of};
ghost use Rattle.runfile.specs.RunFile.{steps_in, codes_at, arguments_at, placement_in, code_in, argument_in, step_in, file_refusal};
ghost use Rattle.runfile.specs.AnswerFile.{headed, put_answer, put_answers};
ghost use Rattle.runfile.specs.Stepwise.{stored, answer_at, counted};
ghost use Rattle.runfile.specs.Run.{file_registers, file_channel, answer_of, answer_output, answered_of, run_told};
ghost use Rattle.tables.specs.Start.{start_registers, start_channel};
ghost use Rattle.store.specs.SideBySide.{advanced};

use super::answer_file::{put_answer, put_count};
use super::{arguments_at, check, codes_at, placement_in, steps};
use names::refusals::Refusal;
use tally::Tally;

// A store begun from an accepted file; or the refusal of the file, and both memories as they were.
#[tactic(auto, using(crate::proofs::RunFileLaws::accepted_tables, crate::proofs::RunFileLaws::accepted_placement), unfolding(crate::specs::Run::file_registers, crate::specs::Run::file_channel))]
pub fn start(
    file: &[u8],
    registers: &mut [u32; 593],
    channel: &mut [u32; channel::WORDS],
) -> Result<(), Refusal>
    ensures registers { registers.new ≡ file_registers file.now registers.old }
    ensures channel { channel.new ≡ file_channel file.now channel.old }
    ensures number { number_of result ≡ file_refusal file.now }
{
    check(file)?;
    store::start(registers, channel, &placement_in(file))
}

// The steps of a whole file: how many there are and where their codes and arguments begin, read once for a run.
#[derive(Drop)]
struct Steps<'a> {
    file: &'a [u8],
    codes: usize,
    arguments: usize,
    n: u32,
    ghost laid: { (codes ≡ codes_at file.now) × (arguments ≡ arguments_at file.now) × (n ≡ steps_in file.now) },
    ghost held: { (codes + n ≤ length file.now) × (arguments + 8 * n ≤ length file.now) },
    ghost few: { n ≤ 4096 },
}

impl<'a> Steps<'a> {
    // Kept: `k < n`, at each method of a step; a type of k would be made at every turn of the loop, and say no more.
    // The code of step k.
    fn code(&self, k: usize) -> u8
        requires { k < self.now.n }
        ensures { result ≡ code_in self.now.file.now k }
    {
        self.file[self.codes + k]
    }

    // The argument of step k.
    fn argument(&self, k: usize) -> [u8; 8]
        requires { k < self.now.n }
        ensures { result ≡ argument_in self.now.file.now k }
    {
        let at = self.arguments + 8 * k;
        let mut argument = [0; 8];
        argument.copy_from_slice(&self.file[at..at + 8]);
        argument
    }

    // Step k: its answer is written, and its result given.
    fn turn(
        &self,
        out: &mut [u8],
        registers: &mut [u32; 593],
        channel: &mut [u32; channel::WORDS],
        k: usize,
    ) -> u8
        requires { (k < self.now.n) × (2 + 5 * self.now.n ≤ length out.old) }
        ensures registers { registers.new ≡ (advanced registers.old channel.old (code_in self.now.file.now k) (argument_in self.now.file.now k)).registers }
        ensures channel { channel.new ≡ (advanced registers.old channel.old (code_in self.now.file.now k) (argument_in self.now.file.now k)).channel }
        ensures output { out.new ≡ put_answer self.now.n k (advanced registers.old channel.old (code_in self.now.file.now k) (argument_in self.now.file.now k)).answer out.old }
        ensures result { result ≡ (advanced registers.old channel.old (code_in self.now.file.now k) (argument_in self.now.file.now k)).answer.result }
    {
        let code = self.code(k);
        let argument = self.argument(k);
        let said = store::advance(registers, channel, code, argument);
        let result = said.result;
        put_answer(out, self.n as usize, k, said);
        result
    }

    // All steps, from the memories as they are. They are well sized from the start on, so no step checks them again.
    fn go(
        &self,
        out: &mut [u8],
        registers: &mut [u32; 593],
        channel: &mut [u32; channel::WORDS],
    ) -> Tally
        requires { 2 + 5 * self.now.n ≤ length out.old }
        ensures counts { run_told (Ok result) ≡ counted (answer_at (step_in self.now.file.now) (stored registers.old channel.old)) self.now.n }
        ensures output { out.new ≡ put_answers self.now.n (answer_at (step_in self.now.file.now) (stored registers.old channel.old)) self.now.n (headed self.now.n out.old) }
    {
        let n = self.n as usize;
        put_count(out, n);
        let mut taken = 0;
        for k in 0..n {
            let result = self.turn(out, registers, channel, k);
            taken += u32::from(names::is_taken(result));
        }
        Tally {
            taken,
            refused: self.n - taken,
        }
    }
}

// An accepted file with an output that has room.
fn whole(file: &[u8], out: &mut [u8]) -> Tally
    requires { (file_refusal file.now ≡ 0) × (2 + 5 * steps_in file.now ≤ length out.old) }
    ensures counts { run_told (Ok result) ≡ answered_of file.now out.old }
    ensures output { out.new ≡ answer_output file.now out.old }
{
    let mut registers = [0u32; 593];
    let mut channel = [0u32; channel::WORDS];
    let _ = store::start(&mut registers, &mut channel, &placement_in(file));
    let steps = Steps {
        file,
        codes: codes_at(file),
        arguments: arguments_at(file),
        n: steps(file),
    };
    steps.go(out, &mut registers, &mut channel)
}

// The answer file of a run file, into a lent output, and how many steps were taken and refused; or the refusal of the file, then of an output
// that is too short, and the output as it was.
#[tactic(auto, unfolding(crate::specs::Run::answered_of, crate::specs::Run::answer_output, crate::specs::Run::answer_refusal))]
pub fn answer(file: &[u8], out: &mut [u8]) -> Result<Tally, Refusal>
    ensures counts { run_told result ≡ answered_of file.now out.old }
    ensures output { out.new ≡ answer_output file.now out.old }
{
    check(file)?;
    if out.len() < 2 + 5 * steps(file) as usize {
        return Err(Refusal::OutputTooShort);
    }
    Ok(whole(file, out))
}

// The answer file, or the refusal as one byte, at the start of an output that has room for any; the rest of it is untouched. The result is
// how many bytes that is.
pub fn reply(file: &[u8], out: &mut [u8; 20482]) -> usize
    ensures count { result ≡ length (answer_of file.now) }
    ensures output { out.new ≡ answer_of file.now ++ drop (length (answer_of file.now)) out.old }
{
    match answer(file, out) {
        Ok(_) => 2 + 5 * steps(file) as usize,
        Err(refusal) => {
            out[0] = u8::from(refusal);
            1
        }
    }
}
