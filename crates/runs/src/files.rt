// A stored run and its stored answer.
ghost use Rattle.std.specs.Prelude.{◌≤◌, length, IfOk};

use arrayvec::ArrayString;
use console::Failure;
use std::io::Write;
use std::iter::repeat;
use std::{fs, io};
use tally::Tally;

// NAME.ENDING, if there is room for it.
fn path(name: &str, ending: &str) -> Option<ArrayString<16>> {
    let mut path = ArrayString::new();
    path.try_push_str(name).ok()?;
    path.try_push('.').ok()?;
    path.try_push_str(ending).ok()?;
    Some(path)
}

// A file of the folder that the program runs in, at the start of a buffer.
fn read(rt: HostRuntime, name: &str, ending: &str, buffer: &mut [u8]) -> Result<usize, Failure>
    ensures { IfOk result (λ n. n ≤ length buffer.new) }
{
    let path = path(name, ending).ok_or(Failure::Unread)?;
    let mut file = fs::open(&rt, path.as_str()).map_err(|_| Failure::Unread)?;
    console::read_input(&mut file, buffer)
}

// The number of steps in an answer.
fn steps(answers: &[u8]) -> usize
    ensures { result ≤ 65535 }
{
    match answers {
        [low, high, ..] => u16::from_le_bytes([*low, *high]) as usize,
        _ => 0,
    }
}

// Their results.
fn results(answers: &[u8]) -> &[u8] {
    answers.get(2..2 + steps(answers)).unwrap_or_default()
}

// Where an output that was all 165 before first differs from the answer at its start and the fill past it.
fn difference(out: &[u8], answer: &[u8]) -> Option<usize> {
    let expected = answer.iter().copied().chain(repeat(165));
    out.iter()
        .zip(expected)
        .position(|(&byte, wanted)| byte != wanted)
}

fn verdict(out: &mut impl Write, answers: &[u8], stored: &[u8]) -> io::Result<()> {
    if stored.len() != 2 + 5 * steps(answers) {
        return writeln!(out, ": differs in length");
    }
    match difference(answers, stored) {
        Some(at) => writeln!(out, ": differs at byte {at}"),
        None => writeln!(out, ": agrees"),
    }
}

// What is said of an accepted file.
fn accepted(out: &mut impl Write, answers: &[u8], tally: Tally) -> io::Result<()> {
    let Tally { taken, refused } = tally;
    let results = results(answers);
    let held = results.iter().filter(|&&one| one == 100).count();
    let n = steps(answers);
    write!(
        out,
        " steps {n}, taken {taken} (held {held}), refused {refused}, with"
    )?;
    for number in 1..=255u8 {
        if !names::is_taken(number) && results.contains(&number) {
            write!(out, " {number}")?;
        }
    }
    Ok(())
}

// The file is answered, and the answer compared.
fn compare(out: &mut impl Write, file: &[u8], stored: &[u8]) -> io::Result<()> {
    let mut answers = [165u8; 20482];
    match runfile::answer(file, &mut answers) {
        Ok(tally) => {
            accepted(out, &answers, tally)?;
            verdict(out, &answers, stored)
        }
        Err(refusal) => writeln!(out, " file refused {}", u8::from(refusal)),
    }
}

// A run and its answer, by their name: what is said of them in a line.
pub(crate) fn run(rt: HostRuntime, out: &mut impl Write, name: &str) -> Result<(), Failure> {
    let mut file = [0u8; 65536];
    let mut answer = [0u8; 65536];
    let n = read(rt, name, "run", &mut file)?;
    let m = read(rt, name, "answer", &mut answer)?;
    write!(out, "{name:<6}")?;
    Ok(compare(out, &file[..n], &answer[..m])?)
}
