// Answer files in lent outputs. The tables have room for 4,097 steps.
use crate::text::{number, refused};
use console::hexadecimal;
use runfile::answer_file;
use std::io;
use std::io::Write;

/// The number of the refusal, and the output after it.
#[inline(never)]
pub(crate) fn write(out: &mut impl Write, text: &[u8]) -> io::Result<()> {
    let mut output = [255; 20];
    let mut results = [0; 4097];
    results[1] = 20;
    let mut values = [0; 4097];
    values[2] = 16909060;
    let output = &mut output[..number(text, 0).min(20)];
    let results = &results[..number(text, 2).min(4097)];
    let values = &values[..number(text, 4).min(4097)];
    let refusal = refused(answer_file::write(output, results, values).err());
    write!(out, "{refusal},")?;
    hexadecimal(out, output)
}
