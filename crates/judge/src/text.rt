// What a line of the input gives, and what is said of it.
ghost use Rattle.std.specs.Prelude.{◌≤◌, ◌<◌};

use names::refusals::Refusal;

/// What a file of 4,097 steps needs.
pub(crate) const ROOM: usize = 36881;

// The value of a digit, 0 to 9 or a to f.
fn digit(mark: u8) -> u32
    ensures { result < 25 }
{
    let low = mark as u32 % 16;
    if mark <= b'9' { low } else { low + 9 }
}

// The byte that two digits make.
fn byte(digits: &[u8]) -> u8 {
    let value = |i: usize| digits.get(i).map_or(0, |mark| digit(*mark));
    ((16 * value(0) + value(1)) % 256) as u8
}

// The digits of the bytes that a line gives, each after a colon or a blank and another mark.
fn digits(text: &[u8]) -> &[u8] {
    text.get(2..).unwrap_or_default()
}

/// The number in two of the bytes, of which so many stand before. A byte that is not given is zero.
pub(crate) fn number(text: &[u8], before: usize) -> usize {
    let low = digits(text).chunks(3).nth(before).map_or(0, byte);
    let high = digits(text).chunks(3).skip(before).nth(1).map_or(0, byte);
    u16::from_le_bytes([low, high]) as usize
}

/// The number that says what is refused, 0 where nothing is.
pub(crate) fn refused(refusal: Option<Refusal>) -> u8 {
    refusal.map_or(0, u8::from)
}

/// How many bytes stand after the length: as many as it says or as there is room for.
pub(crate) fn bytes_in(text: &[u8]) -> usize
    ensures { result ≤ 36881 }
{
    number(text, 0).min(ROOM)
}

/// Puts them into zeros.
pub(crate) fn fill(zeros: &mut [u8], text: &[u8]) {
    for (place, digits) in zeros.iter_mut().zip(digits(text).chunks(3).skip(2)) {
        *place = byte(digits);
    }
}
