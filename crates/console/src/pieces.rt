// Pieces of what is read and written.
ghost use Rattle.std.specs.Prelude.{◌≡◌, ◌^◌, ◌<◌, All, IfSome, IsSome, IsTrue};
ghost use Rattle.std.specs.Char.{is_ascii_digit};
ghost use Rattle.std.specs.Str.Parse.{IsNumeral, digits_value, without_leading_plus};

use std::io;
use std::io::Write;

/// The number that decimal digits alone make, if it has 32 bits. `parse` takes a sign too.
pub fn decimal(text: &str) -> Option<u32>
    ensures succeeds { All (λ c. IsTrue (is_ascii_digit c)) text.now → IsNumeral 10 (without_leading_plus text.now) →
        digits_value 10 (without_leading_plus text.now) < 2 ^ 32 → IsSome result }
    ensures digits { IfSome result (λ _. All (λ c. IsTrue (is_ascii_digit c)) text.now) }
    ensures value { IfSome result (λ n. n ≡ digits_value 10 (without_leading_plus text.now)) }
{
    if !text.bytes().all(|byte| byte.is_ascii_digit()) {
        return None;
    }
    text.parse().ok()
}

/// Bytes in hexadecimal, each after a space.
pub fn hexadecimal(out: &mut impl Write, bytes: &[u8]) -> io::Result<()> {
    // Kept: two digits from a table. With `{byte:02x}` a line of bytes takes more than twice as long.
    let digit = |half: u8| b"0123456789abcdef"[half as usize % 16];
    for byte in bytes {
        out.write_all(&[b' ', digit(byte >> 4), digit(byte & 15)])?;
    }
    Ok(())
}
