// The words of a line, which stand between blanks, and what they are as numbers.
ghost use Rattle.std.specs.Prelude.{◌<◌, length, IfSome};
ghost use Rattle.std.specs.Iterator.{at_most};

fn is_blank(byte: &u8) -> bool {
    matches!(byte, b' ' | b'\t' | b',' | b'\r')
}

fn hexadecimal_digit(byte: u8) -> Option<u8>
    ensures { IfSome result (λ digit. digit < 16) }
{
    let digit = char::from(byte).to_digit(16)?;
    Some(digit as u8)
}

// A word as a number of 32 bits: decimal digits alone.
pub(crate) fn decimal(word: &[u8]) -> Option<u32> {
    console::decimal(str::from_utf8(word).ok()?)
}

// A word as a byte in two hexadecimal digits.
pub(crate) fn hexadecimal(word: &[u8]) -> Option<u8> {
    let [high, low] = word else {
        return None;
    };
    Some(16 * hexadecimal_digit(*high)? + hexadecimal_digit(*low)?)
}

// What is left of a line, word after word.
#[derive(Clone, Copy)]
pub(crate) struct Words<'a> {
    rest: &'a [u8],
}

impl<'a> Iterator for Words<'a> {
    type Item = &'a [u8];

    ghost remaining = { λ words. at_most (length words.rest.now) };

    fn next(&mut self) -> Option<&'a [u8]> {
        let start = self.rest.iter().position(|byte| !is_blank(byte))?;
        let line = &self.rest[start..];
        let (word, rest) = match line.iter().position(is_blank) {
            Some(end) => (&line[..end], &line[end + 1..]),
            None => (line, &line[line.len()..]),
        };
        self.rest = rest;
        Some(word)
    }
}

impl<'a> Words<'a> {
    pub(crate) fn new(line: &'a [u8]) -> Words<'a> {
        Words { rest: line }
    }

    // Whether no word is left.
    pub(crate) fn is_empty(&self) -> bool {
        self.rest.iter().all(is_blank)
    }

    // Passes over the words of a phrase, if they are next.
    pub(crate) fn expect(&mut self, phrase: &str) -> Option<()> {
        for word in Words::new(phrase.as_bytes()) {
            if self.next()? != word {
                return None;
            }
        }
        Some(())
    }

    // The next word as a number.
    pub(crate) fn number(&mut self) -> Option<u32> {
        decimal(self.next()?)
    }

    // The next word as a number up to 255.
    pub(crate) fn byte(&mut self) -> Option<u8> {
        u8::try_from(self.number()?).ok()
    }

    pub(crate) fn number_after(&mut self, phrase: &str) -> Option<u32> {
        self.expect(phrase)?;
        self.number()
    }

    pub(crate) fn byte_after(&mut self, phrase: &str) -> Option<u8> {
        self.expect(phrase)?;
        self.byte()
    }
}
