// A text put together part by part, in fixed memory: a library without a heap has no `String`.
// Kept: a room and its length. An `ArrayVec` answers an error where there is no room, which cannot come here and each call would have to pass on.
ghost use Rattle.std.specs.Prelude.{ℕ, ◌+◌, ◌≤◌, ◌≡◌, ◌++◌, List, [], length, take};
ghost use Rattle.words.specs.Decimal.{decimal};

use std::marker::Model;

// A text of 64 bytes at most, seen as the list of them.
#[derive(Drop)]
pub(crate) struct Text {
    room: [u8; 64],
    length: usize,
}

impl Model for Text {
    ghost Value = { List ℕ };

    ghost view = { λ t. take t.length t.room };

    ghost invariant = { λ t. t.length ≤ 64 };
}

impl Text {
    pub(crate) fn new() -> Self
        ensures { result ≡ [] }
    {
        Text {
            room: [0; 64],
            length: 0,
        }
    }

    pub(crate) fn as_slice(&self) -> &[u8]
        ensures text { result.now ≡ self.now }
        ensures short { length result.now ≤ 64 }
    {
        &self.room[..self.length]
    }

    pub(crate) fn push(&mut self, bytes: &[u8])
        requires { length self.old + length bytes.now ≤ 64 }
        ensures { self.new ≡ self.old ++ bytes.now }
    {
        let end = self.length + bytes.len();
        self.room[self.length..end].copy_from_slice(bytes);
        self.length = end;
    }

    // A number in decimal. Kept: by recursion, as `decimal` is defined, and two edits plant their mistakes in these lines.
    #[tactic(auto, using(crate::proofs::DecimalLaws::decimal_one, crate::proofs::DecimalLaws::decimal_more, crate::proofs::DecimalLaws::decimal_longer))]
    pub(crate) fn push_decimal(&mut self, n: u32)
        requires { length self.old + length (decimal n) ≤ 64 }
        ensures { self.new ≡ self.old ++ decimal n }
    {
        if n < 10 {
            self.push(&[b'0' + n as u8]);
        } else {
            self.push_decimal(n / 10);
            self.push(&[b'0' + (n % 10) as u8]);
        }
    }
}
