// Standard output in pages, so that a long text takes few calls.
ghost use Rattle.std.specs.Prelude.{◌≡◌, ◌+◌, ◌-◌, ◌<◌, ◌≤◌, [], ◌++◌, length, min, IfOk, IsOk, Ok, OnOk};
ghost use Rattle.std.specs.Io.{WritesAtMost};
ghost use Rattle.arrayvec.specs.ArrayVec.{array_vec_len};

use arrayvec::ArrayVec;
use std::io;
use std::io::{Stdout, Write};

/// Standard output, gathered in a page that is written when it is full. `flush` writes what is left; a page that is let go
/// writes nothing.
// Kept: std's `BufWriter` takes memory from a heap, and after a failed write it writes again when it is let go.
#[derive(Drop)]
pub struct Page {
    bytes: ArrayVec<u8, 65536>,
    stdout: Stdout,
}

impl Page {
    pub fn new(stdout: Stdout) -> Page
        ensures { result.bytes.items ≡ [] }
    {
        Page {
            bytes: ArrayVec::new(),
            stdout,
        }
    }

    // Writes what stands on the page.
    fn turn(&mut self) -> io::Result<()>
        ensures { OnOk result (self.new.bytes.items ≡ []) }
    {
        self.stdout.write_all(self.bytes.as_slice())?;
        self.bytes.clear();
        Ok(())
    }

    // A text that the page has no room for: what fits, and then page after page.
    #[cold]
    #[inline(never)]
    fn write_past(&mut self, buf: &[u8]) -> io::Result<()> {
        let n = self.write(buf)?;
        for piece in buf[n..].chunks(65536) {
            self.turn()?;
            self.write(piece)?;
        }
        Ok(())
    }
}

impl Write for Page {
    fn write(&mut self, buf: &[u8]) -> io::Result<usize>
        ensures bound { WritesAtMost result buf.now }
        ensures fills { array_vec_len self.old.bytes < 65536 → result ≡ Ok (min (65536 - array_vec_len self.old.bytes) (length buf.now)) }
        ensures full { array_vec_len self.old.bytes ≡ 65536 → IfOk result (λ n. n ≡ min 65536 (length buf.now)) }
        ensures gathers { array_vec_len self.old.bytes < 65536 → array_vec_len self.old.bytes + length buf.now ≤ 65536 → self.new.bytes.items ≡ self.old.bytes.items ++ buf.now }
    {
        if self.bytes.is_full() {
            self.turn()?;
        }
        self.bytes.write(buf)
    }

    fn flush(&mut self) -> io::Result<()>
        ensures { OnOk result (self.new.bytes.items ≡ []) }
    {
        self.turn()
    }

    // Nearly every text finds room.
    #[inline(always)]
    fn write_all(&mut self, buf: &[u8]) -> io::Result<()>
        ensures gathers { array_vec_len self.old.bytes + length buf.now ≤ 65536 → (IsOk result) × (self.new.bytes.items ≡ self.old.bytes.items ++ buf.now) }
    {
        if self.bytes.try_extend_from_slice(buf).is_ok() {
            return Ok(());
        }
        self.write_past(buf)
    }
}
