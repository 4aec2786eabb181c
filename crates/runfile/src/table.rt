// Tables of bytes into an output.
ghost use Rattle.std.specs.Prelude.{◌≡◌, ◌+◌, ◌≤◌, ◌++◌, length};
ghost use Rattle.std.proofs.lemmas.List.Edits.{sets};

// The bytes from a place on; answers the place behind them.
// Kept: at a place, as `sets` has one, in which all that is written is said; and byte by byte. By `copy_from_slice` the library needs C's `memmove`, and the header asks for `memcpy` and `memset` alone.
pub(crate) fn put_table(out: &mut [u8], at: usize, table: &[u8]) -> usize
    requires { at + length table.now ≤ length out.old }
    ensures place { result ≡ at + length table.now }
    ensures output { out.new ≡ sets out.old at table.now }
{
    for k in 0..table.len() {
        out[at + k] = table[k];
    }
    at + table.len()
}

// Three of them, one after the other.
pub(crate) fn put_tables(
    out: &mut [u8],
    at: usize,
    first: &[u8],
    second: &[u8],
    third: &[u8],
) -> usize
    requires { at + length first.now + length second.now + length third.now ≤ length out.old }
    ensures place { result ≡ at + length first.now + length second.now + length third.now }
    ensures output { out.new ≡ sets out.old at (first.now ++ second.now ++ third.now) }
{
    let a = put_table(out, at, first);
    let b = put_table(out, a, second);
    put_table(out, b, third)
}
