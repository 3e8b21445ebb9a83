// Writes bytes over a lent slice, from a place on. Memory and place are two parameters: places are also what links say, and a contract speaks of the whole memory.
#![tactic(auto)]

ghost use Rattle.std.specs.Prelude.{◌+◌, ◌≤◌, length, replicate};
ghost use Rattle.spec.specs.Bytes.{bytes_of};
ghost use Rattle.write.specs.Write.{Wrote, filled};

// All of `src`.
pub fn put_all(out: &mut [u8], at: usize, src: &[u8])
    requires { at + length src.now ≤ length out.old }
    ensures { Wrote out.old out.new at src.now }
{
    // no `copy_from_slice`: where the length is no constant it calls `memmove` of the C library, which nothing else needs
    for (k, byte) in src.iter().enumerate() {
        out[at + k] = *byte;
    }
}

pub fn put_zeros(out: &mut [u8], at: usize, n: usize)
    requires { at + n ≤ length out.old }
    ensures { Wrote out.old out.new at (replicate n 0) }
{
    out[at..at + n].fill(0);
}

// All of `src`, then zeros up to `len`.
pub fn put_padded(out: &mut [u8], at: usize, src: &[u8], len: usize)
    requires { (at + len ≤ length out.old) × (length src.now ≤ len) }
    ensures { Wrote out.old out.new at (filled src.now len) }
{
    put_all(out, at, src);
    put_zeros(out, at + src.len(), len - src.len());
}

// A number by its `N` low bytes, the lowest first.
pub fn put_number<const N: usize>(out: &mut [u8], at: usize, number: usize)
    requires { (N ≤ 8) × (at + N ≤ length out.old) }
    ensures { Wrote out.old out.new at (bytes_of N number) }
{
    put_all(out, at, &number.to_le_bytes()[..N]);
}
