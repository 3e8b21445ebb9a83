// Two slices of bytes compared.
#![tactic(auto)]

ghost use Rattle.std.specs.Prelude.{◌≡◌, ◌≤◌, length};
ghost use Rattle.answers.specs.Differences.{same_bytes, difference};
ghost use Rattle.write.specs.Write.{filled};

// The first place at which they differ; the shorter length where there is none.
pub fn first_difference(a: &[u8], b: &[u8]) -> usize
    ensures { result ≡ difference a.now b.now }
{
    a.iter()
        .zip(b)
        .position(|(p, q)| p != q)
        .unwrap_or(a.len().min(b.len()))
}

// Whether they are the same bytes. A function for its promise: the definition is ours, not that of `==`.
pub fn same_part(a: &[u8], b: &[u8]) -> bool
    ensures { result ≡ same_bytes a.now b.now }
{
    a == b
}

// Whether they are the same bytes with zeros behind them, up to n and up to m.
pub fn same_padded(a: &[u8], n: usize, b: &[u8], m: usize) -> bool
    requires { (length a.now ≤ n) × (length b.now ≤ m) }
    ensures { result ≡ same_bytes (filled a.now n) (filled b.now m) }
{
    let both = a.len().min(b.len());
    let (x, past_x) = a.split_at(both);
    let (y, past_y) = b.split_at(both);
    n == m && x == y && past_x.iter().chain(past_y).all(|byte| *byte == 0)
}
