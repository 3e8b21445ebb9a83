// The one line of the small program: two decimal numbers.
#![tactic(auto)]

ghost use Rattle.std.specs.Prelude.{◌≡◌, ◌+◌, ◌≤◌, length};
ghost use Rattle.spec.specs.Call.{line};
ghost use Rattle.write.specs.Write.{Wrote};
ghost use Rattle.line.specs.Line.{shown};

// The decimal digits of a number; the answer is the place behind them.
// By hand: the standard library prints through a formatter, whose contract says nothing where the room ends.
fn put_decimal(out: &mut [u8], at: usize, n: u64) -> usize
    requires { at + 20 ≤ length out.old }
    ensures { Wrote out.old out.new at (shown n) × (result ≡ at + length (shown n)) × (result ≤ at + 20) }
{
    let mut text = [0u8; 20];
    // the digits made so far stand from here on
    let mut k: usize = 20;
    let mut left = n;
    while 10 <= left {
        k -= 1;
        text[k] = b'0' + (left % 10) as u8;
        left /= 10;
    }
    k -= 1;
    text[k] = b'0' + left as u8;
    write::put_all(out, at, &text[k..]);
    at + (20 - k)
}

// Number, one blank, place, newline; the answer is how many bytes that is.
pub fn put_line(out: &mut [u8], number: u64, place: u64) -> usize
    requires { 42 ≤ length out.old }
    ensures { Wrote out.old out.new 0 (line number place) × (result ≡ length (line number place)) × (result ≤ 42) }
{
    let blank = put_decimal(out, 0, number);
    out[blank] = b' ';
    let end = put_decimal(out, blank + 1, place);
    out[end] = b'\n';
    end + 1
}
