// Numbers in floating point: from their bits and to them, from integers, and the linear conversion. Most do what one call of the
// library does, and say it in the words of our definitions.
#![tactic(auto)]

ghost use Rattle.std.specs.Prelude.{◌≡◌, pos, from_bits, to_bits};
ghost use Rattle.std.specs.Float.{binary32, binary64};
ghost use Rattle.std.specs.Float.Ieee.{of_int, add, mul};
ghost use Rattle.spec.specs.Sample.{finite};

// ---- bits

// The number of these bits. There is one NaN: the bits of any give it.
pub fn double_of(n: u64) -> f64
    ensures { result ≡ from_bits binary64 n }
{
    std::num::f64_from_bits_with_nan(n)
}

// Stays beside `double_of`: the library has one call for each width too, and a trait over them would be longer.
pub fn single_of(n: u32) -> f32
    ensures { result ≡ from_bits binary32 n }
{
    std::num::f32_from_bits_with_nan(n)
}

// The bits of a number; those of the quiet NaN for a NaN.
pub fn double_bits(x: f64) -> u64
    ensures { result ≡ to_bits binary64 x }
{
    std::num::f64_to_bits_with_nan(x)
}

// Neither an infinity nor a NaN.
pub fn is_finite(x: f64) -> bool
    ensures { result ≡ finite x }
{
    x.is_finite()
}

// ---- integers

// Two functions for the reason at `single_of`: the library has one call for each type here too.
pub fn of_unsigned(n: u64) -> f64
    ensures { result ≡ of_int binary64 (pos n) }
{
    std::num::nearest_u64_to_f64(n)
}

pub fn of_signed(n: i64) -> f64
    ensures { result ≡ of_int binary64 n }
{
    std::num::nearest_i64_to_f64(n)
}

// ---- the linear conversion

// Each of the two operations rounds.
pub fn scaled(x: f64, p1: f64, p2: f64) -> f64
    ensures { result ≡ add binary64 (mul binary64 x p2) p1 }
{
    x * p2 + p1
}
