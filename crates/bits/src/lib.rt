// The bits of a signal, as a number of either byte order; the number as two's complement.
#![tactic(auto)]

ghost use Rattle.std.specs.Prelude.{◌≡◌, reverse, ◌+◌, ◌-◌, ◌*◌, ◌/◌, ◌%◌, ◌^◌, ◌≤◌, ◌<◌, nat_abs, length, take, drop};
ghost use Rattle.spec.specs.Bytes.{number};
ghost use Rattle.spec.specs.Sample.{number_in, signed_of, twos};
ghost use Rattle.bits.specs.Bits.{order_of, bits_at};

// ---- numbers of bytes

// Which byte of a number comes first.
#[derive(Clone, Copy)]
pub enum Order {
    LowestFirst,
    HighestFirst,
}

// The number of these bytes, the highest first.
fn number_big(bytes: &[u8]) -> u64
    requires { length bytes.now ≤ 8 }
    ensures { result ≡ number (reverse bytes.now) }
{
    bytes.iter().fold(0, |v, x| v << 8 | u64::from(*x))
}

// The number of n bytes in this order.
#[tactic(auto, unfolding(image::specs::Spans::number_at))]
fn number_at(image: &[u8], at: usize, n: usize, order: Order) -> u64
    requires { (n ≤ 8) × (at + n ≤ length image.now) }
    ensures { result ≡ number_in (order_of order) (take n (drop at image.now)) }
{
    match order {
        Order::LowestFirst => image::number(image, at, n),
        Order::HighestFirst => number_big(&image[at..at + n]),
    }
}

// The lowest bits.
fn kept(v: u64, bits: usize) -> u64
    requires { (1 ≤ bits) × (bits ≤ 64) }
    ensures { (result ≡ v % 2 ^ bits) × (result < 2 ^ bits) }
{
    v & (u64::MAX >> (64 - bits))
}

// So many bits of the bytes from a place on, above the lowest `skip`. Image and place, as `image::number` has them.
#[tactic(auto, unfolding(crate::specs::Bits::bits_at))]
pub fn raw(image: &[u8], at: usize, skip: usize, bits: usize, order: Order) -> u64
    requires { (skip < 8) × (1 ≤ bits) × (skip + bits ≤ 64) × (at + (skip + bits + 7) / 8 ≤ length image.now) }
    ensures { (result ≡ bits_at order image.now at skip bits) × (result < 2 ^ bits) }
{
    let n = (skip + bits).div_ceil(8);
    let v = number_at(image, at, n, order);
    kept(v >> skip, bits)
}

// ---- two's complement

// A number in two's complement: how many bits it has, and these.
#[derive(Clone, Copy)]
pub struct Signed {
    width: usize,
    bits: u64,
    ghost fits: { (1 ≤ width) × (width ≤ 64) × (bits < 2 ^ width) },
}

impl Signed {
    pub fn new(width: usize, bits: u64) -> Signed
        requires { (1 ≤ width) × (width ≤ 64) × (bits < 2 ^ width) }
        ensures { (result.width ≡ width) × (result.bits ≡ bits) }
    {
        Signed { width, bits }
    }

    pub fn width(self) -> usize
        ensures { result ≡ self.width }
    {
        self.width
    }

    pub fn bits(self) -> u64
        ensures { result ≡ self.bits }
    {
        self.bits
    }

    pub fn value(self) -> i64
        ensures { result ≡ signed_of self.width self.bits }
    {
        // to the left, so that the highest of the bits is the sign; and back, where the sign fills what is free
        let unused = 64 - self.width;
        (self.bits << unused).cast_signed() >> unused
    }

    // The same number in 64 bits.
    pub fn twos_complement(self) -> u64
        ensures { result ≡ twos self.width self.bits }
    {
        self.value().cast_unsigned()
    }

    // The same number without its sign.
    pub fn magnitude(self) -> u64
        ensures { result ≡ nat_abs (signed_of self.width self.bits) }
    {
        self.value().unsigned_abs()
    }
}
