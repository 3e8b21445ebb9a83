// Samples as they are stored: their kind and their bits, or the part of the image that they are. Refusal 15 where they can't be read.
#![tactic(auto)]

ghost use Rattle.std.specs.Prelude.{◌≡◌, ℕ, ◌&&◌, eqb, leb, ◌+◌, ◌≤◌};
ghost use Rattle.answers.specs.Samples.{Logged, DataType, byte_run, type_at, type_of, stored_sample};
ghost use Rattle.bits.specs.Bits.{order_of};
ghost use Rattle.bits.specs.declared.Order.TheVariants.{LowestFirst};
ghost use Rattle.reading.specs.Steps.{the_channel, channel_place};
ghost use Rattle.refusal.specs.Refused.{answer_of};
ghost use Rattle.stored.specs.Stored.{BitsInside, NumberIs, typed, ReadAs, answer_at, stored_of, Fits, RowAt, LoggedAt, SampleIs};

use bits::Order;
pub use bits::Signed;
use reading::{Channel, Reason, Signal};
pub use reading::{Refusal, Span};

// Its kind and its bits, or the part of the image that it is.
#[derive(Clone, Copy)]
pub enum Stored {
    Unsigned(u64),
    Signed(Signed),
    Single(u32),
    Double(u64),
    // Where it stands.
    Part(Span),
}

// The byte order of a data type's numbers.
fn byte_order(data_type: usize) -> Order
    ensures { order_of result ≡ (type_at data_type).order }
{
    match data_type {
        9..=12 => Order::HighestFirst,
        _ => Order::LowestFirst,
    }
}

// The bits of a signal in a record: they lie in the image, from a place on.
#[derive(Clone, Copy)]
struct Bits<'a> {
    image: &'a [u8],
    at: usize,
    signal: Signal,
    ghost inside: { BitsInside image.now at signal },
}

impl Bits<'_> {
    // As a number, where they are no more than 64.
    fn number(self, order: Order) -> Option<u64>
        ensures { let b = self.entry in NumberIs (leb (b.signal.bit + b.signal.bits) 64) order b.image.now b.at b.signal result }
    {
        let s = self.signal;
        if 64 < s.bit + s.bits {
            return None;
        }
        Some(bits::raw(self.image, self.at, s.bit, s.bits, order))
    }

    // Whether they are so many, from the first of a byte on.
    fn fills(self, width: usize) -> bool
        ensures { result ≡ (eqb self.entry.signal.bit 0 && eqb self.entry.signal.bits width) }
    {
        self.signal.bit == 0 && self.signal.bits == width
    }

    // As those of a float of this width.
    fn float(self, width: usize, order: Order) -> Option<u64>
        requires { width ≤ 64 }
        ensures { let b = self.entry in NumberIs (eqb b.signal.bit 0 && eqb b.signal.bits width) order b.image.now b.at b.signal result }
    {
        if !self.fills(width) {
            return None;
        }
        self.number(order)
    }

    // As text or bytes: a part of the image.
    fn part(self) -> Option<Stored>
        ensures { let b = self.entry in (field : ℕ) → ReadAs (typed byte_run LowestFirst) b.image.now b.at b.signal field (answer_at field result) }
    {
        let size = self.signal.bits / 8;
        if !self.fills(8 * size) {
            return None;
        }
        Some(Stored::Part(Span { at: self.at, size }))
    }

    // By their data type, where they can be read.
    fn read(self) -> Option<Stored>
        ensures { let b = self.entry in (field : ℕ) → ReadAs type_of b.image.now b.at b.signal field (answer_at field result) }
    {
        // no enum: the data types are the numbers of the file, which may have some of which no sample is read
        let data_type = self.signal.data_type;
        let order = byte_order(data_type);
        match data_type {
            0 | 9 | 13 => self.number(order).map(Stored::Unsigned),
            1 | 10 | 14 => self
                .number(order)
                .map(|n| Stored::Signed(Signed::new(self.signal.bits, n))),
            // 32 bits, so `as` loses nothing
            2 | 11 | 15 => self.float(32, order).map(|n| Stored::Single(n as u32)),
            3 | 12 | 16 => self.float(64, order).map(Stored::Double),
            7 | 8 => self.part(),
            _ => None,
        }
    }

    // Refusal 15 where they can't.
    fn stored_as(self, field: usize) -> Result<Stored, Refusal>
        ensures { let b = self.entry in ReadAs type_of b.image.now b.at b.signal field result }
    {
        self.read().ok_or(Reason::NoSample.at(field))
    }
}

// The sample of a channel in a record, by where the record stands. The image stays beside the channel: the row is a place in it.
pub fn sample_in(image: &[u8], c: Channel, row: Span) -> Result<Stored, Refusal>
    requires { RowAt image.now c row.at row.size }
    ensures { ((x : Logged) → LoggedAt image.now row.at row.size x → answer_of stored_of result ≡ stored_sample (the_channel c.entry).fields (channel_place c.entry + 190) x) × Fits image.now result }
{
    let signal = c.signal();
    let field = c.type_field();
    if signal.bits == 0 {
        return Err(Reason::NoSample.at(field));
    }
    let at = row.at + signal.byte;
    Bits { image, at, signal }.stored_as(field)
}

// The sample of a channel in a record as it is stored. Groups, channels and records are counted from 0, as three numbers: so the calls for C have them.
pub fn sample(image: &[u8], group: usize, channel: usize, record: usize) -> Result<Stored, Refusal>
    ensures { SampleIs image.now group channel «record» result }
{
    let (c, row) = reading::seek(image, group, channel, record)?;
    sample_in(image, c, row)
}
