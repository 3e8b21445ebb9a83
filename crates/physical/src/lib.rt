// The physical value of a sample, for the conversions that are known: none, one to one, linear. Refusal 16 where there is none.
#![tactic(auto)]

ghost use Rattle.std.specs.Prelude.{◌≡◌, ◌+◌, ◌<◌, leb};
ghost use Rattle.std.specs.Bool.{then_some};
ghost use Rattle.std.specs.Float.{binary64};
ghost use Rattle.std.specs.Float.Ieee.{of_bits};
ghost use Rattle.answers.specs.Samples.{u64, Logged, exact, number_of, linear, converted, physical_value, physical_outcome};
ghost use Rattle.refusal.specs.Refused.{answer_of};
ghost use Rattle.reading.specs.Bodies.{body_held};
ghost use Rattle.reading.specs.Steps.{the_channel, channel_place};
ghost use Rattle.stored.specs.Stored.{stored_of, RowAt, LoggedAt};
ghost use Rattle.physical.specs.Values.{held, FiniteIs, outcome, physical_of};

use reading::{Channel, Reason, Refusal, Span};
use stored::Stored;

// ---- the number of a sample

// Up to it every integer is a 64-bit float.
const EXACT: u64 = 9007199254740992;

// The float of an integer of this magnitude, where no integer up to it is rounded.
fn unrounded(magnitude: u64, x: f64) -> Option<f64>
    ensures { result ≡ then_some (leb magnitude exact) x }
{
    (magnitude <= EXACT).then_some(x)
}

// A number that is finite.
fn finite(x: f64) -> Option<f64>
    ensures { FiniteIs x result }
{
    floats::is_finite(x).then_some(x)
}

#[tactic(auto, unfolding(answers::specs::Samples::number_of))]
fn number(s: Stored) -> Option<f64>
    ensures { held result ≡ number_of (stored_of s) }
{
    match s {
        Stored::Unsigned(n) => unrounded(n, floats::of_unsigned(n)),
        Stored::Signed(signed) => unrounded(signed.magnitude(), floats::of_signed(signed.value())),
        Stored::Double(n) => finite(floats::double_of(n)),
        Stored::Single(_) | Stored::Part(_) => None,
    }
}

// ---- conversions

// A parameter of a CC, by its offset in the body.
fn parameter(cc: &[u8], offset: usize) -> f64
    requires { offset < 65536 }
    ensures { result ≡ of_bits binary64 (u64 offset cc.now) }
{
    floats::double_of(reading::u64_of(cc, offset))
}

// Formula 0: times P2, plus P1.
fn linear(cc: &[u8], x: f64) -> Option<f64>
    ensures { held result ≡ linear cc.now x }
{
    if cc.len() < 58 {
        return None;
    }
    let p1 = finite(parameter(cc, 42))?;
    let p2 = finite(parameter(cc, 50))?;
    let y = floats::scaled(x, p1, p2);
    finite(y)
}

// A number by the conversion of its channel.
#[tactic(auto, unfolding(answers::specs::Samples::converted))]
fn convert(conversion: Option<&[u8]>, x: f64) -> Option<f64>
    ensures { held result ≡ converted (body_held conversion.entry) x }
{
    let Some(cc) = conversion else {
        return Some(x);
    };
    // the file's numbers of formulas: one to one, linear, and others, which have no value here
    match reading::u16_of(cc, 38) {
        65535 => Some(x),
        0 => linear(cc, x),
        _ => None,
    }
}

// The physical value of a sample of a channel.
fn value(c: Channel, s: Stored) -> Option<f64>
    ensures { held result ≡ physical_value (the_channel c.entry).conversion (stored_of s) }
{
    let x = number(s)?;
    convert(c.conversion(), x)
}

// The physical value of a channel in a record, by where the record stands.
fn physical_in(image: &[u8], c: Channel, row: Span) -> Result<f64, Refusal>
    requires { RowAt image.now c row.at row.size }
    ensures { (x : Logged) → LoggedAt image.now row.at row.size x → answer_of (λ y. y) result ≡ physical_of (the_channel c.entry) (channel_place c.entry + 190) x }
{
    let s = stored::sample_in(image, c, row)?;
    value(c, s).ok_or(Reason::NoPhysical.at(0))
}

// The physical value of a channel in a record. Groups, channels and records are counted from 0, as three numbers: so the calls for C have them.
pub fn physical(image: &[u8], group: usize, channel: usize, record: usize) -> Result<f64, Refusal>
    ensures { outcome result ≡ physical_outcome image.now group channel «record» }
{
    let (c, row) = reading::seek(image, group, channel, record)?;
    physical_in(image, c, row)
}
