// The calls for C programs: include/mdf3.h declares them. What a call gives is called otherwise in each, so that a must-fail edit,
// which goes by one line, can name it.
#![tactic(auto)]

ghost use Rattle.std.specs.Prelude.{◌≡◌};
ghost use Rattle.answers.specs.Outcomes.{copy_outcome, compare_outcome};
ghost use Rattle.stored.specs.Stored.{stored_of};
ghost use Rattle.mdf3.specs.Answers.{answer_bytes, number_given, answer_given, check_number, check_answer, copy_number, copy_answer, compare_number, compare_answer, stored_bytes, sample_number, sample_answer, physical_bytes, physical_number, physical_answer};

use reading::{File, Refusal};
use stored::Stored;

// Place, value, length and kind, as the answer holds them: all have 64 bits there, and kinds are the numbers of include/mdf3.h.
// `as` between `u64` and `usize`, here and below: the library has no `From` between them.
fn answer_bytes(place: u64, value: u64, size: u64, kind: u64) -> [u8; 32]
    ensures { result ≡ answer_bytes place value size kind }
{
    let mut bytes = [0u8; 32];
    // eight bytes each, so that no call of `memmove` is left
    bytes[..8].copy_from_slice(&place.to_le_bytes());
    bytes[8..16].copy_from_slice(&value.to_le_bytes());
    bytes[16..24].copy_from_slice(&size.to_le_bytes());
    bytes[24..].copy_from_slice(&kind.to_le_bytes());
    bytes
}

// Hands back what a call gives: 0 and the bytes of its value, or the number and the place of a refusal.
fn give(given: Result<[u8; 32], Refusal>, answer: &mut [u8; 32]) -> u32
    ensures { (result ≡ number_given given) × (answer.new ≡ answer_given given) }
{
    match given {
        Ok(bytes) => {
            *answer = bytes;
            0
        }
        Err(refusal) => {
            *answer = answer_bytes(refusal.place as u64, 0, 0, 0);
            refusal.reason.number()
        }
    }
}

// A check gives nothing.
fn no_bytes(_file: File) -> [u8; 32]
    ensures { result ≡ answer_bytes 0 0 0 0 }
{
    answer_bytes(0, 0, 0, 0)
}

fn length_bytes(length: usize) -> [u8; 32]
    ensures { result ≡ answer_bytes 0 length 0 0 }
{
    answer_bytes(0, length as u64, 0, 0)
}

#[tactic(auto, unfolding(crate::specs::Answers::physical_bytes))]
fn float_bytes(x: f64) -> [u8; 32]
    ensures { result ≡ physical_bytes x }
{
    answer_bytes(0, floats::double_bits(x), 0, 4)
}

// A sample as the answer holds it.
#[tactic(auto, unfolding(crate::specs::Answers::stored_bytes))]
fn sample_bytes(s: Stored) -> [u8; 32]
    ensures { result ≡ stored_bytes (stored_of s) }
{
    match s {
        Stored::Unsigned(n) => answer_bytes(0, n, 0, 1),
        Stored::Signed(signed) => answer_bytes(0, signed.twos_complement(), 0, 2),
        Stored::Single(n) => answer_bytes(0, u64::from(n), 0, 3),
        Stored::Double(n) => answer_bytes(0, n, 0, 4),
        Stored::Part(span) => answer_bytes(0, span.at as u64, span.size as u64, 5),
    }
}

// Whether an image is accepted: the number is returned, the answer holds the place.
#[unsafe(no_mangle)]
pub extern "C" fn mdf3_check(image: &[u8], answer: &mut [u8; 32]) -> u32
    ensures { (result ≡ check_number image.now) × (answer.new ≡ check_answer image.now) }
{
    let checked = reading::open(image).map(no_bytes);
    give(checked, answer)
}

// The canonical copy of an image in the output: the number is returned, the answer holds the place, or the length of the copy as its value.
#[unsafe(no_mangle)]
pub extern "C" fn mdf3_copy(image: &[u8], out: &mut [u8], answer: &mut [u8; 32]) -> u32
    ensures { (result ≡ copy_number image.now out.old)
        × (answer.new ≡ copy_answer image.now out.old)
        × (out.new ≡ (copy_outcome image.now out.old).memory) }
{
    let copied = copy::copy(image, out).map(length_bytes);
    give(copied, answer)
}

// The list of the differences of two images in the output: the number is returned, the answer holds the place, or the length of the list as its value.
#[unsafe(no_mangle)]
pub extern "C" fn mdf3_compare(
    first: &[u8],
    second: &[u8],
    out: &mut [u8],
    answer: &mut [u8; 32],
) -> u32
    ensures { (result ≡ compare_number first.now second.now out.old)
        × (answer.new ≡ compare_answer first.now second.now out.old)
        × (out.new ≡ (compare_outcome first.now second.now out.old).memory) }
{
    let compared = compare::compare(first, second, out).map(length_bytes);
    give(compared, answer)
}

// The sample of a channel in a record: the number is returned, the answer holds the place, or kind and bits of the sample.
#[unsafe(no_mangle)]
pub extern "C" fn mdf3_sample(
    image: &[u8],
    group: u64,
    channel: u64,
    record: u64,
    answer: &mut [u8; 32],
) -> u32
    ensures { (result ≡ sample_number image.now group channel «record») × (answer.new ≡ sample_answer image.now group channel «record») }
{
    let sampled = stored::sample(image, group as usize, channel as usize, record as usize).map(
        sample_bytes,
    );
    give(sampled, answer)
}

// Its physical value: the number is returned, the answer holds the place, or the bits of the value.
#[unsafe(no_mangle)]
pub extern "C" fn mdf3_physical(
    image: &[u8],
    group: u64,
    channel: u64,
    record: u64,
    answer: &mut [u8; 32],
) -> u32
    ensures { (result ≡ physical_number image.now group channel «record») × (answer.new ≡ physical_answer image.now group channel «record») }
{
    let measured = physical::physical(image, group as usize, channel as usize, record as usize).map(
        float_bytes,
    );
    give(measured, answer)
}
