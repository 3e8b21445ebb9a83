// For tests: writes the samples of the image on standard input, as values and as parts. Of the first groups and channels the first
// records; a line for each sample, and one for its part.
#![tactic(auto)]

use sample::SampleValue;

// The bits of a 32-bit float as a 64-bit one, which can hold it.
fn widened(x: f32) -> u64 {
    if x.is_nan() {
        return 0x7ff8_0000_0000_0000;
    }
    floats::double_bits(f64::from(x))
}

fn line(kind: u64, a: u64, b: u64) {
    io::print_decimal(1, kind);
    io::write_all(1, b" ");
    io::print_decimal(1, a);
    io::write_all(1, b" ");
    io::print_decimal(1, b);
    io::write_all(1, b"\n");
}

fn show_value(v: SampleValue) {
    match v {
        SampleValue::Unsigned(n) => line(1, n, 0),
        SampleValue::Signed(n) => line(2, floats::double_bits(floats::of_signed(n)), 0),
        SampleValue::Single(x) => line(3, widened(x), 0),
        SampleValue::Double(x) => line(4, floats::double_bits(x), 0),
        SampleValue::Part(span) => line(5, span.at as u64, span.size as u64),
    }
}

fn show(image: &[u8], group: usize, channel: usize, record: usize) {
    match sample::sample(image, group, channel, record) {
        Ok(v) => show_value(v),
        Err(e) => line(0, u64::from(e.reason.number()), e.place as u64),
    }
    let part = sample::part(image, group, channel, record);
    io::print_decimal(1, part.len() as u64);
    io::write_all(1, b" ");
    io::write_all(1, part);
    io::write_all(1, b"\n");
}

// The first 6 records of a channel.
fn show_channel(image: &[u8], group: usize, channel: usize) {
    for record in 0..6 {
        show(image, group, channel, record);
    }
}

// The first 9 channels of a group.
fn show_group(image: &[u8], group: usize) {
    for channel in 0..9 {
        show_channel(image, group, channel);
    }
}

// The first 5 groups.
fn show_image(image: &[u8]) {
    for group in 0..5 {
        show_group(image, group);
    }
}

fn main() {
    let mut image = [0u8; 32768];
    let n = io::read_full(0, &mut image);
    show_image(&image[..n]);
}
