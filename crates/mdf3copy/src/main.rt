// The small program: copies the image on standard input to standard output, or writes the refusal's number and place.
#![tactic(auto)]

ghost use Rattle.std.specs.Prelude.{◌≡◌, ◌++◌, ◌≤◌, length, drop};
ghost use Rattle.answers.specs.Outcomes.{program_outcome, program_output};
ghost use Rattle.copy.specs.Copying.{outcome};

use refusal::{Reason, Refusal};

// The copy of an image that is not too long for the program.
fn copy_small(image: &[u8], out: &mut [u8]) -> Result<usize, Refusal>
    ensures { (outcome result ≡ (program_outcome image.now out.old).given) × (out.new ≡ (program_outcome image.now out.old).memory) }
{
    if 32768 < image.len() {
        return Err(Reason::TooLong.at(0));
    }
    copy::copy(image, out)
}

// What the program writes, at the start of the output: the copy, or one line. The answer is its length, and no slice, for the contract speaks of the whole output.
fn output(image: &[u8], out: &mut [u8; 32768]) -> usize
    ensures { (out.new ≡ program_output image.now ++ drop result out.old) × (result ≡ length (program_output image.now)) × (result ≤ 32768) }
{
    match copy_small(image, out) {
        Ok(n) => n,
        Err(refusal) => line::put_line(
            out,
            u64::from(refusal.reason.number()),
            refusal.place as u64,
        ),
    }
}

fn main() {
    let mut image = [0u8; 32769];
    let mut out = [0u8; 32768];
    let n = io::read_full(0, &mut image);
    let k = output(&image[..n], &mut out);
    io::write_all(1, &out[..k]);
}
