// The canonical copy of an image: its length first, then its bytes.
#![tactic(auto)]

ghost use Rattle.std.specs.Prelude.{◌≡◌, ◌+◌, ◌≤◌, ◌<◌, length};
ghost use Rattle.write.specs.Write.{Wrote};
ghost use Rattle.answers.specs.Copies.{copy_length, canonical_copy};
ghost use Rattle.answers.specs.Outcomes.{copy_outcome};
ghost use Rattle.reading.specs.Steps.{reading_of};
ghost use Rattle.put_channels.specs.Channels.{SumIs};
ghost use Rattle.copy.specs.Copying.{outcome, FrontIs, id_hd_bytes};

use blocks::{HeaderLinks, Pr, Tx};
use put_channels::{Sum, link_if};
use reading::{File, Refusal};

// ---- before the groups

#[derive(Clone, Copy)]
struct Front<'a> {
    size: usize,
    comment: Option<&'a [u8]>,
    program: Option<&'a [u8]>,
    tx: usize,
    pr: usize,
    first: usize,
}

fn front_of<'a>(f: File<'a>) -> Front<'a>
    ensures { FrontIs result (reading_of f.entry) }
{
    let size = blocks::hd_size(f.version());
    let comment = f.comment();
    let program = f.program();
    let tx = 64 + size;
    let pr = tx + put_channels::body_length(comment);
    let first = pr + put_channels::body_length(program);
    Front {
        size,
        comment,
        program,
        tx,
        pr,
        first,
    }
}

// The length of the copy, and how many groups it has.
#[tactic(auto, unfolding(answers::specs::Copies::copy_length))]
fn needed(f: File) -> Sum
    ensures { SumIs result (copy_length (reading_of f.entry)) (length (reading_of f.entry).groups) }
{
    let front = front_of(f);
    put_groups::groups_sum(f.groups(), front.first)
}

// ---- the copy

// ID and HD.
fn put_id_hd(out: &mut [u8], f: File, front: Front, count: usize)
    requires { FrontIs front (reading_of f) × (count ≡ length (reading_of f).groups) × (64 + front.size ≤ length out.old) }
    ensures { Wrote out.old out.new 0 (id_hd_bytes (reading_of f.entry)) }
{
    write::put_all(out, 0, f.ident());
    let carried = f.fields();
    let links = HeaderLinks {
        first: link_if(count != 0, front.first),
        comment: link_if(front.comment.is_some(), front.tx),
        program: link_if(front.program.is_some(), front.pr),
    };
    blocks::put_hd(
        out,
        64,
        front.size,
        links,
        count,
        carried.main,
        carried.later,
    );
}

// The whole copy, where there is room for it.
#[tactic(auto, unfolding(answers::specs::Copies::copy_length))]
fn put_file(out: &mut [u8], f: File, count: usize)
    requires { (count ≡ length (reading_of f).groups) × (copy_length (reading_of f) ≤ 2147483647) × (copy_length (reading_of f) ≤ length out.old) }
    ensures { Wrote out.old out.new 0 (canonical_copy (reading_of f.entry)) }
{
    let front = front_of(f);
    put_id_hd(out, f, front, count);
    put_channels::put_body::<Tx>(out, front.tx, front.comment);
    put_channels::put_body::<Pr>(out, front.pr, front.program);
    put_groups::put_groups(out, front.first, f.groups());
}

// Writes the canonical copy of an image from the start of the output: its length, or a refusal. A refused copy writes nothing.
pub fn copy(image: &[u8], out: &mut [u8]) -> Result<usize, Refusal>
    ensures { (outcome result ≡ (copy_outcome image.now out.old).given) × (out.new ≡ (copy_outcome image.now out.old).memory) }
{
    let f = reading::open(image)?;
    let sum = needed(f);
    refusal::fits(sum.length, out.len())?;
    put_file(out, f, sum.count);
    Ok(sum.length)
}
