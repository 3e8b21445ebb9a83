// The difference list of two images: its length first, then its bytes.
#![tactic(auto)]

ghost use Rattle.std.specs.Prelude.{◌≡◌};
ghost use Rattle.answers.specs.Differences.{file_entries, differences};
ghost use Rattle.answers.specs.Outcomes.{compare_outcome};
ghost use Rattle.reading.specs.Steps.{reading_of};
ghost use Rattle.listing.specs.Listing.{Listed};
ghost use Rattle.listing.specs.Growing.{Grown};
ghost use Rattle.compare.specs.Comparing.{outcome, capped_length};

use listing::{EntryKind, Length, List};
use reading::{File, Refusal};

// ID, header, comment and program.
fn list_file(list: &mut List, f: File, g: File)
    ensures { Grown list.old list.new (file_entries (reading_of f.entry) (reading_of g.entry)) }
{
    let kind = EntryKind::FilePart as usize;
    list.unless(same_parts::same_ident(f, g), kind, 0, 0);
    list.unless(same_parts::same_header(f, g), kind, 0, 1);
    list.unless(same_parts::same_comment(f, g), kind, 0, 2);
    list.unless(same_parts::same_program(f, g), kind, 0, 3);
}

// The whole list.
fn list_all(out: &mut [u8], f: File, g: File) -> Length
    ensures { Listed out.old out.new 0 result.bytes (differences (reading_of f.entry) (reading_of g.entry)) }
{
    let mut list = List::new(out);
    list_file(&mut list, f, g);
    list_groups::list_groups(&mut list, f.groups(), g.groups());
    list.length
}

// Its length: it is listed where there is no room.
fn list_length(f: File, g: File) -> usize
    ensures { result ≡ capped_length (reading_of f.entry) (reading_of g.entry) }
{
    list_all(&mut [], f, g).bytes
}

// Compares two images: writes the list of their differences from the start of the output, and gives its length. A refused call writes nothing.
pub fn compare(first: &[u8], second: &[u8], out: &mut [u8]) -> Result<usize, Refusal>
    ensures { (outcome result ≡ (compare_outcome first.now second.now out.old).given) × (out.new ≡ (compare_outcome first.now second.now out.old).memory) }
{
    let f = reading::open(first)?;
    let g = reading::open(second)?;
    let length = list_length(f, g);
    refusal::fits(length, out.len())?;
    // the same readings: nothing to write
    if length == 0 {
        return Ok(0);
    }
    list_all(out, f, g);
    Ok(length)
}
