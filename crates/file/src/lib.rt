// The data groups of a file, and the check of a whole image: refusals 1 to 11 and 17 to 19.
#![tactic(auto)]

ghost use Rattle.std.specs.Prelude.{◌≡◌, ◌≤◌, ◌<◌, length, take};
ghost use Rattle.spec.specs.Answer.{passed};
ghost use Rattle.spec.specs.Block.{image_of};
ghost use Rattle.spec.specs.Walk.{ident_passes, file_from};
ghost use Rattle.spec.specs.Call.{check_outcome};
ghost use Rattle.refusal.specs.Refused.{done};
ghost use Rattle.file.specs.DataGroups.{groups_then_log, data_group_at, counts_met, PastDataGroup, data_groups_from, outcome};

use image::{Block, Dg, Hd, Id, Kind, Opened, Pr, Tx};
use records::Slot;
use refusal::{LONGEST, Reason, Refusal};
use walk::{Cursor, MOST_GROUPS};

// ---- data groups

// The channel groups of a data group in this mode (so many ID bytes a record has), then its records: past it, the cursor stands at its next link.
fn groups_then_log(dg: Opened<Dg>, mode: usize, c: Cursor) -> Result<Cursor, Refusal>
    requires { (mode ≤ 2) × (c.dgs < 1024) × (c.cgs ≤ 1024) × (c.cns ≤ 16384) }
    ensures { (counts_met result ≡ groups_then_log (image_of dg.entry.image.now) mode c.cgs c.cns dg.entry.span) × PastDataGroup dg.entry.image.now c dg.entry.span result }
{
    let mut slots = [Slot::default(); MOST_GROUPS];
    let first = c.down(dg.link(8));
    let d = walk::group_list(dg.image, mode, first, &mut slots)?;
    let n = d.cgs - c.cgs;
    records::log(dg.image, mode, dg.link(16), &slots[..n])?;
    Ok(d.past_dg(dg.link(4)))
}

// A data group: no trigger, a mode, then what it holds.
fn data_group(dg: Opened<Dg>, c: Cursor) -> Result<Cursor, Refusal>
    requires { (c.dgs < 1024) × (c.cgs ≤ 1024) × (c.cns ≤ 16384) }
    ensures { (counts_met result ≡ data_group_at (image_of dg.entry.image.now) c.cgs c.cns dg.entry.span) × PastDataGroup dg.entry.image.now c dg.entry.span result }
{
    let trigger = dg.link(12);
    if trigger.to != 0 {
        return Err(Reason::Unsupported.at(trigger.field));
    }
    let mode = dg.u16(22);
    if 2 < mode {
        return Err(Reason::RecordId.at(dg.span.at + 22));
    }
    groups_then_log(dg, mode, c)
}

// The data groups from the cursor's link on.
fn data_groups(image: &[u8], start: Cursor) -> Result<(), Refusal>
    requires { (start.dgs ≤ 1024) × (start.cgs ≤ 1024) × (start.cns ≤ 16384) }
    ensures { done result ≡ data_groups_from (image_of image.now) start.link.field start.link.to start.dgs start.cgs start.cns }
{
    let mut c = start;
    // No `for`: the cursor goes by value, along links to a nil one. And not one function for all lists: each tests other things on its way.
    while c.link.to != 0 {
        let field = c.link.field;
        if c.dgs == MOST_GROUPS {
            return Err(Reason::TooMany.at(field));
        }
        let opened = Dg::open(image, c.link.to);
        let Block::Open(dg) = opened else {
            return Err(opened.refused(field));
        };
        c = data_group(dg, c)?;
    }
    Ok(())
}

// ---- the file

// The ID block: identifier, byte order, float format, version.
fn ident(image: &[u8]) -> Result<(), Refusal>
    requires { 64 ≤ length image.now }
    ensures { done result ≡ ident_passes (take 64 image.now) }
{
    let opened = Id::open(image);
    let Block::Open(id) = opened else {
        return Err(opened.refused(0));
    };
    if image::u16_in(image, id, 24) != 0 {
        return Err(Reason::Identification.at(24));
    }
    if image::u16_in(image, id, 26) != 0 {
        return Err(Reason::Identification.at(26));
    }
    let version = image::u16_in(image, id, 28);
    if !(300..=399).contains(&version) {
        return Err(Reason::Identification.at(28));
    }
    Ok(())
}

// The header, its comment and program, and the data groups.
fn header(image: &[u8]) -> Result<(), Refusal>
    ensures { done result ≡ passed (file_from (image_of image.now) (take 64 image.now)) }
{
    let opened = Hd::open(image, 64);
    let Block::Open(hd) = opened else {
        return Err(opened.refused(64));
    };
    Tx::body(image, hd.link(8))?;
    Pr::body(image, hd.link(12))?;
    data_groups(image, Cursor::new(hd.link(4)))
}

// Whether an image is accepted; if not, the first refusal of 1 to 11 and 17 to 19 with its place.
pub fn check(image: &[u8]) -> Result<(), Refusal>
    ensures { outcome result ≡ check_outcome image.now }
{
    if LONGEST < image.len() {
        return Err(Reason::TooLong.at(0));
    }
    // `Id::open` tests this too: here it is what `ident` asks for, whose promise is of the first 64 bytes.
    if image.len() < Id::LEAST {
        return Err(Reason::NoMdf.at(0));
    }
    ident(image)?;
    header(image)
}
