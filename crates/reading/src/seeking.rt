// The entry to an image: a check, then its file; and a channel and a record of it by their numbers.

ghost use Rattle.std.specs.Prelude.{◌≡◌};
ghost use Rattle.spec.specs.Call.{check_outcome};
ghost use Rattle.reading.specs.Steps.{outcome, AccessIs, SoughtIs};

use crate::{Channel, File};
use image::{Block, Hd, Kind, Span};
use refusal::{Reason, Refusal};

// Checks an image, and gives access to one that is accepted.
pub fn open<'a>(image: &'a [u8]) -> Result<File<'a>, Refusal>
    ensures { (outcome result ≡ check_outcome image.now) × AccessIs image.now result }
{
    file::check(image)?;
    let opened = Hd::open(image, 64);
    let Block::Open(hd) = opened else {
        return Err(opened.refused(64));
    };
    Ok(File { image, hd: hd.span })
}

// Checks an image and looks for a channel and a record of a group, each counted from 0.
pub fn seek<'a>(
    image: &'a [u8],
    group: usize,
    channel: usize,
    row: usize,
) -> Result<(Channel<'a>, Span), Refusal>
    ensures { SoughtIs image.now group channel row result }
{
    let file = open(image)?;
    let none = Reason::NoSuch.at(0);
    let g = file.groups().nth(group).ok_or(none)?;
    let x = g.channels().nth(channel).ok_or(none)?;
    let span = g.row(row).ok_or(none)?;
    Ok((x, span))
}
