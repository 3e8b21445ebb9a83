// Why a file, or a call, is refused, and at which byte. Each reason has the number that C is told.
#![tactic(auto)]

ghost use Rattle.std.specs.Prelude.{◌≡◌};
ghost use Rattle.refusal.specs.Refused.{number_of, done, fitting};

// No image, copy or list of differences is longer, in bytes.
pub const LONGEST: usize = 2147483647;

#[derive(Clone, Copy, PartialEq, Eq)]
pub enum Reason {
    // The image is longer than 2,147,483,647 bytes.
    TooLong = 1,
    // It does not begin as an MDF file does.
    NoMdf = 2,
    Unfinalized = 3,
    // Byte order, float format or version in ID.
    Identification = 4,
    // Of a block: its head is not wholly in the image.
    BlockHead = 5,
    // Triggers, dependencies, reductions, text ranges.
    Unsupported = 6,
    // More data groups, channel groups or channels than a file may have, or a list with no end.
    TooMany = 7,
    // The number of record IDs, or a record ID.
    RecordId = 8,
    // Type, bits or data type of a channel.
    Channel = 9,
    // Records of no bytes.
    RecordSize = 10,
    // A record that is missing or in disorder.
    Record = 11,
    CopyTooLong = 12,
    NoRoom = 13,
    // No group, channel or record of this number.
    NoSuch = 14,
    NoSample = 15,
    NoPhysical = 16,
    // Of a block: another identifier.
    BlockIdentifier = 17,
    // Of a block: a size below the least.
    BlockSize = 18,
    // Of a block: it ends beyond the image.
    BlockEnd = 19,
}

#[derive(Clone, Copy, PartialEq, Eq)]
pub struct Refusal {
    pub reason: Reason,
    pub place: usize,
}

impl Reason {
    pub fn number(self) -> u32
        ensures { result ≡ number_of self }
    {
        self as u32
    }

    // Refused for this reason at a place.
    pub fn at(self, place: usize) -> Refusal
        ensures { result ≡ record { reason = self; place = place } }
    {
        Refusal {
            reason: self,
            place,
        }
    }
}

// Whether a copy or a list of this length may be written: it is not too long, and there is room for it.
pub fn fits(length: usize, room: usize) -> Result<(), Refusal>
    ensures { done result ≡ fitting length room }
{
    if LONGEST < length {
        return Err(Reason::CopyTooLong.at(0));
    }
    if room < length {
        return Err(Reason::NoRoom.at(length));
    }
    Ok(())
}
