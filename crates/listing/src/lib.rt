// A difference list, written one entry behind the other. Where the memory lent for it has no room its length grows all the same: so how long a list is, is found by listing it in no memory.
#![tactic(auto)]

ghost use Rattle.std.specs.Prelude.{◌≡◌, [], ◌∷◌, ◌≤◌, ◌<◌, nat_lt};
ghost use Rattle.answers.specs.Differences.{entry, entry_bytes, unless};
ghost use Rattle.listing.specs.Listing.{capped, numbered};

use refusal::LONGEST;

// What an entry tells of, with the number that it has for it.
#[derive(Clone, Copy)]
pub enum EntryKind {
    // a part of the file outside its groups
    FilePart = 1,
    // a group that one file alone has
    GroupAlone = 2,
    // the own fields of a group that both have, or one of its channels
    GroupPart = 3,
    // a record that both have
    Record = 4,
    // a record that one file alone has, of a group that both have
    RecordAlone = 5,
}

// How long a list is so far. All that are too long count as one byte longer than the longest.
#[derive(Clone, Copy)]
pub struct Length {
    pub bytes: usize,
    ghost capped: { bytes ≤ 2147483648 },
}

impl Length {
    // With no entry yet.
    pub fn zero() -> Length
        ensures { result.bytes ≡ 0 }
    {
        Length { bytes: 0 }
    }

    // Longer than a list may be, whatever is still to come.
    pub fn is_too_long(self) -> bool
        ensures { result ≡ nat_lt 2147483647 self.bytes }
    {
        LONGEST < self.bytes
    }
}

// A length of so many bytes, all above the longest as one byte above it.
fn cap(n: usize) -> Length
    ensures { result.bytes ≡ capped n }
{
    Length {
        bytes: n.min(LONGEST + 1),
    }
}

fn entry_bytes(kind: usize, group: usize, item: usize, byte: usize) -> [u8; 16]
    ensures { result ≡ entry_bytes (entry kind group item byte) }
{
    let [k0, k1, ..] = kind.to_le_bytes();
    let [g0, g1, g2, g3, ..] = group.to_le_bytes();
    let [i0, i1, i2, i3, ..] = item.to_le_bytes();
    let [b0, b1, b2, b3, ..] = byte.to_le_bytes();
    [k0, k1, 0, 0, g0, g1, g2, g3, i0, i1, i2, i3, b0, b1, b2, b3]
}

// A difference list as it is written: the memory lent for it, and how long it is so far.
#[derive(Drop)]
pub struct List<'a> {
    out: &'a mut [u8],
    pub length: Length,
}

impl<'a> List<'a> {
    ghost use Rattle.listing.specs.Growing.{Grown};

    // With no entry yet.
    pub fn new(out: &'a mut [u8]) -> List<'a>
        ensures lent { (result.out.ghost_name ≡ out.entry.ghost_name) × (result.out.now ≡ out.old) }
        ensures empty { result.length.bytes ≡ 0 }
    {
        List {
            out,
            length: Length::zero(),
        }
    }

    // One entry behind those so far. Its kind is any number (DECISIONS 122): callers name theirs by `EntryKind`.
    pub fn entry(&mut self, kind: usize, group: usize, item: usize, byte: usize)
        ensures { Grown self.old self.new (entry kind group item byte ∷ []) }
    {
        let at = self.length.bytes;
        let end = at + 16;
        if end <= self.out.len() {
            write::put_all(self.out, at, &entry_bytes(kind, group, item, byte));
        }
        self.length = cap(end);
    }

    // One entry, unless two items are the same.
    pub fn unless(&mut self, same: bool, kind: usize, group: usize, item: usize)
        ensures { Grown self.old self.new (unless same (entry kind group item 0)) }
    {
        if !same {
            self.entry(kind, group, item, 0);
        }
    }

    // An entry for each of n items, the first of which has the number `item`. Where there is no room for all of them they are not gone through.
    pub fn numbered(&mut self, kind: usize, group: usize, item: usize, n: usize)
        requires { (n < 4294967296) × (item < 4294967296) }
        ensures { Grown self.old self.new (numbered kind group item n) }
    {
        let end = cap(self.length.bytes + 16 * n);
        if end.is_too_long() || self.out.len() < end.bytes {
            self.length = end;
            return;
        }
        for i in item..item + n {
            self.entry(kind, group, i, 0);
        }
    }
}
