// Parts of the readings of two accepted images compared.
#![tactic(auto)]

ghost use Rattle.std.specs.Prelude.{◌≡◌, ◌≤◌, ◌&&◌, length};
ghost use Rattle.answers.specs.Differences.{same_bytes, same_body, same_channel, same_own, same_header};
ghost use Rattle.reading.specs.Bodies.{body_held};
ghost use Rattle.reading.specs.Steps.{reading_of, the_group, the_channel};
ghost use Rattle.write.specs.Write.{filled};
ghost use Rattle.same_parts.specs.Same.{same_fields, same_bodies, later_length};

use reading::{Carried, Channel, File, Group};

// Not by `==`, whose promise is not that of the definition.
fn same_body(x: Option<&[u8]>, y: Option<&[u8]>) -> bool
    ensures { result ≡ same_body (body_held x.entry) (body_held y.entry) }
{
    match (x, y) {
        (Some(a), Some(b)) => alike::same_part(a, b),
        (None, None) => true,
        _ => false,
    }
}

// Carried fields, with the zeros that are not held: of those behind the main ones there are n and m.
fn same_carried(x: Carried, n: usize, y: Carried, m: usize) -> bool
    requires { (length x.later.now ≤ n) × (length y.later.now ≤ m) }
    ensures { result ≡ (same_bytes x.entry.main.now y.entry.main.now && same_bytes (filled x.entry.later.now n) (filled y.entry.later.now m)) }
{
    alike::same_part(x.main, y.main) && alike::same_padded(x.later, n, y.later, m)
}

// ---- channels

// The carried fields of two channels.
fn same_fields(x: Channel, y: Channel) -> bool
    ensures { result ≡ same_fields (the_channel x.entry) (the_channel y.entry) }
{
    same_carried(x.fields(), 2, y.fields(), 2)
}

// Their bodies.
fn same_bodies(x: Channel, y: Channel) -> bool
    ensures { result ≡ same_bodies (the_channel x.entry) (the_channel y.entry) }
{
    same_body(x.conversion(), y.conversion())
        && same_body(x.extension(), y.extension())
        && same_body(x.comment(), y.comment())
        && same_body(x.long_name(), y.long_name())
        && same_body(x.display_name(), y.display_name())
}

#[tactic(auto, unfolding(answers::specs::Differences::same_channel))]
pub fn same_channel(x: Channel, y: Channel) -> bool
    ensures { result ≡ same_channel (the_channel x.entry) (the_channel y.entry) }
{
    same_fields(x, y) && same_bodies(x, y)
}

// ---- groups

// The record size and the comment of two groups.
#[tactic(auto, unfolding(answers::specs::Differences::same_own))]
pub fn same_own(g: Group, h: Group) -> bool
    ensures { result ≡ same_own (the_group g.entry) (the_group h.entry) }
{
    g.size() == h.size() && same_body(g.comment(), h.comment())
}

// ---- files

// The 64 bytes of ID.
pub fn same_ident(f: File, g: File) -> bool
    ensures { result ≡ same_bytes (reading_of f.entry).ident (reading_of g.entry).ident }
{
    alike::same_part(f.ident(), g.ident())
}

// How many bytes behind byte 163 of the header are carried.
fn later_length(f: File) -> usize
    ensures { result ≡ later_length (reading_of f.entry) }
{
    if f.version() < 320 { 0 } else { 44 }
}

#[tactic(auto, unfolding(answers::specs::Differences::same_header))]
pub fn same_header(f: File, g: File) -> bool
    ensures { result ≡ same_header (reading_of f.entry) (reading_of g.entry) }
{
    same_carried(f.fields(), later_length(f), g.fields(), later_length(g))
}

// One for each part of the file, named in its promise.
pub fn same_comment(f: File, g: File) -> bool
    ensures { result ≡ same_body (reading_of f.entry).comment (reading_of g.entry).comment }
{
    same_body(f.comment(), g.comment())
}

pub fn same_program(f: File, g: File) -> bool
    ensures { result ≡ same_body (reading_of f.entry).program (reading_of g.entry).program }
{
    same_body(f.program(), g.program())
}
