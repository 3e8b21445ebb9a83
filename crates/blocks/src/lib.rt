// Writes blocks over a lent slice, from a place on. A number is written by its low bytes.
#![tactic(auto)]

ghost use Rattle.std.specs.Prelude.{◌≡◌, ◌+◌, ◌*◌, ◌-◌, ◌≤◌, length, map};
ghost use Rattle.spec.specs.Bytes.{bytes_of, join};
ghost use Rattle.spec.specs.Block.{hd_written};
ghost use Rattle.write.specs.Write.{Wrote, filled};
ghost use Rattle.blocks.specs.Blocks.{dg_bytes, cg_bytes, cn_bytes, hd_bytes, kind_of, block_head, block_bytes};

pub use image::{Cc, Ce, Kind, Pr, Tx};
use image::{Cg, Cn, Dg, Hd};

// ---- what blocks begin with

// The identifier and the size.
fn put_block_head(out: &mut [u8], at: usize, id: [u8; 2], size: usize)
    requires { at + 4 ≤ length out.old }
    ensures { Wrote out.old out.new at (block_head id size) }
{
    write::put_all(out, at, &id);
    write::put_number::<2>(out, at + 2, size);
}

fn put_links(out: &mut [u8], at: usize, links: &[usize])
    requires { at + 4 * length links.now ≤ length out.old }
    ensures { Wrote out.old out.new at (join (map (bytes_of 4) links.now)) }
{
    for (k, link) in links.iter().enumerate() {
        write::put_number::<4>(out, at + 4 * k, *link);
    }
}

// ---- DG and CG: numbers alone

pub fn put_dg(out: &mut [u8], at: usize, next: usize, group: usize, records: usize)
    requires { at + 28 ≤ length out.old }
    ensures { Wrote out.old out.new at (dg_bytes next group records) }
{
    put_block_head(out, at, Dg::ID, Dg::WRITTEN);
    put_links(out, at + 4, &[next, group, 0, records]);
    // one channel group, mode 0
    write::put_number::<2>(out, at + 20, 1);
    write::put_zeros(out, at + 22, 6);
}

pub fn put_cg(
    out: &mut [u8],
    at: usize,
    first: usize,
    comment: usize,
    channels: usize,
    size: usize,
    count: usize,
)
    requires { at + 30 ≤ length out.old }
    ensures { Wrote out.old out.new at (cg_bytes first comment channels size count) }
{
    put_block_head(out, at, Cg::ID, Cg::WRITTEN);
    put_links(out, at + 4, &[0, first, comment]);
    // record ID
    write::put_number::<2>(out, at + 16, 0);
    write::put_number::<2>(out, at + 18, channels);
    write::put_number::<2>(out, at + 20, size);
    write::put_number::<4>(out, at + 22, count);
    // no sample reduction
    put_links(out, at + 26, &[0]);
}

// ---- CN and HD: links of their own, and bytes that are carried

// The size in which HD is written at this version.
pub fn hd_size(version: usize) -> usize
    ensures { (result ≡ hd_written version) × (164 ≤ result) × (result ≤ 208) }
{
    if version < 320 {
        Hd::WRITTEN
    } else {
        Hd::WRITTEN_320
    }
}

// Where the blocks stand that CN links to; nil for one that is not there.
#[derive(Clone, Copy)]
pub struct ChannelLinks {
    pub next: usize,
    pub conversion: usize,
    pub extension: usize,
    pub comment: usize,
    pub long_name: usize,
    pub display_name: usize,
}

// CN: its links, its bytes 24 to 217, and of bytes 226 and 227 those that are held.
pub fn put_cn(out: &mut [u8], at: usize, links: ChannelLinks, main: &[u8], added: &[u8])
    requires { (at + 228 ≤ length out.old) × (length main.now ≡ 194) × (length added.now ≤ 2) }
    ensures { Wrote out.old out.new at (cn_bytes links.next links.conversion links.extension links.comment main.now links.long_name links.display_name (filled added.now 2)) }
{
    put_block_head(out, at, Cn::ID, Cn::WRITTEN);
    put_links(
        out,
        at + 4,
        &[
            links.next,
            links.conversion,
            links.extension,
            0,
            links.comment,
        ],
    );
    write::put_all(out, at + 24, main);
    put_links(out, at + 218, &[links.long_name, links.display_name]);
    write::put_padded(out, at + 226, added, 2);
}

// Where the blocks stand that HD links to: the first group, and its bodies; nil likewise.
#[derive(Clone, Copy)]
pub struct HeaderLinks {
    pub first: usize,
    pub comment: usize,
    pub program: usize,
}

// HD: its links, its bytes 18 to 163, and of those behind them up to `size` those that are held.
pub fn put_hd(
    out: &mut [u8],
    at: usize,
    size: usize,
    links: HeaderLinks,
    groups: usize,
    main: &[u8],
    later: &[u8],
)
    requires { (164 ≤ size) × (size ≤ 208) × (at + size ≤ length out.old) × (length main.now ≡ 146) × (length later.now ≤ size - 164) }
    ensures { Wrote out.old out.new at (hd_bytes size links.first links.comment links.program groups main.now (filled later.now (size - 164))) }
{
    put_block_head(out, at, Hd::ID, size);
    put_links(out, at + 4, &[links.first, links.comment, links.program]);
    write::put_number::<2>(out, at + 16, groups);
    write::put_all(out, at + 18, main);
    write::put_padded(out, at + 164, later, size - 164);
}

// ---- TX, PR, CC and CE: all body

pub fn put_block<K: Kind>(out: &mut [u8], at: usize, body: &[u8])
    requires { at + 4 + length body.now ≤ length out.old }
    ensures { Wrote out.old out.new at (block_bytes (kind_of K.ID K.LEAST) body.now) }
{
    put_block_of(out, at, K::ID, body);
}

// The same with any identifier, which may be known only when the program runs.
pub fn put_block_of(out: &mut [u8], at: usize, id: [u8; 2], body: &[u8])
    requires { at + 4 + length body.now ≤ length out.old }
    ensures { Wrote out.old out.new at (block_bytes (kind_of id 4) body.now) }
{
    put_block_head(out, at, id, 4 + body.len());
    write::put_all(out, at + 4, body);
}
