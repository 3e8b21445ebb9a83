// Numbers, blocks and their fields. A block may be looked for at any place; a byte beyond the image's end reads as 0.
#![tactic(auto)]

ghost use Rattle.std.specs.Prelude.{◌≡◌, ℕ, ◌+◌, ◌^◌, ◌≤◌, ◌<◌, List, [], ◌∷◌, length, get_or};
ghost use Rattle.spec.specs.Bytes.{number, u16, u32, u64, to_link};
ghost use Rattle.spec.specs.Answer.{passed};
ghost use Rattle.spec.specs.Block.{image_of, opening, body_at};
ghost use Rattle.refusal.specs.Refused.{done};
ghost use Rattle.refusal.specs.declared.Reason.{Reason};
ghost use Rattle.image.specs.declared.Block.TheVariants.{Shut};
ghost use Rattle.image.specs.Heads.{holds_head};
ghost use Rattle.image.specs.Spans.{number_at, kind_of, block_of, fault_of, seen, IfOpen, IsShut, block_in, Inside, Holds, field_number, ident_block};

use refusal::{Reason, Refusal};
use std::alloc::AllocError;
use std::marker::PhantomData;

// ---- numbers

pub fn byte(image: &[u8], at: usize) -> u64
    ensures { (result ≡ get_or image.now at 0) × (result < 256) }
{
    match image.get(at) {
        Some(x) => u64::from(*x),
        None => 0,
    }
}

// The number that some bytes make, the lowest first.
fn number_of(bytes: &[u8]) -> u64
    requires { length bytes.now ≤ 8 }
    ensures { (result ≡ number bytes.now) × (result < 256 ^ length bytes.now) }
{
    let mut v: u64 = 0;
    for x in bytes.iter().rev() {
        v = v * 256 + u64::from(*x);
    }
    v
}

// The number of n bytes, the lowest first.
pub fn number(image: &[u8], at: usize, n: usize) -> u64
    requires { n ≤ 8 }
    ensures { (result ≡ number_at image.now at n) × (result < 256 ^ n) }
{
    let Some(rest) = image.get(at..) else {
        return 0;
    };
    number_of(&rest[..n.min(rest.len())])
}

// The same where all of them are there. Most callers know that, and how many they are: then no loop is left.
fn held(image: &[u8], at: usize, n: usize) -> u64
    requires { (n ≤ 8) × (at + n ≤ length image.now) }
    ensures { (result ≡ number_at image.now at n) × (result < 256 ^ n) }
{
    number_of(&image[at..at + n])
}

// The version that ID gives; 0 where the image does not hold it whole. `as` from `u64`, here and below: the library has no `From` to `usize`.
pub fn version(image: &[u8]) -> usize
    ensures { result ≡ (image_of image.now).version }
{
    if image.len() < 30 {
        return 0;
    }
    held(image, 28, 2) as usize
}

// ---- blocks

// Where a block stands, and its size.
#[derive(Clone, Copy)]
pub struct Span {
    pub at: usize,
    pub size: usize,
}

// An opened block in its image. Its kind says the least size of its span.
pub struct Opened<'a, K: Kind> {
    pub image: &'a [u8],
    pub span: Span,
    kind: PhantomData<K>,
    ghost holds: { Holds K.LEAST image.now span },
}

// By hand: a derive is refused over a ghost field that speaks of a type parameter.
impl<'a, K: Kind> Clone for Opened<'a, K> {
    ghost is_clone = { λ x y. y ≡ x };

    ghost is_infallible = { λ _. Unit {0} };

    fn clone(&self) -> Result<Self, AllocError> {
        Ok(*self)
    }
}

impl<'a, K: Kind> Copy for Opened<'a, K> {}

// Open, or shut for a reason. An enum of its own and no `Result`, for each link is followed by `let Block::Open(..) = .. else`.
// What stands in an open one is a parameter: a block in its image, or its span alone.
#[derive(Clone, Copy)]
pub enum Block<B> {
    Open(B),
    Shut(Reason),
}

impl<B: Copy> Block<B> {
    // Why it is shut; nothing of one that is open.
    pub fn fault(self) -> Option<Reason>
        ensures { result ≡ fault_of self }
    {
        match self {
            Block::Open(_b) => None,
            Block::Shut(reason) => Some(reason),
        }
    }

    // The refusal of a block that is shut, at the field of the link that leads to it.
    pub fn refused(self, field: usize) -> Refusal
        requires { IsShut self }
        ensures { (r : Reason) → self ≡ Shut r → result ≡ record { reason = r; place = field } }
    {
        match self {
            Block::Open(_b) => unreachable!(),
            Block::Shut(reason) => reason.at(field),
        }
    }
}

// A field that holds a link, and the place that it leads to: 0 is nil, as in the file.
#[derive(Clone, Copy)]
pub struct Link {
    pub field: usize,
    pub to: usize,
}

// The block with this identifier and of at least this size at a place, or why none opens there.
fn open_block(image: &[u8], at: usize, id: [u8; 2], least: usize) -> Block<Span>
    ensures { result ≡ block_of at (opening (kind_of id least) (image_of image.now) at) }
{
    if image.len() < 4 || image.len() - 4 < at {
        return Block::Shut(Reason::BlockHead);
    }
    if !image[at..].starts_with(&id) {
        return Block::Shut(Reason::BlockIdentifier);
    }
    let size = held(image, at + 2, 2) as usize;
    if size < least {
        return Block::Shut(Reason::BlockSize);
    }
    if image.len() - at < size {
        return Block::Shut(Reason::BlockEnd);
    }
    Block::Open(Span { at, size })
}

// ---- fields of an opened block

// A field of n bytes as a number: zero where the block does not hold it whole. An offset is below 65536, as a block's size is, so no sum wraps.
fn number_in(image: &[u8], b: Span, offset: usize, n: usize) -> u64
    requires { (n ≤ 8) × (offset < 65536) × Inside image.now b }
    ensures { (result ≡ field_number image.now b offset n) × (result < 256 ^ n) }
{
    if b.size < offset + n {
        return 0;
    }
    let at = b.at;
    held(image, at + offset, n)
}

// One for each width, as the definitions have.
pub fn u16_in(image: &[u8], b: Span, offset: usize) -> usize
    requires { (offset < 65536) × Inside image.now b }
    ensures { (result ≡ u16 offset (block_in image.now b)) × (result < 65536) }
{
    number_in(image, b, offset, 2) as usize
}

pub fn u32_in(image: &[u8], b: Span, offset: usize) -> usize
    requires { (offset < 65536) × Inside image.now b }
    ensures { (result ≡ u32 offset (block_in image.now b)) × (result < 4294967296) }
{
    number_in(image, b, offset, 4) as usize
}

pub fn u64_in(image: &[u8], b: Span, offset: usize) -> u64
    requires { (offset < 65536) × Inside image.now b }
    ensures { result ≡ u64 offset (block_in image.now b) }
{
    number_in(image, b, offset, 8)
}

// The same of a block with its image. Those above are for a span alone: ID has no `Kind`, and a cursor of `reading` holds its image once.
impl<'a, K: Kind> Opened<'a, K> {
    ghost use Rattle.image.specs.Opened.{bytes_of};

    pub fn u16(self, offset: usize) -> usize
        requires { offset < 65536 }
        ensures { (result ≡ u16 offset (bytes_of self.entry)) × (result < 65536) }
    {
        u16_in(self.image, self.span, offset)
    }

    pub fn u32(self, offset: usize) -> usize
        requires { offset < 65536 }
        ensures { (result ≡ u32 offset (bytes_of self.entry)) × (result < 4294967296) }
    {
        u32_in(self.image, self.span, offset)
    }

    pub fn u64(self, offset: usize) -> u64
        requires { offset < 65536 }
        ensures { result ≡ u64 offset (bytes_of self.entry) }
    {
        u64_in(self.image, self.span, offset)
    }

    // A link with the place of its field.
    pub fn link(self, offset: usize) -> Link
        requires { offset < 65536 }
        ensures { result ≡ record { field = self.entry.span.at + offset; to = u32 offset (bytes_of self.entry) } }
    {
        Link {
            field: self.span.at + offset,
            to: self.u32(offset),
        }
    }
}

// ---- the kinds of block: identifier, least and written size. Those without a written size are written at their own.

// A clause names a trait's constant by a ghost beside it, so each stands twice: the check proves them equal.

pub trait Kind: Sized {
    ghost ID: { List ℕ };

    ghost LEAST: { ℕ };

    const ID: [u8; 2];

    const LEAST: usize;

    final fn open(image: &[u8], at: usize) -> Block<Opened<'_, Self>>
        ensures { (seen result (λ b. b.span) ≡ block_of at (opening (kind_of ID LEAST) (image_of image.now) at))
            × IfOpen result (λ b. b.image.now ≡ image.now) }
    {
        match open_block(image, at, Self::ID, Self::LEAST) {
            Block::Open(span) => Block::Open(Opened {
                image,
                span,
                kind: PhantomData,
            }),
            Block::Shut(reason) => Block::Shut(reason),
        }
    }

    // The body behind a link, refused at the link's field.
    final fn body(image: &[u8], link: Link) -> Result<(), Refusal>
        ensures { done result ≡ passed (body_at (kind_of ID LEAST) (image_of image.now) link.field (to_link link.to)) }
    {
        if link.to == 0 {
            return Ok(());
        }
        let opened = Self::open(image, link.to);
        let Block::Open(_b) = opened else {
            return Err(opened.refused(link.field));
        };
        Ok(())
    }

    // Identifier and size have 4 bytes, which every block has.
    ghost whole: { 4 ≤ LEAST };
}

// The header, at 64.
#[derive(Clone, Copy)]
pub struct Hd;

impl Kind for Hd {
    ghost ID = { 72 ∷ 68 ∷ [] };

    ghost LEAST = { 164 };

    ghost whole = { holds_head 160 };

    const ID: [u8; 2] = *b"HD";

    const LEAST: usize = 164;
}

impl Hd {
    // The size written below version 320, and from it on.
    pub const WRITTEN: usize = 164;

    pub const WRITTEN_320: usize = 208;
}

// A data group.
#[derive(Clone, Copy)]
pub struct Dg;

impl Kind for Dg {
    ghost ID = { 68 ∷ 71 ∷ [] };

    ghost LEAST = { 24 };

    ghost whole = { holds_head 20 };

    const ID: [u8; 2] = *b"DG";

    const LEAST: usize = 24;
}

impl Dg {
    pub const WRITTEN: usize = 28;
}

// A channel group.
#[derive(Clone, Copy)]
pub struct Cg;

impl Kind for Cg {
    ghost ID = { 67 ∷ 71 ∷ [] };

    ghost LEAST = { 26 };

    ghost whole = { holds_head 22 };

    const ID: [u8; 2] = *b"CG";

    const LEAST: usize = 26;
}

impl Cg {
    pub const WRITTEN: usize = 30;
}

// A channel.
#[derive(Clone, Copy)]
pub struct Cn;

impl Kind for Cn {
    ghost ID = { 67 ∷ 78 ∷ [] };

    ghost LEAST = { 218 };

    ghost whole = { holds_head 214 };

    const ID: [u8; 2] = *b"CN";

    const LEAST: usize = 218;
}

impl Cn {
    pub const WRITTEN: usize = 228;
}

// A conversion.
#[derive(Clone, Copy)]
pub struct Cc;

impl Kind for Cc {
    ghost ID = { 67 ∷ 67 ∷ [] };

    ghost LEAST = { 46 };

    ghost whole = { holds_head 42 };

    const ID: [u8; 2] = *b"CC";

    const LEAST: usize = 46;
}

// A channel extension.
#[derive(Clone, Copy)]
pub struct Ce;

impl Kind for Ce {
    ghost ID = { 67 ∷ 69 ∷ [] };

    ghost LEAST = { 6 };

    ghost whole = { holds_head 2 };

    const ID: [u8; 2] = *b"CE";

    const LEAST: usize = 6;
}

// A text.
#[derive(Clone, Copy)]
pub struct Tx;

impl Kind for Tx {
    ghost ID = { 84 ∷ 88 ∷ [] };

    ghost LEAST = { 4 };

    ghost whole = { holds_head 0 };

    const ID: [u8; 2] = *b"TX";

    const LEAST: usize = 4;
}

// Program data.
#[derive(Clone, Copy)]
pub struct Pr;

impl Kind for Pr {
    ghost ID = { 80 ∷ 82 ∷ [] };

    ghost LEAST = { 4 };

    ghost whole = { holds_head 0 };

    const ID: [u8; 2] = *b"PR";

    const LEAST: usize = 4;
}

// The identification, at 0. No link leads to it, it holds no size, and its identifiers have 8 bytes.
#[derive(Clone, Copy)]
pub struct Id;

impl Id {
    pub const ID: [u8; 8] = *b"MDF     ";
    // That of a file that was not finalized.
    pub const UNFINALIZED: [u8; 8] = *b"UnFinMF ";

    pub const LEAST: usize = 64;

    pub const WRITTEN: usize = 64;

    pub fn open(image: &[u8]) -> Block<Span>
        ensures { result ≡ ident_block image.now }
    {
        if image.len() < Self::LEAST {
            return Block::Shut(Reason::NoMdf);
        }
        if image.starts_with(&Self::ID) {
            return Block::Open(Span {
                at: 0,
                size: Self::LEAST,
            });
        }
        if image.starts_with(&Self::UNFINALIZED) {
            return Block::Shut(Reason::Unfinalized);
        }
        Block::Shut(Reason::NoMdf)
    }
}
