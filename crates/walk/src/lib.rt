// Channels and channel groups, against the definitions of `spec`: refusals 5 to 10 and 17 to 19.
#![tactic(auto)]

ghost use Rattle.std.specs.Prelude.{◌≡◌, ◌+◌, ◌≤◌, ◌<◌, []};
ghost use Rattle.spec.specs.Bytes.{u16, u32, to_link};
ghost use Rattle.spec.specs.Answer.{passed};
ghost use Rattle.spec.specs.Block.{image_of, read_cg, read_cn, read_fields, bits_fit};
ghost use Rattle.spec.specs.Walk.{fields_pass, conversion_at, channel_at, elem};
ghost use Rattle.refusal.specs.Refused.{done};
ghost use Rattle.image.specs.Opened.{bytes_of, read_as};
ghost use Rattle.walk.specs.Steps.{bodies_first, bodies_last, id_passes, group_head};
ghost use Rattle.walk.specs.Lists.{StandsAt, channels_from, channels_met, OnlyChannels, ids_of, group_at, PastGroup, slot_in, groups_from, groups_met, OnlyGroups};
ghost use Rattle.records.specs.Slots.{slot_seen};

use image::{Block, Cc, Ce, Cg, Cn, Kind, Link, Opened, Tx};
use records::Slot;
use refusal::{Reason, Refusal};

// So many data groups or channel groups a file may have, and so many channels.
pub const MOST_GROUPS: usize = 1024;

pub const MOST_CHANNELS: usize = 16384;

// ---- a channel

// The CC behind its link in an opened CN block, and its formula.
fn conversion(cn: Opened<Cn>) -> Result<(), Refusal>
    ensures { done result ≡ passed (conversion_at (image_of cn.entry.image.now) cn.entry.span.at (to_link (u32 8 (bytes_of cn.entry)))) }
{
    let link = cn.link(8);
    if link.to == 0 {
        return Ok(());
    }
    let opened = Cc::open(cn.image, link.to);
    let Block::Open(cc) = opened else {
        return Err(opened.refused(link.field));
    };
    // formula 12: a table of text ranges
    if cc.u16(42) == 12 {
        return Err(Reason::Unsupported.at(cc.span.at + 42));
    }
    Ok(())
}

// Whether the bits of a channel lie in a record of this size.
fn bits_fit(cn: Opened<Cn>, size: usize) -> bool
    ensures { result ≡ bits_fit size (read_fields (bytes_of cn.entry)) }
{
    let bits = cn.u16(188);
    if bits == 0 {
        return true;
    }
    let start = cn.u16(186);
    let added = cn.u16(226);
    (start + 8 * added + bits).div_ceil(8) <= size
}

// Type, bits and data type of a channel.
fn fields_pass(cn: Opened<Cn>, size: usize) -> Result<(), Refusal>
    ensures { done result ≡ fields_pass size cn.entry.span.at (read_fields (bytes_of cn.entry)) }
{
    let at = cn.span.at;
    if 1 < cn.u16(24) {
        return Err(Reason::Channel.at(at + 24));
    }
    if !bits_fit(cn, size) {
        return Err(Reason::Channel.at(at + 186));
    }
    if 16 < cn.u16(190) {
        return Err(Reason::Channel.at(at + 190));
    }
    Ok(())
}

// What a channel links to before its fields are tested: conversion, extension, dependency, comment.
fn links_before_fields(cn: Opened<Cn>) -> Result<(), Refusal>
    ensures { done result ≡ bodies_first (image_of cn.entry.image.now) (read_as read_cn cn.entry) }
{
    conversion(cn)?;
    Ce::body(cn.image, cn.link(12))?;
    let dependency = cn.link(16);
    if dependency.to != 0 {
        return Err(Reason::Unsupported.at(dependency.field));
    }
    Tx::body(cn.image, cn.link(20))
}

// And after them: long name, display name.
fn links_after_fields(cn: Opened<Cn>) -> Result<(), Refusal>
    ensures { done result ≡ bodies_last (image_of cn.entry.image.now) (read_as read_cn cn.entry) }
{
    Tx::body(cn.image, cn.link(218))?;
    Tx::body(cn.image, cn.link(222))
}

// The bodies that an opened CN block links to, and its fields, in a group of this record size.
fn channel(cn: Opened<Cn>, size: usize) -> Result<(), Refusal>
    ensures { done result ≡ passed (channel_at (image_of cn.entry.image.now) size (read_as read_cn cn.entry)) }
{
    links_before_fields(cn)?;
    fields_pass(cn, size)?;
    links_after_fields(cn)
}

// ---- the cursor

// Where the walk stands: a link, and how many data groups, channel groups and channels it has met.
// Its counts have no bounds as the type's own, for `down` takes any counts, and `past_dg` any of channel groups and channels.
#[derive(Clone, Copy)]
pub struct Cursor {
    pub link: Link,
    pub dgs: usize,
    pub cgs: usize,
    pub cns: usize,
}

impl Cursor {
    // At the first link of a file.
    pub fn new(link: Link) -> Self
        ensures { StandsAt result link.field link.to 0 0 0 }
    {
        Cursor {
            link,
            dgs: 0,
            cgs: 0,
            cns: 0,
        }
    }

    // At the first link of a list below.
    pub fn down(self, link: Link) -> Self
        ensures { StandsAt result link.field link.to self.dgs self.cgs self.cns }
    {
        Cursor { link, ..self }
    }

    // Past a data group, at its next link. One for each list: what it counts differs, and up to where.
    pub fn past_dg(self, link: Link) -> Self
        requires { self.dgs < 1024 }
        ensures { StandsAt result link.field link.to (self.dgs + 1) self.cgs self.cns }
    {
        Cursor {
            dgs: self.dgs + 1,
            link,
            ..self
        }
    }

    // Past a channel group.
    fn past_cg(self, link: Link) -> Self
        requires { self.cgs < 1024 }
        ensures { StandsAt result link.field link.to self.dgs (self.cgs + 1) self.cns }
    {
        Cursor {
            cgs: self.cgs + 1,
            link,
            ..self
        }
    }

    // Past a channel.
    fn past_cn(self, link: Link) -> Self
        requires { self.cns < 16384 }
        ensures { StandsAt result link.field link.to self.dgs self.cgs (self.cns + 1) }
    {
        Cursor {
            cns: self.cns + 1,
            link,
            ..self
        }
    }
}

// The channels of a group of this record size, from the cursor's link on.
fn channel_list(image: &[u8], size: usize, start: Cursor) -> Result<Cursor, Refusal>
    requires { start.cns ≤ 16384 }
    ensures { (channels_met result ≡ channels_from (image_of image.now) size start.link.field start.link.to start.cns) × OnlyChannels start result }
{
    let mut c = start;
    // No `for`: the cursor goes by value, along links to a nil one. And not one function for all lists: each tests other things on its way.
    while c.link.to != 0 {
        let field = c.link.field;
        if c.cns == MOST_CHANNELS {
            return Err(Reason::TooMany.at(field));
        }
        let opened = Cn::open(image, c.link.to);
        let Block::Open(cn) = opened else {
            return Err(opened.refused(field));
        };
        channel(cn, size)?;
        c = c.past_cn(cn.link(4));
    }
    Ok(c)
}

// ---- the channel groups of a data group

// Whether the ID of a group is among those of the groups before it in this data group.
fn known(cg: Opened<Cg>, slots: &[Slot]) -> bool
    ensures { result ≡ elem (u16 16 (bytes_of cg.entry)) (ids_of slots.now) }
{
    let id = cg.u16(16);
    slots.iter().any(|slot| id == usize::from(slot.id))
}

fn id_passes(mode: usize, id: usize, known: bool) -> bool
    ensures { result ≡ id_passes mode id known }
{
    mode == 0 || id <= 255 && !known
}

// The sample reduction link of a group. Below version 330 it is nil, whatever stands there.
fn reduction(cg: Opened<Cg>) -> Link
    ensures { (result.field ≡ cg.entry.span.at + 26) × (to_link result.to ≡ (read_cg (image_of cg.entry.image.now).version (bytes_of cg.entry)).reduction) }
{
    let link = cg.link(26);
    if image::version(cg.image) < 330 {
        return Link { to: 0, ..link };
    }
    link
}

// The tests of a group before its channels.
fn group_head(cg: Opened<Cg>, mode: usize, known: bool) -> Result<(), Refusal>
    ensures { done result ≡ group_head (image_of cg.entry.image.now) mode known (read_as (read_cg (image_of cg.entry.image.now).version) cg.entry) }
{
    let at = cg.span.at;
    let reduction = reduction(cg);
    if reduction.to != 0 {
        return Err(Reason::Unsupported.at(reduction.field));
    }
    if !id_passes(mode, cg.u16(16), known) {
        return Err(Reason::RecordId.at(at + 16));
    }
    Tx::body(cg.image, cg.link(12))?;
    if cg.u16(20) == 0 && cg.u32(22) != 0 {
        return Err(Reason::RecordSize.at(at + 20));
    }
    Ok(())
}

// One group with its channels: past it, the cursor stands at its next link.
fn group(cg: Opened<Cg>, mode: usize, known: bool, c: Cursor) -> Result<Cursor, Refusal>
    requires { (c.cgs < 1024) × (c.cns ≤ 16384) }
    ensures { (channels_met result ≡ group_at (image_of cg.entry.image.now) mode known c.cns cg.entry.span) × PastGroup cg.entry.image.now c cg.entry.span result }
{
    group_head(cg, mode, known)?;
    let first = c.down(cg.link(8));
    let d = channel_list(cg.image, cg.u16(20), first)?;
    Ok(d.past_cg(cg.link(4)))
}

// The slot of a group. Each number has the width of its field, so `as` loses nothing.
fn slot(cg: Opened<Cg>) -> Slot
    ensures { slot_seen result ≡ slot_in cg.entry.image.now cg.entry.span }
{
    Slot {
        id: cg.u16(16) as u16,
        size: cg.u16(20) as u16,
        count: cg.u32(22) as u32,
    }
}

// The channel groups of a data group, from the cursor's link on. The mode is a number: so many ID bytes a record has.
// Their slots come into a table of the caller's, from its start on: there is no heap.
pub fn group_list(
    image: &[u8],
    mode: usize,
    start: Cursor,
    slots: &mut [Slot; MOST_GROUPS],
) -> Result<Cursor, Refusal>
    requires { (start.cgs ≤ 1024) × (start.cns ≤ 16384) }
    ensures { (groups_met start result slots.new ≡ groups_from (image_of image.now) mode [] [] start.link.field start.link.to start.cgs start.cns)
        × OnlyGroups start result }
{
    let mut c = start;
    // No `for`: the cursor goes by value, along links to a nil one. And not one function for all lists: each tests other things on its way.
    while c.link.to != 0 {
        let field = c.link.field;
        if c.cgs == MOST_GROUPS {
            return Err(Reason::TooMany.at(field));
        }
        let n = c.cgs - start.cgs;
        if mode == 0 && n != 0 {
            return Err(Reason::RecordId.at(field));
        }
        let opened = Cg::open(image, c.link.to);
        let Block::Open(cg) = opened else {
            return Err(opened.refused(field));
        };
        c = group(cg, mode, known(cg, &slots[..n]), c)?;
        slots[n] = slot(cg);
    }
    Ok(c)
}
