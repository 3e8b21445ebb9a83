// The channels of a group: the length of their blocks, and the blocks written.
#![tactic(auto)]

ghost use Rattle.std.specs.Prelude.{◌≡◌, ◌+◌, ◌≤◌, ◌<◌, length};
ghost use Rattle.write.specs.Write.{Wrote};
ghost use Rattle.answers.specs.Copies.{body_bytes, channel_length, channels_length, channels_bytes};
ghost use Rattle.blocks.specs.Blocks.{kind_of};
ghost use Rattle.reading.specs.Bodies.{BodySmall, body_held};
ghost use Rattle.reading.specs.Steps.{channels_left, the_channel};
ghost use Rattle.put_channels.specs.Written.{written_length, link_if};
ghost use Rattle.put_channels.specs.Channels.{BodiesAre, SmallBodies, PlacesAre, bodies_bytes, block_as, channel_as, SumIs};

use blocks::{Cc, Ce, ChannelLinks, Kind, Tx};
use reading::{Channel, Channels};
use refusal::LONGEST;

// ---- bodies

pub fn body_length(body: Option<&[u8]>) -> usize
    requires { BodySmall body }
    ensures { (result ≡ written_length body.entry) × (result < 65536) }
{
    body.map_or(0, |b| 4 + b.len())
}

// The link to a place of the copy if something stands there, else nil.
pub fn link_if(there: bool, at: usize) -> usize
    ensures { result ≡ link_if there at }
{
    if there { at } else { 0 }
}

// The block of a body.
pub fn put_body<K: Kind>(out: &mut [u8], at: usize, body: Option<&[u8]>)
    requires { at + written_length body ≤ length out.old }
    ensures { Wrote out.old out.new at (body_bytes (kind_of K.ID K.LEAST) (body_held body.entry)) }
{
    if let Some(b) = body {
        blocks::put_block::<K>(out, at, b);
    }
}

// A length and a number of parts, added up as far as the longest copy needs.
#[derive(Clone, Copy)]
pub struct Sum {
    pub length: usize,
    pub count: usize,
}

// ---- a channel

#[derive(Clone, Copy)]
struct Bodies<'a> {
    conversion: Option<&'a [u8]>,
    extension: Option<&'a [u8]>,
    comment: Option<&'a [u8]>,
    long: Option<&'a [u8]>,
    display: Option<&'a [u8]>,
}

impl<'a> Bodies<'a> {
    fn of(x: Channel<'a>) -> Bodies<'a>
        ensures { BodiesAre result (the_channel x.entry) }
    {
        Bodies {
            conversion: x.conversion(),
            extension: x.extension(),
            comment: x.comment(),
            long: x.long_name(),
            display: x.display_name(),
        }
    }
}

#[derive(Clone, Copy)]
struct Places {
    cc: usize,
    ce: usize,
    tx: usize,
    long: usize,
    display: usize,
    end: usize,
}

impl Places {
    // Where the bodies of a channel stand, its block at a place.
    fn of(b: Bodies, at: usize) -> Places
        requires { SmallBodies b × (at < 9223372036854775808) }
        ensures { PlacesAre at b.entry result }
    {
        let cc = at + 228;
        let ce = cc + body_length(b.conversion);
        let tx = ce + body_length(b.extension);
        let long = tx + body_length(b.comment);
        let display = long + body_length(b.long);
        let end = display + body_length(b.display);
        Places {
            cc,
            ce,
            tx,
            long,
            display,
            end,
        }
    }
}

// A channel as it stands in the copy: its bodies, and the place of each.
#[derive(Clone, Copy)]
struct Layout<'a> {
    channel: Channel<'a>,
    at: usize,
    bodies: Bodies<'a>,
    places: Places,
    ghost held: { ∥ BodiesAre bodies (the_channel channel) ∥₁ },
    ghost placed: { PlacesAre at bodies places },
}

impl<'a> Layout<'a> {
    fn of(channel: Channel<'a>, at: usize) -> Layout<'a>
        requires { at < 9223372036854775808 }
        ensures { (result.at ≡ at) × (the_channel result.channel ≡ the_channel channel.entry) }
    {
        let bodies = Bodies::of(channel);
        let places = Places::of(bodies, at);
        Layout {
            channel,
            at,
            bodies,
            places,
        }
    }

    // The block, with the link to the next channel.
    fn put_block(self, out: &mut [u8], next: usize)
        requires { self.at + 228 ≤ length out.old }
        ensures { Wrote out.old out.new self.entry.at (block_as self.entry.at next (the_channel self.entry.channel)) }
    {
        let b = self.bodies;
        let p = self.places;
        let carried = self.channel.fields();
        let links = ChannelLinks {
            next,
            conversion: link_if(b.conversion.is_some(), p.cc),
            extension: link_if(b.extension.is_some(), p.ce),
            comment: link_if(b.comment.is_some(), p.tx),
            long_name: link_if(b.long.is_some(), p.long),
            display_name: link_if(b.display.is_some(), p.display),
        };
        blocks::put_cn(out, self.at, links, carried.main, carried.later);
    }

    // The bodies at their places: CC, CE and three TX.
    fn put_bodies(self, out: &mut [u8])
        requires { self.places.end ≤ length out.old }
        ensures { Wrote out.old out.new (self.entry.at + 228) (bodies_bytes self.entry.bodies) }
    {
        let b = self.bodies;
        let p = self.places;
        put_body::<Cc>(out, p.cc, b.conversion);
        put_body::<Ce>(out, p.ce, b.extension);
        put_body::<Tx>(out, p.tx, b.comment);
        put_body::<Tx>(out, p.long, b.long);
        put_body::<Tx>(out, p.display, b.display);
    }

    // The block, and the bodies behind it.
    fn put(self, out: &mut [u8], next: usize)
        requires { self.at + channel_length (the_channel self.channel) ≤ length out.old }
        ensures { Wrote out.old out.new self.entry.at (channel_as self.entry.at next (the_channel self.entry.channel)) }
    {
        self.put_block(out, next);
        self.put_bodies(out);
    }
}

fn channel_length(x: Channel) -> usize
    ensures { (result ≡ channel_length (the_channel x.entry)) × (result < 400000) }
{
    Layout::of(x, 0).places.end
}

// ---- the channels of a group

// The length of the channels that are left, and how many they are.
pub fn channels_sum(channels: Channels) -> Sum
    ensures { SumIs result (channels_length (channels_left channels.entry)) (length (channels_left channels.entry)) }
{
    let mut sum = Sum {
        length: 0,
        count: 0,
    };
    // It ends above the longest copy, so that nothing wraps.
    for x in channels {
        sum.length += channel_length(x);
        if LONGEST < sum.length {
            break;
        }
        sum.count += 1;
    }
    sum
}

// The channels that are left, from a place on.
pub fn put_channels(out: &mut [u8], at: usize, channels: Channels)
    requires { at + channels_length (channels_left channels) ≤ length out.old }
    ensures { Wrote out.old out.new at (channels_bytes at (channels_left channels.entry)) }
{
    let mut c = channels.peekable();
    let mut to = at;
    while let Some(x) = c.next() {
        let layout = Layout::of(x, to);
        let next = link_if(c.peek().is_some(), layout.places.end);
        layout.put(out, next);
        to = layout.places.end;
    }
}
