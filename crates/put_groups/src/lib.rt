// The groups of a file: the length of their blocks and records, and both written.
#![tactic(auto)]

ghost use Rattle.std.specs.Prelude.{◌≡◌, [], ◌+◌, ◌≤◌, ◌<◌, length};
ghost use Rattle.write.specs.Write.{Wrote};
ghost use Rattle.answers.specs.Copies.{body_length, group_length, groups_length, groups_bytes};
ghost use Rattle.reading.specs.Bodies.{BodyIs};
ghost use Rattle.reading.specs.Steps.{AtKeys, groups_left, the_group};
ghost use Rattle.put_channels.specs.Channels.{Capped, SumIs};
ghost use Rattle.put_groups.specs.Groups.{heads_as, blocks_as, ChannelsSum};

use blocks::Tx;
use put_channels::{Sum, link_if};
use reading::{Group, Groups};
use refusal::LONGEST;

// ---- a group

// A group as it stands in the copy: its comment, the sum over its channels, and where each part stands.
#[derive(Clone, Copy)]
struct Layout<'a> {
    group: Group<'a>,
    at: usize,
    comment: Option<&'a [u8]>,
    channels: Sum,
    ghost commented: { ∥ BodyIs comment (the_group group).comment ∥₁ },
    ghost summed: { ChannelsSum group channels },
    ghost near: { at < 9223372036854775808 },
}

impl<'a> Layout<'a> {
    fn of(group: Group<'a>, at: usize) -> Layout<'a>
        requires { at < 9223372036854775808 }
        ensures { (result.at ≡ at) × (the_group result.group ≡ the_group group.entry) }
    {
        Layout {
            group,
            at,
            comment: group.comment(),
            channels: put_channels::channels_sum(group.channels()),
        }
    }

    // Where its comment is to stand, its first channel and its records.
    fn text(self) -> usize
        ensures { result ≡ self.entry.at + 58 }
    {
        self.at + 58
    }

    fn first_channel(self) -> usize
        ensures { (result ≡ self.entry.at + 58 + body_length (the_group self.entry.group).comment) × (result < self.entry.at + 70000) }
    {
        self.text() + put_channels::body_length(self.comment)
    }

    fn records(self) -> usize
        ensures { (result ≡ self.entry.at + 58 + body_length (the_group self.entry.group).comment + self.entry.channels.length) × (result < self.entry.at + 5000000000) }
    {
        self.first_channel() + self.channels.length
    }

    // The length of the group. Above the longest copy it is not exact.
    fn length(self) -> usize
        ensures { Capped result (group_length (the_group self.entry.group)) × (58 ≤ result) × (result ≤ 2147483648) }
    {
        let n = self.records() - self.at + self.group.count() * self.group.size();
        n.min(LONGEST + 1)
    }

    // The DG block of the group and its CG block.
    fn put_heads(self, out: &mut [u8], next: usize)
        requires { (group_length (the_group self.group) ≤ 2147483647) × (self.at + group_length (the_group self.group) ≤ length out.old) }
        ensures { Wrote out.old out.new self.entry.at (heads_as self.entry.at next (the_group self.entry.group)) }
    {
        let count = self.group.count();
        let channels = self.channels.count;
        let records = link_if(count != 0, self.records());
        blocks::put_dg(out, self.at, next, self.at + 28, records);
        let first = link_if(channels != 0, self.first_channel());
        let text = link_if(self.comment.is_some(), self.text());
        blocks::put_cg(
            out,
            self.at + 28,
            first,
            text,
            channels,
            self.group.size(),
            count,
        );
    }

    // All of the group but its records, with the link to the next one.
    fn put_blocks(self, out: &mut [u8], next: usize)
        requires { (group_length (the_group self.group) ≤ 2147483647) × (self.at + group_length (the_group self.group) ≤ length out.old) }
        ensures { Wrote out.old out.new self.entry.at (blocks_as self.entry.at next (the_group self.entry.group)) }
    {
        self.put_heads(out, next);
        put_channels::put_body::<Tx>(out, self.text(), self.comment);
        put_channels::put_channels(out, self.first_channel(), self.group.channels());
    }
}

// ---- the groups

// `start` and the lengths of the groups that are left, added up; and how many groups they are.
// Beside `channels_sum`: a sum over any cursor would promise of the items that it took, and each of the two would have to lead that back to the reading.
pub fn groups_sum(groups: Groups, start: usize) -> Sum
    requires { start ≤ 2147483647 }
    ensures { SumIs result (start + groups_length (groups_left groups.entry)) (length (groups_left groups.entry)) }
{
    let mut sum = Sum {
        length: start,
        count: 0,
    };
    // It ends above the longest copy, so that nothing wraps.
    for g in groups {
        sum.length += Layout::of(g, 0).length();
        if LONGEST < sum.length {
            break;
        }
        sum.count += 1;
    }
    sum
}

// The groups that are left, from a place on.
pub fn put_groups(out: &mut [u8], at: usize, groups: Groups)
    requires { AtKeys groups [] × (groups_length (groups_left groups) ≤ 2147483647) × (at + groups_length (groups_left groups) ≤ length out.old) }
    ensures { Wrote out.old out.new at (groups_bytes at (groups_left groups.entry)) }
{
    let mut c = groups;
    let mut to = at;
    // where the records that are owed go, by key
    let mut places = [0usize; 256];
    while let Some(g) = c.next() {
        let layout = Layout::of(g, to);
        let end = to + layout.length();
        // a copy looks ahead, for the cursor itself is passed on
        let mut ahead = c;
        let next = link_if(ahead.next().is_some(), end);
        layout.put_blocks(out, next);
        let records = layout.records();
        put_records::put_records(out, records, g, c, &mut places);
        to = end;
    }
}
