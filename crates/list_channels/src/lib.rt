// The entries of the channels of two groups: those that differ, and those that one file alone has.
#![tactic(auto)]

ghost use Rattle.std.specs.Prelude.{◌≡◌, ◌+◌};
ghost use Rattle.answers.specs.Differences.{alone, channel_entries};
ghost use Rattle.reading.specs.Steps.{channels_left};
ghost use Rattle.listing.specs.Growing.{Grown};

use listing::{EntryKind, List};
use reading::Channels;

// The channels that are left in one file. The item of a channel is one above its number. Beside `list_groups::list_alone`: a channel is told by an entry's item, a group by its group.
fn list_alone(list: &mut List, channels: Channels, group: usize)
    ensures { Grown list.old list.new (alone 3 group (channels.entry.index + 1) (channels_left channels.entry)) }
{
    for x in channels {
        // only saves time, here and below: what is still to come does not matter
        if list.length.is_too_long() {
            return;
        }
        list.entry(EntryKind::GroupPart as usize, group, x.number() + 1, 0);
    }
}

// The channels that are left in each, side by side.
pub fn list_channels(list: &mut List, x: Channels, y: Channels, group: usize)
    requires { x.index ≡ y.index }
    ensures { Grown list.old list.new (channel_entries group (x.entry.index + 1) (channels_left x.entry) (channels_left y.entry)) }
{
    let mut d = y;
    for u in x {
        if list.length.is_too_long() {
            return;
        }
        // where the second has no more, the channel is one that differs
        let same = match d.next() {
            Some(v) => same_parts::same_channel(u, v),
            None => false,
        };
        list.unless(same, EntryKind::GroupPart as usize, group, u.number() + 1);
    }
    list_alone(list, d, group);
}
