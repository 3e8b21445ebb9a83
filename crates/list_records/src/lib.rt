// The entries of the records of two groups: those that differ, and those that one file alone has.
#![tactic(auto)]

ghost use Rattle.std.specs.Prelude.{◌≡◌, ◌<◌, length};
ghost use Rattle.answers.specs.Differences.{same_bytes, difference, entry, unless, record_entries};
ghost use Rattle.reading.specs.Steps.{the_group, records_left};
ghost use Rattle.listing.specs.Growing.{Grown};
ghost use Rattle.list_records.specs.Common.{common_entries};

use listing::{EntryKind, List};
use reading::{Group, Series};

// A record of each.
fn list_record(list: &mut List, x: &[u8], y: &[u8], group: usize, item: usize)
    ensures { Grown list.old list.new (unless (same_bytes x.now y.now) (entry 4 group item (difference x.now y.now))) }
{
    if !alike::same_part(x, y) {
        let byte = alike::first_difference(x, y);
        list.entry(EntryKind::Record as usize, group, item, byte);
    }
}

// The records that both have, side by side.
fn list_common(list: &mut List, x: Series, y: Series, group: usize)
    requires { length (records_left x) < 4294967296 }
    ensures { Grown list.old list.new (common_entries group 0 (records_left x.entry) (records_left y.entry)) }
{
    for (item, (p, q)) in x.zip(y).enumerate() {
        // only saves time: what is still to come does not matter
        if list.length.is_too_long() {
            return;
        }
        list_record(list, p.bytes, q.bytes, group, item);
    }
}

// The records of two groups that have the same number.
pub fn list_records(list: &mut List, g: Group, h: Group, group: usize)
    ensures { Grown list.old list.new (record_entries group 0 (the_group g.entry).records (the_group h.entry).records) }
{
    let sizes = g.sizes();
    let others = h.sizes();
    let x = g.series(&sizes.by_key);
    let y = h.series(&others.by_key);
    let n = g.count();
    let m = h.count();
    list_common(list, x, y, group);
    list.numbered(
        EntryKind::RecordAlone as usize,
        group,
        n.min(m),
        n.abs_diff(m),
    );
}
