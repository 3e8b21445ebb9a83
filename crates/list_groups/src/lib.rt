// The entries of the groups of two files: what differs in groups that both have, and the groups that one file alone has.
#![tactic(auto)]

ghost use Rattle.std.specs.Prelude.{◌≡◌, true, []};
ghost use Rattle.answers.specs.Differences.{group_entries, groups_alone, groups_entries};
ghost use Rattle.reading.specs.Steps.{AtKeys, the_group, groups_left};
ghost use Rattle.listing.specs.Growing.{Grown};

use listing::{EntryKind, List};
use reading::{Group, Groups};

// Two groups that have the same number. Records that are known to be the same are not gone through.
fn list_group(list: &mut List, g: Group, h: Group, number: usize, known: bool)
    requires { known ≡ true → (the_group g).records ≡ (the_group h).records }
    ensures { Grown list.old list.new (group_entries number (the_group g.entry) (the_group h.entry)) }
{
    let same = same_parts::same_own(g, h);
    list.unless(same, EntryKind::GroupPart as usize, number, 0);
    list_channels::list_channels(list, g.channels(), h.channels(), number);
    if !known {
        list_records::list_records(list, g, h, number);
    }
}

// The groups that are left in one file.
fn list_alone(list: &mut List, groups: Groups)
    ensures { Grown list.old list.new (groups_alone groups.entry.index (groups_left groups.entry)) }
{
    for g in groups {
        // only saves time: what is still to come does not matter
        if list.length.is_too_long() {
            return;
        }
        list.entry(EntryKind::GroupAlone as usize, g.number(), 0, 0);
    }
}

// The groups of both files, side by side.
pub fn list_groups(list: &mut List, x: Groups, y: Groups)
    requires { (x.index ≡ y.index) × AtKeys x [] × AtKeys y [] }
    ensures { Grown list.old list.new (groups_entries x.entry.index (groups_left x.entry) (groups_left y.entry)) }
{
    let mut begins = true;
    let mut told = None;
    let mut c = x;
    let mut d = y;
    // ends with either cursor, or where no list is longer
    while !list.length.is_too_long() {
        let before = c;
        let Some(g) = c.next() else {
            list_alone(list, d);
            return;
        };
        let Some(h) = d.next() else {
            list_alone(list, before);
            return;
        };
        told = same_records::mark(g, h, begins, told);
        let known = same_records::known_same(g, h, told);
        list_group(list, g, h, g.number(), known);
        let left = c.ends_data_group();
        let right = d.ends_data_group();
        // only for time: `mark` is right whatever it is told here
        begins = left && right;
        // behind a data group's last group nothing is told
        if left || right {
            told = None;
        }
    }
}
