// Whether two groups have the same records, told without going through them one by one: of sorted groups by their runs of bytes; of unsorted ones by one pass over both data groups, as long as their records come in the same order.
#![tactic(auto)]

ghost use Rattle.std.specs.Prelude.{◌≡◌, true, IfSome};
ghost use Rattle.reading.specs.Steps.{log_left, log_of, the_group, unsorted};
ghost use Rattle.same_records.specs.Marks.{Told};

use reading::{Data, Group, Log, Unsorted};

// What is told of two data groups that have the same keys in the same order: by key, whether a record differs. Which two they are stands in the contracts that hand it out, since an invariant speaks of its own fields alone.
#[derive(Clone, Copy)]
pub struct Marks {
    pub differs: [bool; 256],
}

// Marks the keys of records that differ. None where the keys or their order are not the same.
fn mark_logs(x: Log, y: Log) -> Option<Marks>
    ensures { Told result (log_left x.entry) (log_left y.entry) }
{
    let mut differs = [false; 256];
    let mut d = y;
    for p in x {
        let q = d.next()?;
        if p.key != q.key {
            return None;
        }
        if !alike::same_part(p.bytes, q.bytes) {
            differs[p.key] = true;
        }
    }
    if d.next().is_some() {
        return None;
    }
    Some(Marks { differs })
}

// The same for the data groups of two groups.
fn mark_unsorted(g: Unsorted, h: Unsorted) -> Option<Marks>
    ensures { Told result (log_of g.entry.group) (log_of h.entry.group) }
{
    let sizes = g.group.sizes();
    let others = h.group.sizes();
    let x = g.log_with(&sizes);
    let y = h.log_with(&others);
    mark_logs(x, y)
}

// Marks anew where a data group begins in both files; else what was told of it holds on. None where one of them is sorted.
pub fn mark(g: Group, h: Group, begins: bool, told: Option<Marks>) -> Option<Marks>
    requires { Told told (log_of g) (log_of h) }
    ensures { Told result (log_of g.entry) (log_of h.entry) × IfSome result (λ m. (unsorted g.entry ≡ true) × (unsorted h.entry ≡ true)) }
{
    let (Data::Mixed(first), Data::Mixed(second)) = (g.data(), h.data()) else {
        return None;
    };
    if begins {
        return mark_unsorted(first, second);
    }
    told
}

// Whether two sorted groups have the same records, as far as their runs tell.
fn same_runs(g: Group, h: Group) -> bool
    ensures { result ≡ true → (the_group g.entry).records ≡ (the_group h.entry).records }
{
    let (Data::Run(s), Data::Run(t)) = (g.data(), h.data()) else {
        return false;
    };
    g.size() == h.size() && g.count() == h.count() && alike::same_part(s.bytes, t.bytes)
}

// Whether two groups are known to have the same records.
pub fn known_same(g: Group, h: Group, told: Option<Marks>) -> bool
    requires { Told told (log_of g) (log_of h) }
    ensures { result ≡ true → (the_group g.entry).records ≡ (the_group h.entry).records }
{
    let Some(marks) = told else {
        return same_runs(g, h);
    };
    let (Data::Mixed(one), Data::Mixed(other)) = (g.data(), h.data()) else {
        return false;
    };
    let key = one.key();
    key == other.key() && marks.differs.get(key) == Some(&false)
}
