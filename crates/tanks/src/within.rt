// An insertion between two positions of one run and a deletion of some of its positions change the length of that run alone: no neighbour is
// joined, no mark comes or goes, and no run moves. So does an insertion where two runs meet and the one has all marks of the other.
ghost use Rattle.std.specs.Prelude.{◌≡◌, true, ◌≤◌, ◌<◌, ◌^◌, take, IfSome};
ghost use Rattle.styles.specs.Bits.{pick};
ghost use Rattle.tank.specs.Rules.{inserting, deleting, largest};
ghost use Rattle.tanks.specs.Promises.{edit_of};
ghost use Rattle.tanks.specs.Resizing.{Resizes, Fits, Which, shown_by};

use super::{Edit, Head, Resize};
use styles::{Mark, Party};

// An insertion between two positions.
fn insert_resize(h: Head, who: Party, pos: u64, len: u64) -> Option<Resize>
    requires { h.length ≤ largest }
    ensures { IfSome result (λ r. Resizes (inserting who pos len) h r) }
{
    if tank::is_lab(who)
        || len == 0
        || pos == 0
        || h.length <= pos
        || !h.touched
        || 9223372036854775807 - h.length < len
    {
        return None;
    }
    Some(Resize {
        from: pos - 1,
        to: pos,
        less: 0,
        more: len,
    })
}

// A deletion.
fn delete_resize(h: Head, who: Party, start: u64, end: u64) -> Option<Resize>
    requires { h.length ≤ largest }
    ensures { IfSome result (λ r. Resizes (deleting who start end) h r) }
{
    if tank::is_lab(who) || end <= start || h.length < end || !h.touched {
        return None;
    }
    Some(Resize {
        from: start,
        to: end,
        less: end - start,
        more: 0,
    })
}

// Which run an edit asks for, and by how much its length would change; None of an edit that changes more than the length of one run.
pub fn resize_of(h: Head, call: Edit) -> Option<Resize>
    requires { h.length ≤ largest }
    ensures { IfSome result (λ r. Resizes (edit_of call) h r) }
{
    match call {
        Edit::Insert(who, pos, len) => insert_resize(h, who, pos, len),
        Edit::Delete(who, start, end) => delete_resize(h, who, start, end),
        Edit::Annotate(_, _, _) | Edit::Remove(_, _) => None,
    }
}

// Whether the run that has the positions start .. end has all those that are asked for.
fn fits(q: Resize, start: u64, end: u64) -> bool
    requires { start ≤ end }
    ensures { result ≡ true → Fits q start end }
{
    start <= q.from && q.less < end - start
}

// Of the run that ends at `end` and the next one, by their sets, the one that the edit changes: 0 or 1, or none of the two.
fn which(q: Resize, end: u64, here: u64, next: u64) -> Option<usize>
    ensures { IfSome result (λ pick. Which q end here next pick) }
{
    if q.more == 0 || q.to < end {
        return Some(0);
    }
    let common = styles::bits::both(here, next);
    if common == here {
        Some(0)
    } else if common == next {
        Some(1)
    } else {
        None
    }
}

// Of the run that has the positions start .. end and the next one, by their sets, the one that the edit changes alone.
pub fn choose(q: Resize, start: u64, end: u64, here: u64, next: u64) -> Option<usize>
    requires { start ≤ end }
    ensures { IfSome result (λ pick. (Fits q start end) × (Which q end here next pick)) }
{
    if fits(q, start, end) {
        which(q, end, here, next)
    } else {
        None
    }
}

// The bits of those marks of a set that an edit shows where its new positions carry the set.
pub fn shown_by(call: Edit, table: [Mark; 64], n: usize, set: u64) -> u64
    requires { (n ≤ 64) × (set < 2 ^ n) }
    ensures { (result < 2 ^ n) × (pick (take n table) result ≡ shown_by (edit_of call) (pick (take n table) set)) }
{
    match call {
        Edit::Annotate(_, _, _) => 0,
        Edit::Insert(who, _, _) => tank::shown_bits(table, n, set, who),
        Edit::Delete(_, _, _) => 0,
        Edit::Remove(_, _) => 0,
    }
}
