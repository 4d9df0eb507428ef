// A whole tank's anchors: a cursor by value that runs through them, their count, and the list that fills what a caller lends.
ghost use Rattle.std.specs.Prelude.{◌≡◌, drop, get_or, length, ◌<◌, ◌≤◌};
ghost use Rattle.styles.specs.Marks.{blank};
ghost use Rattle.lists.specs.Anchors.{anchor_of, anchors, anchors_after, no_anchor, left_at, rest, Stands, Steps, Follows, Settles};
ghost use Rattle.styles.specs.Bits.{lacking_bits};
ghost use Rattle.lists.specs.Lists.{unless_refused, filled_beside};
ghost use Rattle.runs.specs.Stretches.{in_front};
ghost use Rattle.tank.specs.State.{view, Sound};

use super::Listed;
use richtext::AnchorType;
use styles::Mark;
use tank::Tank;

// A position, the side, and the mark's identity.
#[derive(Clone, Copy)]
pub struct Anchor {
    pub at: u64,
    pub side: AnchorType,
    pub key: u16,
    pub lamport: u32,
    pub peer: u64,
}

// Where a walk through the anchors stands: at the boundary before run `index`, which is before position `at`. Of the marks that end there
// and start there, those that are left.
#[derive(Clone, Copy)]
pub struct AnchorCursor {
    pub index: usize,
    pub at: u64,
    pub ends: u64,
    pub starts: u64,
}

// The bits of a set that another lacks.
pub fn lacking(set: u64, other: u64) -> u64
    ensures { result ≡ lacking_bits set other }
{
    set - (set & other)
}

// A boundary with all its anchors left: between a run with the set `before` and one with the set `behind`.
fn boundary(index: usize, at: u64, before: u64, behind: u64) -> AnchorCursor
    ensures { result ≡ record { index = index; at = at; ends = lacking_bits before behind; starts = lacking_bits behind before } }
{
    AnchorCursor {
        index: index,
        at: at,
        ends: lacking(before, behind),
        starts: lacking(behind, before),
    }
}

// A cursor before the first anchor. Behind the last run the sets are empty, so that a tank without runs needs no test.
pub fn first_anchor(t: Tank) -> AnchorCursor
    requires { Sound t }
    ensures { Stands t result × (rest t result ≡ anchors (view t)) × (result.index ≡ 0) }
{
    boundary(0, 0, 0, t.sets[0])
}

// The boundary behind the cursor's.
fn following(t: Tank, c: AnchorCursor) -> AnchorCursor
    requires { Sound t × Stands t c × (c.index < t.runs) }
    ensures { Follows t c result }
{
    let k = c.index;
    boundary(k + 1, c.at + t.lens[k], t.sets[k], t.sets[k + 1])
}

// The cursor, or the boundary behind it where it has nothing left: neighbouring runs differ, so that one step does.
fn settled(t: Tank, c: AnchorCursor) -> AnchorCursor
    requires { Sound t × Stands t c }
    ensures { Settles t c result }
{
    if 0 < c.ends {
        return c;
    }
    if 0 < c.starts {
        return c;
    }
    if c.index == t.runs {
        return c;
    }
    following(t, c)
}

// The anchor of a mark.
pub fn mark_anchor(at: u64, side: AnchorType, m: Mark) -> Anchor
    ensures { result ≡ anchor_of at side m }
{
    Anchor {
        at: at,
        side: side,
        key: m.key,
        lamport: m.lamport,
        peer: m.peer,
    }
}

// The anchor of mark i of the table.
fn anchor_of(t: Tank, at: u64, side: AnchorType, i: usize) -> Anchor
    requires { i < 64 }
    ensures { result ≡ anchor_of at side (get_or t.table i blank) }
{
    mark_anchor(at, side, t.table[i])
}

// The anchor that comes next and a cursor for those after it; ends come before starts, and each by its lowest bit.
pub fn next_anchor(t: Tank, c: AnchorCursor) -> Option<(Anchor, AnchorCursor)>
    requires { Sound t × Stands t c }
    ensures { Steps t c result }
{
    let d = settled(t, c);
    if 0 < d.ends {
        let i = styles::bits::lowest(d.ends);
        let a = anchor_of(t, d.at - 1, AnchorType::End, i);
        let left = AnchorCursor {
            index: d.index,
            at: d.at,
            ends: styles::bits::without_bit(d.ends, i),
            starts: d.starts,
        };
        return Some((a, left));
    }
    if 0 < d.starts {
        let i = styles::bits::lowest(d.starts);
        let a = anchor_of(t, d.at, AnchorType::Start, i);
        let left = AnchorCursor {
            index: d.index,
            at: d.at,
            ends: 0,
            starts: styles::bits::without_bit(d.starts, i),
        };
        return Some((a, left));
    }
    None
}

// How many anchors a cursor has left at its boundary.
fn left_at(t: Tank, c: AnchorCursor) -> usize
    requires { Sound t × Stands t c }
    ensures { (result ≡ length (left_at t c)) × (result ≤ 128) }
{
    styles::bits::count(c.ends) + styles::bits::count(c.starts)
}

// How many anchors the tank has.
pub fn anchors_needed(t: Tank) -> usize
    requires { Sound t }
    ensures { result ≡ length (anchors (view t)) }
{
    let mut c = first_anchor(t);
    let mut count = left_at(t, c);
    while c.index < t.runs {
        c = following(t, c);
        count += left_at(t, c);
    }
    count
}

// What the list answers where `room` records are lent. A lower number, which an earlier test gave, goes first; 0 is none.
fn judged(t: Tank, lower: u64, room: usize) -> Listed
    requires { Sound t }
    ensures { result ≡ filled_beside (anchors_after lower room (view t)) (anchors (view t)) }
{
    if 0 < lower {
        return Listed {
            number: lower,
            count: 0,
        };
    }
    let n = anchors_needed(t);
    if room < n {
        return Listed {
            number: 11,
            count: 0,
        };
    }
    Listed {
        number: 0,
        count: n,
    }
}

// How many records it writes.
fn turns(t: Tank, lower: u64, room: usize) -> usize
    requires { Sound t }
    ensures { (result ≡ length (unless_refused (anchors_after lower room (view t)) (anchors (view t)))) × (result ≤ room) }
{
    let listed = judged(t, lower, room);
    listed.count
}

// The tank's anchors, at the front of `out`. Records past the count stay; a refusal, the lower number among them, writes nothing.
pub fn iter_anchors(t: Tank, lower: u64, out: &mut [Anchor]) -> Listed
    requires { Sound t }
    ensures { (result ≡ filled_beside (anchors_after lower (length out.old) (view t)) (anchors (view t))) × (out.new ≡ in_front (unless_refused (anchors_after lower (length out.old) (view t)) (anchors (view t))) out.old) }
{
    let n = turns(t, lower, out.len());
    let mut c = first_anchor(t);
    for j in 0..n {
        if let Some((anchor, after)) = next_anchor(t, c) {
            out[j] = anchor;
            c = after;
        }
    }
    judged(t, lower, out.len())
}
