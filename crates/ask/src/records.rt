// The anchors of one tank as records that a caller lends. A walk over the runs where they stand makes them, sixteen at a time and ahead of their turn:
// who stores them one by one copies the pool for each sixteen of them, and not for each one.
ghost use Rattle.std.specs.Prelude.{◌≡◌, ◌+◌, ◌-◌, ◌≤◌, drop, get_or, length};
ghost use Rattle.styles.specs.Bits.{lacking_bits, without_bit};
ghost use Rattle.runs.specs.Stretches.{in_front};
ghost use Rattle.lists.specs.Lists.{list_refusal, unless_refused, filled_beside};
ghost use Rattle.lists.specs.Anchors.{no_anchor};
ghost use Rattle.tanks.specs.Pool.{Sound};
ghost use Rattle.ask.specs.Records.{records_of, rest_of, ready_of, come_from, Fits, Walks, Ready, Stands, PlacedIn};

use super::Spot;
use super::anchored::changes;
use lists::Listed;
use lists::anchors::{Anchor, lacking, mark_anchor};
use richtext::AnchorType;
use styles::{Mark, bits};
use tanks::{Run, Tanks, look, pool};

// Where the marks that a party has in a tank stand: so many runs of the pool, from one of its places on, the tank's table, and the bits of the party's
// own marks.
#[derive(Clone, Copy)]
pub struct Place {
    pub pool: [Run; 512],
    pub marks: [Mark; 64],
    pub from: usize,
    pub runs: usize,
    pub own: u64,
}

// Where a walk over the runs stands: so many are passed, they end at `end`, and the last of them has the bits `last`. Of the marks that end and start at
// the boundary `at`, those that are left.
#[derive(Clone, Copy)]
pub struct Walk {
    pub passed: usize,
    pub end: u64,
    pub last: u64,
    pub at: u64,
    pub ends: u64,
    pub starts: u64,
}

// Anchors that are made, of which those from `next` up to `count` have not had their turn, and where the walk that makes them stands.
#[derive(Clone, Copy)]
pub struct Ahead {
    pub made: [Anchor; 16],
    pub next: usize,
    pub count: usize,
    pub walk: Walk,
}

// Where a party's marks stand; where there is no such tank, those of the first, whose list is then refused.
pub fn placed(s: Tanks, spot: Spot) -> Place
    requires { Sound s }
    ensures { PlacedIn s spot.tank spot.who result }
{
    let heads = s.heads;
    let pool = s.pool;
    let tables = s.tables;
    let t = tanks::place(spot.tank);
    let table = tables[t];
    let who = spot.who;
    let own = look::own_bits(heads, table, t, who);
    let from = pool::start(heads, t);
    let h = heads[t];
    let marks = table.marks;
    Place {
        pool,
        marks,
        from,
        runs: h.runs,
        own,
    }
}

// The end of mark i has had its turn.
fn past_end(w: Walk, i: usize) -> Walk
    ensures { result ≡ record { passed = w.passed; end = w.end; last = w.last; at = w.at; ends = without_bit i w.ends; starts = w.starts } }
{
    Walk {
        ends: bits::without_bit(w.ends, i),
        ..w
    }
}

// The start of mark i has had its turn.
fn past_start(w: Walk, i: usize) -> Walk
    ensures { result ≡ record { passed = w.passed; end = w.end; last = w.last; at = w.at; ends = w.ends; starts = without_bit i w.starts } }
{
    Walk {
        starts: bits::without_bit(w.starts, i),
        ..w
    }
}

// The walk at the boundary that the next run begins at, which is so long and has these bits.
fn over(w: Walk, len: u64, next: u64) -> Walk
    requires { (w.end + len ≤ 9223372036854775807) × (w.passed ≤ 511) }
    ensures { result ≡ record { passed = w.passed + 1; end = w.end + len; last = next; at = w.end; ends = lacking_bits w.last next; starts = lacking_bits next w.last } }
{
    Walk {
        passed: w.passed + 1,
        end: w.end + len,
        last: next,
        at: w.end,
        ends: lacking(w.last, next),
        starts: lacking(next, w.last),
    }
}

// The walk at the boundary behind the last run.
fn behind(w: Walk) -> Walk
    ensures { result ≡ record { passed = w.passed; end = w.end; last = 0; at = w.end; ends = w.last; starts = 0 } }
{
    Walk {
        last: 0,
        at: w.end,
        ends: w.last,
        starts: 0,
        ..w
    }
}

fn no_anchor() -> Anchor
    ensures { result ≡ no_anchor }
{
    Anchor {
        at: 0,
        side: AnchorType::Start,
        key: 0,
        lamport: 0,
        peer: 0,
    }
}

fn handed(made: [Anchor; 16], count: usize, walk: Walk) -> Ahead
    ensures { result ≡ record { made = made; next = 0; count = count; walk = walk } }
{
    Ahead {
        made,
        next: 0,
        count,
        walk,
    }
}

// The next anchors of a walk, sixteen or all that there are. The walk over the runs is in this one function: handed on, the pool would be copied.
fn made_ahead(p: Place, walk: Walk) -> Ahead
    requires { (Fits p) × (Walks p walk) }
    ensures { (Stands p result) × (come_from p result ≡ rest_of p walk) }
{
    let pool = p.pool;
    let marks = p.marks;
    let none = no_anchor();
    let mut made = [none; 16];
    let mut count = 0;
    let mut w = walk;
    // No `for`: a turn makes an anchor, or only moves the walk on.
    while count < 16 {
        if 0 < w.ends {
            let i = bits::lowest(w.ends);
            made[count] = mark_anchor(w.at.saturating_sub(1), AnchorType::End, marks[i]);
            w = past_end(w, i);
            count += 1;
        } else if 0 < w.starts {
            let i = bits::lowest(w.starts);
            made[count] = mark_anchor(w.at, AnchorType::Start, marks[i]);
            w = past_start(w, i);
            count += 1;
        } else if w.passed < p.runs {
            let r = pool[p.from + w.passed];
            w = over(w, r.len, r.set & p.own);
        } else if w.last == 0 {
            return handed(made, count, w);
        } else {
            w = behind(w);
        }
    }
    handed(made, count, w)
}

// Before the first anchor.
fn first(p: Place) -> Ahead
    requires { Fits p }
    ensures { (Stands p result) × (come_from p result ≡ records_of p) }
{
    let walk = Walk {
        passed: 0,
        end: 0,
        last: 0,
        at: 0,
        ends: 0,
        starts: 0,
    };
    made_ahead(p, walk)
}

// The anchor whose turn it is.
fn anchor_at(c: Ahead) -> Anchor
    requires { Ready c }
    ensures { result ≡ get_or (ready_of c) 0 no_anchor }
{
    let i = c.next;
    if i < c.count {
        return c.made[i];
    }
    no_anchor()
}

// The next of those that are made.
fn turned(c: Ahead) -> Ahead
    requires { c.next ≤ 15 }
    ensures { result ≡ record { made = c.made; next = c.next + 1; count = c.count; walk = c.walk } }
{
    Ahead {
        next: c.next + 1,
        ..c
    }
}

// Past that anchor; at the end it stays.
fn advance(p: Place, c: Ahead) -> Ahead
    requires { (Fits p) × (Stands p c) }
    ensures { (Stands p result) × (come_from p result ≡ drop 1 (come_from p c)) }
{
    if c.next + 1 < c.count {
        return turned(c);
    }
    made_ahead(p, c.walk)
}

// How many anchors there are: of each boundary that a run begins at, and of the one behind the last. Where two runs have the same of the party's bits,
// the boundary between them has none.
fn count(p: Place) -> usize
    requires { Fits p }
    ensures { result ≡ length (records_of p) }
{
    let pool = p.pool;
    let at = p.from;
    let n = p.runs;
    let own = p.own;
    let mut last: u64 = 0;
    let mut count = 0;
    for i in 0..n {
        let r = pool[at + i];
        let next = r.set & own;
        count += changes(last, next);
        last = next;
    }
    count + bits::count(last)
}

// What the list answers where `room` records are lent. A lower number, which an earlier test gave, goes first; 0 is none.
fn judged(p: Place, lower: u64, room: usize) -> Listed
    requires { Fits p }
    ensures { result ≡ filled_beside (list_refusal lower room (length (records_of p))) (records_of p) }
{
    if 0 < lower {
        return Listed {
            number: lower,
            count: 0,
        };
    }
    let n = count(p);
    if room < n {
        return Listed {
            number: 11,
            count: 0,
        };
    }
    Listed {
        number: 0,
        count: n,
    }
}

// How many records it writes.
fn turns(p: Place, lower: u64, room: usize) -> usize
    requires { Fits p }
    ensures { (result ≡ length (unless_refused (list_refusal lower room (length (records_of p))) (records_of p))) × (result ≤ room) }
{
    let listed = judged(p, lower, room);
    listed.count
}

// The anchors of a party's marks, at the front of `out`. Records past the count stay; a refusal, the lower number among them, writes nothing.
pub fn iter_anchors(p: Place, lower: u64, out: &mut [Anchor]) -> Listed
    requires { Fits p }
    ensures { (result ≡ filled_beside (list_refusal lower (length out.old) (length (records_of p))) (records_of p)) × (out.new ≡ in_front (unless_refused (list_refusal lower (length out.old) (length (records_of p))) (records_of p)) out.old) }
{
    let n = turns(p, lower, out.len());
    let mut c = first(p);
    for j in 0..n {
        out[j] = anchor_at(c);
        c = advance(p, c);
    }
    judged(p, lower, out.len())
}
