// Looks at one tank where it stands: its runs in the pool, its marks in its table. Nothing is taken out of the state, and the other party's
// marks are left out by their bits.
ghost use Rattle.std.specs.Prelude.{◌≡◌, cond, ◌&&◌, ◌<◌, ◌≤◌, ◌^◌, ltb, get_or, take};
ghost use Rattle.std.specs.Int.Bits.{bit_and};
ghost use Rattle.styles.specs.Answers.{styles_of, rank_of};
ghost use Rattle.styles.specs.Bits.{pick, MaskOf};
ghost use Rattle.styles.specs.Marks.{is_of, winner, has_key, shows_value, same_marks};
ghost use Rattle.runs.specs.Positions.{any_at, all_at, first_of, last_of};
ghost use Rattle.runs.specs.Runs.{set_at, total};
ghost use Rattle.runs.specs.Scan.{common_at, passes};
ghost use Rattle.tank.specs.Rules.{alike, for_insert};
ghost use Rattle.tanks.specs.Pool.{no_head};
ghost use Rattle.tanks.specs.Looks.{run_list, CanWalk, Within, Stands, shown_in, alike_by};

use super::pool::start;
use super::{Head, Run, Table};
use runs::scan::{Test, holds};
use styles::{Mark, Party, Styles, Value};

// From where to where a stretch goes, both ends in it.
#[derive(Clone, Copy)]
pub struct Reach {
    pub first: u64,
    pub last: u64,
}

// How many positions tank t has.
pub fn length_in(heads: [Head; 8], t: usize) -> u64
    requires { t < 8 }
    ensures { result ≡ (get_or heads t no_head).length }
{
    let h = heads[t];
    h.length
}

// Has a mark ever been laid on tank t?
pub fn touched_in(heads: [Head; 8], t: usize) -> bool
    requires { t < 8 }
    ensures { result ≡ (get_or heads t no_head).touched }
{
    let h = heads[t];
    h.touched
}

// The bits of the marks at a position of tank t, of both parties; 0 past its end.
fn set_in(heads: [Head; 8], pool: [Run; 512], t: usize, pos: u64) -> u64
    requires { CanWalk heads pool t }
    ensures { result ≡ set_at (run_list heads pool t) pos }
{
    let at = start(heads, t);
    let h = heads[t];
    let n = h.runs;
    let mut end: u64 = 0;
    for i in 0..n {
        let r = pool[at + i];
        end += r.len;
        if pos < end {
            return r.set;
        }
    }
    0
}

// What a set that begins at `begun` and the set before it give a position: the set where the position before is in it too, else what both have.
fn joint(begun: u64, pos: u64, last: u64, set: u64) -> u64
    ensures { result ≡ cond (ltb begun pos) set (bit_and last set) }
{
    if begun < pos { set } else { last & set }
}

// The bits that positions pos - 1 and pos of tank t have in common, of both parties; none at either end.
fn common_in(heads: [Head; 8], pool: [Run; 512], t: usize, pos: u64) -> u64
    requires { CanWalk heads pool t }
    ensures { result ≡ common_at (run_list heads pool t) pos }
{
    let at = start(heads, t);
    let h = heads[t];
    let n = h.runs;
    let mut end: u64 = 0;
    let mut last: u64 = 0;
    for i in 0..n {
        let r = pool[at + i];
        let begun = end;
        end += r.len;
        if pos < end {
            return joint(begun, pos, last, r.set);
        }
        last = r.set;
    }
    0
}

// Whether a run that ends at `end` has positions from `from` on, and a set that passes the test.
fn passes_from(from: u64, end: u64, test: Test, set: u64) -> bool
    ensures { result ≡ (ltb from end && passes test set) }
{
    from < end && holds(test, set)
}

// Whether some position of from .. to of tank t has a set that passes the test. Runs from `to` on are not looked at.
fn some_in(heads: [Head; 8], pool: [Run; 512], t: usize, from: u64, to: u64, test: Test) -> bool
    requires { (CanWalk heads pool t) × Within heads pool t from to }
    ensures { result ≡ any_at (λ p. passes test (set_at (run_list heads pool t) p)) from to }
{
    let at = start(heads, t);
    let h = heads[t];
    let n = h.runs;
    let mut end: u64 = 0;
    for i in 0..n {
        if to <= end {
            return false;
        }
        let r = pool[at + i];
        end += r.len;
        if passes_from(from, end, test, r.set) {
            return true;
        }
    }
    false
}

// From where to where the positions around `pos` have the same bits of a mask.
fn reach_in(heads: [Head; 8], pool: [Run; 512], t: usize, own: u64, pos: u64) -> Reach
    requires { (CanWalk heads pool t) × (pos < total (run_list heads pool t)) }
    ensures { (result.first ≡ first_of (alike_by own (run_list heads pool t)) pos) × (result.last ≡ last_of (alike_by own (run_list heads pool t)) (total (run_list heads pool t)) pos) }
{
    let at = start(heads, t);
    let h = heads[t];
    let n = h.runs;
    let mut end: u64 = 0;
    let mut first: u64 = 0;
    let mut one: u64 = 0;
    for i in 0..n {
        let r = pool[at + i];
        let bits = r.set & own;
        let begun = end;
        end += r.len;
        if bits != one {
            if pos < begun {
                return Reach {
                    first: first,
                    last: begun - 1,
                };
            }
            first = begun;
            one = bits;
        }
    }
    Reach {
        first: first,
        last: end - 1,
    }
}

// The bits of a party's marks in tank t's table.
pub fn own_bits(heads: [Head; 8], table: Table, t: usize, who: Party) -> u64
    requires { (t < 8) × ((get_or heads t no_head).marks ≤ 64) }
    ensures { MaskOf (is_of who) (take (get_or heads t no_head).marks table.marks) result }
{
    let h = heads[t];
    let marks = table.marks;
    styles::table::party_bits(marks, h.marks, who)
}

// The bits of the marks that a party is shown at a position of tank t.
fn seen_at(heads: [Head; 8], pool: [Run; 512], table: Table, t: usize, who: Party, pos: u64) -> u64
    requires { Stands heads pool table t }
    ensures { (pick (take (get_or heads t no_head).marks table.marks) result ≡ (shown_in heads pool table t who).at pos) × (result < 2 ^ (get_or heads t no_head).marks) }
{
    let own = own_bits(heads, table, t, who);
    styles::bits::both(set_in(heads, pool, t, pos), own)
}

// The mark that wins for a key at a position, of those that a party is shown.
pub fn winner_at(
    heads: [Head; 8],
    pool: [Run; 512],
    table: Table,
    t: usize,
    who: Party,
    pos: u64,
    key: u16,
) -> Option<Mark>
    requires { Stands heads pool table t }
    ensures { result ≡ winner key ((shown_in heads pool table t who).at pos) }
{
    let h = heads[t];
    let marks = table.marks;
    styles::table::winner_of(
        marks,
        h.marks,
        seen_at(heads, pool, table, t, who, pos),
        key,
    )
}

// The marks that a party is shown at a position.
pub fn styles_at(
    heads: [Head; 8],
    pool: [Run; 512],
    table: Table,
    t: usize,
    who: Party,
    pos: u64,
) -> Styles
    requires { Stands heads pool table t }
    ensures { result ≡ styles_of ((shown_in heads pool table t who).at pos) }
{
    let h = heads[t];
    let marks = table.marks;
    styles::table::styles_of(marks, h.marks, seen_at(heads, pool, table, t, who, pos))
}

// The one of a rank among them, counting from 0.
pub fn ranked_at(
    heads: [Head; 8],
    pool: [Run; 512],
    table: Table,
    t: usize,
    who: Party,
    pos: u64,
    rank: u64,
) -> Option<Mark>
    requires { Stands heads pool table t }
    ensures { result ≡ rank_of ((shown_in heads pool table t who).at pos) rank }
{
    let h = heads[t];
    let marks = table.marks;
    styles::table::ranked(
        marks,
        h.marks,
        seen_at(heads, pool, table, t, who, pos),
        rank as usize,
    )
}

// The bits of the marks that an insertion at a position of tank t would get, of those that a party is shown.
fn seen_for_insert(
    heads: [Head; 8],
    pool: [Run; 512],
    table: Table,
    t: usize,
    who: Party,
    pos: u64,
) -> u64
    requires { (Stands heads pool table t) × (pos ≤ (get_or heads t no_head).length) }
    ensures { (pick (take (get_or heads t no_head).marks table.marks) result ≡ for_insert pos (shown_in heads pool table t who)) × (result < 2 ^ (get_or heads t no_head).marks) }
{
    let h = heads[t];
    if h.touched {
        let own = own_bits(heads, table, t, who);
        return styles::bits::both(common_in(heads, pool, t, pos), own);
    }
    0
}

// The marks that an insertion at a position would get, of those that a party is shown.
pub fn styles_for_insert(
    heads: [Head; 8],
    pool: [Run; 512],
    table: Table,
    t: usize,
    who: Party,
    pos: u64,
) -> Styles
    requires { (Stands heads pool table t) × (pos ≤ (get_or heads t no_head).length) }
    ensures { result ≡ styles_of (for_insert pos (shown_in heads pool table t who)) }
{
    let h = heads[t];
    let marks = table.marks;
    styles::table::styles_of(
        marks,
        h.marks,
        seen_for_insert(heads, pool, table, t, who, pos),
    )
}

// The one of a rank among them, counting from 0.
pub fn ranked_for_insert(
    heads: [Head; 8],
    pool: [Run; 512],
    table: Table,
    t: usize,
    who: Party,
    pos: u64,
    rank: u64,
) -> Option<Mark>
    requires { (Stands heads pool table t) × (pos ≤ (get_or heads t no_head).length) }
    ensures { result ≡ rank_of (for_insert pos (shown_in heads pool table t who)) rank }
{
    let h = heads[t];
    let marks = table.marks;
    styles::table::ranked(
        marks,
        h.marks,
        seen_for_insert(heads, pool, table, t, who, pos),
        rank as usize,
    )
}

// Whether a party is shown a mark with the key at some position of start .. end.
pub fn has_key(
    heads: [Head; 8],
    pool: [Run; 512],
    table: Table,
    t: usize,
    who: Party,
    start: u64,
    end: u64,
    key: u16,
) -> bool
    requires { (Stands heads pool table t) × (start < end) × (end ≤ (get_or heads t no_head).length) }
    ensures { result ≡ any_at (λ p. has_key key ((shown_in heads pool table t who).at p)) start end }
{
    let h = heads[t];
    let marks = table.marks;
    let own = own_bits(heads, table, t, who);
    let keyed = styles::table::key_bits(marks, h.marks, key);
    some_in(heads, pool, t, start, end, Test::Meets(own & keyed))
}

// Whether a party is shown the value for the key at every position of start .. end.
pub fn all_show(
    heads: [Head; 8],
    pool: [Run; 512],
    table: Table,
    t: usize,
    who: Party,
    start: u64,
    end: u64,
    key: u16,
    value: Value,
) -> bool
    requires { (Stands heads pool table t) × (start < end) × (end ≤ (get_or heads t no_head).length) }
    ensures { result ≡ all_at (λ p. shows_value key value ((shown_in heads pool table t who).at p)) start end }
{
    let h = heads[t];
    let marks = table.marks;
    let own = own_bits(heads, table, t, who);
    let keyed = styles::table::key_bits(marks, h.marks, key);
    let valued = styles::table::value_bits(marks, h.marks, value);
    !some_in(heads, pool, t, start, end, Test::Hides(own & keyed, valued))
}

// Whether a party is shown the same marks at all positions of start .. end.
pub fn agree(
    heads: [Head; 8],
    pool: [Run; 512],
    table: Table,
    t: usize,
    who: Party,
    start: u64,
    end: u64,
) -> bool
    requires { (Stands heads pool table t) × (start < end) × (end ≤ (get_or heads t no_head).length) }
    ensures { result ≡ all_at (λ p. same_marks ((shown_in heads pool table t who).at p) ((shown_in heads pool table t who).at start)) start end }
{
    let own = own_bits(heads, table, t, who);
    let first = styles::bits::both(set_in(heads, pool, t, start), own);
    !some_in(heads, pool, t, start, end, Test::Differs(own, first))
}

// From where to where the marks hold that a party is shown at a position.
pub fn stretch_in(
    heads: [Head; 8],
    pool: [Run; 512],
    table: Table,
    t: usize,
    who: Party,
    pos: u64,
) -> Reach
    requires { (Stands heads pool table t) × (pos < (get_or heads t no_head).length) }
    ensures { (result.first ≡ first_of (alike (shown_in heads pool table t who).at) pos) × (result.last ≡ last_of (alike (shown_in heads pool table t who).at) (shown_in heads pool table t who).length pos) }
{
    let own = own_bits(heads, table, t, who);
    reach_in(heads, pool, t, own, pos)
}
