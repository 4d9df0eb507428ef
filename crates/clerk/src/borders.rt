// The anchors of one tank, written as its runs are walked through where they stand: at each boundary first the ends, then the starts, of the party's marks.
ghost use Rattle.std.specs.Prelude.{◌≡◌, ◌-◌, ◌≤◌, length};
ghost use Rattle.styles.specs.Bits.{pick};
ghost use Rattle.lists.specs.Anchors.{anchors, anchors_of, between};
ghost use Rattle.tanks.specs.Looks.{Stands, shown_in};
ghost use Rattle.answers.specs.Waiting.{Adds, piece_room};
ghost use Rattle.answers.specs.Replies.{anchors_say};

use answers::put_anchor;
use lists::anchors::{lacking, mark_anchor};
use richtext::AnchorType;
use styles::{Party, bits};
use tanks::{Head, Run, Table, look, pool};

// The anchors of a set of marks on one side of a boundary, the lowest bit first.
fn put_side(out: &mut [u8], at: usize, table: Table, pos: u64, side: AnchorType, set: u64) -> usize
    requires { (length table.marks ≡ 64) × (piece_room ≤ length out.old) }
    ensures { Adds out.old at (anchors_say (anchors_of pos side (pick table.marks set))) result out.new }
{
    let marks = table.marks;
    let mut k = at;
    let mut left = set;
    while 0 < left {
        let i = bits::lowest(left);
        k = put_anchor(out, k, mark_anchor(pos, side, marks[i]));
        left = bits::without_bit(left, i);
    }
    k
}

// The anchors between two sets; what ends at a boundary ends at the position before it. A side that is empty is not called for: every call copies the table.
fn put_border(out: &mut [u8], at: usize, table: Table, pos: u64, before: u64, behind: u64) -> usize
    requires { (length table.marks ≡ 64) × (piece_room ≤ length out.old) }
    ensures { Adds out.old at (anchors_say (between table.marks pos before behind)) result out.new }
{
    let ends = lacking(before, behind);
    let starts = lacking(behind, before);
    if ends == 0 {
        return put_side(out, at, table, pos, AnchorType::Start, starts);
    }
    let k = put_side(out, at, table, pos.saturating_sub(1), AnchorType::End, ends);
    if starts == 0 {
        return k;
    }
    put_side(out, k, table, pos, AnchorType::Start, starts)
}

// The anchors of a tank that is there.
pub fn put_anchors(
    heads: [Head; 8],
    pool: [Run; 512],
    table: Table,
    t: usize,
    who: Party,
    out: &mut [u8],
    at: usize,
) -> usize
    requires stands { Stands heads pool table t }
    requires piece_room_in_bounds { piece_room ≤ length out.old }
    ensures { Adds out.old at (anchors_say (anchors (shown_in heads pool table t who))) result out.new }
{
    let own = look::own_bits(heads, table, t, who);
    let from = pool::start(heads, t);
    let h = heads[t];
    let n = h.runs;
    let mut end: u64 = 0;
    let mut last: u64 = 0;
    let mut k = at;
    for i in 0..n {
        let r = pool[from + i];
        let next = r.set & own;
        let begun = end;
        end += r.len;
        if next != last {
            k = put_border(out, k, table, begun, last, next);
            last = next;
        }
    }
    put_border(out, k, table, end, last, 0)
}
