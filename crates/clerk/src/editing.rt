// The four edits of one tank: the one that a call asks for, and its answer.
ghost use Rattle.std.specs.Prelude.{◌≡◌, ◌≤◌, ◌<◌, ◌^◌, length, take};
ghost use Rattle.styles.specs.Answers.{styles_of};
ghost use Rattle.styles.specs.Bits.{pick};
ghost use Rattle.answers.specs.Waiting.{Adds, piece_room};
ghost use Rattle.tanks.specs.Pool.{Sound};
ghost use Rattle.clerk.specs.Calls.{change_kind, edit_says, Edits};

use super::Kind;
use answers::{accept, first_or, set_or};
use script::{Call, Change};
use styles::Party;
use tanks::{Edit, Head, Table, Tanks};

// Which of the four a call by a party is, with the numbers that were read.
pub fn change_kind(e: Change, who: Party, call: Call) -> Kind
    ensures { result ≡ change_kind e who call }
{
    let n = call.numbers;
    match e {
        Change::Open => Kind::Other,
        Change::Annotate => Kind::Edits(Edit::Annotate(n[1], n[2], script::mark_of(who, call))),
        Change::Insert => Kind::Edits(Edit::Insert(who, n[1], n[2])),
        Change::Delete => Kind::Edits(Edit::Delete(who, n[1], n[2])),
        Change::Remove => Kind::Edits(Edit::Remove(script::identity_of(who, call), n[4])),
        Change::Age => Kind::Other,
    }
}

// The answer to an edit, from what it handed back; what an insertion shows are bits of the tank's table before it.
pub fn answered(
    edit: Edit,
    h: Head,
    table: Table,
    number: u64,
    shown: u64,
    first: u64,
    out: &mut [u8],
    at: usize,
) -> usize
    requires marks_bound { (h.marks ≤ 64) × (shown < 2 ^ h.marks) }
    requires piece_room_in_bounds { piece_room ≤ length out.old }
    ensures { Adds out.old at (edit_says edit number (styles_of (pick (take h.marks table.marks) shown)) first) result out.new }
{
    match edit {
        Edit::Annotate(_, _, _) => accept(out, at, number),
        Edit::Insert(_, _, _) => {
            let marks = table.marks;
            set_or(
                out,
                at,
                number,
                styles::table::styles_of(marks, h.marks, shown),
            )
        }
        Edit::Delete(_, _, _) => accept(out, at, number),
        Edit::Remove(_, _) => first_or(out, at, number, first),
    }
}

// The edit made where the state stands, and its answer: the head and the table that it is written by are those before it.
pub fn edited(tanks: &mut Tanks, tank: u64, edit: Edit, out: &mut [u8], at: usize) -> usize
    requires sound { Sound tanks.old }
    requires piece_room_in_bounds { piece_room ≤ length out.old }
    ensures { Edits edit tanks.old tank out.old at tanks.new result out.new }
{
    let u = tanks::place(tank);
    let heads = tanks.heads;
    let h = heads[u];
    let table = tanks.tables[u];
    match tanks.apply(tank, edit) {
        Ok(shown) => answered(edit, h, table, 0, shown.bits, shown.first, out, at),
        Err(refusal) => answered(edit, h, table, refusal.number(), 0, 0, out, at),
    }
}
