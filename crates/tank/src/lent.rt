// The four edits of a tank whose runs stand in lent arrays: those before the call in `lens` and `sets`, those after it in `olens` and
// `osets`. No tank goes by value from step to step, and the table is asked and not handed on.
ghost use Rattle.std.specs.Prelude.{◌≡◌, [], ◌≤◌, ◌<◌, length};
ghost use Rattle.styles.specs.Bits.{with_bit};
ghost use Rattle.runs.specs.Edits.{Joined, CanEdit};
ghost use Rattle.runs.specs.Positions.{altered_at};
ghost use Rattle.runs.specs.Runs.{runs, set_at, SameBehind, changing, Canon};
ghost use Rattle.tank.specs.Rules.{annotating, inserting, deleting, removing, inserted_set, removed_first};
ghost use Rattle.tank.specs.State.{view};
ghost use Rattle.tank.specs.Lending.{tank_on, table_left, Fitting, kept_as, CanLend, Leaves, Trims, done_as, left_as};

use super::{Room, is_lab, judge_mark, room_for, shown_bits};
use refusal::Refusal;
use styles::{Identity, Mark, Party};

// A tank but for its runs and its marks, which are so many.
#[derive(Clone, Copy)]
pub struct Outline {
    pub touched: bool,
    pub length: u64,
    pub runs: usize,
    pub marks: usize,
}

// What becomes of a table: it stays, a mark enters at its place, or the marks of some bits are left.
#[derive(Clone, Copy)]
pub enum Tabled {
    Same,
    Entered(usize, Mark),
    Carried(u64),
}

// What an edit leaves beside the runs, and what it answers: whether anything has changed, the first position of a removal, and the bits of an
// insertion's set in the table before the call.
#[derive(Clone, Copy)]
pub struct Left {
    pub changed: bool,
    pub first: u64,
    pub shown: u64,
    pub length: u64,
    pub runs: usize,
    pub marks: usize,
    pub table: Tabled,
}

// The table after an edit.
pub fn table_left(table: [Mark; 64], n: usize, change: Tabled) -> [Mark; 64]
    requires { (n ≤ 64) × Fitting n change }
    ensures { result ≡ table_left change n table }
{
    match change {
        Tabled::Same => table,
        Tabled::Entered(i, mark) => styles::table::insert_mark(table, n, i, mark),
        Tabled::Carried(set) => {
            let kept = styles::table::styles_of(table, n, set);
            let marks = kept.marks;
            marks
        }
    }
}

// Nothing has changed.
fn kept(first: u64, h: Outline) -> Left
    ensures { done_as result ≡ kept_as 0 first h }
{
    Left {
        changed: false,
        first: first,
        shown: 0,
        length: h.length,
        runs: h.runs,
        marks: h.marks,
        table: Tabled::Same,
    }
}

// Mark i of the table laid on the positions start .. end.
fn lay(
    olens: &mut [u64],
    osets: &mut [u64],
    lens: &[u64],
    sets: &[u64],
    m: usize,
    all: u64,
    start: u64,
    end: u64,
    i: usize,
) -> usize
    requires { (i < 64) × (Canon (runs lens.now sets.now m) × ((start ≤ end) × (end ≤ all) × CanEdit all (altered_at start end (changing (with_bit i 0) 0) (set_at (runs lens.now sets.now m))) olens.old osets.old lens.now sets.now m all)) }
    ensures joined { Joined all (altered_at start end (changing (with_bit i 0) 0) (set_at (runs lens.now sets.now m))) (runs olens.new osets.new result) }
    ensures same_behind { SameBehind result olens.old osets.old olens.new osets.new }
{
    let bit = styles::bits::with_bit(0, i);
    runs::joined::alter(olens, osets, lens, sets, m, all, start, end, bit, 0)
}

// The marks that no position carries leave the table, and their bits leave the sets.
fn trim(sets: &mut [u64], h: Outline, first: u64) -> Left
    requires { h.runs ≤ length sets.old }
    ensures { Trims h first sets.old sets.new (done_as result) }
{
    let carried = runs::sets::union_of(sets, h.runs);
    let held = styles::bits::count(carried);
    if held == h.marks {
        return Left {
            changed: true,
            first: first,
            shown: 0,
            length: h.length,
            runs: h.runs,
            marks: h.marks,
            table: Tabled::Same,
        };
    }
    runs::sets::squeeze_sets(sets, h.runs, carried);
    Left {
        changed: true,
        first: first,
        shown: 0,
        length: h.length,
        runs: h.runs,
        marks: held,
        table: Tabled::Carried(carried),
    }
}

// Every position of start .. end gains the mark.
pub fn annotate(
    olens: &mut [u64],
    osets: &mut [u64],
    lens: &[u64],
    sets: &mut [u64],
    h: Outline,
    table: [Mark; 64],
    start: u64,
    end: u64,
    mark: Mark,
) -> Result<Left, Refusal>
    requires { CanLend (tank_on h lens.now sets.old table) olens.old osets.old }
    ensures { Leaves (annotating start end mark) (tank_on h lens.now sets.old table) olens.new osets.new [] 0 (left_as h result) }
{
    if end <= start {
        return Err(Refusal::EmptyRange);
    }
    if h.length < end {
        return Err(Refusal::PastEnd);
    }
    judge_mark(mark)?;
    let room = room_for(table, h.marks, mark);
    match room {
        Room::Clash => Err(Refusal::OtherContent),
        Room::Full => Err(Refusal::NoRoomForMark),
        Room::Known(i) => Ok(Left {
            changed: true,
            first: 0,
            shown: 0,
            length: h.length,
            runs: lay(olens, osets, lens, sets, h.runs, h.length, start, end, i),
            marks: h.marks,
            table: Tabled::Same,
        }),
        Room::New(i) => {
            runs::sets::open_sets(sets, h.runs, i);
            Ok(Left {
                changed: true,
                first: 0,
                shown: 0,
                length: h.length,
                runs: lay(olens, osets, lens, sets, h.runs, h.length, start, end, i),
                marks: h.marks + 1,
                table: Tabled::Entered(i, mark),
            })
        }
    }
}

// The positions start .. end go, and later ones move down. An untouched tank stays as it is. The lab deletes nothing.
pub fn delete(
    olens: &mut [u64],
    osets: &mut [u64],
    lens: &[u64],
    sets: &[u64],
    h: Outline,
    table: [Mark; 64],
    who: Party,
    start: u64,
    end: u64,
) -> Result<Left, Refusal>
    requires { CanLend (tank_on h lens.now sets.now table) olens.old osets.old }
    ensures { Leaves (deleting who start end) (tank_on h lens.now sets.now table) olens.new osets.new [] 0 (left_as h result) }
{
    if is_lab(who) {
        return Err(Refusal::PlantsWork);
    }
    if end <= start {
        return Err(Refusal::EmptyRange);
    }
    if h.length < end {
        return Err(Refusal::PastEnd);
    }
    if !h.touched {
        return Ok(kept(0, h));
    }
    let n = runs::joined::delete(olens, osets, lens, sets, h.runs, h.length, start, end);
    let u = Outline {
        touched: true,
        length: h.length - (end - start),
        runs: n,
        marks: h.marks,
    };
    Ok(trim(osets, u, 0))
}

// `len` positions more before `pos`, with the marks that both its neighbours carry: the answer is the bits of those that are the party's. An
// untouched tank stays as it is. The lab inserts nothing.
pub fn insert(
    olens: &mut [u64],
    osets: &mut [u64],
    lens: &[u64],
    sets: &[u64],
    h: Outline,
    table: [Mark; 64],
    who: Party,
    pos: u64,
    len: u64,
) -> Result<Left, Refusal>
    requires { CanLend (tank_on h lens.now sets.now table) olens.old osets.old }
    ensures { Leaves (inserting who pos len) (tank_on h lens.now sets.now table) olens.new osets.new (inserted_set who pos len (view (tank_on h lens.now sets.now table))) 0 (left_as h result) }
{
    if is_lab(who) {
        return Err(Refusal::PlantsWork);
    }
    if len == 0 {
        return Err(Refusal::EmptyRange);
    }
    if h.length < pos {
        return Err(Refusal::PastEnd);
    }
    if !h.touched {
        return Ok(kept(0, h));
    }
    if 9223372036854775807 - h.length < len {
        return Err(Refusal::TooLong);
    }
    let set = runs::scan::common_at(lens, sets, h.runs, h.length, pos);
    let shown = shown_bits(table, h.marks, set, who);
    let n = runs::joined::insert(olens, osets, lens, sets, h.runs, h.length, pos, len, set);
    Ok(Left {
        changed: true,
        first: 0,
        shown: shown,
        length: h.length + len,
        runs: n,
        marks: h.marks,
        table: Tabled::Same,
    })
}

// The longest stretch ending at `last` whose positions all carry the identity loses it.
pub fn remove(
    olens: &mut [u64],
    osets: &mut [u64],
    lens: &[u64],
    sets: &[u64],
    h: Outline,
    table: [Mark; 64],
    id: Identity,
    last: u64,
) -> Result<Left, Refusal>
    requires { CanLend (tank_on h lens.now sets.now table) olens.old osets.old }
    ensures { Leaves (removing id last) (tank_on h lens.now sets.now table) olens.new osets.new [] (removed_first id last (view (tank_on h lens.now sets.now table))) (left_as h result) }
{
    if h.length <= last {
        return Err(Refusal::PastEnd);
    }
    let Ok(place) = styles::table::placed(table, h.marks, id) else {
        return Ok(kept(last + 1, h));
    };
    let bit = styles::bits::with_bit(0, place);
    let first = runs::scan::back(lens, sets, h.runs, bit, last);
    let n = runs::joined::alter(
        olens,
        osets,
        lens,
        sets,
        h.runs,
        h.length,
        first,
        last + 1,
        0,
        bit,
    );
    let u = Outline {
        touched: h.touched,
        length: h.length,
        runs: n,
        marks: h.marks,
    };
    Ok(trim(osets, u, first))
}
