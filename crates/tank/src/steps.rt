// The steps that edits are made of. Between two of them the table may have marks that no position carries.
ghost use Rattle.std.specs.Prelude.{◌≡◌, true, get_or, ◌^◌};
ghost use Rattle.std.specs.Int.Bits.{bit_or};
ghost use Rattle.styles.specs.Order.{id_of};
ghost use Rattle.styles.specs.Marks.{blank, insert_at};
ghost use Rattle.styles.specs.Bits.{open_bit};
ghost use Rattle.runs.specs.Gather.{gather};
ghost use Rattle.tank.specs.Rules.{shown_to, after_annotate, after_insert, after_delete, stripped};
ghost use Rattle.tank.specs.State.{runs_of, table_of, view, Laid};
ghost use Rattle.tank.specs.Steps.{Stepped, Trimmed, CanLay, CanAdmit, CanCut, CanGrow, CanStrip, CanNarrow};

use super::Tank;
use styles::{Mark, Party};

// Mark i of the table laid on the positions start .. end.
pub fn lay(t: Tank, start: u64, end: u64, i: usize) -> Tank
    requires { CanLay t start end i }
    ensures { Stepped (after_annotate start end (get_or (table_of t) i blank) (view t)) (table_of t) (bit_or (gather (runs_of t)) (2 ^ i)) result }
{
    let lens = t.lens;
    let sets = t.sets;
    let m = t.runs;
    let all = t.length;
    let table = t.table;
    let bit = styles::bits::with_bit(0, i);
    let mut olens = [0u64; 514];
    let mut osets = [0u64; 514];
    let n = runs::alter(
        &mut olens, &mut osets, &lens, &sets, m, all, start, end, bit, 0,
    );
    Tank {
        touched: true,
        length: all,
        runs: n,
        marks: t.marks,
        lens: olens,
        sets: osets,
        table: table,
    }
}

// A mark put into the table at place i, where no position carries it yet.
pub fn admit(t: Tank, i: usize, mark: Mark) -> Tank
    requires { CanAdmit t i mark }
    ensures { Stepped (view t) (insert_at i mark (table_of t)) (open_bit i (gather (runs_of t))) result }
{
    let lens = t.lens;
    let mut sets = t.sets;
    let m = t.runs;
    let table = t.table;
    let marks = t.marks;
    runs::sets::open_sets(&mut sets, m, i);
    let next = styles::table::insert_mark(table, marks, i, mark);
    Tank {
        touched: t.touched,
        length: t.length,
        runs: m,
        marks: marks + 1,
        lens: lens,
        sets: sets,
        table: next,
    }
}

// The marks that no position carries leave the table.
pub fn trim(t: Tank) -> Tank
    requires { (Laid t) × (t.touched ≡ true) }
    ensures { Trimmed t result }
{
    let lens = t.lens;
    let mut sets = t.sets;
    let m = t.runs;
    let table = t.table;
    let marks = t.marks;
    let carried = runs::sets::union_of(&sets, m);
    if styles::bits::count(carried) == marks {
        return t;
    }
    runs::sets::squeeze_sets(&mut sets, m, carried);
    let kept = styles::table::styles_of(table, marks, carried);
    let next = kept.marks;
    Tank {
        touched: true,
        length: t.length,
        runs: m,
        marks: kept.count,
        lens: lens,
        sets: sets,
        table: next,
    }
}

// The positions start .. end taken away.
pub fn cut(t: Tank, start: u64, end: u64) -> Tank
    requires { CanCut t start end }
    ensures { (Laid result) × (view result ≡ after_delete start end (view t)) }
{
    let lens = t.lens;
    let sets = t.sets;
    let m = t.runs;
    let all = t.length;
    let table = t.table;
    let mut olens = [0u64; 514];
    let mut osets = [0u64; 514];
    let n = runs::delete(&mut olens, &mut osets, &lens, &sets, m, all, start, end);
    Tank {
        touched: true,
        length: all - (end - start),
        runs: n,
        marks: t.marks,
        lens: olens,
        sets: osets,
        table: table,
    }
}

// `len` positions more before `pos`, with the set that its neighbours have in common.
pub fn grow(t: Tank, pos: u64, len: u64, set: u64) -> Tank
    requires { CanGrow t pos len set }
    ensures { Stepped (after_insert pos len (view t)) (table_of t) (gather (runs_of t)) result }
{
    let lens = t.lens;
    let sets = t.sets;
    let m = t.runs;
    let all = t.length;
    let table = t.table;
    let mut olens = [0u64; 514];
    let mut osets = [0u64; 514];
    let n = runs::insert(&mut olens, &mut osets, &lens, &sets, m, all, pos, len, set);
    Tank {
        touched: true,
        length: all + len,
        runs: n,
        marks: t.marks,
        lens: olens,
        sets: osets,
        table: table,
    }
}

// Mark i of the table taken off the positions start .. end.
pub fn strip(t: Tank, start: u64, end: u64, i: usize) -> Tank
    requires { CanStrip t start end i }
    ensures { (Laid result) × (view result ≡ stripped (id_of (get_or (table_of t) i blank)) start end (view t)) }
{
    let lens = t.lens;
    let sets = t.sets;
    let m = t.runs;
    let all = t.length;
    let table = t.table;
    let bit = styles::bits::with_bit(0, i);
    let mut olens = [0u64; 514];
    let mut osets = [0u64; 514];
    let n = runs::alter(
        &mut olens, &mut osets, &lens, &sets, m, all, start, end, 0, bit,
    );
    Tank {
        touched: t.touched,
        length: all,
        runs: n,
        marks: t.marks,
        lens: olens,
        sets: osets,
        table: table,
    }
}

// The bits of `gone`, those of the other party's marks, taken off every set.
pub fn narrow(t: Tank, who: Party, gone: u64) -> Tank
    requires { CanNarrow t who gone }
    ensures { (Laid result) × (view result ≡ shown_to who (view t)) }
{
    let lens = t.lens;
    let sets = t.sets;
    let m = t.runs;
    let all = t.length;
    let table = t.table;
    let mut olens = [0u64; 514];
    let mut osets = [0u64; 514];
    let n = runs::alter(
        &mut olens, &mut osets, &lens, &sets, m, all, 0, all, 0, gone,
    );
    Tank {
        touched: t.touched,
        length: all,
        runs: n,
        marks: t.marks,
        lens: olens,
        sets: osets,
        table: table,
    }
}
