// The questions on one tank. None walks a range by positions: each looks at the runs, and at the table once.
#![tactic(auto)]

ghost use Rattle.std.specs.Prelude.{◌≡◌, false, [], ◌≤◌, ◌<◌, ◌^◌};
ghost use Rattle.styles.specs.Bits.{pick};
ghost use Rattle.runs.specs.Runs.{set_at, Found};
ghost use Rattle.tank.specs.Rules.{runs_held, for_insert};
ghost use Rattle.tank.specs.State.{runs_of, table_of, view, Formed};
ghost use Rattle.questions.specs.Questions.{told_of, shown_value, shown_of, asked_of, set_of, shared_of, extent_of};
ghost use Rattle.questions.specs.Questions.{value_at, styles_at, style_at, stretch_at, styles_for_insert, style_for_insert, range_contains_key, range_has_key_value, styles_of_range};

use runs::Place;
use styles::table::no_marks;
use styles::{Mark, Styles, Value};
use tank::Tank;

// The answer of a yes/no question, or the refusal's number.
#[derive(Clone, Copy)]
pub enum Told {
    Refused(u64),
    No,
    Yes,
}

// The value shown for a key, or the refusal's number; nothing where no mark has the key, and where the winner says null.
#[derive(Clone, Copy)]
pub enum Shown {
    Refused(u64),
    Nothing,
    Shows(Value),
}

// The mark of a rank, or the refusal's number; past the last there is none.
#[derive(Clone, Copy)]
pub enum Asked {
    Refused(u64),
    Nothing,
    Found(Mark),
}

// A set of marks, beside 0 or the refusal's number.
#[derive(Clone, Copy)]
pub struct SetAsked {
    pub number: u64,
    pub styles: Styles,
}

// Do all positions agree, and in which set? Beside 0 or the refusal's number. The empty set may be the one that they share.
#[derive(Clone, Copy)]
pub struct Shared {
    pub number: u64,
    pub agree: bool,
    pub styles: Styles,
}

// From where to where a stretch goes, both ends in it, beside 0 or the refusal's number.
#[derive(Clone, Copy)]
pub struct Extent {
    pub number: u64,
    pub first: u64,
    pub last: u64,
}

// A test as an answer.
pub fn tell(yes: bool) -> Told
    ensures { result ≡ told_of 0 yes }
{
    if yes { Told::Yes } else { Told::No }
}

// What a mark shows: null is a mark taken off.
fn show_mark(m: Mark) -> Shown
    ensures { result ≡ shown_value m.value }
{
    let v = m.value;
    if styles::values::is_null(v) {
        return Shown::Nothing;
    }
    Shown::Shows(v)
}

// What a winner shows.
pub fn show(w: Option<Mark>) -> Shown
    ensures { result ≡ shown_of 0 w }
{
    match w {
        None => Shown::Nothing,
        Some(m) => show_mark(m),
    }
}

// The mark of a rank as an answer.
pub fn found(m: Option<Mark>) -> Asked
    ensures { result ≡ asked_of 0 m }
{
    match m {
        None => Asked::Nothing,
        Some(m) => Asked::Found(m),
    }
}

// The empty set, beside a number.
pub fn no_set(number: u64) -> SetAsked
    ensures { result ≡ set_of number [] }
{
    SetAsked {
        number: number,
        styles: no_marks(),
    }
}

// No set that all positions share, beside a number.
pub fn not_shared(number: u64) -> Shared
    ensures { result ≡ shared_of number false [] }
{
    Shared {
        number: number,
        agree: false,
        styles: no_marks(),
    }
}

// No stretch, beside a refusal's number.
pub fn no_extent(number: u64) -> Extent
    ensures { result ≡ extent_of number 0 0 }
{
    Extent {
        number: number,
        first: 0,
        last: 0,
    }
}

// The run that a position is in.
fn place_at(t: Tank, pos: u64) -> Place
    requires { (Formed t) × (pos < t.length) }
    ensures { (Found t.lens t.runs pos result.index result.start result.end) × (result.index < t.runs) }
{
    let lens = t.lens;
    runs::find(&lens, t.runs, t.length, pos)
}

// The bits of the marks at a position.
fn set_at(t: Tank, pos: u64) -> u64
    requires { Formed t }
    ensures { (result ≡ set_at (runs_of t) pos) × (result < 2 ^ t.marks) }
{
    let lens = t.lens;
    let sets = t.sets;
    runs::set_at(&lens, &sets, t.runs, t.length, pos)
}

// The bits of the marks that an insertion would get.
fn set_for_insert(t: Tank, pos: u64) -> u64
    requires { (Formed t) × (pos ≤ t.length) }
    ensures { (pick (table_of t) result ≡ for_insert pos (view t)) × (result < 2 ^ t.marks) }
{
    if !t.touched {
        return 0;
    }
    let lens = t.lens;
    let sets = t.sets;
    runs::scan::common_at(&lens, &sets, t.runs, t.length, pos)
}

// How many positions.
pub fn length(t: Tank) -> u64
    ensures { result ≡ (view t).length }
{
    t.length
}

// Has a mark ever been laid on it?
pub fn has_style(t: Tank) -> bool
    ensures { result ≡ (view t).touched }
{
    t.touched
}

// How many runs it holds.
pub fn runs(t: Tank) -> usize
    requires { Formed t }
    ensures { result ≡ runs_held (view t) }
{
    t.runs
}

// The value shown for a key at a position.
pub fn value_at(t: Tank, pos: u64, key: u16) -> Shown
    requires { Formed t }
    ensures { result ≡ value_at pos key (view t) }
{
    if t.length <= pos {
        return Shown::Refused(4);
    }
    let table = t.table;
    show(styles::table::winner_of(table, t.marks, set_at(t, pos), key))
}

// The marks at a position.
pub fn styles_at(t: Tank, pos: u64) -> SetAsked
    requires { Formed t }
    ensures { result ≡ styles_at pos (view t) }
{
    if t.length <= pos {
        return no_set(4);
    }
    let table = t.table;
    let styles = styles::table::styles_of(table, t.marks, set_at(t, pos));
    SetAsked {
        number: 0,
        styles: styles,
    }
}

// The mark of a rank at a position, counting from 0.
pub fn style_at(t: Tank, pos: u64, rank: u64) -> Asked
    requires { Formed t }
    ensures { result ≡ style_at pos rank (view t) }
{
    if t.length <= pos {
        return Asked::Refused(4);
    }
    let table = t.table;
    found(styles::table::ranked(table, t.marks, set_at(t, pos), rank as usize))
}

// From where to where the marks of a position hold.
pub fn stretch_at(t: Tank, pos: u64) -> Extent
    requires { Formed t }
    ensures { result ≡ stretch_at pos (view t) }
{
    if t.length <= pos {
        return no_extent(4);
    }
    let f = place_at(t, pos);
    Extent {
        number: 0,
        first: f.start,
        last: f.end - 1,
    }
}

// The marks that an insertion at a position would get.
pub fn get_styles_for_insert(t: Tank, pos: u64) -> SetAsked
    requires { Formed t }
    ensures { result ≡ styles_for_insert pos (view t) }
{
    if t.length < pos {
        return no_set(4);
    }
    let table = t.table;
    let styles = styles::table::styles_of(table, t.marks, set_for_insert(t, pos));
    SetAsked {
        number: 0,
        styles: styles,
    }
}

// The mark of a rank among those, counting from 0.
pub fn style_for_insert(t: Tank, pos: u64, rank: u64) -> Asked
    requires { Formed t }
    ensures { result ≡ style_for_insert pos rank (view t) }
{
    if t.length < pos {
        return Asked::Refused(4);
    }
    let table = t.table;
    found(styles::table::ranked(table, t.marks, set_for_insert(t, pos), rank as usize))
}

// Has any position of start .. end a mark with this key?
pub fn range_contains_key(t: Tank, start: u64, end: u64, key: u16) -> Told
    requires { Formed t }
    ensures { result ≡ range_contains_key start end key (view t) }
{
    if end <= start {
        return Told::No;
    }
    if t.length < end {
        return Told::Refused(4);
    }
    if !t.touched {
        return Told::No;
    }
    let lens = t.lens;
    let sets = t.sets;
    let table = t.table;
    let mask = styles::table::key_bits(table, t.marks, key);
    tell(runs::scan::any_in(&lens, &sets, t.runs, start, end, mask))
}

// Does every position of start .. end show this value for this key?
pub fn range_has_key_value(t: Tank, start: u64, end: u64, key: u16, value: Value) -> Told
    requires { Formed t }
    ensures { result ≡ range_has_key_value start end key value (view t) }
{
    if end <= start {
        return Told::No;
    }
    if t.length < end {
        return Told::Refused(4);
    }
    if styles::values::value_is_nan(value) {
        return Told::Refused(6);
    }
    if !t.touched {
        return Told::No;
    }
    let lens = t.lens;
    let sets = t.sets;
    let table = t.table;
    let keyed = styles::table::key_bits(table, t.marks, key);
    let valued = styles::table::value_bits(table, t.marks, value);
    tell(runs::scan::all_show(&lens, &sets, t.runs, start, end, keyed, valued))
}

// The set that all positions of start .. end have, if they agree.
pub fn get_styles_of_range(t: Tank, start: u64, end: u64) -> Shared
    requires { Formed t }
    ensures { result ≡ styles_of_range start end (view t) }
{
    if end <= start {
        return not_shared(3);
    }
    if t.length < end {
        return not_shared(4);
    }
    if !t.touched {
        return not_shared(0);
    }
    let sets = t.sets;
    let table = t.table;
    let f = place_at(t, start);
    if f.end < end {
        return not_shared(0);
    }
    let i = f.index;
    let styles = styles::table::styles_of(table, t.marks, sets[i]);
    Shared {
        number: 0,
        agree: true,
        styles: styles,
    }
}
