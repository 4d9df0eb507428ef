// The questions and lists of eight tanks, with the tank's number in front.
#![tactic(auto)]

pub mod parts; // parts.rt: questions of one tank, on the parts of a state that it stands in
pub mod listed; // listed.rt: lists of one tank, likewise
pub mod windowed; // windowed.rt: what shows in equal windows over one tank, likewise
pub mod anchored; // anchored.rt: how many anchors it has, likewise
mod records; // records.rt: its anchors as records

ghost use Rattle.std.specs.Prelude.{◌≡◌, [], length};
ghost use Rattle.lists.specs.Lists.{range_list, whole_list, range_number, whole_number, unless_refused, filled_beside};
ghost use Rattle.runs.specs.Stretches.{in_front};
ghost use Rattle.lists.specs.Anchors.{anchors, anchors_number};
ghost use Rattle.windows.specs.Windows.{windows};
ghost use Rattle.tanks.specs.House.{ask_number};
ghost use Rattle.tanks.specs.Pool.{meaning, Sound};
ghost use Rattle.ask.specs.Asks.{ask_at, ShownIn, no_list, value_asked, marks_asked, mark_asked, stretch_asked, inherit_asked, inherited_asked, key_asked, all_value_asked, same_asked, range_needed_asked, whole_needed_asked, anchors_needed_asked};

use lists::Listed;
use lists::anchors::Anchor;
use questions::{Asked, Extent, SetAsked, Shared, Shown, Told};
use styles::{Party, Value};
use tank::Tank;
use tanks::Tanks;

// A tank's number, and the party that asks.
#[derive(Clone, Copy)]
pub struct Spot {
    pub tank: u64,
    pub who: Party,
}

// What a party is shown of the tank; where there is no such tank, of a fresh one. A tank that the other party has no mark in is handed on without
// another copy.
pub fn shown(s: Tanks, tank: u64, who: Party) -> Tank
    requires { Sound s }
    ensures { ShownIn s tank who result }
{
    let t = s.take(tank as usize);
    if t.shared(who) {
        return t.only(who);
    }
    t
}

// The value shown for a key at a position. As in all questions that are asked of the parts, the tank is read where it stands; and the tables are taken
// out first, for an index that is not known beforehand copies all of what it is read from, which would be the state.
pub fn value_at(s: Tanks, tank: u64, who: Party, pos: u64, key: u16) -> Shown
    requires { Sound s }
    ensures { result ≡ value_asked (meaning s) tank who pos key }
{
    let heads = s.heads;
    let pool = s.pool;
    let tables = s.tables;
    let table = tables[tanks::place(tank)];
    parts::value_at(heads, pool, table, tank, who, pos, key)
}

// The marks that a position carries.
pub fn styles_at(s: Tanks, tank: u64, who: Party, pos: u64) -> SetAsked
    requires { Sound s }
    ensures { result ≡ marks_asked (meaning s) tank who pos }
{
    let heads = s.heads;
    let pool = s.pool;
    let tables = s.tables;
    let table = tables[tanks::place(tank)];
    parts::styles_at(heads, pool, table, tank, who, pos)
}

// The mark of a rank at a position.
pub fn style_at(s: Tanks, tank: u64, who: Party, pos: u64, rank: u64) -> Asked
    requires { Sound s }
    ensures { result ≡ mark_asked (meaning s) tank who pos rank }
{
    let heads = s.heads;
    let pool = s.pool;
    let tables = s.tables;
    let table = tables[tanks::place(tank)];
    parts::style_at(heads, pool, table, tank, who, pos, rank)
}

// From where to where the marks of a position hold.
pub fn stretch_at(s: Tanks, tank: u64, who: Party, pos: u64) -> Extent
    requires { Sound s }
    ensures { result ≡ stretch_asked (meaning s) tank who pos }
{
    let heads = s.heads;
    let pool = s.pool;
    let tables = s.tables;
    let table = tables[tanks::place(tank)];
    parts::stretch_at(heads, pool, table, tank, who, pos)
}

// The marks that an insertion would get.
pub fn get_styles_for_insert(s: Tanks, tank: u64, who: Party, pos: u64) -> SetAsked
    requires { Sound s }
    ensures { result ≡ inherit_asked (meaning s) tank who pos }
{
    let heads = s.heads;
    let pool = s.pool;
    let tables = s.tables;
    let table = tables[tanks::place(tank)];
    parts::get_styles_for_insert(heads, pool, table, tank, who, pos)
}

// The mark of a rank among those that an insertion would get.
pub fn style_for_insert(s: Tanks, tank: u64, who: Party, pos: u64, rank: u64) -> Asked
    requires { Sound s }
    ensures { result ≡ inherited_asked (meaning s) tank who pos rank }
{
    let heads = s.heads;
    let pool = s.pool;
    let tables = s.tables;
    let table = tables[tanks::place(tank)];
    parts::style_for_insert(heads, pool, table, tank, who, pos, rank)
}

// Has any position of start .. end a mark with the key?
pub fn range_contains_key(s: Tanks, tank: u64, who: Party, start: u64, end: u64, key: u16) -> Told
    requires { Sound s }
    ensures { result ≡ key_asked (meaning s) tank who start end key }
{
    let heads = s.heads;
    let pool = s.pool;
    let tables = s.tables;
    let table = tables[tanks::place(tank)];
    parts::range_contains_key(heads, pool, table, tank, who, start, end, key)
}

// Does every position of start .. end show the value for the key?
pub fn range_has_key_value(
    s: Tanks,
    tank: u64,
    who: Party,
    start: u64,
    end: u64,
    key: u16,
    value: Value,
) -> Told
    requires { Sound s }
    ensures { result ≡ all_value_asked (meaning s) tank who start end key value }
{
    let heads = s.heads;
    let pool = s.pool;
    let tables = s.tables;
    let table = tables[tanks::place(tank)];
    parts::range_has_key_value(heads, pool, table, tank, who, start, end, key, value)
}

// The marks that all positions of start .. end share.
pub fn get_styles_of_range(s: Tanks, tank: u64, who: Party, start: u64, end: u64) -> Shared
    requires { Sound s }
    ensures { result ≡ same_asked (meaning s) tank who start end }
{
    let heads = s.heads;
    let pool = s.pool;
    let tables = s.tables;
    let table = tables[tanks::place(tank)];
    parts::get_styles_of_range(heads, pool, table, tank, who, start, end)
}

// Which of eight keys is the first that shows a value in each window of k positions from `start` on, 8 for none: every place of `out` is a window,
// and positions past the length show nothing. Returns 0; or 1 where there is no such tank, and then it writes nothing.
pub fn first_shown(
    s: Tanks,
    tank: u64,
    who: Party,
    keys: [u16; 8],
    start: u64,
    k: u64,
    out: &mut [u64],
) -> u64
    requires { Sound s }
    ensures value { result ≡ ask_number tank }
    ensures out_after { out.new ≡ ask_at (meaning s) tank who out.old (λ v. windows v keys start k (length out.old)) }
{
    let heads = s.heads;
    let pool = s.pool;
    let tables = s.tables;
    let table = tables[tanks::place(tank)];
    windowed::first_shown(heads, pool, table, tank, who, keys, start, k, out)
}

// No such tank: no list.
fn no_list() -> Listed
    ensures { result ≡ no_list }
{
    Listed {
        number: 1,
        count: 0,
    }
}

// A count as an answer.
fn counted(count: usize) -> Listed
    ensures { (result.number ≡ 0) × (result.count ≡ count) }
{
    Listed {
        number: 0,
        count: count,
    }
}

// How many u64 the list of stretches over start .. end takes.
pub fn stretches_needed(s: Tanks, tank: u64, who: Party, start: u64, end: u64) -> Listed
    requires { Sound s }
    ensures { result ≡ range_needed_asked (meaning s) tank who start end }
{
    let heads = s.heads;
    let pool = s.pool;
    let tables = s.tables;
    let table = tables[tanks::place(tank)];
    listed::stretches_needed(heads, pool, table, tank, who, start, end)
}

// How many u64 the list of the whole tank takes.
pub fn whole_needed(s: Tanks, tank: u64, who: Party) -> Listed
    requires { Sound s }
    ensures { result ≡ whole_needed_asked (meaning s) tank who }
{
    let heads = s.heads;
    let pool = s.pool;
    let tables = s.tables;
    let table = tables[tanks::place(tank)];
    listed::whole_needed(heads, pool, table, tank, who)
}

// How many anchors the tank has.
pub fn anchors_needed(s: Tanks, tank: u64, who: Party) -> Listed
    requires { Sound s }
    ensures { result ≡ anchors_needed_asked (meaning s) tank who }
{
    let heads = s.heads;
    let pool = s.pool;
    let tables = s.tables;
    let table = tables[tanks::place(tank)];
    anchored::anchors_needed(heads, pool, table, tank, who)
}

// The stretches over start .. end, at the front of a lent buffer.
pub fn list_range(s: Tanks, tank: u64, who: Party, start: u64, end: u64, out: &mut [u64]) -> Listed
    requires { Sound s }
    ensures value { result ≡ ask_at (meaning s) tank who no_list (λ v. filled_beside (range_number start end (length out.old) v) (range_list start end v)) }
    ensures out_after { out.new ≡ ask_at (meaning s) tank who out.old (λ v. in_front (unless_refused (range_number start end (length out.old) v) (range_list start end v)) out.old) }
{
    let heads = s.heads;
    let pool = s.pool;
    let tables = s.tables;
    let table = tables[tanks::place(tank)];
    listed::list_range(heads, pool, table, tank, who, start, end, out)
}

// The marked stretches of the whole tank, at the front of a lent buffer.
pub fn list_whole(s: Tanks, tank: u64, who: Party, out: &mut [u64]) -> Listed
    requires { Sound s }
    ensures value { result ≡ ask_at (meaning s) tank who no_list (λ v. filled_beside (whole_number (length out.old) v) (whole_list v)) }
    ensures out_after { out.new ≡ ask_at (meaning s) tank who out.old (λ v. in_front (unless_refused (whole_number (length out.old) v) (whole_list v)) out.old) }
{
    let heads = s.heads;
    let pool = s.pool;
    let tables = s.tables;
    let table = tables[tanks::place(tank)];
    listed::list_whole(heads, pool, table, tank, who, out)
}

// The stretches over start .. end: the front part of `out` that they fill, and the empty part where `list_range` refuses.
pub fn iter_range(
    s: Tanks,
    tank: u64,
    who: Party,
    start: u64,
    end: u64,
    out: &mut [u64],
) -> &mut [u64]
    requires { Sound s }
    ensures result_value { result.now ≡ ask_at (meaning s) tank who [] (λ v. unless_refused (range_number start end (length out.old) v) (range_list start end v)) }
    ensures ref_ptr_value { result.ref_ptr ≡ out.entry.ref_ptr }
{
    let listed = list_range(s, tank, who, start, end, out);
    let n = listed.count;
    &mut out[..n]
}

// The marked stretches of the whole tank: the front part of `out` that they fill, and the empty part where `list_whole` refuses.
pub fn iter(s: Tanks, tank: u64, who: Party, out: &mut [u64]) -> &mut [u64]
    requires { Sound s }
    ensures result_value { result.now ≡ ask_at (meaning s) tank who [] (λ v. unless_refused (whole_number (length out.old) v) (whole_list v)) }
    ensures ref_ptr_value { result.ref_ptr ≡ out.entry.ref_ptr }
{
    let whole = list_whole(s, tank, who, out);
    let filled = whole.count;
    &mut out[..filled]
}

// The refusal of the tank's number: 1, or 0 for none.
fn missing(spot: Spot) -> u64
    ensures { result ≡ ask_number spot.tank }
{
    if 8 <= spot.tank {
        return 1;
    }
    0
}

// What the party is shown of the tank; where there is no such tank, a fresh one, whose list is then refused.
fn own(s: Tanks, spot: Spot) -> Tank
    requires { Sound s }
    ensures { ShownIn s spot.tank spot.who result }
{
    let who = spot.who;
    shown(s, spot.tank, who)
}

// The anchors of the party's marks, at the front of `out`. Records past the count stay; a refusal writes nothing.
pub fn iter_anchors(s: Tanks, spot: Spot, out: &mut [Anchor]) -> Listed
    requires { Sound s }
    ensures { (result ≡ ask_at (meaning s) spot.tank spot.who no_list (λ v. filled_beside (anchors_number (length out.old) v) (anchors v))) × (out.new ≡ ask_at (meaning s) spot.tank spot.who out.old (λ v. in_front (unless_refused (anchors_number (length out.old) v) (anchors v)) out.old)) }
{
    let place = records::placed(s, spot);
    let number = missing(spot);
    records::iter_anchors(place, number, out)
}
