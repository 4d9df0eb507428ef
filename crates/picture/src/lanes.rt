// The marks of a party in a tank's band: a lane for each key.
ghost use Rattle.std.specs.Prelude.{cond, [], ◌∷◌, ◌++◌, ◌≡◌, ◌+◌, ◌*◌, ◌/◌, ◌≤◌, ◌<◌, length, get_or, take};
ghost use Rattle.answers.specs.Waiting.{Adds, piece_room};
ghost use Rattle.tank.specs.State as state;
ghost use Rattle.lists.specs.Lists.{whole_list};
ghost use Rattle.questions.specs.Questions.{style_at};
ghost use Rattle.windows.specs.Windows.{shows_at};
ghost use Rattle.picture.specs.Lanes.{lane_in, key_within, any_key, occurs, higher_in, lanes_below, lane_count, behind_last, rows_of, bar_says, key_bars, is_from, higher_at, higher_bars, lane_says, lanes_say, higher_says, side_says, lab_says};

use crate::elements::{colour, frame, part, text_at};
use crate::scale::Band;
use pen::say;
use questions::{Asked, Shown};
use styles::Mark;
use tank::Tank;

// A row of a band: which key it shows, the key's place among those that have a colour, and where it lies.
#[derive(Clone, Copy)]
pub struct Lane {
    pub place: u64,
    pub key: u64,
    pub row: Band,
}

// The rows of a band, one for each lane.
#[derive(Clone, Copy)]
pub struct Rows {
    pub count: u64,
    pub band: Band,
}

// ---- Where a lane lies

// The first of n parts of a height, r of them.
fn down(r: u64, height: u64, n: u64) -> u64
    requires { (r ≤ n) × (0 < n) × (n ≤ 13) × (height ≤ 64) }
    ensures { (result ≡ r * height / n) × (result ≤ height) }
{
    r * height / n
}

// The r-th of n lanes that share the height of a band.
pub fn lane_in(band: Band, r: u64, n: u64) -> Band
    requires { (r < n) × (n ≤ 13) × (band.top ≤ 4096) × (band.height ≤ 64) }
    ensures { result ≡ lane_in band r n }
{
    let above = down(r, band.height, n);
    let below = down(r + 1, band.height, n);
    Band {
        end: band.end,
        top: band.top + above,
        height: below.saturating_sub(above).max(1),
    }
}

// ---- Which keys have one

fn within(least: u64, most: u64, m: Mark) -> bool
    ensures { result ≡ key_within least most m }
{
    let key = u64::from(m.key);
    least <= key && key <= most
}

// Has one of the first n marks of a table a key from `least` to `most`?
fn any_key(table: [Mark; 64], n: usize, least: u64, most: u64) -> bool
    requires { n ≤ 64 }
    ensures { result ≡ any_key least most (take n table) }
{
    table[..n].iter().any(|m| within(least, most, *m))
}

// Has a mark of the tank the key?
fn has(t: Tank, key: u64) -> bool
    requires { state.Sound t }
    ensures { result ≡ occurs (state.view t) key }
{
    key <= 65535 && any_key(t.table, t.marks, key, key)
}

// Has a mark of the tank a key from `least` on?
fn has_higher(t: Tank, least: u64) -> bool
    requires { state.Sound t }
    ensures { result ≡ higher_in (state.view t) least }
{
    any_key(t.table, t.marks, least, 65535)
}

// How many lanes the keys have.
fn key_count(t: Tank, keys: [u64; 12]) -> u64
    requires { state.Sound t }
    ensures { (result ≡ lanes_below (state.view t) keys 12) × (result ≤ 12) }
{
    let mut n = 0;
    for key in &keys {
        n += u64::from(has(t, *key));
    }
    n
}

// How many lanes there are.
fn lane_count(t: Tank, keys: [u64; 12], least: u64) -> u64
    requires { state.Sound t }
    ensures { (result ≡ lane_count (state.view t) keys least) × (result ≤ 13) }
{
    key_count(t, keys) + u64::from(has_higher(t, least))
}

// ---- Its bars

fn bar(out: &mut [u8], at: usize, lane: Lane, from: u64, to: u64) -> usize
    requires { (piece_room ≤ length out.old) × (0 < lane.row.end) }
    ensures { Adds out.old at (bar_says lane from to) result out.new }
{
    let row = lane.row;
    let a = part(out, at, row, from, to);
    colour(out, a, lane.place)
}

fn bar_if(yes: bool, out: &mut [u8], at: usize, lane: Lane, from: u64, to: u64) -> usize
    requires { (piece_room ≤ length out.old) × (0 < lane.row.end) }
    ensures { Adds out.old at (cond yes (bar_says lane from to) []) result out.new }
{
    if yes {
        return bar(out, at, lane, from, to);
    }
    at
}

// Is a value shown for a key at a position?
fn shows(t: Tank, key: u64, pos: u64) -> bool
    requires { (state.Sound t) × (key < 65536) }
    ensures { result ≡ shows_at (state.view t) key pos }
{
    let v = questions::value_at(t, pos, script::key_of(key));
    match v {
        Shown::Refused(_) => false,
        Shown::Nothing => false,
        Shown::Shows(_) => true,
    }
}

// A bar for each stretch of a list at which the lane's key shows a value.
fn key_bars(t: Tank, lane: Lane, list: &[u64], out: &mut [u8], at: usize) -> usize
    requires { (piece_room ≤ length out.old) × (state.Sound t) × (lane.key < 65536) × (0 < lane.row.end) }
    ensures { Adds out.old at (key_bars (state.view t) lane list.now) result out.new }
{
    let mut k = at;
    let mut left = list;
    while let [from, to, _, rest @ ..] = left {
        let yes = shows(t, lane.key, *from);
        k = bar_if(yes, out, k, lane, *from, *to);
        left = rest;
    }
    k
}

// Is the key of the mark of a rank at least so much?
fn is_from(t: Tank, least: u64, pos: u64, rank: u64) -> bool
    requires { state.Sound t }
    ensures { result ≡ is_from least (style_at pos rank (state.view t)) }
{
    let m = questions::style_at(t, pos, rank);
    match m {
        Asked::Refused(_) => false,
        Asked::Nothing => false,
        Asked::Found(m) => least <= text::wide16(m.key),
    }
}

// Is the highest key of a position's so many marks at least so much?
fn higher(t: Tank, least: u64, pos: u64, marks: u64) -> bool
    requires { state.Sound t }
    ensures { result ≡ higher_at (state.view t) least pos marks }
{
    is_from(t, least, pos, marks.saturating_sub(1))
}

// A bar for each stretch of a list that has a mark with the lane's key or a higher one.
fn higher_bars(t: Tank, lane: Lane, list: &[u64], out: &mut [u8], at: usize) -> usize
    requires { (piece_room ≤ length out.old) × (state.Sound t) × (0 < lane.row.end) }
    ensures { Adds out.old at (higher_bars (state.view t) lane list.now) result out.new }
{
    let mut k = at;
    let mut left = list;
    while let [from, to, marks, rest @ ..] = left {
        let some = higher(t, lane.key, *from, *marks);
        k = bar_if(some, out, k, lane, *from, *to);
        left = rest;
    }
    k
}

// ---- All lanes of a band

// The lane of a key, as the r-th, where the key occurs.
fn key_lane(
    t: Tank,
    key: u64,
    place: u64,
    r: u64,
    rows: Rows,
    list: &[u64],
    out: &mut [u8],
    at: usize,
) -> usize
    requires { (piece_room ≤ length out.old) × (state.Sound t) × (0 < rows.band.end) × (rows.band.top ≤ 4096) × (rows.band.height ≤ 64) × (rows.count ≤ 13) × (r + cond (occurs (state.view t) key) 1 0 ≤ rows.count) }
    ensures { Adds out.old at (lane_says (state.view t) rows list.now key place r) result out.new }
{
    if has(t, key) {
        let band = rows.band;
        let lane = Lane {
            place: place,
            key: key,
            row: lane_in(band, r, rows.count),
        };
        return key_bars(t, lane, list, out, at);
    }
    at
}

// The lanes of the twelve keys.
fn key_lanes(t: Tank, keys: [u64; 12], rows: Rows, list: &[u64], out: &mut [u8], at: usize) -> usize
    requires { (piece_room ≤ length out.old) × (state.Sound t) × (0 < rows.band.end) × (rows.band.top ≤ 4096) × (rows.band.height ≤ 64) × (rows.count ≤ 13) × (lanes_below (state.view t) keys 12 ≤ rows.count) }
    ensures { Adds out.old at (lanes_say (state.view t) rows keys list.now) result out.new }
{
    let mut k = at;
    let mut r = 0;
    for (j, key) in keys.iter().enumerate() {
        k = key_lane(t, *key, j as u64, r, rows, list, out, k);
        r += u64::from(has(t, *key));
    }
    k
}

// The lane of the higher keys, where there are some.
fn higher_lane(t: Tank, least: u64, rows: Rows, list: &[u64], out: &mut [u8], at: usize) -> usize
    requires { (piece_room ≤ length out.old) × (state.Sound t) × (0 < rows.band.end) × (rows.band.top ≤ 4096) × (rows.band.height ≤ 64) × (rows.count ≤ 13) × (cond (higher_in (state.view t) least) 1 0 ≤ rows.count) }
    ensures { Adds out.old at (higher_says (state.view t) rows least list.now) result out.new }
{
    if has_higher(t, least) {
        let band = rows.band;
        let lane = Lane {
            place: 12,
            key: least,
            row: lane_in(band, rows.count.saturating_sub(1), rows.count),
        };
        return higher_bars(t, lane, list, out, at);
    }
    at
}

// From which key on keys are higher than the twelve.
fn behind_last(keys: [u64; 12]) -> u64
    ensures { result ≡ behind_last keys }
{
    key_legend::keys::next(keys[11])
}

// The rows of a band.
fn rows_of(t: Tank, keys: [u64; 12], band: Band) -> Rows
    requires { state.Sound t }
    ensures { (result ≡ rows_of (state.view t) keys band) × (result.count ≤ 13) }
{
    let least = behind_last(keys);
    let count = lane_count(t, keys, least);
    Rows {
        count: count,
        band: band,
    }
}

// All lanes over a list of stretches.
fn lanes(t: Tank, keys: [u64; 12], band: Band, list: &[u64], out: &mut [u8], at: usize) -> usize
    requires { (piece_room ≤ length out.old) × (state.Sound t) × (0 < band.end) × (band.top ≤ 4096) × (band.height ≤ 64) }
    ensures { Adds out.old at (lanes_say (state.view t) (rows_of (state.view t) keys band) keys list.now ++ higher_says (state.view t) (rows_of (state.view t) keys band) (behind_last keys) list.now) result out.new }
{
    let rows = rows_of(t, keys, band);
    let a = key_lanes(t, keys, rows, list, out, at);
    let least = behind_last(keys);
    higher_lane(t, least, rows, list, out, a)
}

// All lanes over the first n numbers of a list.
fn lanes_over(
    t: Tank,
    keys: [u64; 12],
    band: Band,
    list: &[u64],
    n: usize,
    out: &mut [u8],
    at: usize,
) -> usize
    requires { (piece_room ≤ length out.old) × (state.Sound t) × (0 < band.end) × (band.top ≤ 4096) × (band.height ≤ 64) × (n ≤ length list.now) }
    ensures { Adds out.old at (lanes_say (state.view t) (rows_of (state.view t) keys band) keys (take n list.now) ++ higher_says (state.view t) (rows_of (state.view t) keys band) (behind_last keys) (take n list.now)) result out.new }
{
    lanes(t, keys, band, &list[..n], out, at)
}

// The band of a party's marks.
pub fn side(t: Tank, keys: [u64; 12], band: Band, out: &mut [u8], at: usize) -> usize
    requires { (piece_room ≤ length out.old) × (state.Sound t) × (0 < band.end) × (band.top ≤ 4096) × (band.height ≤ 64) }
    ensures { Adds out.old at (side_says (state.view t) keys band) result out.new }
{
    let mut list = [0u64; 1536];
    let listed = lists::list_whole(t, &mut list);
    let a = frame(out, at, band);
    lanes_over(t, keys, band, &list, listed.count, out, a)
}

// The laboratory's, where it has any.
pub fn lab_side(t: Tank, keys: [u64; 12], band: Band, out: &mut [u8], at: usize) -> usize
    requires { (piece_room ≤ length out.old) × (state.Sound t) × (0 < band.end) × (band.top ≤ 4096) × (band.height ≤ 64) }
    ensures { Adds out.old at (lab_says (state.view t) keys band) result out.new }
{
    if t.marks < 1 {
        return at;
    }
    let a = text_at(out, at, b"tiny", 219, band.top + 9);
    let b = say(out, a, b"lab</text>\n");
    side(t, keys, band, out, b)
}
