// The tanks' bands: the parties' marks, what is held, and the positions at the edges.
ghost use Rattle.std.specs.Prelude.{cond, [], ◌∷◌, ◌++◌, ◌≡◌, ◌+◌, ◌*◌, ◌≤◌, ◌<◌, ltb, length, take};
ghost use Rattle.answers.specs.Waiting.{Adds, piece_room};
ghost use Rattle.tank.specs.State as state;
ghost use Rattle.tanks.specs.House.{tank_at};
ghost use Rattle.tanks.specs.Pool.{meaning, Sound};
ghost use Rattle.picture.specs.Bands.{held_in, hatch_says, holds_say, room_of, label_says, tick_says, labelled, last_after, edge_says, edges_from, edges_say, break_says, name_says, runs_say, length_says, beside_says, empty_says, end_of, depth_of, sides_say, over_says, drawn_says, tank_says, tanks_say};

use crate::elements::{frame, number, part, rect, text_at};
use crate::lanes::{lab_side, side};
use crate::scale::{Band, place};
use pen::{between, say};
use questions::Told;
use styles::Party;
use tank::Tank;
use tanks::{Setting, Tanks};

// ---- What is held

// Has a stretch the hold key, whichever party's? A mark that says null holds too, as for a thinning plan.
fn held(t: Tank, hold: u64, from: u64, to: u64) -> bool
    requires { (state.Sound t) × (hold < 65536) }
    ensures { result ≡ held_in (state.view t) hold from to }
{
    let h = questions::range_contains_key(t, from, to, script::key_of(hold));
    match h {
        Told::Refused(_) => false,
        Told::No => false,
        Told::Yes => true,
    }
}

fn hatch_if(yes: bool, out: &mut [u8], at: usize, band: Band, from: u64, to: u64) -> usize
    requires { (piece_room ≤ length out.old) × (0 < band.end) }
    ensures { Adds out.old at (cond yes (hatch_says band from to) []) result out.new }
{
    if yes {
        let a = part(out, at, band, from, to);
        return say(out, a, b" class='held'/>\n");
    }
    at
}

fn holds(t: Tank, band: Band, hold: u64, list: &[u64], out: &mut [u8], at: usize) -> usize
    requires { (piece_room ≤ length out.old) × (state.Sound t) × (0 < band.end) }
    ensures { Adds out.old at (holds_say (state.view t) band hold list.now) result out.new }
{
    if 65535 < hold {
        return at;
    }
    let mut k = at;
    let mut left = list;
    while let [from, to, _, rest @ ..] = left {
        let yes = held(t, hold, *from, *to);
        k = hatch_if(yes, out, k, band, *from, *to);
        left = rest;
    }
    k
}

// ---- Positions at the edges

// How many units a number takes.
fn room_of(n: u64) -> u64
    ensures { (result ≡ room_of n) × (result ≤ 154) }
{
    let mut digits = [0u8; 20];
    let k = text::put_decimal(&mut digits, 0, n);
    text::wide(k) * 7 + 14
}

// A number under a place of a band.
fn label(out: &mut [u8], at: usize, x: u64, y: u64, n: u64) -> usize
    requires { (piece_room ≤ length out.old) × (x ≤ 900) }
    ensures { Adds out.old at (label_says x y n) result out.new }
{
    let a = text_at(out, at, b"edge", 225 + x, y);
    number(out, a, n, b"</text>\n")
}

// A tick under a place of a band.
fn tick(out: &mut [u8], at: usize, x: u64, y: u64) -> usize
    requires { (piece_room ≤ length out.old) × (x ≤ 900) }
    ensures { Adds out.old at (tick_says x y) result out.new }
{
    let a = between(out, at, b"<path class='tick' d='M", 225 + x, b" ");
    number(out, a, y, b"v5'/>\n")
}

// Is there room for a position at a place, behind the last label and before the right one?
fn labelled(end: u64, last: u64, x: u64) -> bool
    requires { (last ≤ 900) × (x ≤ 900) }
    ensures { result ≡ labelled end last x }
{
    let room = room_of(end);
    last + room <= x && x + room <= 900
}

// Where the last label is after an edge.
fn last_after(end: u64, last: u64, pos: u64) -> u64
    requires { (0 < end) × (last ≤ 900) }
    ensures { (result ≡ last_after end last pos) × (result ≤ 900) }
{
    let x = place(end, pos);
    if labelled(end, last, x) {
        return x;
    }
    last
}

// An edge of a stretch: its tick, and its position where there is room.
fn edge(out: &mut [u8], at: usize, end: u64, y: u64, last: u64, pos: u64) -> usize
    requires { (piece_room ≤ length out.old) × (0 < end) × (last ≤ 900) × (y ≤ 4200) }
    ensures { Adds out.old at (edge_says end y last pos) result out.new }
{
    let x = place(end, pos);
    let a = tick(out, at, x, y);
    if labelled(end, last, x) {
        return label(out, a, x, y + 17, pos);
    }
    a
}

// The two edges of each stretch of a list.
fn edges_of(out: &mut [u8], at: usize, end: u64, y: u64, list: &[u64]) -> usize
    requires { (piece_room ≤ length out.old) × (0 < end) × (y ≤ 4200) }
    ensures { Adds out.old at (edges_from end y 0 list.now) result out.new }
{
    let mut k = at;
    let mut last = 0;
    let mut left = list;
    while let [from, to, _, rest @ ..] = left {
        let middle = last_after(end, last, *from);
        let next = last_after(end, middle, *to);
        k = edge(out, k, end, y, last, *from);
        k = edge(out, k, end, y, middle, *to);
        last = next;
        left = rest;
    }
    k
}

// All edges, and the band's own two.
fn edges(out: &mut [u8], at: usize, end: u64, y: u64, list: &[u64]) -> usize
    requires { (piece_room ≤ length out.old) × (0 < end) × (y ≤ 4200) }
    ensures { Adds out.old at (edges_say end y list.now) result out.new }
{
    let a = edges_of(out, at, end, y, list);
    let b = label(out, a, 0, y + 17, 0);
    label(out, b, 900, y + 17, end)
}

// ---- A tank

// The sign that a tank goes on without marks behind its band.
fn broken(out: &mut [u8], at: usize, y: u64) -> usize
    requires { piece_room ≤ length out.old }
    ensures { Adds out.old at (break_says y) result out.new }
{
    let a = rect(out, at, 1125, y, 45, 40);
    let b = between(
        out,
        a,
        b" class='frame'/>\n<path class='gap' d='M1143 ",
        y,
        b"m0 -4h11l-12 48h-11z'/>\n",
    );
    let c = between(out, b, b"<path class='break' d='M1143 ", y, b"m0 -4l-12 48");
    between(out, c, b"M1154 ", y, b"m0 -4l-12 48'/>\n")
}

fn broken_if(yes: bool, out: &mut [u8], at: usize, y: u64) -> usize
    requires { piece_room ≤ length out.old }
    ensures { Adds out.old at (cond yes (break_says y) []) result out.new }
{
    if yes {
        return broken(out, at, y);
    }
    at
}

// A tank's number.
fn name(out: &mut [u8], at: usize, y: u64, t: u64) -> usize
    requires { piece_room ≤ length out.old }
    ensures { Adds out.old at (name_says y t) result out.new }
{
    let a = text_at(out, at, b"name", 30, y);
    between(out, a, b"Tank ", t, b"</text>\n")
}

// Its runs, its share and its limit.
fn runs_line(out: &mut [u8], at: usize, y: u64, runs: u64, x: Setting) -> usize
    requires { piece_room ≤ length out.old }
    ensures { Adds out.old at (runs_say y runs x) result out.new }
{
    let a = text_at(out, at, b"small", 30, y);
    let b = between(out, a, b"runs ", runs, b", share ");
    let c = number(out, b, x.share, b", limit ");
    number(out, c, x.limit, b"</text>\n")
}

// Its length.
fn length_line(out: &mut [u8], at: usize, y: u64, n: u64) -> usize
    requires { piece_room ≤ length out.old }
    ensures { Adds out.old at (length_says y n) result out.new }
{
    let a = text_at(out, at, b"small", 30, y);
    between(out, a, b"length ", n, b"</text>\n")
}

// The words beside a band.
fn beside(t: Tank, tank: u64, x: Setting, top: u64, out: &mut [u8], at: usize) -> usize
    requires { (piece_room ≤ length out.old) × (state.Sound t) × (top ≤ 4096) }
    ensures { Adds out.old at (beside_says (state.view t) tank x top) result out.new }
{
    let a = name(out, at, top + 12, tank);
    let b = runs_line(out, a, top + 28, text::wide(t.runs), x);
    length_line(out, b, top + 42, t.length)
}

// A tank without marks.
fn empty(top: u64, out: &mut [u8], at: usize) -> usize
    requires { (piece_room ≤ length out.old) × (top ≤ 4096) }
    ensures { Adds out.old at (empty_says top) result out.new }
{
    let band = Band {
        end: 0,
        top: top,
        height: 40,
    };
    let a = frame(out, at, band);
    let b = text_at(out, a, b"none", 675, top + 25);
    let c = say(out, b, b"no marks</text>\n");
    broken(out, c, top)
}

// Where the marked part of a list ends.
fn end_of(list: &[u64]) -> u64
    ensures { result ≡ end_of list.now }
{
    if list.len() < 3 {
        return 0;
    }
    list[list.len() - 2]
}

// How deep the bands of a tank are.
fn depth(t: Tank) -> u64
    requires { state.Sound t }
    ensures { (result ≡ depth_of (state.view t)) × (result ≤ 52) }
{
    if t.shared(Party::Plant) {
        return 52;
    }
    40
}

// The plant's marks, and the laboratory's under them.
fn sides(
    s: Tanks,
    tank: u64,
    keys: [u64; 12],
    end: u64,
    top: u64,
    out: &mut [u8],
    at: usize,
) -> usize
    requires { (piece_room ≤ length out.old) × (Sound s) × (0 < end) × (top ≤ 4000) }
    ensures { Adds out.old at (sides_say (meaning s) keys tank end top) result out.new }
{
    let plant = ask::shown(s, tank, Party::Plant);
    let upper = Band {
        end: end,
        top: top,
        height: 40,
    };
    let a = side(plant, keys, upper, out, at);
    let lab = ask::shown(s, tank, Party::Lab);
    let lower = Band {
        end: end,
        top: top + 42,
        height: 10,
    };
    lab_side(lab, keys, lower, out, a)
}

// What lies over them and under them.
fn over(t: Tank, hold: u64, end: u64, top: u64, list: &[u64], out: &mut [u8], at: usize) -> usize
    requires { (piece_room ≤ length out.old) × (state.Sound t) × (0 < end) × (top ≤ 4000) }
    ensures { Adds out.old at (over_says (state.view t) hold end top list.now) result out.new }
{
    let deep = depth(t);
    let band = Band {
        end: end,
        top: top,
        height: deep,
    };
    let a = holds(t, band, hold, list, out, at);
    let b = edges(out, a, end, top + deep + 1, list);
    broken_if(end < t.length, out, b, top)
}

// A tank's band, from the list of its marked stretches.
fn drawn(
    s: Tanks,
    t: Tank,
    tank: u64,
    keys: [u64; 12],
    hold: u64,
    top: u64,
    list: &[u64],
    out: &mut [u8],
    at: usize,
) -> usize
    requires { (piece_room ≤ length out.old) × (Sound s) × (state.Sound t) × (state.view t ≡ tank_at (meaning s) tank) × (top ≤ 4000) }
    ensures { Adds out.old at (drawn_says (meaning s) keys hold tank top list.now) result out.new }
{
    let end = end_of(list);
    if end < 1 {
        return empty(top, out, at);
    }
    let a = sides(s, tank, keys, end, top, out, at);
    over(t, hold, end, top, list, out, a)
}

// The same from the first n numbers of a list.
fn drawn_over(
    s: Tanks,
    t: Tank,
    tank: u64,
    keys: [u64; 12],
    hold: u64,
    top: u64,
    list: &[u64],
    n: usize,
    out: &mut [u8],
    at: usize,
) -> usize
    requires { (piece_room ≤ length out.old) × (Sound s) × (state.Sound t) × (state.view t ≡ tank_at (meaning s) tank) × (top ≤ 4000) × (n ≤ length list.now) }
    ensures { Adds out.old at (drawn_says (meaning s) keys hold tank top (take n list.now)) result out.new }
{
    drawn(s, t, tank, keys, hold, top, &list[..n], out, at)
}

// A tank: the words beside its band, and the band.
fn tank_drawn(s: Tanks, tank: usize, keys: [u64; 12], hold: u64, out: &mut [u8], at: usize) -> usize
    requires { (piece_room ≤ length out.old) × (Sound s) × (tank < 8) }
    ensures { Adds out.old at (tank_says (meaning s) keys hold tank) result out.new }
{
    let t = s.take(tank);
    let settings = s.settings;
    let x = settings[tank];
    let number = text::wide(tank);
    let top = 96 + number * 92;
    let mut list = [0u64; 1536];
    let listed = lists::list_whole(t, &mut list);
    let a = beside(t, number, x, top, out, at);
    drawn_over(s, t, number, keys, hold, top, &list, listed.count, out, a)
}

// The eight tanks.
pub fn tanks_drawn(s: Tanks, keys: [u64; 12], hold: u64, out: &mut [u8], at: usize) -> usize
    requires { (piece_room ≤ length out.old) × (Sound s) }
    ensures { Adds out.old at (tanks_say (meaning s) keys hold) result out.new }
{
    let mut k = at;
    for t in 0..8 {
        k = tank_drawn(s, t, keys, hold, out, k);
    }
    k
}
