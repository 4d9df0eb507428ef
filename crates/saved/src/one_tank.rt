// The lines of one tank.
ghost use Rattle.std.specs.Prelude.{◌≡◌, cond, ◌&&◌, ◌-◌, ◌^◌, ◌≤◌, ◌<◌, eqb, length, replicate, take};
ghost use Rattle.text.specs.Bytes.{bytes};
ghost use Rattle.text_lines.specs.Lines.{decimal_from, taken_by};
ghost use Rattle.styles.specs.Marks.{blank};
ghost use Rattle.tank.specs.Rules.{fresh_length, largest};
ghost use Rattle.saved.specs.Saying.{roomy};
ghost use Rattle.saved.specs.Reads.{head_with, tank_with, ReadsHead, ReadsTank};

use super::marks::marks_lines;
use super::spans::runs_lines;
use super::{ReadMarks, ReadRuns, TankHead, TankLine};
use styles::{Mark, Party};
use tank::Tank;

// The bounds of an untouched tank's lines, and of a touched one's.
fn least_length(touched: bool) -> u64
    ensures { result ≡ cond touched 0 fresh_length }
{
    if touched { 0 } else { 4611686018427387903 }
}

fn most_length(touched: bool) -> u64
    ensures { result ≡ cond touched largest fresh_length }
{
    if touched {
        9223372036854775807
    } else {
        4611686018427387903
    }
}

fn most_marks(touched: bool) -> u64
    ensures { result ≡ cond touched 64 0 }
{
    if touched { 64 } else { 0 }
}

fn least_runs(touched: bool) -> u64
    ensures { result ≡ cond touched 0 1 }
{
    if touched { 0 } else { 1 }
}

fn most_runs(touched: bool, limit: u64) -> u64
    ensures { result ≡ cond touched limit 1 }
{
    if touched { limit } else { 1 }
}

// All of so many marks.
fn all_of(marks: usize) -> u64
    requires { marks ≤ 64 }
    ensures { result ≡ 2 ^ marks - 1 }
{
    if marks < 64 {
        return (1u64 << marks) - 1;
    }
    18446744073709551615
}

// Whether the parties' marks have room: where the lab has one, the plant is assured 32 of the 64 places and the lab 16.
fn have_room(table: [Mark; 64], n: usize) -> bool
    requires { n ≤ 64 }
    ensures { result ≡ roomy (take n table) }
{
    let plant = styles::bits::count(styles::table::party_bits(table, n, Party::Plant));
    let lab = styles::bits::count(styles::table::party_bits(table, n, Party::Lab));
    if lab == 0 {
        return true;
    }
    plant.max(32) + lab.max(16) <= 64
}

// Whether the lengths sum to the tank's, each mark is in some run, and there is room for the marks.
fn adds_up(sum: u64, len: u64, all: u64, want: u64, room: bool) -> bool
    ensures { result ≡ (eqb sum len && (eqb all want && room)) }
{
    sum == len && all == want && room
}

fn wrong_head(line: u64) -> TankHead
    ensures { result ≡ record { line = line; at = 0; lines = 0; flag = 0; length = 0; marks = 0; table = replicate 64 blank } }
{
    TankHead {
        line: line,
        at: 0,
        lines: 0,
        flag: 0,
        length: 0,
        marks: 0,
        table: [styles::table::blank(); 64],
    }
}

fn head_with(m: ReadMarks, flag: u64, length: u64, marks: usize) -> TankHead
    ensures { result ≡ head_with m flag length marks }
{
    let table = m.table;
    TankHead {
        line: 0,
        at: m.at,
        lines: m.lines,
        flag: flag,
        length: length,
        marks: marks,
        table: table,
    }
}

// The line of a tank's length.
fn length_line(t: &[u8], from: usize, touched: bool) -> Option<(u64, usize)>
    requires { from ≤ length t.now }
    ensures { result ≡ taken_by (bytes "length=") (decimal_from (cond touched 0 fresh_length) (cond touched largest fresh_length)) t.now from }
{
    text_lines::number(
        t,
        from,
        b"length=",
        least_length(touched),
        most_length(touched),
    )
}

// The lines of tank t as far as its runs, behind n lines.
fn tank_head(bytes: &[u8], from: usize, n: u64, version: u64, t: usize) -> TankHead
    requires { (n < 2 ^ 30) × (t < 8) × (from ≤ length bytes.now) }
    ensures { ReadsHead version bytes.now from t n result }
{
    let w = text::wide(t);
    let Some((_, a)) = text_lines::number(bytes, from, b"tank=", w, w) else {
        return wrong_head(n + 1);
    };
    let Some((flag, b)) = text_lines::number(bytes, a, b"touched=", 0, 1) else {
        return wrong_head(n + 2);
    };
    let Some((len, c)) = length_line(bytes, b, flag == 1) else {
        return wrong_head(n + 3);
    };
    let Some((k, d)) = text_lines::number(bytes, c, b"marks=", 0, most_marks(flag == 1)) else {
        return wrong_head(n + 4);
    };
    let marks = k as usize;
    let m = marks_lines(bytes, d, n + 4, version, marks);
    if 0 < m.line {
        return wrong_head(m.line);
    }
    head_with(m, flag, len, marks)
}

fn wrong_tank(line: u64) -> TankLine
    ensures { (result.line ≡ line) × (result.at ≡ 0) × (result.lines ≡ 0) }
{
    TankLine {
        line: line,
        at: 0,
        lines: 0,
        tank: Tank::fresh(),
    }
}

// The tank of its lines as far as its runs, and its runs.
fn tank_with(h: TankHead, x: ReadRuns, runs: usize) -> Tank
    ensures { result ≡ tank_with h x runs }
{
    let lens = x.lens;
    let sets = x.sets;
    let table = h.table;
    Tank {
        touched: h.flag == 1,
        length: h.length,
        runs: runs,
        marks: h.marks,
        lens: lens,
        sets: sets,
        table: table,
    }
}

// The line that says how many runs there are.
fn count_line(t: &[u8], from: usize, touched: bool, limit: u64) -> Option<(u64, usize)>
    requires { from ≤ length t.now }
    ensures { result ≡ taken_by (bytes "runs=") (decimal_from (cond touched 0 1) (cond touched limit 1)) t.now from }
{
    text_lines::number(
        t,
        from,
        b"runs=",
        least_runs(touched),
        most_runs(touched, limit),
    )
}

// The lines of tank t, which may hold so many runs, behind n lines.
pub fn tank_lines(bytes: &[u8], from: usize, n: u64, version: u64, t: usize, limit: u64) -> TankLine
    requires { (n < 2 ^ 30) × (t < 8) × (1 ≤ limit) × (limit ≤ 512) × (from ≤ length bytes.now) }
    ensures { ReadsTank version limit bytes.now from t n result }
{
    let h = tank_head(bytes, from, n, version, t);
    if 0 < h.line {
        return wrong_tank(h.line);
    }
    let Some((j, a)) = count_line(bytes, h.at, h.flag == 1, limit) else {
        return wrong_tank(h.lines + 1);
    };
    let all = all_of(h.marks);
    let r = runs_lines(bytes, a, h.lines + 1, j as usize, all);
    if 0 < r.line {
        return wrong_tank(r.line);
    }
    let table = h.table;
    let last = h.lines + 1 + 2 * j;
    if adds_up(r.sum, h.length, r.all, all, have_room(table, h.marks)) {
        return TankLine {
            line: 0,
            at: r.at,
            lines: last,
            tank: tank_with(h, r, j as usize),
        };
    }
    wrong_tank(last)
}
