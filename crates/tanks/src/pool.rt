// The tanks of one state: where their runs stand in the pool, and one of them taken out.
ghost use Rattle.std.specs.Prelude.{◌≡◌, cond, ◌-◌, ◌≤◌, ◌<◌, max, eqb};
ghost use Rattle.tanks.specs.Pool.{runs_below, tank_in, head_of, table_in, spots_of};

use super::{Head, Run, Spots, Table};
use tank::Tank;

// Where tank t's runs begin; for 8, where the last tank's end.
pub fn start(heads: [Head; 8], t: usize) -> usize
    requires { (t ≤ 8) × (runs_below heads 8 ≤ 512) }
    ensures { result ≡ runs_below heads t }
{
    let mut at = 0;
    for h in &heads[..t] {
        at += h.runs;
    }
    at
}

// How many places behind a tank's own are to be written where it comes to hold m runs and held n: none where those behind it stay.
fn behind(m: usize, n: usize, count: usize) -> usize
    requires { m ≤ count }
    ensures { result ≡ cond (eqb m n) 0 (count - m) }
{
    if m == n { 0 } else { count - m }
}

// What the pool has from tank t's place on, were the tank to hold m runs.
pub fn spots(heads: [Head; 8], t: usize, m: usize) -> Spots
    requires { (t < 8) × (m ≤ 514) × (runs_below heads 8 ≤ 512) }
    ensures { result ≡ spots_of heads t m }
{
    let at = start(heads, t);
    let all = start(heads, 8);
    let n = heads[t].runs;
    let from = at + n;
    let left = all - from;
    let count = m.max(n) + left;
    Spots {
        at: at,
        from: from,
        full: m + left,
        count: count,
        left: left,
        behind: behind(m, n, count),
        grows: from < at + m,
    }
}

// The k-th of `count` places, counted from the front or from the back.
pub fn turn(back: bool, k: usize, count: usize) -> usize
    requires { k < count }
    ensures { (result ≡ cond back (count - 1 - k) k) × (result < count) }
{
    if back { count - 1 - k } else { k }
}

// Tank t on its own.
pub fn taken(heads: [Head; 8], pool: [Run; 512], table: Table, t: usize) -> Tank
    requires { (t < 8) × (runs_below heads 8 ≤ 512) }
    ensures { result ≡ tank_in heads pool table t }
{
    let at = start(heads, t);
    let h = heads[t];
    let n = h.runs;
    let marks = table.marks;
    let mut lens = [0u64; 514];
    let mut sets = [0u64; 514];
    for i in 0..n {
        let r = pool[at + i];
        lens[i] = r.len;
        sets[i] = r.set;
    }
    Tank {
        touched: h.touched,
        length: h.length,
        runs: n,
        marks: h.marks,
        lens: lens,
        sets: sets,
        table: marks,
    }
}

// A tank without its runs and marks.
pub fn head_of(x: Tank) -> Head
    ensures { result ≡ head_of x }
{
    Head {
        touched: x.touched,
        length: x.length,
        runs: x.runs,
        marks: x.marks,
    }
}

// Its marks.
pub fn table_in(x: Tank) -> Table
    ensures { result ≡ table_in x }
{
    let marks = x.table;
    Table { marks: marks }
}
