// The unheld ranges of a tank below a position, and the least position below which they make a plan that is accepted.
ghost use Rattle.std.specs.Prelude.{◌≡◌, not, [], ◌-◌, ◌≤◌, min};
ghost use Rattle.runs.specs.Runs.{set_at};
ghost use Rattle.runs.specs.Positions.{seek_from};
ghost use Rattle.runs.specs.Scan.{meets};
ghost use Rattle.tank.specs.State.{runs_of, view, Formed};
ghost use Rattle.tanks.specs.House.{tank_at};
ghost use Rattle.tanks.specs.Pool.{meaning};
ghost use Rattle.night.specs.Plans.{plan_of};
ghost use Rattle.night.specs.Proposing.{unheld_below, works_below, least_below, CanTry, CanNarrow};

use super::{Plan, Range};
use tank::Tank;
use tanks::Tanks;

// No ranges.
pub fn empty_plan() -> Plan
    ensures { result ≡ plan_of [] }
{
    Plan {
        count: 0,
        ranges: [Range { start: 0, end: 0 }; 32],
    }
}

// The next maximal range from `at` on that has no position with a bit of the mask, clipped at `below`; it starts there where there is none.
fn next_range(t: Tank, mask: u64, at: u64, below: u64) -> Range
    requires { (Formed t) × (at ≤ below) × (below ≤ t.length) }
    ensures { (result.start ≡ seek_from (λ p. not (meets mask (set_at (runs_of t) p))) at (below - at)) × (result.end ≡ seek_from (λ p. meets mask (set_at (runs_of t) p)) result.start (below - result.start)) }
{
    let lens = t.lens;
    let sets = t.sets;
    let first = runs::scan::first_without(&lens, &sets, t.runs, at, mask);
    let start = first.min(below);
    let past = runs::scan::first_with(&lens, &sets, t.runs, start, mask);
    let end = past.min(below);
    Range {
        start: start,
        end: end,
    }
}

// The first 32 maximal ranges below a position whose positions do not have the hold key.
pub fn unheld_below(t: Tank, hold: u16, below: u64) -> Plan
    requires { (Formed t) × (below ≤ t.length) }
    ensures { result ≡ plan_of (unheld_below hold (view t) below) }
{
    let table = t.table;
    let mask = styles::table::key_bits(table, t.marks, hold);
    let mut ranges = [Range { start: 0, end: 0 }; 32];
    let mut at: u64 = 0;
    for k in 0..32 {
        let x = next_range(t, mask, at, below);
        if below <= x.start {
            return Plan {
                count: k,
                ranges: ranges,
            };
        }
        ranges[k] = x;
        at = x.end;
    }
    Plan {
        count: 32,
        ranges: ranges,
    }
}

// Whether the unheld ranges below a position would be accepted: they are tried as any plan is.
pub fn works_below(s: Tanks, tank: u64, hold: u16, most: u64, below: u64) -> bool
    requires { CanTry s tank below }
    ensures { result ≡ works_below hold most (tank_at (meaning s) tank) below }
{
    let plan = unheld_below(s.take(tank as usize), hold, below);
    let done = super::apply_as_plant(s, tank, hold, most, plan);
    done.number == 0
}

// The least position below which they would be. Taking out more never leaves more runs, so halving finds it: below `refused` they would not
// be accepted, and below `accepted` they would.
pub fn least_below(s: Tanks, tank: u64, hold: u16, most: u64, length: u64) -> u64
    requires { CanNarrow s tank hold most length }
    ensures { result ≡ least_below hold most (tank_at (meaning s) tank) }
{
    let mut refused: u64 = 0;
    let mut accepted: u64 = length;
    // No `for`: the loop halves an interval and counts no index.
    while 1 < accepted - refused {
        let half = refused + (accepted - refused) / 2;
        if works_below(s, tank, hold, most, half) {
            accepted = half;
        } else {
            refused = half;
        }
    }
    accepted
}
