// Whether the ranges of a plan may go from a tank.
ghost use Rattle.std.specs.Prelude.{◌≡◌, not, ◌&&◌, ltb, leb};
ghost use Rattle.runs.specs.Runs.{set_at};
ghost use Rattle.runs.specs.Positions.{any_at};
ghost use Rattle.runs.specs.Scan.{meets};
ghost use Rattle.tank.specs.State.{runs_of, view, Formed};
ghost use Rattle.night.specs.Plans.{ranges_of, may_go};

use super::{Plan, Range};
use tank::Tank;

// Whether a range begins at `from` or later, is not empty, ends within the length, and has no position with a bit of the mask.
fn clear(t: Tank, mask: u64, from: u64, x: Range) -> bool
    requires { Formed t }
    ensures { result ≡ (leb from x.start && (ltb x.start x.end && (leb x.end t.length && not (any_at (λ p. meets mask (set_at (runs_of t) p)) x.start x.end)))) }
{
    from <= x.start
        && x.start < x.end
        && x.end <= t.length
        && !runs::scan::any_in(&t.lens, &t.sets, t.runs, x.start, x.end, mask)
}

// Whether the ranges are at most 32, non-empty, ascending, disjoint, within the length and free of the hold key; of an untouched tank
// none may go.
pub fn may_go(t: Tank, hold: u16, plan: Plan) -> bool
    requires { Formed t }
    ensures { result ≡ (leb plan.count 32 && may_go hold (ranges_of plan) (view t)) }
{
    if 32 < plan.count {
        return false;
    }
    if !t.touched {
        return plan.count == 0;
    }
    let table = t.table;
    let mask = styles::table::key_bits(table, t.marks, hold);
    let mut from: u64 = 0;
    for x in &plan.ranges[..plan.count] {
        if !clear(t, mask, from, *x) {
            return false;
        }
        from = x.end;
    }
    true
}
