// The night's work on eight tanks, made of deletions: ageing a bit at a time, and plans of ranges to delete.
#![tactic(auto)]

mod plans; // plans.rt: whether the ranges of a plan may go
mod proposals; // proposals.rt: the unheld ranges below a position, and the least position below which they are accepted

ghost use Rattle.std.specs.Prelude.{◌≡◌, ◌≤◌, ◌<◌};
ghost use Rattle.runs.specs.Positions.{stretch_count, part_of};
ghost use Rattle.tank.specs.Rules.{alike};
ghost use Rattle.tank.specs.State as state;
ghost use Rattle.tanks.specs.House.{held};
ghost use Rattle.tanks.specs.Pool.{meaning, Sound};
ghost use Rattle.night.specs.Ageings.{AgedAt, LeftAlone, AgedBy, barred_number};
ghost use Rattle.night.specs.Plans.{ranges_of};
ghost use Rattle.night.specs.Planning.{AppliedAt, AppliedBy, CanApply, Applies};
ghost use Rattle.night.specs.Proposing.{proposal_at};

pub use proposals::empty_plan;
use runs::FirstRuns;
use styles::Party;
use tank::Tank;
use tanks::Tanks;

// What ageing hands back: 0 or the refusal's number, how many stretches were dropped, what remains of `before`, and the next state.
#[derive(Clone, Copy)]
pub struct Aged {
    pub number: u64,
    pub dropped: u64,
    pub remaining: u64,
    pub tanks: Tanks,
}

// Nothing dropped and nothing left to do, or a refusal: the state as it was.
fn not_aged(number: u64, tanks: Tanks) -> Aged
    ensures { LeftAlone tanks number result }
{
    Aged {
        number: number,
        dropped: 0,
        remaining: 0,
        tanks: tanks,
    }
}

// The first stretches of a tank, no more than `budget`, that begin before the position `before`.
fn first_stretches(x: Tank, before: u64, budget: u64) -> FirstRuns
    requires { (state.Sound x) × (before ≤ x.length) }
    ensures { (result.end ≡ part_of (alike (state.view x).at) budget before) × (result.count ≡ stretch_count (alike (state.view x).at) result.end) }
{
    let lens = x.lens;
    runs::first_runs(&lens, x.runs, before, budget)
}

// The first `budget` of the stretches that overlap 0 .. before go, the last of them clipped there.
fn age_as_plant(s: Tanks, tank: u64, before: u64, budget: u64) -> Aged
    requires { Sound s }
    ensures { AgedAt s tank before budget result }
{
    if 8 <= tank {
        return not_aged(1, s);
    }
    if budget == 0 {
        return not_aged(3, s);
    }
    let x = s.take(tank as usize);
    if x.length < before {
        return not_aged(4, s);
    }
    if !x.touched {
        return not_aged(0, s);
    }
    if before == 0 {
        return not_aged(0, s);
    }
    let f = first_stretches(x, before, budget);
    let mut tanks = s;
    // Never refused: it is the plant's, of some positions within the length.
    let _done = tanks.delete(tank, Party::Plant, 0, f.end);
    let remaining = before - f.end;
    Aged {
        number: 0,
        dropped: f.count as u64,
        remaining: remaining,
        tanks: tanks,
    }
}

// The positions start .. end.
#[derive(Clone, Copy)]
pub struct Range {
    pub start: u64,
    pub end: u64,
}

// Ranges to delete from one tank, the first `count` of these, in the numbering before the first deletion.
#[derive(Clone, Copy)]
pub struct Plan {
    pub count: usize,
    pub ranges: [Range; 32],
}

// What applying a plan hands back: the next state, and 0 or the refusal's number. (The state first: a copy of it is quicker where it begins at a multiple of 64.)
#[derive(Clone, Copy)]
pub struct Applied {
    pub tanks: Tanks,
    pub number: u64,
}

// The ranges of a plan deleted, the last first, so that each is still in the numbering before the first deletion.
fn delete_all(s: Tanks, tank: u64, hold: u16, plan: Plan) -> Tanks
    requires { CanApply s tank hold plan }
    ensures { Applies s tank (ranges_of plan) result }
{
    let mut u = s;
    for i in (0..plan.count).rev() {
        let x = plan.ranges[i];
        // Never refused: what may go is the plant's to delete, some positions within what is left of the tank.
        let _done = u.delete(tank, Party::Plant, x.start, x.end);
    }
    u
}

// How many runs a tank holds.
fn runs_of(s: Tanks, t: usize) -> u64
    requires { (Sound s) × (t < 8) }
    ensures { result ≡ held (meaning s) t }
{
    let h = s.heads[t];
    h.runs as u64
}

// A plan that is accepted is applied whole: its ranges keep the rules, and the tank after deleting them all holds at most `most` runs.
// Any other is refused by 15, with the state as it was.
fn apply_as_plant(s: Tanks, tank: u64, hold: u16, most: u64, plan: Plan) -> Applied
    requires { Sound s }
    ensures { AppliedAt s tank hold most plan result.number result.tanks }
{
    if 8 <= tank {
        return Applied {
            number: 1,
            tanks: s,
        };
    }
    if !plans::may_go(s.take(tank as usize), hold, plan) {
        return Applied {
            number: 15,
            tanks: s,
        };
    }
    let next = delete_all(s, tank, hold, plan);
    if most < runs_of(next, tank as usize) {
        return Applied {
            number: 15,
            tanks: s,
        };
    }
    Applied {
        number: 0,
        tanks: next,
    }
}

// A plan that would be accepted, the oldest first and no more than needed: the unheld ranges below the least position for which they are.
// None where there is no such plan; where there is no such tank, the refusal's number.
pub fn propose(s: Tanks, tank: u64, hold: u16, most: u64) -> Result<Option<Plan>, u64>
    requires { Sound s }
    ensures { result ≡ proposal_at (meaning s) tank hold most }
{
    if 8 <= tank {
        return Err(1);
    }
    if proposals::works_below(s, tank, hold, most, 0) {
        return Ok(Some(proposals::empty_plan()));
    }
    let x = s.take(tank as usize);
    if proposals::works_below(s, tank, hold, most, x.length) {
        let below = proposals::least_below(s, tank, hold, most, x.length);
        return Ok(Some(proposals::unheld_below(x, hold, below)));
    }
    Ok(None)
}

// The number of a night's call that the laboratory tries: 1 where there is no such tank, else 16.
fn barred(tank: u64) -> u64
    ensures { result ≡ barred_number tank }
{
    if 8 <= tank { 1 } else { 16 }
}

// Ageing by a party: it is the plant's alone, and the laboratory is refused.
pub fn age(s: Tanks, tank: u64, who: Party, before: u64, budget: u64) -> Aged
    requires { Sound s }
    ensures { AgedBy s tank who before budget result }
{
    if tank::is_lab(who) {
        return not_aged(barred(tank), s);
    }
    age_as_plant(s, tank, before, budget)
}

// A plan applied by a party: that is the plant's alone too.
pub fn apply_plan(s: Tanks, tank: u64, who: Party, hold: u16, most: u64, plan: Plan) -> Applied
    requires { Sound s }
    ensures { AppliedBy s tank who hold most plan result.number result.tanks }
{
    if tank::is_lab(who) {
        return Applied {
            number: barred(tank),
            tanks: s,
        };
    }
    apply_as_plant(s, tank, hold, most, plan)
}
