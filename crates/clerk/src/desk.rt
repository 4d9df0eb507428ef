// Calls that have to do with what is kept beside the tanks.
ghost use Rattle.std.specs.Prelude.{◌≡◌, ◌≤◌, length};
ghost use Rattle.script.specs.declared.Both as boths;
ghost use Rattle.script.specs.declared.Desk as desks;
ghost use Rattle.day_log.specs.Log as logs;
ghost use Rattle.tanks.specs.Pool.{Sound, meaning};
ghost use Rattle.answers.specs.Waiting.{piece_room};
ghost use Rattle.answers.specs.Replies.{taken_says, report_says};
ghost use Rattle.clerk.specs.Desk.{Settled, with_sets, with_log, with_pending, with_party, one_more, taken_from, log_read, desk_side, desk_says, both_house, both_side, both_says, Notes, Moves};

use super::{Moved, Noted, Side};
use answers::{accept, none, put_found, put_report, put_taken, say};
use day_log::Log;
use night::{Plan, Range};
use script::{Call, key_of, party_of};
use styles::Party;
use tanks::Tanks;

// Other sets, and all else as it was: the one place where what is kept is made anew for them.
fn with_sets(side: Side, sets: settings_text::Kept) -> Side
    ensures { result ≡ with_sets side sets }
{
    let log = side.log;
    let pending = side.pending;
    let legend = side.legend;
    let party = side.party;
    Side {
        sets: sets,
        log: log,
        pending: pending,
        legend: legend,
        party: party,
    }
}

// Another log, in the same way.
fn with_log(side: Side, log: Log) -> Side
    ensures { result ≡ with_log side log }
{
    let sets = side.sets;
    let pending = side.pending;
    let legend = side.legend;
    let party = side.party;
    Side {
        sets: sets,
        log: log,
        pending: pending,
        legend: legend,
        party: party,
    }
}

// Other pending ranges, likewise.
fn with_pending(side: Side, plan: Plan) -> Side
    ensures { result ≡ with_pending side plan }
{
    let sets = side.sets;
    let log = side.log;
    let legend = side.legend;
    let party = side.party;
    Side {
        sets: sets,
        log: log,
        pending: plan,
        legend: legend,
        party: party,
    }
}

// Another party that the calls which follow are made as.
fn with_party(side: Side, who: Party) -> Side
    ensures { result ≡ with_party side who }
{
    let sets = side.sets;
    let log = side.log;
    let pending = side.pending;
    let legend = side.legend;
    Side {
        sets: sets,
        log: log,
        pending: pending,
        legend: legend,
        party: who,
    }
}

// One more range behind those of a plan; the 33rd is counted and not stored, and no more are counted.
fn one_more(p: Plan, x: Range) -> Plan
    ensures { result ≡ one_more p x }
{
    let mut ranges = p.ranges;
    let n = p.count;
    if n < 32 {
        ranges[n] = x;
        return Plan {
            count: n + 1,
            ranges: ranges,
        };
    }
    Plan {
        count: 33,
        ranges: ranges,
    }
}

// A text of settings: it is kept where it is good.
pub fn settings(side: Side, body: &[u8], out: &mut [u8], at: usize) -> Noted
    requires settled { Settled side }
    requires piece_room_in_bounds { piece_room ≤ length out.old }
    ensures { Notes (with_sets side (taken_from side body.now).kept) (taken_says (taken_from side body.now)) out.old at result out.new }
{
    let sets = side.sets;
    let t = sets.take(body);
    let kept = t.kept;
    let k = put_taken(out, at, t);
    let next = with_sets(side, kept);
    Noted { side: next, at: k }
}

// A set by its number.
pub fn set(side: Side, call: Call, out: &mut [u8], at: usize) -> Noted
    requires settled { Settled side }
    requires piece_room_in_bounds { piece_room ≤ length out.old }
    ensures { Notes (desk_side desks.Desk.Set side call) (desk_says desks.Desk.Set side call) out.old at result out.new }
{
    let n = call.numbers;
    let sets = side.sets;
    let k = put_found(out, at, sets.ask(n[0]));
    Noted { side: side, at: k }
}

// As whom the calls that follow are made.
pub fn party(side: Side, call: Call, out: &mut [u8], at: usize) -> Noted
    requires settled { Settled side }
    requires piece_room_in_bounds { piece_room ≤ length out.old }
    ensures { Notes (desk_side desks.Desk.Party side call) (desk_says desks.Desk.Party side call) out.old at result out.new }
{
    let n = call.numbers;
    let who = party_of(n[0]);
    let next = with_party(side, who);
    let k = accept(out, at, 0);
    Noted { side: next, at: k }
}

// One more pending range.
pub fn range(side: Side, call: Call, out: &mut [u8], at: usize) -> Noted
    requires settled { Settled side }
    requires piece_room_in_bounds { piece_room ≤ length out.old }
    ensures { Notes (desk_side desks.Desk.Range side call) (desk_says desks.Desk.Range side call) out.old at result out.new }
{
    let n = call.numbers;
    let pending = side.pending;
    let more = one_more(
        pending,
        Range {
            start: n[0],
            end: n[1],
        },
    );
    let k = say(out, at, b"ranges=", text::wide(more.count));
    let next = with_pending(side, more);
    Noted { side: next, at: k }
}

// The pending ranges as a plan; none is pending then, whether it is accepted or not.
pub fn plan(s: Tanks, side: Side, call: Call, out: &mut [u8], at: usize) -> Moved
    requires sound { Sound s × Settled side }
    requires piece_room_in_bounds { piece_room ≤ length out.old }
    ensures { Moves (both_house boths.Both.Plan (meaning s) side call) (both_side boths.Both.Plan (meaning s) side call) (both_says boths.Both.Plan (meaning s) side call) out.old at result out.new }
{
    let n = call.numbers;
    let pending = side.pending;
    let who = side.party;
    let e = night::apply_plan(s, n[0], who, key_of(n[1]), n[2], pending);
    let t = e.tanks;
    let k = accept(out, at, e.number);
    let next = with_pending(side, night::empty_plan());
    Moved {
        tanks: t,
        side: next,
        at: k,
    }
}

// The tanks opened anew with a kept set; where it is not kept they stay as they were.
pub fn open_set(s: Tanks, side: Side, call: Call, out: &mut [u8], at: usize) -> Moved
    requires sound { Sound s × Settled side }
    requires piece_room_in_bounds { piece_room ≤ length out.old }
    ensures { Moves (both_house boths.Both.OpenSet (meaning s) side call) (both_side boths.Both.OpenSet (meaning s) side call) (both_says boths.Both.OpenSet (meaning s) side call) out.old at result out.new }
{
    let n = call.numbers;
    let sets = side.sets;
    let a = sets.ask(n[0]);
    if a.found {
        let settings = a.settings;
        let o = tanks::open(settings);
        let t = o.tanks;
        let k = accept(out, at, o.number);
        return Moved {
            tanks: t,
            side: side,
            at: k,
        };
    }
    let k = none(out, at);
    Moved {
        tanks: s,
        side: side,
        at: k,
    }
}

// A read of the edge boxes' log: the tanks go to its reader once, and through an edit once a group.
pub fn read_log(s: Tanks, side: Side, body: &[u8], out: &mut [u8], at: usize) -> Moved
    requires sound { Sound s × Settled side }
    requires piece_room_in_bounds { piece_room ≤ length out.old }
    ensures { Moves (log_read (meaning s) side body.now).house (with_log side (logs.log_at (log_read (meaning s) side body.now))) (report_says (logs.log_at (log_read (meaning s) side body.now))) out.old at result out.new }
{
    let before = side.log;
    let t = day_log::take(s, before, body);
    let tanks = t.tanks;
    let after = t.log;
    let k = put_report(out, at, after);
    let next = with_log(side, after);
    Moved {
        tanks: tanks,
        side: next,
        at: k,
    }
}

// The end of the log: the next read begins another.
pub fn end_log(side: Side, out: &mut [u8], at: usize) -> Noted
    requires settled { Settled side }
    requires piece_room_in_bounds { piece_room ≤ length out.old }
    ensures { Notes (with_log side logs.fresh) (report_says (logs.at_end side.log)) out.old at result out.new }
{
    let before = side.log;
    let k = put_report(out, at, day_log::end(before));
    let next = with_log(side, day_log::begin());
    Noted { side: next, at: k }
}
