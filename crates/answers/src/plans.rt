// Plans that are proposed.
ghost use Rattle.std.specs.Prelude.{◌≡◌, ◌≤◌, min, length};
ghost use Rattle.answers.specs.Waiting.{Adds, piece_room};
ghost use Rattle.answers.specs.Replies.{range_says, ranges_say, plan_says, proposal_says};

use super::pieces::{none, refuse, say};
use night::{Plan, Range};

// The two lines of a range.
fn put_range(out: &mut [u8], at: usize, x: Range) -> usize
    requires { piece_room ≤ length out.old }
    ensures { Adds out.old at (range_says x) result out.new }
{
    let k = say(out, at, b"start=", x.start);
    say(out, k, b"end=", x.end)
}

// The lines of all ranges.
fn put_ranges(out: &mut [u8], at: usize, plan: Plan) -> usize
    requires { piece_room ≤ length out.old }
    ensures { Adds out.old at (ranges_say (min plan.count 32) 0 plan.ranges) result out.new }
{
    let mut k = at;
    for x in &plan.ranges[..plan.count.min(32)] {
        k = put_range(out, k, *x);
    }
    k
}

// How many ranges there are, and each.
fn put_plan(out: &mut [u8], at: usize, plan: Plan) -> usize
    requires { piece_room ≤ length out.old }
    ensures { Adds out.old at (plan_says plan) result out.new }
{
    let count = plan.count;
    let k = say(out, at, b"ranges=", text::wide(count));
    put_ranges(out, k, plan)
}

// A plan that is proposed, none, or a refusal.
pub fn put_proposal(out: &mut [u8], at: usize, p: Result<Option<Plan>, u64>) -> usize
    requires { piece_room ≤ length out.old }
    ensures { Adds out.old at (proposal_says p) result out.new }
{
    match p {
        Ok(Some(plan)) => put_plan(out, at, plan),
        Ok(None) => none(out, at),
        Err(number) => refuse(out, at, number),
    }
}
