// Settings that were read, and what taking a text of them answers.
ghost use Rattle.std.specs.Prelude.{◌≤◌, ◌<◌, length};
ghost use Rattle.answers.specs.Waiting.{Adds, piece_room};
ghost use Rattle.answers.specs.Replies.{pair_says, pairs_say, found_says, taken_says};

use super::pieces::{none, refuse, say};
use settings_text::{Asked, Taken, limit_name, share_name};
use tanks::Setting;

// The two lines of a tank's pair.
fn put_pair(out: &mut [u8], at: usize, t: usize, s: Setting) -> usize
    requires { (piece_room ≤ length out.old) × (t < 8) }
    ensures { Adds out.old at (pair_says t s) result out.new }
{
    let share = share_name(t);
    let k = say(out, at, &share, s.share);
    let limit = limit_name(t);
    say(out, k, &limit, s.limit)
}

// The sixteen lines of eight pairs.
fn put_pairs(out: &mut [u8], at: usize, settings: [Setting; 8]) -> usize
    requires { piece_room ≤ length out.old }
    ensures { Adds out.old at (pairs_say 8 0 settings) result out.new }
{
    let mut k = at;
    for (t, s) in settings.iter().enumerate() {
        k = put_pair(out, k, t, *s);
    }
    k
}

// A set that was asked for, or none.
pub fn put_found(out: &mut [u8], at: usize, a: Asked) -> usize
    requires { piece_room ≤ length out.old }
    ensures { Adds out.old at (found_says a) result out.new }
{
    if a.found {
        let settings = a.settings;
        return put_pairs(out, at, settings);
    }
    none(out, at)
}

// The number of the set that a text became, or its refusal and the line.
pub fn put_taken(out: &mut [u8], at: usize, t: Taken) -> usize
    requires { piece_room ≤ length out.old }
    ensures { Adds out.old at (taken_says t) result out.new }
{
    let kept = t.kept;
    if t.number == 0 {
        return say(out, at, b"set=", text::wide32(kept.number));
    }
    let k = refuse(out, at, t.number);
    say(out, k, b"line=", t.line)
}
