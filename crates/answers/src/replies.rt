// What edits and questions answer.
ghost use Rattle.std.specs.Prelude.{cond, ◌≡◌, ◌≤◌, length};
ghost use Rattle.answers.specs.Waiting.{Adds, piece_room};
ghost use Rattle.answers.specs.Replies.{first_says, aged_says, count_says, touched_says, told_says, shown_says, asked_says, set_says, shared_says, extent_says};

use super::pieces::{none, put_mark, put_value, refuse, say};
use super::sets::{put_set, set_or};
use questions::{Asked, Extent, SetAsked, Shared, Shown, Told};
use tanks::{Count, YesNo};

// The first position of a removal, or a refusal.
pub fn first_or(out: &mut [u8], at: usize, number: u64, first: u64) -> usize
    requires { piece_room ≤ length out.old }
    ensures { Adds out.old at (first_says number first) result out.new }
{
    if number == 0 {
        return say(out, at, b"first=", first);
    }
    refuse(out, at, number)
}

// How many stretches an ageing dropped, and what remains of `before`, or a refusal.
pub fn aged_or(out: &mut [u8], at: usize, number: u64, dropped: u64, remaining: u64) -> usize
    requires { piece_room ≤ length out.old }
    ensures { Adds out.old at (aged_says number dropped remaining) result out.new }
{
    if number == 0 {
        let k = say(out, at, b"dropped=", dropped);
        return say(out, k, b"remaining=", remaining);
    }
    refuse(out, at, number)
}

// A count under its name.
pub fn put_count(out: &mut [u8], at: usize, name: &[u8], c: Count) -> usize
    requires { (piece_room ≤ length out.old) × (length name.now ≤ 16) }
    ensures { Adds out.old at (count_says name.now c) result out.new }
{
    match c {
        Count::Refused(n) => refuse(out, at, n),
        Count::Counts(n) => say(out, at, name, n),
    }
}

// Whether a tank is touched.
pub fn put_touched(out: &mut [u8], at: usize, y: YesNo) -> usize
    requires { piece_room ≤ length out.old }
    ensures { Adds out.old at (touched_says y) result out.new }
{
    match y {
        YesNo::Refused(n) => refuse(out, at, n),
        YesNo::Says(b) => say(out, at, b"touched=", u64::from(b)),
    }
}

// Yes or no.
pub fn put_told(out: &mut [u8], at: usize, t: Told) -> usize
    requires { piece_room ≤ length out.old }
    ensures { Adds out.old at (told_says t) result out.new }
{
    match t {
        Told::Refused(n) => refuse(out, at, n),
        Told::No => say(out, at, b"yes=", 0),
        Told::Yes => say(out, at, b"yes=", 1),
    }
}

// The value that is shown.
pub fn put_shown(out: &mut [u8], at: usize, s: Shown) -> usize
    requires { piece_room ≤ length out.old }
    ensures { Adds out.old at (shown_says s) result out.new }
{
    match s {
        Shown::Refused(n) => refuse(out, at, n),
        Shown::Nothing => none(out, at),
        Shown::Shows(v) => put_value(out, at, v),
    }
}

// The mark that was asked for.
pub fn put_asked(out: &mut [u8], at: usize, a: Asked) -> usize
    requires { piece_room ≤ length out.old }
    ensures { Adds out.old at (asked_says a) result out.new }
{
    match a {
        Asked::Refused(n) => refuse(out, at, n),
        Asked::Nothing => none(out, at),
        Asked::Found(m) => put_mark(out, at, m),
    }
}

// The set that was asked for.
pub fn put_set_asked(out: &mut [u8], at: usize, a: SetAsked) -> usize
    requires { piece_room ≤ length out.old }
    ensures { Adds out.old at (set_says a) result out.new }
{
    let m = a.styles;
    set_or(out, at, a.number, m)
}

// The set that all positions share.
pub fn put_shared(out: &mut [u8], at: usize, a: Shared) -> usize
    requires { piece_room ≤ length out.old }
    ensures { Adds out.old at (shared_says a) result out.new }
{
    let m = a.styles;
    if a.number == 0 {
        if a.agree {
            return put_set(out, at, m);
        }
        return none(out, at);
    }
    refuse(out, at, a.number)
}

// From where to where a stretch goes, both ends in it.
pub fn put_extent(out: &mut [u8], at: usize, e: Extent) -> usize
    requires { piece_room ≤ length out.old }
    ensures { Adds out.old at (extent_says e) result out.new }
{
    if e.number == 0 {
        let k = say(out, at, b"first=", e.first);
        return say(out, k, b"last=", e.last);
    }
    refuse(out, at, e.number)
}
