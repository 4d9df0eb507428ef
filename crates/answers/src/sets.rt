// Sets of marks.
ghost use Rattle.std.specs.Prelude.{◌≤◌, length};
ghost use Rattle.answers.specs.Waiting.{Adds, piece_room};
ghost use Rattle.answers.specs.Replies.{styles_say, or_refused};

use super::pieces::{put_mark, refuse, say};
use styles::Styles;

// A set: its count and its marks.
pub fn put_set(out: &mut [u8], at: usize, m: Styles) -> usize
    requires { piece_room ≤ length out.old }
    ensures { Adds out.old at (styles_say m) result out.new }
{
    let mut k = say(out, at, b"marks=", text::wide(m.count));
    for mark in &m.marks[..m.count.min(64)] {
        k = put_mark(out, k, *mark);
    }
    k
}

// A set, or a refusal.
pub fn set_or(out: &mut [u8], at: usize, number: u64, m: Styles) -> usize
    requires { piece_room ≤ length out.old }
    ensures { Adds out.old at (or_refused number (styles_say m)) result out.new }
{
    if number == 0 {
        return put_set(out, at, m);
    }
    refuse(out, at, number)
}
