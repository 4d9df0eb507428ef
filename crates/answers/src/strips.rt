// The cells of a strip.
ghost use Rattle.std.specs.Prelude.{◌≤◌, length};
ghost use Rattle.answers.specs.Waiting.{Adds, piece_room};
ghost use Rattle.answers.specs.Replies.{strip_says};

use super::pieces::{refuse, say_word};

// The cells on one line, or a refusal.
pub fn strip_or(out: &mut [u8], at: usize, number: u64, cells: &[u8]) -> usize
    requires { (piece_room ≤ length out.old) × (length cells.now ≤ 96) }
    ensures { Adds out.old at (strip_says number cells.now) result out.new }
{
    if number == 0 {
        return say_word(out, at, b"strip=", cells);
    }
    refuse(out, at, number)
}
