// One piece of text more.
ghost use Rattle.std.specs.Prelude.{[], ◌∷◌, ◌≡◌, ◌+◌, ◌≤◌, length};
ghost use Rattle.script.specs.Writing.{free_at, line_text, field_text, value_text, mark_text};
ghost use Rattle.answers.specs.Waiting.{Adds, piece_room};
ghost use Rattle.answers.specs.Replies.{refused_says, accepted_says, none_says};

use styles::{Mark, Value};

// A place with room for a piece: what waits is written out where there is less.
pub fn free(out: &[u8], at: usize) -> usize
    requires { piece_room ≤ length out.now }
    ensures { (result ≡ free_at piece_room at out.now) × (result + piece_room ≤ length out.now) }
{
    script::flushed(out, at, 192)
}

// A line of a name and a number.
pub fn say(out: &mut [u8], at: usize, name: &[u8], n: u64) -> usize
    requires { (piece_room ≤ length out.old) × (length name.now ≤ 16) }
    ensures { Adds out.old at (field_text name.now n ∷ []) result out.new }
{
    let k = free(out, at);
    script::put_field(out, k, name, n)
}

// A line of a name and a word.
pub fn say_word(out: &mut [u8], at: usize, name: &[u8], word: &[u8]) -> usize
    requires { (piece_room ≤ length out.old) × (length name.now ≤ 16) × (length word.now ≤ 96) }
    ensures { Adds out.old at (line_text name.now word.now ∷ []) result out.new }
{
    let k = free(out, at);
    script::put_line(out, k, name, word)
}

// A refusal.
pub fn refuse(out: &mut [u8], at: usize, number: u64) -> usize
    requires { piece_room ≤ length out.old }
    ensures { Adds out.old at (refused_says number) result out.new }
{
    say(out, at, b"refused=", number)
}

// Accepted, or a refusal.
pub fn accept(out: &mut [u8], at: usize, number: u64) -> usize
    requires { piece_room ≤ length out.old }
    ensures { Adds out.old at (accepted_says number) result out.new }
{
    if number == 0 {
        return say(out, at, b"accepted=", 1);
    }
    refuse(out, at, number)
}

// None of what was asked for.
pub fn none(out: &mut [u8], at: usize) -> usize
    requires { piece_room ≤ length out.old }
    ensures { Adds out.old at none_says result out.new }
{
    say(out, at, b"none=", 1)
}

// A value.
pub fn put_value(out: &mut [u8], at: usize, v: Value) -> usize
    requires { piece_room ≤ length out.old }
    ensures { Adds out.old at (value_text v ∷ []) result out.new }
{
    let k = free(out, at);
    script::put_value(out, k, v)
}

// A mark.
pub fn put_mark(out: &mut [u8], at: usize, m: Mark) -> usize
    requires { piece_room ≤ length out.old }
    ensures { Adds out.old at (mark_text m ∷ []) result out.new }
{
    let k = free(out, at);
    script::put_mark(out, k, m)
}
