// Words and numbers put piece by piece behind what waits in a lent buffer, in the terms of `answers`: where there is no room for a piece,
// what waits is written out first. Each function takes how much of the buffer waits, and answers how much waits then.
#![tactic(auto)]

ghost use Rattle.std.specs.Prelude.{[], ◌∷◌, ◌≡◌, ◌+◌, ◌≤◌, length, take, replicate};
ghost use Rattle.text.specs.Number.{decimal_text};
ghost use Rattle.script.specs.Writing.{Puts, free_at};
ghost use Rattle.answers.specs.Waiting.{Adds, piece_room};
ghost use Rattle.pen.specs.Pen.{right_text, between_says};

// A place with room for a piece: what waits is written out where there is less.
pub fn free(out: &[u8], at: usize) -> usize
    requires { piece_room ≤ length out.now }
    ensures { (result ≡ free_at piece_room at out.now) × (result + piece_room ≤ length out.now) }
{
    script::flushed(out, at, 192)
}

// A text.
pub fn say(out: &mut [u8], at: usize, words: &[u8]) -> usize
    requires { (piece_room ≤ length out.old) × (length words.now ≤ piece_room) }
    ensures { Adds out.old at (words.now ∷ []) result out.new }
{
    let k = free(out, at);
    text::put(out, k, words)
}

// A number.
pub fn say_number(out: &mut [u8], at: usize, n: u64) -> usize
    requires { piece_room ≤ length out.old }
    ensures { Adds out.old at (decimal_text n ∷ []) result out.new }
{
    let k = free(out, at);
    text::put_decimal(out, k, n)
}

// A number between two texts.
pub fn between(out: &mut [u8], at: usize, front: &[u8], n: u64, behind: &[u8]) -> usize
    requires { (piece_room ≤ length out.old) × (length front.now ≤ piece_room) × (length behind.now ≤ piece_room) }
    ensures { Adds out.old at (between_says front.now n behind.now) result out.new }
{
    let a = say(out, at, front);
    let b = say_number(out, a, n);
    say(out, b, behind)
}

// Puts the front of some bytes at a place.
fn put_front(out: &mut [u8], at: usize, bytes: &[u8], n: usize) -> usize
    requires { (n ≤ length bytes.now) × (at + n ≤ length out.old) }
    ensures { Puts out.old at (take n bytes.now) n result out.new }
{
    text::put(out, at, &bytes[..n])
}

// Puts at most 32 blanks at a place.
fn put_blanks(out: &mut [u8], at: usize, n: usize) -> usize
    requires { (n ≤ 32) × (at + n ≤ length out.old) }
    ensures { Puts out.old at (replicate n 32) n result out.new }
{
    put_front(out, at, b"                                ", n)
}

// A text at the right end of so many places, at most 32.
pub fn say_word(out: &mut [u8], at: usize, word: &[u8], width: usize) -> usize
    requires { (piece_room ≤ length out.old) × (length word.now ≤ 160) × (width ≤ 32) }
    ensures { Adds out.old at (right_text width word.now ∷ []) result out.new }
{
    let k = free(out, at);
    let a = put_blanks(out, k, width.saturating_sub(word.len()));
    text::put(out, a, word)
}

// A number at the right end of so many places, at most 32.
pub fn say_right(out: &mut [u8], at: usize, n: u64, width: usize) -> usize
    requires { (piece_room ≤ length out.old) × (width ≤ 32) }
    ensures { Adds out.old at (right_text width (decimal_text n) ∷ []) result out.new }
{
    let mut digits = [0u8; 20];
    let k = text::put_decimal(&mut digits, 0, n);
    say_word(out, at, &digits[..k], width)
}
