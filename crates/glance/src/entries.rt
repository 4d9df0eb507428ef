// The strips' legend: letters with the names of their keys, four to a line.
ghost use Rattle.std.specs.Prelude.{[], ◌∷◌, ◌≤◌, ◌<◌, length};
ghost use Rattle.answers.specs.Waiting.{Adds, piece_room};
ghost use Rattle.key_names.specs.Names.{Formed, names_of};
ghost use Rattle.glance.specs.Glance.{line_begins, entry_text, entry_says, of_eight, end_says, legend_says};

use key_names::Names;
use pen::{free, say};

// A letter and the name of its key.
fn entry(out: &mut [u8], at: usize, names: Names, key: u64, letter: u8) -> usize
    requires { (Formed names) × (piece_room ≤ length out.old) × (key ≤ 65535) }
    ensures { Adds out.old at (entry_text (names_of names) key letter ∷ []) result out.new }
{
    let cell = [letter, b' '];
    let k = free(out, at);
    let a = text::put(out, k, b"   ");
    let b = text::put(out, a, &cell);
    key_names::put_key(out, b, names, script::key_of(key))
}

// What begins a line of four.
fn line_begins(out: &mut [u8], at: usize, i: usize) -> usize
    requires { piece_room ≤ length out.old }
    ensures { Adds out.old at (line_begins i) result out.new }
{
    if i == 0 {
        return say(out, at, b"   ");
    }
    if i == 4 {
        return say(out, at, b"\n   ");
    }
    at
}

// The entry at a place, where there is a key.
fn entry_at(
    out: &mut [u8],
    at: usize,
    names: Names,
    keys: [u64; 8],
    letters: [u8; 8],
    i: usize,
) -> usize
    requires { (Formed names) × (piece_room ≤ length out.old) × (i < 8) }
    ensures { Adds out.old at (entry_says (names_of names) keys letters i) result out.new }
{
    let key = keys[i];
    if 65535 < key {
        return at;
    }
    let a = line_begins(out, at, i);
    entry(out, a, names, key, letters[i])
}

// The entries of all eight places.
fn entries(out: &mut [u8], from: usize, names: Names, keys: [u64; 8], letters: [u8; 8]) -> usize
    requires { (Formed names) × (piece_room ≤ length out.old) }
    ensures { Adds out.old from (of_eight (entry_says (names_of names) keys letters)) result out.new }
{
    let mut at = from;
    for i in 0..8 {
        at = entry_at(out, at, names, keys, letters, i);
    }
    at
}

// The end of the legend, and whether there are keys that it leaves out.
fn legend_end(out: &mut [u8], at: usize, more: bool) -> usize
    requires { piece_room ≤ length out.old }
    ensures { Adds out.old at (end_says more) result out.new }
{
    let a = say(out, at, b"\n");
    if more {
        return say(out, a, b"      Higher keys are not in the strips.\n");
    }
    a
}

// The legend, where there is a key.
pub fn legend(
    out: &mut [u8],
    at: usize,
    names: Names,
    keys: [u64; 8],
    letters: [u8; 8],
    more: bool,
) -> usize
    requires { (Formed names) × (piece_room ≤ length out.old) }
    ensures { Adds out.old at (legend_says (names_of names) keys letters more) result out.new }
{
    if 65535 < keys[0] {
        return at;
    }
    let a = entries(out, at, names, keys, letters);
    legend_end(out, a, more)
}
