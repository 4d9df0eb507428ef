// The legend: which colour is which key.
ghost use Rattle.std.specs.Prelude.{[], ◌∷◌, ◌≡◌, ◌+◌, ◌≤◌, ◌<◌, length};
ghost use Rattle.answers.specs.Waiting.{Adds, piece_room};
ghost use Rattle.key_names.specs.Names.{Formed, names_of, key_text};
ghost use Rattle.picture.specs.Picture.{patch_says, caption_says, entry_says, entries_say, keys_there, others_say, held_says, legend_says};

use crate::elements::{colour, rect, text_at};
use key_names::Names;
use pen::say;

// The patch of the i-th entry, up to its class; four entries to a line.
fn patch(out: &mut [u8], at: usize, i: u64) -> usize
    requires { (piece_room ≤ length out.old) × (i ≤ 13) }
    ensures { Adds out.old at (patch_says i) result out.new }
{
    rect(out, at, 30 + i % 4 * 285, 842 + i / 4 * 26, 22, 14)
}

// Its words, up to their first letter.
fn caption(out: &mut [u8], at: usize, i: u64) -> usize
    requires { (piece_room ≤ length out.old) × (i ≤ 13) }
    ensures { Adds out.old at (caption_says i) result out.new }
{
    text_at(out, at, b"key", 60 + i % 4 * 285, 854 + i / 4 * 26)
}

// The name of a key.
fn key_name(out: &mut [u8], at: usize, names: Names, key: u64) -> usize
    requires { (piece_room ≤ length out.old) × (Formed names) × (key < 65536) }
    ensures { Adds out.old at (key_text (names_of names) key ∷ []) result out.new }
{
    let k = pen::free(out, at);
    key_names::put_key(out, k, names, script::key_of(key))
}

// The entry of a key, where there is one.
fn entry(out: &mut [u8], at: usize, names: Names, i: u64, key: u64) -> usize
    requires { (piece_room ≤ length out.old) × (Formed names) × (i ≤ 13) }
    ensures { Adds out.old at (entry_says (names_of names) i key) result out.new }
{
    if 65535 < key {
        return at;
    }
    let a = patch(out, at, i);
    let b = colour(out, a, i);
    let c = caption(out, b, i);
    let d = key_name(out, c, names, key);
    say(out, d, b"</text>\n")
}

// Those of twelve keys.
fn entries(out: &mut [u8], at: usize, names: Names, keys: [u64; 12]) -> usize
    requires { (piece_room ≤ length out.old) × (Formed names) }
    ensures { Adds out.old at (entries_say (names_of names) keys) result out.new }
{
    let mut k = at;
    for (i, key) in keys.iter().enumerate() {
        k = entry(out, k, names, i as u64, *key);
    }
    k
}

// How many keys there are.
fn key_count(keys: [u64; 12]) -> u64
    ensures { (result ≡ keys_there keys 12) × (result ≤ 12) }
{
    let mut n = 0;
    for key in &keys {
        n += u64::from(*key < 65536);
    }
    n
}

// The entry of the higher keys, where there are some.
fn others(out: &mut [u8], at: usize, i: u64, some: bool) -> usize
    requires { (piece_room ≤ length out.old) × (i ≤ 13) }
    ensures { Adds out.old at (others_say i some) result out.new }
{
    if some {
        let a = patch(out, at, i);
        let b = colour(out, a, 12);
        let c = caption(out, b, i);
        return say(out, c, b"all other keys</text>\n");
    }
    at
}

// The entry of what is held, where a key has that name.
fn held_entry(out: &mut [u8], at: usize, i: u64, hold: u64) -> usize
    requires { (piece_room ≤ length out.old) × (i ≤ 13) }
    ensures { Adds out.old at (held_says i hold) result out.new }
{
    if 65535 < hold {
        return at;
    }
    let a = patch(out, at, i);
    let b = say(out, a, b" class='frame'/>\n");
    let c = patch(out, b, i);
    let d = say(out, c, b" class='held'/>\n");
    let e = caption(out, d, i);
    say(out, e, b"held: no plan may take it</text>\n")
}

// All entries.
pub fn legend_drawn(
    out: &mut [u8],
    at: usize,
    names: Names,
    keys: [u64; 12],
    some: bool,
    hold: u64,
) -> usize
    requires { (piece_room ≤ length out.old) × (Formed names) }
    ensures { Adds out.old at (legend_says (names_of names) keys some hold) result out.new }
{
    let a = entries(out, at, names, keys);
    let n = key_count(keys);
    let b = others(out, a, n, some);
    held_entry(out, b, n + u64::from(some), hold)
}
