// The eight keys of the strips, and their letters.
ghost use Rattle.std.specs.Prelude.{◌≡◌, true, cond, ◌&&◌, not, ◌∷◌, ◌+◌, ◌≤◌, ◌<◌, length};
ghost use Rattle.text.specs.Bytes.{holds};
ghost use Rattle.key_names.specs.Names.{names_of, Formed};
ghost use Rattle.key_legend.specs.Letters.{held_first, is_letter, initial_of, letter_of, letters_of, strip_key, strip_keys, without};

use key_names::Names;
use std::mem;

// Moves one of the keys to the front; the others keep their order.
fn move_first(keys: &mut [u64], key: u64)
    requires { holds key keys.old ≡ true }
    ensures { keys.new ≡ key ∷ without key keys.old }
{
    let mut carried = key;
    for place in keys.iter_mut() {
        mem::swap(place, &mut carried);
        if carried == key {
            return;
        }
    }
}

// Puts `hold` in front of the others, where it is one of the keys.
fn put_first(keys: &mut [u64], hold: u64)
    ensures { keys.new ≡ held_first hold keys.old }
{
    if hold <= 65535 && keys.contains(&hold) {
        move_first(keys, hold);
    }
}

// The keys in the order in which they are drawn. A cell shows the first of its keys alone, and what is held is to be seen.
pub fn held_first(keys: [u64; 8], hold: u64) -> [u64; 8]
    ensures { result ≡ held_first hold keys }
{
    let mut all = keys;
    put_first(&mut all, hold);
    all
}

// A key as the strip takes it; a place that has none has a dot as its letter, whatever its key.
fn strip_key(key: u64) -> u16
    ensures { result ≡ strip_key key }
{
    u16::try_from(key).unwrap_or(65535)
}

// The keys as the strip takes them.
pub fn strip_keys(keys: [u64; 8]) -> [u16; 8]
    ensures { result ≡ strip_keys keys }
{
    let mut all = [65535u16; 8];
    for (i, key) in keys.iter().enumerate() {
        all[i] = strip_key(*key);
    }
    all
}

// The first byte of what a key is called.
fn initial(names: Names, key: u16) -> u8
    requires { Formed names }
    ensures { result ≡ initial_of (names_of names) key }
{
    let mut name = [0u8; 24];
    key_names::put_key(&mut name, 0, names, key);
    name[0]
}

// The digit of a place, counted from 1.
fn digit(i: usize) -> u8
    requires { i < 8 }
    ensures { result ≡ 49 + i }
{
    b'1' + i as u8
}

// A letter of the alphabet that no key before has, else the place's digit.
fn letter_or(c: u8, before: &[u8], i: usize) -> u8
    requires { i < 8 }
    ensures { result ≡ cond (is_letter c && not (holds c before.now)) c (49 + i) }
{
    if c.is_ascii_lowercase() && !before.contains(&c) {
        c
    } else {
        digit(i)
    }
}

// The letter of the key at a place, behind those of the keys before it.
fn letter_for(names: Names, before: &[u8], i: usize, key: u64) -> u8
    requires { Formed names × (i < 8) }
    ensures { result ≡ letter_of (names_of names) before.now i key }
{
    if 65535 < key {
        return b'.';
    }
    let k = script::key_of(key);
    if key_names::is_named(names, k) {
        return letter_or(initial(names, k), before, i);
    }
    digit(i)
}

// Puts the letters of keys into a slice that is as long.
fn put_letters(names: Names, keys: &[u64], letters: &mut [u8])
    requires { Formed names × (length keys.now ≡ length letters.old) × (length keys.now ≤ 8) }
    ensures { letters.new ≡ letters_of (names_of names) keys.now }
{
    for (i, key) in keys.iter().enumerate() {
        letters[i] = letter_for(names, &letters[..i], i, *key);
    }
}

// The letters of the eight keys.
pub fn letters_of(names: Names, keys: [u64; 8]) -> [u8; 8]
    requires { Formed names }
    ensures { result ≡ letters_of (names_of names) keys }
{
    let mut letters = [b'.'; 8];
    put_letters(names, &keys, &mut letters);
    letters
}
