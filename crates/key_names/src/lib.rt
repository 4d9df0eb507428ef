// Names of keys, from a text of lines such as `hold=7`.
#![tactic(auto)]

ghost use Rattle.std.specs.Prelude.{◌≡◌, true, [], ℕ, ◌+◌, ◌*◌, ◌≤◌, ◌<◌, MatchOption, length, get_or, take, drop};
ghost use Rattle.script.specs.Writing.{Puts};
ghost use Rattle.text.specs.Bytes.{same_of};
ghost use Rattle.text_lines.specs.Lines.{decimal_from};
ghost use Rattle.key_names.specs.Names.{in_name, is_name, keyed, name_line, placed, line_from, key_text, is_named, key_named, place_of, listed, held_in, names_of, with_name, Formed, ReadsNames, NextLine};

// So many names: the key, the length and the 24 bytes of each at its place. Of a key that is named twice the first name holds, and of a
// name that stands twice the first key.
#[derive(Clone, Copy)]
pub struct Names {
    count: usize,
    keys: [u16; 64],
    lens: [u8; 64],
    texts: [u8; 1536],
}

// What a text of names says: 0 and its names, or its first wrong line and none.
#[derive(Clone, Copy)]
pub struct NamesRead {
    pub line: u64,
    pub names: Names,
}

// No names.
pub fn none() -> Names
    ensures { (names_of result ≡ []) × (result.count ≡ 0) × Formed result }
{
    Names {
        count: 0,
        keys: [0; 64],
        lens: [0; 64],
        texts: [0; 1536],
    }
}

// May a name have this byte?
fn in_name(c: u8) -> bool
    ensures { result ≡ in_name c }
{
    matches!(c, b'a'..=b'z' | b'0'..=b'9' | b'_' | b'-')
}

// Is it a name, of 1 to 24 bytes?
fn is_name(s: &[u8]) -> bool
    ensures { result ≡ is_name s.now }
{
    if s.len() < 1 {
        return false;
    }
    if 24 < s.len() {
        return false;
    }
    for c in s {
        if !in_name(*c) {
            return false;
        }
    }
    true
}

// A line of a name and a number, where they are good.
fn line_of(name: &[u8], number: &[u8], next: usize) -> Option<(u16, usize, usize)>
    ensures { result ≡ placed next (keyed name.now (decimal_from 0 65535 number.now)) }
{
    let key = u16::try_from(text::decimal(number)?).ok()?;
    if is_name(name) {
        return Some((key, name.len(), next));
    }
    None
}

// What a line says, without its newline.
fn line_said(line: &[u8], next: usize) -> Option<(u16, usize, usize)>
    ensures { result ≡ placed next (name_line line.now) }
{
    let from = 0;
    let equals = text::find(line, from, b'=');
    if equals < line.len() {
        let number = equals + 1;
        return line_of(&line[from..equals], &line[number..], next);
    }
    None
}

// The line that begins at a place: it ends in a newline.
fn line_at(bytes: &[u8], from: usize) -> Option<(u16, usize, usize)>
    requires { from ≤ length bytes.now }
    ensures { result ≡ line_from bytes.now from }
{
    let newline = text::find(bytes, from, b'\n');
    if newline < bytes.len() {
        return line_said(&bytes[from..newline], newline + 1);
    }
    None
}

// One name more.
fn with(names: Names, key: u16, name: &[u8]) -> Names
    requires { Formed names × (names.count < 64) × (is_name name.now ≡ true) }
    ensures { Formed result × (result.count ≡ names.count + 1) × (names_of result ≡ with_name (names_of names) key name.now) }
{
    let i = names.count;
    let mut keys = names.keys;
    let mut lens = names.lens;
    let mut texts = names.texts;
    keys[i] = key;
    lens[i] = name.len() as u8;
    text::put(&mut texts, i * 24, name);
    Names {
        count: i + 1,
        keys,
        lens,
        texts,
    }
}

// The same with a part of a text as the name.
fn with_part(names: Names, key: u16, bytes: &[u8], from: usize, len: usize) -> Names
    requires { Formed names × (names.count < 64) × (from + len ≤ length bytes.now) × (is_name (take len (drop from bytes.now)) ≡ true) }
    ensures { Formed result × (result.count ≡ names.count + 1) × (names_of result ≡ with_name (names_of names) key (take len (drop from bytes.now))) }
{
    let to = from + len;
    with(names, key, &bytes[from..to])
}

// The line that begins at a place, behind so many names; a line more than 64 is wrong.
fn next_line(bytes: &[u8], from: usize, count: usize) -> Option<(u16, usize, usize)>
    requires { (count ≤ 64) × (from < length bytes.now) }
    ensures { NextLine bytes.now from count result }
{
    if count < 64 {
        return line_at(bytes, from);
    }
    None
}

// The line behind so many good ones is wrong.
fn wrong(count: usize) -> NamesRead
    requires { count ≤ 64 }
    ensures { (result.line ≡ count + 1) × (names_of result.names ≡ []) × Formed result.names }
{
    NamesRead {
        line: text::wide(count) + 1,
        names: none(),
    }
}

// The names that a text says, or its first wrong line and none.
pub fn read(bytes: &[u8]) -> NamesRead
    ensures { ReadsNames bytes.now result }
{
    let mut names = none();
    let mut from = 0;
    // A turn moves by a line: its length is not known before.
    while from < bytes.len() {
        let count = names.count;
        let Some((key, len, next)) = next_line(bytes, from, count) else {
            return wrong(count);
        };
        names = with_part(names, key, bytes, from, len);
        from = next;
    }
    NamesRead {
        line: 0,
        names: names,
    }
}

// The place of a key among the names, where it has one.
fn place_of(names: Names, key: u16) -> Option<usize>
    requires { Formed names }
    ensures { MatchOption result (place_of (names_of names) key ≡ names.count) (λ i. (i ≡ place_of (names_of names) key) × (i < names.count)) }
{
    for i in 0..names.count {
        if names.keys[i] == key {
            return Some(i);
        }
    }
    None
}

// Puts the name at a place of all.
fn put_name(out: &mut [u8], at: usize, names: Names, i: usize) -> usize
    requires { Formed names × (i < 64) × (at + 24 ≤ length out.old) }
    ensures { Puts out.old at (held_in names.keys names.lens names.texts i).name 24 result out.new }
{
    let from = i * 24;
    let len = usize::from(names.lens[i]);
    text::put(out, at, &names.texts[from..from + len])
}

// Puts `key` and the number of a key.
fn put_number(out: &mut [u8], at: usize, key: u16) -> usize
    requires { at + 24 ≤ length out.old }
    ensures { Puts out.old at (key_text [] key) 24 result out.new }
{
    let a = text::put(out, at, b"key ");
    text::put_decimal(out, a, text::wide16(key))
}

// Puts the name of a key, or `key 7` where it has none, and answers the place behind it.
pub fn put_key(out: &mut [u8], at: usize, names: Names, key: u16) -> usize
    requires { Formed names × (at + 24 ≤ length out.old) }
    ensures { Puts out.old at (key_text (names_of names) key) 24 result out.new }
{
    match place_of(names, key) {
        Some(i) => put_name(out, at, names, i),
        None => put_number(out, at, key),
    }
}

// Has the key a name?
pub fn is_named(names: Names, key: u16) -> bool
    requires { Formed names }
    ensures { result ≡ is_named (names_of names) key }
{
    place_of(names, key).is_some()
}

// Is a part of a text this word?
fn same_part(texts: &[u8], from: usize, len: usize, word: &[u8]) -> bool
    requires { from + len ≤ length texts.now }
    ensures { result ≡ same_of (take len (drop from texts.now)) word.now }
{
    let to = from + len;
    text::same(&texts[from..to], word)
}

// The key of the first of n names that is this word, and 65536 where none is.
fn key_among(keys: &[u16], lens: &[u8], texts: &[u8], n: usize, word: &[u8]) -> u64
    requires { (n ≤ length keys.now) × (n ≤ length lens.now) × (n * 24 ≤ length texts.now) × ((i : ℕ) → get_or lens.now i 0 ≤ 24) }
    ensures { result ≡ key_named (listed (held_in keys.now lens.now texts.now) 0 n) word.now }
{
    for i in 0..n {
        if same_part(texts, i * 24, usize::from(lens[i]), word) {
            return u64::from(keys[i]);
        }
    }
    65536
}

// The key that a word names, and 65536 where it names none.
pub fn key_named(names: Names, word: &[u8]) -> u64
    requires { Formed names }
    ensures { result ≡ key_named (names_of names) word.now }
{
    let keys = names.keys;
    let lens = names.lens;
    let texts = names.texts;
    key_among(&keys, &lens, &texts, names.count, word)
}
