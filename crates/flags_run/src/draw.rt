// Calls of the config that are drawn from a sequence of numbers. The names are of few letters, so that they meet again, fill a table and are cut.
ghost use Rattle.std.specs.Prelude.{◌≤◌};
ghost use Rattle.config.specs.Meaning.{Sound};

use crate::calls::{ask, clear_default, put, set_default};
use crate::print::say;
use config::StyleConfigMap;
use richtext::ExpandType;

// The next of a sequence of numbers that repeats late.
fn next(x: u64) -> u64 {
    (x % 2147483648 * 1103515245 + 12345) % 2147483648
}

// One of n numbers.
fn part(x: u64, n: u64) -> u64
    requires { 1 ≤ n }
    ensures { result ≤ n }
{
    x / 65536 % n
}

fn type_of(n: u64) -> ExpandType {
    match n {
        0 => ExpandType::Before,
        1 => ExpandType::After,
        2 => ExpandType::Both,
        _ => ExpandType::None,
    }
}

// From the letters a to h and a colon, as many as are counted.
fn letter(n: u64) -> u8 {
    if n < 8 {
        return 97 + (n % 8) as u8;
    }
    b':'
}

// Draws all of a name's letters, and answers where the sequence stands then.
fn letters(seed: u64, of: u64, out: &mut [u8]) -> u64
    requires { 1 ≤ of }
{
    let mut x = seed;
    for byte in out.iter_mut() {
        x = next(x);
        *byte = letter(part(x, of));
    }
    x
}

// Eight letters for most short names, one for those about 32 bytes, which then meet again, and a colon among them for the others.
fn letters_for(class: u64) -> u64
    ensures { 1 ≤ result }
{
    match class {
        0 | 1 | 2 => 8,
        6 => 1,
        _ => 9,
    }
}

// Short names most of the time, some of up to nine bytes, and some about 32.
fn length_for(class: u64, x: u64) -> usize
    ensures { result ≤ 40 }
{
    match class {
        0 => 1,
        1 | 2 | 3 => 2,
        6 => 30 + (part(x, 5) % 5) as usize,
        _ => (part(x, 10) % 10) as usize,
    }
}

// One call: four of ten insert, two set or clear the default, four ask.
fn call(map: &mut StyleConfigMap, what: u64, expand: ExpandType, key: &[u8])
    requires { Sound map.old }
    ensures { Sound map.new }
{
    match what {
        0 | 1 | 2 | 3 => put(map, key, expand),
        4 => set_default(map, expand),
        5 => clear_default(map),
        _ => ask(map, key),
    }
}

// The call about a name that is built in, or one with such a name before its colon.
fn about_built_in(map: &mut StyleConfigMap, what: u64, expand: ExpandType, which: u64)
    requires { Sound map.old }
    ensures { Sound map.new }
{
    match which {
        0 => call(map, what, expand, b"bold"),
        1 => call(map, what, expand, b"link"),
        2 => call(map, what, expand, b"comment"),
        3 => call(map, what, expand, b"comment:17"),
        _ => call(map, what, expand, b"bold:"),
    }
}

// The call about a name of letters, and where the sequence stands after them.
fn about_letters(
    map: &mut StyleConfigMap,
    what: u64,
    expand: ExpandType,
    class: u64,
    size: u64,
) -> u64
    requires { Sound map.old }
    ensures { Sound map.new }
{
    let mut name = [0u8; 40];
    let seed = letters(size, letters_for(class), &mut name);
    let n = length_for(class, size);
    call(map, what, expand, &name[0..n]);
    seed
}

// The next call, and where the sequence stands after it.
fn turn(map: &mut StyleConfigMap, seed: u64) -> u64
    requires { Sound map.old }
    ensures { Sound map.new }
{
    let what = next(seed);
    let expand = next(what);
    let class = next(expand);
    let size = next(class);
    if part(class, 8) == 7 {
        about_built_in(map, part(what, 10), type_of(part(expand, 4)), part(size, 5));
        return size;
    }
    about_letters(
        map,
        part(what, 10),
        type_of(part(expand, 4)),
        part(class, 8),
        size,
    )
}

// 250 calls on one table.
fn turns(mut map: StyleConfigMap, seed: u64) -> u64
    requires { Sound map }
{
    let mut now = seed;
    for _ in 0..250 {
        now = turn(&mut map, now);
    }
    now
}

fn on_empty(seed: u64) -> u64 {
    say(b"empty table\n");
    turns(StyleConfigMap::new(), seed)
}

fn on_built_in(seed: u64) -> u64 {
    say(b"built-in table\n");
    turns(StyleConfigMap::default_rich_text_config(), seed)
}

pub(crate) fn tables() {
    let mut seed: u64 = 1;
    for _ in 0..4 {
        seed = on_empty(seed);
        seed = on_built_in(seed);
    }
}
