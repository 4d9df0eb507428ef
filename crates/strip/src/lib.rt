// The strip for the tanker bay: 96 cells over a tank's positions, each with the letter of the first of eight keys that shows a value in it.
// It is the plant's. It asks the map once, and knows nothing of how a tank is stored: the parts of a state are handed on as they came.
#![tactic(auto)]

pub mod legend; // legend.rt: eight keys and their letters

ghost use Rattle.std.specs.Prelude.{◌≡◌, ◌≤◌, length};
ghost use Rattle.runs.specs.Stretches.{in_front};
ghost use Rattle.tank.specs.Rules.{when_accepted};
ghost use Rattle.styles.specs.declared.Party.TheVariants.{Plant};
ghost use Rattle.tanks.specs.House.{shown_at};
ghost use Rattle.tanks.specs.Looks.{shown_in};
ghost use Rattle.tanks.specs.Pool.{meaning, Sound};
ghost use Rattle.ask.specs.Parts.{CanAsk};
ghost use Rattle.strip.specs.Strip.{strip, strip_number};
ghost use Rattle.strip.specs.Cells.{letter_of, letters_of};

use styles::Party;
use tanks::{Head, Run, Table, Tanks};

// The letter of a key by its place, and a dot for none.
fn letter(letters: [u8; 8], first: u64) -> u8
    ensures { result ≡ letter_of letters first }
{
    if first < 8 {
        return letters[first as usize];
    }
    b'.'
}

// A letter for each cell, by the place of the first key that shows a value there, in the first 96 bytes of `out`.
fn spell(firsts: &[u64; 96], letters: [u8; 8], out: &mut [u8])
    requires { 96 ≤ length out.old }
    ensures { out.new ≡ in_front (letters_of letters firsts.now) out.old }
{
    for i in 0..96 {
        out[i] = letter(letters, firsts[i]);
    }
}

// The strip of a tank, from the parts of a state that it stands in, in the first 96 bytes of `out`. Returns 0 or the refusal's number; a refusal
// writes nothing.
pub fn paint_parts(
    heads: [Head; 8],
    pool: [Run; 512],
    table: Table,
    tank: u64,
    start: u64,
    k: u64,
    keys: [u16; 8],
    letters: [u8; 8],
    out: &mut [u8],
) -> u64
    requires { CanAsk heads pool table tank }
    ensures value { result ≡ strip_number tank k (length out.old) }
    ensures out_after { out.new ≡ when_accepted (strip_number tank k (length out.old)) (in_front (strip (shown_in heads pool table tank Plant) keys letters start k) out.old) out.old }
{
    if 8 <= tank {
        return 1;
    }
    if k == 0 {
        return 3;
    }
    if out.len() < 96 {
        return 11;
    }
    let mut firsts: [u64; 96] = [0; 96];
    ask::windowed::first_shown(
        heads,
        pool,
        table,
        tank,
        Party::Plant,
        keys,
        start,
        k,
        &mut firsts,
    );
    spell(&firsts, letters, out);
    0
}

// The strip of a tank of a state.
pub fn paint(
    s: Tanks,
    tank: u64,
    start: u64,
    k: u64,
    keys: [u16; 8],
    letters: [u8; 8],
    out: &mut [u8],
) -> u64
    requires { Sound s }
    ensures value { result ≡ strip_number tank k (length out.old) }
    ensures out_after { out.new ≡ when_accepted (strip_number tank k (length out.old)) (in_front (strip (shown_at (meaning s) Plant tank) keys letters start k) out.old) out.old }
{
    let heads = s.heads;
    let pool = s.pool;
    let tables = s.tables;
    let table = tables[tanks::place(tank)];
    paint_parts(heads, pool, table, tank, start, k, keys, letters, out)
}
