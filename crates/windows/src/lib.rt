// Equal windows over a tank's positions: for each, which of eight keys is the first that shows a value in it. Here is what a walk over runs that
// fills them does with one run, by the masks of the keys; the walk itself stands where the runs are.
#![tactic(auto)]

ghost use Rattle.std.specs.Prelude.{◌≡◌, ℕ, ◌+◌, ◌*◌, ◌^◌, ◌<◌, ◌≤◌, min, max, ltb, eqb, get_or, take, cond};
ghost use Rattle.styles.specs.Marks.{key_is};
ghost use Rattle.styles.specs.Bits.{MaskOf};
ghost use Rattle.windows.specs.Windows.{shows_bits, first_of_set};

use styles::Mark;

// Whether a set shows a value for a key: of the key's bits it has, the highest wins, and that one is no null.
fn shows(set: u64, keyed: u64, nulls: u64) -> bool
    ensures { result ≡ shows_bits keyed nulls set }
{
    set & keyed != 0 && !styles::bits::top_in(set, keyed, nulls)
}

// The first key, by the masks of the keys, that a set shows a value for; 8 where there is none.
fn first_of(set: u64, keyed: &[u64; 8], nulls: u64) -> u64
    ensures { result ≡ first_of_set keyed.now nulls set }
{
    for (j, bits) in keyed.iter().enumerate() {
        if shows(set, *bits, nulls) {
            return j as u64;
        }
    }
    8
}

pub fn later(a: u64, b: u64) -> u64
    ensures { result ≡ max a b }
{
    a.max(b)
}

pub fn sooner(a: u64, b: u64) -> u64
    ensures { result ≡ min a b }
{
    a.min(b)
}

// The first key that the positions a .. b show, which all have this set; 8 where there are none.
pub fn seen(a: u64, b: u64, set: u64, keyed: &[u64; 8], nulls: u64) -> u64
    ensures { result ≡ cond (ltb a b) (first_of_set keyed.now nulls set) 8 }
{
    if a < b {
        return first_of(set, keyed, nulls);
    }
    8
}

// A sum, and the largest number where it is past 64 bits.
pub fn plus(a: u64, b: u64) -> u64
    ensures { result ≡ min (a + b) 18446744073709551615 }
{
    a.saturating_add(b)
}

// A mask with a bit more below those it has: whether a key is the one that is looked for.
fn with_bit(mask: u64, key: u16, wanted: u16) -> u64
    requires { mask < 2 ^ 63 }
    ensures { result ≡ mask * 2 + cond (eqb key wanted) 1 0 }
{
    if key == wanted {
        return mask * 2 + 1;
    }
    mask * 2
}

// Eight masks with such a bit more, for a key of which each looks for its own.
fn with_bits(before: [u64; 8], keys: [u16; 8], key: u16) -> [u64; 8]
    requires { (j : ℕ) → j < 8 → get_or before j 0 < 2 ^ 63 }
    ensures { (j : ℕ) → j < 8 → get_or result j 0 ≡ get_or before j 0 * 2 + cond (eqb key (get_or keys j 0)) 1 0 }
{
    let mut out: [u64; 8] = [0; 8];
    for j in 0..8 {
        out[j] = with_bit(before[j], key, keys[j]);
    }
    out
}

// The bits of the marks with each of eight keys. One walk finds them all: a function that walks the table for one key copies it.
pub fn masks(table: [Mark; 64], n: usize, keys: [u16; 8]) -> [u64; 8]
    requires { n ≤ 64 }
    ensures { (j : ℕ) → j < 8 → MaskOf (key_is (get_or keys j 0)) (take n table) (get_or result j 0) }
{
    let mut out: [u64; 8] = [0; 8];
    for i in (0..n).rev() {
        // By a name of its own: no proof is made of an array that a call writes over.
        let next = with_bits(out, keys, table[i].key);
        out = next;
    }
    out
}
