// All sets of a run list together, and sets renumbered where they stand.

ghost use Rattle.std.specs.Prelude.{◌≡◌, List, ℕ, ◌≤◌, length};
ghost use Rattle.std.specs.Int.Bits.{bit_and};
ghost use Rattle.styles.specs.Bits.{open_bit, close_bit, Squeezed};
ghost use Rattle.runs.specs.Runs.{runs};
ghost use Rattle.runs.specs.Gather.{gather, Renumbered, CanOpen};

// The union of the first n sets.
pub fn union_of(sets: &[u64], n: usize) -> u64
    requires { n ≤ length sets.now }
    ensures { (lens : List ℕ) → result ≡ gather (runs lens sets.now n) }
{
    let mut all: u64 = 0;
    for k in 0..n {
        all = sets[k] | all;
    }
    all
}

// Opens a bit at i in each of the first n sets: bits from i on move up by one, and bit i is clear.
pub fn open_sets(sets: &mut [u64], n: usize, i: usize)
    requires { CanOpen sets.old n }
    ensures { Renumbered (λ s r. r ≡ open_bit i s) n sets.old sets.new }
{
    for k in 0..n {
        sets[k] = styles::bits::open_bit(sets[k], i);
    }
}

// Keeps of each of the first n sets the bits that the mask has.
fn keep_sets(sets: &mut [u64], n: usize, mask: u64)
    requires { n ≤ length sets.old }
    ensures { Renumbered (λ s r. r ≡ bit_and s mask) n sets.old sets.new }
{
    for k in 0..n {
        sets[k] = styles::bits::both(sets[k], mask);
    }
}

// Closes the gap at bit i in each of the first n sets: bits above it move down by one.
fn close_sets(sets: &mut [u64], n: usize, i: usize)
    requires { n ≤ length sets.old }
    ensures { Renumbered (λ s r. r ≡ close_bit i s) n sets.old sets.new }
{
    for k in 0..n {
        sets[k] = styles::bits::close_bit(sets[k], i);
    }
}

// Squeezes each of the first n sets to the bits that the mask has, moved down to close the gaps: gap by gap, from the highest down.
pub fn squeeze_sets(sets: &mut [u64], n: usize, mask: u64)
    requires { n ≤ length sets.old }
    ensures { Renumbered (Squeezed mask) n sets.old sets.new }
{
    keep_sets(sets, n, mask);
    for i in (0..styles::bits::width(mask)).rev() {
        if (mask >> i) % 2 == 0 {
            close_sets(sets, n, i);
        }
    }
}
