// Questions over a range of positions. Each costs a walk over the runs, whatever their lengths.

ghost use Rattle.std.specs.Prelude.{◌≡◌, not, ◌&&◌, ◌+◌, ◌-◌, ltb};
ghost use Rattle.runs.specs.Runs.{runs, set_at, total};
ghost use Rattle.runs.specs.Positions.{any_at, all_at, stretch_to, seek_from};
ghost use Rattle.runs.specs.Scan.{meets, shows, passes, common_at, CanScan, CanFind};

use super::{clip, find, set_at};

// What a scan looks for in a set: a bit of a mask; none of it; that the highest bit of a first mask is not in a second; that its bits of a mask
// are others than these.
#[derive(Clone, Copy)]
pub enum Test {
    Meets(u64),
    Misses(u64),
    Hides(u64, u64),
    Differs(u64, u64),
}

// Whether a set passes the test.
pub fn holds(test: Test, set: u64) -> bool
    ensures { result ≡ passes test set }
{
    match test {
        Test::Meets(mask) => set & mask != 0,
        Test::Misses(mask) => set & mask == 0,
        Test::Hides(first, second) => !styles::bits::top_in(set, first, second),
        Test::Differs(mask, bits) => set & mask != bits,
    }
}

// Whether a run of which `len` positions are asked has one that passes.
fn here(len: u64, test: Test, set: u64) -> bool
    ensures { result ≡ (ltb 0 len && passes test set) }
{
    if len == 0 {
        return false;
    }
    holds(test, set)
}

// Whether some position of from .. to passes the test.
fn some_in(lens: &[u64], sets: &[u64], n: usize, from: u64, to: u64, test: Test) -> bool
    requires { CanScan lens.now sets.now n to }
    ensures { result ≡ any_at (λ p. passes test (set_at (runs lens.now sets.now n) p)) from to }
{
    let mut start: u64 = 0;
    for k in 0..n {
        let end = start + lens[k];
        let len = clip(from, to, start, end);
        if here(len, test, sets[k]) {
            return true;
        }
        start = end;
    }
    false
}

// Whether some position of from .. to has a bit of the mask.
pub fn any_in(lens: &[u64], sets: &[u64], n: usize, from: u64, to: u64, mask: u64) -> bool
    requires { CanScan lens.now sets.now n to }
    ensures { result ≡ any_at (λ p. meets mask (set_at (runs lens.now sets.now n) p)) from to }
{
    some_in(lens, sets, n, from, to, Test::Meets(mask))
}

// Whether at every position of from .. to the highest bit of `first` is one of `second`.
pub fn all_show(
    lens: &[u64],
    sets: &[u64],
    n: usize,
    from: u64,
    to: u64,
    first: u64,
    second: u64,
) -> bool
    requires { CanScan lens.now sets.now n to }
    ensures { result ≡ all_at (λ p. shows first second (set_at (runs lens.now sets.now n) p)) from to }
{
    !some_in(lens, sets, n, from, to, Test::Hides(first, second))
}

// The first position of the stretch that ends at `last` and has a bit of the mask throughout, or last + 1.
pub fn back(lens: &[u64], sets: &[u64], n: usize, mask: u64, last: u64) -> u64
    requires { CanScan lens.now sets.now n (last + 1) }
    ensures { result ≡ stretch_to (λ p. meets mask (set_at (runs lens.now sets.now n) p)) (last + 1) }
{
    let mut i = 0;
    let mut start: u64 = 0;
    let mut from: u64 = 0;
    // No range of runs: the walk ends by position.
    while start <= last {
        let len = lens[i];
        let missed = here(len, Test::Misses(mask), sets[i]);
        start += len;
        i += 1;
        if missed {
            from = start.min(last + 1);
        }
    }
    from
}

// The first position from `from` on that passes the test, or the number of positions.
fn first_from(lens: &[u64], sets: &[u64], n: usize, from: u64, test: Test) -> u64
    requires { CanScan lens.now sets.now n from }
    ensures { result ≡ seek_from (λ p. passes test (set_at (runs lens.now sets.now n) p)) from (total (runs lens.now sets.now n) - from) }
{
    let mut start: u64 = 0;
    for j in 0..n {
        let end = start + lens[j];
        let len = clip(from, end, start, end);
        if here(len, test, sets[j]) {
            return from.max(start);
        }
        start = end;
    }
    start
}

// The first position from `from` on that has a bit of the mask, or the number of positions.
pub fn first_with(lens: &[u64], sets: &[u64], n: usize, from: u64, mask: u64) -> u64
    requires { CanScan lens.now sets.now n from }
    ensures { result ≡ seek_from (λ p. meets mask (set_at (runs lens.now sets.now n) p)) from (total (runs lens.now sets.now n) - from) }
{
    first_from(lens, sets, n, from, Test::Meets(mask))
}

// The first position from `from` on that has no bit of the mask, or the number of positions.
pub fn first_without(lens: &[u64], sets: &[u64], n: usize, from: u64, mask: u64) -> u64
    requires { CanScan lens.now sets.now n from }
    ensures { result ≡ seek_from (λ p. not (meets mask (set_at (runs lens.now sets.now n) p))) from (total (runs lens.now sets.now n) - from) }
{
    first_from(lens, sets, n, from, Test::Misses(mask))
}

// What the positions pos - 1 and pos have in common: what positions put in between them get. Nothing at either end.
pub fn common_at(lens: &[u64], sets: &[u64], n: usize, all: u64, pos: u64) -> u64
    requires { CanFind lens.now sets.now n all }
    ensures { result ≡ common_at (runs lens.now sets.now n) pos }
{
    if pos == 0 {
        return 0;
    }
    let f = find(lens, n, all, pos);
    let i = f.index;
    if n <= i {
        return 0;
    }
    let after = sets[i];
    if f.start < pos {
        return after;
    }
    let before = set_at(lens, sets, n, all, pos - 1);
    before & after
}
