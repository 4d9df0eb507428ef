// Run lists on lent number slices: run i of the first n has the length lens[i] and the set sets[i]. Nothing is allocated, and no state is copied.
// A result goes into slices of its own, run by run, so that it is in joined form as soon as it is written.
#![tactic(auto)]

pub mod stretches; // stretches.rt: the stretches of a range, in a lent buffer
pub mod scan; // scan.rt: questions over a range
pub mod joined; // joined.rt: the edits of a list in joined form
pub mod sets; // sets.rt: all sets together, and sets renumbered in place

ghost use Rattle.std.specs.Prelude.{◌≡◌, ◌+◌, ◌-◌, ◌<◌, ◌≤◌, ◌^◌, min, max, length};
ghost use Rattle.runs.specs.Edits.{Joined, CanPush, CanCopy, CanEdit, Appended};
ghost use Rattle.runs.specs.Positions.{altered_at, deleted_at, inserted_at};
ghost use Rattle.runs.specs.Runs.{runs, total, set_at, sums, Found, BudgetReaches, SameBehind, changing};
ghost use Rattle.runs.specs.Scan.{CanFind};

// `len` positions more with the set `set`, after the runs of the first `n` entries. Returns how many runs there are then.
pub fn push(lens: &mut [u64], sets: &mut [u64], n: usize, len: u64, set: u64) -> usize
    requires { CanPush lens.old sets.old n len set }
    ensures appended { Appended (runs lens.old sets.old n) len (λ q. set) (runs lens.new sets.new result) }
    ensures same_behind { SameBehind result lens.old sets.old lens.new sets.new }
{
    if len == 0 {
        return n;
    }
    if 0 < n {
        let k = n - 1;
        if sets[k] == set {
            lens[k] = lens[k] + len;
            return n;
        }
    }
    lens[n] = len;
    sets[n] = set;
    n + 1
}

// How many of the positions start .. end lie in from .. to.
fn clip(from: u64, to: u64, start: u64, end: u64) -> u64
    ensures { result ≡ min to end - max from start }
{
    to.min(end).saturating_sub(from.max(start))
}

// The set `set` with `bits`, and without `gone`.
fn change(set: u64, bits: u64, gone: u64) -> u64
    ensures { result ≡ changing bits gone set }
{
    let more = set | bits;
    more - (more & gone)
}

// Onto the runs of the first `n` entries, the positions from .. to of the source's first `m` runs, each with `bits` added to its set and `gone` taken away.
// Returns how many runs there are then. The runs before `from` are passed over, and those from `to` on are not looked at.
pub fn copy(
    olens: &mut [u64],
    osets: &mut [u64],
    n: usize,
    lens: &[u64],
    sets: &[u64],
    m: usize,
    from: u64,
    to: u64,
    bits: u64,
    gone: u64,
) -> usize
    requires { CanCopy (changing bits gone) olens.old osets.old n lens.now sets.now m from to }
    ensures appended { Appended (runs olens.old osets.old n) (min to (total (runs lens.now sets.now m)) - from) (λ q. changing bits gone (set_at (runs lens.now sets.now m) (from + q))) (runs olens.new osets.new result) }
    ensures same_behind { SameBehind result olens.old osets.old olens.new osets.new }
{
    let first = find_forward(lens, m, from);
    let mut start = first.start;
    let mut at = n;
    for k in first.index..m {
        if to <= start {
            return at;
        }
        let end = start + lens[k];
        let len = clip(from, to, start, end);
        at = push(olens, osets, at, len, change(sets[k], bits, gone));
        start = end;
    }
    at
}

// A run by its number, and its positions start .. end.
#[derive(Clone, Copy)]
pub struct Place {
    pub index: usize,
    pub start: u64,
    pub end: u64,
}

// The run that holds a position, looked for from the first run on.
fn find_forward(lens: &[u64], n: usize, pos: u64) -> Place
    requires { (n ≤ length lens.now) × (sums lens.now n < 2 ^ 63) }
    ensures { Found lens.now n pos result.index result.start result.end }
{
    let mut start: u64 = 0;
    for i in 0..n {
        let end = start + lens[i];
        if pos < end {
            return Place {
                index: i,
                start: start,
                end: end,
            };
        }
        start = end;
    }
    Place {
        index: n,
        start: start,
        end: start,
    }
}

// The same for a position below `all`, looked for from the last run back.
fn find_backward(lens: &[u64], n: usize, all: u64, pos: u64) -> Place
    requires { (n ≤ length lens.now) × (all ≡ sums lens.now n) × (all < 2 ^ 63) × (pos < all) }
    ensures { Found lens.now n pos result.index result.start result.end }
{
    let mut k = n;
    let mut start = all;
    // No range of runs: the walk ends by position.
    while pos < start {
        k -= 1;
        start -= lens[k];
    }
    Place {
        index: k,
        start: start,
        end: start + lens[k],
    }
}

// The run that holds the position `pos` of `all`, and the positions that it has; past the end, the number of runs and no positions. Its set is
// the one at its index: `find` reads the lengths alone, so that who asks for an extent lends nothing else.
//
// The walk is from the nearer end of what lies before the last run: of a tank that grew from a fresh one that run is the unmarked rest, far
// longer than all others, so that half of the length would send every position of the marked part to the front.
pub fn find(lens: &[u64], n: usize, all: u64, pos: u64) -> Place
    requires { (n ≤ length lens.now) × (all ≡ sums lens.now n) × (all < 2 ^ 63) }
    ensures { Found lens.now n pos result.index result.start result.end }
{
    if all <= pos {
        return Place {
            index: n,
            start: all,
            end: all,
        };
    }
    if pos < (all - lens[n - 1]) / 2 {
        return find_forward(lens, n, pos);
    }
    find_backward(lens, n, all, pos)
}

// Adds `bits` to the sets of the positions a .. b, and takes `gone` away from them.
pub fn alter(
    olens: &mut [u64],
    osets: &mut [u64],
    lens: &[u64],
    sets: &[u64],
    m: usize,
    all: u64,
    a: u64,
    b: u64,
    bits: u64,
    gone: u64,
) -> usize
    requires { (a ≤ b) × (b ≤ all) × CanEdit all (altered_at a b (changing bits gone) (set_at (runs lens.now sets.now m))) olens.old osets.old lens.now sets.now m all }
    ensures joined { Joined all (altered_at a b (changing bits gone) (set_at (runs lens.now sets.now m))) (runs olens.new osets.new result) }
    ensures same_behind { SameBehind result olens.old osets.old olens.new osets.new }
{
    let n = copy(olens, osets, 0, lens, sets, m, 0, a, 0, 0);
    let k = copy(olens, osets, n, lens, sets, m, a, b, bits, gone);
    copy(olens, osets, k, lens, sets, m, b, all, 0, 0)
}

// Takes the positions a .. b away.
pub fn delete(
    olens: &mut [u64],
    osets: &mut [u64],
    lens: &[u64],
    sets: &[u64],
    m: usize,
    all: u64,
    a: u64,
    b: u64,
) -> usize
    requires { (a ≤ b) × (b ≤ all) × CanEdit (all - (b - a)) (deleted_at a b (set_at (runs lens.now sets.now m))) olens.old osets.old lens.now sets.now m all }
    ensures joined { Joined (all - (b - a)) (deleted_at a b (set_at (runs lens.now sets.now m))) (runs olens.new osets.new result) }
    ensures same_behind { SameBehind result olens.old osets.old olens.new osets.new }
{
    let n = copy(olens, osets, 0, lens, sets, m, 0, a, 0, 0);
    copy(olens, osets, n, lens, sets, m, b, all, 0, 0)
}

// Puts `len` positions with the set `set` before position `pos`.
pub fn insert(
    olens: &mut [u64],
    osets: &mut [u64],
    lens: &[u64],
    sets: &[u64],
    m: usize,
    all: u64,
    pos: u64,
    len: u64,
    set: u64,
) -> usize
    requires { (pos ≤ all) × CanEdit (all + len) (inserted_at pos len set (set_at (runs lens.now sets.now m))) olens.old osets.old lens.now sets.now m all }
    ensures joined { Joined (all + len) (inserted_at pos len set (set_at (runs lens.now sets.now m))) (runs olens.new osets.new result) }
    ensures same_behind { SameBehind result olens.old osets.old olens.new osets.new }
{
    let n = copy(olens, osets, 0, lens, sets, m, 0, pos, 0, 0);
    let k = push(olens, osets, n, len, set);
    copy(olens, osets, k, lens, sets, m, pos, all, 0, 0)
}

// The set at a position, and 0 past the end.
pub fn set_at(lens: &[u64], sets: &[u64], n: usize, all: u64, pos: u64) -> u64
    requires { CanFind lens.now sets.now n all }
    ensures { result ≡ set_at (runs lens.now sets.now n) pos }
{
    let f = find(lens, n, all, pos);
    let i = f.index;
    if i < n { sets[i] } else { 0 }
}

// The first runs of a list: how many, and where they end.
#[derive(Clone, Copy)]
pub struct FirstRuns {
    pub count: usize,
    pub end: u64,
}

// The first runs that begin before the position `before`, no more than `budget`, and where they end, clipped at `before`.
pub fn first_runs(lens: &[u64], n: usize, before: u64, budget: u64) -> FirstRuns
    requires { (n ≤ length lens.now) × (before ≤ sums lens.now n) × (sums lens.now n < 2 ^ 63) }
    ensures { BudgetReaches lens.now n before budget result.count result.end }
{
    let most = n.min(budget as usize);
    let mut end: u64 = 0;
    for i in 0..most {
        if before <= end {
            return FirstRuns {
                count: i,
                end: before,
            };
        }
        end += lens[i];
    }
    FirstRuns {
        count: most,
        end: end.min(before),
    }
}
