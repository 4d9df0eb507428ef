// The edits of a list that is in joined form: the runs before and behind what an edit touches go over in one piece, and none of them is compared
// with its neighbour.

ghost use Rattle.std.specs.Prelude.{◌≡◌, ◌+◌, ◌-◌, ◌<◌, ◌≤◌, min, length};
ghost use Rattle.runs.specs.Edits.{Joined, CanEdit, Appended};
ghost use Rattle.runs.specs.Carry.{Carried, CanCarry};
ghost use Rattle.runs.specs.Positions.{altered_at, deleted_at, inserted_at};
ghost use Rattle.runs.specs.Runs.{runs, total, set_at, SameBehind, changing, Canon};

use super::{copy, find, push};

// The `count` numbers from place k of the source on, put in from place n on.
fn carry(out: &mut [u64], n: usize, source: &[u64], k: usize, count: usize)
    requires { (n + count ≤ length out.old) × (k + count ≤ length source.now) }
    ensures { Carried n k count source.now out.old out.new }
{
    out[n..n + count].copy_from_slice(&source[k..k + count]);
}

// The positions before `to`. Returns how many runs they have.
fn front(
    olens: &mut [u64],
    osets: &mut [u64],
    lens: &[u64],
    sets: &[u64],
    m: usize,
    all: u64,
    to: u64,
) -> usize
    requires { CanCarry olens.old osets.old 0 lens.now sets.now m all 0 to }
    ensures appended { Appended (runs olens.old osets.old 0) (min to (total (runs lens.now sets.now m)) - 0) (λ q. changing 0 0 (set_at (runs lens.now sets.now m) (0 + q))) (runs olens.new osets.new result) }
    ensures same_behind { SameBehind result olens.old osets.old olens.new osets.new }
{
    let f = find(lens, m, all, to);
    let i = f.index;
    carry(olens, 0, lens, 0, i);
    carry(osets, 0, sets, 0, i);
    if i < m {
        return push(olens, osets, i, to - f.start, sets[i]);
    }
    i
}

// The positions from `from` on, behind n runs. Returns how many runs there are then.
fn rear(
    olens: &mut [u64],
    osets: &mut [u64],
    n: usize,
    lens: &[u64],
    sets: &[u64],
    m: usize,
    all: u64,
    from: u64,
) -> usize
    requires { CanCarry olens.old osets.old n lens.now sets.now m all from all }
    ensures appended { Appended (runs olens.old osets.old n) (min all (total (runs lens.now sets.now m)) - from) (λ q. changing 0 0 (set_at (runs lens.now sets.now m) (from + q))) (runs olens.new osets.new result) }
    ensures same_behind { SameBehind result olens.old osets.old olens.new osets.new }
{
    let f = find(lens, m, all, from);
    let i = f.index;
    if m <= i {
        return n;
    }
    let at = push(olens, osets, n, f.end - from, sets[i]);
    let count = m - i - 1;
    carry(olens, at, lens, i + 1, count);
    carry(osets, at, sets, i + 1, count);
    at + count
}

// Adds `bits` to the sets of the positions a .. b, and takes `gone` away from them.
pub fn alter(
    olens: &mut [u64],
    osets: &mut [u64],
    lens: &[u64],
    sets: &[u64],
    m: usize,
    all: u64,
    a: u64,
    b: u64,
    bits: u64,
    gone: u64,
) -> usize
    requires { Canon (runs lens.now sets.now m) × ((a ≤ b) × (b ≤ all) × CanEdit all (altered_at a b (changing bits gone) (set_at (runs lens.now sets.now m))) olens.old osets.old lens.now sets.now m all) }
    ensures joined { Joined all (altered_at a b (changing bits gone) (set_at (runs lens.now sets.now m))) (runs olens.new osets.new result) }
    ensures same_behind { SameBehind result olens.old osets.old olens.new osets.new }
{
    let n = front(olens, osets, lens, sets, m, all, a);
    let k = copy(olens, osets, n, lens, sets, m, a, b, bits, gone);
    rear(olens, osets, k, lens, sets, m, all, b)
}

// Takes the positions a .. b away.
pub fn delete(
    olens: &mut [u64],
    osets: &mut [u64],
    lens: &[u64],
    sets: &[u64],
    m: usize,
    all: u64,
    a: u64,
    b: u64,
) -> usize
    requires { Canon (runs lens.now sets.now m) × ((a ≤ b) × (b ≤ all) × CanEdit (all - (b - a)) (deleted_at a b (set_at (runs lens.now sets.now m))) olens.old osets.old lens.now sets.now m all) }
    ensures joined { Joined (all - (b - a)) (deleted_at a b (set_at (runs lens.now sets.now m))) (runs olens.new osets.new result) }
    ensures same_behind { SameBehind result olens.old osets.old olens.new osets.new }
{
    let n = front(olens, osets, lens, sets, m, all, a);
    rear(olens, osets, n, lens, sets, m, all, b)
}

// Puts `len` positions with the set `set` before position `pos`.
pub fn insert(
    olens: &mut [u64],
    osets: &mut [u64],
    lens: &[u64],
    sets: &[u64],
    m: usize,
    all: u64,
    pos: u64,
    len: u64,
    set: u64,
) -> usize
    requires { Canon (runs lens.now sets.now m) × ((pos ≤ all) × CanEdit (all + len) (inserted_at pos len set (set_at (runs lens.now sets.now m))) olens.old osets.old lens.now sets.now m all) }
    ensures joined { Joined (all + len) (inserted_at pos len set (set_at (runs lens.now sets.now m))) (runs olens.new osets.new result) }
    ensures same_behind { SameBehind result olens.old osets.old olens.new osets.new }
{
    let n = front(olens, osets, lens, sets, m, all, pos);
    let k = push(olens, osets, n, len, set);
    rear(olens, osets, k, lens, sets, m, all, pos)
}
