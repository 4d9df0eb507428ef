// The stretches of a range, written into a lent buffer, and how many numbers they are.

ghost use Rattle.std.specs.Prelude.{◌≡◌, ◌++◌, ◌+◌, ◌≤◌, min, max, length, take, drop};
ghost use Rattle.std.specs.Int.Count.{ones};
ghost use Rattle.runs.specs.Runs.{runs, total, Canon};
ghost use Rattle.runs.specs.Stretches.{entry, in_front, listed, CanList, CanCount};

// How many marks a set has.
fn marks_of(set: u64) -> u64
    ensures { result ≡ ones set }
{
    styles::bits::count(set) as u64
}

// How many numbers a stretch takes: three, or none where it has no position or fewer marks than `least`.
fn width(start: u64, end: u64, marks: u64, least: u64) -> usize
    ensures { result ≡ length (entry least start end marks) }
{
    if end <= start {
        return 0;
    }
    if marks < least {
        return 0;
    }
    3
}

// Writes the numbers of a stretch from place `at` on. Returns the place after them.
fn write(out: &mut [u64], at: usize, start: u64, end: u64, marks: u64, least: u64) -> usize
    requires { at + length (entry least start end marks) ≤ length out.old }
    ensures out_after { out.new ≡ take at out.old ++ entry least start end marks ++ drop (at + length (entry least start end marks)) out.old }
    ensures value { result ≡ at + length (entry least start end marks) }
{
    if width(start, end, marks, least) == 0 {
        return at;
    }
    out[at] = start;
    out[at + 1] = end;
    out[at + 2] = marks;
    at + 3
}

// How many numbers the part of a stretch takes that lies in from .. to.
pub fn part_width(from: u64, to: u64, start: u64, end: u64, set: u64, least: u64) -> usize
    ensures { result ≡ length (entry least (max from start) (min to end) (ones set)) }
{
    width(from.max(start), to.min(end), marks_of(set), least)
}

// Writes the part of a stretch that lies in from .. to, from place `at` on. Returns the place after it.
pub fn write_part(
    out: &mut [u64],
    at: usize,
    from: u64,
    to: u64,
    start: u64,
    end: u64,
    set: u64,
    least: u64,
) -> usize
    requires { at + length (entry least (max from start) (min to end) (ones set)) ≤ length out.old }
    ensures out_after { out.new ≡ take at out.old ++ entry least (max from start) (min to end) (ones set) ++ drop (at + length (entry least (max from start) (min to end) (ones set))) out.old }
    ensures value { result ≡ at + length (entry least (max from start) (min to end) (ones set)) }
{
    write(out, at, from.max(start), to.min(end), marks_of(set), least)
}

// The stretches of from .. to, clipped to it, that have at least `least` marks. Returns how many numbers they are.
fn list(
    lens: &[u64],
    sets: &[u64],
    n: usize,
    from: u64,
    to: u64,
    least: u64,
    out: &mut [u64],
) -> usize
    requires { CanList least from to lens.now sets.now n out.old }
    ensures out_after { out.new ≡ in_front (listed least from to lens.now sets.now n) out.old }
    ensures value { result ≡ length (listed least from to lens.now sets.now n) }
{
    let mut start: u64 = 0;
    let mut at = 0;
    for k in 0..n {
        let end = start + lens[k];
        at = write_part(out, at, from, to, start, end, sets[k], least);
        start = end;
    }
    at
}

// The stretches of from .. to, clipped to it, as three numbers each at the front of `out`: start, end, count of marks. Returns how many numbers.
pub fn list_range(
    lens: &[u64],
    sets: &[u64],
    n: usize,
    from: u64,
    to: u64,
    out: &mut [u64],
) -> usize
    requires { CanList 0 from to lens.now sets.now n out.old }
    ensures out_after { out.new ≡ in_front (listed 0 from to lens.now sets.now n) out.old }
    ensures value { result ≡ length (listed 0 from to lens.now sets.now n) }
{
    list(lens, sets, n, from, to, 0, out)
}

// The same without the stretches that have no mark.
pub fn list_marked(
    lens: &[u64],
    sets: &[u64],
    n: usize,
    from: u64,
    to: u64,
    out: &mut [u64],
) -> usize
    requires { CanList 1 from to lens.now sets.now n out.old }
    ensures out_after { out.new ≡ in_front (listed 1 from to lens.now sets.now n) out.old }
    ensures value { result ≡ length (listed 1 from to lens.now sets.now n) }
{
    list(lens, sets, n, from, to, 1, out)
}

// How many numbers the stretches of from .. to take that have at least `least` marks.
fn need(lens: &[u64], sets: &[u64], n: usize, from: u64, to: u64, least: u64) -> usize
    requires { (CanCount lens.now sets.now n) × Canon (runs lens.now sets.now n) × (to ≤ total (runs lens.now sets.now n)) }
    ensures { result ≡ length (listed least from to lens.now sets.now n) }
{
    let mut start: u64 = 0;
    let mut count = 0;
    for k in 0..n {
        let end = start + lens[k];
        count += part_width(from, to, start, end, sets[k], least);
        start = end;
    }
    count
}

// How many numbers `list_range` writes.
pub fn need_range(lens: &[u64], sets: &[u64], n: usize, from: u64, to: u64) -> usize
    requires { (CanCount lens.now sets.now n) × Canon (runs lens.now sets.now n) × (to ≤ total (runs lens.now sets.now n)) }
    ensures { result ≡ length (listed 0 from to lens.now sets.now n) }
{
    need(lens, sets, n, from, to, 0)
}

// How many numbers `list_marked` writes.
pub fn need_marked(lens: &[u64], sets: &[u64], n: usize, from: u64, to: u64) -> usize
    requires { (CanCount lens.now sets.now n) × Canon (runs lens.now sets.now n) × (to ≤ total (runs lens.now sets.now n)) }
    ensures { result ≡ length (listed 1 from to lens.now sets.now n) }
{
    need(lens, sets, n, from, to, 1)
}
