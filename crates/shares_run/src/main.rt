// Document 01's case 12 through the calls, then a long run of mixed calls at the boundary of 512 runs, and what both found.
#![tactic(auto)]

ghost use Rattle.std.specs.Prelude.{◌≤◌};
ghost use Rattle.tanks.specs.Pool.{Sound};

use refusal::Refusal;
use styles::{Identity, Mark, Party, Value};
use tanks::{Count, Edit, Setting, Tanks};

// The long run: calls by the number they got, how often the sum was 512 after a call, and how often something was amiss.
#[derive(Clone, Copy)]
struct Tally {
    by_number: [u64; 11],
    full: u64,
    amiss: u64,
}

#[derive(Clone, Copy)]
struct Run {
    tanks: Tanks,
    tally: Tally,
    seed: u64,
}

fn mark(key: u16) -> Mark {
    Mark {
        key,
        flags: 0x84,
        party: Party::Plant,
        lamport: 5,
        cnt: 0,
        peer: 1,
        value: Value::Flag(true),
    }
}

// What a call comes to: 0 or the refusal's number, and the tanks after it.
#[derive(Clone, Copy)]
struct Edited {
    number: u64,
    tanks: Tanks,
}

fn number_in(answer: Result<(), Refusal>) -> u64 {
    match answer {
        Ok(()) => 0,
        Err(refusal) => refusal.number(),
    }
}

fn show(name: &[u8], n: u64) {
    io::write_all(1, name);
    io::print_decimal(1, n);
    io::write_all(1, b"\n");
}

// The runs that a tank holds; 1000 stands for a refusal.
fn runs(s: Tanks, t: u64) -> u64
    requires { Sound s }
    ensures { result ≤ 1000 }
{
    let c = s.runs(t);
    match c {
        Count::Refused(_) => 1000,
        Count::Counts(n) => { if n < 1000 { n } else { 1000 } }
    }
}

// What a tank with share 40 takes up.
fn claim(s: Tanks, t: u64) -> u64
    requires { Sound s }
    ensures { result ≤ 1000 }
{
    runs(s, t).max(40)
}

fn four(s: Tanks, t: u64) -> u64
    requires sound { Sound s }
    requires t_bound { t ≤ 4 }
    ensures { result ≤ 4000 }
{
    let a = claim(s, t);
    let b = claim(s, t + 1);
    let c = claim(s, t + 2);
    let d = claim(s, t + 3);
    a + b + c + d
}

fn sum(s: Tanks) -> u64
    requires { Sound s }
    ensures { result ≤ 8000 }
{
    let a = four(s, 0);
    let b = four(s, 4);
    a + b
}

// n marked stretches of 10 positions, 10 positions apart, the first at `start`.
fn filled(s: Tanks, tank: u64, start: u64, n: u64) -> Tanks
    requires sound { Sound s }
    requires start_bound { (start ≤ 10) × (n ≤ 100) }
    ensures { Sound result }
{
    let mut u = s;
    for i in 0..n {
        let _done = u.annotate(tank, start + 20 * i, start + 20 * i + 10, mark(1));
    }
    u
}

// Tanks 0 to 3 hold 200, 72, 40 and 39 runs, the others 40.
fn boundary(s: Tanks) -> Tanks
    requires { Sound s }
    ensures { Sound result }
{
    let a = filled(s, 0, 0, 100);
    let b = filled(a, 1, 0, 36);
    let c = filled(b, 2, 0, 20);
    let d = filled(c, 3, 10, 19);
    let e = filled(d, 4, 0, 20);
    let f = filled(e, 5, 0, 20);
    let g = filled(f, 6, 0, 20);
    filled(g, 7, 0, 20)
}

// One run more at the end of a tank.
fn one_more(s: Tanks, tank: u64) -> Edited
    requires { Sound s }
    ensures { Sound result.tanks }
{
    let mut tanks = s;
    let done = tanks.annotate(tank, 4611686018427387893, 4611686018427387903, mark(1));
    Edited {
        number: number_in(done),
        tanks: tanks,
    }
}

fn show_runs(s: Tanks)
    requires { Sound s }
{
    show(b"tank 0 runs=", runs(s, 0));
    show(b"tank 1 runs=", runs(s, 1));
    show(b"tank 2 runs=", runs(s, 2));
    show(b"tank 3 runs=", runs(s, 3));
    show(b"tank 7 runs=", runs(s, 7));
    show(b"sum=", sum(s));
}

// The next of a sequence of numbers that repeats late.
fn next(x: u64) -> u64 {
    (x % 2147483648 * 1103515245 + 12345) % 2147483648
}

fn part(x: u64, n: u64) -> u64
    requires { 1 ≤ n }
    ensures { result ≤ n }
{
    x / 65536 % n
}

fn key_of(n: u64) -> u16 {
    match n {
        0..=3 => 1,
        4..=5 => 2,
        _ => 3,
    }
}

fn more(n: u64) -> u64 {
    if n < 1000000 { n + 1 } else { n }
}

// Four calls of seven annotate; one each deletes, inserts and removes.
fn called(s: Tanks, kind: u64, tank: u64, at: u64, n: u64, key: u16) -> Edited
    requires sound { Sound s }
    requires at_bound { (at ≤ 10000) × (n ≤ 100) }
    ensures { Sound result.tanks }
{
    let call = match kind {
        0..=3 => Edit::Annotate(at, at + n, mark(key)),
        4 => Edit::Delete(Party::Plant, at, at + n),
        5 => Edit::Insert(Party::Plant, at, n),
        _ => Edit::Remove(
            Identity {
                party: Party::Plant,
                key,
                lamport: 5,
                peer: 1,
            },
            at,
        ),
    };
    let mut tanks = s;
    let number = match tanks.apply(tank, call) {
        Ok(_) => 0,
        Err(refusal) => refusal.number(),
    };
    Edited {
        number: number,
        tanks: tanks,
    }
}

// Whether the limit of 80 or the sum was passed, or a refused call changed how many runs there are.
fn amiss(before: Tanks, after: Tanks, number: u64, tank: u64) -> bool
    requires sound { Sound before }
    requires sound_2 { Sound after }
{
    if 512 < sum(after) {
        return true;
    }
    if tank == 8 {
        return number != 1;
    }
    if 80 < runs(after, tank) {
        return true;
    }
    if number == 0 {
        return false;
    }
    if sum(before) != sum(after) {
        return true;
    }
    runs(before, tank) != runs(after, tank)
}

fn counted(t: Tally, number: u64, full: bool, amiss: bool) -> Tally {
    let mut u = t;
    if number < 11 {
        let i = number as usize;
        let n = u.by_number[i];
        u.by_number[i] = more(n);
    }
    if full {
        u.full = more(u.full);
    }
    if amiss {
        u.amiss = more(u.amiss);
    }
    u
}

fn turn(r: Run) -> Run
    requires { Sound r.tanks }
    ensures { Sound result.tanks }
{
    let s = r.tanks;
    let a = next(r.seed);
    let b = next(a);
    let c = next(b);
    let d = next(c);
    let f = next(d);
    let tank = part(b, 9);
    let e = called(
        s,
        part(a, 7),
        tank,
        part(c, 4200),
        part(d, 25),
        key_of(part(f, 7)),
    );
    let t = e.tanks;
    let number = e.number;
    let tally = r.tally;
    Run {
        tanks: t,
        tally: counted(tally, number, sum(t) == 512, amiss(s, t, number, tank)),
        seed: f,
    }
}

fn long_run(s: Tanks, turns: u64) -> Run
    requires { Sound s }
    ensures { Sound result.tanks }
{
    let mut r = Run {
        tanks: s,
        tally: Tally {
            by_number: [0; 11],
            full: 0,
            amiss: 0,
        },
        seed: 1,
    };
    for _ in 0..turns {
        r = turn(r);
    }
    r
}

fn show_tally(t: Tally) {
    show(b"number 0 calls=", t.by_number[0]);
    show(b"number 1 calls=", t.by_number[1]);
    show(b"number 3 calls=", t.by_number[3]);
    show(b"number 9 calls=", t.by_number[9]);
    show(b"number 10 calls=", t.by_number[10]);
    show(b"sum 512 after calls=", t.full);
    show(b"amiss=", t.amiss);
}

// Case 12: tank 2 to 41 runs, tank 0 to 201, tank 3 from 39 to 40.
fn case_12(s: Tanks)
    requires { Sound s }
{
    let full = boundary(s);
    show_runs(full);
    show(b"tank 2 to 41 number=", one_more(full, 2).number);
    show(b"tank 0 to 201 number=", one_more(full, 0).number);
    let three = one_more(full, 3);
    show(b"tank 3 to 40 number=", three.number);
    show_runs(three.tanks);
}

fn long(s: Tanks)
    requires { Sound s }
{
    let r = long_run(s, 20000);
    show_tally(r.tally);
    show_runs(r.tanks);
}

fn main() {
    let a = tanks::open([Setting {
        share: 40,
        limit: 200,
    }; 8]);
    show(b"open number=", a.number);
    case_12(a.tanks);
    let b = tanks::open([Setting {
        share: 40,
        limit: 80,
    }; 8]);
    show(b"open number=", b.number);
    long(b.tanks);
}
