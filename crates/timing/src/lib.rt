// The work of `bench/` on the tank map: a tank is built, one call is made on it `turns` times, and what the calls answer is added up, so that
// the benchmark sees that both sides did the same. `specs/Work.antt` says what the sum is, by the rules alone. Which of the eight tanks it is,
// and what its keys are counted from, is handed in, so that no compiler can make a call for one tank or key.
#![tactic(auto)]

ghost use Rattle.std.specs.Prelude.{◌≡◌, ◌/◌, ◌%◌, ◌<◌, ◌≤◌, if◌then◌else◌, nat_eq};
ghost use Rattle.styles.specs.Order.{id_of};
ghost use Rattle.refusal.specs.Answers.{number_in};
ghost use Rattle.tanks.specs.House.{tank_at};
ghost use Rattle.tanks.specs.Pool.{meaning, Sound};
ghost use Rattle.tanks.specs.Promises.{edit_of};
ghost use Rattle.styles.specs.declared.Party.TheVariants.{Plant};
ghost use Rattle.ask.specs.Asks.{key_asked};
ghost use Rattle.timing.specs.Work as rules;
ghost use Rattle.timing.specs.Promises.{MeansHouse, Sized};

use questions::{Shown, Told};
use refusal::Refusal;
use std::num::wrapping_add_u64;
use styles::values::same_value;
use styles::{Identity, Mark, Party, Value};
use tanks::{Count, Done, Edit, Setting, Tanks};

// So many runs that a marked one has a neighbour, and that there is room for two more.
fn sized(runs: u64) -> u64
    ensures { result ≡ rules.sized runs }
{
    runs.clamp(3, 503)
}

// At least one mark, and room for the extra one.
fn marked(marks: u64) -> u64
    ensures { result ≡ rules.marked marks }
{
    marks.clamp(1, 47)
}

// Mark b of the tank.
fn mark(base: u64, b: u64) -> Mark
    requires { (base < 32768) × (b ≤ 63) }
    ensures { result ≡ rules.mark_b base b }
{
    Mark {
        key: (base + b + 1) as u16,
        flags: 0x84,
        party: Party::Plant,
        lamport: (b + 10) as u32,
        cnt: 0,
        peer: 1,
        value: Value::Whole((b + 1) as i64),
    }
}

// The mark that annotate and removal are timed with.
fn extra(base: u64) -> Mark
    requires { base < 32768 }
    ensures { result ≡ rules.extra base }
{
    Mark {
        key: (base + 777) as u16,
        flags: 0x84,
        party: Party::Plant,
        lamport: 1,
        cnt: 0,
        peer: 1,
        value: Value::Null,
    }
}

// Its identity.
fn extra_id(base: u64) -> Identity
    requires { base < 32768 }
    ensures { result ≡ id_of (rules.extra base) }
{
    Identity {
        party: Party::Plant,
        key: (base + 777) as u16,
        lamport: 1,
        peer: 1,
    }
}

// The lab's mark, in a tank that both parties have marks in.
fn others(base: u64) -> Mark
    requires { base < 32768 }
    ensures { result ≡ rules.others base }
{
    Mark {
        key: (base + 888) as u16,
        flags: 0x84,
        party: Party::Lab,
        lamport: 1,
        cnt: 0,
        peer: 2,
        value: Value::Null,
    }
}

// The tank with a mark more.
fn annotated(s: Tanks, tank: u64, start: u64, end: u64, m: Mark) -> Tanks
    requires { Sound s }
    ensures { MeansHouse (rules.annotated tank start end m (meaning s)) result }
{
    let mut tanks = s;
    let _done = tanks.annotate(tank, start, end, m);
    tanks
}

// The lower half of the marks, on all marked runs.
fn lower(s: Tanks, tank: u64, base: u64, runs: u64, marks: u64) -> Tanks
    requires sound { Sound s }
    requires base_bound { (base < 32768) × Sized runs × (marks ≤ 63) }
    ensures { MeansHouse (rules.lower tank base runs marks (meaning s)) result }
{
    let mut u = s;
    for b in 0..marks / 2 {
        u = annotated(u, tank, runs % 2 * 10, runs * 10 - 10, mark(base, b));
    }
    u
}

// Mark b on every other run.
fn every_other(s: Tanks, tank: u64, base: u64, runs: u64, b: u64) -> Tanks
    requires sound { Sound s }
    requires base_bound { (base < 32768) × Sized runs × (b ≤ 63) }
    ensures { MeansHouse (rules.every_other tank base runs b (meaning s)) result }
{
    let mut u = s;
    for j in 0..runs / 2 {
        let at = (runs % 2 + j * 2) * 10;
        u = annotated(u, tank, at, at + 10, mark(base, b));
    }
    u
}

// The upper half of the marks, each on every other run.
fn upper(s: Tanks, tank: u64, base: u64, runs: u64, marks: u64) -> Tanks
    requires sound { Sound s }
    requires base_bound { (base < 32768) × Sized runs × (marks ≤ 63) }
    ensures { MeansHouse (rules.upper tank base runs marks (meaning s)) result }
{
    let mut u = s;
    for j in 0..marks - marks / 2 {
        u = every_other(u, tank, base, runs, marks / 2 + j);
    }
    u
}

// The tank that the work starts from, as `bench/src/work.rs` has it, with all room for it.
fn built(tank: u64, base: u64, runs: u64, marks: u64) -> Tanks
    requires { (tank < 8) × (base < 32768) × Sized runs × (marks ≤ 63) }
    ensures { MeansHouse (rules.built tank base runs marks) result }
{
    let mut settings = [Setting { share: 1, limit: 1 }; 8];
    settings[tank as usize] = Setting {
        share: 1,
        limit: 505,
    };
    let o = tanks::open(settings);
    upper(
        lower(o.tanks, tank, base, runs, marks),
        tank,
        base,
        runs,
        marks,
    )
}

// A remainder.
fn rest(x: u64, n: u64) -> u64
    requires { 0 < n }
    ensures { (result ≡ x % n) × (result < n) }
{
    x % n
}

// Where the run begins that a turn works on: all marked runs in an order that jumps.
fn spot(runs: u64, turn: u64) -> u64
    requires { Sized runs }
    ensures { (result ≡ rules.spot runs turn) × (result ≤ 5020) }
{
    let marked = runs - 1;
    rest(rest(turn, marked) * 7 + 3, marked) * 10
}

// Where the run in the middle begins.
fn middle(runs: u64) -> u64
    requires { Sized runs }
    ensures { (result ≡ rules.middle runs) × (result ≤ 5020) }
{
    (runs - 1) / 2 * 10
}

// The edit of a turn, for works 0 to 7.
fn edit_at(work: u64, base: u64, runs: u64, turn: u64) -> Edit
    requires { (base < 32768) × Sized runs }
    ensures { edit_of result ≡ rules.edit_at work base runs turn }
{
    let at = spot(runs, turn);
    match work {
        0 => Edit::Annotate(at + 3, at + 8, extra(base)),
        1 => Edit::Annotate(1, runs * 10 - 11, extra(base)),
        2 => Edit::Insert(Party::Plant, at + 5, 1),
        3 => Edit::Insert(Party::Plant, at + 10, 2),
        4 => Edit::Delete(Party::Plant, at + 4, at + 6),
        5 => Edit::Delete(Party::Plant, at + 5, at + 15),
        6 => Edit::Remove(extra_id(base), middle(runs) + 9),
        _ => Edit::Remove(extra_id(base), runs * 10 - 11),
    }
}

// What the edits start from: for a removal one run in the middle, or the whole marked part, carries the extra mark.
fn carrying(work: u64, tank: u64, base: u64, runs: u64, s: Tanks) -> Tanks
    requires sound { Sound s }
    requires base_bound { (base < 32768) × Sized runs }
    ensures { MeansHouse (rules.carrying work tank base runs (meaning s)) result }
{
    if work == 6 {
        let at = middle(runs);
        return annotated(s, tank, at, at + 10, extra(base));
    }
    if work == 7 {
        return annotated(s, tank, 0, runs * 10 - 10, extra(base));
    }
    s
}

// What is asked: from work 12 on the run in the middle carries the lab's mark too.
fn parted(work: u64, tank: u64, base: u64, runs: u64, s: Tanks) -> Tanks
    requires sound { Sound s }
    requires base_bound { (base < 32768) × Sized runs }
    ensures { MeansHouse (rules.parted work tank base runs (meaning s)) result }
{
    if work < 12 {
        return s;
    }
    let at = middle(runs);
    annotated(s, tank, at, at + 10, others(base))
}

// How many positions the tank has.
fn length(s: Tanks, tank: u64) -> u64
    requires { (Sound s) × (tank < 8) }
    ensures { result ≡ (tank_at (meaning s) tank).length }
{
    let c = s.length(tank);
    match c {
        Count::Refused(_) => 0,
        Count::Counts(n) => n,
    }
}

// An insertion counts for the marks of its answer, another edit for its number.
fn score(work: u64, marks: u64, number: u64) -> u64
    ensures { result ≡ (if nat_eq (work / 2) 1 then marks else number) }
{
    if work / 2 == 1 { marks } else { number }
}

// 1 for yes.
fn one_if_yes(t: Told) -> u64
    ensures { result ≡ rules.one_if_yes t }
{
    match t {
        Told::Refused(_) => 0,
        Told::No => 0,
        Told::Yes => 1,
    }
}

// n, where n is the whole number that is shown, else 0.
fn if_shown(n: u64, s: Shown) -> u64
    requires { n ≤ 63 }
    ensures { result ≡ rules.if_shown n s }
{
    match s {
        Shown::Refused(_) => 0,
        Shown::Nothing => 0,
        Shown::Shows(v) => {
            if same_value(v, Value::Whole(n as i64)) {
                n
            } else {
                0
            }
        }
    }
}

// Whether a mark with the extra one's key is left: 1 for yes.
fn has_extra(s: Tanks, tank: u64, base: u64) -> u64
    requires { (Sound s) × (base < 32768) }
    ensures { result ≡ rules.extra_left tank base (meaning s) }
{
    one_if_yes(ask::range_contains_key(s, tank, Party::Plant, 0, 5000, (base + 777) as u16))
}

// Where the range begins that is asked for a key: three positions of a run, or for the wide work the whole marked part.
fn key_from(work: u64, runs: u64, turn: u64) -> u64
    requires { Sized runs }
    ensures { result ≡ rules.key_from work runs turn }
{
    if work % 2 == 0 {
        spot(runs, turn) + 3
    } else {
        0
    }
}

// Where it ends.
fn key_to(work: u64, runs: u64, turn: u64) -> u64
    requires { Sized runs }
    ensures { result ≡ rules.key_to work runs turn }
{
    if work % 2 == 0 {
        spot(runs, turn) + 6
    } else {
        runs * 10 - 10
    }
}

// What an edit's answer counts for.
fn scored(work: u64, answer: Result<Done, Refusal>) -> u64
    ensures { result ≡ (if nat_eq (work / 2) 1 then rules.marks_given answer else number_in answer) }
{
    match answer {
        Ok(done) => score(work, done.styles.count as u64, 0),
        Err(refusal) => score(work, 0, refusal.number()),
    }
}

// Works 0 to 7. That the last state is asked two questions keeps a compiler from leaving the edits' work undone.
fn edits(work: u64, s: Tanks, tank: u64, base: u64, runs: u64, turns: u64) -> u64
    requires sound { (Sound s) × (tank < 8) }
    requires base_bound { (base < 32768) × Sized runs }
    ensures { result ≡ rules.edit_sum work tank base runs turns (meaning s) }
{
    let mut u = s;
    let mut sum = 0;
    for k in 0..turns {
        u = s;
        let answer = u.edit(tank, edit_at(work, base, runs, k));
        sum = wrapping_add_u64(sum, scored(work, answer));
    }
    wrapping_add_u64(
        sum,
        wrapping_add_u64(length(u, tank), has_extra(u, tank, base)),
    )
}

// Works 8, 9, 12 and 13: a key that no mark has, in a range.
fn keys(work: u64, s: Tanks, tank: u64, base: u64, runs: u64, turns: u64) -> u64
    requires sound { Sound s }
    requires base_bound { (base < 32768) × Sized runs }
    ensures { result ≡ rules.summed (rules.key_score work tank base runs (meaning s)) turns }
{
    let mut sum = 0;
    for k in 0..turns {
        let from = key_from(work, runs, k);
        let to = key_to(work, runs, k);
        let t = ask::range_contains_key(s, tank, Party::Plant, from, to, (base + 999) as u16);
        sum = wrapping_add_u64(sum, one_if_yes(t));
    }
    sum
}

// Works 10 and 14: the value of the highest key at a position.
fn values(s: Tanks, tank: u64, base: u64, runs: u64, marks: u64, turns: u64) -> u64
    requires sound { Sound s }
    requires base_bound { (base < 32768) × Sized runs × (marks ≤ 63) }
    ensures { result ≡ rules.summed (rules.value_score tank base runs marks (meaning s)) turns }
{
    let mut sum = 0;
    for k in 0..turns {
        let at = spot(runs, k) + 5;
        let key = (base + marks) as u16;
        let v = ask::value_at(s, tank, Party::Plant, at, key);
        sum = wrapping_add_u64(sum, if_shown(marks, v));
    }
    sum
}

// Works 11 and 15: the marks at a position.
fn sets(s: Tanks, tank: u64, runs: u64, turns: u64) -> u64
    requires sound { Sound s }
    requires sized { Sized runs }
    ensures { result ≡ rules.summed (rules.set_score tank runs (meaning s)) turns }
{
    let mut sum = 0;
    for k in 0..turns {
        let a = ask::styles_at(s, tank, Party::Plant, spot(runs, k) + 5);
        sum = wrapping_add_u64(sum, a.styles.count as u64);
    }
    sum
}

// Works 8 to 15.
fn asking(work: u64, s: Tanks, tank: u64, base: u64, runs: u64, marks: u64, turns: u64) -> u64
    requires sound { Sound s }
    requires base_bound { (base < 32768) × Sized runs × (marks ≤ 63) }
    ensures { result ≡ rules.ask_sum work tank base runs marks turns (meaning s) }
{
    if work % 4 < 2 {
        return keys(work, s, tank, base, runs, turns);
    }
    if work % 4 == 2 {
        return values(s, tank, base, runs, marks, turns);
    }
    sets(s, tank, runs, turns)
}

// The sum of a work, from 0 to 15, over so many turns on a tank of so many runs and marks; any other number answers 0. The tank's number counts
// modulo 8, and what keys are counted from modulo 32,768.
pub fn timing(work: u64, tank: u64, base: u64, runs: u64, marks: u64, turns: u64) -> u64
    ensures { result ≡ rules.timed work (tank % 8) (base % 32768) (rules.sized runs) (rules.marked marks) turns }
{
    let t = rest(tank, 8);
    let b = rest(base, 32768);
    let n = sized(runs);
    let m = marked(marks);
    let s = built(t, b, n, m);
    if work < 8 {
        return edits(work, carrying(work, t, b, n, s), t, b, n, turns);
    }
    if work < 16 {
        return asking(work, parted(work, t, b, n, s), t, b, n, m, turns);
    }
    0
}
