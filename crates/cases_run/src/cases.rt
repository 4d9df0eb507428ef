// The examples, a function each.
ghost use Rattle.tank.specs.State.{Formed, Sound};

use crate::print::{
    say, say_mark, say_number, say_refusal, say_set, say_shown, say_tank, say_told,
};
use refusal::Refusal;
use styles::{Mark, Party, Value};
use tank::Tank;

fn mark(key: u16, lamport: u32, peer: u64) -> Mark {
    Mark {
        key,
        flags: 0x84,
        party: Party::Plant,
        lamport,
        cnt: 0,
        peer,
        value: Value::Null,
    }
}

fn a() -> Mark {
    mark(1, 5, 1)
}

fn b() -> Mark {
    mark(1, 5, 2)
}

fn c() -> Mark {
    mark(2, 3, 1)
}

// The mark with yes or no for its value.
fn saying(m: Mark, b: bool) -> Mark {
    Mark {
        value: Value::Flag(b),
        ..m
    }
}

// What a key shows at a position.
fn shows(t: Tank, pos: u64, key: u16)
    requires { Sound t }
{
    say(b"key ");
    say_number(key as u64);
    say(b" at ");
    say_number(pos);
    say(b":");
    say_shown(questions::value_at(t, pos, key));
    say(b"\n");
}

// Whether a range has a key.
fn has_key(t: Tank, start: u64, end: u64, key: u16)
    requires { Sound t }
{
    say(b"key ");
    say_number(key as u64);
    say(b" in ");
    say_number(start);
    say(b"..");
    say_number(end);
    say(b":");
    say_told(questions::range_contains_key(t, start, end, key));
    say(b"\n");
}

// The tank for the next call, which takes at most 512 runs. No example comes near that; a fresh one would stand in.
fn next(t: Tank) -> Tank
    requires { Formed t }
    ensures { Sound result }
{
    if t.runs <= 512 {
        return t;
    }
    Tank::fresh()
}

fn number_in(answer: Result<(), Refusal>) -> u64 {
    match answer {
        Ok(()) => 0,
        Err(refusal) => refusal.number(),
    }
}

fn annotate(mut t: Tank, start: u64, end: u64, m: Mark) -> Tank
    requires { Sound t }
    ensures { Sound result }
{
    let r = t.annotate(start, end, m);
    say(b"annotate ");
    say_number(start);
    say(b"..");
    say_number(end);
    say_mark(m);
    say(b":");
    say_refusal(number_in(r));
    say_tank(t);
    next(t)
}

fn insert(mut t: Tank, pos: u64, len: u64) -> Tank
    requires { Sound t }
    ensures { Sound result }
{
    let r = t.insert(Party::Plant, pos, len);
    say(b"insert ");
    say_number(pos);
    say(b", len ");
    say_number(len);
    say(b":");
    match r {
        Ok(styles) => {
            say_refusal(0);
            say_set(styles);
        }
        Err(refusal) => {
            say_refusal(refusal.number());
            say_set(styles::table::no_marks());
        }
    }
    say_tank(t);
    next(t)
}

fn delete(mut t: Tank, start: u64, end: u64) -> Tank
    requires { Sound t }
    ensures { Sound result }
{
    let r = t.delete(Party::Plant, start, end);
    say(b"delete ");
    say_number(start);
    say(b"..");
    say_number(end);
    say(b":");
    say_refusal(number_in(r));
    say_tank(t);
    next(t)
}

fn remove(mut t: Tank, m: Mark, last: u64) -> Tank
    requires { Sound t }
    ensures { Sound result }
{
    let id = styles::order::id_of(m);
    let r = t.remove_style_scanning_backward(id, last);
    say(b"remove from ");
    say_number(last);
    say_mark(m);
    say(b":");
    match r {
        Ok(first) => {
            say_refusal(0);
            say(b" first=");
            say_number(first);
        }
        Err(refusal) => {
            say_refusal(refusal.number());
            say(b" first=0");
        }
    }
    say_tank(t);
    next(t)
}

// A fresh tank with A on 10..20.
fn marked() -> Tank
    ensures { Sound result }
{
    let t = Tank::fresh();
    annotate(t, 10, 20, a())
}

pub(crate) fn one() {
    say(b"example 1\n");
    let t = Tank::fresh();
    insert(t, 5, 3);
}

// Where A starts and ends: removals from its last position and from the next tell.
pub(crate) fn two() {
    say(b"example 2\n");
    let t = marked();
    remove(t, a(), 19);
    remove(t, a(), 20);
}

pub(crate) fn three() {
    say(b"example 3\n");
    let t = marked();
    let u = insert(t, 15, 4);
    remove(u, a(), 23);
    remove(u, a(), 24);
}

pub(crate) fn four() {
    say(b"example 4\n");
    let t = marked();
    let u = insert(t, 10, 4);
    remove(u, a(), 23);
    remove(u, a(), 24);
}

pub(crate) fn five() {
    say(b"example 5\n");
    let t = marked();
    let u = annotate(t, 15, 25, c());
    insert(u, 15, 2);
}

pub(crate) fn six() {
    say(b"example 6\n");
    let t = marked();
    let u = annotate(t, 20, 30, c());
    insert(u, 20, 1);
}

// Both marks, in order, as an insertion between them shows.
pub(crate) fn seven() {
    say(b"example 7\n");
    let t = marked();
    let u = annotate(t, 10, 20, b());
    insert(u, 15, 1);
    let v = annotate(Tank::fresh(), 10, 20, saying(a(), false));
    let w = annotate(v, 10, 20, saying(b(), true));
    shows(w, 15, 1);
}

pub(crate) fn eight() {
    say(b"example 8\n");
    let t = marked();
    let u = delete(t, 10, 20);
    insert(u, 0, 10);
}

pub(crate) fn nine() {
    say(b"example 9\n");
    let t = marked();
    remove(t, a(), 19);
}

pub(crate) fn ten() {
    say(b"example 10\n");
    let t = marked();
    let u = remove(t, a(), 14);
    remove(u, a(), 19);
    remove(t, a(), 5);
}

pub(crate) fn eleven() {
    say(b"example 11\n");
    let t = annotate(Tank::fresh(), 10, 20, a());
    has_key(t, 20, 30, 1);
    has_key(t, 19, 20, 1);
    has_key(t, 5, 5, 1);
}
