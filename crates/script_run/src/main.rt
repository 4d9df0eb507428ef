// Reads a call script to its end and prints each call again from what was read of it; a bad line, or an end in the middle
// of a line or a group, ends the run with its number.
#![tactic(auto)]

ghost use Rattle.std.specs.Prelude.{◌+◌, ◌≤◌, ◌<◌, length};

use script::{Call, Ending, Event, Fed, Holds, Name, Reader};
use std::io::Read;
use std::rt::Stdin;

// Where the run stands: the reader, how much of the output waits, and whether the run is over.
#[derive(Clone, Copy)]
struct State {
    reader: Reader,
    at: usize,
    over: bool,
}

// A line of a name that is a value, and one of a name and a number, where there is room for both names.
fn put_named(out: &mut [u8], at: usize, name: &[u8], n: Name) -> usize
    requires { (length name.now ≤ 16) × (at + 64 ≤ length out.old) }
{
    let t = n.text;
    let len = n.len;
    if len <= 16 {
        let k = io::count(len as isize, &t);
        if k <= 16 {
            return script::put_line(out, at, name, &t[..k]);
        }
    }
    at
}

fn put_numbered(out: &mut [u8], at: usize, n: Name, x: u64) -> usize
    requires { at + 64 ≤ length out.old }
{
    let t = n.text;
    let len = n.len;
    if len <= 16 {
        let k = io::count(len as isize, &t);
        if k <= 16 {
            return script::put_field(out, at, &t[..k], x);
        }
    }
    at
}

// What a call has at a place; a value is put with its kind, a byte and a party as their numbers.
fn put_place(out: &mut [u8], at: usize, call: Call, place: usize) -> usize
    requires { (place < 16) × (64 ≤ length out.old) }
{
    let free = script::flushed(out, at, 64);
    let f = script::field_at(call.row, place);
    let numbers = call.numbers;
    match script::field_holds(f) {
        Holds::Number(_) | Holds::Byte | Holds::Party => {
            put_numbered(out, free, script::field_name(f), numbers[place])
        }
        Holds::Counter => script::put_counter(out, free, call.cnt),
        Holds::Kind => {
            let v = call.value;
            script::put_value(out, free, v)
        }
        Holds::Nothing | Holds::Op | Holds::Value => free,
    }
}

// All of a call.
fn put_call(out: &mut [u8], at: usize, call: Call) -> usize
    requires { 64 ≤ length out.old }
{
    let free = script::flushed(out, at, 64);
    let mut k = put_named(out, free, b"op=", script::op_name(call.row));
    for i in 0..16 {
        k = put_place(out, k, call, i);
    }
    k
}

// The number of the line at which the run ends.
fn put_bad(out: &mut [u8], at: usize, r: Reader) -> usize
    requires { 64 ≤ length out.old }
{
    let free = script::flushed(out, at, 64);
    script::put_field(out, free, b"malformed=", script::line_number(r))
}

// What the bytes brought is answered.
fn answered(out: &mut [u8], at: usize, f: Fed) -> State
    requires { 64 ≤ length out.old }
{
    let r = f.reader;
    let call = f.call;
    let e = f.event;
    match e {
        Event::Nothing => State {
            reader: r,
            at: at,
            over: false,
        },
        Event::Bad => {
            let k = put_bad(out, at, r);
            State {
                reader: r,
                at: k,
                over: true,
            }
        }
        Event::Call => {
            let k = put_call(out, at, call);
            State {
                reader: r,
                at: k,
                over: false,
            }
        }
    }
}

// The bytes of one read, a line to a turn: the reader says where the next one begins.
fn eat(bytes: &[u8], s: State, out: &mut [u8]) -> State
    requires { 64 ≤ length out.old }
{
    let mut now = s;
    let mut from = 0;
    while from < bytes.len() {
        let r = now.reader;
        let f = script::feed(r, bytes, from);
        from = f.at;
        now = answered(out, now.at, f);
        if now.over {
            return now;
        }
    }
    now
}

// Reads what has come on standard input; nothing at its end, and where it can't be read.
fn heard(input: Stdin, buf: &mut [u8]) -> usize
    ensures { result ≤ length buf.new }
{
    let mut from = input;
    from.read(buf).unwrap_or(0)
}

// One read; at the end of the input the run is over.
fn turn(input: Stdin, s: State, out: &mut [u8]) -> State
    requires { 64 ≤ length out.old }
{
    let mut buf = io::large_buffer();
    let n = heard(input, &mut buf);
    if n == 0 {
        return closed(s, out);
    }
    eat(&buf[..n], s, out)
}

// The end of the input.
fn closed(s: State, out: &mut [u8]) -> State
    requires { 64 ≤ length out.old }
{
    let r = s.reader;
    let e = script::ended(r);
    match e {
        Ending::Clean => State {
            reader: r,
            at: s.at,
            over: true,
        },
        Ending::Cut => {
            let k = put_bad(out, s.at, r);
            State {
                reader: r,
                at: k,
                over: true,
            }
        }
    }
}

// All of the input: the count of turns is one that no run uses up.
fn all(input: Stdin, s: State, out: &mut [u8]) -> State
    requires { 64 ≤ length out.old }
{
    let mut now = s;
    for _ in 0..u64::MAX {
        now = turn(input, now, out);
        if now.over {
            return now;
        }
    }
    now
}

fn main(rt: HostRuntime) {
    let mut out = io::large_buffer();
    let r = script::begin();
    let s = State {
        reader: r,
        at: 0,
        over: false,
    };
    let last = all(rt.stdin(), s, &mut out);
    let mut good = true;
    script::hand_over(&out, last.at, &mut good);
}
