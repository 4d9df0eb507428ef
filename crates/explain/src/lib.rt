// The clerk's run, explained: the answers go to standard output as ever, and beside them, to standard error, of each refused call the refusal
// in words, and of a line at which the run ends what was expected and what came.
#![tactic(auto)]

mod refused; // refused.rt: a refused call
mod bad; // bad.rt: a line at which the run ends
mod told; // told.rt: what is told of a line, by its answer

ghost use Rattle.std.specs.Prelude.{false, ◌≡◌, ◌≤◌, length};
ghost use Rattle.tanks.specs.Pool.{Sound};
ghost use Rattle.answers.specs.Waiting.{piece_room};
ghost use Rattle.script.specs.Grammar.{most_body};
ghost use Rattle.script.specs.Lines.{empty_line};
ghost use Rattle.script.specs.Bodies.{Fits};
ghost use Rattle.clerk.specs.Desk.{Settled};
ghost use Rattle.clerk.specs.Course.{Reads, Runs, RunsWhole};
ghost use Rattle.explain.specs.Told.{tells_from};

use clerk::{Eaten, Side, Stand};
use script::{Inlet, Reader};
use std::rt::Stdin;
use tanks::{Setting, Tanks};
use told::put_told;

// What came in place of a line that was expected.
#[derive(Clone, Copy)]
pub enum Came {
    Long,
    Empty,
    Return,
    Other,
    NoOp,
    NoNumber,
    Zero,
    Large,
    NoCounter,
    NoKind,
    NoValue,
    NoParty,
    Ended,
    Cut,
}

// Which bytes of those that were read are still to be taken.
#[derive(Clone, Copy)]
struct Rest {
    from: usize,
    to: usize,
}

// The same, and where the first line of them ends.
#[derive(Clone, Copy)]
struct Spot {
    from: usize,
    end: usize,
    to: usize,
}

// Reads where none is left to be taken; at the end of the input there are none then, nor where answers were lost.
fn filled(input: Stdin, good: bool, buf: &mut [u8], from: usize, to: usize) -> Rest
    requires { to ≤ length buf.old }
    ensures { (result.from ≤ result.to) × (result.to ≤ length buf.new) }
{
    if from < to {
        return Rest { from, to };
    }
    let n = clerk::heard(input, good, buf);
    Rest { from: 0, to: n }
}

// The place behind the first newline, or behind all bytes; within a body, of which so many bytes are left, behind these.
fn part_end(buf: &[u8], rest: Rest, left: usize) -> usize
    requires { (rest.from ≤ rest.to) × (rest.to ≤ length buf.now) }
    ensures { (rest.from ≤ result) × (result ≤ rest.to) }
{
    if left > 0 {
        return body_end(rest, left);
    }
    let end = text::find(buf, rest.from, b'\n');
    if end < rest.to {
        return end + 1;
    }
    rest.to
}

// The place behind so many bytes, or behind all of them.
fn body_end(rest: Rest, left: usize) -> usize
    requires { rest.from ≤ rest.to }
    ensures { (rest.from ≤ result) × (result ≤ rest.to) }
{
    rest.from + left.min(rest.to - rest.from)
}

// The next line, or what is left of a body, as far as it has been read; none at the end of the input.
fn next_part(input: Stdin, good: bool, buf: &mut [u8], from: usize, to: usize, left: usize) -> Spot
    requires { to ≤ length buf.old }
    ensures { (result.from ≤ result.end) × (result.end ≤ result.to) × (result.to ≤ length buf.new) }
{
    let rest = filled(input, good, buf, from, to);
    let end = part_end(buf, rest, left);
    Spot {
        from: rest.from,
        end,
        to: rest.to,
    }
}

// Within a body a line is told of as one of the call that the body belongs to, of which no line is to come.
fn in_body(i: Inlet) -> Reader
    ensures { result ≡ record { line = empty_line; call = i.call; newlines = i.reader.newlines } }
{
    Reader {
        line: script::empty_line(),
        call: i.call,
        newlines: i.reader.newlines,
    }
}

// The reader that a line is told of.
fn told_from(i: Inlet) -> Reader
    ensures { result ≡ tells_from i }
{
    if i.left > 0 {
        return in_body(i);
    }
    i.reader
}

// Puts what is told into a buffer, and writes it to standard error.
fn tell(said: &mut [u8], before: Reader, bytes: &[u8], answer: &[u8])
    requires { 256 ≤ length said.old }
{
    let n = put_told(said, before, bytes, answer);
    io::write_all(2, &said[..n]);
}

// Writes an answer out, and then what is told of it.
fn hand_out(before: Reader, bytes: &[u8], out: &[u8], at: usize, good: &mut bool) {
    let n = script::hand_over(out, at, good);
    let mut said = [0u8; 256];
    tell(&mut said, before, bytes, &out[..n]);
}

// The bytes of at most one line or body, or the end of the input where there are none.
fn taken(bytes: &[u8], s: Tanks, stand: Stand, body: &mut [u8], out: &mut [u8]) -> Eaten
    requires sound { (Sound s) × Settled stand.side × Fits stand.inlet body.old × (stand.over ≡ false) }
    requires most_body_in_bounds { (most_body ≤ length body.old) × (piece_room ≤ length out.old) }
    ensures { Reads s stand body.old out.old result body.new out.new }
{
    if bytes.len() == 0 {
        return clerk::closed(s, stand, body, out);
    }
    clerk::eat(bytes, s, stand, body, out)
}

fn turn(
    bytes: &[u8],
    s: Tanks,
    stand: Stand,
    body: &mut [u8],
    out: &mut [u8],
    good: &mut bool,
) -> Eaten
    requires sound { (Sound s) × Settled stand.side × Fits stand.inlet body.old × (stand.over ≡ false) }
    requires most_body_in_bounds { (most_body ≤ length body.old) × (piece_room ≤ length out.old) }
    ensures { Reads s stand body.old out.old result body.new out.new }
{
    let inlet = stand.inlet;
    let before = told_from(inlet);
    let e = taken(bytes, s, stand, body, out);
    let after = e.stand;
    hand_out(before, bytes, out, after.at, good);
    e
}

fn turn_at(
    buf: &[u8],
    spot: Spot,
    s: Tanks,
    stand: Stand,
    body: &mut [u8],
    out: &mut [u8],
    good: &mut bool,
) -> Eaten
    requires sound { (Sound s) × Settled stand.side × Fits stand.inlet body.old × (stand.over ≡ false) }
    requires most_body_in_bounds { (most_body ≤ length body.old) × (piece_room ≤ length out.old) × (spot.from ≤ spot.end) × (spot.end ≤ length buf.now) }
    ensures { Reads s stand body.old out.old result body.new out.new }
{
    let start = spot.from;
    let end = spot.end;
    turn(&buf[start..end], s, stand, body, out, good)
}

// All of the input, a line or a body to a turn: the clerk's run, with its reads cut at the ends of lines and bodies.
fn all(
    input: Stdin,
    s: Tanks,
    first: Inlet,
    kept: Side,
    buf: &mut [u8],
    body: &mut [u8],
    out: &mut [u8],
) -> Eaten
    requires sound { (Sound s) × Settled kept × Fits first body.old }
    requires most_body_in_bounds { (most_body ≤ length body.old) × (piece_room ≤ length out.old) }
    ensures { Runs s first kept body.old out.old result body.new out.new }
{
    let mut tanks = s;
    let mut inlet = first;
    let mut side = kept;
    let mut from = 0;
    let mut to = 0;
    let mut good = true;
    for _ in 0..u64::MAX {
        let spot = next_part(input, good, buf, from, to, inlet.left);
        let stand = clerk::fresh(inlet, side);
        let e = turn_at(buf, spot, tanks, stand, body, out, &mut good);
        let next = e.tanks;
        tanks = next;
        let after = e.stand;
        let more = after.inlet;
        inlet = more;
        let keeps = after.side;
        side = keeps;
        if after.over {
            return clerk::standing(tanks, inlet, side, 0, true);
        }
        from = spot.end;
        to = spot.to;
    }
    clerk::standing(tanks, inlet, side, 0, false)
}

// Reads calls from standard input to its end, and writes their answers to standard output, as the clerk does; beside them it tells on standard
// error why a call was refused and what is wrong with a line. Answers where that led.
pub fn run(input: Stdin) -> Eaten
    ensures { RunsWhole result }
{
    let mut body = clerk::body_room();
    let mut out = io::large_buffer();
    let mut buf = io::large_buffer();
    let o = tanks::open([Setting { share: 1, limit: 1 }; 8]);
    let s = o.tanks;
    all(
        input,
        s,
        script::begin_inlet(),
        clerk::empty(),
        &mut buf,
        &mut body,
        &mut out,
    )
}
