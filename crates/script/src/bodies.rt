// Bodies between the lines: behind some calls come as many bytes as their line says, whatever they are.
ghost use Rattle.std.specs.Prelude.{◌≡◌, cond, ◌+◌, ◌≤◌, ◌<◌, eqb, length};
ghost use Rattle.script.specs.Grammar.{most_body};
ghost use Rattle.script.specs.Reading.{fresh_of};
ghost use Rattle.script.specs.Lines.{reader_at, state_of, counted_of};
ghost use Rattle.script.specs.Bodies.{body_of, counted_in, ending_in, Fits, resting, end_taken, part_taken, Takes};

use super::lines::{begin, counted, ended, feed, least};
use super::reading::idle;
use super::{Call, Ending, Event, Inlet, Op, Reader, Taken};

// The most bytes that a body may have.
const MOST: usize = 131072;

// How many bytes follow the lines of a whole call.
fn body_size(call: Call) -> usize
    ensures { result ≡ body_of call }
{
    let n = call.numbers;
    let op = call.op;
    match op {
        Op::Nothing => 0,
        Op::Change(_) => 0,
        Op::Question(_) => 0,
        Op::Listing(_) => 0,
        Op::Text(_) => least(MOST, n[0] as usize),
        Op::Desk(_) => 0,
        Op::Both(_) => 0,
    }
}

// In the lines of a script.
fn in_lines(reader: Reader) -> Inlet
    ensures { result ≡ resting reader }
{
    let call = idle();
    Inlet {
        reader,
        call,
        have: 0,
        left: 0,
    }
}

// At the start of a script.
pub fn begin_inlet() -> Inlet
    ensures { result ≡ resting (reader_at (fresh_of 0) 0) }
{
    in_lines(begin())
}

// The event of a line's end, or of a body's, where the lines go on behind it.
fn in_lines_with(reader: Reader, e: Event, call: Call, size: usize, at: usize) -> Taken
    ensures { result ≡ record { inlet = resting reader; event = e; call = call; size = size; at = at } }
{
    let inlet = in_lines(reader);
    Taken {
        inlet,
        event: e,
        call,
        size,
        at,
    }
}

// Within a body, of which so many bytes have come and so many are left.
fn in_body(reader: Reader, call: Call, have: usize, left: usize, at: usize) -> Taken
    ensures { result ≡ record { inlet = record { reader = reader; call = call; have = have; left = left }; event = Event.Nothing; call = call; size = 0; at = at } }
{
    let inlet = Inlet {
        reader,
        call,
        have,
        left,
    };
    Taken {
        inlet,
        event: Event::Nothing,
        call,
        size: 0,
        at,
    }
}

// After a call's last line: the call is whole, or its body is to come.
fn called(reader: Reader, call: Call, at: usize) -> Taken
    ensures { result ≡ end_taken Event.Call reader call at }
{
    let left = body_size(call);
    if left == 0 {
        return in_lines_with(reader, Event::Call, call, 0, at);
    }
    in_body(reader, call, 0, left, at)
}

// After a line's end, or before it.
fn after_line(e: Event, reader: Reader, call: Call, at: usize) -> Taken
    ensures { result ≡ end_taken e reader call at }
{
    match e {
        Event::Nothing => in_lines_with(reader, Event::Nothing, call, 0, at),
        Event::Bad => in_lines_with(reader, Event::Bad, call, 0, at),
        Event::Call => called(reader, call, at),
    }
}

// After a part of a body: the call is whole where nothing is left.
fn after_part(reader: Reader, call: Call, have: usize, left: usize, at: usize) -> Taken
    ensures { result ≡ part_taken reader call have left at }
{
    if left == 0 {
        return in_lines_with(reader, Event::Call, call, have, at);
    }
    in_body(reader, call, have, left, at)
}

// A newline counts.
fn counted_byte(n: u64, byte: u8) -> u64
    ensures { result ≡ cond (eqb byte 10) (counted_of n) n }
{
    if byte == b'\n' {
        return counted(n);
    }
    n
}

// The newlines of a part of a body, counted on from n.
fn counted_in(n: u64, part: &[u8]) -> u64
    ensures { result ≡ counted_in n part.now }
{
    let mut count = n;
    for byte in part {
        count = counted_byte(count, *byte);
    }
    count
}

// A reader of lines behind a part of a body.
fn behind(r: Reader, part: &[u8]) -> Reader
    ensures { result ≡ record { line = r.line; call = r.call; newlines = counted_in r.newlines part.now } }
{
    Reader {
        newlines: counted_in(r.newlines, part),
        ..r
    }
}

// The bytes of a body from a place on, no more than are left of it.
fn take_part(i: Inlet, bytes: &[u8], from: usize, body: &mut [u8]) -> Taken
    requires { (from < length bytes.now) × (0 < i.left) × Fits i body.old }
    ensures { Takes i bytes.now from body.old result body.new }
{
    let reader = i.reader;
    let call = i.call;
    let more = least(i.left, bytes.len() - from);
    let stop = from + more;
    let have = text::put(body, i.have, &bytes[from..stop]);
    let next = behind(reader, &bytes[from..stop]);
    after_part(next, call, have, i.left - more, stop)
}

// The bytes from a place on, as far as one part goes: up to a newline, or to the end of a body, whose bytes are put behind
// those of it that have come.
pub fn take(i: Inlet, bytes: &[u8], from: usize, body: &mut [u8]) -> Taken
    requires { (from < length bytes.now) × Fits i body.old × (most_body ≤ length body.old) }
    ensures { Takes i bytes.now from body.old result body.new }
{
    if i.left > 0 {
        return take_part(i, bytes, from, body);
    }
    let reader = i.reader;
    let f = feed(reader, bytes, from);
    let next = f.reader;
    let call = f.call;
    let e = f.event;
    after_line(e, next, call, f.at)
}

// How an input ends that ends here.
pub fn inlet_ended(i: Inlet) -> Ending
    ensures { result ≡ ending_in i.left (state_of i.reader) }
{
    if i.left > 0 {
        return Ending::Cut;
    }
    ended(i.reader)
}
