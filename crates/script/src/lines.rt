// Bytes, however they are cut, to lines, and lines to calls; a reader stands for what came so far.
ghost use Rattle.std.specs.Prelude.{◌≡◌, ◌≤◌, min, length};
ghost use Rattle.script.specs.Reading.{fresh_of, line_of};
ghost use Rattle.script.specs.Lines.{held_of, Keeps, empty_line, cut_of, reader_at, state_of, reader_in, counted_of, turned_of, event_of, Feeds, ending_by, ending_of};

use super::fields::{field_at, field_holds};
use super::reading::{idle, read_line};
use super::{Call, Cut, Ending, Event, Fed, Holds, Line, Progress, Read, Reader};

pub fn least(a: usize, b: usize) -> usize
    ensures { result ≡ min a b }
{
    a.min(b)
}

pub fn empty_line() -> Line
    ensures { result ≡ empty_line }
{
    Line {
        text: [0; 65],
        count: 0,
    }
}

// How many bytes are kept of a line.
pub fn kept(line: Line) -> usize
    ensures { Keeps line result }
{
    least(line.count, 65)
}

// The bytes of a line from a place on, up to its newline or to the end of the bytes.
pub fn cut_line(bytes: &[u8], from: usize, line: Line) -> Cut
    requires { from ≤ length bytes.now }
    ensures { result ≡ cut_of bytes.now from line }
{
    let end = text::find(bytes, from, b'\n');
    let count = kept(line);
    let more = least(end - from, 65 - count);
    let stop = from + more;
    let mut text = line.text;
    let n = text::put(&mut text, count, &bytes[from..stop]);
    let grown = Line { text, count: n };
    if end < bytes.len() {
        return Cut {
            line: grown,
            at: end + 1,
            whole: true,
        };
    }
    Cut {
        line: grown,
        at: end,
        whole: false,
    }
}

// What a kept line makes of a call.
pub fn kept_read(call: Call, line: Line) -> Read
    ensures { result ≡ line_of call (held_of line) }
{
    let n = kept(line);
    let t = line.text;
    read_line(call, &t[..n])
}

// One line more, as far as 64 bits count.
pub fn counted(n: u64) -> u64
    ensures { result ≡ counted_of n }
{
    n.saturating_add(1)
}

fn event(p: Progress) -> Event
    ensures { result ≡ event_of p }
{
    match p {
        Progress::Bad => Event::Bad,
        Progress::More => Event::Nothing,
        Progress::Ready => Event::Call,
    }
}

// A reader at the start of a line.
fn at_line(call: Call, newlines: u64) -> Reader
    ensures { result ≡ reader_at call newlines }
{
    Reader {
        line: empty_line(),
        call,
        newlines,
    }
}

// A reader at the start of an input.
pub fn begin() -> Reader
    ensures { result ≡ reader_at (fresh_of 0) 0 }
{
    at_line(idle(), 0)
}

// A reader after a line's end.
fn turned(newlines: u64, p: Progress, call: Call) -> Reader
    ensures { result ≡ reader_in empty_line (turned_of newlines p call) }
{
    match p {
        Progress::Bad => at_line(call, newlines),
        Progress::More => at_line(call, counted(newlines)),
        Progress::Ready => at_line(idle(), counted(newlines)),
    }
}

// Bytes from a place on, fed to a reader up to the first newline.
pub fn feed(r: Reader, bytes: &[u8], from: usize) -> Fed
    requires { from ≤ length bytes.now }
    ensures { Feeds r bytes.now from result }
{
    let line = r.line;
    let call = r.call;
    let newlines = r.newlines;
    let c = cut_line(bytes, from, line);
    let grown = c.line;
    if c.whole {
        let read = kept_read(call, grown);
        let made = read.call;
        let stands = read.progress;
        let next = turned(newlines, stands, made);
        let brings = event(stands);
        return Fed {
            reader: next,
            event: brings,
            call: made,
            at: c.at,
        };
    }
    let next = Reader {
        line: grown,
        call,
        newlines,
    };
    Fed {
        reader: next,
        event: Event::Nothing,
        call: call,
        at: c.at,
    }
}

// The number of the line that is being read, from 1: that of a bad line, or of one at which the input has ended.
pub fn line_number(r: Reader) -> u64
    ensures { result ≡ counted_of r.newlines }
{
    counted(r.newlines)
}

fn ending(h: Holds) -> Ending
    ensures { result ≡ ending_by h }
{
    match h {
        Holds::Op => Ending::Clean,
        _ => Ending::Cut,
    }
}

// How an input ends that ends here.
pub fn ended(r: Reader) -> Ending
    ensures { result ≡ ending_of (state_of r) }
{
    let line = r.line;
    let call = r.call;
    let row = call.row;
    if kept(line) == 0 {
        return ending(field_holds(field_at(row, call.place)));
    }
    Ending::Cut
}
