// A line at which the run ends, in words.
ghost use Rattle.std.specs.Prelude.{map, ◌≡◌, ◌+◌, ◌≤◌, length};
ghost use Rattle.text.specs.Number.{put};
ghost use Rattle.script.specs.Cells.{field_of};
ghost use Rattle.script.specs.Reading.{after_name};
ghost use Rattle.script.specs.Writing.{Puts};
ghost use Rattle.explain.specs.Told.{value_hint, most_hint, hint_text, expected_text, figures_of, wrong_number, wrong_text, came_of, end_of, came_text, byte_shown, line_shown, bad_text};

use super::Came;
use super::refused::put_head;
use script::{Call, Holds, Kind};

fn put_value_hint(out: &mut [u8], at: usize, kind: Kind) -> usize
    requires { at + 40 ≤ length out.old }
    ensures { Puts out.old at (value_hint kind) 40 result out.new }
{
    match kind {
        Kind::Null => text::put(out, at, b" and nothing behind it"),
        Kind::Bool => text::put(out, at, b" and 0 or 1"),
        Kind::Whole => text::put(out, at, b" and a signed number of 64 bits"),
        Kind::Decimal => text::put(out, at, b" and sixteen hexadecimal digits"),
    }
}

fn put_most(out: &mut [u8], at: usize, most: u64) -> usize
    requires { at + 40 ≤ length out.old }
    ensures { Puts out.old at (most_hint most) 40 result out.new }
{
    let a = text::put(out, at, b" and a number up to ");
    text::put_decimal(out, a, most)
}

// Puts what stands behind the name of a field.
fn put_hint(out: &mut [u8], at: usize, h: Holds, kind: Kind) -> usize
    requires { at + 40 ≤ length out.old }
    ensures { Puts out.old at (hint_text h kind) 40 result out.new }
{
    match h {
        Holds::Nothing => text::put(out, at, b"the rest of its body"),
        Holds::Op => text::put(out, at, b" and the name of an op"),
        Holds::Number(most) => put_most(out, at, most),
        Holds::Counter => text::put(out, at, b" and a signed number of 32 bits"),
        Holds::Kind => text::put(out, at, b" and null, bool, whole or decimal"),
        Holds::Value => put_value_hint(out, at, kind),
        Holds::Byte => text::put(out, at, b" and one byte"),
        Holds::Party => text::put(out, at, b" and plant or lab"),
    }
}

// Puts which line was expected.
fn put_expected(out: &mut [u8], at: usize, call: Call) -> usize
    requires { at + 65 ≤ length out.old }
    ensures { Puts out.old at (expected_text call) 65 result out.new }
{
    let kind = call.kind;
    let f = script::field_at(call.row, call.place);
    let a = text::put(out, at, b"expected ");
    let b = script::put_name(out, a, script::field_name(f));
    put_hint(out, b, script::field_holds(f), kind)
}

// Is each byte a digit?
fn figures(t: &[u8]) -> bool
    ensures { result ≡ figures_of t.now }
{
    t.iter().all(|byte| byte.is_ascii_digit())
}

fn wrong_number(t: &[u8]) -> Came
    ensures { result ≡ wrong_number t.now }
{
    if t.len() == 0 {
        return Came::NoNumber;
    }
    if figures(t) {
        if t[0] == b'0' {
            return Came::Zero;
        }
        return Came::Large;
    }
    Came::NoNumber
}

fn wrong_text(h: Holds, t: &[u8]) -> Came
    ensures { result ≡ wrong_text h t.now }
{
    match h {
        Holds::Nothing => Came::Other,
        Holds::Op => Came::NoOp,
        Holds::Number(_) => wrong_number(t),
        Holds::Counter => Came::NoCounter,
        Holds::Kind => Came::NoKind,
        Holds::Value | Holds::Byte => Came::NoValue,
        Holds::Party => Came::NoParty,
    }
}

fn wrong_line(f: u8, h: Holds, line: &[u8]) -> Came
    ensures { result ≡ after_name (field_of f) Came.Other (wrong_text h) line.now }
{
    let Some(value) = script::value_in(f, line) else {
        return Came::Other;
    };
    wrong_text(h, value)
}

// What came where a field was expected.
pub fn came(f: u8, line: &[u8]) -> Came
    ensures { result ≡ came_of (field_of f) line.now }
{
    if line.len() > 64 {
        return Came::Long;
    }
    if line.len() == 0 {
        return Came::Empty;
    }
    if line[line.len() - 1] == 13 {
        return Came::Return;
    }
    wrong_line(f, script::field_holds(f), line)
}

// What came where the input ended.
pub fn came_end(line: &[u8]) -> Came
    ensures { result ≡ end_of line.now }
{
    if line.len() == 0 {
        return Came::Ended;
    }
    Came::Cut
}

fn put_came(out: &mut [u8], at: usize, c: Came) -> usize
    requires { at + 40 ≤ length out.old }
    ensures { Puts out.old at (came_text c) 40 result out.new }
{
    match c {
        Came::Long => text::put(out, at, b"more than 64 bytes"),
        Came::Empty => text::put(out, at, b"an empty line"),
        Came::Return => text::put(out, at, b"a carriage return at the line's end"),
        Came::Other => text::put(out, at, b"another line"),
        Came::NoOp => text::put(out, at, b"no such op"),
        Came::NoNumber => text::put(out, at, b"no number"),
        Came::Zero => text::put(out, at, b"a leading zero"),
        Came::Large => text::put(out, at, b"a number that is too large"),
        Came::NoCounter => text::put(out, at, b"no such counter"),
        Came::NoKind => text::put(out, at, b"no such kind"),
        Came::NoValue => text::put(out, at, b"no such value"),
        Came::NoParty => text::put(out, at, b"no such party"),
        Came::Ended => text::put(out, at, b"the end of the input"),
        Came::Cut => text::put(out, at, b"no newline at the input's end"),
    }
}

// A byte that does not print is a question mark, so that a terminal is told nothing else by it.
fn byte_shown(b: u8) -> u8
    ensures { result ≡ byte_shown b }
{
    match b {
        32..=126 => b,
        _ => b'?',
    }
}

// Puts the bytes of a line as they are shown, and answers the place after them.
fn put_bytes(out: &mut [u8], at: usize, line: &[u8]) -> usize
    requires { at + length line.now ≤ length out.old }
    ensures { (result ≡ at + length (map byte_shown line.now)) × (out.new ≡ put out.old at (map byte_shown line.now)) }
{
    for (i, byte) in line.iter().enumerate() {
        out[at + i] = byte_shown(*byte);
    }
    at + line.len()
}

fn put_shown(out: &mut [u8], at: usize, line: &[u8]) -> usize
    requires { (length line.now ≤ 65) × (at + 67 ≤ length out.old) }
    ensures { Puts out.old at (line_shown line.now) 67 result out.new }
{
    if line.len() == 0 {
        return text::put(out, at, b"");
    }
    let a = text::put(out, at, b": ");
    put_bytes(out, a, line)
}

// Puts what is said of a line at which the run ends.
pub fn put_bad(out: &mut [u8], at: usize, number: u64, call: Call, c: Came, line: &[u8]) -> usize
    requires { (length line.now ≤ 65) × (at + 207 ≤ length out.old) }
    ensures { Puts out.old at (bad_text number call c line.now) 207 result out.new }
{
    let a = put_head(out, at, number);
    let b = put_expected(out, a, call);
    let d = text::put(out, b, b", came ");
    let e = put_came(out, d, c);
    let g = put_shown(out, e, line);
    text::put(out, g, b"\n")
}
