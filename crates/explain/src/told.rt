// What is told of a line, by its answer.
ghost use Rattle.std.specs.Prelude.{◌≡◌, ◌+◌, ◌≤◌, ltb, length};
ghost use Rattle.script.specs.Lines.{state_of, held_of};
ghost use Rattle.script.specs.Writing.{Puts};
ghost use Rattle.explain.specs.Told.{told_number, refusal_by, refusal_told, came_at, bad_at, bad_told, told_of};

use super::Came;
use super::bad::{came, came_end, put_bad};
use super::refused::put_refusal;
use script::{Call, Line, Reader};

// The number in the answer of a refused call.
fn told_number(answer: &[u8]) -> Option<u64>
    ensures { result ≡ told_number answer.now }
{
    let from = 8;
    if answer.len() < from {
        return None;
    }
    let to = text::find(answer, from, b'\n');
    text::decimal(&answer[from..to])
}

fn refused_as(out: &mut [u8], line: u64, call: Call, p: Option<u64>) -> usize
    requires { 256 ≤ length out.old }
    ensures { Puts out.old 0 (refusal_by line call p) 256 result out.new }
{
    let Some(n) = p else {
        return text::put(out, 0, b"");
    };
    put_refusal(out, 0, line, call, n)
}

// A refused call: the bytes that were read end its last line.
fn refused(out: &mut [u8], before: Reader, bytes: &[u8], answer: &[u8]) -> usize
    requires { 256 ≤ length out.old }
    ensures { Puts out.old 0 (refusal_told (state_of before) bytes.now answer.now) 256 result out.new }
{
    let number = script::line_number(before);
    let line = before.line;
    let call = before.call;
    let cut = script::cut_line(bytes, 0, line);
    let grown = cut.line;
    let read = script::kept_read(call, grown);
    let whole = read.call;
    refused_as(out, number, whole, told_number(answer))
}

// What came: the end of the input where no byte did.
fn came_at(call: Call, some: bool, line: &[u8]) -> Came
    ensures { result ≡ came_at call some line.now }
{
    if some {
        return came(script::field_at(call.row, call.place), line);
    }
    came_end(line)
}

fn bad_text(out: &mut [u8], number: u64, call: Call, some: bool, line: &[u8]) -> usize
    requires { (length line.now ≤ 65) × (256 ≤ length out.old) }
    ensures { Puts out.old 0 (bad_at number call some line.now) 256 result out.new }
{
    let c = came_at(call, some, line);
    put_bad(out, 0, number, call, c, line)
}

fn bad_line(out: &mut [u8], number: u64, call: Call, some: bool, line: Line) -> usize
    requires { 256 ≤ length out.old }
    ensures { Puts out.old 0 (bad_at number call some (held_of line)) 256 result out.new }
{
    let n = script::kept(line);
    let t = line.text;
    bad_text(out, number, call, some, &t[..n])
}

fn are_some(bytes: &[u8]) -> bool
    ensures { result ≡ ltb 0 (length bytes.now) }
{
    bytes.len() > 0
}

// A line at which the run ends.
fn bad(out: &mut [u8], before: Reader, bytes: &[u8]) -> usize
    requires { 256 ≤ length out.old }
    ensures { Puts out.old 0 (bad_told (state_of before) bytes.now) 256 result out.new }
{
    let number = script::line_number(before);
    let line = before.line;
    let call = before.call;
    let cut = script::cut_line(bytes, 0, line);
    let grown = cut.line;
    bad_line(out, number, call, are_some(bytes), grown)
}

// Puts what is told of bytes that a reader took and of their answer at the front of a buffer.
pub fn put_told(out: &mut [u8], before: Reader, bytes: &[u8], answer: &[u8]) -> usize
    requires { 256 ≤ length out.old }
    ensures { Puts out.old 0 (told_of (state_of before) bytes.now answer.now) 256 result out.new }
{
    if text::starts(answer, b"refused=") {
        return refused(out, before, bytes, answer);
    }
    if text::starts(answer, b"malformed=") {
        return bad(out, before, bytes);
    }
    text::put(out, 0, b"")
}
