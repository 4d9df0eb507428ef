// What the keeper says: what was done on standard output, what is wrong on standard error.
ghost use Rattle.std.specs.Prelude.{◌≤◌, length};
ghost use Rattle.io.specs.Counts.{IsPrefixLen};

use super::files::within;
use std::env::FillError;
use std::fmt::InlineText;
use std::io::Error;

// What went wrong has been said, and whoever started the keeper is told of it.
#[derive(Clone, Copy, PartialEq, Eq, Debug)]
pub struct Complained;

// What can't be written is lost, and whoever started the keeper is told by its status.
pub fn note(text: &[u8]) {
    if io::write_all(1, text) {
        return;
    }
    wrong();
}

pub fn note_number(n: u64) {
    io::print_decimal(1, n);
}

pub fn tell(text: &[u8]) {
    io::write_all(2, text);
}

pub fn tell_number(n: u64) {
    io::print_decimal(2, n);
}

// A program has no exit status of its own: one byte on descriptor 3 tells its starter that something was wrong. Where nobody opened that
// descriptor, a file of the keeper's own may have its number, so this is called only while none is open for writing.
pub fn wrong() {
    io::write_all(3, b"1");
}

// One line of what is wrong.
pub fn complain(text: &[u8]) -> Complained {
    tell(b"keeper: ");
    tell(text);
    tell(b"\n");
    wrong();
    Complained
}

// The same of a file.
pub fn complain_of(path: &[u8], text: &[u8]) -> Complained {
    tell(b"keeper: ");
    tell(path);
    tell(text);
    tell(b"\n");
    wrong();
    Complained
}

// How many bytes of an error's text are the system's words: behind them stands its number, as in " (os error 2)".
fn before_number(text: &[u8]) -> usize
    ensures { IsPrefixLen result text.now }
{
    match text.iter().rposition(|b| *b == b'(') {
        Some(i) if i > 0 => i - 1,
        _ => text.len(),
    }
}

// What the system says of an error.
fn tell_error(e: Error) {
    let text = InlineText::<256>::of(&e);
    let words = text.as_str().as_bytes();
    tell(&words[..before_number(words)]);
}

// A call of the system that failed on a file, and why.
pub fn failed(path: &[u8], what: &[u8], e: Error) -> Complained {
    tell(b"keeper: ");
    tell(path);
    tell(what);
    tell(b": ");
    tell_error(e);
    tell(b"\n");
    wrong();
    Complained
}

// An argument that can't be taken: it is longer than any name of a file, or there is none; the numbers are the system's for these.
pub fn not_taken(name: &[u8], e: FillError) -> Complained {
    let why = match e {
        FillError::TooLong => Error::from_raw_os_error(36),
        FillError::NotPresent => Error::from_raw_os_error(22),
    };
    failed(name, b" can't be taken", why)
}

fn tell_words(number: u64) {
    let mut row = [0u8; 64];
    let n = refusals::put_words(&mut row, 0, number);
    let k = within(n, &row);
    tell(&row[..k]);
}

// A refusal's number, and what it means.
fn tell_refusal(number: u64) {
    tell(b"refusal ");
    tell_number(number);
    tell(b", ");
    tell_words(number);
}

// A refusal at a line of a file, up to the end of its words.
pub fn refusal_begun(path: &[u8], line: u64, number: u64) {
    tell(b"keeper: ");
    tell(path);
    tell(b", line ");
    tell_number(line);
    tell(b": ");
    tell_refusal(number);
}

// A refusal at a line of a file.
pub fn refused_at(path: &[u8], line: u64, number: u64) -> Complained {
    refusal_begun(path, line, number);
    tell(b"\n");
    wrong();
    Complained
}

// A refusal of all of a file.
pub fn refused(path: &[u8], number: u64) -> Complained {
    tell(b"keeper: ");
    tell(path);
    tell(b": ");
    tell_refusal(number);
    tell(b"\n");
    wrong();
    Complained
}
