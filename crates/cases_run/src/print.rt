// Answers as text.
use questions::{Shown, Told};
use styles::{Mark, Styles, Value};
use tank::Tank;

pub(crate) fn say(text: &[u8]) {
    io::write_all(1, text);
}

pub(crate) fn say_number(n: u64) {
    io::print_decimal(1, n);
}

// " accepted", or the refusal's number.
pub(crate) fn say_refusal(number: u64) {
    if number == 0 {
        say(b" accepted");
    } else {
        say(b" refused=");
        say_number(number);
    }
}

// Key, lamport and peer.
pub(crate) fn say_mark(m: Mark) {
    say(b" (");
    say_number(m.key as u64);
    say(b", ");
    say_number(m.lamport as u64);
    say(b", ");
    say_number(m.peer);
    say(b")");
}

// How many marks, and the marks.
pub(crate) fn say_set(s: Styles) {
    let marks = s.marks;
    say(b" marks=");
    say_number(s.count as u64);
    for m in marks.iter().take(s.count) {
        say_mark(*m);
    }
}

// The length, and how many runs and marks the tank holds; the line ends there.
pub(crate) fn say_tank(t: Tank) {
    say(b"; length=");
    say_number(t.length);
    say(b" runs=");
    say_number(t.runs as u64);
    say(b" carried=");
    say_number(t.marks as u64);
    say(b"\n");
}

// Yes or no, or the refusal's number.
pub(crate) fn say_told(t: Told) {
    match t {
        Told::Refused(n) => say_refusal(n),
        Told::No => say(b" no"),
        Told::Yes => say(b" yes"),
    }
}

fn say_value(v: Value) {
    match v {
        Value::Null => say(b" null"),
        Value::Flag(b) => {
            if b {
                say(b" yes");
            } else {
                say(b" no");
            }
        }
        Value::Whole(_) => say(b" a whole number"),
        Value::Decimal(_) => say(b" a decimal"),
    }
}

pub(crate) fn say_shown(s: Shown) {
    match s {
        Shown::Refused(n) => say_refusal(n),
        Shown::Nothing => say(b" nothing"),
        Shown::Shows(v) => say_value(v),
    }
}
