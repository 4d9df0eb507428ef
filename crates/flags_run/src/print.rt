// The answers as text.
use config::{ConfigRefusal, StyleConfig};
use richtext::{ExpandType, TextStyleInfoFlag};

pub(crate) fn say(text: &[u8]) {
    io::write_all(1, text);
}

// A byte, in two hexadecimal digits.
pub(crate) fn say_byte(byte: u8) {
    io::print_hex(1, byte as u64, 2);
}

pub(crate) fn say_flag(flag: TextStyleInfoFlag) {
    say_byte(flag.to_byte());
}

pub(crate) fn say_number(n: u64) {
    io::print_decimal(1, n);
}

pub(crate) fn say_yes(yes: bool) {
    if yes {
        say(b"yes");
    } else {
        say(b"no");
    }
}

pub(crate) fn say_type(expand: ExpandType) {
    match expand {
        ExpandType::Before => say(b"Before"),
        ExpandType::After => say(b"After"),
        ExpandType::Both => say(b"Both"),
        ExpandType::None => say(b"None"),
    }
}

pub(crate) fn say_named(named: Option<ExpandType>) {
    match named {
        Some(expand) => say_type(expand),
        None => say(b"none of these"),
    }
}

// The number of a refusal, or 0.
pub(crate) fn say_done(done: Result<(), ConfigRefusal>) {
    match done {
        Ok(()) => say_number(0),
        Err(refusal) => say_number(refusal.number()),
    }
}

pub(crate) fn say_got(got: Result<Option<StyleConfig>, ConfigRefusal>) {
    match got {
        Ok(Some(style)) => say_type(style.expand),
        Ok(None) => say(b"nothing"),
        Err(refusal) => say_number(refusal.number()),
    }
}

pub(crate) fn say_got_flag(got: Result<Option<TextStyleInfoFlag>, ConfigRefusal>) {
    match got {
        Ok(Some(flag)) => {
            say(b"0x");
            say_flag(flag);
        }
        Ok(None) => say(b"nothing"),
        Err(refusal) => say_number(refusal.number()),
    }
}
