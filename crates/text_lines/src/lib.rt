// Lines of a text that is lent whole: a name, and behind it a number, up to one newline.
#![tactic(auto)]

ghost use Rattle.std.specs.Prelude.{◌≡◌, ◌≤◌, length, MatchOption};
ghost use Rattle.text_lines.specs.Lines.{within, decimal_from, hex_from, at as at_place, taken_by, NoValue, HasValue};

// A number that is at least and at most so much, and a place.
fn bounded(p: Option<u64>, least: u64, most: u64, place: usize) -> Option<(u64, usize)>
    ensures { result ≡ at_place place (within least most p) }
{
    let v = p?;
    if v < least || v > most {
        return None;
    }
    Some((v, place))
}

// What stands behind a name in the line from a place on, and the place behind that line.
fn value_at<'a>(bytes: &'a [u8], from: usize, name: &[u8]) -> Option<(&'a [u8], usize)>
    requires { from ≤ length bytes.now }
    ensures { MatchOption result (NoValue name.now bytes.now from) (λ p. HasValue name.now bytes.now from p.0.now p.1) }
{
    let end = text::find(bytes, from, b'\n');
    if end >= bytes.len() {
        return None;
    }
    let line = &bytes[from..end];
    if text::starts(line, name) {
        return Some((&line[name.len()..], end + 1));
    }
    None
}

// The line from a place on: a name and a decimal without leading zeros, at least and at most so much.
pub fn number(bytes: &[u8], from: usize, name: &[u8], least: u64, most: u64) -> Option<(u64, usize)>
    requires { from ≤ length bytes.now }
    ensures { result ≡ taken_by name.now (decimal_from least most) bytes.now from }
{
    let (value, next) = value_at(bytes, from, name)?;
    bounded(text::decimal(value), least, most, next)
}

// The line from a place on: a name and sixteen hexadecimal digits, at least and at most so much.
pub fn digits(bytes: &[u8], from: usize, name: &[u8], least: u64, most: u64) -> Option<(u64, usize)>
    requires { from ≤ length bytes.now }
    ensures { result ≡ taken_by name.now (hex_from least most) bytes.now from }
{
    let (value, next) = value_at(bytes, from, name)?;
    bounded(text::hex(value), least, most, next)
}
