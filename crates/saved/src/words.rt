// Lines of a saved text that hold a word: a party, a counter, a kind, a value.
ghost use Rattle.std.specs.Prelude.{◌≡◌, ◌^◌, ◌≤◌, ◌<◌, length};
ghost use Rattle.text.specs.Bytes.{bytes};
ghost use Rattle.text.specs.Signed.{signed32_of};
ghost use Rattle.text_lines.specs.Lines.{named};
ghost use Rattle.script.specs.Reading.{kind_named, value_of};
ghost use Rattle.saved.specs.Saying.{party_named, party_from, counter_said, kind_said, value_said};
ghost use Rattle.saved.specs.Reads.{party_at, counter_at, kind_at, value_at, ReadsParty, ReadsCounter, ReadsKind, ReadsValue};

use script::Kind;
use styles::{Party, Value};

// A party that was told, where it is at least so much in their order.
fn party_at(who: Party, least: u64, lines: u64, place: usize) -> Option<(Party, u64, usize)>
    ensures { result ≡ party_at lines place (party_from least (Some who)) }
{
    if least <= styles::order::rank(who) {
        return Some((who, lines, place));
    }
    None
}

fn party_told(t: &[u8], least: u64, lines: u64, place: usize) -> Option<(Party, u64, usize)>
    ensures { result ≡ party_at lines place (party_from least (party_named t.now)) }
{
    if text::same(t, b"plant") {
        return party_at(Party::Plant, least, lines, place);
    }
    if text::same(t, b"lab") {
        return party_at(Party::Lab, least, lines, place);
    }
    None
}

fn party_after(line: &[u8], least: u64, lines: u64, place: usize) -> Option<(Party, u64, usize)>
    ensures { result ≡ party_at lines place (named (bytes "party=") (λ t. party_from least (party_named t)) line.now) }
{
    if text::starts(line, b"party=") {
        return party_told(&line[6..], least, lines, place);
    }
    None
}

// The line of a party from a place on, behind n lines; before version 2 there is none.
pub fn party_line(
    bytes: &[u8],
    from: usize,
    n: u64,
    version: u64,
    least: u64,
) -> Option<(Party, u64, usize)>
    requires { (n < 2 ^ 32) × (from ≤ length bytes.now) }
    ensures { ReadsParty version least bytes.now from n result }
{
    if version < 2 {
        return Some((Party::Plant, n, from));
    }
    let end = text::find(bytes, from, b'\n');
    if end < bytes.len() {
        return party_after(&bytes[from..end], least, n + 1, end + 1);
    }
    None
}

fn counter_at(s: Option<i32>, lines: u64, place: usize) -> Option<(i32, u64, usize)>
    ensures { result ≡ counter_at lines place (counter_said s) }
{
    Some((s?, lines, place))
}

fn counter_after(line: &[u8], lines: u64, place: usize) -> Option<(i32, u64, usize)>
    ensures { result ≡ counter_at lines place (named (bytes "cnt=") (λ t. counter_said (signed32_of t)) line.now) }
{
    if text::starts(line, b"cnt=") {
        return counter_at(text::integer32(&line[4..]), lines, place);
    }
    None
}

// The line of a counter from a place on, behind n lines; before version 3 there is none.
pub fn counter_line(bytes: &[u8], from: usize, n: u64, version: u64) -> Option<(i32, u64, usize)>
    requires { (n < 2 ^ 33) × (from ≤ length bytes.now) }
    ensures { ReadsCounter version bytes.now from n result }
{
    if version < 3 {
        return Some((0, n, from));
    }
    let end = text::find(bytes, from, b'\n');
    if end < bytes.len() {
        return counter_after(&bytes[from..end], n + 1, end + 1);
    }
    None
}

// A kind that was told, and a place.
fn kind_at(k: Option<Kind>, place: usize) -> Option<(Kind, usize)>
    ensures { result ≡ kind_at place (kind_said k) }
{
    Some((k?, place))
}

fn kind_after(line: &[u8], place: usize) -> Option<(Kind, usize)>
    ensures { result ≡ kind_at place (named (bytes "kind=") (λ t. kind_said (kind_named t)) line.now) }
{
    if text::starts(line, b"kind=") {
        return kind_at(script::kind_named(&line[5..]), place);
    }
    None
}

// The line of a kind from a place on.
pub fn kind_line(bytes: &[u8], from: usize) -> Option<(Kind, usize)>
    requires { from ≤ length bytes.now }
    ensures { ReadsKind bytes.now from result }
{
    let end = text::find(bytes, from, b'\n');
    if end < bytes.len() {
        return kind_after(&bytes[from..end], end + 1);
    }
    None
}

// A value that was told and is no NaN, and a place.
fn value_at(v: Option<Value>, place: usize) -> Option<(Value, usize)>
    ensures { result ≡ value_at place (value_said v) }
{
    let value = v?;
    if styles::values::value_is_nan(value) {
        return None;
    }
    Some((value, place))
}

fn value_after(line: &[u8], kind: Kind, place: usize) -> Option<(Value, usize)>
    ensures { result ≡ value_at place (named (bytes "value=") (λ t. value_said (value_of kind t)) line.now) }
{
    if text::starts(line, b"value=") {
        return value_at(script::value_of(kind, &line[6..]), place);
    }
    None
}

// The line of a value of that kind.
pub fn value_line(bytes: &[u8], from: usize, kind: Kind) -> Option<(Value, usize)>
    requires { from ≤ length bytes.now }
    ensures { ReadsValue kind bytes.now from result }
{
    let end = text::find(bytes, from, b'\n');
    if end < bytes.len() {
        return value_after(&bytes[from..end], kind, end + 1);
    }
    None
}
