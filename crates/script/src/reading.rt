// What one line, without its newline, makes of the call that is being read.
ghost use Rattle.std.specs.Prelude.{◌≡◌, [], ◌∷◌, ◌<◌, MatchOption};
ghost use Rattle.script.specs.Cells.{field_of};
ghost use Rattle.script.specs.Reading.{start_of, NoValue, HasValue, within_of, byte_of, party_of, op_named, kind_among, kind_named, whole_of, decimal_of_bits, value_of, fresh_of, moved_of, bad_of, with_op, with_number, with_counter, with_kind, with_value, held_line, line_of};

use super::fields::{field_at, field_holds, op_at, progress};
use super::names::{begins, field_name, is_name, kind_name, op_named};
use super::values::of_bits;
use super::{Call, Holds, Kind, Progress, Read};
use styles::Value;

// Where the value starts in a field's line.
pub fn value_start(f: u8, line: &[u8]) -> Option<usize>
    ensures { result ≡ start_of (field_of f) line.now }
{
    let n = field_name(f);
    if begins(line, n) {
        return Some(n.len);
    }
    None
}

// What stands behind the field's name in its line.
pub fn value_in<'a>(f: u8, line: &'a [u8]) -> Option<&'a [u8]>
    ensures { MatchOption result (NoValue (field_of f) line.now) (λ t. HasValue (field_of f) line.now t.now) }
{
    let k = value_start(f, line)?;
    let value = &line[k..];
    Some(value)
}

// A number that is at most so much.
fn within(p: Option<u64>, most: u64) -> Option<u64>
    ensures { result ≡ within_of most p }
{
    p.filter(|n| *n <= most)
}

// A text of one byte, as its number.
fn byte_of(t: &[u8]) -> Option<u64>
    ensures { result ≡ byte_of t.now }
{
    if t.len() == 1 {
        return Some(u64::from(t[0]));
    }
    None
}

// A party's name, as its number.
fn party_named(t: &[u8]) -> Option<u64>
    ensures { result ≡ party_of t.now }
{
    if text::same(t, b"plant") {
        return Some(0);
    }
    if text::same(t, b"lab") {
        return Some(1);
    }
    None
}

// A kind, where the text is its name.
fn or_kind(t: &[u8], kind: Kind, other: Option<Kind>) -> Option<Kind>
    ensures { result ≡ kind_among (kind ∷ []) t.now other }
{
    let n = kind_name(kind);
    if is_name(t, n) {
        return Some(kind);
    }
    other
}

// The kind that a text names.
pub fn kind_named(t: &[u8]) -> Option<Kind>
    ensures { result ≡ kind_named t.now }
{
    let none = None;
    let a = or_kind(t, Kind::Decimal, none);
    let b = or_kind(t, Kind::Whole, a);
    let c = or_kind(t, Kind::Bool, b);
    or_kind(t, Kind::Null, c)
}

fn null_of(t: &[u8]) -> Option<Value>
    ensures { result ≡ value_of Kind.Null t.now }
{
    if t.len() == 0 {
        return Some(Value::Null);
    }
    None
}

fn flag_of(t: &[u8]) -> Option<Value>
    ensures { result ≡ value_of Kind.Bool t.now }
{
    if text::same(t, b"0") {
        return Some(Value::Flag(false));
    }
    if text::same(t, b"1") {
        return Some(Value::Flag(true));
    }
    None
}

fn whole_of(s: Option<i64>) -> Option<Value>
    ensures { result ≡ whole_of s }
{
    s.map(Value::Whole)
}

fn decimal_of(p: Option<u64>) -> Option<Value>
    ensures { result ≡ decimal_of_bits p }
{
    p.map(|n| Value::Decimal(of_bits(n)))
}

// The value of a kind that a text spells.
pub fn value_of(kind: Kind, t: &[u8]) -> Option<Value>
    ensures { result ≡ value_of kind t.now }
{
    match kind {
        Kind::Null => null_of(t),
        Kind::Bool => flag_of(t),
        Kind::Whole => whole_of(text::integer(t)),
        Kind::Decimal => decimal_of(text::hex(t)),
    }
}

// A call of which only the op is known, by its row.
fn fresh(row: usize) -> Call
    ensures { result ≡ fresh_of row }
{
    let op = op_at(row);
    Call {
        op,
        row,
        place: 0,
        numbers: [0; 16],
        cnt: 0,
        kind: Kind::Null,
        value: Value::Null,
    }
}

// Between two groups: the next line names an op.
pub fn idle() -> Call
    ensures { result ≡ fresh_of 0 }
{
    fresh(0)
}

// The call with one field more.
fn moved(call: Call) -> Read
    requires { call.place < 16 }
    ensures { result ≡ moved_of call.op call.row call.place call.numbers call.cnt call.kind call.value }
{
    let mut next = call;
    next.place += 1;
    let stands = progress(field_holds(field_at(next.row, next.place)));
    Read {
        call: next,
        progress: stands,
    }
}

// A bad line leaves the call as it was.
fn bad(call: Call) -> Read
    ensures { result ≡ bad_of call }
{
    Read {
        call: call,
        progress: Progress::Bad,
    }
}

// An op begins the call anew: it is whole at once where the op has no fields.
fn with_op(call: Call, o: Option<usize>) -> Read
    ensures { result ≡ with_op call o }
{
    let Some(row) = o else {
        return bad(call);
    };
    let next = fresh(row);
    let stands = progress(field_holds(field_at(row, 0)));
    Read {
        call: next,
        progress: stands,
    }
}

fn with_number(call: Call, p: Option<u64>) -> Read
    requires { call.place < 16 }
    ensures { result ≡ with_number call p }
{
    let Some(n) = p else {
        return bad(call);
    };
    let mut next = call;
    next.numbers[call.place] = n;
    moved(next)
}

fn with_counter(call: Call, s: Option<i32>) -> Read
    requires { call.place < 16 }
    ensures { result ≡ with_counter call s }
{
    let Some(cnt) = s else {
        return bad(call);
    };
    moved(Call { cnt, ..call })
}

fn with_kind(call: Call, k: Option<Kind>) -> Read
    requires { call.place < 16 }
    ensures { result ≡ with_kind call k }
{
    let Some(kind) = k else {
        return bad(call);
    };
    moved(Call { kind, ..call })
}

fn with_value(call: Call, v: Option<Value>) -> Read
    requires { call.place < 16 }
    ensures { result ≡ with_value call v }
{
    let Some(value) = v else {
        return bad(call);
    };
    moved(Call { value, ..call })
}

// A line that gives what a field holds.
fn held_line(call: Call, f: u8, h: Holds, line: &[u8]) -> Read
    requires { call.place < 16 }
    ensures { result ≡ held_line call (field_of f) h line.now }
{
    let Some(value) = value_in(f, line) else {
        return bad(call);
    };
    match h {
        Holds::Nothing => bad(call),
        Holds::Op => with_op(call, op_named(value)),
        Holds::Number(most) => with_number(call, within(text::decimal(value), most)),
        Holds::Counter => with_counter(call, text::integer32(value)),
        Holds::Kind => with_kind(call, kind_named(value)),
        Holds::Value => with_value(call, value_of(call.kind, value)),
        Holds::Byte => with_number(call, byte_of(value)),
        Holds::Party => with_number(call, party_named(value)),
    }
}

// What a line, without its newline, makes of a call.
pub fn read_line(call: Call, line: &[u8]) -> Read
    ensures { result ≡ line_of call line.now }
{
    if line.len() > 64 {
        return bad(call);
    }
    let row = call.row;
    let place = call.place;
    if place >= 16 {
        return bad(call);
    }
    let f = field_at(row, place);
    held_line(call, f, field_holds(f), line)
}
