// Answers put line by line into a buffer, and written out where its room runs short.
ghost use Rattle.std.specs.Prelude.{◌≡◌, false, ◌+◌, ◌≤◌, min, length};
ghost use Rattle.script.specs.Writing.{Puts, free_at, line_text, field_text, kind_of, value_word, value_text, counter_text, origin_text, mark_text};
ghost use Rattle.text.specs.Bytes.{bytes};
ghost use Rattle.script.specs.Grammar.{kind_name, spelled_of};

use super::lines::least;
use super::names::kind_name;
use super::values::bits_of;
use super::{Kind, Name};
use styles::{Mark, Value};

// Puts a name, a word and a newline at a place of a buffer, and answers the place behind them, as all that follow do.
pub fn put_line(out: &mut [u8], at: usize, name: &[u8], word: &[u8]) -> usize
    requires { at + (length name.now + length word.now + 1) ≤ length out.old }
    ensures { Puts out.old at (line_text name.now word.now) (length name.now + length word.now + 1) result out.new }
{
    let a = text::put(out, at, name);
    let b = text::put(out, a, word);
    text::put(out, b, b"\n")
}

// Puts a name, a number and a newline.
pub fn put_field(out: &mut [u8], at: usize, name: &[u8], n: u64) -> usize
    requires { at + (length name.now + 21) ≤ length out.old }
    ensures { Puts out.old at (field_text name.now n) (length name.now + 21) result out.new }
{
    let a = text::put(out, at, name);
    let b = text::put_decimal(out, a, n);
    text::put(out, b, b"\n")
}

pub fn kind_of(v: Value) -> Kind
    ensures { result ≡ kind_of v }
{
    match v {
        Value::Null => Kind::Null,
        Value::Flag(_) => Kind::Bool,
        Value::Whole(_) => Kind::Whole,
        Value::Decimal(_) => Kind::Decimal,
    }
}

// Puts a name.
pub fn put_name(out: &mut [u8], at: usize, n: Name) -> usize
    requires { (n.len ≤ length n.text) × (at + n.len ≤ length out.old) }
    ensures { Puts out.old at (spelled_of n) n.len result out.new }
{
    let t = n.text;
    let k = n.len;
    text::put(out, at, &t[..k])
}

// Puts the line of a kind.
fn put_kind(out: &mut [u8], at: usize, k: Kind) -> usize
    requires { at + 22 ≤ length out.old }
    ensures { Puts out.old at (line_text (bytes "kind=") (kind_name k)) 22 result out.new }
{
    let n = kind_name(k);
    let a = text::put(out, at, b"kind=");
    let b = put_name(out, a, n);
    text::put(out, b, b"\n")
}

fn put_flag(out: &mut [u8], at: usize, b: bool) -> usize
    requires { at + 21 ≤ length out.old }
    ensures { Puts out.old at (value_word (Value.Flag b)) 21 result out.new }
{
    if b {
        return text::put(out, at, b"1");
    }
    text::put(out, at, b"0")
}

// Puts a value's word.
fn put_word(out: &mut [u8], at: usize, v: Value) -> usize
    requires { at + 21 ≤ length out.old }
    ensures { Puts out.old at (value_word v) 21 result out.new }
{
    match v {
        Value::Null => text::put(out, at, b""),
        Value::Flag(b) => put_flag(out, at, b),
        Value::Whole(z) => text::put_integer(out, at, z),
        Value::Decimal(x) => text::put_hex(out, at, bits_of(x)),
    }
}

// Puts the two lines of a value.
pub fn put_value(out: &mut [u8], at: usize, v: Value) -> usize
    requires { at + 50 ≤ length out.old }
    ensures { Puts out.old at (value_text v) 50 result out.new }
{
    let k = kind_of(v);
    let a = put_kind(out, at, k);
    let b = text::put(out, a, b"value=");
    let c = put_word(out, b, v);
    text::put(out, c, b"\n")
}

// Puts the line of a counter.
pub fn put_counter(out: &mut [u8], at: usize, cnt: i32) -> usize
    requires { at + 26 ≤ length out.old }
    ensures { Puts out.old at (counter_text cnt) 26 result out.new }
{
    let a = text::put(out, at, b"cnt=");
    let b = text::put_integer(out, a, i64::from(cnt));
    text::put(out, b, b"\n")
}

// Puts the lines of a mark's identity and of its counter.
fn put_origin(out: &mut [u8], at: usize, m: Mark) -> usize
    requires { at + 106 ≤ length out.old }
    ensures { Puts out.old at (origin_text m) 106 result out.new }
{
    let a = put_field(out, at, b"key=", u64::from(m.key));
    let b = put_field(out, a, b"lamport=", u64::from(m.lamport));
    let c = put_field(out, b, b"peer=", m.peer);
    put_counter(out, c, m.cnt)
}

// Puts the seven lines of a mark.
pub fn put_mark(out: &mut [u8], at: usize, m: Mark) -> usize
    requires { at + 183 ≤ length out.old }
    ensures { Puts out.old at (mark_text m) 183 result out.new }
{
    let a = put_origin(out, at, m);
    let b = put_field(out, a, b"flags=", u64::from(m.flags));
    let v = m.value;
    put_value(out, b, v)
}

// Hands bytes to standard output. Where they can't be written, as on a full device or a pipe that nobody reads, there is no use in going
// on: `good` is false then, so that the run ends, and a word stands on standard error. A later write that fails finds it false, and is silent.
fn write_out(bytes: &[u8], good: &mut bool)
    ensures { good.old ≡ false → good.new ≡ false }
{
    if io::write_all(1, bytes) {
        return;
    }
    if *good {
        io::write_all(2, b"standard output can't be written: the run ends here\n");
    }
    *good = false;
}

// Writes the front of a buffer out, up to a place, or up to its end where the place is past it; answers how many bytes
// that were. Nothing of them waits then, whether or not they could be written: what could not is lost, and whoever called this ends the run
// where `good` is false.
pub fn hand_over(out: &[u8], at: usize, good: &mut bool) -> usize
    ensures count { result ≡ min at (length out.now) }
    ensures lost { good.old ≡ false → good.new ≡ false }
{
    let n = least(at, out.len());
    write_out(&out[..n], good);
    n
}

// The same where nobody looks whether they could be written: a device that is full stays full, and a pipe that nobody reads stays so, so that
// what is handed over at the end of a turn says it of all.
pub fn emit(out: &[u8], at: usize) -> usize
    ensures { result ≡ min at (length out.now) }
{
    let mut good = false;
    hand_over(out, at, &mut good)
}

// A place with so much room behind it. Where there is less, what waits in front is written out. A buffer of more than 65,536 bytes is held: it
// is never written out, and what had no room is put over its last bytes, so that its owner finds the place there and knows.
pub fn flushed(out: &[u8], at: usize, room: usize) -> usize
    requires { room ≤ length out.now }
    ensures { (result ≡ free_at room at out.now) × (result + room ≤ length out.now) }
{
    if at <= out.len() - room {
        return at;
    }
    if out.len() <= 65536 {
        emit(out, at);
        return 0;
    }
    out.len() - room
}
