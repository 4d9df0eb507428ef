// Byte strings: words, a search, and numbers as text, of which what is accepted is exactly what is printed.
#![tactic(auto)]

mod widths; // widths.rt: narrower numbers as 64 bits

ghost use Rattle.std.specs.Prelude.{◌≡◌, cond, ◌+◌, ◌*◌, ◌^◌, ◌≤◌, length, drop};
ghost use Rattle.text.specs.Signed.{plus_of, minus_of, signed_within, signed_of, signed32_of, signed_text};
ghost use Rattle.text.specs.Bytes.{up_to, starts_of, same_of};
ghost use Rattle.text.specs.Number.{digit_of, digit_read, is_digit, fitting, number_in, decimal_of, hex_of, decimal_text, hex_text, put as put_of};

pub use widths::{wide, wide_signed, wide8, wide16, wide32};

// The digit that a byte is the glyph of: there is a glyph for each digit up to 168.
fn digit(c: u8) -> Option<u64>
    ensures { result ≡ digit_read c }
{
    match c {
        b'0'..=b'9' => Some(u64::from(c - b'0')),
        b'a'..=255 => Some(u64::from(c - b'a') + 10),
        _ => None,
    }
}

// One digit more.
fn step(base: u64, v: u64, c: u8) -> Option<u64>
    requires { 1 ≤ base }
    ensures { result ≡ cond (is_digit base c) (fitting (v * base + digit_of c)) None }
{
    let d = digit(c)?;
    if d >= base {
        return None;
    }
    v.checked_mul(base)?.checked_add(d)
}

// The number that a text of digits spells.
fn number(base: u64, s: &[u8]) -> Option<u64>
    requires { 1 ≤ base }
    ensures { result ≡ number_in base s.now }
{
    let mut v = 0;
    for c in s {
        v = step(base, v, *c)?;
    }
    Some(v)
}

// A decimal of at most 64 bits, with no zero in front.
pub fn decimal(s: &[u8]) -> Option<u64>
    ensures { result ≡ decimal_of s.now }
{
    if s.len() < 1 {
        return None;
    }
    if 1 < s.len() {
        if s[0] == b'0' {
            return None;
        }
        return number(10, s);
    }
    number(10, s)
}

// Sixteen hexadecimal digits, in lower case.
pub fn hex(s: &[u8]) -> Option<u64>
    ensures { result ≡ hex_of s.now }
{
    if s.len() == 16 {
        return number(16, s);
    }
    None
}

// Puts bytes at a place of a buffer, and answers the place after them.
pub fn put(out: &mut [u8], at: usize, src: &[u8]) -> usize
    requires { at + length src.now ≤ length out.old }
    ensures { (result ≡ at + length src.now) × (out.new ≡ put_of out.old at src.now) }
{
    let end = at + src.len();
    out[at..end].copy_from_slice(src);
    end
}

// Puts a number's decimal text at a place of a buffer, and answers the place after it.
pub fn put_decimal(out: &mut [u8], at: usize, n: u64) -> usize
    requires { at + 20 ≤ length out.old }
    ensures { (result ≡ at + length (decimal_text n)) × (result ≤ at + 20) × (out.new ≡ put_of out.old at (decimal_text n)) }
{
    let mut t = [0u8; 20];
    let k = io::decimal(n, &mut t);
    put(out, at, &t[..k])
}

// Puts a number's sixteen hexadecimal digits at a place of a buffer, and answers the place after them.
pub fn put_hex(out: &mut [u8], at: usize, n: u64) -> usize
    requires { at + 16 ≤ length out.old }
    ensures { (result ≡ at + 16) × (out.new ≡ put_of out.old at (hex_text n)) }
{
    let mut t = [0u8; 16];
    let k = io::hex(n, 16, &mut t);
    put(out, at, &t[..k])
}

// Whether s starts with p.
pub fn starts(s: &[u8], p: &[u8]) -> bool
    ensures { result ≡ starts_of s.now p.now }
{
    s.starts_with(p)
}

// Where a byte stands first, from a place on: behind the last byte where there is none, and at that place itself where it is past the end.
pub fn find(bytes: &[u8], from: usize, byte: u8) -> usize
    ensures { result ≡ from + length (up_to byte (drop from bytes.now)) }
{
    if from >= bytes.len() {
        return from;
    }
    let rest = &bytes[from..];
    from + rest.iter().position(|b| *b == byte).unwrap_or(rest.len())
}

// Whether two texts are the same.
pub fn same(s: &[u8], t: &[u8]) -> bool
    ensures { result ≡ same_of s.now t.now }
{
    s == t
}

fn plus(bound: u64, p: Option<u64>) -> Option<i64>
    requires { bound ≤ 2 ^ 63 }
    ensures { result ≡ plus_of bound p }
{
    let n = p?;
    if n < bound {
        return Some(n as i64);
    }
    None
}

fn minus(bound: u64, p: Option<u64>) -> Option<i64>
    requires { bound ≤ 2 ^ 63 }
    ensures { result ≡ minus_of bound p }
{
    let n = p?;
    if n < 1 {
        return None;
    }
    if n > bound {
        return None;
    }
    Some(-((n - 1) as i64) - 1)
}

// A decimal with its sign, a minus, never in front of 0, or nothing: from minus the bound up to below it.
pub fn integer_within(bound: u64, s: &[u8]) -> Option<i64>
    requires { bound ≤ 2 ^ 63 }
    ensures { result ≡ signed_within bound s.now }
{
    if s.len() < 1 {
        return None;
    }
    if s[0] == b'-' {
        return minus(bound, decimal(&s[1..]));
    }
    plus(bound, decimal(s))
}

// One of at most 64 bits.
pub fn integer(s: &[u8]) -> Option<i64>
    ensures { result ≡ signed_of s.now }
{
    integer_within(9223372036854775808, s)
}

// One of at most 32 bits.
pub fn integer32(s: &[u8]) -> Option<i32>
    ensures { result ≡ signed32_of s.now }
{
    let z = integer_within(2147483648, s)?;
    Some(z as i32)
}

// Puts a number's decimal text with its sign at a place of a buffer, and answers the place after it.
pub fn put_integer(out: &mut [u8], at: usize, z: i64) -> usize
    requires { at + 21 ≤ length out.old }
    ensures { (result ≡ at + length (signed_text z)) × (result ≤ at + 21) × (out.new ≡ put_of out.old at (signed_text z)) }
{
    if z < 0 {
        out[at] = b'-';
        return put_decimal(out, at + 1, z.unsigned_abs());
    }
    put_decimal(out, at, z.unsigned_abs())
}
