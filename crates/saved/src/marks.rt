// The lines of a tank's marks.
ghost use Rattle.std.specs.Prelude.{◌≡◌, ◌-◌, ◌^◌, ◌≤◌, ◌<◌, MatchOption, length, replicate};
ghost use Rattle.text.specs.Bytes.{bytes};
ghost use Rattle.text_lines.specs.Lines.{decimal_from, taken_by};
ghost use Rattle.styles.specs.Marks.{blank};
ghost use Rattle.saved.specs.Saying.{party_least, own_before, key_least, lamport_least, peer_least, mark_with};
ghost use Rattle.saved.specs.Reads.{ReadsIdentity, ReadsContent, ReadsMark, ReadsMarks};

use super::ReadMarks;
use super::words::{counter_line, kind_line, party_line, value_line};
use styles::{Identity, Mark, Party, Value};

// The least that a party may be behind the mark before it.
fn party_least(before: Option<Mark>) -> u64
    ensures { result ≡ party_least before }
{
    match before {
        None => 0,
        Some(p) => styles::order::rank(p.party),
    }
}

// The mark before, if it is of this party.
fn own_before(before: Option<Mark>, who: Party) -> Option<Mark>
    ensures { result ≡ own_before before who }
{
    let p = before?;
    if styles::order::same_party(who, p.party) {
        Some(p)
    } else {
        None
    }
}

// The least that a key may be behind the mark of the same party before it.
fn key_least(before: Option<Mark>) -> u64
    ensures { result ≡ key_least before }
{
    match before {
        None => 0,
        Some(p) => u64::from(p.key),
    }
}

// A lamport behind that mark and this key.
fn lamport_least(before: Option<Mark>, key: u64) -> u64
    ensures { result ≡ lamport_least before key }
{
    let Some(p) = before else {
        return 0;
    };
    if key == u64::from(p.key) {
        u64::from(p.lamport)
    } else {
        0
    }
}

// The least that a peer may be behind that mark, this key and this lamport. With both equal it must be greater, so that behind the greatest
// peer there is none.
fn peer_least(before: Option<Mark>, key: u64, lamport: u64) -> Option<u64>
    ensures { MatchOption result (2 ^ 64 ≤ peer_least before key lamport) (λ least. least ≡ peer_least before key lamport) }
{
    let Some(p) = before else {
        return Some(0);
    };
    if key == u64::from(p.key) && lamport == u64::from(p.lamport) {
        p.peer.checked_add(1)
    } else {
        Some(0)
    }
}

// The line of a peer.
fn peer_line(
    t: &[u8],
    from: usize,
    before: Option<Mark>,
    key: u64,
    lamport: u64,
) -> Option<(u64, usize)>
    requires { from ≤ length t.now }
    ensures { result ≡ taken_by (bytes "peer=") (decimal_from (peer_least before key lamport) (2 ^ 64 - 1)) t.now from }
{
    let least = peer_least(before, key, lamport)?;
    text_lines::number(t, from, b"peer=", least, 18446744073709551615)
}

// An identity of numbers that are in their widths.
fn identity_with(who: Party, key: u64, lamport: u64, peer: u64) -> Identity
    requires { (key < 2 ^ 16) × (lamport < 2 ^ 32) }
    ensures { result ≡ record { party = who; key = key; lamport = lamport; peer = peer } }
{
    Identity {
        party: who,
        key: key as u16,
        lamport: lamport as u32,
        peer: peer,
    }
}

// The lines of a party's identity, behind n lines and that mark of the party.
fn identity_lines(
    bytes: &[u8],
    from: usize,
    n: u64,
    before: Option<Mark>,
    who: Party,
) -> Result<(Identity, usize), u64>
    requires { (n < 2 ^ 33) × (from ≤ length bytes.now) }
    ensures { ReadsIdentity before who bytes.now from n result }
{
    let Some((key, a)) = text_lines::number(bytes, from, b"key=", key_least(before), 65535) else {
        return Err(n + 1);
    };
    let Some((lamport, b)) = text_lines::number(
        bytes,
        a,
        b"lamport=",
        lamport_least(before, key),
        4294967295,
    ) else {
        return Err(n + 2);
    };
    let Some((peer, c)) = peer_line(bytes, b, before, key, lamport) else {
        return Err(n + 3);
    };
    Ok((identity_with(who, key, lamport, peer), c))
}

// A mark by its identity and the rest of it.
fn mark_with(i: Identity, cnt: i32, flags: u64, value: Value) -> Mark
    requires { flags < 2 ^ 8 }
    ensures { result ≡ mark_with i cnt flags value }
{
    let who = i.party;
    Mark {
        key: i.key,
        flags: flags as u8,
        party: who,
        lamport: i.lamport,
        cnt: cnt,
        peer: i.peer,
        value: value,
    }
}

// The lines behind an identity, behind n lines.
fn content_lines(
    bytes: &[u8],
    from: usize,
    n: u64,
    version: u64,
    i: Identity,
) -> Result<(Mark, u64, usize), u64>
    requires { (n < 2 ^ 33) × (from ≤ length bytes.now) }
    ensures { ReadsContent version i bytes.now from n result }
{
    let Some((cnt, m, a)) = counter_line(bytes, from, n, version) else {
        return Err(n + 1);
    };
    let Some((flags, b)) = text_lines::number(bytes, a, b"flags=", 0, 255) else {
        return Err(m + 1);
    };
    let Some((kind, c)) = kind_line(bytes, b) else {
        return Err(m + 2);
    };
    let Some((value, d)) = value_line(bytes, c, kind) else {
        return Err(m + 3);
    };
    Ok((mark_with(i, cnt, flags, value), m + 3, d))
}

// The lines of a mark, behind n lines and that mark.
fn mark_lines(
    bytes: &[u8],
    from: usize,
    n: u64,
    version: u64,
    before: Option<Mark>,
) -> Result<(Mark, u64, usize), u64>
    requires { (n < 2 ^ 32) × (from ≤ length bytes.now) }
    ensures { ReadsMark version before bytes.now from n result }
{
    let Some((who, m, a)) = party_line(bytes, from, n, version, party_least(before)) else {
        return Err(n + 1);
    };
    let (i, b) = identity_lines(bytes, a, m, own_before(before, who), who)?;
    content_lines(bytes, b, m + 3, version, i)
}

fn wrong_marks(line: u64) -> ReadMarks
    ensures { result ≡ record { line = line; at = 0; lines = 0; table = replicate 64 blank } }
{
    ReadMarks {
        line: line,
        at: 0,
        lines: 0,
        table: [styles::table::blank(); 64],
    }
}

// The lines of so many marks from a place on, behind n lines.
pub fn marks_lines(bytes: &[u8], from: usize, n: u64, version: u64, count: usize) -> ReadMarks
    requires { (n < 2 ^ 31) × (count ≤ 64) × (from ≤ length bytes.now) }
    ensures { ReadsMarks version bytes.now from n count result }
{
    let mut table = [styles::table::blank(); 64];
    let mut at = from;
    let mut lines = n;
    let mut before = None;
    for j in 0..count {
        match mark_lines(bytes, at, lines, version, before) {
            Err(line) => {
                return wrong_marks(line);
            }
            Ok((m, next, place)) => {
                table[j] = m;
                at = place;
                lines = next;
                before = Some(m);
            }
        }
    }
    ReadMarks {
        line: 0,
        at: at,
        lines: lines,
        table: table,
    }
}
