// Settings from a text of 17 lines, and the last four sets that were read.
#![tactic(auto)]

ghost use Rattle.std.specs.Prelude.{◌≡◌, Bool, true, false, cond, ◌+◌, ◌*◌, ◌≤◌, ◌<◌, length};
ghost use Rattle.settings_text.specs.Text.{share_name, limit_name, least_limit, settings_of, reading_of, no_settings, ReadsPair, ReadsPairs};
ghost use Rattle.settings_text.specs.Kept.{kept_none, taken_of, asked_of, Sound};

use tanks::Setting;

// Eight pairs that were read, and the place behind their lines; or the number of the line that is wrong.
#[derive(Clone, Copy)]
pub struct Pairs {
    pub line: u64,
    pub at: usize,
    pub settings: [Setting; 8],
}

// What a text says: 0 and eight pairs, or 12 and the number of its first wrong line.
#[derive(Clone, Copy)]
pub struct Reading {
    pub number: u64,
    pub line: u64,
    pub settings: [Setting; 8],
}

// One set of settings.
#[derive(Clone, Copy)]
pub struct Set {
    pub settings: [Setting; 8],
}

// The number of the last set that was read, and the last four sets, the newest first.
#[derive(Clone, Copy)]
pub struct Kept {
    pub number: u32,
    pub sets: [Set; 4],
}

// What taking a text hands back: 0, or 12 with a line, and what is kept then.
#[derive(Clone, Copy)]
pub struct Taken {
    pub number: u64,
    pub line: u64,
    pub kept: Kept,
}

// A set that was asked for, where it is kept.
#[derive(Clone, Copy)]
pub struct Asked {
    pub found: bool,
    pub settings: [Setting; 8],
}

// How the line of a tank's share begins.
pub fn share_name(t: usize) -> [u8; 7]
    requires { t < 8 }
    ensures { result ≡ share_name t }
{
    [b's', b'h', b'a', b'r', b'e', 48 + t as u8, b'=']
}

// How the line of its limit begins.
pub fn limit_name(t: usize) -> [u8; 7]
    requires { t < 8 }
    ensures { result ≡ limit_name t }
{
    [b'l', b'i', b'm', b'i', b't', 48 + t as u8, b'=']
}

fn least_limit(ordered: bool, share: u64) -> u64
    ensures { result ≡ least_limit ordered share }
{
    if ordered { share } else { 1 }
}

// The two lines of tank t's pair, behind n lines.
fn pair_lines(
    ordered: bool,
    bytes: &[u8],
    from: usize,
    t: usize,
    n: u64,
) -> Result<(u64, u64, usize), u64>
    requires { (t < 8) × (n < 512) × (from ≤ length bytes.now) }
    ensures { ReadsPair ordered bytes.now from t n result }
{
    let share = share_name(t);
    let Some((s, next)) = text_lines::number(bytes, from, &share, 1, 512) else {
        return Err(n + 1);
    };
    let limit = limit_name(t);
    let Some((l, last)) = text_lines::number(bytes, next, &limit, least_limit(ordered, s), 512)
    else {
        return Err(n + 2);
    };
    Ok((s, l, last))
}

fn wrong_pairs(line: u64) -> Pairs
    ensures { result ≡ record { line = line; at = 0; settings = no_settings } }
{
    Pairs {
        line,
        at: 0,
        settings: [Setting { share: 0, limit: 0 }; 8],
    }
}

// The lines of eight pairs from a place on, behind n lines; where a limit under its share is wrong, `ordered` says so.
pub fn pairs_lines(ordered: bool, bytes: &[u8], from: usize, n: u64) -> Pairs
    requires { (n < 64) × (from ≤ length bytes.now) }
    ensures { ReadsPairs ordered bytes.now from n result }
{
    let mut settings = [Setting { share: 0, limit: 0 }; 8];
    let mut at = from;
    for t in 0..8 {
        match pair_lines(ordered, bytes, at, t, n + 2 * text::wide(t)) {
            Err(line) => return wrong_pairs(line),
            Ok((share, limit, next)) => {
                settings[t] = Setting { share, limit };
                at = next;
            }
        }
    }
    Pairs {
        line: 0,
        at,
        settings,
    }
}

fn wrong(line: u64) -> Reading
    ensures { result ≡ record { number = 12; line = line; settings = no_settings } }
{
    Reading {
        number: 12,
        line,
        settings: [Setting { share: 0, limit: 0 }; 8],
    }
}

// The eight pairs that a text says, or 12 and its first wrong line, 18 for text left over.
pub fn read(bytes: &[u8]) -> Reading
    ensures { result ≡ reading_of (settings_of bytes.now) }
{
    let Some((_, start)) = text_lines::number(bytes, 0, b"version=", 1, 1) else {
        return wrong(1);
    };
    let p = pairs_lines(false, bytes, start, 1);
    if 0 < p.line {
        return wrong(p.line);
    }
    if p.at < bytes.len() {
        return wrong(18);
    }
    let settings = p.settings;
    Reading {
        number: 0,
        line: 0,
        settings,
    }
}

// Nothing read yet.
pub fn none() -> Kept
    ensures { (result ≡ kept_none) × Sound result }
{
    Kept {
        number: 0,
        sets: [Set {
            settings: [Setting { share: 0, limit: 0 }; 8],
        }; 4],
    }
}

impl Kept {
    // A text read, and kept under the next number where it is good.
    pub fn take(self, bytes: &[u8]) -> Taken
        requires { Sound self }
        ensures { (result ≡ taken_of self (settings_of bytes.now)) × Sound result.kept }
    {
        let r = read(bytes);
        if 0 < r.number {
            return Taken {
                number: 12,
                line: r.line,
                kept: self,
            };
        }
        if self.number < 4294967295 {
            let settings = r.settings;
            let newest = Set { settings: settings };
            let a = self.sets[0];
            let b = self.sets[1];
            let c = self.sets[2];
            let next = Kept {
                number: self.number + 1,
                sets: [newest, a, b, c],
            };
            return Taken {
                number: 0,
                line: 0,
                kept: next,
            };
        }
        Taken {
            number: 12,
            line: 0,
            kept: self,
        }
    }

    // Set number n, where it is one of the last four.
    pub fn ask(self, n: u64) -> Asked
        requires { Sound self }
        ensures { result ≡ asked_of self n }
    {
        let last = u64::from(self.number);
        if n < 1 {
            return nothing();
        }
        if n > last {
            return nothing();
        }
        let age = last - n;
        if age < 4 {
            let set = self.sets[age as usize];
            let settings = set.settings;
            return Asked {
                found: true,
                settings,
            };
        }
        nothing()
    }
}

fn nothing() -> Asked
    ensures { result ≡ record { found = false; settings = no_settings } }
{
    Asked {
        found: false,
        settings: [Setting { share: 0, limit: 0 }; 8],
    }
}
