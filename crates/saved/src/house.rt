// The lines of the settings and of eight tanks.
ghost use Rattle.std.specs.Prelude.{◌≡◌, ◌≤◌, ◌<◌, length};
ghost use Rattle.tanks.specs.Settings.{limit_of};
ghost use Rattle.tanks.specs.House.{fresh_house};
ghost use Rattle.tanks.specs.Pool as pool;
ghost use Rattle.saved.specs.Reads.{ReadsTanks, Begins};

use super::one_tank::tank_lines;
use super::{Begun, Filled};
use tanks::{Setting, Tanks};

fn limit_of(settings: [Setting; 8], t: usize) -> u64
    requires { (length settings ≡ 8) × (t < 8) }
    ensures { result ≡ limit_of settings t }
{
    settings[t].limit
}

fn filled_to(line: u64, at: usize, lines: u64, tanks: Tanks) -> Filled
    ensures { result ≡ record { line = line; at = at; lines = lines; tanks = tanks } }
{
    Filled {
        line: line,
        at: at,
        lines: lines,
        tanks: tanks,
    }
}

// The lines of eight tanks, put one after another into eight fresh ones.
pub fn tanks_lines(bytes: &[u8], from: usize, version: u64, start: Tanks) -> Filled
    requires { (from ≤ length bytes.now) × (pool.Sound start) × (pool.meaning start ≡ fresh_house start.settings) }
    ensures { ReadsTanks version start.settings bytes.now from result }
{
    let mut tanks = start;
    let mut at = from;
    let mut lines = 17;
    for t in 0..8 {
        let settings = tanks.settings;
        let r = tank_lines(bytes, at, lines, version, t, limit_of(settings, t));
        if 0 < r.line {
            return filled_to(r.line, 0, 0, tanks);
        }
        let x = r.tank;
        match tanks.put(t, x) {
            Ok(()) => {}
            Err(_) => return filled_to(r.lines, 0, 0, tanks),
        }
        at = r.at;
        lines = r.lines;
    }
    filled_to(0, at, lines, tanks)
}

fn nothing_opened(line: u64) -> Begun
    ensures { (result.line ≡ line) × (result.at ≡ 0) }
{
    let o = tanks::open([Setting { share: 1, limit: 1 }; 8]);
    let tanks = o.tanks;
    Begun {
        line: line,
        at: 0,
        version: 0,
        tanks: tanks,
    }
}

// The first 17 lines, and eight fresh tanks with their settings.
pub fn begin_lines(bytes: &[u8]) -> Begun
    ensures { Begins bytes.now result }
{
    let Some((version, start)) = text_lines::number(bytes, 0, b"version=", 1, 3) else {
        return nothing_opened(1);
    };
    let p = settings_text::pairs_lines(true, bytes, start, 1);
    if 0 < p.line {
        return nothing_opened(p.line);
    }
    let settings = p.settings;
    let o = tanks::open(settings);
    if 0 < o.number {
        return nothing_opened(17);
    }
    let tanks = o.tanks;
    Begun {
        line: 0,
        at: p.at,
        version: version,
        tanks: tanks,
    }
}
