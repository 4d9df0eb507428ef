// Settings and eight tanks as a text, and back.
#![tactic(auto)]

mod words; // words.rt: lines that hold a word
mod marks; // marks.rt: the lines of marks
mod spans; // spans.rt: the lines of runs
mod one_tank; // one_tank.rt: the lines of a tank
mod house; // house.rt: the lines of the settings and of eight tanks
mod writing; // writing.rt: the text into a lent buffer

ghost use Rattle.std.specs.Prelude.{◌≡◌};
ghost use Rattle.tanks.specs.Pool as pool;
ghost use Rattle.saved.specs.Reads.{Restores};

use house::{begin_lines, tanks_lines};
use script::Kind;
use styles::{Identity, Mark, Party, Value};
use tank::Tank;
use tanks::Tanks;
pub use writing::{MOST, needed, write};

// In the five structs here `line` is 0 where all was read well, and no `Result` holds them: memory is fixed, tables and tanks lie in them by
// value, and a `?` would hand 3 to 25 KB on once more.

// Marks that were read, how many lines were read with them, and the place behind them; or the number of the line that is wrong.
#[derive(Clone, Copy)]
struct ReadMarks {
    line: u64,
    at: usize,
    lines: u64,
    table: [Mark; 64],
}

// Runs that were read, and the place behind their lines: the sum of their lengths as far as 2^63, and all their sets together. Or the number
// of the line that is wrong.
#[derive(Clone, Copy)]
struct ReadRuns {
    line: u64,
    at: usize,
    sum: u64,
    all: u64,
    lens: [u64; 514],
    sets: [u64; 514],
}

// A tank as far as its runs, how many lines were read with it, and the place behind them; or the number of the line that is wrong. The flag
// is 1 for a touched tank.
#[derive(Clone, Copy)]
struct TankHead {
    line: u64,
    at: usize,
    lines: u64,
    flag: u64,
    length: u64,
    marks: usize,
    table: [Mark; 64],
}

// A tank that was read, how many lines were read with it, and the place behind them; or the number of the line that is wrong.
#[derive(Clone, Copy)]
struct TankLine {
    line: u64,
    at: usize,
    lines: u64,
    tank: Tank,
}

// Eight fresh tanks with the settings of a text, its version, and the place behind its first 17 lines; or the number of the line that is
// wrong.
#[derive(Clone, Copy)]
struct Begun {
    line: u64,
    at: usize,
    version: u64,
    tanks: Tanks,
}

// Tanks that were filled from their lines, how many lines were read so far, and the place behind them; or the number of the line that is
// wrong.
#[derive(Clone, Copy)]
struct Filled {
    line: u64,
    at: usize,
    lines: u64,
    tanks: Tanks,
}

// What a restore hands back: 0 and the tanks of the text, or 13, its first wrong line and the tanks as they were.
#[derive(Clone, Copy)]
pub struct Restored {
    pub number: u64,
    pub line: u64,
    pub tanks: Tanks,
}

fn not_restored(line: u64, tanks: Tanks) -> Restored
    ensures { result ≡ record { number = 13; line = line; tanks = tanks } }
{
    Restored {
        number: 13,
        line: line,
        tanks: tanks,
    }
}

// The tanks that a text says, or 13, its first wrong line and the tanks as they were.
pub fn restore(s: Tanks, bytes: &[u8]) -> Restored
    requires { pool.Sound s }
    ensures { Restores s bytes.now result }
{
    let b = begin_lines(bytes);
    if 0 < b.line {
        return not_restored(b.line, s);
    }
    let fresh = b.tanks;
    let f = tanks_lines(bytes, b.at, b.version, fresh);
    if 0 < f.line {
        return not_restored(f.line, s);
    }
    if f.at < bytes.len() {
        return not_restored(f.lines + 1, s);
    }
    let tanks = f.tanks;
    Restored {
        number: 0,
        line: 0,
        tanks: tanks,
    }
}
