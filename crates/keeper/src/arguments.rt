// What the keeper was started with: a command, options behind it, and files behind those.
ghost use Rattle.std.specs.Prelude.{◌≤◌};
ghost use Rattle.io.specs.Counts.{IsPrefixLen};

use super::words::{Complained, complain, complain_of};
use commands::{Command, Options, Problem};
use std::env::FillError;
use std::rt::Env;

// The options, which argument was the last that is none, and which is the first that names a file.
#[derive(Clone, Copy)]
pub struct Given {
    pub options: Options,
    pub odd: usize,
    pub next: usize,
}

// An argument, and how long it is: nothing where there is none, or where it is longer than any name of a file.
pub fn word_at(rt: HostRuntime, i: usize, word: &mut [u8]) -> usize
    ensures { IsPrefixLen result word.new }
{
    match rt.arg(i, word) {
        Ok(n) => n,
        Err(_) => 0,
    }
}

// How many arguments there are, the program's own name among them.
pub fn how_many(rt: HostRuntime) -> usize {
    let mut word = [0u8; 1];
    for i in 0..usize::MAX {
        if let Err(FillError::NotPresent) = rt.arg(i, &mut word) {
            return i;
        }
    }
    usize::MAX
}

// One option more, at a place among the arguments.
fn with(g: Given, word: &[u8], at: usize) -> Given {
    let before = g.options;
    let o = commands::with_option(before, word);
    let odd = if o.unknown && !before.unknown {
        at
    } else {
        g.odd
    };
    Given {
        options: o,
        odd,
        next: g.next,
    }
}

// Is the argument at a place an option?
fn option_at(rt: HostRuntime, i: usize) -> bool {
    let mut word = io::buffer();
    let n = word_at(rt, i, &mut word);
    commands::is_option(&word[..n])
}

fn taken(rt: HostRuntime, g: Given, i: usize) -> Given {
    let mut word = io::buffer();
    let n = word_at(rt, i, &mut word);
    with(g, &word[..n], i)
}

// The options behind the command: nobody has reason to write so many that the count stops.
pub fn read(rt: HostRuntime) -> Given
    ensures { result.next ≤ 4096 }
{
    let count = how_many(rt).min(4096);
    let mut g = Given {
        options: commands::no_options(),
        odd: 0,
        next: 2,
    };
    for i in 2..count {
        if !option_at(rt, i) {
            return g;
        }
        g = taken(rt, g, i);
        g.next = i + 1;
    }
    g
}

// How many files are named.
pub fn files(rt: HostRuntime, g: Given) -> usize {
    how_many(rt).saturating_sub(g.next)
}

fn complain_at(rt: HostRuntime, i: usize, text: &[u8]) -> Complained {
    let mut word = io::buffer();
    let n = word_at(rt, i, &mut word);
    complain_of(&word[..n], text)
}

// Which argument behind the first file is an option.
fn late(rt: HostRuntime, g: Given) -> Option<usize> {
    let count = how_many(rt).min(4096);
    for i in g.next..count {
        if option_at(rt, i) {
            return Some(i);
        }
    }
    None
}

// The options stand in front of the files.
fn in_front(rt: HostRuntime, g: Given) -> Result<(), Complained> {
    match late(rt, g) {
        None => Ok(()),
        Some(i) => Err(complain_at(
            rt,
            i,
            b": options stand behind the command, in front of the files",
        )),
    }
}

// The command can be carried out; where it can't, what is wrong is said.
pub fn fine(rt: HostRuntime, c: Command, g: Given) -> Result<(), Complained> {
    let options = g.options;
    let Some(problem) = commands::wrong_with(c, options, files(rt, g)) else {
        return in_front(rt, g);
    };
    let said = match problem {
        Problem::NoCommand => complain_at(
            rt,
            1,
            b": there is no such command (keeper --help lists them)",
        ),
        Problem::NoOption => complain_at(
            rt,
            g.odd,
            b": there is no such option (keeper --help lists them)",
        ),
        Problem::TryElsewhere => complain(b"--try is an option of merge"),
        Problem::FromStartElsewhere => complain(b"--from-start is an option of feed"),
        Problem::TooFew => complain(b"too few files are named (keeper --help says more)"),
        Problem::TooMany => {
            in_front(rt, g)?;
            complain(b"too many files are named (keeper --help says more)")
        }
    };
    Err(said)
}
