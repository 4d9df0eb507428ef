// The three lists that fill what a caller lends, on a house of a few marks: the refusal or the count, the part that is filled, and the rest
// of the buffer, which stays.
#![tactic(auto)]

ghost use Rattle.tanks.specs.Pool.{Sound};

mod anchors;
mod print;
mod stretches;

use crate::print::{say, say_labelled};
use styles::{Mark, Party, Value};
use tanks::{Setting, Tanks};

// A mark over a range, with the number that the call answers.
fn marked(mut s: Tanks, tank: u64, start: u64, end: u64, key: u16) -> Tanks
    requires { Sound s }
    ensures { Sound result }
{
    let mark = Mark {
        key,
        flags: 0x84,
        party: Party::Plant,
        lamport: 5,
        cnt: 0,
        peer: 1,
        value: Value::Flag(true),
    };
    let done = s.annotate(tank, start, end, mark);
    say_labelled(b"annotate tank=", tank);
    say_labelled(b" start=", start);
    say_labelled(b" end=", end);
    say_labelled(b" key=", key as u64);
    let number = match done {
        Ok(()) => 0,
        Err(refusal) => refusal.number(),
    };
    say_labelled(b" number=", number);
    say(b"\n");
    s
}

// Two marks that overlap in tank 0, one in tank 1, three in tank 2, none in the others.
fn house(s: Tanks) -> Tanks
    requires { Sound s }
    ensures { Sound result }
{
    let a = marked(s, 0, 10, 20, 1);
    let b = marked(a, 0, 15, 30, 2);
    let c = marked(b, 1, 4, 8, 1);
    let d = marked(c, 2, 0, 3, 1);
    let e = marked(d, 2, 5, 9, 2);
    marked(e, 2, 12, 13, 3)
}

fn lists(s: Tanks)
    requires { Sound s }
{
    stretches::ranges(s);
    stretches::wholes(s);
    anchors::tanks(s);
}

fn main() {
    let opened = tanks::open([Setting {
        share: 40,
        limit: 200,
    }; 8]);
    lists(house(opened.tanks));
}
