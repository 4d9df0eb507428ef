// The whole groups at the front of some bytes: what a keeper takes of a log that may go on later.
ghost use Rattle.std.specs.Prelude.{◌≡◌};
ghost use Rattle.tanks.specs.Pool as pool;
ghost use Rattle.day_log.specs.Groups.{TakesGroups};

use super::{Stop, Took, edit_in, line_step, one_more, wrong_line};
use tanks::Tanks;

fn took(tanks: Tanks, at: usize, lines: u64, edits: u64, stop: Stop) -> Took
    ensures { result ≡ record { tanks = tanks; at = at; lines = lines; edits = edits; stop = stop } }
{
    Took {
        tanks,
        at,
        lines,
        edits,
        stop,
    }
}

// A log from its start, group after group: the place moves only with a group that is whole and accepted, so the bytes behind it can be taken
// again, with what comes later behind them.
pub fn take_groups(s: Tanks, bytes: &[u8]) -> Took
    requires { pool.Sound s }
    ensures { TakesGroups s bytes.now result }
{
    let mut tanks = s;
    let mut reader = script::begin();
    let mut edits: u64 = 0;
    let mut lines: u64 = 0;
    let mut at = 0;
    let mut from = 0;
    // A turn moves by a line: its length is not known before.
    while from < bytes.len() {
        let f = script::feed(reader, bytes, from);
        from = f.at;
        reader = f.reader;
        let e = f.event;
        let call = f.call;
        let op = call.op;
        let Some(whole) = line_step(e, op) else {
            return took(
                tanks,
                at,
                lines,
                edits,
                Stop::Refused(wrong_line(e, reader), 13),
            );
        };
        if whole {
            let n = call.numbers;
            match tanks.apply(n[0], edit_in(call)) {
                Ok(_) => edits = one_more(edits),
                Err(refusal) => {
                    return took(
                        tanks,
                        at,
                        lines,
                        edits,
                        Stop::Refused(reader.newlines, refusal.number()),
                    );
                }
            }
            lines = reader.newlines;
            at = from;
        }
    }
    took(tanks, at, lines, edits, Stop::Going)
}
