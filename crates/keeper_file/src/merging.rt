// Logs one after another from their starts, all or nothing: `begin_merge`, then for each log `pour` with each read of it and `next_log` where it
// is over, and `settle` behind the last. A log that stops leaves the merge stopped, and nothing after it changes anything.
ghost use Rattle.std.specs.Prelude.{◌≡◌};
ghost use Rattle.tanks.specs.Pool as pool;
ghost use Rattle.keeper_file.specs.File.{further_by};
ghost use Rattle.keeper_file.specs.Merging.{set_out, poured_on, log_over, standing_of, nothing_new, Sound, Stands, Settles};

use super::{Merge, Renewed, counted, renew};
use day_log::Stop;
use tanks::Tanks;

// A sum as far as 64 bits count.
fn sum(a: u64, b: u64) -> u64
    ensures { result ≡ further_by a b }
{
    a.saturating_add(b)
}

// A merge of no logs yet.
pub fn begin_merge(s: Tanks) -> Merge
    requires { pool.Sound s }
    ensures { Stands result (set_out (pool.meaning s)) }
{
    let log = day_log::begin();
    Merge {
        tanks: s,
        log: log,
        logs: 0,
        edits: 0,
    }
}

// Some bytes more of the log that is being read, wherever it was cut.
pub fn pour(m: Merge, bytes: &[u8]) -> Merge
    requires { Sound m }
    ensures { Stands result (poured_on (standing_of m) bytes.now) }
{
    let tanks = m.tanks;
    let log = m.log;
    let t = day_log::take(tanks, log, bytes);
    let next = t.tanks;
    let more = t.log;
    Merge {
        tanks: next,
        log: more,
        logs: m.logs,
        edits: m.edits,
    }
}

// The log that is being read is over: the next begins from its own start, unless this one stopped or ends in the middle of a group.
pub fn next_log(m: Merge) -> Merge
    requires { Sound m }
    ensures { Stands result (log_over (standing_of m)) }
{
    let tanks = m.tanks;
    let log = m.log;
    let last = day_log::end(log);
    let stop = last.stop;
    let Stop::Going = stop else {
        return Merge {
            tanks: tanks,
            log: last,
            logs: m.logs,
            edits: m.edits,
        };
    };
    let fresh = day_log::begin();
    Merge {
        tanks: tanks,
        log: fresh,
        logs: counted(m.logs),
        edits: sum(m.edits, last.edits),
    }
}

fn nothing_new() -> Renewed
    ensures { result ≡ nothing_new }
{
    Renewed {
        number: 0,
        count: 0,
        changed: false,
    }
}

// What the file is to hold, its place as it was: the tanks after all logs; where one stopped nothing is to be written.
pub fn settle(m: Merge, place: u64, kept: &[u8], next: &mut [u8]) -> Renewed
    requires { Sound m }
    ensures { Settles (standing_of m) place kept.now next.old result next.new }
{
    let log = m.log;
    let stop = log.stop;
    let Stop::Going = stop else {
        return nothing_new();
    };
    let tanks = m.tanks;
    renew(tanks, place, kept, next)
}
