// The edge boxes' log as it arrives: edits as groups of lines, applied one after another until one is refused.
//
// A read may end anywhere. `begin`, then `take` with each read, and `end` where the log is over: tanks and log are then the same
// however the bytes were cut. The reader of lines and groups is the call scripts' own, so a log is a script of three ops.
#![tactic(auto)]

mod groups; // groups.rt: the whole groups at the front of some bytes

ghost use Rattle.std.specs.Prelude.{true, ◌≡◌};
ghost use Rattle.script.specs.Lines.{counted_of};
ghost use Rattle.tanks.specs.Pool as pool;
ghost use Rattle.tanks.specs.Promises.{edit_of};
ghost use Rattle.day_log.specs.Log.{change_by, is_edit, logged, edit_by, step_of, wrong_line, fresh, stopped_log, at_end, Sound, Takes};

pub use groups::take_groups;
use script::{Call, Change, Ending, Event, Op, Reader};
use styles::Party;
use tanks::{Edit, Tanks};

// Whether a log goes on, or where it stopped: the number of a line, and the refusal's number.
#[derive(Clone, Copy)]
pub enum Stop {
    Going,
    Refused(u64, u64),
}

// A log as far as it has come: the line and the group that are being read, how many edits were applied, and where it stopped.
#[derive(Clone, Copy)]
pub struct Log {
    pub reader: Reader,
    pub edits: u64,
    pub stop: Stop,
}

// The tanks and the log after some of its bytes.
#[derive(Clone, Copy)]
pub struct Taken {
    pub tanks: Tanks,
    pub log: Log,
}

// The tanks after the whole groups at the front of some bytes, the place behind the last of them, how many lines and edits they were, and
// where the log stopped behind them, if it did.
#[derive(Clone, Copy)]
pub struct Took {
    pub tanks: Tanks,
    pub at: usize,
    pub lines: u64,
    pub edits: u64,
    pub stop: Stop,
}

// Whether a log may name an op that changes the tanks.
fn is_edit(e: Change) -> bool
    ensures { result ≡ is_edit e }
{
    matches!(e, Change::Annotate | Change::Insert | Change::Delete)
}

// Whether a log may name an op; between two groups there is none.
fn is_logged(op: Op) -> bool
    ensures { result ≡ logged op }
{
    match op {
        Op::Nothing => true,
        Op::Change(e) => is_edit(e),
        Op::Question(_) | Op::Listing(_) | Op::Text(_) | Op::Desk(_) | Op::Both(_) => false,
    }
}

// The edit of a whole group that changes the tanks; where a log may not name the op it is one that is always refused.
fn change_in(e: Change, call: Call) -> Edit
    ensures { edit_of result ≡ change_by e call }
{
    let n = call.numbers;
    match e {
        Change::Annotate => Edit::Annotate(n[1], n[2], script::mark_of(Party::Plant, call)),
        Change::Insert => Edit::Insert(Party::Plant, n[1], n[2]),
        Change::Delete => Edit::Delete(Party::Plant, n[1], n[2]),
        Change::Open | Change::Remove | Change::Age => Edit::Delete(Party::Plant, 0, 0),
    }
}

// The edit of a whole group.
fn edit_in(call: Call) -> Edit
    ensures { edit_of result ≡ edit_by call.op call }
{
    let op = call.op;
    match op {
        Op::Change(e) => change_in(e, call),
        _ => Edit::Delete(Party::Plant, 0, 0),
    }
}

// What a line's end brings where the op is one of a log's: whether a good line was its group's last, and nothing of a wrong one.
fn known_step(e: Event) -> Option<bool>
    ensures { result ≡ step_of e true }
{
    match e {
        Event::Bad => None,
        Event::Call => Some(true),
        Event::Nothing => Some(false),
    }
}

// What a line's end brings where the call that it leaves has this op: one of another kind is wrong as soon as it is named.
fn line_step(e: Event, op: Op) -> Option<bool>
    ensures { result ≡ step_of e (logged op) }
{
    if is_logged(op) {
        return known_step(e);
    }
    None
}

// The number of a wrong line: a line that names an op of another kind was read, and counts already.
fn wrong_line(e: Event, r: Reader) -> u64
    ensures { result ≡ wrong_line e r.newlines }
{
    match e {
        Event::Bad => script::line_number(r),
        Event::Call | Event::Nothing => r.newlines,
    }
}

// One edit more, as far as 64 bits count.
fn one_more(edits: u64) -> u64
    ensures { result ≡ counted_of edits }
{
    edits.saturating_add(1)
}

// A log from its start.
pub fn begin() -> Log
    ensures { (result ≡ fresh) × Sound result }
{
    let reader = script::begin();
    Log {
        reader: reader,
        edits: 0,
        stop: Stop::Going,
    }
}

// A log that stopped: nothing is kept of its text.
fn stopped_log(edits: u64, line: u64, number: u64) -> Log
    ensures { result ≡ stopped_log edits line number }
{
    let reader = script::begin();
    Log {
        reader: reader,
        edits: edits,
        stop: Stop::Refused(line, number),
    }
}

// The log stops: the tanks stay as the edits before left them.
fn stopped(s: Tanks, edits: u64, line: u64, number: u64) -> Taken
    ensures { (result.tanks ≡ s) × (result.log ≡ stopped_log edits line number) }
{
    let log = stopped_log(edits, line, number);
    Taken { tanks: s, log: log }
}

// All bytes of a read are taken, and the log goes on.
fn read_on(s: Tanks, reader: Reader, edits: u64) -> Taken
    ensures { (result.tanks ≡ s) × (result.log ≡ record { reader = reader; edits = edits; stop = Stop.Going }) }
{
    let log = Log {
        reader: reader,
        edits: edits,
        stop: Stop::Going,
    };
    Taken { tanks: s, log: log }
}

// Nothing was taken.
fn as_it_was(s: Tanks, log: Log) -> Taken
    ensures { (result.tanks ≡ s) × (result.log ≡ log) }
{
    Taken { tanks: s, log: log }
}

// Some bytes of the log, a line to a turn: each group is applied when its last newline comes. The first line or edit that is refused ends
// the read, and the tanks stay as the edits before it left them.
pub fn take(s: Tanks, log: Log, bytes: &[u8]) -> Taken
    requires { (pool.Sound s) × (Sound log) }
    ensures { Takes s log bytes.now result }
{
    let stop = log.stop;
    let Stop::Going = stop else {
        return as_it_was(s, log);
    };
    let mut tanks = s;
    let mut reader = log.reader;
    let mut edits = log.edits;
    let mut from = 0;
    // A turn moves by a line: its length is not known before.
    while from < bytes.len() {
        let f = script::feed(reader, bytes, from);
        from = f.at;
        reader = f.reader;
        let e = f.event;
        let call = f.call;
        let op = call.op;
        let Some(whole) = line_step(e, op) else {
            return stopped(tanks, edits, wrong_line(e, reader), 13);
        };
        if whole {
            let n = call.numbers;
            match tanks.apply(n[0], edit_in(call)) {
                Ok(_) => edits = one_more(edits),
                Err(refusal) => {
                    return stopped(tanks, edits, reader.newlines, refusal.number());
                }
            }
        }
    }
    read_on(tanks, reader, edits)
}

// The end of the log: in the middle of a line or a group it is a wrong line. The tanks have no part in it.
pub fn end(log: Log) -> Log
    requires { Sound log }
    ensures { (result ≡ at_end log) × Sound result }
{
    let stop = log.stop;
    let Stop::Going = stop else {
        return log;
    };
    let r = log.reader;
    let e = script::ended(r);
    match e {
        Ending::Clean => log,
        Ending::Cut => stopped_log(log.edits, script::line_number(r), 13),
    }
}
