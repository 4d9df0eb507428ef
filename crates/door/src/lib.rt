// The door: what C and Rust link, through door_c. Each function works on bytes that the caller lends, and keeps nothing: the eight tanks are a saved text, which
// is read anew at each call, so that no call trusts memory that it has not checked. `bindings/c/mavelino.h` declares these functions.
//
// A refusal writes nothing but the report. The answers of a run are put into memory of its own first, which is held and never written out, and
// handed over when the text has been written.
#![tactic(auto)]

ghost use Rattle.std.specs.Prelude.{◌≡◌, [], ◌∷◌, ◌≤◌, min, length, take};
ghost use Rattle.script.specs.Bodies.{ending_in};
ghost use Rattle.script.specs.Lines.{state_of, counted_of};
ghost use Rattle.saved.specs.Writes.{most_bytes};
ghost use Rattle.tanks.specs.Pool.{Sound, meaning};
ghost use Rattle.door.specs.Door as meant;
ghost use Rattle.door.specs.Door.{Writes, Runs, Feeds, Begins, RunsScript, FeedsLog, ReadsText, RunsCalls, most_answers};

use day_log::Stop;
use saved::Restored;
use script::{Ending, Inlet};
use tanks::{Setting, Tanks};

// What a call has come to: the number, the line, how many bytes of text and of answers stand in what is lent; and of a log how many bytes were
// taken, how many edits were applied, and by which number and at which line it stopped.
#[derive(Clone, Copy)]
struct Outcome {
    number: u64,
    line: u64,
    text: usize,
    answers: usize,
    taken: usize,
    applied: u64,
    stop: u64,
    at: u64,
}

// The tanks behind a script, its wrong line, and the place behind the answers.
#[derive(Clone, Copy)]
struct Ran {
    tanks: Tanks,
    line: u64,
    at: usize,
}

fn wrong(number: u64, line: u64) -> Outcome
    ensures { result ≡ meant.told (meant.wrong number line) }
{
    Outcome {
        number: number,
        line: line,
        text: 0,
        answers: 0,
        taken: 0,
        applied: 0,
        stop: 0,
        at: 0,
    }
}

fn right(text: usize, answers: usize) -> Outcome
    ensures { result ≡ record { number = 0; line = 0; text = text; answers = answers; taken = 0; applied = 0; stop = 0; at = 0 } }
{
    Outcome {
        number: 0,
        line: 0,
        text: text,
        answers: answers,
        taken: 0,
        applied: 0,
        stop: 0,
        at: 0,
    }
}

fn stopped(text: usize, taken: usize, edits: u64, number: u64, line: u64) -> Outcome
    ensures { result ≡ record { number = 0; line = 0; text = text; answers = 0; taken = taken; applied = edits; stop = number; at = line } }
{
    Outcome {
        number: 0,
        line: 0,
        text: text,
        answers: 0,
        taken: taken,
        applied: edits,
        stop: number,
        at: line,
    }
}

// A log that was taken up to a place, and whether it goes on.
fn fed(text: usize, taken: usize, edits: u64, stop: Stop) -> Outcome
    ensures { result ≡ record { number = 0; line = 0; text = text; answers = 0; taken = taken; applied = edits; stop = meant.stop_number stop; at = meant.stop_line stop } }
{
    match stop {
        Stop::Going => stopped(text, taken, edits, 0, 0),
        Stop::Refused(line, number) => stopped(text, taken, edits, number, line),
    }
}

// The tanks of a text, or 13 and its first wrong line.
fn tanks_of(text: &[u8]) -> Restored
    ensures { ReadsText text.now result }
{
    let o = tanks::open([Setting { share: 1, limit: 1 }; 8]);
    let s = o.tanks;
    saved::restore(s, text)
}

// The text of fresh tanks with the settings of a text, into what is lent for it.
fn begin_in(settings: &[u8], next: &mut [u8]) -> Outcome
    ensures { Writes (meant.begun settings.now (length next.old)) result next.old next.new }
{
    let r = settings_text::read(settings);
    if 0 < r.number {
        return wrong(12, r.line);
    }
    let pairs = r.settings;
    let o = tanks::open(pairs);
    if 0 < o.number {
        return wrong(2, 0);
    }
    let s = o.tanks;
    let l = saved::write(s, next);
    if 0 < l.number {
        return wrong(11, 0);
    }
    right(l.count, 0)
}

// The line at which a run ended, or in which its script breaks off; 0 for none.
fn bad_line(over: bool, inlet: Inlet) -> u64
    ensures { result ≡ meant.bad_in over (ending_in inlet.left (state_of inlet.reader)) (counted_of inlet.reader.newlines) }
{
    let r = inlet.reader;
    if over {
        return script::line_number(r);
    }
    let e = script::inlet_ended(inlet);
    match e {
        Ending::Clean => 0,
        Ending::Cut => script::line_number(r),
    }
}

// Memory for the answers of a run: 193 bytes more than may come from one, so that the place behind them tells whether they are too many. It is
// longer than a buffer that is written out.
fn held_room() -> [u8; 262337]
    ensures { 262337 ≡ length result }
{
    [0; 262337]
}

// The calls of a script on some tanks, as at the console.
fn calls_on(s: Tanks, calls: &[u8], held: &mut [u8]) -> Ran
    requires { (Sound s) × (262337 ≡ length held.old) }
    ensures { RunsCalls (meaning s) calls.now result held.new }
{
    let mut body = clerk::body_room();
    let inlet = script::begin_inlet();
    let stand = clerk::fresh(inlet, clerk::empty());
    let e = clerk::eat(calls, s, stand, &mut body, held);
    let tanks = e.tanks;
    let after = e.stand;
    let last = after.inlet;
    let line = bad_line(after.over, last);
    Ran {
        tanks: tanks,
        line: line,
        at: after.at,
    }
}

// As many bytes as are lent for the answers, and no more than may come from a run.
fn room_for(lent: usize) -> usize
    ensures { result ≡ min lent most_answers }
{
    if lent < 262144 { lent } else { 262144 }
}

// The text and the answers of a run into what is lent for them: both or neither.
fn hand_over(s: Tanks, at: usize, held: &[u8], next: &mut [u8], answers: &mut [u8]) -> Outcome
    requires { (Sound s) × (at ≤ length held.now) }
    ensures { Runs (meant.handed (meaning s) (length next.old) (length answers.old) (take at held.now)) result next.old next.new answers.old answers.new }
{
    if room_for(answers.len()) < at {
        return wrong(11, 0);
    }
    let l = saved::write(s, next);
    if 0 < l.number {
        return wrong(11, 0);
    }
    let n = text::put(answers, 0, &held[..at]);
    right(l.count, n)
}

// A run with memory of its own for the answers.
fn run_in(
    text: &[u8],
    calls: &[u8],
    next: &mut [u8],
    answers: &mut [u8],
    held: &mut [u8],
) -> Outcome
    requires { 262337 ≡ length held.old }
    ensures { Runs (meant.run text.now calls.now (length next.old) (length answers.old)) result next.old next.new answers.old answers.new }
{
    let t = tanks_of(text);
    if 0 < t.number {
        return wrong(13, t.line);
    }
    let s = t.tanks;
    let r = calls_on(s, calls, held);
    if 0 < r.line {
        return wrong(64, r.line);
    }
    let after = r.tanks;
    if 262144 < r.at {
        return wrong(11, 0);
    }
    hand_over(after, r.at, held, next, answers)
}

// A piece of a log on the tanks of a text.
fn feed_in(text: &[u8], bytes: &[u8], next: &mut [u8]) -> Outcome
    ensures { Feeds text.now bytes.now result next.old next.new }
{
    let t = tanks_of(text);
    if 0 < t.number {
        return wrong(13, t.line);
    }
    let s = t.tanks;
    let k = day_log::take_groups(s, bytes);
    let after = k.tanks;
    let l = saved::write(after, next);
    if 0 < l.number {
        return wrong(11, 0);
    }
    let stop = k.stop;
    fed(l.count, k.at, k.edits, stop)
}

// Writes a report, and answers the number.
fn tell(report: &mut [u64; 7], o: Outcome) -> u64
    ensures { (result ≡ o.number) × (report.new ≡ o.line ∷ o.text ∷ o.answers ∷ o.taken ∷ o.applied ∷ o.stop ∷ o.at ∷ []) }
{
    let text = text::wide(o.text);
    let answers = text::wide(o.answers);
    let taken = text::wide(o.taken);
    *report = [o.line, text, answers, taken, o.applied, o.stop, o.at];
    o.number
}

// The saved text of eight fresh tanks with the settings of a text.
pub fn mavelino_begin(settings: &[u8], next: &mut [u8], report: &mut [u64; 7]) -> u64
    ensures { Begins settings.now next.old result next.new report.new }
{
    let o = begin_in(settings, next);
    tell(report, o)
}

// The calls of a script on the tanks of a saved text: the next text, and the answers as the console writes them.
pub fn mavelino_run(
    text: &[u8],
    calls: &[u8],
    next: &mut [u8],
    answers: &mut [u8],
    report: &mut [u64; 7],
) -> u64
    ensures { RunsScript text.now calls.now next.old answers.old result next.new answers.new report.new }
{
    let mut held = held_room();
    let o = run_in(text, calls, next, answers, &mut held);
    tell(report, o)
}

// A piece of the boxes' log, from the start of a group on, on the tanks of a saved text: the next text, and how much of the piece was taken.
pub fn mavelino_feed(text: &[u8], bytes: &[u8], next: &mut [u8], report: &mut [u64; 7]) -> u64
    ensures { FeedsLog text.now bytes.now next.old result next.new report.new }
{
    let o = feed_in(text, bytes, next);
    tell(report, o)
}

// No saved text has more bytes.
pub fn mavelino_text_most() -> u64
    ensures { result ≡ most_bytes }
{
    117930
}

// No more bytes of answers come from a run.
pub fn mavelino_answers_most() -> u64
    ensures { result ≡ most_answers }
{
    262144
}

// How many numbers a report has.
pub fn mavelino_report_size() -> u64
    ensures { result ≡ length (meant.report_of (meant.wrong 0 0)) }
{
    7
}
