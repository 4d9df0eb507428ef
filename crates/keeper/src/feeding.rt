// A log, taken from the place on up to which it has been read.
ghost use Rattle.std.specs.Prelude.{◌≤◌, length};
ghost use Rattle.tanks.specs.Pool.{Sound};

use super::files::{opened, within};
use super::kept::{Feeding, Kept, fed, from_place, load, say_why};
use super::refusing::stopped;
use super::words::{Complained, complain_of, failed, note, note_number, refused_at};
use day_log::Stop;
use std::fs::File;
use std::io::{Error, Seek, SeekFrom};
use std::os::unix::fs::FileExt;

// What came of a piece of a log that is kept, or of all of them: how many edits were applied, up to where the log has been read then, and, where
// reading ends well, how many bytes wait behind that place.
#[derive(Clone, Copy)]
struct Turn {
    edits: u64,
    place: u64,
    left: Option<usize>,
}

fn newlines(bytes: &[u8]) -> u64 {
    text::wide(bytes.iter().filter(|b| **b == b'\n').count())
}

// How many lines stand in front of a place: of one read of the file, up to the place.
fn lines_in(file: &File, at: u64, place: u64) -> u64
    requires { at ≤ place }
{
    let mut buf = io::large_buffer();
    if at > 9223372036854710271 {
        return 0;
    }
    let n = match file.read_at(&mut buf, at) {
        Ok(n) => n,
        Err(_) => 0,
    };
    if text::wide(n) < place - at {
        return newlines(&buf[..n]);
    }
    let k = within((place - at) as usize, &buf);
    newlines(&buf[..k])
}

// How many lines stand in front of a place of a file.
fn lines_before(file: &File, place: u64) -> u64 {
    let mut lines: u64 = 0;
    let mut at: u64 = 0;
    // A `for` by steps of 65,536 wants the same invariant and measure.
    while at < place {
        lines = lines.saturating_add(lines_in(file, at, place));
        at = at.saturating_add(65536);
    }
    lines
}

// A line that is longer than any of a log's fills all the room.
pub fn endless(log: &[u8], lines: u64, bytes: &[u8]) {
    let line = lines.saturating_add(newlines(bytes)).saturating_add(1);
    refused_at(log, line, 13);
}

// Where the log goes on: there may be more while groups are taken; else what is left waits.
fn going(log: &[u8], file: &File, from: u64, place: u64, edits: u64, bytes: &[u8]) -> Turn {
    if from < place {
        return Turn {
            edits,
            place,
            left: None,
        };
    }
    if bytes.len() >= 65536 {
        endless(log, lines_before(file, from), bytes);
    }
    Turn {
        edits,
        place,
        left: Some(bytes.len()),
    }
}

// What is said of a piece that has been kept.
fn told(
    rt: HostRuntime,
    state: &[u8],
    log: &[u8],
    file: &File,
    from: u64,
    f: Feeding,
    bytes: &[u8],
) -> Turn {
    let stop = f.stop;
    match stop {
        Stop::Going => going(log, file, from, f.place, f.edits, bytes),
        Stop::Refused(line, number) => {
            let at = within(f.at, bytes);
            let named = lines_before(file, from).saturating_add(line);
            let lines = line.saturating_sub(f.lines);
            stopped(rt, state, log, named, number, &bytes[at..], lines);
            Turn {
                edits: f.edits,
                place: f.place,
                left: Some(0),
            }
        }
    }
}

// The groups of a piece are kept, and then said.
fn applied(
    rt: HostRuntime,
    state: &[u8],
    log: &[u8],
    file: &File,
    k: Kept,
    bytes: &[u8],
    text: &mut [u8],
    sync: bool,
) -> Result<Turn, Complained>
    requires { (Sound k.tanks) × (131072 ≤ length text.old) }
{
    let from = k.place;
    match fed(rt, state, k, bytes, text, sync) {
        Ok(f) => Ok(told(rt, state, log, file, from, f, bytes)),
        Err(e) => Err(say_why(state, e)),
    }
}

fn piece_at(
    rt: HostRuntime,
    state: &[u8],
    log: &[u8],
    file: &File,
    k: Kept,
    text: &mut [u8],
    sync: bool,
) -> Result<Turn, Complained>
    requires { (Sound k.tanks) × (131072 ≤ length text.old) }
{
    let mut buf = io::large_buffer();
    let from = k.place;
    if from > 9223372036854775807 {
        return Err(complain_of(
            log,
            b" is shorter than the place up to which it has been read",
        ));
    }
    match file.read_at(&mut buf, from) {
        Ok(n) => applied(rt, state, log, file, k, &buf[..n], text, sync),
        Err(e) => Err(failed(log, b" can't be read", e)),
    }
}

// One piece of the log, from where STATE has read it up to; the first of a new log from its start, which is kept with what that piece brings.
fn piece(
    rt: HostRuntime,
    state: &[u8],
    log: &[u8],
    file: &File,
    afresh: bool,
    sync: bool,
) -> Result<Turn, Complained> {
    let mut text = clerk::body_room();
    let k = load(rt, state, &mut text)?;
    let from = from_place(k, afresh);
    piece_at(rt, state, log, file, from, &mut text, sync)
}

// Piece after piece, until none brings a whole group: the count of turns is one that no run uses up. Where a piece fails, those before it stand.
fn pieces(
    rt: HostRuntime,
    state: &[u8],
    log: &[u8],
    file: &File,
    afresh: bool,
    sync: bool,
) -> Turn {
    let mut all = Turn {
        edits: 0,
        place: 0,
        left: None,
    };
    for turn in 0..u64::MAX {
        let Ok(t) = piece(rt, state, log, file, afresh && turn == 0, sync) else {
            return all;
        };
        all = Turn {
            edits: all.edits.saturating_add(t.edits),
            place: t.place,
            left: t.left,
        };
        if t.left.is_some() {
            return all;
        }
    }
    all
}

// How many edits.
pub fn note_edits(edits: u64) {
    note_number(edits);
    if edits == 1 {
        note(b" edit");
        return;
    }
    note(b" edits");
}

// So many edits were applied, and up to where the log has been read.
pub fn note_read(edits: u64, place: u64) {
    note_edits(edits);
    note(b" applied; the log is read up to byte ");
    note_number(place);
}

fn note_left(left: usize) {
    if left > 0 {
        note(b"; ");
        note_number(text::wide(left));
        note(b" bytes of a group that is not whole yet wait behind it");
    }
    note(b"\n");
}

// What was applied is said, also where a later piece failed.
fn report(t: Turn) -> Result<(), Complained> {
    if let Some(left) = t.left {
        note_read(t.edits, t.place);
        note_left(left);
        return Ok(());
    }
    if 0 < t.edits {
        note_read(t.edits, t.place);
        note(b"\n");
    }
    Err(Complained)
}

fn shorter(log: &[u8]) -> Complained {
    complain_of(
        log,
        b" is shorter than what has been read of it, so it is another log: feed --from-start begins it",
    )
}

// How many bytes a file has.
fn end_of(file: &File) -> Result<u64, Error> {
    let mut at = file;
    at.seek(SeekFrom::End(0))
}

// A log that is shorter than what has been read of it is another log.
fn long_enough(log: &[u8], file: &File, place: u64) -> Result<(), Complained> {
    match end_of(file) {
        Ok(size) => {
            if size < place {
                return Err(shorter(log));
            }
            Ok(())
        }
        Err(e) => Err(failed(
            log,
            b" is no file that can be read from a place on (standard input takes a pipe)",
            e,
        )),
    }
}

// STATE is there and whole, and the log can be read from its place on: from its start, where it is a new one.
fn begun(
    rt: HostRuntime,
    state: &[u8],
    log: &[u8],
    file: &File,
    afresh: bool,
) -> Result<(), Complained> {
    let mut text = clerk::body_room();
    let k = load(rt, state, &mut text)?;
    let place = if afresh { 0 } else { k.place };
    long_enough(log, file, place)
}

// Takes a log from where STATE has read it up to, to its last whole group.
pub fn feed_log(
    rt: HostRuntime,
    state: &[u8],
    log: &[u8],
    afresh: bool,
    sync: bool,
) -> Result<(), Complained> {
    match opened(rt, log) {
        Ok(file) => {
            begun(rt, state, log, &file, afresh)?;
            report(pieces(rt, state, log, &file, afresh, sync))
        }
        Err(e) => Err(failed(log, b" can't be opened", e)),
    }
}
