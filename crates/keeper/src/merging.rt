// Logs one after another from their starts, all or nothing: what STATE is to hold after them is the library's to say.
ghost use Rattle.std.specs.Prelude.{◌≤◌, length, IfOk};
ghost use Rattle.io.specs.Counts.{IsPrefixLen};
ghost use Rattle.keeper_file.specs.Merging.{Sound};

use super::arguments::how_many;
use super::feeding::note_edits;
use super::files::{opened, within};
use super::kept::{load, say_why, written};
use super::words::{Complained, failed, not_taken, note, refused_at, tell};
use day_log::Stop;
use keeper_file::Merge;
use std::fs::File;
use std::io::Read;
use std::rt::Env;

// One read of a log, and how many bytes it brought: none at its end.
fn read(file: &File, path: &[u8], buf: &mut [u8]) -> Result<usize, Complained>
    ensures { IfOk result (λ n. IsPrefixLen n buf.new) }
{
    let mut from = file;
    match from.read(buf) {
        Ok(n) => Ok(n),
        Err(e) => Err(failed(path, b" can't be read", e)),
    }
}

// A log to its end: the count of turns is one that no run uses up.
fn all_of(file: &File, path: &[u8], m: Merge) -> Result<Merge, Complained>
    requires { Sound m }
    ensures { IfOk result Sound }
{
    let mut buf = io::large_buffer();
    let mut merge = m;
    for _ in 0..u64::MAX {
        let n = read(file, path, &mut buf)?;
        if n == 0 {
            return Ok(merge);
        }
        merge = keeper_file::pour(merge, &buf[..n]);
    }
    Err(Complained)
}

// A log that ended well; where it did not, at which line and why is said.
fn accepted(path: &[u8], m: Merge) -> Result<Merge, Complained>
    requires { Sound m }
    ensures { IfOk result Sound }
{
    let log = m.log;
    let stop = log.stop;
    match stop {
        Stop::Going => Ok(m),
        Stop::Refused(line, number) => Err(refused_at(path, line, number)),
    }
}

// One log behind those before it.
fn one_log(rt: HostRuntime, path: &[u8], m: Merge) -> Result<Merge, Complained>
    requires { Sound m }
    ensures { IfOk result Sound }
{
    match opened(rt, path) {
        Ok(file) => {
            let read = all_of(&file, path, m)?;
            accepted(path, keeper_file::next_log(read))
        }
        Err(e) => Err(failed(path, b" can't be opened", e)),
    }
}

fn log_of(rt: HostRuntime, i: usize, m: Merge) -> Result<Merge, Complained>
    requires { Sound m }
    ensures { IfOk result Sound }
{
    let mut path = io::buffer();
    match rt.arg(i, &mut path) {
        Ok(n) => one_log(rt, &path[..n], m),
        Err(e) => Err(not_taken(b"the name of a log", e)),
    }
}

// The logs that the arguments from one on name, up to the first that is refused or can't be read.
fn all_logs(rt: HostRuntime, first: usize, count: usize, m: Merge) -> Result<Merge, Complained>
    requires { Sound m }
    ensures { IfOk result Sound }
{
    let mut merge = m;
    for i in first..count {
        merge = log_of(rt, i, merge)?;
    }
    Ok(merge)
}

fn said(edits: u64, trying: bool) {
    note_edits(edits);
    if trying {
        note(b" would be applied; nothing is kept\n");
        return;
    }
    note(b" applied\n");
}

// STATE as the logs leave it: written where that is something else than it holds.
fn settled(
    rt: HostRuntime,
    state: &[u8],
    m: Merge,
    place: u64,
    kept: &mut [u8],
    size: usize,
    sync: bool,
) -> Result<(), Complained>
    requires { (Sound m) × (131072 ≤ length kept.old) }
{
    let mut next = clerk::body_room();
    let n = within(size, kept);
    let r = keeper_file::settle(m, place, &kept[..n], &mut next);
    match written(rt, state, r, &next, kept, size, sync) {
        Ok(_) => Ok(()),
        Err(e) => Err(say_why(state, e)),
    }
}

// The logs, and then STATE once, its place as it was; where anything is refused or can't be read STATE is as it was.
pub fn merge(
    rt: HostRuntime,
    state: &[u8],
    first: usize,
    trying: bool,
    sync: bool,
) -> Result<(), Complained> {
    let mut text = clerk::body_room();
    let k = load(rt, state, &mut text)?;
    let begun = keeper_file::begin_merge(k.tanks);
    match all_logs(rt, first, how_many(rt), begun) {
        Ok(all) => {
            if !trying {
                settled(rt, state, all, k.place, &mut text, k.size, sync)?;
            }
            said(all.edits, trying);
            Ok(())
        }
        Err(why) => {
            tell(b"keeper: nothing is kept of these logs\n");
            Err(why)
        }
    }
}
