// A log as it arrives on standard input: what is not a whole group yet is held until more comes.
ghost use Rattle.std.specs.Prelude.{◌≡◌, ◌-◌, ◌≤◌, min, length, IfSome, IfOk};
ghost use Rattle.tanks.specs.Pool.{Sound};
ghost use Rattle.keeper_file.specs.Holding.{moved_to_front, HeldOf};

use super::feeding::{endless, note_read};
use super::files::{Unreplaced, within};
use super::kept::{Feeding, Kept, fed, from_place, load, say_why};
use super::refusing::stopped;
use super::words::{Complained, failed, note, tell, tell_number, wrong};
use day_log::Stop;
use std::io::Read;

// Where reading goes on: how many lines were taken so far, and how many bytes are held.
#[derive(Clone, Copy)]
struct Held {
    lines: u64,
    bytes: usize,
}

// What is behind the last whole group is held: where reading goes on, it stands in front, whole and in order.
fn holding(bytes: &mut [u8], at: usize, end: usize, lines: u64) -> Option<Held>
    requires { (at ≤ end) × (end ≤ length bytes.old) }
    ensures held_bound { IfSome result (λ h. h.bytes ≤ 65536) }
    ensures held_value { IfSome result (λ h. (h.bytes ≡ end - at) × (bytes.new ≡ moved_to_front at end bytes.old)) }
{
    if end - at > 65536 {
        endless(b"standard input", lines, &bytes[at..end]);
        return None;
    }
    let n = keeper_file::hold(bytes, at, end);
    Some(Held { lines, bytes: n })
}

// What is said of a read that has been kept; what it did not take is held.
fn told(
    rt: HostRuntime,
    state: &[u8],
    bytes: &mut [u8],
    end: usize,
    lines: u64,
    f: Feeding,
) -> Option<Held>
    requires { end ≤ length bytes.old }
    ensures held_bound { IfSome result (λ h. h.bytes ≤ 65536) }
    ensures held_value { IfSome result (λ h. (h.bytes ≡ end - min f.at end) × (bytes.new ≡ moved_to_front (min f.at end) end bytes.old)) }
{
    if f.edits > 0 {
        note_read(f.edits, f.place);
        note(b"\n");
    }
    let stop = f.stop;
    match stop {
        Stop::Going => holding(bytes, f.at.min(end), end, lines.saturating_add(f.lines)),
        Stop::Refused(line, number) => {
            let at = within(f.at.min(end), bytes);
            let n = line.saturating_sub(f.lines);
            stopped(
                rt,
                state,
                b"standard input",
                lines.saturating_add(line),
                number,
                &bytes[at..],
                n,
            );
            None
        }
    }
}

// The groups that have come are kept, and then said; where reading goes on, what is behind them stands in front.
fn taken(
    rt: HostRuntime,
    state: &[u8],
    k: Kept,
    text: &mut [u8],
    bytes: &mut [u8],
    end: usize,
    lines: u64,
    sync: bool,
) -> Result<Option<Held>, Unreplaced>
    requires { (Sound k.tanks) × (131072 ≤ length text.old) × (end ≤ length bytes.old) }
    ensures held_bound { IfOk result (λ o. IfSome o (λ h. h.bytes ≤ 65536)) }
    ensures held_of { IfOk result (λ o. IfSome o (λ h. HeldOf end bytes.old h.bytes bytes.new)) }
{
    let n = within(end, bytes);
    let f = fed(rt, state, k, &bytes[..n], text, sync)?;
    Ok(told(rt, state, bytes, end, lines, f))
}

fn more(
    rt: HostRuntime,
    state: &[u8],
    bytes: &mut [u8],
    end: usize,
    lines: u64,
    afresh: bool,
    sync: bool,
) -> Result<Option<Held>, Unreplaced>
    requires { end ≤ length bytes.old }
    ensures held_bound { IfOk result (λ o. IfSome o (λ h. h.bytes ≤ 65536)) }
    ensures held_of { IfOk result (λ o. IfSome o (λ h. HeldOf end bytes.old h.bytes bytes.new)) }
{
    let mut text = clerk::body_room();
    let k = load(rt, state, &mut text)?;
    let from = from_place(k, afresh);
    taken(rt, state, from, &mut text, bytes, end, lines, sync)
}

// What has come is kept. Where another keeper was quicker, nothing of it was: it is taken again, on what STATE says now, since nothing can be
// read twice.
fn insist(
    rt: HostRuntime,
    state: &[u8],
    bytes: &mut [u8],
    end: usize,
    lines: u64,
    afresh: bool,
    sync: bool,
) -> Option<Held>
    requires { end ≤ length bytes.old }
    ensures { IfSome result (λ h. h.bytes ≤ 65536) }
{
    for _ in 0..100 {
        match more(rt, state, bytes, end, lines, afresh, sync) {
            Ok(held) => {
                return held;
            }
            Err(Unreplaced::Failed) => {
                return None;
            }
            Err(Unreplaced::Overtaken) => {}
        }
    }
    say_why(state, Unreplaced::Overtaken);
    None
}

// The end of the input. What is held is lost with it: nothing can be read twice.
fn ended(held: usize) {
    note(b"standard input is over\n");
    if 0 < held {
        tell(b"keeper: standard input: its last ");
        tell_number(text::wide(held));
        tell(b" bytes are a group that is not whole, and are not taken\n");
        wrong();
    }
}

// One read: it is on disk before anything is said of it.
fn arrive(
    rt: HostRuntime,
    state: &[u8],
    bytes: &mut [u8],
    before: Held,
    afresh: bool,
    sync: bool,
) -> Option<Held>
    requires { (131072 ≤ length bytes.old) × (before.bytes ≤ 65536) }
    ensures { IfSome result (λ h. h.bytes ≤ 65536) }
{
    let mut buf = io::large_buffer();
    let mut from = rt.stdin();
    match from.read(&mut buf) {
        Ok(n) => {
            if n == 0 {
                ended(before.bytes);
                return None;
            }
            let end = text::put(bytes, before.bytes, &buf[..n]);
            insist(rt, state, bytes, end, before.lines, afresh, sync)
        }
        Err(e) => {
            failed(b"standard input", b" can't be read", e);
            None
        }
    }
}

// Read after read: the count of turns is one that no run uses up.
fn arrivals(rt: HostRuntime, state: &[u8], bytes: &mut [u8], afresh: bool, sync: bool)
    requires { 131072 ≤ length bytes.old }
{
    let mut held = Held { lines: 0, bytes: 0 };
    for turn in 0..u64::MAX {
        let Some(next) = arrive(rt, state, bytes, held, afresh && turn == 0, sync) else {
            return;
        };
        held = next;
    }
}

// STATE is there and whole.
fn readable(rt: HostRuntime, state: &[u8]) -> Result<(), Complained> {
    let mut text = clerk::body_room();
    load(rt, state, &mut text)?;
    Ok(())
}

// Takes standard input as what follows of the log, or as a new one from its start, which is kept with what the first read brings.
pub fn feed_input(
    rt: HostRuntime,
    state: &[u8],
    afresh: bool,
    sync: bool,
) -> Result<(), Complained> {
    readable(rt, state)?;
    let mut bytes = clerk::body_room();
    arrivals(rt, state, &mut bytes, afresh, sync);
    Ok(())
}
