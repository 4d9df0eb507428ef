// A script of calls on the kept tanks: what a call changed is on disk before its answer is written.
ghost use Rattle.std.specs.Prelude.{◌≡◌, ◌≤◌, length, IfSome};
ghost use Rattle.tanks.specs.Pool.{Sound, meaning};
ghost use Rattle.script.specs.Grammar.{most_body};
ghost use Rattle.script.specs.Bodies.{Fits};
ghost use Rattle.answers.specs.Waiting.{piece_room};
ghost use Rattle.clerk.specs.Desk.{Settled};
ghost use Rattle.keeper_file.specs.Keeping.{Holds};
ghost use Rattle.keeper.specs.Steps.{InStep};

use super::files::within;
use super::kept::{Kept, blank, keeping, load, save, sized};
use super::words::{Complained, complain, failed};
use clerk::Stand;
use std::io::Read;

// Where a script stands after a line: STATE as it is kept, where the script goes on, and where the clerk stands.
#[derive(Clone, Copy)]
struct Lined {
    kept: Option<Kept>,
    stand: Stand,
}

// A script that ends at a line says so among its answers; whoever started the keeper is told too.
fn tell_over(over: bool) {
    if over {
        complain(b"standard input: the script stops at the line that malformed= names");
    }
}

// Writes what waits of the answers, and says whether the script goes on.
fn handed(rt: HostRuntime, out: &[u8], at: usize, over: bool) -> bool {
    let n = within(at, out);
    if let Err(e) = rt.write_all(&out[..n]) {
        failed(
            b"standard output",
            b" can't be written: the script ends here, and what it has changed up to here is kept",
            e,
        );
        return false;
    }
    tell_over(over);
    !over
}

// The answers of a line, where there are any: they are written when what it changed is kept. A line without one has changed nothing, so that
// what is kept says the tanks in hand either way. Where the script goes on, how long the text is that is kept.
fn answers(
    rt: HostRuntime,
    state: &[u8],
    k: Kept,
    at: usize,
    over: bool,
    text: &mut [u8],
    out: &[u8],
    sync: bool,
) -> Option<usize>
    requires { (Sound k.tanks) × (131072 ≤ length text.old) }
    ensures { (at ≡ 0 → Holds k.place (meaning k.tanks) k.size text.old) → IfSome result (λ size. Holds k.place (meaning k.tanks) size text.new) }
{
    if at == 0 {
        return if over { None } else { Some(k.size) };
    }
    match save(rt, state, k.tanks, k.place, text, k.size, sync) {
        Ok(size) => {
            if handed(rt, out, at, over) {
                Some(size)
            } else {
                None
            }
        }
        Err(_) => {
            complain(b"the last call is not kept, and its answer is not written");
            None
        }
    }
}

// One line of a script: afterwards what is kept is in step, or the script is over.
fn line(
    rt: HostRuntime,
    state: &[u8],
    k: Kept,
    part: &[u8],
    stand: Stand,
    text: &mut [u8],
    body: &mut [u8],
    out: &mut [u8],
    sync: bool,
) -> Lined
    requires in_step { (InStep k text.old) × Settled stand.side × Fits stand.inlet body.old }
    requires most_body_in_bounds { (most_body ≤ length body.old) × (piece_room ≤ length out.old) × (131072 ≤ length text.old) }
    ensures { IfSome result.kept (λ k. InStep k text.new) × Settled result.stand.side × Fits result.stand.inlet body.new }
{
    let inlet = stand.inlet;
    let side = stand.side;
    let s = k.tanks;
    let e = clerk::eat(part, s, clerk::fresh(inlet, side), body, out);
    let next = e.stand;
    let tanks = e.tanks;
    let kept = keeping(k, tanks);
    match answers(rt, state, kept, next.at, next.over, text, out, sync) {
        Some(size) => Lined {
            kept: Some(sized(kept, size)),
            stand: next,
        },
        None => Lined {
            kept: None,
            stand: next,
        },
    }
}

// The lines of one read.
fn lines(
    rt: HostRuntime,
    state: &[u8],
    bytes: &[u8],
    kept: Kept,
    begun: Stand,
    text: &mut [u8],
    body: &mut [u8],
    out: &mut [u8],
    sync: bool,
) -> Stand
    requires in_step { (InStep kept text.old) × Settled begun.side × Fits begun.inlet body.old }
    requires most_body_in_bounds { (most_body ≤ length body.old) × (piece_room ≤ length out.old) × (131072 ≤ length text.old) }
    ensures { Settled result.side × Fits result.inlet body.new }
{
    let mut k = kept;
    let mut stand = begun;
    for part in bytes.split_inclusive(|b| *b == b'\n') {
        let l = line(rt, state, k, part, stand, text, body, out, sync);
        stand = l.stand;
        let Some(next) = l.kept else {
            return halted(stand);
        };
        k = next;
    }
    stand
}

fn halted(stand: Stand) -> Stand
    ensures { (result.inlet ≡ stand.inlet) × (result.side ≡ stand.side) }
{
    let inlet = stand.inlet;
    let side = stand.side;
    Stand {
        inlet: inlet,
        side: side,
        at: 0,
        over: true,
    }
}

// The end of the input: a script that is cut there says so.
fn ended(stand: Stand, body: &mut [u8], out: &mut [u8]) -> Stand
    requires { Settled stand.side × Fits stand.inlet body.old × (piece_room ≤ length out.old) }
    ensures { Settled result.side × Fits result.inlet body.new }
{
    let inlet = stand.inlet;
    let side = stand.side;
    let e = clerk::closed(blank(), clerk::fresh(inlet, side), body, out);
    let last = e.stand;
    let mut good = true;
    script::hand_over(out, last.at, &mut good);
    tell_over(last.at > 0);
    last
}

// What was read, on STATE as it is now.
fn heard(
    rt: HostRuntime,
    state: &[u8],
    bytes: &[u8],
    stand: Stand,
    body: &mut [u8],
    out: &mut [u8],
    sync: bool,
) -> Stand
    requires settled { Settled stand.side × Fits stand.inlet body.old }
    requires most_body_in_bounds { (most_body ≤ length body.old) × (piece_room ≤ length out.old) }
    ensures { Settled result.side × Fits result.inlet body.new }
{
    let mut text = clerk::body_room();
    match load(rt, state, &mut text) {
        Ok(k) => lines(rt, state, bytes, k, stand, &mut text, body, out, sync),
        Err(_) => halted(stand),
    }
}

// One read of standard input.
fn turn(
    rt: HostRuntime,
    state: &[u8],
    stand: Stand,
    body: &mut [u8],
    out: &mut [u8],
    sync: bool,
) -> Stand
    requires settled { Settled stand.side × Fits stand.inlet body.old }
    requires most_body_in_bounds { (most_body ≤ length body.old) × (piece_room ≤ length out.old) }
    ensures { Settled result.side × Fits result.inlet body.new }
{
    let mut buf = io::large_buffer();
    let mut from = rt.stdin();
    match from.read(&mut buf) {
        Ok(n) => {
            if n == 0 {
                return ended(stand, body, out);
            }
            heard(rt, state, &buf[..n], stand, body, out, sync)
        }
        Err(e) => {
            failed(b"standard input", b" can't be read", e);
            halted(stand)
        }
    }
}

// All of the input: the count of turns is one that no run uses up.
fn all(rt: HostRuntime, state: &[u8], body: &mut [u8], out: &mut [u8], sync: bool)
    requires { (most_body ≤ length body.old) × (piece_room ≤ length out.old) }
{
    let mut stand = clerk::fresh(script::begin_inlet(), clerk::empty());
    for _ in 0..u64::MAX {
        stand = turn(rt, state, stand, body, out, sync);
        if stand.over {
            return;
        }
    }
}

// Answers a script of calls on the tanks that STATE keeps.
pub fn call(rt: HostRuntime, state: &[u8], sync: bool) -> Result<(), Complained> {
    let mut body = clerk::body_room();
    let mut out = io::large_buffer();
    let mut text = clerk::body_room();
    load(rt, state, &mut text)?;
    all(rt, state, &mut body, &mut out, sync);
    Ok(())
}
