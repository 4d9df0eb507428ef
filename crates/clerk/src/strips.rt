// Strips, and the legend that they are read by.
ghost use Rattle.std.specs.Prelude.{◌≡◌, ◌≤◌, ◌<◌, ◌%◌, ◌^◌, length};
ghost use Rattle.script.specs.declared.Desk as desks;
ghost use Rattle.script.specs.Args.{number_at};
ghost use Rattle.answers.specs.Waiting.{Adds, piece_room};
ghost use Rattle.ask.specs.Parts.{CanAsk};
ghost use Rattle.clerk.specs.Calls.{tank_for, strip_look, both_kind};
ghost use Rattle.clerk.specs.Desk.{Settled, with_legend, desk_side, desk_says, Notes};

use super::{Kind, Look, Noted, Side};
use answers::{accept, refuse, strip_or};
use script::{Both, Call};
use strip::legend::Legend;
use tanks::{Head, Run, Table};

// Another legend, and all else as it was.
fn with_legend(side: Side, legend: Legend) -> Side
    ensures { result ≡ with_legend side legend }
{
    let sets = side.sets;
    let log = side.log;
    let pending = side.pending;
    let party = side.party;
    Side {
        sets: sets,
        log: log,
        pending: pending,
        legend: legend,
        party: party,
    }
}

// A letter that was read.
fn letter_of(x: u64) -> u8
    ensures { result ≡ x % 2 ^ 8 }
{
    (x % 256) as u8
}

// A key and a letter for one of the eight places.
pub fn legend(side: Side, call: Call, out: &mut [u8], at: usize) -> Noted
    requires settled { Settled side }
    requires piece_room_in_bounds { piece_room ≤ length out.old }
    ensures { Notes (desk_side desks.Desk.Legend side call) (desk_says desks.Desk.Legend side call) out.old at result out.new }
{
    let n = call.numbers;
    let before = side.legend;
    let after = strip::legend::with_letter(before, n[0], script::key_of(n[1]), letter_of(n[2]));
    let next = with_legend(side, after);
    let k = accept(out, at, 0);
    Noted { side: next, at: k }
}

// A strip with room for it: it takes 96 bytes.
fn painted(
    heads: [Head; 8],
    pool: [Run; 512],
    table: Table,
    legend: Legend,
    call: Call,
    out: &mut [u8],
    at: usize,
) -> usize
    requires can_ask { (CanAsk heads pool table (tank_for call)) × (96 ≤ number_at call 3) }
    requires piece_room_in_bounds { piece_room ≤ length out.old }
    ensures { Adds out.old at (strip_look heads pool table legend call) result out.new }
{
    let n = call.numbers;
    let keys = legend.keys;
    let letters = legend.letters;
    let mut cells: [u8; 96] = [0; 96];
    let number = strip::paint_parts(
        heads, pool, table, n[0], n[1], n[2], keys, letters, &mut cells,
    );
    strip_or(out, at, number, &cells)
}

// One without: a byte is as much too short as any room that is.
fn unpainted(
    heads: [Head; 8],
    pool: [Run; 512],
    table: Table,
    legend: Legend,
    call: Call,
    out: &mut [u8],
    at: usize,
) -> usize
    requires can_ask { (CanAsk heads pool table (tank_for call)) × (number_at call 3 < 96) }
    requires piece_room_in_bounds { piece_room ≤ length out.old }
    ensures { Adds out.old at (strip_look heads pool table legend call) result out.new }
{
    let n = call.numbers;
    let keys = legend.keys;
    let letters = legend.letters;
    let mut short: [u8; 1] = [0; 1];
    let number = strip::paint_parts(
        heads, pool, table, n[0], n[1], n[2], keys, letters, &mut short,
    );
    refuse(out, at, number)
}

// A strip, where the call has room for it, from the parts of a state that its tank stands in.
pub fn strip(
    heads: [Head; 8],
    pool: [Run; 512],
    table: Table,
    legend: Legend,
    call: Call,
    out: &mut [u8],
    at: usize,
) -> usize
    requires can_ask { CanAsk heads pool table (tank_for call) }
    requires piece_room_in_bounds { piece_room ≤ length out.old }
    ensures { Adds out.old at (strip_look heads pool table legend call) result out.new }
{
    let n = call.numbers;
    if n[3] < 96 {
        return unpainted(heads, pool, table, legend, call, out, at);
    }
    painted(heads, pool, table, legend, call, out, at)
}

// What a call is that has to do with the tanks and with what is kept: a strip is painted of one tank where it stands.
pub fn both_kind(b: Both) -> Kind
    ensures { result ≡ both_kind b }
{
    match b {
        Both::OpenSet => Kind::Other,
        Both::Plan => Kind::Other,
        Both::Strip => Kind::Looks(Look::Strip),
    }
}
