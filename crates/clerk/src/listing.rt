// Calls that ask for a list: stretches, the whole tank, anchors, and what they take.
ghost use Rattle.std.specs.Prelude.{◌≡◌, ◌≤◌, min, length};
ghost use Rattle.script.specs.declared.Listing as listings;
ghost use Rattle.script.specs.Args.{number_at};
ghost use Rattle.tanks.specs.Pool.{Sound, meaning};
ghost use Rattle.tanks.specs.Looks.{Stands, shown_in};
ghost use Rattle.lists.specs.Anchors.{anchors};
ghost use Rattle.answers.specs.Waiting.{Adds, piece_room};
ghost use Rattle.ask.specs.Parts.{CanAsk};
ghost use Rattle.clerk.specs.Calls.{tank_for, whole_says, whole_look, list_look_says, listing_kind, all_anchors_say};

use super::borders::put_anchors;
use super::{Kind, Look};
use answers::{put_list, put_needed, refuse, say};
use script::{Call, Listing};
use styles::Party;
use tanks::{Head, Run, Table, Tanks};

// As many places as were named, and no more than there are: no list takes more than 1,515.
fn places(room: u64) -> usize
    ensures { result ≡ min room 1536 }
{
    if room < 1536 {
        return room as usize;
    }
    1536
}

// The stretches over a range, in a lent part as long as the call has room.
fn range_in(
    heads: [Head; 8],
    pool: [Run; 512],
    table: Table,
    who: Party,
    call: Call,
    part: &mut [u64],
    out: &mut [u8],
    at: usize,
) -> usize
    requires can_ask { CanAsk heads pool table (tank_for call) }
    requires part_len { (length part.old ≡ min (number_at call 3) 1536) × (piece_room ≤ length out.old) }
    ensures { Adds out.old at (list_look_says listings.Listing.Stretches heads pool table who call) result out.new }
{
    let n = call.numbers;
    let l = ask::listed::list_range(heads, pool, table, n[0], who, n[1], n[2], part);
    put_list(out, at, n[0], l, part)
}

fn range_of(
    heads: [Head; 8],
    pool: [Run; 512],
    table: Table,
    who: Party,
    call: Call,
    buf: &mut [u64],
    out: &mut [u8],
    at: usize,
) -> usize
    requires can_ask { CanAsk heads pool table (tank_for call) }
    requires in_bounds { (1536 ≤ length buf.old) × (piece_room ≤ length out.old) }
    ensures { Adds out.old at (list_look_says listings.Listing.Stretches heads pool table who call) result out.new }
{
    let n = call.numbers;
    let k = places(n[3]);
    range_in(heads, pool, table, who, call, &mut buf[..k], out, at)
}

fn stretches(
    heads: [Head; 8],
    pool: [Run; 512],
    table: Table,
    who: Party,
    call: Call,
    out: &mut [u8],
    at: usize,
) -> usize
    requires can_ask { CanAsk heads pool table (tank_for call) }
    requires piece_room_in_bounds { piece_room ≤ length out.old }
    ensures { Adds out.old at (list_look_says listings.Listing.Stretches heads pool table who call) result out.new }
{
    let mut buf = [0u64; 1536];
    range_of(heads, pool, table, who, call, &mut buf, out, at)
}

fn stretches_needed(
    heads: [Head; 8],
    pool: [Run; 512],
    table: Table,
    who: Party,
    call: Call,
    out: &mut [u8],
    at: usize,
) -> usize
    requires can_ask { CanAsk heads pool table (tank_for call) }
    requires piece_room_in_bounds { piece_room ≤ length out.old }
    ensures { Adds out.old at (list_look_says listings.Listing.StretchesNeeded heads pool table who call) result out.new }
{
    let n = call.numbers;
    let l = ask::listed::stretches_needed(heads, pool, table, n[0], who, n[1], n[2]);
    put_needed(out, at, l)
}

// The marked stretches of a tank, likewise.
fn whole_in(
    heads: [Head; 8],
    pool: [Run; 512],
    table: Table,
    who: Party,
    tank: u64,
    room: u64,
    part: &mut [u64],
    out: &mut [u8],
    at: usize,
) -> usize
    requires can_ask { CanAsk heads pool table tank }
    requires part_len { (length part.old ≡ min room 1536) × (piece_room ≤ length out.old) }
    ensures { Adds out.old at (whole_look heads pool table who tank room) result out.new }
{
    let l = ask::listed::list_whole(heads, pool, table, tank, who, part);
    put_list(out, at, tank, l, part)
}

fn whole_of(
    heads: [Head; 8],
    pool: [Run; 512],
    table: Table,
    who: Party,
    tank: u64,
    room: u64,
    buf: &mut [u64],
    out: &mut [u8],
    at: usize,
) -> usize
    requires can_ask { CanAsk heads pool table tank }
    requires in_bounds { (1536 ≤ length buf.old) × (piece_room ≤ length out.old) }
    ensures { Adds out.old at (whole_look heads pool table who tank room) result out.new }
{
    let k = places(room);
    whole_in(heads, pool, table, who, tank, room, &mut buf[..k], out, at)
}

fn whole_there(
    heads: [Head; 8],
    pool: [Run; 512],
    table: Table,
    who: Party,
    tank: u64,
    room: u64,
    out: &mut [u8],
    at: usize,
) -> usize
    requires can_ask { CanAsk heads pool table tank }
    requires piece_room_in_bounds { piece_room ≤ length out.old }
    ensures { Adds out.old at (whole_look heads pool table who tank room) result out.new }
{
    let mut buf = [0u64; 1536];
    whole_of(heads, pool, table, who, tank, room, &mut buf, out, at)
}

// The marked stretches of a tank, as they are listed where there is room for so many numbers.
pub fn whole(s: Tanks, who: Party, tank: u64, room: u64, out: &mut [u8], at: usize) -> usize
    requires sound { Sound s }
    requires piece_room_in_bounds { piece_room ≤ length out.old }
    ensures { Adds out.old at (whole_says (meaning s) who tank room) result out.new }
{
    let heads = s.heads;
    let pool = s.pool;
    let tables = s.tables;
    let table = tables[tanks::place(tank)];
    whole_there(heads, pool, table, who, tank, room, out, at)
}

fn whole_needed(
    heads: [Head; 8],
    pool: [Run; 512],
    table: Table,
    who: Party,
    call: Call,
    out: &mut [u8],
    at: usize,
) -> usize
    requires can_ask { CanAsk heads pool table (tank_for call) }
    requires piece_room_in_bounds { piece_room ≤ length out.old }
    ensures { Adds out.old at (list_look_says listings.Listing.WholeNeeded heads pool table who call) result out.new }
{
    let n = call.numbers;
    let l = ask::listed::whole_needed(heads, pool, table, n[0], who);
    put_needed(out, at, l)
}

// The marked stretches of the tank that a call names, in the room that it names.
fn whole_called(
    heads: [Head; 8],
    pool: [Run; 512],
    table: Table,
    who: Party,
    call: Call,
    out: &mut [u8],
    at: usize,
) -> usize
    requires can_ask { CanAsk heads pool table (tank_for call) }
    requires piece_room_in_bounds { piece_room ≤ length out.old }
    ensures { Adds out.old at (list_look_says listings.Listing.Whole heads pool table who call) result out.new }
{
    let n = call.numbers;
    whole_there(heads, pool, table, who, n[0], n[1], out, at)
}

// The anchors of a tank that is there, of which the count is known.
fn all_anchors(
    heads: [Head; 8],
    pool: [Run; 512],
    table: Table,
    who: Party,
    tank: u64,
    count: usize,
    out: &mut [u8],
    at: usize,
) -> usize
    requires stands { (Stands heads pool table tank) × (count ≡ length (anchors (shown_in heads pool table tank who))) }
    requires piece_room_in_bounds { piece_room ≤ length out.old }
    ensures { Adds out.old at (all_anchors_say (shown_in heads pool table tank who)) result out.new }
{
    let k = say(out, at, b"anchors=", text::wide(count));
    put_anchors(heads, pool, table, tank as usize, who, out, k)
}

// The anchors, written one by one as the walk comes to them: the room that the call names is judged, and nothing is lent.
fn anchors(
    heads: [Head; 8],
    pool: [Run; 512],
    table: Table,
    who: Party,
    call: Call,
    out: &mut [u8],
    at: usize,
) -> usize
    requires can_ask { CanAsk heads pool table (tank_for call) }
    requires piece_room_in_bounds { piece_room ≤ length out.old }
    ensures { Adds out.old at (list_look_says listings.Listing.Anchors heads pool table who call) result out.new }
{
    let n = call.numbers;
    let tank = n[0];
    let room = n[1];
    if 8 <= tank {
        return refuse(out, at, 1);
    }
    let l = ask::anchored::anchors_needed(heads, pool, table, tank, who);
    let count = l.count;
    if room < text::wide(count) {
        return refuse(out, at, 11);
    }
    all_anchors(heads, pool, table, who, tank, count, out, at)
}

// A list of one tank, made from the parts of a state that it stands in; the text of all tanks is not among these.
pub fn looked(
    heads: [Head; 8],
    pool: [Run; 512],
    table: Table,
    l: Listing,
    who: Party,
    call: Call,
    out: &mut [u8],
    at: usize,
) -> usize
    requires can_ask { CanAsk heads pool table (tank_for call) }
    requires piece_room_in_bounds { piece_room ≤ length out.old }
    ensures { Adds out.old at (list_look_says l heads pool table who call) result out.new }
{
    match l {
        Listing::Stretches => stretches(heads, pool, table, who, call, out, at),
        Listing::StretchesNeeded => stretches_needed(heads, pool, table, who, call, out, at),
        Listing::Whole => whole_called(heads, pool, table, who, call, out, at),
        Listing::WholeNeeded => whole_needed(heads, pool, table, who, call, out, at),
        Listing::Anchors => anchors(heads, pool, table, who, call, out, at),
        Listing::Save => at,
        Listing::SaveNeeded => at,
    }
}

// What a list is: made of one tank where it stands, or of the state.
pub fn listing_kind(l: Listing) -> Kind
    ensures { result ≡ listing_kind l }
{
    match l {
        Listing::Stretches => Kind::Looks(Look::Listing(Listing::Stretches)),
        Listing::StretchesNeeded => Kind::Looks(Look::Listing(Listing::StretchesNeeded)),
        Listing::Whole => Kind::Looks(Look::Listing(Listing::Whole)),
        Listing::WholeNeeded => Kind::Looks(Look::Listing(Listing::WholeNeeded)),
        Listing::Anchors => Kind::Looks(Look::Listing(Listing::Anchors)),
        Listing::Save => Kind::Asks,
        Listing::SaveNeeded => Kind::Asks,
    }
}
