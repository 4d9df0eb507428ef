// Stretches in lent buffers whose places all hold 7 before.
ghost use Rattle.std.specs.Prelude.{◌≤◌, length};
ghost use Rattle.tanks.specs.Pool.{Sound};

use crate::print::{say, say_labelled, say_numbers};
use styles::Party;
use tanks::Tanks;

// The answer that goes with the part: the refusal and the count, from the same list in a buffer of its own.
fn say_range_answer(s: Tanks, tank: u64, start: u64, end: u64, room: usize)
    requires sound { Sound s }
    requires room_bound { room ≤ 16 }
{
    let mut buffer = [7u64; 16];
    let listed = ask::list_range(s, tank, Party::Plant, start, end, &mut buffer[0..room]);
    say_labelled(b" refused=", listed.number);
    say_labelled(b" count=", listed.count as u64);
}

// The part that is handed back; answers how long it is.
fn say_range_part(s: Tanks, tank: u64, start: u64, end: u64, out: &mut [u64]) -> usize
    requires { Sound s }
{
    let part = ask::iter_range(s, tank, Party::Plant, start, end, out);
    say(b" part=");
    say_numbers(part, 0);
    part.len()
}

// `iter_range`, and what stands behind its part.
fn range(s: Tanks, tank: u64, start: u64, end: u64, out: &mut [u64])
    requires sound { Sound s }
    requires out_len_bound { length out.old ≤ 16 }
{
    let room = out.len();
    say_labelled(b"iter_range tank=", tank);
    say_labelled(b" start=", start);
    say_labelled(b" end=", end);
    say_labelled(b" room=", room as u64);
    say_range_answer(s, tank, start, end, room);
    let count = say_range_part(s, tank, start, end, out);
    say(b" rest=");
    say_numbers(out, count);
    say(b"\n");
}

fn range_in(room: usize, s: Tanks, tank: u64, start: u64, end: u64)
    requires sound { Sound s }
    requires room_bound { room ≤ 16 }
{
    let mut out = [7u64; 16];
    range(s, tank, start, end, &mut out[..room]);
}

// Four stretches of tank 0 take 12 places, the three of tank 2 take 9, one takes 3.
pub(crate) fn ranges(s: Tanks)
    requires { Sound s }
{
    range_in(12, s, 0, 12, 40);
    range_in(16, s, 0, 12, 40);
    range_in(11, s, 0, 12, 40);
    range_in(3, s, 1, 5, 6);
    range_in(11, s, 2, 2, 6);
    range_in(3, s, 2, 2, 6);
    range_in(12, s, 3, 2, 6);
    range_in(12, s, 8, 12, 40);
}

fn say_whole_answer(s: Tanks, tank: u64, room: usize)
    requires sound { Sound s }
    requires room_bound { room ≤ 16 }
{
    let mut buffer = [7u64; 16];
    let listed = ask::list_whole(s, tank, Party::Plant, &mut buffer[0..room]);
    say_labelled(b" refused=", listed.number);
    say_labelled(b" count=", listed.count as u64);
}

fn say_whole_part(s: Tanks, tank: u64, out: &mut [u64]) -> usize
    requires { Sound s }
{
    let part = ask::iter(s, tank, Party::Plant, out);
    say(b" part=");
    say_numbers(part, 0);
    part.len()
}

// `iter`, likewise.
fn whole(s: Tanks, tank: u64, out: &mut [u64])
    requires sound { Sound s }
    requires out_len_bound { length out.old ≤ 16 }
{
    let room = out.len();
    say_labelled(b"iter tank=", tank);
    say_labelled(b" room=", room as u64);
    say_whole_answer(s, tank, room);
    let count = say_whole_part(s, tank, out);
    say(b" rest=");
    say_numbers(out, count);
    say(b"\n");
}

fn whole_in(room: usize, s: Tanks, tank: u64)
    requires sound { Sound s }
    requires room_bound { room ≤ 16 }
{
    let mut out = [7u64; 16];
    whole(s, tank, &mut out[..room]);
}

// The marked stretches of tanks 0 and 2 take 9 places, that of tank 1 takes 3, tank 3 has none.
pub(crate) fn wholes(s: Tanks)
    requires { Sound s }
{
    whole_in(9, s, 0);
    whole_in(12, s, 0);
    whole_in(3, s, 0);
    whole_in(3, s, 1);
    whole_in(12, s, 1);
    whole_in(9, s, 2);
    whole_in(3, s, 3);
    whole_in(12, s, 8);
}
