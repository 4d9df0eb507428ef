// The text of all tanks: written out, and read back.
ghost use Rattle.std.specs.Prelude.{◌≡◌, ◌≤◌, min, length};
ghost use Rattle.saved.specs.Reads.{restore_number, restore_line, restored};
ghost use Rattle.tanks.specs.Pool.{Sound, meaning};
ghost use Rattle.answers.specs.Waiting.{Adds, piece_room};
ghost use Rattle.answers.specs.Replies.{restored_says};
ghost use Rattle.clerk.specs.Calls.{save_says, save_needed_says};
ghost use Rattle.clerk.specs.Desk.{Settled, said_in, Moves};

use super::{Moved, Side};
use answers::{restored_or, say, text_or};
use tanks::Tanks;

// As many bytes as were named, and no more than there are: no text is longer.
fn bytes_lent(room: u64) -> usize
    ensures { result ≡ min room 117930 }
{
    if room < 117930 {
        return room as usize;
    }
    117930
}

// The text in a lent part as long as there is room.
fn save_in(s: Tanks, room: u64, part: &mut [u8], out: &mut [u8], at: usize) -> usize
    requires sound { Sound s }
    requires part_len { (length part.old ≡ min room 117930) × (piece_room ≤ length out.old) }
    ensures { Adds out.old at (save_says (meaning s) room) result out.new }
{
    let l = saved::write(s, part);
    text_or(out, at, l, part)
}

fn save_of(s: Tanks, room: u64, buf: &mut [u8], out: &mut [u8], at: usize) -> usize
    requires sound { Sound s }
    requires in_bounds { (117930 ≤ length buf.old) × (piece_room ≤ length out.old) }
    ensures { Adds out.old at (save_says (meaning s) room) result out.new }
{
    let k = bytes_lent(room);
    save_in(s, room, &mut buf[..k], out, at)
}

// Room for the longest text.
fn text_room() -> [u8; 117930]
    ensures { 117930 ≡ length result }
{
    [0; 117930]
}

// The text of all tanks, where there is room for so many bytes.
pub fn save(s: Tanks, room: u64, out: &mut [u8], at: usize) -> usize
    requires sound { Sound s }
    requires piece_room_in_bounds { piece_room ≤ length out.old }
    ensures { Adds out.old at (save_says (meaning s) room) result out.new }
{
    let mut buf = text_room();
    save_of(s, room, &mut buf, out, at)
}

// How many bytes it takes.
pub fn save_needed(s: Tanks, out: &mut [u8], at: usize) -> usize
    requires sound { Sound s }
    requires piece_room_in_bounds { piece_room ≤ length out.old }
    ensures { Adds out.old at (save_needed_says (meaning s)) result out.new }
{
    say(out, at, b"needed=", text::wide(saved::needed(s)))
}

// The tanks that a text says; where it is refused they stay, and so does all that is kept beside them in any case.
pub fn restore(s: Tanks, side: Side, body: &[u8], out: &mut [u8], at: usize) -> Moved
    requires sound { Sound s × Settled side }
    requires piece_room_in_bounds { piece_room ≤ length out.old }
    ensures { Moves (restored (meaning s) (said_in body.now)) side (restored_says (restore_number (said_in body.now)) (restore_line (said_in body.now))) out.old at result out.new }
{
    let r = saved::restore(s, body);
    let tanks = r.tanks;
    let k = restored_or(out, at, r.number, r.line);
    Moved {
        tanks: tanks,
        side: side,
        at: k,
    }
}
