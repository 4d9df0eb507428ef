// The keeper's file: up to which byte a log was read and the tanks as they were then, as one text, and back.
#![tactic(auto)]

mod group; // group.rt: what a group of a log says of itself
mod holding; // holding.rt: what is held of a log as it arrives
mod merging; // merging.rt: logs one after another, all or nothing

ghost use Rattle.std.specs.Prelude.{◌≡◌, ◌++◌, ◌≤◌, length};
ghost use Rattle.script.specs.Lines.{counted_of};
ghost use Rattle.runs.specs.Stretches.{in_front};
ghost use Rattle.lists.specs.Lists.{filled_beside, unless_refused};
ghost use Rattle.tanks.specs.Pool.{Sound, meaning};
ghost use Rattle.keeper_file.specs.File.{place_text, file_of, room_number, file_number, further_by, differs, FiledAgain, ReadsBack, Renews, Reads};

use day_log::{Log, Took};
pub use group::field;
pub use holding::hold;
use lists::Listed;
pub use merging::{begin_merge, next_log, pour, settle};
use tanks::Tanks;

// No file is longer: 26 bytes of its first line, and the longest saved text.
pub const MOST: usize = 117956;

// What a file says: 0, a place and tanks; or 13, its first wrong line, and the tanks as they were.
#[derive(Clone, Copy)]
pub struct Back {
    pub number: u64,
    pub line: u64,
    pub place: u64,
    pub tanks: Tanks,
}

// What became of a file's text: 0 or 11, how many bytes it has, and whether it is another than the one that is kept.
#[derive(Clone, Copy)]
pub struct Renewed {
    pub number: u64,
    pub count: usize,
    pub changed: bool,
}

// What came of a read: what was taken of it, up to where the log has been read then, and the file's text.
#[derive(Clone, Copy)]
pub struct Fed {
    pub took: Took,
    pub place: u64,
    pub file: Renewed,
}

// Logs one after another as far as they have come: the tanks, the log that is being read, how many logs ended well before it, and how many edits
// those applied. Where that log stopped, the merge stopped.
#[derive(Clone, Copy)]
pub struct Merge {
    pub tanks: Tanks,
    pub log: Log,
    pub logs: u64,
    pub edits: u64,
}

// Room for the longest saved text.
fn text_room() -> [u8; 118784]
    ensures { 118784 ≡ length result }
{
    [0; 118784]
}

// The line of a place and a text behind it, at the front of `out`; a refusal writes nothing.
fn put_file(place: u64, text: &[u8], out: &mut [u8]) -> Listed
    ensures value { result ≡ filled_beside (room_number (length out.old) (place_text place ++ text.now)) (place_text place ++ text.now) }
    ensures out_after { out.new ≡ in_front (unless_refused (room_number (length out.old) (place_text place ++ text.now)) (place_text place ++ text.now)) out.old }
{
    let mut line = [0u8; 32];
    let k = script::put_field(&mut line, 0, b"read=", place);
    if out.len() < k {
        return Listed {
            number: 11,
            count: 0,
        };
    }
    if out.len() - k < text.len() {
        return Listed {
            number: 11,
            count: 0,
        };
    }
    let a = text::put(out, 0, &line[..k]);
    let b = text::put(out, a, text);
    Listed {
        number: 0,
        count: b,
    }
}

// Writes the file of a place and some tanks to the front of `out`; a refusal writes nothing. What is written reads back as both.
pub fn write(s: Tanks, place: u64, out: &mut [u8]) -> Listed
    requires { Sound s }
    ensures value { result ≡ filled_beside (file_number (length out.old) place (meaning s)) (file_of place (meaning s)) }
    ensures out_after { out.new ≡ in_front (unless_refused (file_number (length out.old) place (meaning s)) (file_of place (meaning s))) out.old }
    ensures filed_again { (result.number ≡ 0 → FiledAgain place (meaning s)) × (result.count ≤ length out.old) }
{
    let mut text = text_room();
    let t = saved::write(s, &mut text);
    let n = t.count;
    put_file(place, &text[..n], out)
}

fn not_read(line: u64, tanks: Tanks) -> Back
    ensures { result ≡ record { number = 13; line = line; place = 0; tanks = tanks } }
{
    Back {
        number: 13,
        line,
        place: 0,
        tanks,
    }
}

// One line more, as far as 64 bits count.
fn counted(line: u64) -> u64
    ensures { result ≡ counted_of line }
{
    line.saturating_add(1)
}

// The place and the tanks that a file says, or 13, its first wrong line and the tanks as they were.
pub fn read_back(s: Tanks, bytes: &[u8]) -> Back
    requires { Sound s }
    ensures { ReadsBack s bytes.now result }
{
    let Some((place, start)) = text_lines::number(bytes, 0, b"read=", 0, 18446744073709551615)
    else {
        return not_read(1, s);
    };
    let r = saved::restore(s, &bytes[start..]);
    let tanks = r.tanks;
    if 0 < r.number {
        return not_read(counted(r.line), tanks);
    }
    Back {
        number: 0,
        line: 0,
        place,
        tanks,
    }
}

// The place so many bytes further on.
fn further(place: u64, more: usize) -> u64
    ensures { result ≡ further_by place more }
{
    place.saturating_add(text::wide(more))
}

// Whether the file is to be written: where its text is another than the one that is kept.
fn changed(kept: &[u8], next: &[u8]) -> bool
    ensures { result ≡ differs kept.now next.now }
{
    !text::same(kept, next)
}

// The file of a place and some tanks in the front of `next`, and whether it is to be written, since it is another than the one that is kept.
pub fn renew(s: Tanks, place: u64, kept: &[u8], next: &mut [u8]) -> Renewed
    requires { Sound s }
    ensures { Renews place (meaning s) kept.now next.old result next.new }
{
    let w = write(s, place, next);
    let n = w.count;
    Renewed {
        number: w.number,
        count: n,
        changed: changed(kept, &next[..n]),
    }
}

// One read of a log from the place on at which it was left: what is kept of it afterwards. The place and the tanks move together, or not at all.
pub fn after_read(s: Tanks, place: u64, bytes: &[u8], kept: &[u8], next: &mut [u8]) -> Fed
    requires { Sound s }
    ensures { Reads s place bytes.now kept.now next.old result next.new }
{
    let t = day_log::take_groups(s, bytes);
    let tanks = t.tanks;
    let to = further(place, t.at);
    let file = renew(tanks, to, kept, next);
    Fed {
        took: t,
        place: to,
        file,
    }
}
