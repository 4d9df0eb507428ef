// STATE: read from its file, and written where it changed.
ghost use Rattle.std.specs.Prelude.{◌≡◌, ◌≤◌, length, IfOk};
ghost use Rattle.tanks.specs.Pool.{Sound, meaning};
ghost use Rattle.keeper_file.specs.Keeping.{Tells};
ghost use Rattle.keeper.specs.Steps.{InStep, Saves, Writes, Feeds};

use super::files::{Unreplaced, read_whole, replaced, within};
use super::words::{Complained, complain_of, refused_at};
use day_log::Stop;
use keeper_file::Renewed;
use tanks::{Setting, Tanks};

// What a file says, and how long its text is.
#[derive(Clone, Copy)]
pub struct Kept {
    pub place: u64,
    pub size: usize,
    pub tanks: Tanks,
}

// What came of a read that is kept: up to where the log has been read, how many bytes, lines and edits were taken, and where it stopped.
#[derive(Clone, Copy)]
pub struct Feeding {
    pub place: u64,
    pub at: usize,
    pub lines: u64,
    pub edits: u64,
    pub stop: Stop,
}

// Eight tanks, for where there are none yet.
pub fn blank() -> Tanks
    ensures { Sound result }
{
    let o = tanks::open([Setting { share: 1, limit: 1 }; 8]);
    let t = o.tanks;
    t
}

fn told(path: &[u8], text: &[u8]) -> Result<Kept, Complained>
    ensures sound { IfOk result (λ k. Sound k.tanks) }
    ensures tells { IfOk result (λ k. Tells k.place (meaning k.tanks) text.now) }
    ensures size_value { IfOk result (λ k. k.size ≡ length text.now) }
{
    let b = keeper_file::read_back(blank(), text);
    if 0 < b.number {
        return Err(refused_at(path, b.line, b.number));
    }
    Ok(Kept {
        place: b.place,
        size: text.len(),
        tanks: b.tanks,
    })
}

// Reads STATE whole; what is wrong with it is said.
pub fn load(rt: HostRuntime, path: &[u8], text: &mut [u8]) -> Result<Kept, Complained>
    ensures { IfOk result (λ k. InStep k text.new) }
{
    let n = read_whole(rt, path, text)?;
    told(path, &text[..n])
}

// What is kept with other tanks.
pub fn keeping(k: Kept, tanks: Tanks) -> Kept
    ensures { result ≡ record { place = k.place; size = k.size; tanks = tanks } }
{
    Kept { tanks, ..k }
}

// What is kept with a text of another length.
pub fn sized(k: Kept, size: usize) -> Kept
    ensures { result ≡ record { place = k.place; size = size; tanks = k.tanks } }
{
    Kept { size, ..k }
}

// What is kept, as it is read on from: from the start of a new log.
pub fn from_place(k: Kept, afresh: bool) -> Kept
    ensures { result.tanks ≡ k.tanks }
{
    if afresh { Kept { place: 0, ..k } } else { k }
}

// Where another keeper was quicker, nothing of this one's work is kept, and that is said.
pub fn say_why(path: &[u8], e: Unreplaced) -> Complained {
    match e {
        Unreplaced::Failed => Complained,
        Unreplaced::Overtaken => complain_of(
            path,
            b" was changed by another keeper while this one worked: it is left so, and nothing of this is kept",
        ),
    }
}

// Writes the text that STATE is to have, where it is another than the one that is kept, which it then replaces in `kept` too; answers how long
// the text is that is kept now.
pub fn written(
    rt: HostRuntime,
    path: &[u8],
    r: Renewed,
    next: &[u8],
    kept: &mut [u8],
    size: usize,
    sync: bool,
) -> Result<usize, Unreplaced>
    requires { length next.now ≤ length kept.old }
    ensures { Writes r next.now size kept.old result kept.new }
{
    if 0 < r.number {
        complain_of(path, b" would be longer than any");
        return Err(Unreplaced::Failed);
    }
    if r.changed {
        let n = within(r.count, next);
        let k = within(size, kept);
        replaced(rt, path, &kept[..k], &next[..n], sync)?;
        text::put(kept, 0, &next[..n]);
        return Ok(n);
    }
    Ok(size)
}

// Writes STATE, where what it is to say is something else than it says; answers how long its text is now.
pub fn save(
    rt: HostRuntime,
    path: &[u8],
    s: Tanks,
    place: u64,
    kept: &mut [u8],
    size: usize,
    sync: bool,
) -> Result<usize, Complained>
    requires { (Sound s) × (131072 ≤ length kept.old) }
    ensures { Saves place (meaning s) result kept.new }
{
    let mut next = clerk::body_room();
    let k = within(size, kept);
    let r = keeper_file::renew(s, place, &kept[..k], &mut next);
    match written(rt, path, r, &next, kept, k, sync) {
        Ok(n) => Ok(n),
        Err(e) => Err(say_why(path, e)),
    }
}

// Takes the whole groups of one read of the log, and writes STATE as they leave it. Nothing is said of them before that.
pub fn fed(
    rt: HostRuntime,
    path: &[u8],
    k: Kept,
    bytes: &[u8],
    kept: &mut [u8],
    sync: bool,
) -> Result<Feeding, Unreplaced>
    requires { (Sound k.tanks) × (131072 ≤ length kept.old) }
    ensures { IfOk result (λ f. Feeds k bytes.now f kept.new) }
{
    let mut next = clerk::body_room();
    let s = k.tanks;
    let n = within(k.size, kept);
    let f = keeper_file::after_read(s, k.place, bytes, &kept[..n], &mut next);
    let file = f.file;
    written(rt, path, file, &next, kept, n, sync)?;
    let t = f.took;
    Ok(Feeding {
        place: f.place,
        at: t.at,
        lines: t.lines,
        edits: t.edits,
        stop: t.stop,
    })
}
