// STATE made, checked, and carried from box to box.
ghost use Rattle.std.specs.Prelude.{◌≡◌, ◌≤◌, length};
ghost use Rattle.tanks.specs.Pool.{Sound};

use super::files::{finished, made, missing, path_room, put_path, read_whole, removed, within};
use super::kept::{blank, load, save};
use super::words::{Complained, complain_of, failed, note, note_number, refused, refused_at};
use std::io::{Error, ErrorKind};
use std::mem::drop;
use tanks::{Setting, Tanks};

fn not_made(name: &[u8], e: Error) -> Complained {
    if e.kind() == ErrorKind::AlreadyExists {
        return complain_of(
            name,
            b" is there already: where no other keeper is at work here, a run that was cut off left it; remove it, and try again",
        );
    }
    failed(name, b" can't be made", e)
}

// Writes a new STATE beside and gives it its name. The name beside is made, and not opened: where two do this at once, one of them finds it
// taken, or finds STATE.
fn placed(
    rt: HostRuntime,
    state: &[u8],
    name: &[u8],
    text: &[u8],
    sync: bool,
) -> Result<(), Complained> {
    match made(rt, name) {
        Ok(file) => {
            if missing(rt, state) {
                return finished(rt, file, name, state, text, sync);
            }
            drop(file);
            removed(rt, name);
            Err(complain_of(state, b" is there already, and is never written over"))
        }
        Err(e) => Err(not_made(name, e)),
    }
}

fn created(rt: HostRuntime, state: &[u8], text: &[u8], sync: bool) -> Result<(), Complained> {
    let mut name = path_room();
    let k = put_path(&mut name, state, b".new");
    placed(rt, state, &name[..k], text, sync)
}

// A new STATE of a place and some tanks.
fn put_new(rt: HostRuntime, state: &[u8], s: Tanks, sync: bool) -> Result<(), Complained>
    requires { Sound s }
{
    let mut text = clerk::body_room();
    let w = keeper_file::write(s, 0, &mut text);
    let n = within(w.count, &text);
    created(rt, state, &text[..n], sync)
}

fn opened(
    rt: HostRuntime,
    state: &[u8],
    path: &[u8],
    settings: [Setting; 8],
    sync: bool,
) -> Result<(), Complained> {
    let o = tanks::open(settings);
    if 0 < o.number {
        return Err(refused(path, o.number));
    }
    let s = o.tanks;
    put_new(rt, state, s, sync)?;
    note(state);
    note(b" is made: eight fresh tanks, and no byte of a log is read\n");
    Ok(())
}

fn settings_in(
    rt: HostRuntime,
    state: &[u8],
    path: &[u8],
    text: &[u8],
    sync: bool,
) -> Result<(), Complained> {
    let r = settings_text::read(text);
    if 0 < r.number {
        return Err(refused_at(path, r.line, r.number));
    }
    let settings = r.settings;
    opened(rt, state, path, settings, sync)
}

// A new STATE with the settings of a text.
pub fn new(rt: HostRuntime, state: &[u8], path: &[u8], sync: bool) -> Result<(), Complained> {
    if missing(rt, state) {
        let mut text = clerk::body_room();
        let n = read_whole(rt, path, &mut text)?;
        return settings_in(rt, state, path, &text[..n], sync);
    }
    Err(complain_of(
        state,
        b" is there already, or can't be looked at, and is never written over",
    ))
}

// Reads STATE whole, and says so.
pub fn check(rt: HostRuntime, state: &[u8]) -> Result<(), Complained> {
    let mut text = clerk::body_room();
    let k = load(rt, state, &mut text)?;
    note(state);
    note(b" is whole: ");
    note_number(text::wide(k.size));
    note(b" bytes; the log is read up to byte ");
    note_number(k.place);
    note(b"\n");
    Ok(())
}

fn exported(rt: HostRuntime, s: Tanks) -> Result<(), Complained>
    requires { Sound s }
{
    let mut text = clerk::body_room();
    let w = saved::write(s, &mut text);
    let n = within(w.count, &text);
    match rt.write_all(&text[..n]) {
        Ok(()) => Ok(()),
        Err(e) => Err(failed(b"standard output", b" can't be written", e)),
    }
}

// The saved text of STATE's tanks on standard output.
pub fn export(rt: HostRuntime, state: &[u8]) -> Result<(), Complained> {
    let mut text = clerk::body_room();
    let k = load(rt, state, &mut text)?;
    exported(rt, k.tanks)
}

fn put_over(rt: HostRuntime, state: &[u8], s: Tanks, sync: bool) -> Result<(), Complained>
    requires { Sound s }
{
    let mut text = clerk::body_room();
    let k = load(rt, state, &mut text)?;
    save(rt, state, s, k.place, &mut text, k.size, sync)?;
    note(state);
    note(b" has the tanks of that text now; its place in the log is as it was\n");
    Ok(())
}

fn put_in(rt: HostRuntime, state: &[u8], s: Tanks, sync: bool) -> Result<(), Complained>
    requires { Sound s }
{
    if missing(rt, state) {
        put_new(rt, state, s, sync)?;
        note(state);
        note(b" is made, with the tanks of that text, and no byte of a log is read\n");
        return Ok(());
    }
    put_over(rt, state, s, sync)
}

fn imported(
    rt: HostRuntime,
    state: &[u8],
    path: &[u8],
    text: &[u8],
    sync: bool,
) -> Result<(), Complained> {
    let r = saved::restore(blank(), text);
    if 0 < r.number {
        return Err(refused_at(path, r.line, r.number));
    }
    let s = r.tanks;
    put_in(rt, state, s, sync)
}

// The tanks of a saved text in place of STATE's own.
pub fn import(rt: HostRuntime, state: &[u8], path: &[u8], sync: bool) -> Result<(), Complained> {
    let mut text = clerk::body_room();
    let n = read_whole(rt, path, &mut text)?;
    imported(rt, state, path, &text[..n], sync)
}
