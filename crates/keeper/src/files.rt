// Files: read whole, and replaced whole.
ghost use Rattle.std.specs.Prelude.{◌≤◌, min, ◌≡◌, length, IfOk};
ghost use Rattle.io.specs.Counts.{IsPrefixLen};
ghost use Rattle.keeper.specs.declared.files.Unreplaced.TheVariants.{Failed};

use super::words::{Complained, complain_of, failed};
use std::fs;
use std::fs::{File, OpenOptions};
use std::io::{Error, ErrorKind, Read, Write};
use std::mem::drop;
use std::os::fd::AsRawFd;
use std::random::RandomSource;
use std::str::from_utf8;

// Why a file is not the new one: it could not be replaced, and why has been said; or it was no longer what had been read of it, and is left so,
// which is still to be said.
#[derive(Clone, Copy, PartialEq, Eq, Debug)]
pub enum Unreplaced {
    Failed,
    Overtaken,
}

impl From<Complained> for Unreplaced {
    ghost from_gives = { λ _ r. r ≡ Failed };

    fn from(_said: Complained) -> Unreplaced {
        Unreplaced::Failed
    }
}

// Why a file does not hold its text: it could not be written, or not be synced.
enum Unfilled {
    Unwritten(Error),
    Unsynced(Error),
}

// Room for a path and for what is put behind it.
pub fn path_room() -> [u8; 4224]
    ensures { 4224 ≡ length result }
{
    [0; 4224]
}

// So many bytes, and no more than there are.
pub fn within(n: usize, bytes: &[u8]) -> usize
    ensures prefix_len { IsPrefixLen result bytes.now }
    ensures value { result ≡ min n (length bytes.now) }
{
    n.min(bytes.len())
}

// A path and a word behind it; nothing where the path is longer than any.
pub fn put_path(out: &mut [u8], path: &[u8], word: &[u8]) -> usize
    requires { (4224 ≤ length out.old) × (length word.now ≤ 128) }
    ensures { IsPrefixLen result out.new }
{
    if path.len() > 4096 {
        return 0;
    }
    let a = text::put(out, 0, path);
    text::put(out, a, word)
}

// How many bytes of a path name its folder, with the slash behind it: none where there is no slash.
pub fn folder(path: &[u8]) -> usize
    ensures { IsPrefixLen result path.now }
{
    match path.iter().rposition(|b| *b == b'/') {
        Some(i) => i + 1,
        None => 0,
    }
}

// A path as the system's calls take it here. One that is no UTF-8 can't be named to them: the error is the system's for such bytes.
fn named(path: &[u8]) -> Result<&str, Error> {
    match from_utf8(path) {
        Ok(name) => Ok(name),
        Err(_) => Err(Error::from_raw_os_error(84)),
    }
}

// Opens a file, or a folder, for reading.
pub fn opened(rt: HostRuntime, path: &[u8]) -> Result<File, Error> {
    File::open(&rt, named(path)?)
}

// Makes a file, where nothing has its name, and opens it for writing.
pub fn made(rt: HostRuntime, path: &[u8]) -> Result<File, Error> {
    let name = named(path)?;
    OpenOptions::new()
        .write(true)
        .create_new(true)
        .open(&rt, name)
}

// Removes a file; where it can't be removed it stays, and nothing is said.
pub fn removed(rt: HostRuntime, path: &[u8]) {
    if let Ok(name) = named(path) {
        let _ = fs::remove_file(&rt, name);
    }
}

fn moved(rt: HostRuntime, from: &[u8], to: &[u8]) -> Result<(), Error> {
    fs::rename(&rt, named(from)?, named(to)?)
}

// The input ends where the room was not filled: a read that failed looks the same until it is tried again.
fn ended(file: &File, path: &[u8], full: bool) -> Result<(), Complained> {
    let mut one = [0u8; 1];
    let mut from = file;
    match from.read(&mut one) {
        Ok(n) => {
            if n > 0 && !full {
                return Err(complain_of(path, b" changed while it was read"));
            }
            Ok(())
        }
        Err(e) => Err(failed(path, b" can't be read", e)),
    }
}

// Reads a file whole, and answers how many bytes of the room it fills. Of one that is longer than the room so much is read as there is room for.
pub fn read_whole(rt: HostRuntime, path: &[u8], room: &mut [u8]) -> Result<usize, Complained>
    ensures { IfOk result (λ n. IsPrefixLen n room.new) }
{
    match opened(rt, path) {
        Ok(file) => {
            let n = io::read_full(file.as_raw_fd(), room);
            ended(&file, path, n == room.len())?;
            Ok(n)
        }
        Err(e) => Err(failed(path, b" can't be opened", e)),
    }
}

// Whether there is no such file.
pub fn missing(rt: HostRuntime, path: &[u8]) -> bool {
    match opened(rt, path) {
        Ok(_) => false,
        Err(e) => e.kind() == ErrorKind::NotFound,
    }
}

// The folder of a file, open so that it can be synced.
fn open_folder(rt: HostRuntime, path: &[u8]) -> Result<File, Error> {
    let k = folder(path);
    if k == 0 {
        return opened(rt, b".");
    }
    opened(rt, &path[..k])
}

// The folder reaches its device: a file's new name is kept by it. The file has that name already, whether or not this goes well.
fn sync_folder(folder: File, path: &[u8]) {
    let done = folder.sync_all();
    drop(folder);
    if let Err(e) = done {
        failed(
            path,
            b" is the new one, but its folder can't be synced, so that after a power cut it may be the old one",
            e,
        );
    }
}

// Fills a file that was made, and closes it.
fn fill(file: File, text: &[u8], sync: bool) -> Result<(), Unfilled> {
    let mut to = file;
    if let Err(e) = to.write_all(text) {
        return Err(Unfilled::Unwritten(e));
    }
    if sync {
        if let Err(e) = to.sync_all() {
            return Err(Unfilled::Unsynced(e));
        }
    }
    Ok(())
}

// The same, and what is wrong is said when it is closed.
fn filled(file: File, name: &[u8], text: &[u8], sync: bool) -> Result<(), Complained> {
    match fill(file, text, sync) {
        Ok(()) => Ok(()),
        Err(Unfilled::Unwritten(e)) => Err(failed(name, b" can't be written", e)),
        Err(Unfilled::Unsynced(e)) => Err(failed(name, b" can't be synced", e)),
    }
}

fn not_replaced(rt: HostRuntime, name: &[u8], path: &[u8], e: Error) -> Complained {
    let said = failed(path, b" can't be replaced", e);
    removed(rt, name);
    said
}

// Gives a file its name, and lets the folder reach its device, which is opened before: where that fails the old file is as it was.
fn renamed_synced(rt: HostRuntime, name: &[u8], path: &[u8]) -> Result<(), Complained> {
    match open_folder(rt, path) {
        Ok(folder) => {
            if let Err(e) = moved(rt, name, path) {
                return Err(not_replaced(rt, name, path, e));
            }
            sync_folder(folder, path);
            Ok(())
        }
        Err(e) => {
            let said = failed(
                path,
                b": its folder can't be opened, so that it could be synced",
                e,
            );
            removed(rt, name);
            Err(said)
        }
    }
}

fn renamed(rt: HostRuntime, name: &[u8], path: &[u8], sync: bool) -> Result<(), Complained> {
    if sync {
        return renamed_synced(rt, name, path);
    }
    match moved(rt, name, path) {
        Ok(()) => Ok(()),
        Err(e) => Err(not_replaced(rt, name, path, e)),
    }
}

// A new file that was made beside is filled, and takes its name; where that fails it goes.
pub fn finished(
    rt: HostRuntime,
    file: File,
    name: &[u8],
    path: &[u8],
    text: &[u8],
    sync: bool,
) -> Result<(), Complained> {
    let full = filled(file, name, text, sync);
    if full.is_err() {
        removed(rt, name);
        return full;
    }
    renamed(rt, name, path, sync)
}

// A file still has the bytes that were read of it, so that it can be replaced: another keeper may have done so since.
fn still(rt: HostRuntime, path: &[u8], old: &[u8]) -> Result<(), Unreplaced> {
    let mut room = clerk::body_room();
    let n = read_whole(rt, path, &mut room)?;
    if &room[..n] == old {
        Ok(())
    } else {
        Err(Unreplaced::Overtaken)
    }
}

// A file that was made beside is filled, and the old one is still the one that was read.
fn ready(
    rt: HostRuntime,
    file: File,
    name: &[u8],
    path: &[u8],
    old: &[u8],
    text: &[u8],
    sync: bool,
) -> Result<(), Unreplaced> {
    filled(file, name, text, sync)?;
    still(rt, path, old)
}

// A file that was made beside takes the place of the old one, where that is still the one that was read; else it goes.
fn exchanged(
    rt: HostRuntime,
    file: File,
    name: &[u8],
    path: &[u8],
    old: &[u8],
    text: &[u8],
    sync: bool,
) -> Result<(), Unreplaced> {
    let ready = ready(rt, file, name, path, old, text, sync);
    if ready.is_err() {
        removed(rt, name);
        return ready;
    }
    renamed(rt, name, path, sync)?;
    Ok(())
}

// One of sixteen letters.
fn letter(b: u8) -> u8 {
    b % 16 + b'a'
}

// Sixteen letters by chance, behind the first five of a word. No two runs have the same, so neither writes the file that the other has made.
fn draw(rt: HostRuntime, word: &mut [u8]) -> Result<(), Error>
    requires { length word.old ≡ 21 }
{
    let mut chance = [0u8; 16];
    rt.fill_bytes(&mut chance)?;
    for (i, b) in chance.iter().enumerate() {
        word[5 + i] = letter(*b);
    }
    Ok(())
}

// Replaces a file whole, if it still is what was read of it: the next one is written beside, under a name of its own, and takes the old one's
// place when it has reached its device.
pub fn replaced(
    rt: HostRuntime,
    path: &[u8],
    old: &[u8],
    text: &[u8],
    sync: bool,
) -> Result<(), Unreplaced> {
    let mut word = [0u8; 21];
    text::put(&mut word, 0, b".new-");
    if let Err(e) = draw(rt, &mut word) {
        failed(path, b": no name can be drawn for the file beside it", e);
        return Err(Unreplaced::Failed);
    }
    let mut name = path_room();
    let k = put_path(&mut name, path, &word);
    match made(rt, &name[..k]) {
        Ok(file) => exchanged(rt, file, &name[..k], path, old, text, sync),
        Err(e) => {
            failed(&name[..k], b" can't be made", e);
            Err(Unreplaced::Failed)
        }
    }
}
