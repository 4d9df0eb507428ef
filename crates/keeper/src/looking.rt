// STATE as a person looks at it, with the names of keys that stand in the file NAMES beside it.
ghost use Rattle.std.specs.Prelude.{◌≡◌, ◌≤◌, length};
ghost use Rattle.tanks.specs.Pool.{Sound};
ghost use Rattle.key_names.specs.Names.{Formed};

use super::files::{folder, missing, path_room, put_path, read_whole, within};
use super::kept::load;
use super::words::{Complained, failed, tell, tell_number, wrong};
use key_names::Names;

fn wrong_name(path: &[u8], line: u64) {
    tell(b"keeper: ");
    tell(path);
    tell(b", line ");
    tell_number(line);
    tell(b": no line of names (hold=7), or one more than 64, so none is used\n");
    wrong();
}

fn names_in(path: &[u8], text: &[u8]) -> Names
    ensures { Formed result }
{
    let r = key_names::read(text);
    if 0 < r.line {
        wrong_name(path, r.line);
    }
    let names = r.names;
    names
}

fn names_at(rt: HostRuntime, path: &[u8]) -> Names
    ensures { Formed result }
{
    if missing(rt, path) {
        return key_names::none();
    }
    let mut text = clerk::body_room();
    match read_whole(rt, path, &mut text) {
        Ok(n) => names_in(path, &text[..n]),
        Err(_) => key_names::none(),
    }
}

// The names beside STATE; none where there is no such file, or where it is wrong.
pub fn names_beside(rt: HostRuntime, state: &[u8]) -> Names
    ensures { Formed result }
{
    let mut name = path_room();
    let k = folder(state);
    let n = put_path(&mut name, &state[..k], b"NAMES");
    names_at(rt, &name[..n])
}

// What waits at the end is written; whether it could be says whether all could, for a device that is full stays full.
fn written(rt: HostRuntime, out: &[u8], n: usize) -> Result<(), Complained> {
    let k = within(n, out);
    match rt.write_all(&out[..k]) {
        Ok(()) => Ok(()),
        Err(e) => Err(failed(b"standard output", b" can't be written", e)),
    }
}

// The eight tanks at a glance.
pub fn show(rt: HostRuntime, state: &[u8]) -> Result<(), Complained> {
    let mut text = clerk::body_room();
    let k = load(rt, state, &mut text)?;
    let mut out = io::large_buffer();
    let n = glance::show(k.tanks, k.place, names_beside(rt, state), &mut out, 0);
    written(rt, &out, n)
}

// The eight tanks as a picture.
pub fn picture(rt: HostRuntime, state: &[u8]) -> Result<(), Complained> {
    let mut text = clerk::body_room();
    let k = load(rt, state, &mut text)?;
    let mut out = io::large_buffer();
    let n = picture::picture(k.tanks, names_beside(rt, state), &mut out, 0);
    written(rt, &out, n)
}
