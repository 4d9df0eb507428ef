// An edit of a log that is refused: the file, the line, the number in words, and the tank and the key that the edit names.
ghost use Rattle.std.specs.Prelude.{◌≤◌, length};
ghost use Rattle.key_names.specs.Names.{Formed};

use super::files::within;
use super::looking::names_beside;
use super::words::{refusal_begun, refused_at, tell, tell_number, wrong};
use key_names::Names;

fn tell_tank(group: &[u8], lines: u64) {
    let tank = keeper_file::field(group, 0, lines, b"tank=");
    let Some(t) = tank else {
        return;
    };
    tell(b": tank ");
    tell_number(t);
}

fn tell_key(names: Names, group: &[u8], lines: u64)
    requires { Formed names }
{
    let key = keeper_file::field(group, 0, lines, b"key=");
    let Some(k) = key else {
        return;
    };
    if k < 65536 {
        let mut name = [0u8; 24];
        let n = key_names::put_key(&mut name, 0, names, script::key_of(k));
        tell(b", ");
        tell(&name[..n]);
    }
}

fn edit_refused(log: &[u8], line: u64, number: u64, names: Names, group: &[u8], lines: u64)
    requires { Formed names }
{
    refusal_begun(log, line, number);
    tell_tank(group, lines);
    tell_key(names, group, lines);
    tell(b"\n");
    wrong();
}

// A log that stopped at a line. A line that is wrong is no edit; an edit stands in so many lines at the front of `group`.
pub fn stopped(
    rt: HostRuntime,
    state: &[u8],
    log: &[u8],
    line: u64,
    number: u64,
    group: &[u8],
    lines: u64,
) {
    if number == 13 {
        refused_at(log, line, number);
        return;
    }
    edit_refused(log, line, number, names_beside(rt, state), group, lines);
}
