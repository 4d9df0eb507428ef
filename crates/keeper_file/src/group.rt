// What a group of a log says of itself, for a message about it.
ghost use Rattle.std.specs.Prelude.{◌≡◌, ◌≤◌, true, length, drop};
ghost use Rattle.text.specs.Bytes.{starts_of};
ghost use Rattle.keeper_file.specs.Group.{number_behind, field_in};

// The number behind the name that a line begins with.
fn behind(line: &[u8], name: &[u8]) -> Option<u64>
    requires { starts_of line.now name.now ≡ true }
    ensures { result ≡ number_behind name.now line.now }
{
    let n = name.len();
    text::decimal(&line[n..])
}

// What the first of so many lines says that begins with a name, from a place of some bytes on.
pub fn field(bytes: &[u8], from: usize, lines: u64, name: &[u8]) -> Option<u64>
    ensures { result ≡ field_in lines name.now (drop from bytes.now) }
{
    let mut at = from;
    for passed in 0..lines {
        let end = text::find(bytes, at, b'\n');
        if bytes.len() < end {
            return None;
        }
        let line = &bytes[at..end];
        if text::starts(line, name) {
            return behind(line, name);
        }
        if bytes.len() == end {
            return None;
        }
        at = end + 1;
    }
    None
}
