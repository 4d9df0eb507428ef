// The eight tanks at a glance: a line on the log and the pool, a table of numbers, a strip of each tank, and the strips' legend.
//
// All of it is put piece by piece behind what waits in a lent buffer, as `pen` and `answers` do.
#![tactic(auto)]

mod table; // table.rt: the top line and the table
mod strips; // strips.rt: the strips
mod entries; // entries.rt: the legend

ghost use Rattle.std.specs.Prelude.{◌≡◌, ◌≤◌, length};
ghost use Rattle.tanks.specs.Pool.{Sound, meaning};
ghost use Rattle.answers.specs.Waiting.{Adds, piece_room};
ghost use Rattle.key_names.specs.Names.{Formed, names_of};
ghost use Rattle.glance.specs.Glance.{more_behind, bottom_says, glance_of};

use key_legend::keys::{first_key, next, plant_keys};
use key_legend::letters::{held_first, letters_of, strip_keys};
use key_names::Names;
use styles::Party;
use tanks::Tanks;

// Is there a key of the plant's marks behind this one?
fn more_behind(s: Tanks, last: u64) -> bool
    requires { Sound s }
    ensures { result ≡ more_behind (meaning s) last }
{
    first_key(s, Some(Party::Plant), next(last)) < 65536
}

// The strips by these keys, and their legend.
fn bottom(s: Tanks, names: Names, keys: [u64; 8], more: bool, out: &mut [u8], at: usize) -> usize
    requires { (Sound s) × (Formed names) × (piece_room ≤ length out.old) }
    ensures { Adds out.old at (bottom_says (meaning s) (names_of names) keys more) result out.new }
{
    let letters = letters_of(names, keys);
    let a = strips::strips(s, strip_keys(keys), letters, out, at);
    entries::legend(out, a, names, keys, letters, more)
}

// The eight tanks, and up to which byte the log was read.
pub fn show(s: Tanks, place: u64, names: Names, out: &mut [u8], at: usize) -> usize
    requires { (Sound s) × (Formed names) × (piece_room ≤ length out.old) }
    ensures { Adds out.old at (glance_of place (meaning s) (names_of names)) result out.new }
{
    let first = plant_keys(s);
    let more = more_behind(s, first[7]);
    let keys = held_first(first, key_names::key_named(names, b"hold"));
    let a = table::top(s, place, out, at);
    let b = table::table(s, out, a);
    bottom(s, names, keys, more, out, b)
}
