// The eight tanks as a picture, in SVG: a band for each, as wide as its marked part; a colour for each key; held stretches hatched.
#![tactic(auto)]

mod scale; // scale.rt: where a position stands
mod elements; // elements.rt: the elements that the picture is made of
mod lanes; // lanes.rt: the marks of a party
mod bands; // bands.rt: the tanks' bands
mod heading; // heading.rt: the style sheet and the title
mod entries; // entries.rt: the legend

ghost use Rattle.std.specs.Prelude.{◌≤◌, length};
ghost use Rattle.answers.specs.Waiting.{Adds, piece_room};
ghost use Rattle.key_names.specs.Names.{Formed, names_of};
ghost use Rattle.tanks.specs.Pool.{meaning, Sound};
ghost use Rattle.picture.specs.Picture.{picture_of};

use bands::tanks_drawn;
use entries::legend_drawn;
use heading::heading;
use key_names::Names;
use tanks::Tanks;

// The picture of the tanks, put behind what waits.
pub fn picture(s: Tanks, names: Names, out: &mut [u8], at: usize) -> usize
    requires { (Sound s) × (Formed names) × (piece_room ≤ length out.old) }
    ensures { Adds out.old at (picture_of (meaning s) (names_of names)) result out.new }
{
    let keys = key_legend::keys::either_keys(s);
    let hold = key_names::key_named(names, b"hold");
    let higher = key_legend::keys::first_key(s, None, key_legend::keys::next(keys[11]));
    let a = heading(out, at);
    let b = tanks_drawn(s, keys, hold, out, a);
    let c = legend_drawn(out, b, names, keys, higher < 65536, hold);
    pen::say(out, c, b"</svg>\n")
}
