// The elements of SVG that the picture is made of.
ghost use Rattle.std.specs.Prelude.{[], ◌∷◌, ◌++◌, ◌≡◌, ◌≤◌, ◌<◌, length};
ghost use Rattle.answers.specs.Waiting.{Adds, piece_room};
ghost use Rattle.picture.specs.Elements.{number_says, rect_says, text_says, colour_says, frame_says, part_says};

use crate::scale::{Band, place, width};
use pen::{between, say, say_number};

// A number, and a text behind it.
pub fn number(out: &mut [u8], at: usize, n: u64, behind: &[u8]) -> usize
    requires { (piece_room ≤ length out.old) × (length behind.now ≤ piece_room) }
    ensures { Adds out.old at (number_says n behind.now) result out.new }
{
    let a = say_number(out, at, n);
    say(out, a, behind)
}

// A rectangle, up to its class.
pub fn rect(out: &mut [u8], at: usize, x: u64, y: u64, width: u64, height: u64) -> usize
    requires { piece_room ≤ length out.old }
    ensures { Adds out.old at (rect_says x y width height) result out.new }
{
    let a = between(out, at, b"<rect x='", x, b"' y='");
    let b = number(out, a, y, b"' width='");
    let c = number(out, b, width, b"' height='");
    number(out, c, height, b"'")
}

// A text of a class at a point, up to its first letter.
pub fn text_at(out: &mut [u8], at: usize, class: &[u8], x: u64, y: u64) -> usize
    requires { (piece_room ≤ length out.old) × (length class.now ≤ piece_room) }
    ensures { Adds out.old at (text_says class.now x y) result out.new }
{
    let a = say(out, at, b"<text class='");
    let b = say(out, a, class);
    let c = between(out, b, b"' x='", x, b"' y='");
    number(out, c, y, b"'>")
}

// The class of a key's colour, and the end of its element.
pub fn colour(out: &mut [u8], at: usize, place: u64) -> usize
    requires { piece_room ≤ length out.old }
    ensures { Adds out.old at (colour_says place) result out.new }
{
    between(out, at, b" class='k", place, b"'/>\n")
}

// A band as a whole.
pub fn frame(out: &mut [u8], at: usize, band: Band) -> usize
    requires { piece_room ≤ length out.old }
    ensures { Adds out.old at (frame_says band) result out.new }
{
    let a = rect(out, at, 225, band.top, 900, band.height);
    say(out, a, b" class='frame'/>\n")
}

// The positions from .. to of a band, up to their class.
pub fn part(out: &mut [u8], at: usize, band: Band, from: u64, to: u64) -> usize
    requires { (piece_room ≤ length out.old) × (0 < band.end) }
    ensures { Adds out.old at (part_says band from to) result out.new }
{
    let x = place(band.end, from);
    let wide = width(band.end, from, to);
    rect(out, at, 225 + x, band.top, wide, band.height)
}
