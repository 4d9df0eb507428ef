// Stretches and anchors.
ghost use Rattle.std.specs.Prelude.{◌≤◌, length, take};
ghost use Rattle.answers.specs.Waiting.{Adds, piece_room};
ghost use Rattle.answers.specs.Replies.{or_refused, needed_says, list_says, side_says, anchor_says};

use super::pieces::{refuse, say, say_word};
use lists::Listed;
use lists::anchors::Anchor;
use richtext::AnchorType;

// How much a list takes, or a refusal.
pub fn put_needed(out: &mut [u8], at: usize, l: Listed) -> usize
    requires { piece_room ≤ length out.old }
    ensures { Adds out.old at (needed_says l) result out.new }
{
    if l.number == 0 {
        return say(out, at, b"needed=", text::wide(l.count));
    }
    refuse(out, at, l.number)
}

// A tank's stretches, three numbers each.
pub fn put_stretches(out: &mut [u8], at: usize, tank: u64, list: &[u64]) -> usize
    requires { piece_room ≤ length out.old }
    ensures { Adds out.old at (list_says tank list.now) result out.new }
{
    let mut k = say(out, at, b"tank=", tank);
    let mut left = list;
    while let [from, to, marks, rest @ ..] = left {
        k = say(out, k, b"from=", *from);
        k = say(out, k, b"to=", *to);
        k = say(out, k, b"marks=", *marks);
        left = rest;
    }
    k
}

// A list in the front of lent numbers, or a refusal.
pub fn put_list(out: &mut [u8], at: usize, tank: u64, l: Listed, lent: &[u64]) -> usize
    requires { (piece_room ≤ length out.old) × (l.count ≤ length lent.now) }
    ensures { Adds out.old at (or_refused l.number (list_says tank (take l.count lent.now))) result out.new }
{
    if l.number == 0 {
        let count = l.count;
        return put_stretches(out, at, tank, &lent[..count]);
    }
    refuse(out, at, l.number)
}

fn put_side(out: &mut [u8], at: usize, side: AnchorType) -> usize
    requires { piece_room ≤ length out.old }
    ensures { Adds out.old at (side_says side) result out.new }
{
    match side {
        AnchorType::Start => say_word(out, at, b"side=", b"start"),
        AnchorType::End => say_word(out, at, b"side=", b"end"),
    }
}

// An anchor.
pub fn put_anchor(out: &mut [u8], at: usize, a: Anchor) -> usize
    requires { piece_room ≤ length out.old }
    ensures { Adds out.old at (anchor_says a) result out.new }
{
    let side = a.side;
    let b = say(out, at, b"at=", a.at);
    let c = put_side(out, b, side);
    let d = say(out, c, b"key=", text::wide16(a.key));
    let e = say(out, d, b"lamport=", text::wide32(a.lamport));
    say(out, e, b"peer=", a.peer)
}
