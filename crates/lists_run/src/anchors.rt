// Anchors in four places that are lent: one function lends them, and what it hands back is read by the others.
ghost use Rattle.std.specs.Prelude.{◌≡◌, length};
ghost use Rattle.tanks.specs.Pool.{Sound};

use crate::print::{say, say_labelled};
use ask::Spot;
use lists::Listed;
use lists::anchors::Anchor;
use richtext::AnchorType;
use styles::Party;
use tanks::Tanks;

// The answer, and the places after the call.
#[derive(Clone, Copy)]
struct Filled {
    listed: Listed,
    places: [Anchor; 4],
}

fn both(listed: Listed, places: [Anchor; 4]) -> Filled
    ensures { result.places ≡ places }
{
    Filled { listed, places }
}

// The anchors of a party's marks at the front of four places that hold `blank` before.
fn fill(s: Tanks, spot: Spot, blank: Anchor) -> Filled
    requires { Sound s }
    ensures { length result.places ≡ 4 }
{
    let mut places = [blank, blank, blank, blank];
    let listed = ask::iter_anchors(s, spot, &mut places);
    both(listed, places)
}

fn say_side(side: AnchorType) {
    match side {
        AnchorType::Start => say(b":start:"),
        AnchorType::End => say(b":end:"),
    }
}

fn say_anchor(a: Anchor) {
    let side = a.side;
    say_labelled(b" ", a.at);
    say_side(side);
    say_labelled(b"", a.key as u64);
    say_labelled(b".", a.lamport as u64);
    say_labelled(b".", a.peer);
}

// What some places hold.
fn say_places(places: &[Anchor]) {
    for a in places {
        say_anchor(*a);
    }
}

// `iter_anchors` in four places that hold an anchor of no mark before.
fn listed(s: Tanks, tank: u64)
    requires { Sound s }
{
    let nobody = Anchor {
        at: 7,
        side: AnchorType::Start,
        key: 7,
        lamport: 7,
        peer: 7,
    };
    let spot = Spot {
        tank,
        who: Party::Plant,
    };
    let f = fill(s, spot, nobody);
    let l = f.listed;
    let count = l.count;
    say_labelled(b"iter_anchors tank=", tank);
    say_labelled(b" room=", 4);
    say_labelled(b" refused=", l.number);
    say_labelled(b" count=", count as u64);
    say(b" part=");
    let (part, rest) = f.places.split_at(count.min(4));
    say_places(part);
    say(b" rest=");
    say_places(rest);
    say(b"\n");
}

// Tank 0 has four anchors, tank 1 two, tank 2 six, tank 3 none.
pub(crate) fn tanks(s: Tanks)
    requires { Sound s }
{
    listed(s, 0);
    listed(s, 1);
    listed(s, 2);
    listed(s, 3);
    listed(s, 8);
}
