// Where a position stands in a band of 900 units.
ghost use Rattle.std.specs.Prelude.{◌≡◌, ◌*◌, ◌/◌, ◌≤◌, ◌<◌};
ghost use Rattle.picture.specs.Scale.{place_of, width_of};

// A band, or a row of one: it lies so many units from the top, and its right edge is the position `end`.
#[derive(Clone, Copy)]
pub struct Band {
    pub end: u64,
    pub top: u64,
    pub height: u64,
}

// The share of a part in the whole, in 900 units.
fn share(part: u64, whole: u64) -> u64
    requires { (part ≤ whole) × (0 < whole) × (whole ≤ 1099511627776) }
    ensures { (result ≡ part * 900 / whole) × (result ≤ 900) }
{
    part * 900 / whole
}

// Where a position stands. Both are first made small enough for the product.
pub fn place(end: u64, pos: u64) -> u64
    requires { 0 < end }
    ensures { (result ≡ place_of end pos) × (result ≤ 900) }
{
    let unit = end / 1099511627776 + 1;
    let whole = end / unit;
    share((pos / unit).min(whole), whole)
}

// How wide the positions from .. to are drawn.
pub fn width(end: u64, from: u64, to: u64) -> u64
    requires { 0 < end }
    ensures { result ≡ width_of end from to }
{
    place(end, to).saturating_sub(place(end, from)).max(1)
}
