// Which keys occur in the tanks, the lowest first; 65536 stands for none. Whose marks are looked at: one party's, or either's where none is named.
ghost use Rattle.std.specs.Prelude.{◌≡◌, min, length};
ghost use Rattle.tank.specs.State as state;
ghost use Rattle.tanks.specs.Pool.{meaning, Sound};
ghost use Rattle.key_legend.specs.Keys.{is_for, key_from, first_in, first_key, next_key, lowest_keys};

use styles::{Mark, Party};
use tank::Tank;
use tanks::Tanks;

// Is the mark asked for?
fn is_for(whose: Option<Party>, m: Mark) -> bool
    ensures { result ≡ is_for whose m }
{
    match whose {
        None => true,
        Some(who) => styles::order::same_party(who, m.party),
    }
}

// The key of a mark that is asked for, where it is at least so much.
fn key_from(whose: Option<Party>, least: u64, m: Mark) -> u64
    ensures { result ≡ key_from whose least m }
{
    let key = u64::from(m.key);
    if is_for(whose, m) && least <= key {
        key
    } else {
        65536
    }
}

// The lowest key of marks in a tank that is at least so much.
pub fn first_in(t: Tank, whose: Option<Party>, least: u64) -> u64
    requires { state.Sound t }
    ensures { result ≡ first_in whose least (state.view t) }
{
    let mut first = 65536;
    for m in &t.table[..t.marks] {
        first = first.min(key_from(whose, least, *m));
    }
    first
}

// The same over all tanks.
pub fn first_key(s: Tanks, whose: Option<Party>, least: u64) -> u64
    requires { Sound s }
    ensures { result ≡ first_key whose least (meaning s) }
{
    let mut first = 65536;
    for t in 0..8 {
        first = first.min(first_in(s.take(t), whose, least));
    }
    first
}

// The number behind a key, and none behind none.
pub fn next(key: u64) -> u64
    ensures { result ≡ next_key key }
{
    if key < 65536 { key + 1 } else { 65536 }
}

// Puts the lowest keys into a slice, in order, and 65536 behind the last.
pub fn put_lowest(s: Tanks, whose: Option<Party>, keys: &mut [u64])
    requires { Sound s }
    ensures { keys.new ≡ lowest_keys whose (meaning s) (length keys.old) }
{
    let mut least = 0;
    for key in keys.iter_mut() {
        *key = first_key(s, whose, least);
        least = next(*key);
    }
}

// The eight lowest keys of the plant's marks.
pub fn plant_keys(s: Tanks) -> [u64; 8]
    requires { Sound s }
    ensures { result ≡ lowest_keys (Some Party.Plant) (meaning s) 8 }
{
    let mut keys = [65536u64; 8];
    put_lowest(s, Some(Party::Plant), &mut keys);
    keys
}

// The twelve lowest keys of either party's marks.
pub fn either_keys(s: Tanks) -> [u64; 12]
    requires { Sound s }
    ensures { result ≡ lowest_keys None (meaning s) 12 }
{
    let mut keys = [65536u64; 12];
    put_lowest(s, None, &mut keys);
    keys
}
