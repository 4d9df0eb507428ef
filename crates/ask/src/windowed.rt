// What shows in equal windows over one tank, on the parts of a state that it stands in, as the questions of `parts`: one walk over its runs where
// they stand fills all windows, and the other party's marks are left out by their bits.
ghost use Rattle.std.specs.Prelude.{◌≡◌, length};
ghost use Rattle.tanks.specs.House.{ask_number};
ghost use Rattle.tanks.specs.Looks.{CanWalk, Stands, shown_in};
ghost use Rattle.windows.specs.Windows.{list_from, over_window, windows};
ghost use Rattle.ask.specs.Parts.{CanAsk, ask_in, bits_in};

use styles::{Party, Value};
use tanks::pool::start;
use tanks::{Head, Run, Table, look};
use windows::{later, plus, seen, sooner};

// All windows of tank t, by the masks of the keys and of the bits that count: `out` has a place for each. A turn passes a run that ends within the
// window, or else closes the window: the run that reaches further is the next window's too.
fn over_pool(
    heads: [Head; 8],
    pool: [Run; 512],
    t: usize,
    own: u64,
    keyed: &[u64; 8],
    nulls: u64,
    first: u64,
    k: u64,
    out: &mut [u64],
)
    requires { CanWalk heads pool t }
    ensures { out.new ≡ list_from (over_window keyed.now nulls (bits_in own heads pool t) first k) 0 (length out.old) }
{
    let at = start(heads, t);
    let h = heads[t];
    let n = h.runs;
    let mut i = 0;
    let mut begun: u64 = 0;
    let mut from = first;
    let mut best = 8;
    let mut w = 0;
    // No `for`: a turn passes a run, or closes a window.
    while w < out.len() {
        let to = plus(from, k);
        if i < n {
            let r = pool[at + i];
            let end = begun + r.len;
            best = sooner(
                best,
                seen(
                    later(from, begun),
                    sooner(to, end),
                    r.set & own,
                    keyed,
                    nulls,
                ),
            );
            if end <= to {
                begun = end;
                i += 1;
            } else {
                out[w] = best;
                w += 1;
                from = to;
                best = 8;
            }
        } else {
            out[w] = best;
            w += 1;
            from = to;
            best = 8;
        }
    }
}

// All windows of a tank that is there, of what a party is shown.
fn windows_in(
    heads: [Head; 8],
    pool: [Run; 512],
    table: Table,
    t: usize,
    who: Party,
    keys: [u16; 8],
    first: u64,
    k: u64,
    out: &mut [u64],
)
    requires { Stands heads pool table t }
    ensures { out.new ≡ windows (shown_in heads pool table t who) keys first k (length out.old) }
{
    let h = heads[t];
    let marks = table.marks;
    let own = look::own_bits(heads, table, t, who);
    let keyed = windows::masks(marks, h.marks, keys);
    let nulls = styles::table::value_bits(marks, h.marks, Value::Null);
    over_pool(heads, pool, t, own, &keyed, nulls, first, k, out);
}

// Which of eight keys is the first that shows a value in each window of k positions from `start` on, 8 for none: every place of `out` is a window,
// and positions past the length show nothing. Returns 0; or 1 where there is no such tank, and then it writes nothing.
pub fn first_shown(
    heads: [Head; 8],
    pool: [Run; 512],
    table: Table,
    tank: u64,
    who: Party,
    keys: [u16; 8],
    start: u64,
    k: u64,
    out: &mut [u64],
) -> u64
    requires { CanAsk heads pool table tank }
    ensures value { result ≡ ask_number tank }
    ensures out_after { out.new ≡ ask_in heads pool table tank who out.old (λ v. windows v keys start k (length out.old)) }
{
    if 8 <= tank {
        return 1;
    }
    windows_in(heads, pool, table, tank as usize, who, keys, start, k, out);
    0
}
