// The stretches of one tank, made from its runs where they stand in the pool: neither the tank nor the party's own tank is taken out. One walk keeps
// the stretch that it is in, and closes it where the bits of the party's marks change.
ghost use Rattle.std.specs.Prelude.{◌≡◌, ◌≤◌, length, get_or};
ghost use Rattle.runs.specs.Stretches.{in_front};
ghost use Rattle.tanks.specs.Looks.{Stands, shown_in};
ghost use Rattle.tanks.specs.Masked.{mark_list, masked_list, CanList};
ghost use Rattle.tanks.specs.Pool.{no_head};

use super::look::own_bits;
use super::pool::start;
use super::{Head, Run, Table};
use runs::stretches::{part_width, write_part};
use styles::Party;

// How many numbers the stretches of from .. to take that have at least `least` of the bits of a mask.
fn count_in(
    heads: [Head; 8],
    pool: [Run; 512],
    t: usize,
    own: u64,
    from: u64,
    to: u64,
    least: u64,
) -> usize
    requires { CanList heads pool t to }
    ensures { result ≡ length (masked_list least from to own heads pool t) }
{
    let at = start(heads, t);
    let h = heads[t];
    let n = h.runs;
    let mut end: u64 = 0;
    let mut first: u64 = 0;
    let mut one: u64 = 0;
    let mut count = 0;
    for i in 0..n {
        let r = pool[at + i];
        let bits = r.set & own;
        let begun = end;
        end += r.len;
        if bits != one {
            count += part_width(from, to, first, begun, one, least);
            first = begun;
            one = bits;
        }
    }
    count + part_width(from, to, first, end, one, least)
}

// Writes them to the front of `out`. Returns how many numbers they are.
fn list_in(
    heads: [Head; 8],
    pool: [Run; 512],
    t: usize,
    own: u64,
    from: u64,
    to: u64,
    least: u64,
    out: &mut [u64],
) -> usize
    requires { (CanList heads pool t to) × (length (masked_list least from to own heads pool t) ≤ length out.old) }
    ensures out_after { out.new ≡ in_front (masked_list least from to own heads pool t) out.old }
    ensures value { result ≡ length (masked_list least from to own heads pool t) }
{
    let at = start(heads, t);
    let h = heads[t];
    let n = h.runs;
    let mut end: u64 = 0;
    let mut first: u64 = 0;
    let mut one: u64 = 0;
    let mut filled = 0;
    for i in 0..n {
        let r = pool[at + i];
        let bits = r.set & own;
        let begun = end;
        end += r.len;
        if bits != one {
            filled = write_part(out, filled, from, to, first, begun, one, least);
            first = begun;
            one = bits;
        }
    }
    write_part(out, filled, from, to, first, end, one, least)
}

// How many numbers the stretches of from .. to take that show a party at least `least` marks.
pub fn needed(
    heads: [Head; 8],
    pool: [Run; 512],
    table: Table,
    t: usize,
    who: Party,
    from: u64,
    to: u64,
    least: u64,
) -> usize
    requires { (Stands heads pool table t) × (to ≤ (get_or heads t no_head).length) }
    ensures { result ≡ length (mark_list least from to (shown_in heads pool table t who)) }
{
    let own = own_bits(heads, table, t, who);
    count_in(heads, pool, t, own, from, to, least)
}

// Writes them to the front of `out`: three numbers a stretch, start, end and count of marks. Returns how many numbers they are.
pub fn list(
    heads: [Head; 8],
    pool: [Run; 512],
    table: Table,
    t: usize,
    who: Party,
    from: u64,
    to: u64,
    least: u64,
    out: &mut [u64],
) -> usize
    requires { (Stands heads pool table t) × (to ≤ (get_or heads t no_head).length) × (length (mark_list least from to (shown_in heads pool table t who)) ≤ length out.old) }
    ensures out_after { out.new ≡ in_front (mark_list least from to (shown_in heads pool table t who)) out.old }
    ensures value { result ≡ length (mark_list least from to (shown_in heads pool table t who)) }
{
    let own = own_bits(heads, table, t, who);
    list_in(heads, pool, t, own, from, to, least, out)
}
