// The anchors of one tank on the parts of a state that it stands in: no tank is taken out. A walk over its runs keeps the bits of the run before, of the
// party's marks alone: where the next run has other bits, those that it lacks end and those that it brings start.
ghost use Rattle.std.specs.Prelude.{◌≡◌, ◌+◌, ◌≤◌, length};
ghost use Rattle.std.specs.Int.Count.{ones};
ghost use Rattle.styles.specs.Bits.{lacking_bits};
ghost use Rattle.lists.specs.Anchors.{anchors, anchors_needed};
ghost use Rattle.tanks.specs.Looks.{Stands, shown_in};
ghost use Rattle.ask.specs.Asks.{no_list};
ghost use Rattle.ask.specs.Parts.{CanAsk, ask_in};

use super::{counted, no_list};
use lists::Listed;
use lists::anchors::lacking;
use styles::{Party, bits};
use tanks::{Head, Run, Table, look, pool};

// How many bits two sets do not share.
pub(crate) fn changes(before: u64, behind: u64) -> usize
    ensures { (result ≡ ones (lacking_bits before behind) + ones (lacking_bits behind before)) × (result ≤ 128) }
{
    bits::count(lacking(before, behind)) + bits::count(lacking(behind, before))
}

// How many anchors a tank that is there has. Where two runs have the same of the party's bits, the boundary between them has none.
fn count_in(heads: [Head; 8], pool: [Run; 512], table: Table, t: usize, who: Party) -> usize
    requires { Stands heads pool table t }
    ensures { result ≡ length (anchors (shown_in heads pool table t who)) }
{
    let own = look::own_bits(heads, table, t, who);
    let at = pool::start(heads, t);
    let h = heads[t];
    let n = h.runs;
    let mut last: u64 = 0;
    let mut count = 0;
    for i in 0..n {
        let r = pool[at + i];
        let next = r.set & own;
        count += changes(last, next);
        last = next;
    }
    count + bits::count(last)
}

// How many anchors the tank has.
pub fn anchors_needed(
    heads: [Head; 8],
    pool: [Run; 512],
    table: Table,
    tank: u64,
    who: Party,
) -> Listed
    requires { CanAsk heads pool table tank }
    ensures { result ≡ ask_in heads pool table tank who no_list anchors_needed }
{
    if 8 <= tank {
        return no_list();
    }
    counted(count_in(heads, pool, table, tank as usize, who))
}
