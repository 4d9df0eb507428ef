// The lists of one tank on the parts of a state that it stands in, as the questions of `parts`: they are made from its runs where they stand.
ghost use Rattle.std.specs.Prelude.{◌≡◌, length};
ghost use Rattle.lists.specs.Lists.{range_list, whole_list, range_needed, whole_needed, range_number, whole_number, unless_refused, filled_beside};
ghost use Rattle.runs.specs.Stretches.{in_front};
ghost use Rattle.tanks.specs.Looks.{Stands, shown_in};
ghost use Rattle.ask.specs.Asks.{no_list};
ghost use Rattle.ask.specs.Parts.{CanAsk, ask_in};

use super::{counted, no_list};
use lists::Listed;
use styles::Party;
use tanks::{Head, Run, Table, look, stretches};

// A list that is refused by a number.
fn refused(number: u64) -> Listed
    ensures { result ≡ record { number = number; count = 0 } }
{
    Listed {
        number: number,
        count: 0,
    }
}

// How many numbers the stretches of a tank that is there take over start .. end, or 4.
fn range_needed(
    heads: [Head; 8],
    pool: [Run; 512],
    table: Table,
    t: usize,
    who: Party,
    start: u64,
    end: u64,
) -> Listed
    requires { Stands heads pool table t }
    ensures { result ≡ range_needed start end (shown_in heads pool table t who) }
{
    if end <= start {
        return counted(0);
    }
    if look::length_in(heads, t) < end {
        return refused(4);
    }
    counted(stretches::needed(heads, pool, table, t, who, start, end, 0))
}

// How many u64 the list of stretches over start .. end takes.
pub fn stretches_needed(
    heads: [Head; 8],
    pool: [Run; 512],
    table: Table,
    tank: u64,
    who: Party,
    start: u64,
    end: u64,
) -> Listed
    requires { CanAsk heads pool table tank }
    ensures { result ≡ ask_in heads pool table tank who no_list (range_needed start end) }
{
    if 8 <= tank {
        return no_list();
    }
    range_needed(heads, pool, table, tank as usize, who, start, end)
}

// How many u64 the list of the whole tank takes.
pub fn whole_needed(
    heads: [Head; 8],
    pool: [Run; 512],
    table: Table,
    tank: u64,
    who: Party,
) -> Listed
    requires { CanAsk heads pool table tank }
    ensures { result ≡ ask_in heads pool table tank who no_list whole_needed }
{
    if 8 <= tank {
        return no_list();
    }
    let t = tank as usize;
    let l = look::length_in(heads, t);
    counted(stretches::needed(heads, pool, table, t, who, 0, l, 1))
}

// Writes the stretches of a tank that is there over start .. end to the front of `out`; a refusal writes nothing.
fn range_in(
    heads: [Head; 8],
    pool: [Run; 512],
    table: Table,
    t: usize,
    who: Party,
    start: u64,
    end: u64,
    out: &mut [u64],
) -> Listed
    requires { Stands heads pool table t }
    ensures value { result ≡ filled_beside (range_number start end (length out.old) (shown_in heads pool table t who)) (range_list start end (shown_in heads pool table t who)) }
    ensures out_after { out.new ≡ in_front (unless_refused (range_number start end (length out.old) (shown_in heads pool table t who)) (range_list start end (shown_in heads pool table t who))) out.old }
{
    let asked = range_needed(heads, pool, table, t, who, start, end);
    if asked.count == 0 {
        return asked;
    }
    if out.len() < asked.count {
        return refused(11);
    }
    counted(stretches::list(heads, pool, table, t, who, start, end, 0, out))
}

// The stretches over start .. end, at the front of a lent buffer.
pub fn list_range(
    heads: [Head; 8],
    pool: [Run; 512],
    table: Table,
    tank: u64,
    who: Party,
    start: u64,
    end: u64,
    out: &mut [u64],
) -> Listed
    requires { CanAsk heads pool table tank }
    ensures value { result ≡ ask_in heads pool table tank who no_list (λ v. filled_beside (range_number start end (length out.old) v) (range_list start end v)) }
    ensures out_after { out.new ≡ ask_in heads pool table tank who out.old (λ v. in_front (unless_refused (range_number start end (length out.old) v) (range_list start end v)) out.old) }
{
    if 8 <= tank {
        return no_list();
    }
    range_in(heads, pool, table, tank as usize, who, start, end, out)
}

// Writes the marked stretches of a tank that is there to the front of `out`; a refusal writes nothing.
fn whole_in(
    heads: [Head; 8],
    pool: [Run; 512],
    table: Table,
    t: usize,
    who: Party,
    out: &mut [u64],
) -> Listed
    requires { Stands heads pool table t }
    ensures value { result ≡ filled_beside (whole_number (length out.old) (shown_in heads pool table t who)) (whole_list (shown_in heads pool table t who)) }
    ensures out_after { out.new ≡ in_front (unless_refused (whole_number (length out.old) (shown_in heads pool table t who)) (whole_list (shown_in heads pool table t who))) out.old }
{
    let l = look::length_in(heads, t);
    let needed = stretches::needed(heads, pool, table, t, who, 0, l, 1);
    if out.len() < needed {
        return refused(11);
    }
    counted(stretches::list(heads, pool, table, t, who, 0, l, 1, out))
}

// The marked stretches of the whole tank, at the front of a lent buffer.
pub fn list_whole(
    heads: [Head; 8],
    pool: [Run; 512],
    table: Table,
    tank: u64,
    who: Party,
    out: &mut [u64],
) -> Listed
    requires { CanAsk heads pool table tank }
    ensures value { result ≡ ask_in heads pool table tank who no_list (λ v. filled_beside (whole_number (length out.old) v) (whole_list v)) }
    ensures out_after { out.new ≡ ask_in heads pool table tank who out.old (λ v. in_front (unless_refused (whole_number (length out.old) v) (whole_list v)) out.old) }
{
    if 8 <= tank {
        return no_list();
    }
    whole_in(heads, pool, table, tank as usize, who, out)
}
