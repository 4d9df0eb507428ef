// The questions of one tank on the parts of a state that it stands in: all heads, the pool, and the tank's own table. Who holds a state hands
// these over, and the other seven tables are not copied.
ghost use Rattle.std.specs.Prelude.{◌≡◌, false, [], ◌<◌, ◌≤◌, get_or};
ghost use Rattle.styles.specs.Marks.{same_marks};
ghost use Rattle.runs.specs.Positions.{all_at};
ghost use Rattle.questions.specs.declared.Asked as asked;
ghost use Rattle.questions.specs.declared.Shown as shown;
ghost use Rattle.questions.specs.declared.Told as told;
ghost use Rattle.questions.specs.Questions.{set_of, shared_of, extent_of, value_at, styles_at, style_at, stretch_at, styles_for_insert, style_for_insert, range_contains_key, range_has_key_value, styles_of_range};
ghost use Rattle.tanks.specs.Looks.{Stands, shown_in};
ghost use Rattle.tanks.specs.Pool.{no_head};
ghost use Rattle.ask.specs.Parts.{CanAsk, ask_in};

use questions::{Asked, Extent, SetAsked, Shared, Shown, Told};
use styles::{Party, Value};
use tanks::{Head, Run, Table, look};

// The value shown for a key at a position.
pub fn value_at(
    heads: [Head; 8],
    pool: [Run; 512],
    table: Table,
    tank: u64,
    who: Party,
    pos: u64,
    key: u16,
) -> Shown
    requires { CanAsk heads pool table tank }
    ensures { result ≡ ask_in heads pool table tank who (shown.Shown.Refused 1) (value_at pos key) }
{
    if 8 <= tank {
        return Shown::Refused(1);
    }
    let t = tank as usize;
    if look::length_in(heads, t) <= pos {
        return Shown::Refused(4);
    }
    questions::show(look::winner_at(heads, pool, table, t, who, pos, key))
}

// The marks that a position carries.
pub fn styles_at(
    heads: [Head; 8],
    pool: [Run; 512],
    table: Table,
    tank: u64,
    who: Party,
    pos: u64,
) -> SetAsked
    requires { CanAsk heads pool table tank }
    ensures { result ≡ ask_in heads pool table tank who (set_of 1 []) (styles_at pos) }
{
    if 8 <= tank {
        return questions::no_set(1);
    }
    let t = tank as usize;
    if look::length_in(heads, t) <= pos {
        return questions::no_set(4);
    }
    let styles = look::styles_at(heads, pool, table, t, who, pos);
    SetAsked {
        number: 0,
        styles: styles,
    }
}

// The mark of a rank at a position.
pub fn style_at(
    heads: [Head; 8],
    pool: [Run; 512],
    table: Table,
    tank: u64,
    who: Party,
    pos: u64,
    rank: u64,
) -> Asked
    requires { CanAsk heads pool table tank }
    ensures { result ≡ ask_in heads pool table tank who (asked.Asked.Refused 1) (style_at pos rank) }
{
    if 8 <= tank {
        return Asked::Refused(1);
    }
    let t = tank as usize;
    if look::length_in(heads, t) <= pos {
        return Asked::Refused(4);
    }
    questions::found(look::ranked_at(heads, pool, table, t, who, pos, rank))
}

// The marks that an insertion would get.
pub fn get_styles_for_insert(
    heads: [Head; 8],
    pool: [Run; 512],
    table: Table,
    tank: u64,
    who: Party,
    pos: u64,
) -> SetAsked
    requires { CanAsk heads pool table tank }
    ensures { result ≡ ask_in heads pool table tank who (set_of 1 []) (styles_for_insert pos) }
{
    if 8 <= tank {
        return questions::no_set(1);
    }
    let t = tank as usize;
    if look::length_in(heads, t) < pos {
        return questions::no_set(4);
    }
    let styles = look::styles_for_insert(heads, pool, table, t, who, pos);
    SetAsked {
        number: 0,
        styles: styles,
    }
}

// The mark of a rank among those that an insertion would get.
pub fn style_for_insert(
    heads: [Head; 8],
    pool: [Run; 512],
    table: Table,
    tank: u64,
    who: Party,
    pos: u64,
    rank: u64,
) -> Asked
    requires { CanAsk heads pool table tank }
    ensures { result ≡ ask_in heads pool table tank who (asked.Asked.Refused 1) (style_for_insert pos rank) }
{
    if 8 <= tank {
        return Asked::Refused(1);
    }
    let t = tank as usize;
    if look::length_in(heads, t) < pos {
        return Asked::Refused(4);
    }
    questions::found(look::ranked_for_insert(heads, pool, table, t, who, pos, rank))
}

// Has any position of start .. end a mark with the key?
pub fn range_contains_key(
    heads: [Head; 8],
    pool: [Run; 512],
    table: Table,
    tank: u64,
    who: Party,
    start: u64,
    end: u64,
    key: u16,
) -> Told
    requires { CanAsk heads pool table tank }
    ensures { result ≡ ask_in heads pool table tank who (told.Told.Refused 1) (range_contains_key start end key) }
{
    if 8 <= tank {
        return Told::Refused(1);
    }
    let t = tank as usize;
    if end <= start {
        return Told::No;
    }
    if look::length_in(heads, t) < end {
        return Told::Refused(4);
    }
    if look::touched_in(heads, t) {
        return questions::tell(look::has_key(heads, pool, table, t, who, start, end, key));
    }
    Told::No
}

// Does every position of start .. end show the value for the key?
pub fn range_has_key_value(
    heads: [Head; 8],
    pool: [Run; 512],
    table: Table,
    tank: u64,
    who: Party,
    start: u64,
    end: u64,
    key: u16,
    value: Value,
) -> Told
    requires { CanAsk heads pool table tank }
    ensures { result ≡ ask_in heads pool table tank who (told.Told.Refused 1) (range_has_key_value start end key value) }
{
    if 8 <= tank {
        return Told::Refused(1);
    }
    let t = tank as usize;
    if end <= start {
        return Told::No;
    }
    if look::length_in(heads, t) < end {
        return Told::Refused(4);
    }
    if styles::values::value_is_nan(value) {
        return Told::Refused(6);
    }
    if look::touched_in(heads, t) {
        return questions::tell(look::all_show(heads, pool, table, t, who, start, end, key, value));
    }
    Told::No
}

// From where to where the marks of a position hold.
pub fn stretch_at(
    heads: [Head; 8],
    pool: [Run; 512],
    table: Table,
    tank: u64,
    who: Party,
    pos: u64,
) -> Extent
    requires { CanAsk heads pool table tank }
    ensures { result ≡ ask_in heads pool table tank who (extent_of 1 0 0) (stretch_at pos) }
{
    if 8 <= tank {
        return questions::no_extent(1);
    }
    let t = tank as usize;
    if look::length_in(heads, t) <= pos {
        return questions::no_extent(4);
    }
    let r = look::stretch_in(heads, pool, table, t, who, pos);
    Extent {
        number: 0,
        first: r.first,
        last: r.last,
    }
}

// The marks of the first position of start .. end, where all others have the same.
fn shared_in(
    heads: [Head; 8],
    pool: [Run; 512],
    table: Table,
    t: usize,
    who: Party,
    start: u64,
    end: u64,
) -> Shared
    requires { (Stands heads pool table t) × (start < end) × (end ≤ (get_or heads t no_head).length) }
    ensures { result ≡ shared_of 0 (all_at (λ p. same_marks ((shown_in heads pool table t who).at p) ((shown_in heads pool table t who).at start)) start end) ((shown_in heads pool table t who).at start) }
{
    if look::agree(heads, pool, table, t, who, start, end) {
        let styles = look::styles_at(heads, pool, table, t, who, start);
        return Shared {
            number: 0,
            agree: true,
            styles: styles,
        };
    }
    questions::not_shared(0)
}

// The marks that all positions of start .. end share.
pub fn get_styles_of_range(
    heads: [Head; 8],
    pool: [Run; 512],
    table: Table,
    tank: u64,
    who: Party,
    start: u64,
    end: u64,
) -> Shared
    requires { CanAsk heads pool table tank }
    ensures { result ≡ ask_in heads pool table tank who (shared_of 1 false []) (styles_of_range start end) }
{
    if 8 <= tank {
        return questions::not_shared(1);
    }
    let t = tank as usize;
    if end <= start {
        return questions::not_shared(3);
    }
    if look::length_in(heads, t) < end {
        return questions::not_shared(4);
    }
    if look::touched_in(heads, t) {
        return shared_in(heads, pool, table, t, who, start, end);
    }
    questions::not_shared(0)
}
