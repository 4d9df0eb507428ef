// One tank by value: its runs over a table of marks, and the four edits, each judged by refusals 3 to 8, 14, 16 and 18.
#![tactic(auto)]

ghost use Rattle.std.specs.Prelude.{◌≡◌, ◌+◌, ◌≤◌, ◌<◌, ◌^◌, max, false, ltb, take, []};
ghost use Rattle.refusal.specs.Answers.{number_in, given_or};
ghost use Rattle.styles.specs.Order.{id_of};
ghost use Rattle.styles.specs.Bits.{pick};
ghost use Rattle.styles.specs.Marks.{Sorted, member, of_party};
ghost use Rattle.styles.specs.Answers.{styles_of};
ghost use Rattle.tank.specs.Rules.{is_lab, other_of, shown_to, fresh_view, made_flag, retired_flag, mark_number, marks_of, crowded, annotating, inserting, deleting, removing, inserted_set, removed_first};
ghost use Rattle.tank.specs.State.{table_of, view, Sound, Called};
ghost use Rattle.tank.specs.Steps.{room_for};

mod steps; // steps.rt: what the edits are made of
pub mod lent; // lent.rt: the edits of a tank whose runs stand in lent arrays

use refusal::Refusal;
use richtext::TextStyleInfoFlag;
use styles::{Identity, Mark, Party, Styles};

// The first `runs` places of `lens` and `sets` are the runs, a length and a set of bits each; the first `marks` of the table are the marks.
#[derive(Clone, Copy)]
pub struct Tank {
    pub touched: bool,
    pub length: u64,
    pub runs: usize,
    pub marks: usize,
    pub lens: [u64; 514],
    pub sets: [u64; 514],
    pub table: [Mark; 64],
}

// How a mark stands to a table: it has its place there, or a place for it; another content stands there; there is no room.
#[derive(Clone, Copy)]
enum Room {
    Known(usize),
    New(usize),
    Clash,
    Full,
}

// Is it a flag byte that a type makes?
#[tactic(auto, unfolding(crate::specs::Rules::made_flag))]
fn made_flag(flags: u8) -> bool
    ensures { result ≡ made_flag flags }
{
    matches!(flags, 0x80 | 0x82 | 0x84 | 0x86)
}

// Is the type that it has retired?
#[tactic(auto, unfolding(crate::specs::Rules::retired_flag))]
fn retired_flag(flags: u8) -> bool
    ensures { result ≡ retired_flag flags }
{
    TextStyleInfoFlag::from_byte(flags).expand_type().retired()
}

// What a mark is refused for whatever the tank carries: a NaN, a flag byte that no type makes, one of a type that is retired.
#[tactic(auto, unfolding(crate::specs::Rules::mark_number))]
fn judge_mark(mark: Mark) -> Result<(), Refusal>
    ensures { number_in result ≡ mark_number mark }
{
    if styles::values::value_is_nan(mark.value) {
        Err(Refusal::NotANumber)
    } else if !made_flag(mark.flags) {
        Err(Refusal::OddFlags)
    } else if retired_flag(mark.flags) {
        Err(Refusal::RetiredType)
    } else {
        Ok(())
    }
}

// Do the marks of both parties need more than 64 places? The plant is assured 32, the lab 16.
fn too_many(plant: usize, lab: usize) -> bool
    requires { (plant ≤ 65) × (lab ≤ 65) }
    ensures { result ≡ ltb 64 (max plant 32 + max lab 16) }
{
    64 < plant.max(32) + lab.max(16)
}

// Would they with a mark more that the table has not?
fn crowded(table: [Mark; 64], n: usize, mark: Mark) -> bool
    requires { (n ≤ 64) × Sorted (take n table) × (member (id_of mark) (take n table) ≡ false) }
    ensures { result ≡ crowded mark (take n table) }
{
    let plant = styles::bits::count(styles::table::party_bits(table, n, Party::Plant));
    let lab = styles::bits::count(styles::table::party_bits(table, n, Party::Lab));
    match mark.party {
        Party::Plant => too_many(plant + 1, lab),
        Party::Lab => too_many(plant, lab + 1),
    }
}

fn room_for(table: [Mark; 64], n: usize, mark: Mark) -> Room
    requires { (n ≤ 64) × Sorted (take n table) }
    ensures { result ≡ room_for mark (take n table) }
{
    match styles::table::placed(table, n, styles::order::id_of(mark)) {
        Ok(at) => {
            if styles::values::same_content(mark, table[at]) {
                Room::Known(at)
            } else {
                Room::Clash
            }
        }
        Err(at) => {
            // Up to 32 marks fit whosever they are.
            if n < 32 {
                return Room::New(at);
            }
            if crowded(table, n, mark) {
                return Room::Full;
            }
            Room::New(at)
        }
    }
}

// The other party.
fn other(who: Party) -> Party
    ensures { result ≡ other_of who }
{
    match who {
        Party::Plant => Party::Lab,
        Party::Lab => Party::Plant,
    }
}

// Is it the laboratory?
pub fn is_lab(who: Party) -> bool
    ensures { result ≡ is_lab who }
{
    matches!(who, Party::Lab)
}

// The bits of a set whose marks are a party's.
pub fn shown_bits(table: [Mark; 64], n: usize, set: u64, who: Party) -> u64
    requires { (n ≤ 64) × (set < 2 ^ n) }
    ensures { (result < 2 ^ n) × (pick (take n table) result ≡ of_party who (pick (take n table) set)) }
{
    let gone = styles::table::party_bits(table, n, other(who));
    set - styles::bits::both(set, gone)
}

// Those marks.
fn shown_of(table: [Mark; 64], n: usize, set: u64, who: Party) -> Styles
    requires { (n ≤ 64) × (set < 2 ^ n) }
    ensures { result ≡ styles_of (of_party who (pick (take n table) set)) }
{
    styles::table::styles_of(table, n, shown_bits(table, n, set, who))
}

impl Tank {
    // Has the other party a mark in the tank? Where it has none, a party is shown the tank as it is.
    pub fn shared(self, who: Party) -> bool
        requires { Sound self }
        ensures { result ≡ ltb 0 (marks_of (other_of who) (table_of self)) }
    {
        let table = self.table;
        let theirs = styles::table::party_bits(table, self.marks, other(who));
        0 < styles::bits::count(theirs)
    }

    // What a party is shown: the tank with its marks alone, equal neighbours joined. Where the other has no mark, the tank as it is.
    pub fn only(self, who: Party) -> Tank
        requires { Sound self }
        ensures { (Sound result) × (view result ≡ shown_to who (view self)) }
    {
        if !self.touched {
            return self;
        }
        let table = self.table;
        let gone = styles::table::party_bits(table, self.marks, other(who));
        if gone == 0 {
            return self;
        }
        steps::trim(steps::narrow(self, who, gone))
    }

    // A fresh tank.
    pub fn fresh() -> Tank
        ensures { (Sound result) × (view result ≡ fresh_view) }
    {
        let mut lens = [0u64; 514];
        let sets = [0u64; 514];
        let blank = styles::table::blank();
        lens[0] = 4611686018427387903;
        Tank {
            touched: false,
            length: 4611686018427387903,
            runs: 1,
            marks: 0,
            lens: lens,
            sets: sets,
            table: [blank; 64],
        }
    }

    // Every position of start .. end gains the mark.
    pub fn annotate(&mut self, start: u64, end: u64, mark: Mark) -> Result<(), Refusal>
        requires { Sound self.old }
        ensures { Called (annotating start end mark) self.old (number_in result) self.new }
    {
        if end <= start {
            return Err(Refusal::EmptyRange);
        }
        if self.length < end {
            return Err(Refusal::PastEnd);
        }
        judge_mark(mark)?;
        let table = self.table;
        let room = room_for(table, self.marks, mark);
        match room {
            Room::Clash => Err(Refusal::OtherContent),
            Room::Full => Err(Refusal::NoRoomForMark),
            Room::Known(i) => {
                *self = steps::lay(*self, start, end, i);
                Ok(())
            }
            Room::New(i) => {
                *self = steps::lay(steps::admit(*self, i, mark), start, end, i);
                Ok(())
            }
        }
    }

    // The positions start .. end go, and later ones move down. An untouched tank stays as it is. The lab deletes nothing.
    pub fn delete(&mut self, who: Party, start: u64, end: u64) -> Result<(), Refusal>
        requires { Sound self.old }
        ensures { Called (deleting who start end) self.old (number_in result) self.new }
    {
        if is_lab(who) {
            return Err(Refusal::PlantsWork);
        }
        if end <= start {
            return Err(Refusal::EmptyRange);
        }
        if self.length < end {
            return Err(Refusal::PastEnd);
        }
        if !self.touched {
            return Ok(());
        }
        *self = steps::trim(steps::cut(*self, start, end));
        Ok(())
    }

    // `len` positions more before `pos`, with the marks that both its neighbours carry: the answer is those that are the party's. An untouched
    // tank stays as it is. The lab inserts nothing.
    pub fn insert(&mut self, who: Party, pos: u64, len: u64) -> Result<Styles, Refusal>
        requires { Sound self.old }
        ensures called { Called (inserting who pos len) self.old (number_in result) self.new }
        ensures styles_value { given_or (styles_of []) result ≡ styles_of (inserted_set who pos len (view self.old)) }
    {
        if is_lab(who) {
            return Err(Refusal::PlantsWork); // the lab inserts nothing
        }
        if len == 0 {
            return Err(Refusal::EmptyRange);
        }
        if self.length < pos {
            return Err(Refusal::PastEnd);
        }
        if !self.touched {
            return Ok(styles::table::no_marks());
        }
        if 9223372036854775807 - self.length < len {
            return Err(Refusal::TooLong);
        }
        let lens = self.lens;
        let sets = self.sets;
        let table = self.table;
        let set = runs::scan::common_at(&lens, &sets, self.runs, self.length, pos);
        let styles = shown_of(table, self.marks, set, who);
        *self = steps::grow(*self, pos, len, set);
        Ok(styles)
    }

    // The longest stretch ending at `last` whose positions all carry the identity loses it: the answer is its first position.
    pub fn remove_style_scanning_backward(
        &mut self,
        id: Identity,
        last: u64,
    ) -> Result<u64, Refusal>
        requires { Sound self.old }
        ensures called { Called (removing id last) self.old (number_in result) self.new }
        ensures first_value { given_or 0 result ≡ removed_first id last (view self.old) }
    {
        if self.length <= last {
            return Err(Refusal::PastEnd);
        }
        let table = self.table;
        let Ok(place) = styles::table::placed(table, self.marks, id) else {
            return Ok(last + 1);
        };
        let lens = self.lens;
        let sets = self.sets;
        let bit = styles::bits::with_bit(0, place);
        let first = runs::scan::back(&lens, &sets, self.runs, bit, last);
        *self = steps::trim(steps::strip(*self, first, last + 1, place));
        Ok(first)
    }
}
