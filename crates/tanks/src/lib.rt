// Eight tanks in one state: settings at opening, the edits and the questions with the tank's number in front.
#![tactic(auto)]

mod settings; // settings.rt: shares and limits
pub mod pool; // pool.rt: the tanks' runs and marks in one state
mod within; // within.rt: edits that change the length of one run alone
pub mod look; // look.rt: one tank read where it stands
pub mod stretches; // stretches.rt: its stretches, likewise

ghost use Rattle.std.specs.Prelude.{◌≡◌, ◌<◌, []};
ghost use Rattle.refusal.specs.Answers.{number_in, given_or};
ghost use Rattle.styles.specs.Answers.{styles_of};
ghost use Rattle.tank.specs.State as state;
ghost use Rattle.tank.specs.Lending.{tank_on, CanLend, left_as};
ghost use Rattle.tank.specs.Rules.{annotating, deleting, inserting, removing};
ghost use Rattle.tanks.specs.House.{tank_at, held, inserted_set_at, removed_first_at, ask_number};
ghost use Rattle.tanks.specs.Pool.{freshly, meaning, Sound};
ghost use Rattle.tanks.specs.Promises.{Opens, CalledAt, counts, says, Taken, edit_of, place_of, PartsOfSome, EditsParts, PerformsOn, DoneAt, AppliedAt, PutAt, parted, coming_to};

use pool::{head_of, spots, start, table_in, taken, turn};
use refusal::Refusal;
use settings::{accepts, judge, judge_edit};
use styles::{Identity, Mark, Party, Styles};
use tank::Tank;
use tank::lent::{Left, Outline};
use within::{choose, resize_of, shown_by};

// What a tank may count on, and what it may not pass.
#[derive(Clone, Copy)]
pub struct Setting {
    pub share: u64,
    pub limit: u64,
}

// A tank but for its runs and its marks, which are so many.
#[derive(Clone, Copy)]
pub struct Head {
    pub touched: bool,
    pub length: u64,
    pub runs: usize,
    pub marks: usize,
}

// So many neighbouring positions with one set of marks, by their bits in the tank's table.
#[derive(Clone, Copy)]
pub struct Run {
    pub len: u64,
    pub set: u64,
}

// Where a tank's runs begin and those of the tanks behind it, how many runs and places there are from there on, and whether those behind
// it move up. Of them there are `left`, and where they stay none of the places `behind` the tank's own has to be written.
#[derive(Clone, Copy)]
pub struct Spots {
    at: usize,
    from: usize,
    full: usize,
    count: usize,
    left: usize,
    behind: usize,
    grows: bool,
}

// An edit that makes one run longer or shorter and leaves the others as they are: the run that has all the positions from .. to, or the next one,
// loses `less` of its positions, though not all, and gains `more`.
#[derive(Clone, Copy)]
pub struct Resize {
    from: u64,
    to: u64,
    less: u64,
    more: u64,
}

// A tank's marks.
#[derive(Clone, Copy)]
pub struct Table {
    pub marks: [Mark; 64],
}

// In the pool stand the runs of tank 0, then those of tank 1, and so on, and blanks behind them. A crate above reads it where a call for each run
// would copy the pool each time; the rest it asks for, and edits by `apply`.
#[derive(Clone, Copy)]
pub struct Tanks {
    pub settings: [Setting; 8],
    pub heads: [Head; 8],
    pub tables: [Table; 8],
    pub pool: [Run; 512],
}

// What opening hands back: 0 or 2, and the state.
#[derive(Clone, Copy)]
pub struct Opened {
    pub tanks: Tanks,
    pub number: u64,
}

// An edit of one tank. Insertions and deletions name the party that tries them.
#[derive(Clone, Copy)]
pub enum Edit {
    Annotate(u64, u64, Mark),
    Insert(Party, u64, u64),
    Delete(Party, u64, u64),
    Remove(Identity, u64),
}

// What an accepted edit gives, whichever it is: the set of an insertion, the first position of a removal.
#[derive(Clone, Copy)]
pub struct Done {
    pub styles: Styles,
    pub first: u64,
}

// The same with the set of an insertion by its bits in the table before the call, since a set of marks is a table to copy.
#[derive(Clone, Copy)]
pub struct Shown {
    pub bits: u64,
    pub first: u64,
}

// What an edit leaves of the parts of a state that it has to do with, and what it hands back beside them: the set of an insertion by its bits in
// the table before the call, since a set of marks is another table to copy. With the table right behind the pool both would be copied once
// more as one piece.
#[derive(Clone, Copy)]
pub struct Parts {
    pub pool: [Run; 512],
    pub head: Head,
    pub first: u64,
    pub shown: u64,
    pub table: Table,
}

// A number that was asked for, or the refusal's.
#[derive(Clone, Copy)]
pub enum Count {
    Refused(u64),
    Counts(u64),
}

// Yes or no, or the refusal's number.
#[derive(Clone, Copy)]
pub enum YesNo {
    Refused(u64),
    Says(bool),
}

// Eight fresh tanks.
fn fresh(settings: [Setting; 8]) -> Tanks
    ensures { result ≡ freshly settings }
{
    let mut pool = [Run { len: 0, set: 0 }; 512];
    pool[..8].fill(Run {
        len: 4611686018427387903,
        set: 0,
    });
    Tanks {
        settings: settings,
        heads: [Head {
            touched: false,
            length: 4611686018427387903,
            runs: 1,
            marks: 0,
        }; 8],
        tables: [Table {
            marks: [styles::table::blank(); 64],
        }; 8],
        pool: pool,
    }
}

// Eight fresh tanks with these settings, or 2 and those of eight pairs (1, 1).
pub fn open(settings: [Setting; 8]) -> Opened
    ensures { Opens settings result }
{
    if accepts(settings) {
        return Opened {
            number: 0,
            tanks: fresh(settings),
        };
    }
    Opened {
        number: 2,
        tanks: fresh([Setting { share: 1, limit: 1 }; 8]),
    }
}

// A tank's own call, where its runs stand in lent arrays.
fn perform(
    olens: &mut [u64],
    osets: &mut [u64],
    lens: &[u64],
    sets: &mut [u64],
    h: Outline,
    table: [Mark; 64],
    call: Edit,
) -> Result<Left, Refusal>
    requires { CanLend (tank_on h lens.now sets.old table) olens.old osets.old }
    ensures { PerformsOn (edit_of call) (tank_on h lens.now sets.old table) olens.new osets.new (left_as h result) }
{
    match call {
        Edit::Annotate(start, end, mark) => {
            tank::lent::annotate(olens, osets, lens, sets, h, table, start, end, mark)
        }
        Edit::Delete(who, start, end) => {
            tank::lent::delete(olens, osets, lens, sets, h, table, who, start, end)
        }
        Edit::Insert(who, pos, len) => {
            tank::lent::insert(olens, osets, lens, sets, h, table, who, pos, len)
        }
        Edit::Remove(id, last) => {
            tank::lent::remove(olens, osets, lens, sets, h, table, id, last)
        }
    }
}

// The place of a tank's head and table; where there is no such tank, the first.
pub fn place(tank: u64) -> usize
    ensures { (result ≡ place_of tank) × (result < 8) }
{
    if tank < 8 { tank as usize } else { 0 }
}

// One edit of one tank, on the parts of a state that it has to do with. One that changes the length of a single run changes it where it stands;
// the number of runs stays, so nothing is judged and nothing moves. For any other the tank's runs are taken out, edited by its own rules, judged,
// and put back. The runs of the tanks behind it move, from the front or from the back, so that none is written over before it has moved. Who
// holds a state hands over these parts and puts back what comes: the state itself, of which seven tables have no part in it, is not copied.
pub fn edit_parts(
    settings: [Setting; 8],
    heads: [Head; 8],
    mut pool: [Run; 512],
    table: Table,
    tank: u64,
    call: Edit,
) -> Result<Parts, Refusal>
    requires { PartsOfSome (place_of tank) settings heads pool table }
    ensures { EditsParts settings heads pool table tank (edit_of call) (parted heads pool table tank result) }
{
    if 8 <= tank {
        return Err(Refusal::NoSuchTank);
    }
    let t = tank as usize;
    let h = heads[t];
    let n = h.runs;
    let marks = table.marks;
    let at = start(heads, t);
    if let Some(q) = resize_of(h, call) {
        let mut k = 0;
        let mut from = 0;
        let mut to = 0;
        // No `for`: how many runs the walk passes shows only as it goes.
        while to < q.to {
            from = to;
            to += pool[at + k].len;
            k += 1;
        }
        let here = pool[at + k - 1].set;
        let next = pool[(at + k).min(511)].set;
        if let Some(pick) = choose(q, from, to, here, next) {
            let run = at + (k + pick - 1);
            let old = pool[run];
            let shown = shown_by(call, marks, h.marks, old.set);
            pool[run] = Run {
                len: old.len - q.less + q.more,
                set: old.set,
            };
            return Ok(Parts {
                pool: pool,
                head: Head {
                    touched: true,
                    length: h.length - q.less + q.more,
                    runs: n,
                    marks: h.marks,
                },
                first: 0,
                shown: shown,
                table: table,
            });
        }
    }
    let mut lens = [0u64; 514];
    let mut sets = [0u64; 514];
    let mut olens = [0u64; 514];
    let mut osets = [0u64; 514];
    for i in 0..n {
        let r = pool[at + i];
        lens[i] = r.len;
        sets[i] = r.set;
    }
    let o = Outline {
        touched: h.touched,
        length: h.length,
        runs: n,
        marks: h.marks,
    };
    let done = perform(&mut olens, &mut osets, &lens, &mut sets, o, marks, call)?;
    let m = done.runs;
    judge_edit(settings, heads, t, call, m as u64)?;
    if !done.changed {
        return Ok(Parts {
            pool: pool,
            head: h,
            first: done.first,
            shown: done.shown,
            table: table,
        });
    }
    let s = spots(heads, t, m);
    for k in 0..s.behind {
        let j = turn(s.grows, k, s.behind);
        if j < s.left {
            pool[s.at + m + j] = pool[s.from + j];
        } else {
            pool[s.at + m + j] = Run { len: 0, set: 0 };
        }
    }
    for own in 0..m {
        pool[s.at + own] = Run {
            len: olens[own],
            set: osets[own],
        };
    }
    let change = done.table;
    let next = tank::lent::table_left(marks, h.marks, change);
    Ok(Parts {
        pool: pool,
        head: Head {
            touched: true,
            length: done.length,
            runs: m,
            marks: done.marks,
        },
        first: done.first,
        shown: done.shown,
        table: Table { marks: next },
    })
}

impl Tanks {
    // Tank t on its own; where there is no such tank, a fresh one.
    pub fn take(self, t: usize) -> Tank
        requires { Sound self }
        ensures { Taken self t result }
    {
        if t < 8 {
            return taken(self.heads, self.pool, self.tables[t], t);
        }
        Tank::fresh()
    }

    // One edit of one tank, put together from what its parts become.
    pub fn apply(&mut self, tank: u64, call: Edit) -> Result<Shown, Refusal>
        requires { Sound self.old }
        ensures { AppliedAt self.old tank (edit_of call) self.new result }
    {
        let t = place(tank);
        let settings = self.settings;
        let heads = self.heads;
        let pool = self.pool;
        let table = self.tables[t];
        let p = edit_parts(settings, heads, pool, table, tank, call)?;
        let next = p.pool;
        self.pool = next;
        let head = p.head;
        self.heads[t] = head;
        let left = p.table;
        self.tables[t] = left;
        Ok(Shown {
            bits: p.shown,
            first: p.first,
        })
    }

    // The same, and what it shows as a set.
    pub fn edit(&mut self, tank: u64, call: Edit) -> Result<Done, Refusal>
        requires { Sound self.old }
        ensures { DoneAt self.old tank (edit_of call) (coming_to self.new result) }
    {
        let t = place(tank);
        let heads = self.heads;
        let h = heads[t];
        let table = self.tables[t];
        let shown = self.apply(tank, call)?;
        let marks = table.marks;
        let styles = styles::table::styles_of(marks, h.marks, shown.bits);
        Ok(Done {
            styles: styles,
            first: shown.first,
        })
    }

    // Tank t replaced by another, judged as an edit that leaves it so would be.
    pub fn put(&mut self, t: usize, x: Tank) -> Result<(), Refusal>
        requires { (Sound self.old) × (t < 8) × (state.Formed x) }
        ensures { PutAt self.old t x (number_in result) self.new }
    {
        let heads = self.heads;
        let m = x.runs;
        judge(self.settings, heads, t, m as u64)?;
        let s = spots(heads, t, m);
        for k in 0..s.count {
            let j = turn(s.grows, k, s.count);
            if j < m {
                self.pool[s.at + j] = Run {
                    len: x.lens[j],
                    set: x.sets[j],
                };
            } else if j < s.full {
                self.pool[s.at + j] = self.pool[s.from + (j - m)];
            } else {
                self.pool[s.at + j] = Run { len: 0, set: 0 };
            }
        }
        self.heads[t] = head_of(x);
        self.tables[t] = table_in(x);
        Ok(())
    }

    // Every position of start .. end of the tank gains the mark.
    pub fn annotate(&mut self, tank: u64, start: u64, end: u64, mark: Mark) -> Result<(), Refusal>
        requires { Sound self.old }
        ensures { CalledAt self.old tank (annotating start end mark) (number_in result) self.new }
    {
        self.apply(tank, Edit::Annotate(start, end, mark))?;
        Ok(())
    }

    // The positions start .. end of the tank go, and later ones move down. The lab deletes nothing.
    pub fn delete(&mut self, tank: u64, who: Party, start: u64, end: u64) -> Result<(), Refusal>
        requires { Sound self.old }
        ensures { CalledAt self.old tank (deleting who start end) (number_in result) self.new }
    {
        self.apply(tank, Edit::Delete(who, start, end))?;
        Ok(())
    }

    // `len` positions more before `pos` of the tank, with the marks that both its neighbours carry: the answer is those of them that are the
    // party's. The lab inserts nothing.
    pub fn insert(&mut self, tank: u64, who: Party, pos: u64, len: u64) -> Result<Styles, Refusal>
        requires { Sound self.old }
        ensures called_at { CalledAt self.old tank (inserting who pos len) (number_in result) self.new }
        ensures styles_value { given_or (styles_of []) result ≡ styles_of (inserted_set_at (meaning self.old) tank who pos len) }
    {
        let done = self.edit(tank, Edit::Insert(who, pos, len))?;
        Ok(done.styles)
    }

    // The longest stretch of the tank ending at `last` whose positions all carry the identity loses it: the answer is its first position.
    pub fn remove_style_scanning_backward(
        &mut self,
        tank: u64,
        id: Identity,
        last: u64,
    ) -> Result<u64, Refusal>
        requires { Sound self.old }
        ensures called_at { CalledAt self.old tank (removing id last) (number_in result) self.new }
        ensures first_value { given_or 0 result ≡ removed_first_at (meaning self.old) tank id last }
    {
        let shown = self.apply(tank, Edit::Remove(id, last))?;
        Ok(shown.first)
    }

    // How many positions the tank has.
    pub fn length(self, tank: u64) -> Count
        requires { Sound self }
        ensures { result ≡ counts (ask_number tank) (tank_at (meaning self) tank).length }
    {
        if 8 <= tank {
            return Count::Refused(1);
        }
        let t = tank as usize;
        let heads = self.heads;
        let h = heads[t];
        Count::Counts(h.length)
    }

    // Whether the tank is touched.
    pub fn has_style(self, tank: u64) -> YesNo
        requires { Sound self }
        ensures { result ≡ says (ask_number tank) (tank_at (meaning self) tank).touched }
    {
        if 8 <= tank {
            return YesNo::Refused(1);
        }
        let t = tank as usize;
        let heads = self.heads;
        let h = heads[t];
        YesNo::Says(h.touched)
    }

    // How many runs the tank holds.
    pub fn runs(self, tank: u64) -> Count
        requires { Sound self }
        ensures { result ≡ counts (ask_number tank) (held (meaning self) tank) }
    {
        if 8 <= tank {
            return Count::Refused(1);
        }
        let t = tank as usize;
        let heads = self.heads;
        let h = heads[t];
        Count::Counts(h.runs as u64)
    }
}
