// The top line and the table: a row of numbers for each tank.
ghost use Rattle.std.specs.Prelude.{[], ◌∷◌, ◌≡◌, ◌≤◌, ◌<◌, length};
ghost use Rattle.tank.specs.Rules.{carried, marks_of};
ghost use Rattle.tank.specs.State as state;
ghost use Rattle.tanks.specs.Pool.{Sound, meaning};
ghost use Rattle.answers.specs.Waiting.{Adds, piece_room};
ghost use Rattle.pen.specs.Pen.{right_text};
ghost use Rattle.glance.specs.Glance.{left_in, top_says, touched_word, row_front, row_marks, row_end, row_says, row_at, table_says};

use pen::{between, say, say_number, say_right, say_word};
use styles::Party;
use tank::Tank;
use tanks::{Setting, Tanks};

// What the pool has left.
fn left(s: Tanks) -> u64
    requires { Sound s }
    ensures { result ≡ left_in (meaning s) }
{
    let mut rest = 512;
    for u in 0..8 {
        rest -= (s.heads[u].runs as u64).max(s.settings[u].share);
    }
    rest
}

// What stands above the table: the place in the log, and what the pool has left.
pub fn top(s: Tanks, place: u64, out: &mut [u8], at: usize) -> usize
    requires { (Sound s) × (piece_room ≤ length out.old) }
    ensures { Adds out.old at (top_says place (meaning s)) result out.new }
{
    let a = between(
        out,
        at,
        b"The log is read up to byte ",
        place,
        b". The pool has ",
    );
    let b = say_number(out, a, left(s));
    say(out, b, b" of 512 runs left.\n\n")
}

// How many marks a party has in a tank.
fn marks_of(t: Tank, who: Party) -> u64
    requires { state.Sound t }
    ensures { result ≡ marks_of who (carried (state.view t)) }
{
    let table = t.table;
    text::wide(styles::bits::count(styles::table::party_bits(table, t.marks, who)))
}

// Touched or not, in its column.
fn say_touched(out: &mut [u8], at: usize, touched: bool) -> usize
    requires { piece_room ≤ length out.old }
    ensures { Adds out.old at (right_text 10 (touched_word touched) ∷ []) result out.new }
{
    if touched {
        return say_word(out, at, b"yes", 10);
    }
    say_word(out, at, b"no", 10)
}

// The front of a tank's row: its number, its share and limit, and its runs.
fn row_front(out: &mut [u8], at: usize, number: u64, x: Setting, runs: u64) -> usize
    requires { piece_room ≤ length out.old }
    ensures { Adds out.old at (row_front number x runs) result out.new }
{
    let a = say_right(out, at, number, 4);
    let b = say_right(out, a, x.share, 8);
    let c = say_right(out, b, x.limit, 8);
    say_right(out, c, runs, 8)
}

// Each party's marks.
fn row_marks(out: &mut [u8], at: usize, t: Tank) -> usize
    requires { (state.Sound t) × (piece_room ≤ length out.old) }
    ensures { Adds out.old at (row_marks (carried (state.view t))) result out.new }
{
    let a = say_right(out, at, marks_of(t, Party::Plant), 14);
    say_right(out, a, marks_of(t, Party::Lab), 12)
}

// The end of a row: whether the tank is touched, and its length.
fn row_end(out: &mut [u8], at: usize, touched: bool, len: u64) -> usize
    requires { piece_room ≤ length out.old }
    ensures { Adds out.old at (row_end touched len) result out.new }
{
    let a = say_touched(out, at, touched);
    let b = say_right(out, a, len, 22);
    say(out, b, b"\n")
}

// A tank's row.
fn row(out: &mut [u8], at: usize, number: u64, x: Setting, t: Tank) -> usize
    requires { (state.Sound t) × (piece_room ≤ length out.old) }
    ensures { Adds out.old at (row_says number x (state.view t)) result out.new }
{
    let a = row_front(out, at, number, x, text::wide(t.runs));
    let b = row_marks(out, a, t);
    row_end(out, b, t.touched, t.length)
}

// The row of tank t.
fn row_at(s: Tanks, t: usize, out: &mut [u8], at: usize) -> usize
    requires { (Sound s) × (t < 8) × (piece_room ≤ length out.old) }
    ensures { Adds out.old at (row_at (meaning s) t) result out.new }
{
    let x = s.settings[t];
    row(out, at, text::wide(t), x, s.take(t))
}

// The head of the table, and eight rows.
pub fn table(s: Tanks, out: &mut [u8], from: usize) -> usize
    requires { (Sound s) × (piece_room ≤ length out.old) }
    ensures { Adds out.old from (table_says (meaning s)) result out.new }
{
    let mut at = say(
        out,
        from,
        b"tank   share   limit    runs   plant marks   lab marks   touched                length\n",
    );
    for t in 0..8 {
        at = row_at(s, t, out, at);
    }
    at
}
