// The text of settings and eight tanks, in the newest version, into a lent buffer. The functions that lay a piece of it answer the place
// behind the piece and write as much as there is room for: so the same functions measure the text, in a buffer of no bytes.
ghost use Rattle.std.specs.Prelude.{◌≡◌, map, ◌+◌, ◌*◌, ◌≤◌, ◌<◌, ◌^◌, ltb, length, take};
ghost use Rattle.text.specs.Bytes.{bytes};
ghost use Rattle.text_lines.specs.Lines.{word_text, number_text, digits_text};
ghost use Rattle.script.specs.Writing.{counter_text, value_text};
ghost use Rattle.runs.specs.Runs.{run, runs as run_list};
ghost use Rattle.runs.specs.Stretches.{in_front};
ghost use Rattle.tank.specs.Rules.{carried};
ghost use Rattle.tank.specs.State as state;
ghost use Rattle.lists.specs.Lists.{unless_refused, filled_beside};
ghost use Rattle.tanks.specs.Pool.{meaning, Sound};
ghost use Rattle.settings_text.specs.Text.{pair_text, pairs_text};
ghost use Rattle.saved.specs.Saved.{flag_of, party_name, saved_mark, marks_text, run_text, runs_text, tank_text, tanks_text, saved_of};
ghost use Rattle.saved.specs.Saying.{newest};
ghost use Rattle.saved.specs.Writes.{Lays, identity_text, head_text, FitsMark, FitsMarks, FitsHouse, written, write_number, SaidAgain};

use lists::Listed;
use settings_text::{limit_name, share_name};
use styles::{Mark, Party, Value};
use tank::Tank;
use tanks::{Setting, Tanks};

// No text that is written is longer: a buffer of so many bytes is never too short.
pub const MOST: usize = 117930;

// Lays bytes at a place of a buffer, and answers the place behind them, as all that follow do.
fn lay(out: &mut [u8], at: usize, src: &[u8]) -> usize
    requires { at + length src.now ≤ 2 ^ 32 }
    ensures { Lays out.old at src.now (length src.now) result out.new }
{
    let end = at + src.len();
    if end <= out.len() {
        return text::put(out, at, src);
    }
    if out.len() <= at {
        return end;
    }
    let n = out.len() - at;
    text::put(out, at, &src[..n]);
    end
}

// A name, a word and a newline.
fn lay_word(out: &mut [u8], at: usize, name: &[u8], word: &[u8]) -> usize
    requires { at + (length name.now + length word.now + 1) ≤ 2 ^ 32 }
    ensures { Lays out.old at (word_text name.now word.now) (length name.now + length word.now + 1) result out.new }
{
    let a = lay(out, at, name);
    let b = lay(out, a, word);
    lay(out, b, b"\n")
}

// A name, a number and a newline.
fn lay_number(out: &mut [u8], at: usize, name: &[u8], n: u64) -> usize
    requires { at + (length name.now + 21) ≤ 2 ^ 32 }
    ensures { Lays out.old at (number_text name.now n) (length name.now + 21) result out.new }
{
    let mut t = [0u8; 20];
    let k = io::decimal(n, &mut t);
    lay_word(out, at, name, &t[..k])
}

// A name, sixteen hexadecimal digits and a newline.
fn lay_digits(out: &mut [u8], at: usize, name: &[u8], n: u64) -> usize
    requires { at + (length name.now + 17) ≤ 2 ^ 32 }
    ensures { Lays out.old at (digits_text name.now n) (length name.now + 17) result out.new }
{
    let mut t = [0u8; 16];
    let k = io::hex(n, 16, &mut t);
    lay_word(out, at, name, &t[..k])
}

// The line of a counter.
fn lay_counter(out: &mut [u8], at: usize, cnt: i32) -> usize
    requires { at + 26 ≤ 2 ^ 32 }
    ensures { Lays out.old at (counter_text cnt) 26 result out.new }
{
    let mut t = [0u8; 26];
    let k = script::put_counter(&mut t, 0, cnt);
    lay(out, at, &t[..k])
}

// The two lines of a value.
fn lay_value(out: &mut [u8], at: usize, v: Value) -> usize
    requires { at + 50 ≤ 2 ^ 32 }
    ensures { Lays out.old at (value_text v) 50 result out.new }
{
    let mut t = [0u8; 50];
    let k = script::put_value(&mut t, 0, v);
    lay(out, at, &t[..k])
}

// The line of a party.
fn lay_party(out: &mut [u8], at: usize, who: Party) -> usize
    requires { at + 12 ≤ 2 ^ 32 }
    ensures { Lays out.old at (word_text (bytes "party=") (party_name who)) 12 result out.new }
{
    match who {
        Party::Plant => lay(out, at, b"party=plant\n"),
        Party::Lab => lay(out, at, b"party=lab\n"),
    }
}

// The lines of a mark's identity.
fn lay_identity(out: &mut [u8], at: usize, m: Mark) -> usize
    requires { at + 92 ≤ 2 ^ 32 }
    ensures { Lays out.old at (identity_text m) 92 result out.new }
{
    let who = m.party;
    let a = lay_party(out, at, who);
    let b = lay_number(out, a, b"key=", text::wide16(m.key));
    let c = lay_number(out, b, b"lamport=", text::wide32(m.lamport));
    lay_number(out, c, b"peer=", m.peer)
}

// The lines of a mark. What its type says of its fields is handed on, so that `write` can promise that the text reads back.
fn lay_mark(out: &mut [u8], at: usize, m: Mark) -> usize
    requires { at + 195 ≤ 2 ^ 32 }
    ensures lays { Lays out.old at (saved_mark newest m) 195 result out.new }
    ensures fits_mark { FitsMark m }
{
    let a = lay_identity(out, at, m);
    let b = lay_counter(out, a, m.cnt);
    let c = lay_number(out, b, b"flags=", text::wide8(m.flags));
    let v = m.value;
    lay_value(out, c, v)
}

// The two lines of a run.
fn lay_run(out: &mut [u8], at: usize, len: u64, set: u64) -> usize
    requires { at + 46 ≤ 2 ^ 32 }
    ensures { Lays out.old at (run_text (run len set)) 46 result out.new }
{
    let a = lay_number(out, at, b"len=", len);
    lay_digits(out, a, b"set=", set)
}

// The two lines of a tank's pair.
fn lay_pair(out: &mut [u8], at: usize, t: usize, s: Setting) -> usize
    requires { (at + 56 ≤ 2 ^ 32) × (t < 8) }
    ensures { Lays out.old at (pair_text t s) 56 result out.new }
{
    let share = share_name(t);
    let a = lay_number(out, at, &share, s.share);
    let limit = limit_name(t);
    lay_number(out, a, &limit, s.limit)
}

// The lines of the first n marks of a table.
fn lay_marks(out: &mut [u8], at: usize, table: [Mark; 64], n: usize) -> usize
    requires { (at + 12480 ≤ 2 ^ 32) × (n ≤ 64) × (length table ≡ 64) }
    ensures lays { Lays out.old at (marks_text newest (take n table)) (195 * n) result out.new }
    ensures fits_marks { FitsMarks (take n table) }
{
    let mut k = at;
    for j in 0..n {
        k = lay_mark(out, k, table[j]);
    }
    k
}

// The lines of the first n runs.
fn lay_runs(out: &mut [u8], at: usize, lens: &[u64], sets: &[u64], n: usize) -> usize
    requires { (at + 23644 ≤ 2 ^ 32) × (n ≤ 514) × (length lens.now ≡ 514) × (length sets.now ≡ 514) }
    ensures { Lays out.old at (runs_text (run_list lens.now sets.now n)) (46 * n) result out.new }
{
    let mut k = at;
    for j in 0..n {
        k = lay_run(out, k, lens[j], sets[j]);
    }
    k
}

// The lines of eight pairs.
fn lay_pairs(out: &mut [u8], at: usize, settings: [Setting; 8]) -> usize
    requires { (at + 448 ≤ 2 ^ 32) × (length settings ≡ 8) }
    ensures { Lays out.old at (pairs_text 0 settings) 448 result out.new }
{
    let mut k = at;
    for (t, s) in settings.iter().enumerate() {
        k = lay_pair(out, k, t, *s);
    }
    k
}

fn flag(b: bool) -> u64
    ensures { result ≡ flag_of b }
{
    if b { 1 } else { 0 }
}

// The lines of tank t in front of its marks.
fn lay_head(out: &mut [u8], at: usize, t: usize, touched: bool, len: u64, marks: usize) -> usize
    requires { at + 110 ≤ 2 ^ 32 }
    ensures { Lays out.old at (head_text t touched len marks) 110 result out.new }
{
    let a = lay_number(out, at, b"tank=", text::wide(t));
    let b = lay_number(out, a, b"touched=", flag(touched));
    let c = lay_number(out, b, b"length=", len);
    lay_number(out, c, b"marks=", text::wide(marks))
}

// The lines of tank t.
fn lay_tank(out: &mut [u8], at: usize, t: usize, x: Tank) -> usize
    requires { (at + 36260 ≤ 2 ^ 32) × (state.Formed x) }
    ensures lays { Lays out.old at (tank_text newest t (saved_of (state.view x))) 36260 result out.new }
    ensures fits_marks { FitsMarks (carried (state.view x)) }
{
    let a = lay_head(out, at, t, x.touched, x.length, x.marks);
    let table = x.table;
    let b = lay_marks(out, a, table, x.marks);
    let c = lay_number(out, b, b"runs=", text::wide(x.runs));
    let lens = x.lens;
    let sets = x.sets;
    lay_runs(out, c, &lens, &sets, x.runs)
}

// The lines of the eight tanks. A tank is taken out of the state once.
fn lay_tanks(out: &mut [u8], at: usize, s: Tanks) -> usize
    requires { (at + 290080 ≤ 2 ^ 32) × (Sound s) }
    ensures lays { Lays out.old at (tanks_text newest 0 (map saved_of (meaning s).tanks)) 290080 result out.new }
    ensures fits_house { FitsHouse (meaning s) }
{
    let mut k = at;
    for t in 0..8 {
        let x = s.take(t);
        k = lay_tank(out, k, t, x);
    }
    k
}

// All of the text, as far as the buffer goes: the answer is how long it is.
fn lay_all(out: &mut [u8], s: Tanks) -> usize
    requires { Sound s }
    ensures lays { Lays out.old 0 (written (meaning s)) 290557 result out.new }
    ensures fits_house { FitsHouse (meaning s) }
{
    let a = lay_number(out, 0, b"version=", 3);
    let settings = s.settings;
    let b = lay_pairs(out, a, settings);
    lay_tanks(out, b, s)
}

// How many bytes the text of all tanks takes.
pub fn needed(s: Tanks) -> usize
    requires { Sound s }
    ensures { result ≡ length (written (meaning s)) }
{
    let mut none = [0u8; 0];
    lay_all(&mut none, s)
}

// Whether so much room is too little. It is measured only where the longest text would not fit.
fn short(s: Tanks, room: usize) -> bool
    requires { Sound s }
    ensures { result ≡ ltb room (length (written (meaning s))) }
{
    if MOST <= room {
        return false;
    }
    room < needed(s)
}

// Writes the text of all tanks to the front of `out`; a refusal writes nothing. What is written reads back as what the tanks mean.
pub fn write(s: Tanks, out: &mut [u8]) -> Listed
    requires { Sound s }
    ensures value { result ≡ filled_beside (write_number (length out.old) (meaning s)) (written (meaning s)) }
    ensures out_after { out.new ≡ in_front (unless_refused (write_number (length out.old) (meaning s)) (written (meaning s))) out.old }
    ensures said_again { result.number ≡ 0 → SaidAgain (meaning s) }
{
    if short(s, out.len()) {
        return Listed {
            number: 11,
            count: 0,
        };
    }
    let count = lay_all(out, s);
    Listed {
        number: 0,
        count: count,
    }
}
