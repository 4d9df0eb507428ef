// A strip of each tank: 96 cells up to the end of its marked part, of what the plant is shown.
ghost use Rattle.std.specs.Prelude.{◌≡◌, cond, ◌≤◌, ◌<◌, ◌-◌, ltb, length, get_or};
ghost use Rattle.styles.specs.declared.Party.TheVariants.{Plant};
ghost use Rattle.tanks.specs.House.{shown_at};
ghost use Rattle.tanks.specs.Pool.{Sound, meaning};
ghost use Rattle.answers.specs.Waiting.{Adds, piece_room};
ghost use Rattle.glance.specs.Glance.{marked_end, cell_of, cells_say, strip_of, strips_say};

use pen::{between, say, say_right};
use styles::Party;
use tanks::Tanks;

// Where the last stretch of a list ends, three numbers to a stretch; 0 where there is none.
fn last_end(list: &[u64]) -> u64
    ensures { result ≡ cond (ltb (length list.now) 2) 0 (get_or list.now (length list.now - 2) 0) }
{
    if list.len() < 2 {
        return 0;
    }
    list[list.len() - 2]
}

// Where the last position with a mark of the plant's ends; 0 where it has none.
fn marked_end(s: Tanks, tank: u64) -> u64
    requires { (Sound s) × (tank < 8) }
    ensures { result ≡ marked_end (shown_at (meaning s) Plant tank) }
{
    let mut list = [0u64; 1536];
    let l = ask::list_whole(s, tank, Party::Plant, &mut list);
    let n = l.count;
    last_end(&list[..n])
}

// So many positions to a cell that 96 cells reach as far.
fn cell_of(end: u64) -> u64
    requires { 1 ≤ end }
    ensures { (result ≡ cell_of end) × (1 ≤ result) }
{
    (end - 1) / 96 + 1
}

// 96 cells of k positions.
fn cells(
    s: Tanks,
    tank: u64,
    k: u64,
    keys: [u16; 8],
    letters: [u8; 8],
    out: &mut [u8],
    at: usize,
) -> usize
    requires { (Sound s) × (tank < 8) × (1 ≤ k) × (piece_room ≤ length out.old) }
    ensures { Adds out.old at (cells_say (shown_at (meaning s) Plant tank) keys letters k) result out.new }
{
    let mut painted = [b'.'; 96];
    strip::paint(s, tank, 0, k, keys, letters, &mut painted);
    let a = say(out, at, b"  |");
    let b = say(out, a, &painted);
    between(out, b, b"| ", k, b"\n")
}

// A tank's strip, or that there are no marks in it.
fn strip_of(
    s: Tanks,
    tank: u64,
    keys: [u16; 8],
    letters: [u8; 8],
    out: &mut [u8],
    at: usize,
) -> usize
    requires { (Sound s) × (tank < 8) × (piece_room ≤ length out.old) }
    ensures { Adds out.old at (strip_of (meaning s) keys letters tank) result out.new }
{
    let a = say_right(out, at, tank, 4);
    let end = marked_end(s, tank);
    if end < 1 {
        return say(out, a, b"  |no marks of the plant's\n");
    }
    cells(s, tank, cell_of(end), keys, letters, out, a)
}

// The head of the strips, and eight of them.
pub fn strips(s: Tanks, keys: [u16; 8], letters: [u8; 8], out: &mut [u8], from: usize) -> usize
    requires { (Sound s) × (piece_room ≤ length out.old) }
    ensures { Adds out.old from (strips_say (meaning s) keys letters) result out.new }
{
    let mut at = say(
        out,
        from,
        b"\ntank   the plant's marks from position 0 to the end of the marked part, and how many positions a cell has\n",
    );
    for t in 0..8 {
        at = strip_of(s, t, keys, letters, out, at);
    }
    at
}
