// The refusals in words: one table for whoever has to say what a number means.
#![tactic(auto)]

ghost use Rattle.std.specs.Prelude.{◌≡◌, ◌+◌, ◌≤◌, min, length, take, drop};
ghost use Rattle.text.specs.Bytes.{up_to};
ghost use Rattle.script.specs.Writing.{Puts};
ghost use Rattle.refusals.specs.Words.{words_of};

// The number of a refusal's cell: the last cell is empty, and stands for every number past the table.
fn cell(number: u64) -> usize
    ensures { result ≡ min number 20 }
{
    if number < 20 {
        return number as usize;
    }
    20
}

// Puts what stands in a cell up to its first dot.
fn put_filled(out: &mut [u8], at: usize, cell: &[u8]) -> usize
    requires { at + length cell.now ≤ length out.old }
    ensures { Puts out.old at (up_to 46 cell.now) (length cell.now) result out.new }
{
    let from = 0;
    let to = text::find(cell, from, b'.');
    text::put(out, at, &cell[from..to])
}

// Puts what stands in the cell of 48 bytes that starts at a place.
fn put_cell(out: &mut [u8], at: usize, all: &[u8], from: usize) -> usize
    requires { (from + 48 ≤ length all.now) × (at + 48 ≤ length out.old) }
    ensures { Puts out.old at (up_to 46 (take 48 (drop from all.now))) 48 result out.new }
{
    let to = from + 48;
    put_filled(out, at, &all[from..to])
}

// Puts the words for a number, and nothing where no refusal has it.
pub fn put_words(out: &mut [u8], at: usize, number: u64) -> usize
    requires { at + 48 ≤ length out.old }
    ensures { Puts out.old at (words_of number) 48 result out.new }
{
    let all =
        b"................................................no such tank....................................shares and limits that break the rule...........an empty range, or a 0 where none may be........past the end of the tank........................longer than 2^63 - 1 positions..................a value that is no number.......................its identity has another value, flags or cnt....no room for one more mark of its party..........more runs than its limit........................more runs than the tanks can share..............less room than the answer takes.................a settings text with a bad line.................a log or a saved text with a bad line...........flags that no type makes........................a bad range in a plan, or too many runs left....the plant's work, tried by the laboratory.......more runs than the share, by the laboratory.....a type that is retired..........................a name that can't be kept.......................................................................";
    put_cell(out, at, all, cell(number) * 48)
}
