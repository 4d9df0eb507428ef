// How ops, fields and kinds are spelled, for reading and for writing.
//
// All names of ops stand in one text, a cell of 16 bytes for each row, and those of fields in another, a cell of 8 for each letter: a
// function lays out each text that it has at every call, so that a text of its own in each arm of a table is dear to run and
// to prove. The last cell of a text is blank, and stands for every number past the table.
ghost use Rattle.std.specs.Prelude.{◌≡◌, ◌+◌, ◌-◌, ◌≤◌, min, length, take, drop};
ghost use Rattle.text.specs.Bytes.{starts_of, same_of, up_to};
ghost use Rattle.script.specs.Cells.{letter_count, field_of, Names};
ghost use Rattle.script.specs.Reading.{op_named};
ghost use Rattle.script.specs.Grammar.{spelled_of, spelling, row_at, kind_name};

use super::lines::least;
use super::{Kind, Name};

// How many rows there are: one for each op, and one for the time between two groups.
pub const OPS: usize = 38;

// How many letters there are, from / to Z.
const LETTERS: usize = 44;

fn named(word: &[u8]) -> Name
    requires { length word.now ≤ 16 }
    ensures { result ≡ spelling word.now }
{
    let mut text = [0u8; 16];
    let n = text::put(&mut text, 0, word);
    Name { text, len: n }
}

// The name in a cell, up to the first blank.
fn cell_name(cell: &[u8]) -> Name
    requires { length cell.now ≤ 16 }
    ensures { result ≡ spelling (up_to 32 cell.now) }
{
    let to = text::find(cell, 0, b' ');
    named(&cell[..to])
}

// Does a line begin with a name?
pub fn begins(line: &[u8], n: Name) -> bool
    requires { n.len ≤ length n.text }
    ensures { result ≡ starts_of line.now (spelled_of n) }
{
    let t = n.text;
    let k = n.len;
    text::starts(line, &t[..k])
}

// Is a text a name?
pub fn is_name(t: &[u8], n: Name) -> bool
    requires { n.len ≤ length n.text }
    ensures { result ≡ same_of t.now (spelled_of n) }
{
    let name = n.text;
    let k = n.len;
    text::same(t, &name[..k])
}

// The name in the cell of 16 bytes that starts at a place.
fn op_name_at(all: &[u8], from: usize) -> Name
    requires { from + 16 ≤ length all.now }
    ensures { result ≡ spelling (up_to 32 (take 16 (drop from all.now))) }
{
    let to = from + 16;
    cell_name(&all[from..to])
}

// The name in the cell of 8 bytes that starts at a place.
fn field_name_at(all: &[u8], from: usize) -> Name
    requires { from + 8 ≤ length all.now }
    ensures { result ≡ spelling (up_to 32 (take 8 (drop from all.now))) }
{
    let to = from + 8;
    cell_name(&all[from..to])
}

// How the op of a row is named.
pub fn op_name(row: usize) -> Name
    ensures { result ≡ spelling (row_at row).name }
{
    let all =
        b"                open            annotate        insert          delete          remove          length          touched         runs            value           has_key         all_value       same            marks           inherit         mark            inherited       stretches       stretches_neededwhole           whole_needed    anchors         find            age             settings        set             open_set        log             log_end         range           plan            propose         legend          strip           party           save            save_needed     restore                         ";
    op_name_at(all, least(row, OPS) * 16)
}

// The row of the op that a word names, out of the text of all names: the rows are tried in their order.
fn row_in(all: &[u8], word: &[u8]) -> Option<usize>
    requires { Names all.now }
    ensures { result ≡ op_named word.now }
{
    for i in 1..OPS {
        if is_name(word, op_name_at(all, i * 16)) {
            return Some(i);
        }
    }
    None
}

// The op that a word names. The text of all names is laid out once, and not for each row that is tried.
pub fn op_named(word: &[u8]) -> Option<usize>
    ensures { result ≡ op_named word.now }
{
    let all =
        b"                open            annotate        insert          delete          remove          length          touched         runs            value           has_key         all_value       same            marks           inherit         mark            inherited       stretches       stretches_neededwhole           whole_needed    anchors         find            age             settings        set             open_set        log             log_end         range           plan            propose         legend          strip           party           save            save_needed     restore                         ";
    row_in(all, word)
}

// The number of a field's cell, by its letter: the first letter is /.
pub fn field_spot(f: u8) -> usize
    ensures { result ≡ min (f - 47) letter_count }
{
    least(usize::from(f).saturating_sub(47), LETTERS)
}

// How a field's line begins.
pub fn field_name(f: u8) -> Name
    ensures { result ≡ spelling (field_of f).name }
{
    let all =
        b"        share0= limit0= share1= limit1= share2= limit2= share3= limit3= share4= limit4= share5= limit5= share6= limit6= share7= limit7=         at=     bytes=  kind=   place=  end=    flags=  runs=   hold=   cnt=    before= key=    lamport=room=   len=    op=     peer=   budget= rank=   start=  tank=   number= value=  party=  k=      letter= last=           ";
    field_name_at(all, field_spot(f) * 8)
}

// How a kind is named.
pub fn kind_name(k: Kind) -> Name
    ensures { result ≡ spelling (kind_name k) }
{
    match k {
        Kind::Null => named(b"null"),
        Kind::Bool => named(b"bool"),
        Kind::Whole => named(b"whole"),
        Kind::Decimal => named(b"decimal"),
    }
}
