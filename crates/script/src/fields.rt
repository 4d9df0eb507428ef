// Which op stands in a row, which fields it has, in their order, and what the line of each gives.
ghost use Rattle.std.specs.Prelude.{◌≡◌, ◌<◌};
ghost use Rattle.script.specs.Grammar.{row_at, field_at, progress_of};
ghost use Rattle.script.specs.Cells.{field_of, Letters};

use super::lines::least;
use super::names::{OPS, field_spot};
use super::{Both, Change, Desk, Holds, Listing, Op, Progress, Question, Text};

// The most that 64 bits hold.
const WIDEST: u64 = 18446744073709551615;

// The op of a row.
pub fn op_at(row: usize) -> Op
    ensures { result ≡ (row_at row).op }
{
    let all = [
        Op::Nothing,
        Op::Change(Change::Open),
        Op::Change(Change::Annotate),
        Op::Change(Change::Insert),
        Op::Change(Change::Delete),
        Op::Change(Change::Remove),
        Op::Question(Question::Length),
        Op::Question(Question::Touched),
        Op::Question(Question::Runs),
        Op::Question(Question::Value),
        Op::Question(Question::HasKey),
        Op::Question(Question::AllValue),
        Op::Question(Question::Same),
        Op::Question(Question::Marks),
        Op::Question(Question::Inherit),
        Op::Question(Question::Mark),
        Op::Question(Question::Inherited),
        Op::Listing(Listing::Stretches),
        Op::Listing(Listing::StretchesNeeded),
        Op::Listing(Listing::Whole),
        Op::Listing(Listing::WholeNeeded),
        Op::Listing(Listing::Anchors),
        Op::Question(Question::Find),
        Op::Change(Change::Age),
        Op::Text(Text::Settings),
        Op::Desk(Desk::Set),
        Op::Both(Both::OpenSet),
        Op::Text(Text::Log),
        Op::Desk(Desk::LogEnd),
        Op::Desk(Desk::Range),
        Op::Both(Both::Plan),
        Op::Question(Question::Propose),
        Op::Desk(Desk::Legend),
        Op::Both(Both::Strip),
        Op::Desk(Desk::Party),
        Op::Listing(Listing::Save),
        Op::Listing(Listing::SaveNeeded),
        Op::Text(Text::Restore),
        Op::Nothing,
    ];
    all[least(row, OPS)]
}

// The letter at a place of a row, out of the text of all rows' letters.
fn letter_in(all: &[u8], row: usize, place: usize) -> u8
    requires { Letters all.now × (place < 16) }
    ensures { field_of result ≡ field_at row place }
{
    all[least(row, OPS) * 16 + place]
}

// The letter of the field at a place of a row, and `/` past the last. Each row has a cell of sixteen letters.
pub fn field_at(row: usize, place: usize) -> u8
    ensures { field_of result ≡ field_at row place }
{
    if place < 16 {
        let all =
            b"O///////////////0123456789:;<=>?TSEKLPIFCV//////TAN/////////////TSE/////////////TKLPZ///////////T///////////////T///////////////T///////////////TAK/////////////TSEK////////////TSEKCV//////////TSE/////////////TA//////////////TA//////////////TAR/////////////TAR/////////////TSEM////////////TSE/////////////TM//////////////T///////////////TM//////////////TA//////////////TJQ/////////////B///////////////U///////////////U///////////////B///////////////////////////////SE//////////////THG/////////////THG/////////////DKY/////////////TSXM////////////W///////////////M///////////////////////////////B///////////////////////////////";
        return letter_in(all, row, place);
    }
    b'/'
}

// What a field's line gives.
pub fn field_holds(f: u8) -> Holds
    ensures { result ≡ (field_of f).holds }
{
    let none = Holds::Nothing;
    let wide = Holds::Number(WIDEST);
    let all = [
        none,
        wide,
        wide,
        wide,
        wide,
        wide,
        wide,
        wide,
        wide,
        wide,
        wide,
        wide,
        wide,
        wide,
        wide,
        wide,
        wide,
        none,
        wide,
        Holds::Number(131072),
        Holds::Kind,
        Holds::Number(7),
        wide,
        Holds::Number(255),
        wide,
        Holds::Number(65535),
        Holds::Counter,
        wide,
        Holds::Number(65535),
        Holds::Number(4294967295),
        wide,
        wide,
        Holds::Op,
        wide,
        wide,
        wide,
        wide,
        wide,
        wide,
        Holds::Value,
        Holds::Party,
        wide,
        Holds::Byte,
        wide,
        none,
    ];
    all[field_spot(f)]
}

// How a call stands when this comes next.
pub fn progress(h: Holds) -> Progress
    ensures { result ≡ progress_of h }
{
    match h {
        Holds::Nothing => Progress::Ready,
        _ => Progress::More,
    }
}
