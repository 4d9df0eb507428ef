// Call scripts: bytes in, calls and answers out.
//
// `take` takes bytes as they come, however they are cut, and answers with a call when a group's last line has ended, or the body
// behind it. `feed` does the same for scripts of lines alone.
#![tactic(auto)]

mod names; // names.rt: the names of ops, fields and kinds
mod fields; // fields.rt: which fields an op has
mod reading; // reading.rt: what a line gives to a call
mod args; // args.rt: marks and identities of calls
mod lines; // lines.rt: bytes to lines, lines to calls
mod bodies; // bodies.rt: bodies between the lines
mod values; // values.rt: f64s and their bits
mod writing; // writing.rt: answers

pub use args::{identity_of, key_of, mark_of, party_of};
pub use bodies::{begin_inlet, inlet_ended, take};
pub use fields::{field_at, field_holds};
pub use lines::{begin, cut_line, empty_line, ended, feed, kept, kept_read, line_number};
pub use names::{field_name, is_name, kind_name, op_name};
pub use reading::{idle, kind_named, read_line, value_in, value_of, value_start};
use styles::Value;
pub use writing::{
    emit, flushed, hand_over, put_counter, put_field, put_line, put_mark, put_name, put_value,
};

// Ops that change the tanks.
#[derive(Clone, Copy)]
pub enum Change {
    Open,
    Annotate,
    Insert,
    Delete,
    Remove,
    Age,
}

// Ops that ask for a number, a yes or no, a value, a mark or a set.
#[derive(Clone, Copy)]
pub enum Question {
    Length,
    Touched,
    Runs,
    Value,
    HasKey,
    AllValue,
    Same,
    Marks,
    Inherit,
    Mark,
    Inherited,
    Find,
    Propose,
}

// Ops that ask for a list or for the text of all tanks, or for what one takes.
#[derive(Clone, Copy)]
pub enum Listing {
    Stretches,
    StretchesNeeded,
    Whole,
    WholeNeeded,
    Anchors,
    Save,
    SaveNeeded,
}

// Ops that bring a text, as the body behind their line.
#[derive(Clone, Copy)]
pub enum Text {
    Settings,
    Log,
    Restore,
}

// Ops that have to do with what is kept beside the tanks alone.
#[derive(Clone, Copy)]
pub enum Desk {
    Set,
    LogEnd,
    Range,
    Legend,
    Party,
}

// Ops that have to do with that and with the tanks.
#[derive(Clone, Copy)]
pub enum Both {
    OpenSet,
    Plan,
    Strip,
}

// An op, by what it does; Nothing stands for the time between two groups.
#[derive(Clone, Copy)]
pub enum Op {
    Nothing,
    Change(Change),
    Question(Question),
    Listing(Listing),
    Text(Text),
    Desk(Desk),
    Both(Both),
}

// A name of at most 16 bytes.
#[derive(Clone, Copy)]
pub struct Name {
    pub text: [u8; 16],
    pub len: usize,
}

#[derive(Clone, Copy)]
pub enum Kind {
    Null,
    Bool,
    Whole,
    Decimal,
}

// What a field's line gives: a number is at most so much, a counter is a signed number of 32 bits, a byte any one, and a party one of two.
#[derive(Clone, Copy)]
pub enum Holds {
    Nothing,
    Op,
    Number(u64),
    Counter,
    Kind,
    Value,
    Byte,
    Party,
}

// A call, as far as its lines have come: its op and that op's row in the table, how many of its fields are read, and each
// number at its field's place. A counter has a place of its own, since it has a sign.
#[derive(Clone, Copy)]
pub struct Call {
    pub op: Op,
    pub row: usize,
    pub place: usize,
    pub numbers: [u64; 16],
    pub cnt: i32,
    pub kind: Kind,
    pub value: Value,
}

// How a call stands after a line: the line was bad, lines are to come, or the call is whole.
#[derive(Clone, Copy)]
pub enum Progress {
    Bad,
    More,
    Ready,
}

// What a line makes of a call; a bad line leaves it as it was.
#[derive(Clone, Copy)]
pub struct Read {
    pub call: Call,
    pub progress: Progress,
}

// A line that is being read: its first 65 bytes, which is one more than a line may have.
#[derive(Clone, Copy)]
pub struct Line {
    pub text: [u8; 65],
    pub count: usize,
}

// A line with bytes added, the place behind them, and whether the line has ended.
#[derive(Clone, Copy)]
pub struct Cut {
    pub line: Line,
    pub at: usize,
    pub whole: bool,
}

// The line and the call that are being read, and how many lines were good.
#[derive(Clone, Copy)]
pub struct Reader {
    pub line: Line,
    pub call: Call,
    pub newlines: u64,
}

// What bytes bring: nothing yet, a bad line, or a whole call.
#[derive(Clone, Copy)]
pub enum Event {
    Nothing,
    Bad,
    Call,
}

// A reader that has taken bytes, what they brought, the call where they brought one, and the place behind them.
#[derive(Clone, Copy)]
pub struct Fed {
    pub reader: Reader,
    pub event: Event,
    pub call: Call,
    pub at: usize,
}

// Where a script with bodies stands: the reader of its lines, and, within a body, the call that it belongs to, how many of its
// bytes have come, and how many are left. The bytes themselves lie in memory that is lent.
#[derive(Clone, Copy)]
pub struct Inlet {
    pub reader: Reader,
    pub call: Call,
    pub have: usize,
    pub left: usize,
}

// An inlet that has taken bytes, what they brought, the call where they brought one, how long its body is, and the place
// behind them.
#[derive(Clone, Copy)]
pub struct Taken {
    pub inlet: Inlet,
    pub event: Event,
    pub call: Call,
    pub size: usize,
    pub at: usize,
}

// How an input ends: between two groups, or in the middle of a line, a group or a body.
#[derive(Clone, Copy)]
pub enum Ending {
    Clean,
    Cut,
}
