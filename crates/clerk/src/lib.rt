// The clerk of the tank map: takes calls as they are read, and writes their answers as text.
#![tactic(auto)]

mod editing; // editing.rt: the four edits of one tank
mod changes; // changes.rt: other calls that change the state
mod asking; // asking.rt: calls that ask
mod listing; // listing.rt: stretches and anchors
mod borders; // borders.rt: the anchors written, boundary by boundary
mod desk; // desk.rt: calls that have to do with what is kept beside the tanks
mod strips; // strips.rt: strips, and their legend
mod texts; // texts.rt: the text of all tanks

ghost use Rattle.std.specs.Prelude.{false, ◌≡◌, ◌≤◌, length};
ghost use Rattle.script.specs.Grammar.{most_body};
ghost use Rattle.script.specs.Lines.{state_of};
ghost use Rattle.script.specs.Bodies.{Fits};
ghost use Rattle.tanks.specs.Pool.{Sound, meaning};
ghost use Rattle.answers.specs.Waiting.{Adds, piece_room};
ghost use Rattle.clerk.specs.declared.Kind as kinds;
ghost use Rattle.ask.specs.Parts.{CanAsk};
ghost use Rattle.clerk.specs.Calls.{tank_for, change_kind, answer_says, listing_says, looks_say, question_kind, listing_kind, both_kind, kind_of, asking_says, Changes};
ghost use Rattle.clerk.specs.Desk.{empty_side, Settled, text_house, text_side, text_says, desk_side, desk_says, both_house, both_side, both_says, Notes, Moves, Performs};
ghost use Rattle.clerk.specs.Course.{malformed_says, Eats, Closes, Reads, Runs, RunsWhole};

use answers::say;
use changes::{aged, opened};
use day_log::Log;
pub use listing::whole;
use night::Plan;
use script::{Both, Call, Change, Desk, Ending, Event, Inlet, Listing, Op, Question, Reader, Text};
use settings_text::Kept;
use std::io::Read;
use std::rt::Stdin;
use strip::legend::Legend;
use styles::Party;
use tanks::{Edit, Head, Run, Setting, Table, Tanks};

// What is asked of one tank where it stands.
#[derive(Clone, Copy)]
pub enum Look {
    Question(Question),
    Listing(Listing),
    Strip,
}

// What the loop over calls does with one: it tells what is asked of the state, or of one tank where that stands, makes an edit of one
// tank where the state stands, or hands the state on.
#[derive(Clone, Copy)]
pub enum Kind {
    Asks,
    Looks(Look),
    Edits(Edit),
    Other,
}

// The state after a call, and how much of the output waits.
#[derive(Clone, Copy)]
pub struct Done {
    pub tanks: Tanks,
    pub at: usize,
}

// What is kept beside the tanks: the last four sets of settings that were read, the log that is under way, the
// ranges that wait for a plan, the legend of strips, and as whom calls are made.
#[derive(Clone, Copy)]
pub struct Side {
    pub sets: Kept,
    pub log: Log,
    pub pending: Plan,
    pub legend: Legend,
    pub party: Party,
}

// What is kept after a call, and how much of the output waits.
#[derive(Clone, Copy)]
pub struct Noted {
    pub side: Side,
    pub at: usize,
}

// The state and what is kept after a call, and how much of the output waits.
#[derive(Clone, Copy)]
pub struct Moved {
    pub tanks: Tanks,
    pub side: Side,
    pub at: usize,
}

// Where a run stands but for the tanks: the script, what is kept beside them, how much of the output waits, and whether it
// is over.
#[derive(Clone, Copy)]
pub struct Stand {
    pub inlet: Inlet,
    pub side: Side,
    pub at: usize,
    pub over: bool,
}

// The tanks, and where the run stands, after some of the input.
#[derive(Clone, Copy)]
pub struct Eaten {
    pub tanks: Tanks,
    pub stand: Stand,
}

// A stand from which nothing waits.
pub fn fresh(inlet: Inlet, side: Side) -> Stand
    ensures { result ≡ record { inlet = inlet; side = side; at = 0; over = false } }
{
    Stand {
        inlet: inlet,
        side: side,
        at: 0,
        over: false,
    }
}

pub fn standing(tanks: Tanks, inlet: Inlet, side: Side, at: usize, over: bool) -> Eaten
    ensures { (result.tanks ≡ tanks) × (result.stand ≡ record { inlet = inlet; side = side; at = at; over = over }) }
{
    let stand = Stand {
        inlet: inlet,
        side: side,
        at: at,
        over: over,
    };
    Eaten {
        tanks: tanks,
        stand: stand,
    }
}

fn moving(tanks: Tanks, side: Side, at: usize) -> Moved
    ensures { result ≡ record { tanks = tanks; side = side; at = at } }
{
    Moved {
        tanks: tanks,
        side: side,
        at: at,
    }
}

// Nothing kept yet, the legend that a strip has before one is said, and calls as the plant.
pub fn empty() -> Side
    ensures { (result ≡ empty_side) × Settled result }
{
    let sets = settings_text::none();
    let log = day_log::begin();
    let pending = night::empty_plan();
    let legend = strip::legend::digits();
    Side {
        sets: sets,
        log: log,
        pending: pending,
        legend: legend,
        party: Party::Plant,
    }
}

// The state as it was, and nothing said.
fn unmoved(s: Tanks, at: usize) -> Done
    ensures { result ≡ record { tanks = s; at = at } }
{
    Done { tanks: s, at: at }
}

// A call by a party that changes the tanks and is no edit of the four: the state after it, and its answer in the output.
fn change(s: Tanks, e: Change, who: Party, call: Call, out: &mut [u8], at: usize) -> Done
    requires sound { Sound s × (change_kind e who call ≡ kinds.Kind.Other) }
    requires piece_room_in_bounds { piece_room ≤ length out.old }
    ensures { Changes e s who call out.old at result out.new }
{
    match e {
        Change::Open => opened(s, call, out, at),
        Change::Annotate => unmoved(s, at),
        Change::Insert => unmoved(s, at),
        Change::Delete => unmoved(s, at),
        Change::Remove => unmoved(s, at),
        Change::Age => aged(s, who, call, out, at),
    }
}

// A call that asks leaves the state as it was, and so does not hand it back: the answer is in the output. What is asked of one tank is not
// answered here, but from the parts of the state.
fn answer(s: Tanks, q: Question, who: Party, call: Call, out: &mut [u8], at: usize) -> usize
    requires sound { Sound s × (question_kind q ≡ kinds.Kind.Asks) }
    requires piece_room_in_bounds { piece_room ≤ length out.old }
    ensures { Adds out.old at (answer_says q (meaning s) who call) result out.new }
{
    match q {
        Question::Length => asking::length(s, call, out, at),
        Question::Touched => asking::touched(s, call, out, at),
        Question::Runs => asking::runs(s, call, out, at),
        Question::Value => at,
        Question::HasKey => at,
        Question::AllValue => at,
        Question::Same => at,
        Question::Marks => at,
        Question::Inherit => at,
        Question::Mark => at,
        Question::Inherited => at,
        Question::Find => at,
        Question::Propose => asking::propose(s, call, out, at),
    }
}

// One that asks for the text of all tanks. A list of one tank is not made here, but from the parts of the state.
fn listed(s: Tanks, l: Listing, who: Party, call: Call, out: &mut [u8], at: usize) -> usize
    requires sound { Sound s × (listing_kind l ≡ kinds.Kind.Asks) }
    requires piece_room_in_bounds { piece_room ≤ length out.old }
    ensures { Adds out.old at (listing_says l (meaning s) who call) result out.new }
{
    let n = call.numbers;
    match l {
        Listing::Stretches => at,
        Listing::StretchesNeeded => at,
        Listing::Whole => at,
        Listing::WholeNeeded => at,
        Listing::Anchors => at,
        Listing::Save => texts::save(s, n[0], out, at),
        Listing::SaveNeeded => texts::save_needed(s, out, at),
    }
}

// One that brings a text, which lies in the body lent.
fn take_text(
    s: Tanks,
    side: Side,
    x: Text,
    call: Call,
    body: &[u8],
    out: &mut [u8],
    at: usize,
) -> Moved
    requires sound { Sound s × Settled side }
    requires piece_room_in_bounds { piece_room ≤ length out.old }
    ensures { Moves (text_house x (meaning s) side call body.now) (text_side x (meaning s) side call body.now) (text_says x (meaning s) side call body.now) out.old at result out.new }
{
    match x {
        Text::Settings => {
            let d = desk::settings(side, body, out, at);
            let next = d.side;
            Moved {
                tanks: s,
                side: next,
                at: d.at,
            }
        }
        Text::Log => desk::read_log(s, side, body, out, at),
        Text::Restore => texts::restore(s, side, body, out, at),
    }
}

// One that has to do with what is kept beside the tanks alone: these are not even lent.
fn at_desk(side: Side, d: Desk, call: Call, out: &mut [u8], at: usize) -> Noted
    requires settled { Settled side }
    requires piece_room_in_bounds { piece_room ≤ length out.old }
    ensures { Notes (desk_side d side call) (desk_says d side call) out.old at result out.new }
{
    match d {
        Desk::Set => desk::set(side, call, out, at),
        Desk::LogEnd => desk::end_log(side, out, at),
        Desk::Range => desk::range(side, call, out, at),
        Desk::Legend => strips::legend(side, call, out, at),
        Desk::Party => desk::party(side, call, out, at),
    }
}

// One that has to do with both and changes one of them. A strip is not painted here, but from the parts of the state.
fn on_both(s: Tanks, side: Side, b: Both, call: Call, out: &mut [u8], at: usize) -> Moved
    requires sound { (Sound s) × Settled side × (both_kind b ≡ kinds.Kind.Other) }
    requires piece_room_in_bounds { piece_room ≤ length out.old }
    ensures { Moves (both_house b (meaning s) side call) (both_side b (meaning s) side call) (both_says b (meaning s) side call) out.old at result out.new }
{
    match b {
        Both::OpenSet => desk::open_set(s, side, call, out, at),
        Both::Plan => desk::plan(s, side, call, out, at),
        Both::Strip => moving(s, side, at),
    }
}

// What a call by a party is.
fn kind_of(who: Party, call: Call) -> Kind
    ensures { result ≡ kind_of call.op who call }
{
    let op = call.op;
    match op {
        Op::Nothing => Kind::Other,
        Op::Change(e) => editing::change_kind(e, who, call),
        Op::Question(q) => asking::question_kind(q),
        Op::Listing(l) => listing::listing_kind(l),
        Op::Text(_) => Kind::Other,
        Op::Desk(_) => Kind::Other,
        Op::Both(b) => strips::both_kind(b),
    }
}

// One that is asked of one tank, by a party: the answer comes from the parts of a state that the tank stands in. A strip has a legend too, and is
// the plant's.
fn at_tank(
    heads: [Head; 8],
    pool: [Run; 512],
    table: Table,
    look: Look,
    legend: Legend,
    who: Party,
    call: Call,
    out: &mut [u8],
    at: usize,
) -> usize
    requires can_ask { CanAsk heads pool table (tank_for call) }
    requires piece_room_in_bounds { piece_room ≤ length out.old }
    ensures { Adds out.old at (looks_say look heads pool table legend who call) result out.new }
{
    match look {
        Look::Question(q) => asking::looked(heads, pool, table, q, who, call, out, at),
        Look::Listing(l) => listing::looked(heads, pool, table, l, who, call, out, at),
        Look::Strip => strips::strip(heads, pool, table, legend, call, out, at),
    }
}

// One that only asks, and not of one tank where it stands, by a party: its answer, and no state is handed back.
fn told(s: Tanks, who: Party, call: Call, out: &mut [u8], at: usize) -> usize
    requires sound { Sound s × (kind_of call.op who call ≡ kinds.Kind.Asks) }
    requires piece_room_in_bounds { piece_room ≤ length out.old }
    ensures { Adds out.old at (asking_says call.op (meaning s) who call) result out.new }
{
    let op = call.op;
    match op {
        Op::Nothing => at,
        Op::Change(_) => at,
        Op::Question(q) => answer(s, q, who, call, out, at),
        Op::Listing(l) => listed(s, l, who, call, out, at),
        Op::Text(_) => at,
        Op::Desk(_) => at,
        Op::Both(_) => at,
    }
}

// Any other, with the body behind it where it has one.
fn perform(s: Tanks, side: Side, call: Call, body: &[u8], out: &mut [u8], at: usize) -> Moved
    requires sound { (Sound s) × Settled side × (kind_of call.op side.party call ≡ kinds.Kind.Other) }
    requires piece_room_in_bounds { piece_room ≤ length out.old }
    ensures { Performs call.op s side call body.now out.old at result out.new }
{
    let op = call.op;
    match op {
        Op::Nothing => moving(s, side, at),
        Op::Change(e) => {
            let who = side.party;
            let d = change(s, e, who, call, out, at);
            let changed = d.tanks;
            moving(changed, side, d.at)
        }
        Op::Question(_) => moving(s, side, at),
        Op::Listing(_) => moving(s, side, at),
        Op::Text(x) => take_text(s, side, x, call, body, out, at),
        Op::Desk(d) => {
            let n = at_desk(side, d, call, out, at);
            let kept = n.side;
            moving(s, kept, n.at)
        }
        Op::Both(b) => on_both(s, side, b, call, out, at),
    }
}

// The number of the line at which the run ends.
fn put_bad(out: &mut [u8], at: usize, r: Reader) -> usize
    requires { piece_room ≤ length out.old }
    ensures { Adds out.old at (malformed_says (state_of r)) result out.new }
{
    say(out, at, b"malformed=", script::line_number(r))
}

// The bytes of one read, a line or a part of a body to a turn. The tanks go through a call once a group, and never once a
// line. An edit of one tank changes them where they stand. What a question, a list or a strip of one tank has to do with is handed over in
// parts, for an index that is not known beforehand copies all eight tables where they are handed on.
pub fn eat(bytes: &[u8], s: Tanks, stand: Stand, body: &mut [u8], out: &mut [u8]) -> Eaten
    requires sound { (Sound s) × Settled stand.side × Fits stand.inlet body.old × (stand.over ≡ false) }
    requires most_body_in_bounds { (most_body ≤ length body.old) × (piece_room ≤ length out.old) }
    ensures { Eats s stand body.old out.old bytes.now result body.new out.new }
{
    let mut tanks = s;
    let mut side = stand.side;
    let mut inlet = stand.inlet;
    let mut at = stand.at;
    let mut from = 0;
    // No `for`: how far a turn comes is for `take` to say.
    while from < bytes.len() {
        let t = script::take(inlet, bytes, from, body);
        from = t.at;
        inlet = t.inlet;
        let e = t.event;
        match e {
            Event::Nothing => {}
            Event::Bad => {
                let reader = inlet.reader;
                let k = put_bad(out, at, reader);
                return standing(tanks, inlet, side, k, true);
            }
            Event::Call => {
                let call = t.call;
                let who = side.party;
                let kind = kind_of(who, call);
                match kind {
                    Kind::Asks => {
                        at = told(tanks, who, call, out, at);
                    }
                    Kind::Looks(look) => {
                        let n = call.numbers;
                        let u = tanks::place(n[0]);
                        let heads = tanks.heads;
                        let pool = tanks.pool;
                        let table = tanks.tables[u];
                        let legend = side.legend;
                        at = at_tank(heads, pool, table, look, legend, who, call, out, at);
                    }
                    Kind::Edits(edit) => {
                        let n = call.numbers;
                        at = editing::edited(&mut tanks, n[0], edit, out, at);
                    }
                    Kind::Other => {
                        let size = t.size;
                        let d = perform(tanks, side, call, &body[..size], out, at);
                        let next = d.tanks;
                        tanks = next;
                        let kept = d.side;
                        side = kept;
                        at = d.at;
                    }
                }
            }
        }
    }
    standing(tanks, inlet, side, at, false)
}

// The end of the input: in the middle of a line, a group or a body it is a bad line.
pub fn closed(s: Tanks, stand: Stand, body: &[u8], out: &mut [u8]) -> Eaten
    requires sound { (Sound s) × Settled stand.side × Fits stand.inlet body.now × (stand.over ≡ false) }
    requires piece_room_in_bounds { piece_room ≤ length out.old }
    ensures { Closes s stand body.now out.old result out.new }
{
    let inlet = stand.inlet;
    let side = stand.side;
    let e = script::inlet_ended(inlet);
    match e {
        Ending::Clean => standing(s, inlet, side, stand.at, true),
        Ending::Cut => {
            let r = inlet.reader;
            let k = put_bad(out, stand.at, r);
            standing(s, inlet, side, k, true)
        }
    }
}

// Reads what has come on standard input, as much as there is room for, and waits where nothing has; answers how many bytes that were. At the end of
// the input there are none, and so where it can't be read, or where answers were lost.
pub fn heard(input: Stdin, good: bool, buf: &mut [u8]) -> usize
    ensures { result ≤ length buf.new }
{
    if !good {
        return 0;
    }
    let mut from = input;
    match from.read(buf) {
        Ok(n) => n,
        Err(_) => 0,
    }
}

// One read from standard input; the end of it where answers were lost.
fn turn(input: Stdin, good: bool, s: Tanks, stand: Stand, body: &mut [u8], out: &mut [u8]) -> Eaten
    requires sound { (Sound s) × Settled stand.side × Fits stand.inlet body.old × (stand.over ≡ false) }
    requires most_body_in_bounds { (most_body ≤ length body.old) × (piece_room ≤ length out.old) }
    ensures { Reads s stand body.old out.old result body.new out.new }
{
    let mut buf = io::large_buffer();
    let n = heard(input, good, &mut buf);
    if n == 0 {
        return closed(s, stand, body, out);
    }
    eat(&buf[..n], s, stand, body, out)
}

// All of the input: the count of turns is one that no run uses up. The answers to what was read are written before more is read; where they
// can't be, no more is read, and the run ends.
fn all(input: Stdin, s: Tanks, first: Inlet, kept: Side, body: &mut [u8], out: &mut [u8]) -> Eaten
    requires sound { (Sound s) × Settled kept × Fits first body.old }
    requires most_body_in_bounds { (most_body ≤ length body.old) × (piece_room ≤ length out.old) }
    ensures { Runs s first kept body.old out.old result body.new out.new }
{
    let mut tanks = s;
    let mut inlet = first;
    let mut side = kept;
    let mut good = true;
    for _ in 0..u64::MAX {
        let e = turn(input, good, tanks, fresh(inlet, side), body, out);
        let next = e.tanks;
        tanks = next;
        let after = e.stand;
        script::hand_over(out, after.at, &mut good);
        let more = after.inlet;
        inlet = more;
        let keeps = after.side;
        side = keeps;
        if after.over {
            return standing(tanks, inlet, side, 0, true);
        }
    }
    standing(tanks, inlet, side, 0, false)
}

// Room for the body of a call.
pub fn body_room() -> [u8; 131072]
    ensures { most_body ≡ length result }
{
    [0; 131072]
}

// Reads calls from standard input to its end, and writes their answers to standard output; answers where that led. Before
// the first `open` the state is that of eight pairs (1, 1), and nothing is kept beside it.
pub fn run(input: Stdin) -> Eaten
    ensures { RunsWhole result }
{
    let mut body = body_room();
    let mut out = io::large_buffer();
    let o = tanks::open([Setting { share: 1, limit: 1 }; 8]);
    let s = o.tanks;
    all(
        input,
        s,
        script::begin_inlet(),
        empty(),
        &mut body,
        &mut out,
    )
}
