// Calls that ask for a number, a yes or no, a value, a mark, a set or a stretch.
ghost use Rattle.std.specs.Prelude.{◌≡◌, ◌≤◌, length};
ghost use Rattle.script.specs.declared.Question as questions;
ghost use Rattle.styles.specs.declared.Party.TheVariants.{Plant};
ghost use Rattle.tanks.specs.Pool.{Sound, meaning};
ghost use Rattle.answers.specs.Waiting.{Adds, piece_room};
ghost use Rattle.ask.specs.Parts.{CanAsk};
ghost use Rattle.clerk.specs.Calls.{tank_for, answer_says, look_says, question_kind};

use super::{Kind, Look};
use answers::{
    put_asked, put_count, put_extent, put_proposal, put_set_asked, put_shared, put_shown, put_told,
    put_touched,
};
use ask::parts;
use script::{Call, Question, key_of};
use styles::Party;
use tanks::{Head, Run, Table, Tanks};

// Length, touched and runs are told alike to both parties, and so is a proposal.
pub fn length(s: Tanks, call: Call, out: &mut [u8], at: usize) -> usize
    requires sound { Sound s }
    requires piece_room_in_bounds { piece_room ≤ length out.old }
    ensures { Adds out.old at (answer_says questions.Question.Length (meaning s) Plant call) result out.new }
{
    let n = call.numbers;
    put_count(out, at, b"length=", s.length(n[0]))
}

pub fn touched(s: Tanks, call: Call, out: &mut [u8], at: usize) -> usize
    requires sound { Sound s }
    requires piece_room_in_bounds { piece_room ≤ length out.old }
    ensures { Adds out.old at (answer_says questions.Question.Touched (meaning s) Plant call) result out.new }
{
    let n = call.numbers;
    put_touched(out, at, s.has_style(n[0]))
}

pub fn runs(s: Tanks, call: Call, out: &mut [u8], at: usize) -> usize
    requires sound { Sound s }
    requires piece_room_in_bounds { piece_room ≤ length out.old }
    ensures { Adds out.old at (answer_says questions.Question.Runs (meaning s) Plant call) result out.new }
{
    let n = call.numbers;
    put_count(out, at, b"runs=", s.runs(n[0]))
}

fn value(
    heads: [Head; 8],
    pool: [Run; 512],
    table: Table,
    who: Party,
    call: Call,
    out: &mut [u8],
    at: usize,
) -> usize
    requires can_ask { CanAsk heads pool table (tank_for call) }
    requires piece_room_in_bounds { piece_room ≤ length out.old }
    ensures { Adds out.old at (look_says questions.Question.Value heads pool table who call) result out.new }
{
    let n = call.numbers;
    let key = key_of(n[2]);
    let v = parts::value_at(heads, pool, table, n[0], who, n[1], key);
    put_shown(out, at, v)
}

fn has_key(
    heads: [Head; 8],
    pool: [Run; 512],
    table: Table,
    who: Party,
    call: Call,
    out: &mut [u8],
    at: usize,
) -> usize
    requires can_ask { CanAsk heads pool table (tank_for call) }
    requires piece_room_in_bounds { piece_room ≤ length out.old }
    ensures { Adds out.old at (look_says questions.Question.HasKey heads pool table who call) result out.new }
{
    let n = call.numbers;
    let key = key_of(n[3]);
    let t = parts::range_contains_key(heads, pool, table, n[0], who, n[1], n[2], key);
    put_told(out, at, t)
}

fn all_value(
    heads: [Head; 8],
    pool: [Run; 512],
    table: Table,
    who: Party,
    call: Call,
    out: &mut [u8],
    at: usize,
) -> usize
    requires can_ask { CanAsk heads pool table (tank_for call) }
    requires piece_room_in_bounds { piece_room ≤ length out.old }
    ensures { Adds out.old at (look_says questions.Question.AllValue heads pool table who call) result out.new }
{
    let n = call.numbers;
    let key = key_of(n[3]);
    let v = call.value;
    let t = parts::range_has_key_value(heads, pool, table, n[0], who, n[1], n[2], key, v);
    put_told(out, at, t)
}

fn same(
    heads: [Head; 8],
    pool: [Run; 512],
    table: Table,
    who: Party,
    call: Call,
    out: &mut [u8],
    at: usize,
) -> usize
    requires can_ask { CanAsk heads pool table (tank_for call) }
    requires piece_room_in_bounds { piece_room ≤ length out.old }
    ensures { Adds out.old at (look_says questions.Question.Same heads pool table who call) result out.new }
{
    let n = call.numbers;
    let m = parts::get_styles_of_range(heads, pool, table, n[0], who, n[1], n[2]);
    put_shared(out, at, m)
}

fn marks(
    heads: [Head; 8],
    pool: [Run; 512],
    table: Table,
    who: Party,
    call: Call,
    out: &mut [u8],
    at: usize,
) -> usize
    requires can_ask { CanAsk heads pool table (tank_for call) }
    requires piece_room_in_bounds { piece_room ≤ length out.old }
    ensures { Adds out.old at (look_says questions.Question.Marks heads pool table who call) result out.new }
{
    let n = call.numbers;
    let m = parts::styles_at(heads, pool, table, n[0], who, n[1]);
    put_set_asked(out, at, m)
}

fn inherit(
    heads: [Head; 8],
    pool: [Run; 512],
    table: Table,
    who: Party,
    call: Call,
    out: &mut [u8],
    at: usize,
) -> usize
    requires can_ask { CanAsk heads pool table (tank_for call) }
    requires piece_room_in_bounds { piece_room ≤ length out.old }
    ensures { Adds out.old at (look_says questions.Question.Inherit heads pool table who call) result out.new }
{
    let n = call.numbers;
    let m = parts::get_styles_for_insert(heads, pool, table, n[0], who, n[1]);
    put_set_asked(out, at, m)
}

fn mark(
    heads: [Head; 8],
    pool: [Run; 512],
    table: Table,
    who: Party,
    call: Call,
    out: &mut [u8],
    at: usize,
) -> usize
    requires can_ask { CanAsk heads pool table (tank_for call) }
    requires piece_room_in_bounds { piece_room ≤ length out.old }
    ensures { Adds out.old at (look_says questions.Question.Mark heads pool table who call) result out.new }
{
    let n = call.numbers;
    let m = parts::style_at(heads, pool, table, n[0], who, n[1], n[2]);
    put_asked(out, at, m)
}

fn inherited(
    heads: [Head; 8],
    pool: [Run; 512],
    table: Table,
    who: Party,
    call: Call,
    out: &mut [u8],
    at: usize,
) -> usize
    requires can_ask { CanAsk heads pool table (tank_for call) }
    requires piece_room_in_bounds { piece_room ≤ length out.old }
    ensures { Adds out.old at (look_says questions.Question.Inherited heads pool table who call) result out.new }
{
    let n = call.numbers;
    let m = parts::style_for_insert(heads, pool, table, n[0], who, n[1], n[2]);
    put_asked(out, at, m)
}

fn find(
    heads: [Head; 8],
    pool: [Run; 512],
    table: Table,
    who: Party,
    call: Call,
    out: &mut [u8],
    at: usize,
) -> usize
    requires can_ask { CanAsk heads pool table (tank_for call) }
    requires piece_room_in_bounds { piece_room ≤ length out.old }
    ensures { Adds out.old at (look_says questions.Question.Find heads pool table who call) result out.new }
{
    let n = call.numbers;
    let e = parts::stretch_at(heads, pool, table, n[0], who, n[1]);
    put_extent(out, at, e)
}

// A question of one tank, asked of the parts of a state that it stands in; the others are not among these.
pub fn looked(
    heads: [Head; 8],
    pool: [Run; 512],
    table: Table,
    q: Question,
    who: Party,
    call: Call,
    out: &mut [u8],
    at: usize,
) -> usize
    requires can_ask { CanAsk heads pool table (tank_for call) }
    requires piece_room_in_bounds { piece_room ≤ length out.old }
    ensures { Adds out.old at (look_says q heads pool table who call) result out.new }
{
    match q {
        Question::Length => at,
        Question::Touched => at,
        Question::Runs => at,
        Question::Value => value(heads, pool, table, who, call, out, at),
        Question::HasKey => has_key(heads, pool, table, who, call, out, at),
        Question::AllValue => all_value(heads, pool, table, who, call, out, at),
        Question::Same => same(heads, pool, table, who, call, out, at),
        Question::Marks => marks(heads, pool, table, who, call, out, at),
        Question::Inherit => inherit(heads, pool, table, who, call, out, at),
        Question::Mark => mark(heads, pool, table, who, call, out, at),
        Question::Inherited => inherited(heads, pool, table, who, call, out, at),
        Question::Find => find(heads, pool, table, who, call, out, at),
        Question::Propose => at,
    }
}

// What a question is: asked of one tank where it stands, or of the state.
pub fn question_kind(q: Question) -> Kind
    ensures { result ≡ question_kind q }
{
    match q {
        Question::Length => Kind::Asks,
        Question::Touched => Kind::Asks,
        Question::Runs => Kind::Asks,
        Question::Value => Kind::Looks(Look::Question(Question::Value)),
        Question::HasKey => Kind::Looks(Look::Question(Question::HasKey)),
        Question::AllValue => Kind::Looks(Look::Question(Question::AllValue)),
        Question::Same => Kind::Looks(Look::Question(Question::Same)),
        Question::Marks => Kind::Looks(Look::Question(Question::Marks)),
        Question::Inherit => Kind::Looks(Look::Question(Question::Inherit)),
        Question::Mark => Kind::Looks(Look::Question(Question::Mark)),
        Question::Inherited => Kind::Looks(Look::Question(Question::Inherited)),
        Question::Find => Kind::Looks(Look::Question(Question::Find)),
        Question::Propose => Kind::Asks,
    }
}

// A plan that would be accepted.
pub fn propose(s: Tanks, call: Call, out: &mut [u8], at: usize) -> usize
    requires sound { Sound s }
    requires piece_room_in_bounds { piece_room ≤ length out.old }
    ensures { Adds out.old at (answer_says questions.Question.Propose (meaning s) Plant call) result out.new }
{
    let n = call.numbers;
    let p = night::propose(s, n[0], key_of(n[1]), n[2]);
    put_proposal(out, at, p)
}
