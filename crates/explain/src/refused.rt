// A refused call in words.
ghost use Rattle.std.specs.Prelude.{◌+◌, ◌≤◌, length};
ghost use Rattle.script.specs.Grammar.{row_at};
ghost use Rattle.script.specs.Writing.{Puts};
ghost use Rattle.explain.specs.Told.{head_text, tank_text, refused_text, refusal_text};

use script::Call;

// Puts which line is spoken of.
pub fn put_head(out: &mut [u8], at: usize, line: u64) -> usize
    requires { at + 27 ≤ length out.old }
    ensures { Puts out.old at (head_text line) 27 result out.new }
{
    let a = text::put(out, at, b"line ");
    let b = text::put_decimal(out, a, line);
    text::put(out, b, b": ")
}

fn put_op(out: &mut [u8], at: usize, row: usize) -> usize
    requires { at + 16 ≤ length out.old }
    ensures { Puts out.old at (row_at row).name 16 result out.new }
{
    script::put_name(out, at, script::op_name(row))
}

// Puts the tank of a call whose first field is one.
fn put_tank(out: &mut [u8], at: usize, call: Call) -> usize
    requires { at + 26 ≤ length out.old }
    ensures { Puts out.old at (tank_text call) 26 result out.new }
{
    let n = call.numbers;
    let first = script::field_name(script::field_at(call.row, 0));
    if script::is_name(b"tank=", first) {
        let a = text::put(out, at, b" tank ");
        return text::put_decimal(out, a, n[0]);
    }
    text::put(out, at, b"")
}

fn put_refused(out: &mut [u8], at: usize, number: u64) -> usize
    requires { at + 81 ≤ length out.old }
    ensures { Puts out.old at (refused_text number) 81 result out.new }
{
    let a = text::put(out, at, b": refused ");
    let b = text::put_decimal(out, a, number);
    let c = text::put(out, b, b", ");
    let d = refusals::put_words(out, c, number);
    text::put(out, d, b"\n")
}

// Puts what is said of a refused call.
pub fn put_refusal(out: &mut [u8], at: usize, line: u64, call: Call, number: u64) -> usize
    requires { at + 150 ≤ length out.old }
    ensures { Puts out.old at (refusal_text line call number) 150 result out.new }
{
    let a = put_head(out, at, line);
    let b = put_op(out, a, call.row);
    let c = put_tank(out, b, call);
    put_refused(out, c, number)
}
