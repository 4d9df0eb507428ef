// Calls that change the state and are no edits of the four: each is made with the numbers that were read, and answered.
ghost use Rattle.std.specs.Prelude.{◌≡◌, ◌≤◌, length};
ghost use Rattle.script.specs.declared.Change as changes;
ghost use Rattle.answers.specs.Waiting.{piece_room};
ghost use Rattle.styles.specs.declared.Party.TheVariants.{Plant};
ghost use Rattle.tanks.specs.Pool.{Sound};
ghost use Rattle.clerk.specs.Calls.{Changes, settings_of};

use super::Done;
use answers::{accept, aged_or};
use script::Call;
use styles::Party;
use tanks::{Setting, Tanks};

fn settings(call: Call) -> [Setting; 8]
    ensures { result ≡ settings_of call }
{
    let n = call.numbers;
    let a = Setting {
        share: n[0],
        limit: n[1],
    };
    let b = Setting {
        share: n[2],
        limit: n[3],
    };
    let c = Setting {
        share: n[4],
        limit: n[5],
    };
    let d = Setting {
        share: n[6],
        limit: n[7],
    };
    let e = Setting {
        share: n[8],
        limit: n[9],
    };
    let f = Setting {
        share: n[10],
        limit: n[11],
    };
    let g = Setting {
        share: n[12],
        limit: n[13],
    };
    let h = Setting {
        share: n[14],
        limit: n[15],
    };
    [a, b, c, d, e, f, g, h]
}

pub fn opened(s: Tanks, call: Call, out: &mut [u8], at: usize) -> Done
    requires { piece_room ≤ length out.old }
    ensures { Changes changes.Change.Open s Plant call out.old at result out.new }
{
    let o = tanks::open(settings(call));
    let t = o.tanks;
    let k = accept(out, at, o.number);
    Done { tanks: t, at: k }
}

pub fn aged(s: Tanks, who: Party, call: Call, out: &mut [u8], at: usize) -> Done
    requires sound { Sound s }
    requires piece_room_in_bounds { piece_room ≤ length out.old }
    ensures { Changes changes.Change.Age s who call out.old at result out.new }
{
    let n = call.numbers;
    let e = night::age(s, n[0], who, n[1], n[2]);
    let t = e.tanks;
    let k = aged_or(out, at, e.number, e.dropped, e.remaining);
    Done { tanks: t, at: k }
}
