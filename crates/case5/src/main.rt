// Prints document 01's case 5 before the insert, whole tank.
#![tactic(auto)]

use styles::{Mark, Party, Value};
use tanks::Setting;

fn mark(key: u16, lamport: u32, peer: u64) -> Mark {
    Mark {
        key,
        flags: 132,
        party: Party::Plant,
        lamport,
        cnt: 0,
        peer,
        value: Value::Null,
    }
}

fn main() {
    let opened = tanks::open([Setting {
        share: 40,
        limit: 200,
    }; 8]);
    let mut s = opened.tanks;
    let _first = s.annotate(0, 10, 20, mark(1, 5, 1));
    let _second = s.annotate(0, 15, 25, mark(2, 3, 1));
    let mut out = io::large_buffer();
    let k = clerk::whole(s, Party::Plant, 0, 1536, &mut out, 0);
    let mut good = true;
    script::hand_over(&out, k, &mut good);
}
