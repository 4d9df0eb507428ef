// The mark and the identity that a call which was read whole speaks of.
ghost use Rattle.std.specs.Prelude.{◌≡◌, ◌%◌, ◌^◌};
ghost use Rattle.script.specs.Args.{party_by, mark_of, identity_of};

use super::Call;
use styles::{Identity, Mark, Party};

fn low8(x: u64) -> u8
    ensures { result ≡ x % 2 ^ 8 }
{
    (x % 256) as u8
}

// A key that was read.
pub fn key_of(x: u64) -> u16
    ensures { result ≡ x % 2 ^ 16 }
{
    (x % 65536) as u16
}

fn low32(x: u64) -> u32
    ensures { result ≡ x % 2 ^ 32 }
{
    (x % 4294967296) as u32
}

// A party that was read.
pub fn party_of(x: u64) -> Party
    ensures { result ≡ party_by x }
{
    if x == 0 {
        return Party::Plant;
    }
    Party::Lab
}

// The mark of an annotate by a party. A number that was read is in its field's width, so none of its bits is left out.
pub fn mark_of(who: Party, call: Call) -> Mark
    ensures { result ≡ mark_of who call }
{
    let n = call.numbers;
    let v = call.value;
    Mark {
        key: key_of(n[3]),
        flags: low8(n[7]),
        party: who,
        lamport: low32(n[4]),
        cnt: call.cnt,
        peer: n[5],
        value: v,
    }
}

// The identity of a remove by a party.
pub fn identity_of(who: Party, call: Call) -> Identity
    ensures { result ≡ identity_of who call }
{
    let n = call.numbers;
    Identity {
        party: who,
        key: key_of(n[1]),
        lamport: low32(n[2]),
        peer: n[3],
    }
}
