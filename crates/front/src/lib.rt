// What a caller knows of a buffer of which a part is handed back. `front` does what `ask::iter` does, with nothing else around it: its
// contract says what the part holds and where it begins, and can say nothing of the rest while the part is lent. `first_of` is the way out:
// it lends no more than the part, so that the rest is its own and stays, whatever the callee does.
#![tactic(auto)]

ghost use Rattle.std.specs.Prelude.{◌≡◌, ◌≤◌, length, take, drop};

// The first k numbers.
pub fn front(s: &mut [u64], k: usize) -> &mut [u64]
    requires { k ≤ length s.old }
    ensures { (result.now ≡ take k s.old) × (result.ref_ptr ≡ s.entry.ref_ptr) }
{
    &mut s[..k]
}

// The first number of the part, 0 where it is empty; what stands behind the part is as it was.
pub fn first_of(out: &mut [u64], n: usize) -> u64
    requires { n ≤ length out.old }
    ensures { drop n out.new ≡ drop n out.old }
{
    let part = front(&mut out[..n], n);
    if 0 < part.len() {
        return part[0];
    }
    0
}
