// The bytes behind the last whole group of a log, which are held until more of it comes.
ghost use Rattle.std.specs.Prelude.{◌≡◌, ◌-◌, ◌≤◌, length};
ghost use Rattle.keeper_file.specs.Holding.{moved_to_front};

// Moves the bytes at .. end to the front, the rest as it was; returns how many they are.
pub fn hold(bytes: &mut [u8], at: usize, end: usize) -> usize
    requires { (at ≤ end) × (end ≤ length bytes.old) }
    ensures value { result ≡ end - at }
    ensures bytes_after { bytes.new ≡ moved_to_front at end bytes.old }
{
    let n = end - at;
    for i in 0..n {
        bytes[i] = bytes[at + i];
    }
    n
}
