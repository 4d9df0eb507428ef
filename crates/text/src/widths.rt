// Narrower numbers as 64 bits. A parameter is known to fit its type, so that the cast of one asks for no proof.
ghost use Rattle.std.specs.Prelude.{◌≡◌, ◌<◌};

pub fn wide8(n: u8) -> u64
    ensures { (result ≡ n) × (result < 256) }
{
    n as u64
}

pub fn wide16(n: u16) -> u64
    ensures { result ≡ n }
{
    n as u64
}

pub fn wide32(n: u32) -> u64
    ensures { result ≡ n }
{
    n as u64
}

pub fn wide_signed(n: i32) -> i64
    ensures { result ≡ n }
{
    n as i64
}

pub fn wide(n: usize) -> u64
    ensures { result ≡ n }
{
    n as u64
}
