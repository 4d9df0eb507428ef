// The lines of a tank's runs.
ghost use Rattle.std.specs.Prelude.{◌≡◌, min, ◌+◌, ◌^◌, ◌≤◌, ◌<◌, length, replicate};
ghost use Rattle.saved.specs.Reads.{ReadsRun, ReadsRuns};

use super::ReadRuns;

// A sum of lengths, as far as it matters: 2^63 and more are past every tank's length.
fn capped(a: u64, b: u64) -> u64
    ensures { result ≡ min (2 ^ 63) (a + b) }
{
    a.saturating_add(b).min(9223372036854775808)
}

// The two lines of a run, behind n lines and a run with that set.
fn run_lines(
    bytes: &[u8],
    from: usize,
    n: u64,
    most: u64,
    before: Option<u64>,
) -> Result<(u64, u64, usize), u64>
    requires { (n < 2 ^ 32) × (from ≤ length bytes.now) }
    ensures { ReadsRun before most bytes.now from n result }
{
    let Some((len, next)) = text_lines::number(bytes, from, b"len=", 1, 18446744073709551615) else {
        return Err(n + 1);
    };
    let Some((set, last)) = text_lines::digits(bytes, next, b"set=", 0, most) else {
        return Err(n + 2);
    };
    if Some(set) != before {
        return Ok((len, set, last));
    }
    Err(n + 2)
}

fn wrong_runs(line: u64) -> ReadRuns
    ensures { result ≡ record { line = line; at = 0; sum = 0; all = 0; lens = replicate 514 0; sets = replicate 514 0 } }
{
    ReadRuns {
        line: line,
        at: 0,
        sum: 0,
        all: 0,
        lens: [0; 514],
        sets: [0; 514],
    }
}

// The lines of so many runs from a place on, behind n lines.
pub fn runs_lines(bytes: &[u8], from: usize, n: u64, count: usize, most: u64) -> ReadRuns
    requires { (n < 2 ^ 31) × (count ≤ 512) × (from ≤ length bytes.now) }
    ensures { ReadsRuns most bytes.now from n count result }
{
    let mut lens = [0u64; 514];
    let mut sets = [0u64; 514];
    let mut at = from;
    let mut before = None;
    let mut sum = 0;
    let mut all = 0;
    for j in 0..count {
        match run_lines(bytes, at, n + 2 * text::wide(j), most, before) {
            Err(line) => {
                return wrong_runs(line);
            }
            Ok((len, set, next)) => {
                lens[j] = len;
                sets[j] = set;
                at = next;
                before = Some(set);
                sum = capped(sum, len);
                all = set | all;
            }
        }
    }
    ReadRuns {
        line: 0,
        at: at,
        sum: sum,
        all: all,
        lens: lens,
        sets: sets,
    }
}
