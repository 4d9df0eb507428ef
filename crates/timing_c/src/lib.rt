// What the benchmark links: the sums of `timing` under the same name and with the same clause.
#![tactic(auto)]

ghost use Rattle.std.specs.Prelude.{◌≡◌, ◌%◌};
ghost use Rattle.timing.specs.Work as rules;

// The sum of a work, from 0 to 15, over so many turns on a tank of so many runs and marks; any other number answers 0. The tank's number counts
// modulo 8, and what keys are counted from modulo 32,768.
#[unsafe(no_mangle)]
pub extern "C" fn timing(work: u64, tank: u64, base: u64, runs: u64, marks: u64, turns: u64) -> u64
    ensures { result ≡ rules.timed work (tank % 8) (base % 32768) (rules.sized runs) (rules.marked marks) turns }
{
    timing::timing(work, tank, base, runs, marks, turns)
}
