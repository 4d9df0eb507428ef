// What a log of the edge boxes has come to.
ghost use Rattle.std.specs.Prelude.{◌≤◌, length};
ghost use Rattle.answers.specs.Waiting.{Adds, piece_room};
ghost use Rattle.answers.specs.Replies.{stop_says, report_says};

use super::pieces::{refuse, say};
use day_log::{Log, Stop};

// The lines that were taken, or the refusal and the line where the log stopped.
fn put_stop(out: &mut [u8], at: usize, stop: Stop, lines: u64) -> usize
    requires { piece_room ≤ length out.old }
    ensures { Adds out.old at (stop_says stop lines) result out.new }
{
    match stop {
        Stop::Going => say(out, at, b"lines=", lines),
        Stop::Refused(line, number) => {
            let k = refuse(out, at, number);
            say(out, k, b"line=", line)
        }
    }
}

// How many edits were applied, and where the log stands.
pub fn put_report(out: &mut [u8], at: usize, log: Log) -> usize
    requires { piece_room ≤ length out.old }
    ensures { Adds out.old at (report_says log) result out.new }
{
    let k = say(out, at, b"applied=", log.edits);
    let stop = log.stop;
    let reader = log.reader;
    put_stop(out, k, stop, reader.newlines)
}
