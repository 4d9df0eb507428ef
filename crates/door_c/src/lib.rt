// What C links: each function of the door under the same name and with the same clauses. `bindings/c/mavelino.h` declares them.
#![tactic(auto)]

ghost use Rattle.std.specs.Prelude.{◌≡◌, length};
ghost use Rattle.saved.specs.Writes.{most_bytes};
ghost use Rattle.door.specs.Door as meant;
ghost use Rattle.door.specs.Door.{Begins, RunsScript, FeedsLog, most_answers};

// The saved text of eight fresh tanks with the settings of a text.
#[unsafe(no_mangle)]
pub extern "C" fn mavelino_begin(settings: &[u8], next: &mut [u8], report: &mut [u64; 7]) -> u64
    ensures { Begins settings.now next.old result next.new report.new }
{
    door::mavelino_begin(settings, next, report)
}

// The calls of a script on the tanks of a saved text: the next text, and the answers as the console writes them.
#[unsafe(no_mangle)]
pub extern "C" fn mavelino_run(
    text: &[u8],
    calls: &[u8],
    next: &mut [u8],
    answers: &mut [u8],
    report: &mut [u64; 7],
) -> u64
    ensures { RunsScript text.now calls.now next.old answers.old result next.new answers.new report.new }
{
    door::mavelino_run(text, calls, next, answers, report)
}

// A piece of the boxes' log, from the start of a group on, on the tanks of a saved text: the next text, and how much of the piece was taken.
#[unsafe(no_mangle)]
pub extern "C" fn mavelino_feed(
    text: &[u8],
    bytes: &[u8],
    next: &mut [u8],
    report: &mut [u64; 7],
) -> u64
    ensures { FeedsLog text.now bytes.now next.old result next.new report.new }
{
    door::mavelino_feed(text, bytes, next, report)
}

// No saved text has more bytes.
#[unsafe(no_mangle)]
pub extern "C" fn mavelino_text_most() -> u64
    ensures { result ≡ most_bytes }
{
    door::mavelino_text_most()
}

// No more bytes of answers come from a run.
#[unsafe(no_mangle)]
pub extern "C" fn mavelino_answers_most() -> u64
    ensures { result ≡ most_answers }
{
    door::mavelino_answers_most()
}

// How many numbers a report has.
#[unsafe(no_mangle)]
pub extern "C" fn mavelino_report_size() -> u64
    ensures { result ≡ length (meant.report_of (meant.wrong 0 0)) }
{
    door::mavelino_report_size()
}
