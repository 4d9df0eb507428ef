// Call scripts on standard input, answers on standard output; with the argument --explain, beside them on standard error why a call was refused
// and what is wrong with a line; with --help the page of use.
#![tactic(auto)]

ghost use Rattle.std.specs.Prelude.{◌≤◌, length};

use std::rt::Env;

fn say(good: &mut bool, text: &[u8]) {
    script::hand_over(text, text.len(), good);
}

fn page_1(good: &mut bool) {
    say(
        good,
        b"console: calls of the tank map on standard input, answers on standard output\n",
    );
    say(good, b"\n");
}

fn page_2(good: &mut bool) {
    say(
        good,
        b"  console < SCRIPT            answers the calls of a script\n",
    );
    say(
        good,
        b"  console --explain < SCRIPT  does so, and says on standard error why a call is refused and what is wrong with a line\n",
    );
    say(good, b"  console --help              prints this page\n");
    say(good, b"\n");
}

fn page_3(good: &mut bool) {
    say(
        good,
        b"A script is groups of lines. A group is the line op=NAME and then the op's fields, one to a line, in the order below, each\n",
    );
    say(
        good,
        b"line ended by one newline. A line has at most 64 bytes before its newline. The script is read to its end.\n",
    );
    say(good, b"\n");
}

fn page_4(good: &mut bool) {
    say(good, b"  op                      fields\n");
    say(
        good,
        b"  open                    share0 limit0 share1 limit1 share2 limit2 share3 limit3\n",
    );
    say(
        good,
        b"                          share4 limit4 share5 limit5 share6 limit6 share7 limit7\n",
    );
    say(
        good,
        b"  annotate                tank start end key lamport peer cnt flags kind value\n",
    );
    say(good, b"  insert                  tank at len\n");
    say(good, b"  delete                  tank start end\n");
    say(
        good,
        b"  remove                  tank key lamport peer last\n",
    );
    say(good, b"  length, touched, runs   tank\n");
    say(good, b"  value                   tank at key\n");
    say(good, b"  has_key                 tank start end key\n");
    say(
        good,
        b"  all_value               tank start end key kind value\n",
    );
    say(good, b"  same                    tank start end\n");
    say(good, b"  marks, inherit          tank at\n");
    say(good, b"  mark, inherited         tank at rank\n");
    say(good, b"  stretches               tank start end room\n");
    say(good, b"  stretches_needed        tank start end\n");
    say(good, b"  whole                   tank room\n");
    say(good, b"  whole_needed            tank\n");
    say(good, b"  anchors                 tank room\n");
    say(good, b"  find                    tank at\n");
    say(good, b"  age                     tank before budget\n");
    say(
        good,
        b"  settings                bytes, and behind that line so many bytes\n",
    );
    say(good, b"  set, open_set           number\n");
    say(
        good,
        b"  log                     bytes, and behind that line so many bytes\n",
    );
    say(good, b"  log_end                 none\n");
    say(good, b"  range                   start end\n");
    say(good, b"  plan, propose           tank hold runs\n");
    page_strip(good);
}

fn page_strip(good: &mut bool) {
    say(good, b"  legend                  place key letter\n");
    say(good, b"  strip                   tank start k room\n");
    say(good, b"  party                   party\n");
    say(good, b"  save                    room\n");
    say(good, b"  save_needed             none\n");
    say(
        good,
        b"  restore                 bytes, and behind that line so many bytes\n",
    );
    say(good, b"\n");
}

fn page_5(good: &mut bool) {
    say(
        good,
        b"A number is a decimal without leading zeros: a key and a hold have 16 bits, a lamport 32, flags 8, all others 64. A cnt has 32 and\n",
    );
    say(
        good,
        b"a sign. A kind is null, bool, whole or decimal. The value then is empty, 0 or 1, a signed number of 64 bits, or the sixteen\n",
    );
    say(
        good,
        b"lower-case hexadecimal digits of the bits of an f64. A sign is a minus or nothing, and there is no -0. A place is 0 to 7, a\n",
    );
    say(
        good,
        b"letter any one byte, a party plant or lab. A room is how many numbers (stretches, whole), records (anchors) or bytes (strip, save) the\n",
    );
    say(
        good,
        b"answer may take; the program has room for the longest there is.\n",
    );
    say(good, b"\n");
}

fn page_6(good: &mut bool) {
    say(
        good,
        b"Before the first open, each of the eight tanks has share 1 and limit 1. An open replaces them, refused or not.\n",
    );
    say(
        good,
        b"The bytes behind settings are a text of 17 lines, version=1, share0=N, limit0=N and on to limit7=N, at most 131072 in all. The\n",
    );
    say(
        good,
        b"last four that were good are kept; open_set opens with one of them.\n",
    );
    say(
        good,
        b"The bytes behind log are one read of a log, which is groups of annotate, insert and delete as above, cut anywhere. Each is\n",
    );
    say(
        good,
        b"applied when its last newline comes; the first bad line or refused edit stops the log. log_end ends it; the next log is a new one.\n",
    );
    page_plans(good);
    page_legend(good);
    page_party(good);
}

fn page_legend(good: &mut bool) {
    say(
        good,
        b"A strip is 96 cells of k positions each, from start on. A cell has the letter of the first key of the legend, by its place, that\n",
    );
    say(
        good,
        b"shows a value somewhere in it, else a dot. Place i has key i and the digit i until a legend says otherwise.\n",
    );
}

fn page_party(good: &mut bool) {
    say(
        good,
        b"party says as whom the calls that follow are made: the plant, which it is at first, or the laboratory. An annotate and a remove\n",
    );
    say(
        good,
        b"are of that party's marks, and every question and list shows those alone. Length, touched, runs and propose are alike for both,\n",
    );
    say(
        good,
        b"a log and a strip are the plant's, and the laboratory neither inserts, deletes, plans nor ages.\n",
    );
    page_texts(good);
}

fn page_texts(good: &mut bool) {
    say(
        good,
        b"save answers the settings and all tanks as a text, of version 3; restore takes such a text, of version 1, 2 or 3, in place of all\n",
    );
    say(
        good,
        b"tanks and their settings, or refuses it and changes nothing.\n",
    );
    say(good, b"\n");
}

fn page_plans(good: &mut bool) {
    say(
        good,
        b"range puts a range behind those that are pending, at most 32; plan submits them, to go from a tank so that it holds at most runs\n",
    );
    say(
        good,
        b"runs and nothing with the key hold goes: all of them or none, and none is pending then. propose answers a plan that would be\n",
    );
    say(
        good,
        b"accepted, the oldest positions first and no more than needed.\n",
    );
}

fn page_7(good: &mut bool) {
    say(good, b"  answer to               lines\n");
    say(good, b"  a call that is refused  refused=N\n");
    say(good, b"  open, annotate, delete, accepted=1\n");
    say(good, b"    open_set, plan, legend,\n");
    say(good, b"    party, restore\n");
    say(
        good,
        b"  insert, same, marks,    marks=N, and for each mark key= lamport= peer= cnt= flags= kind= value=\n",
    );
    say(good, b"    inherit\n");
    say(
        good,
        b"  mark, inherited         key= lamport= peer= cnt= flags= kind= value=\n",
    );
    say(good, b"  value                   kind= value=\n");
    say(
        good,
        b"  same, mark, inherited,  none=1, where there is none\n",
    );
    say(good, b"    value, set, open_set,\n");
    say(good, b"    propose\n");
    say(good, b"  has_key, all_value      yes=1 or yes=0\n");
    say(good, b"  remove                  first=N\n");
    say(
        good,
        b"  length, touched, runs   length=N; touched=0 or touched=1; runs=N\n",
    );
    say(
        good,
        b"  stretches, whole        tank=N, and for each stretch from= to= marks=\n",
    );
    say(
        good,
        b"  stretches_needed,       needed=N, the numbers that the list takes, three a stretch\n",
    );
    say(good, b"    whole_needed,         or bytes of the text\n");
    say(good, b"    save_needed\n");
    say(
        good,
        b"  anchors                 anchors=N, and for each record at= side=start or side=end, key= lamport= peer=\n",
    );
    say(
        good,
        b"  find                    first=N last=N, the ends of the stretch that the position is in\n",
    );
    say(
        good,
        b"  age                     dropped=N remaining=N, the stretches that went and what is left of before\n",
    );
    page_settings(good);
    say(good, b"\n");
}

fn page_settings(good: &mut bool) {
    say(
        good,
        b"  settings                set=N, its number from 1 on; refused=12 and line=L, its first bad line\n",
    );
    say(
        good,
        b"  set                     share0= limit0= and on to limit7=\n",
    );
    say(
        good,
        b"  log, log_end            applied=N, the edits so far, then lines=N, the lines so far, or where it stopped refused=R and line=L\n",
    );
    say(
        good,
        b"  range                   ranges=N, how many are pending\n",
    );
    say(
        good,
        b"  propose                 ranges=N, and for each range start= end=\n",
    );
    say(
        good,
        b"  strip                   strip= and its 96 letters and dots\n",
    );
    say(
        good,
        b"  save                    bytes=N, and then the text's N bytes and nothing behind them\n",
    );
    say(
        good,
        b"  restore, refused        refused=13 and line=L, its first wrong line\n",
    );
}

fn page_8(good: &mut bool) {
    say(
        good,
        b"Each of these is a line of its own. A line that is none of the above ends the run with malformed=LINE, counted from 1; so\n",
    );
    say(
        good,
        b"does a script that ends inside a line, a group or the bytes behind one.\n",
    );
    say(good, b"\n");
}

// Writes a refusal's number and its words, with a blank more in front of a number of one digit.
fn put_row(good: &mut bool, row: &mut [u8], number: u64)
    requires { 80 ≤ length row.old }
{
    let lead: &[u8] = if number < 10 { b"   " } else { b"  " };
    let a = text::put(row, 0, lead);
    let b = text::put_decimal(row, a, number);
    let c = text::put(row, b, b"  ");
    let d = refusals::put_words(row, c, number);
    let e = text::put(row, d, b"\n");
    script::hand_over(row, e, good);
}

fn say_refusal(good: &mut bool, number: u64) {
    let mut row = [0u8; 80];
    put_row(good, &mut row, number);
}

fn page_9(good: &mut bool) {
    say(good, b"A refusal is a number, the same for all calls:\n");
    for number in 1..=18 {
        say_refusal(good, number);
    }
    say(good, b"\n");
}

fn page_10(good: &mut bool) {
    say(
        good,
        b"Example: a script on the left, its answers on the right\n",
    );
    say(good, b"\n");
}

fn page_11(good: &mut bool) {
    say(good, b"  op=insert               marks=0\n");
    say(good, b"  tank=0\n");
    say(good, b"  at=0\n");
    say(good, b"  len=3\n");
    say(good, b"  op=touched              touched=0\n");
    say(good, b"  tank=0\n");
}

fn page(good: &mut bool) {
    page_1(good);
    page_2(good);
    page_3(good);
    page_4(good);
    page_5(good);
    page_6(good);
    page_7(good);
    page_8(good);
    page_9(good);
    page_10(good);
    page_11(good);
}

// Is the first argument this word?
fn asks_for(rt: HostRuntime, word: &[u8]) -> bool {
    let mut first = io::buffer();
    match rt.arg(1, &mut first) {
        Ok(n) => &first[..n] == word,
        Err(_) => false,
    }
}

fn main(rt: HostRuntime) {
    if asks_for(rt, b"--help") {
        let mut good = true;
        page(&mut good);
        return;
    }
    if asks_for(rt, b"--explain") {
        explain::run(rt.stdin());
        return;
    }
    clerk::run(rt.stdin());
}
