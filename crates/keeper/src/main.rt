// The keeper: tanks in a file, a log taken into it, and answers. Which command a word names, what is written after which read, and what show and
// picture print stands in libraries; here are the files themselves, the arguments and the messages.
#![tactic(auto)]

mod words; // words.rt: what is said
mod files; // files.rt: files read whole and replaced whole
mod kept; // kept.rt: STATE
mod arguments; // arguments.rt: the command, its options and its files
mod feeding; // feeding.rt: a log that is a file
mod arriving; // arriving.rt: a log on standard input
mod calling; // calling.rt: a script of calls
mod merging; // merging.rt: logs, all or nothing
mod moving; // moving.rt: STATE made, checked, carried from box to box
mod looking; // looking.rt: show and picture, with names
mod refusing; // refusing.rt: a log that stops
mod page; // page.rt: the page of use

ghost use Rattle.std.specs.Prelude.{◌≤◌};

use arguments::Given;
use commands::Command;
use std::rt::Env;
use words::{Complained, complain, not_taken};

// A command on STATE alone, or on logs whose names are taken one after another.
fn on_state(rt: HostRuntime, c: Command, state: &[u8], g: Given) -> Result<(), Complained>
    requires { g.next ≤ 4096 }
{
    let o = g.options;
    match c {
        Command::Check => moving::check(rt, state),
        Command::Export => moving::export(rt, state),
        Command::Show => looking::show(rt, state),
        Command::Picture => looking::picture(rt, state),
        Command::Call => calling::call(rt, state, o.sync),
        Command::Merge => merging::merge(rt, state, g.next + 1, o.trying, o.sync),
        Command::Feed => arriving::feed_input(rt, state, o.afresh, o.sync),
        _ => {
            page::page();
            Ok(())
        }
    }
}

// One on STATE and another file.
fn with_file(
    rt: HostRuntime,
    c: Command,
    state: &[u8],
    file: &[u8],
    g: Given,
) -> Result<(), Complained>
    requires { g.next ≤ 4096 }
{
    let o = g.options;
    match c {
        Command::New => moving::new(rt, state, file, o.sync),
        Command::Import => moving::import(rt, state, file, o.sync),
        Command::Feed => feeding::feed_log(rt, state, file, o.afresh, o.sync),
        _ => on_state(rt, c, state, g),
    }
}

// The second file is named, where there is one: whoever takes logs takes their names itself.
fn with_state(rt: HostRuntime, c: Command, state: &[u8], g: Given) -> Result<(), Complained>
    requires { g.next ≤ 4096 }
{
    if arguments::files(rt, g) < 2 {
        return on_state(rt, c, state, g);
    }
    let mut file = io::buffer();
    match rt.arg(g.next + 1, &mut file) {
        Ok(n) => with_file(rt, c, state, &file[..n], g),
        Err(e) => Err(not_taken(b"the name of the second file", e)),
    }
}

fn carry_out(rt: HostRuntime, c: Command, g: Given) -> Result<(), Complained>
    requires { g.next ≤ 4096 }
{
    let mut state = io::buffer();
    match rt.arg(g.next, &mut state) {
        Ok(n) => with_state(rt, c, &state[..n], g),
        Err(e) => Err(not_taken(b"the name of STATE", e)),
    }
}

fn run(rt: HostRuntime, c: Command) -> Result<(), Complained> {
    if let Command::Help = c {
        page::page();
        return Ok(());
    }
    let g = arguments::read(rt);
    arguments::fine(rt, c, g)?;
    carry_out(rt, c, g)
}

fn main(rt: HostRuntime) {
    let mut word = io::buffer();
    let n = arguments::word_at(rt, 1, &mut word);
    if n == 0 {
        complain(b"no command is named (keeper --help lists them)");
        return;
    }
    // Whatever went wrong has been said by now.
    let _ = run(rt, commands::command_of(&word[..n]));
}
