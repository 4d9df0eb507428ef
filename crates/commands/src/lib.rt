// The keeper's commands: which word is which, how many files each takes, and which options.
#![tactic(auto)]

ghost use Rattle.std.specs.Prelude.{◌≡◌, ◌&&◌, not};
ghost use Rattle.commands.specs.Commands.{reading_of, command_of, is_option, no_options, with_option, rule, rules_of, problem_of};

#[derive(Clone, Copy)]
pub enum Command {
    New,
    Feed,
    Call,
    Merge,
    Show,
    Picture,
    Check,
    Export,
    Import,
    Help,
    Unknown,
}

// What the options ask for, and whether one of them was none.
#[derive(Clone, Copy)]
pub struct Options {
    pub afresh: bool,
    pub sync: bool,
    pub trying: bool,
    pub unknown: bool,
}

// How many files a command takes, and which options.
#[derive(Clone, Copy)]
struct Rules {
    known: bool,
    least: usize,
    most: usize,
    tries: bool,
    starts: bool,
}

// What is wrong with a command, its options and its files.
#[derive(Clone, Copy)]
pub enum Problem {
    NoCommand,
    NoOption,
    TryElsewhere,
    FromStartElsewhere,
    TooFew,
    TooMany,
}

// A command that reads STATE and changes nothing.
#[tactic(auto, unfolding(crate::specs::Commands::reading_of))]
fn reading(word: &[u8]) -> Command
    ensures { result ≡ reading_of word.now }
{
    if text::same(word, b"show") {
        return Command::Show;
    }
    if text::same(word, b"picture") {
        return Command::Picture;
    }
    if text::same(word, b"check") {
        return Command::Check;
    }
    if text::same(word, b"export") {
        return Command::Export;
    }
    if text::same(word, b"--help") {
        return Command::Help;
    }
    Command::Unknown
}

// The command that a word names.
#[tactic(auto, unfolding(crate::specs::Commands::command_of))]
pub fn command_of(word: &[u8]) -> Command
    ensures { result ≡ command_of word.now }
{
    if text::same(word, b"new") {
        return Command::New;
    }
    if text::same(word, b"feed") {
        return Command::Feed;
    }
    if text::same(word, b"call") {
        return Command::Call;
    }
    if text::same(word, b"merge") {
        return Command::Merge;
    }
    if text::same(word, b"import") {
        return Command::Import;
    }
    reading(word)
}

fn rule(least: usize, most: usize, tries: bool, starts: bool) -> Rules
    ensures { result ≡ rule least most tries starts }
{
    Rules {
        known: true,
        least,
        most,
        tries,
        starts,
    }
}

// Those of no command.
fn no_rule() -> Rules
    ensures { result ≡ rules_of Command.Unknown }
{
    Rules {
        known: false,
        least: 0,
        most: 4096,
        tries: true,
        starts: true,
    }
}

// The rules of a command.
fn rules_of(c: Command) -> Rules
    ensures { result ≡ rules_of c }
{
    match c {
        Command::New => rule(2, 2, false, false),
        Command::Feed => rule(1, 2, false, true),
        Command::Call => rule(1, 1, false, false),
        Command::Merge => rule(2, 4096, true, false),
        Command::Show => rule(1, 1, false, false),
        Command::Picture => rule(1, 1, false, false),
        Command::Check => rule(1, 1, false, false),
        Command::Export => rule(1, 1, false, false),
        Command::Import => rule(2, 2, false, false),
        Command::Help => rule(0, 4096, true, true),
        Command::Unknown => no_rule(),
    }
}

// Is the word an option?
pub fn is_option(word: &[u8]) -> bool
    ensures { result ≡ is_option word.now }
{
    text::starts(word, b"--")
}

// No options.
pub fn no_options() -> Options
    ensures { result ≡ no_options }
{
    Options {
        afresh: false,
        sync: true,
        trying: false,
        unknown: false,
    }
}

// One option more.
#[tactic(auto, unfolding(crate::specs::Commands::with_option))]
pub fn with_option(o: Options, word: &[u8]) -> Options
    ensures { result ≡ with_option o word.now }
{
    let mut p = o;
    if text::same(word, b"--from-start") {
        p.afresh = true;
        return p;
    }
    if text::same(word, b"--no-sync") {
        p.sync = false;
        return p;
    }
    if text::same(word, b"--try") {
        p.trying = true;
        return p;
    }
    p.unknown = true;
    p
}

// Was something asked for that is not allowed?
fn astray(asked: bool, allowed: bool) -> bool
    ensures { result ≡ (asked && not allowed) }
{
    asked && !allowed
}

// By a command's rules.
#[tactic(auto, unfolding(crate::specs::Commands::problem_of))]
fn against(c: Rules, o: Options, files: usize) -> Option<Problem>
    ensures { result ≡ problem_of c o files }
{
    if !c.known {
        return Some(Problem::NoCommand);
    }
    if o.unknown {
        return Some(Problem::NoOption);
    }
    if astray(o.trying, c.tries) {
        return Some(Problem::TryElsewhere);
    }
    if astray(o.afresh, c.starts) {
        return Some(Problem::FromStartElsewhere);
    }
    if files < c.least {
        return Some(Problem::TooFew);
    }
    if c.most < files {
        return Some(Problem::TooMany);
    }
    None
}

// What is wrong with a command, its options and so many files, or nothing.
pub fn wrong_with(c: Command, o: Options, files: usize) -> Option<Problem>
    ensures { result ≡ problem_of (rules_of c) o files }
{
    against(rules_of(c), o, files)
}
