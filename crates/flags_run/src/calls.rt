// The calls, a line for each.
ghost use Rattle.config.specs.Meaning.{Sound};

use crate::print::{say, say_done, say_flag, say_got, say_got_flag, say_named, say_type, say_yes};
use config::{StyleConfig, StyleConfigMap};
use richtext::{AnchorType, ExpandType, TextStyleInfoFlag};

// On which sides a byte's style grows, and where text beside its anchors goes.
fn sides(flag: TextStyleInfoFlag) {
    say(b" before=");
    say_yes(flag.expand_before());
    say(b" after=");
    say_yes(flag.expand_after());
    say(b" start=");
    say_yes(flag.prefer_insert_before(AnchorType::Start));
    say(b" end=");
    say_yes(flag.prefer_insert_before(AnchorType::End));
}

// What one flag byte means, and what it becomes.
fn flag(byte: u8) {
    let flag = TextStyleInfoFlag::from_byte(byte);
    say(b"flag 0x");
    say_flag(flag);
    say(b" ");
    say_type(flag.expand_type());
    sides(flag);
    say(b" to_delete=0x");
    say_flag(flag.to_delete());
    say(b"\n");
}

pub(crate) fn flags() {
    for byte in 0..=255 {
        flag(byte);
    }
}

fn new_flag(expand: ExpandType) {
    say(b"new ");
    say_type(expand);
    say(b" = 0x");
    say_flag(TextStyleInfoFlag::new(expand));
    say(b", reversed ");
    say_type(expand.reverse());
    say(b"\n");
}

fn word(s: &[u8]) {
    say(b"try_from_str \"");
    say(s);
    say(b"\" = ");
    say_named(ExpandType::try_from_str(s));
    say(b"\n");
}

fn constants() {
    say(b"BOLD = 0x");
    say_flag(TextStyleInfoFlag::BOLD);
    say(b", LINK = 0x");
    say_flag(TextStyleInfoFlag::LINK);
    say(b", COMMENT = 0x");
    say_flag(TextStyleInfoFlag::COMMENT);
    say(b"\n");
}

fn types() {
    new_flag(ExpandType::Before);
    new_flag(ExpandType::After);
    new_flag(ExpandType::Both);
    new_flag(ExpandType::None);
}

fn four_words() {
    word(b"before");
    word(b"after");
    word(b"both");
    word(b"none");
}

fn other_words() {
    word(b"Before");
    word(b"BOTH");
    word(b"befor");
    word(b"nones");
    word(b"");
}

pub(crate) fn words() {
    types();
    constants();
    four_words();
    other_words();
}

// The three questions about a name.
pub(crate) fn ask(map: &StyleConfigMap, key: &[u8])
    requires { Sound map.now }
{
    say(b"\"");
    say(key);
    say(b"\" get=");
    say_got(map.get(key));
    say(b" flag=");
    say_got_flag(map.get_style_flag(key));
    say(b" unmark=");
    say_got_flag(map.get_style_flag_for_unmark(key));
    say(b"\n");
}

// An insertion, with its number.
pub(crate) fn put(map: &mut StyleConfigMap, key: &[u8], expand: ExpandType)
    requires { Sound map.old }
    ensures { Sound map.new }
{
    say(b"insert \"");
    say(key);
    say(b"\" ");
    say_type(expand);
    say(b" = ");
    say_done(map.insert(key, StyleConfig::new().expand(expand)));
    say(b"\n");
}

fn seven(map: &StyleConfigMap)
    requires { Sound map.now }
{
    ask(map, b"bold");
    ask(map, b"italic");
    ask(map, b"underline");
    ask(map, b"link");
    ask(map, b"highlight");
    ask(map, b"comment");
    ask(map, b"code");
}

fn not_entries(map: &StyleConfigMap)
    requires { Sound map.now }
{
    ask(map, b"Bold");
    ask(map, b"bol");
    ask(map, b"comment:17");
    ask(map, b"comment:17:3");
    ask(map, b":x");
    ask(map, b"");
}

pub(crate) fn built_in(map: &StyleConfigMap)
    requires { Sound map.now }
{
    seven(map);
    not_entries(map);
}

// A name with a colon, and the empty name.
fn odd_names(mut map: StyleConfigMap)
    requires { Sound map }
{
    put(&mut map, b"comment:17", ExpandType::Both);
    put(&mut map, b"", ExpandType::Before);
    ask(&map, b"");
    ask(&map, b":x");
    put(&mut map, b"comment", ExpandType::Before);
    ask(&map, b"comment:17");
}

// 32 bytes and 33, before and after the cut.
fn long_names(mut map: StyleConfigMap)
    requires { Sound map }
{
    put(
        &mut map,
        b"xxxxxxxxxxxxxxxxxxxxxxxxxxxxxxxx",
        ExpandType::Both,
    );
    ask(&map, b"xxxxxxxxxxxxxxxxxxxxxxxxxxxxxxxx");
    put(
        &mut map,
        b"xxxxxxxxxxxxxxxxxxxxxxxxxxxxxxxxx",
        ExpandType::Both,
    );
    ask(&map, b"xxxxxxxxxxxxxxxxxxxxxxxxxxxxxxxxx");
    ask(&map, b"comment:xxxxxxxxxxxxxxxxxxxxxxxx");
    ask(&map, b"comment:xxxxxxxxxxxxxxxxxxxxxxxxx");
}

// A colon in front, at the back and alone: each is refused, and the table answers as before.
fn colons(mut map: StyleConfigMap)
    requires { Sound map }
{
    put(&mut map, b":bold", ExpandType::Both);
    put(&mut map, b"bold:", ExpandType::Both);
    put(&mut map, b":", ExpandType::Both);
    ask(&map, b":bold");
    ask(&map, b"bold:");
    ask(&map, b":");
    seven(&map);
}

pub(crate) fn names(map: StyleConfigMap)
    requires { Sound map }
{
    odd_names(map);
    colons(map);
    long_names(map);
}

pub(crate) fn set_default(map: &mut StyleConfigMap, expand: ExpandType)
    requires { Sound map.old }
    ensures { Sound map.new }
{
    say(b"default ");
    say_type(expand);
    say(b" = ");
    say_done(map.set_default(StyleConfig::new().expand(expand)));
    say(b"\n");
}

pub(crate) fn clear_default(map: &mut StyleConfigMap)
    requires { Sound map.old }
    ensures { Sound map.new }
{
    say(b"no default\n");
    map.clear_default();
}

pub(crate) fn defaults(mut map: StyleConfigMap)
    requires { Sound map }
{
    set_default(&mut map, ExpandType::Both);
    ask(&map, b"bold");
    ask(&map, b"comment:17");
    ask(&map, b"other");
    set_default(&mut map, ExpandType::Before);
    ask(&map, b"other:1");
    ask(&map, b"xxxxxxxxxxxxxxxxxxxxxxxxxxxxxxxxx");
    clear_default(&mut map);
    ask(&map, b"other");
}

// 25 names of a letter each, which with the seven built in make 32.
fn fill(map: &mut StyleConfigMap)
    requires { Sound map.old }
    ensures { Sound map.new }
{
    for letter in b'a'..=b'y' {
        put(map, &[letter], ExpandType::After);
    }
}

// The same 25 names, asked for.
fn ask_letters(map: &StyleConfigMap)
    requires { Sound map.now }
{
    for letter in b'a'..=b'y' {
        ask(map, &[letter]);
    }
}

// A new name into 32 entries, after which all 32 answer as before, and known ones.
pub(crate) fn full(mut map: StyleConfigMap)
    requires { Sound map }
{
    fill(&mut map);
    put(&mut map, b"z", ExpandType::After);
    ask(&map, b"z");
    seven(&map);
    ask_letters(&map);
    put(&mut map, b"bold", ExpandType::Both);
    ask(&map, b"bold");
    put(&mut map, b"y", ExpandType::None);
    ask(&map, b"y");
    put(&mut map, b"", ExpandType::None);
    ask(&map, b"");
}
