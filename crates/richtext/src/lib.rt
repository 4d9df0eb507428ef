// How a style grows when text is inserted beside it, and the flag byte that a style carries.
#![tactic(auto)]

ghost use Rattle.std.specs.Prelude.{◌≡◌};
ghost use Rattle.richtext.specs.Flags.{expands_before, expands_after, type_of, before_at, flag_of, new_byte, deleted_byte};
ghost use Rattle.richtext.specs.Types.{grows_before, grows_after, retired, reversed, named};

const EXPAND_BEFORE_MASK: u8 = 0b0000_0010;

const EXPAND_AFTER_MASK: u8 = 0b0000_0100;

const ALIVE_MASK: u8 = 0b1000_0000;

// On which sides of a style new text takes the style over.
#[derive(Clone, Copy, PartialEq, Eq, Debug)]
pub enum ExpandType {
    Before,
    After,
    Both,
    None,
}

// Which end of a style an anchor marks.
#[derive(Clone, Copy, PartialEq, Eq, Debug)]
pub enum AnchorType {
    Start,
    End,
}

impl ExpandType {
    // Does text inserted before the style take it over?
    pub fn expand_before(self) -> bool
        ensures { result ≡ grows_before self }
    {
        matches!(self, ExpandType::Before | ExpandType::Both)
    }

    // Does text inserted after the style take it over?
    pub fn expand_after(self) -> bool
        ensures { result ≡ grows_after self }
    {
        matches!(self, ExpandType::After | ExpandType::Both)
    }

    // Is it a type that no new mark and no entry of a config may have?
    pub fn retired(self) -> bool
        ensures { result ≡ retired self }
    {
        matches!(self, ExpandType::Before)
    }

    // The type that one of the words before, after, both and none names; any other bytes name none.
    pub fn try_from_str(s: &[u8]) -> Option<ExpandType>
        ensures { result ≡ named s.now }
    {
        if s == b"before".as_slice() {
            return Some(ExpandType::Before);
        }
        if s == b"after".as_slice() {
            return Some(ExpandType::After);
        }
        if s == b"both".as_slice() {
            return Some(ExpandType::Both);
        }
        if s == b"none".as_slice() {
            return Some(ExpandType::None);
        }
        None
    }

    // The type of the mark that takes a style of this type away, so that text inserted beside it grows as it did.
    pub fn reverse(self) -> ExpandType
        ensures { result ≡ reversed self }
    {
        match self {
            ExpandType::Before => ExpandType::Before,
            ExpandType::After => ExpandType::After,
            ExpandType::Both => ExpandType::None,
            ExpandType::None => ExpandType::Both,
        }
    }
}

// A style's flag byte. Any byte may be carried.
#[derive(Clone, Copy, PartialEq, Eq, Debug)]
pub struct TextStyleInfoFlag {
    data: u8,
}

impl TextStyleInfoFlag {
    pub const BOLD: TextStyleInfoFlag = TextStyleInfoFlag { data: 0x84 };

    pub const LINK: TextStyleInfoFlag = TextStyleInfoFlag { data: 0x80 };

    pub const COMMENT: TextStyleInfoFlag = TextStyleInfoFlag { data: 0x80 };

    // The byte of a new style of this type.
    pub fn new(expand_type: ExpandType) -> TextStyleInfoFlag
        ensures { result ≡ flag_of (new_byte expand_type) }
    {
        let mut data = ALIVE_MASK;
        if expand_type.expand_before() {
            data |= EXPAND_BEFORE_MASK;
        }
        if expand_type.expand_after() {
            data |= EXPAND_AFTER_MASK;
        }
        TextStyleInfoFlag { data }
    }

    // A byte as it was read.
    pub fn from_byte(data: u8) -> TextStyleInfoFlag
        ensures { result ≡ flag_of «data» }
    {
        TextStyleInfoFlag { data }
    }

    // The byte that is carried.
    pub fn to_byte(self) -> u8
        ensures { result ≡ self.«data» }
    {
        self.data
    }

    // The byte's bit for growing before.
    pub fn expand_before(self) -> bool
        ensures { result ≡ expands_before self.«data» }
    {
        self.data & EXPAND_BEFORE_MASK != 0
    }

    // The byte's bit for growing after.
    pub fn expand_after(self) -> bool
        ensures { result ≡ expands_after self.«data» }
    {
        self.data & EXPAND_AFTER_MASK != 0
    }

    // The type that the two bits make.
    pub fn expand_type(self) -> ExpandType
        ensures { result ≡ type_of self.«data» }
    {
        match (self.expand_before(), self.expand_after()) {
            (true, true) => ExpandType::Both,
            (true, false) => ExpandType::Before,
            (false, true) => ExpandType::After,
            (false, false) => ExpandType::None,
        }
    }

    // Text inserted beside this anchor: does it go before the anchor?
    pub fn prefer_insert_before(self, anchor_type: AnchorType) -> bool
        ensures { result ≡ before_at anchor_type self.«data» }
    {
        match anchor_type {
            AnchorType::Start => !self.expand_before(),
            AnchorType::End => self.expand_after(),
        }
    }

    // The byte of a new mark that takes the style away.
    pub fn to_delete(self) -> TextStyleInfoFlag
        ensures { result ≡ flag_of (deleted_byte self.«data») }
    {
        TextStyleInfoFlag::new(self.expand_type().reverse())
    }
}

// The three constants are the bytes of new styles: a constant carries no contract, so its value is stated of a function that returns it.
fn bold_flag() -> TextStyleInfoFlag
    ensures { result ≡ flag_of (new_byte ExpandType.After) }
{
    TextStyleInfoFlag::BOLD
}

fn link_flag() -> TextStyleInfoFlag
    ensures { result ≡ flag_of (new_byte ExpandType.None) }
{
    TextStyleInfoFlag::LINK
}

fn comment_flag() -> TextStyleInfoFlag
    ensures { result ≡ flag_of (new_byte ExpandType.None) }
{
    TextStyleInfoFlag::COMMENT
}
