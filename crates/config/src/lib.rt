// Which way each named style grows: a table of up to 32 names and an optional default, held by value.
#![tactic(auto)]

ghost use Rattle.std.specs.Prelude.{◌≡◌, false, true, ◌++◌, ◌-◌, ◌≤◌, ◌<◌, length, Option, MatchResult, OnErr};
ghost use Rattle.text.specs.Bytes.{same_of};
ghost use Rattle.config.specs.Names.{cut, zeros, holds_colon};
ghost use Rattle.config.specs.Table.{empty_table, place, refuses, style_for, with_default, with_entry};
ghost use Rattle.config.specs.BuiltIn.{built_in};
ghost use Rattle.config.specs.Answers.{said, refusal_number, asked, get_says, flag_says, unmark_says};
ghost use Rattle.config.specs.Meaning.{entry_of, name_in, configured, stored, Tidy, Sound, Means, SetsDefault, Inserts};

use richtext::{ExpandType, TextStyleInfoFlag};

const MAX_ENTRIES: usize = 32;

const MAX_NAME: usize = 32;

const COLON: u8 = b':';

// How a style grows.
#[derive(Clone, Copy, PartialEq, Eq, Debug)]
pub struct StyleConfig {
    pub expand: ExpandType,
}

impl StyleConfig {
    // A style that grows on neither side.
    pub fn new() -> StyleConfig
        ensures { result ≡ record { expand = ExpandType.None } }
    {
        StyleConfig {
            expand: ExpandType::None,
        }
    }

    // The same with another type.
    pub fn expand(self, expand: ExpandType) -> StyleConfig
        ensures { result ≡ record { expand = expand } }
    {
        StyleConfig { expand }
    }
}

// Why a call is refused. It has changed nothing then.
#[derive(Clone, Copy, PartialEq, Eq, Debug)]
pub enum ConfigRefusal {
    // 18: a type that no new entry may have.
    RetiredType,
    // 19: a name over 32 bytes; for an insertion also one that holds a colon, and a new name into 32 entries.
    UnfitName,
}

impl ConfigRefusal {
    // The number that the documents give it.
    pub fn number(self) -> u64
        ensures { result ≡ refusal_number self }
    {
        match self {
            ConfigRefusal::RetiredType => 18,
            ConfigRefusal::UnfitName => 19,
        }
    }
}

// A name with its style: the first `len` bytes are the name, the others zero. (No heap: a name's length stands beside its place.)
#[derive(Clone, Copy)]
pub struct Entry {
    name: [u8; 32],
    len: usize,
    style: StyleConfig,
}

// The first `count` places hold the entries in the order of their first insertion; the others are blank.
#[derive(Clone, Copy)]
pub struct StyleConfigMap {
    entries: [Entry; 32],
    count: usize,
    default_style: Option<StyleConfig>,
}

// The bytes of a name, and zeros after them.
fn padded(key: &[u8]) -> [u8; 32]
    requires { length key.now ≤ 32 }
    ensures { result ≡ key.now ++ zeros (32 - length key.now) }
{
    let mut name = [0u8; 32];
    for (i, byte) in key.iter().enumerate() {
        name[i] = *byte;
    }
    name
}

impl Entry {
    // The entry of a name that is short enough.
    fn new(key: &[u8], style: StyleConfig) -> Entry
        requires { length key.now ≤ 32 }
        ensures { result ≡ entry_of key.now style }
    {
        let name = padded(key);
        Entry {
            name,
            len: key.len(),
            style,
        }
    }

    // Whether this is the entry of the name.
    fn is_named(&self, key: &[u8]) -> bool
        requires { Tidy self.now }
        ensures { result ≡ same_of (name_in self.now) key.now }
    {
        &self.name[..self.len] == key
    }
}

impl StyleConfigMap {
    // No entry and no default.
    pub fn new() -> StyleConfigMap
        ensures { Means empty_table result }
    {
        StyleConfigMap {
            entries: [Entry {
                name: [0u8; 32],
                len: 0,
                style: StyleConfig {
                    expand: ExpandType::Before,
                },
            }; 32],
            count: 0,
            default_style: None,
        }
    }

    // The seven names that rich text starts with, and no default.
    pub fn default_rich_text_config() -> StyleConfigMap
        ensures { Means built_in result }
    {
        let map = StyleConfigMap::new();
        let map = map.with(b"bold", ExpandType::After);
        let map = map.with(b"italic", ExpandType::After);
        let map = map.with(b"underline", ExpandType::After);
        let map = map.with(b"link", ExpandType::None);
        let map = map.with(b"highlight", ExpandType::None);
        let map = map.with(b"comment", ExpandType::None);
        map.with(b"code", ExpandType::None)
    }

    // A known name's style is replaced; a new name comes last. Refused: by 19 a name that holds a colon, a name over 32 bytes, a new name
    // into 32 entries; then by 18 a retired type.
    pub fn insert(&mut self, key: &[u8], value: StyleConfig) -> Result<(), ConfigRefusal>
        requires { Sound self.old }
        ensures inserts { Inserts self.old key.now value result self.new }
        ensures stays { OnErr result (self.new ≡ self.old) }
    {
        let at = self.place_to_enter(key)?;
        if value.expand.retired() {
            return Err(ConfigRefusal::RetiredType);
        }
        self.store(at, Entry::new(key, value));
        Ok(())
    }

    // Where the entry of this name stands or would stand; refused by 19, whatever the type.
    fn place_to_enter(&self, key: &[u8]) -> Result<usize, ConfigRefusal>
        requires { Sound self.now }
        ensures { MatchResult result (λ at. (at ≡ place key.now (configured self.now).entries) × (at < 32) × (length key.now ≤ 32) × (holds_colon key.now ≡ false)) (λ e. (e ≡ ConfigRefusal.UnfitName) × (refuses key.now (configured self.now) ≡ true)) }
    {
        if key.len() > MAX_NAME {
            return Err(ConfigRefusal::UnfitName);
        }
        if text::find(key, 0, COLON) < key.len() {
            return Err(ConfigRefusal::UnfitName);
        }
        let at = self.place(key);
        if at >= MAX_ENTRIES {
            return Err(ConfigRefusal::UnfitName);
        }
        Ok(at)
    }

    // The table after an insertion whatever the type, refused or not.
    fn with(self, key: &[u8], expand: ExpandType) -> StyleConfigMap
        requires { Sound self }
        ensures { Means (with_entry key.now (record { expand = expand }) (configured self)) result }
    {
        let mut map = self;
        if let Ok(at) = map.place_to_enter(key) {
            map.store(at, Entry::new(key, StyleConfig { expand }));
        }
        map
    }

    // Sets the default; a retired type is refused by 18.
    pub fn set_default(&mut self, style: StyleConfig) -> Result<(), ConfigRefusal>
        requires { Sound self.old }
        ensures sets { SetsDefault self.old style result self.new }
        ensures stays { OnErr result (self.new ≡ self.old) }
    {
        if style.expand.retired() {
            return Err(ConfigRefusal::RetiredType);
        }
        self.default_style = Some(style);
        Ok(())
    }

    // Takes the default away.
    pub fn clear_default(&mut self)
        requires { Sound self.old }
        ensures { Means (with_default Option.None (configured self.old)) self.new }
    {
        self.default_style = None;
    }

    // The style of this name, taken whole, or the default; none without either. Refused by 19: a name over 32 bytes.
    pub fn get(&self, key: &[u8]) -> Result<Option<StyleConfig>, ConfigRefusal>
        requires { Sound self.now }
        ensures { said result ≡ get_says key.now (configured self.now) }
    {
        if key.len() > MAX_NAME {
            return Err(ConfigRefusal::UnfitName);
        }
        Ok(self.style_for(key))
    }

    // The flag of a new mark of this name, taken up to its first colon.
    pub fn get_style_flag(&self, key: &[u8]) -> Result<Option<TextStyleInfoFlag>, ConfigRefusal>
        requires { Sound self.now }
        ensures { said result ≡ flag_says key.now (configured self.now) }
    {
        match self.get_cut(key)? {
            Some(style) => Ok(Some(TextStyleInfoFlag::new(style.expand))),
            None => Ok(None),
        }
    }

    // The flag of a mark that takes this name's style away.
    pub fn get_style_flag_for_unmark(
        &self,
        key: &[u8],
    ) -> Result<Option<TextStyleInfoFlag>, ConfigRefusal>
        requires { Sound self.now }
        ensures { said result ≡ unmark_says key.now (configured self.now) }
    {
        match self.get_cut(key)? {
            Some(style) => Ok(Some(TextStyleInfoFlag::new(style.expand.reverse()))),
            None => Ok(None),
        }
    }

    // As `get`, for what stands before the first colon; the length is that of the whole name.
    fn get_cut(&self, key: &[u8]) -> Result<Option<StyleConfig>, ConfigRefusal>
        requires { Sound self.now }
        ensures { said result ≡ asked key.now (style_for (cut key.now) (configured self.now)) }
    {
        if key.len() > MAX_NAME {
            return Err(ConfigRefusal::UnfitName);
        }
        let end = text::find(key, 0, COLON);
        Ok(self.style_for(&key[..end]))
    }

    // The style of a name, or the default.
    fn style_for(&self, key: &[u8]) -> Option<StyleConfig>
        requires { Sound self.now }
        ensures { result ≡ style_for key.now (configured self.now) }
    {
        let at = self.place(key);
        if at < self.count {
            return Some(self.entries[at].style);
        }
        self.default_style
    }

    // Where the entry of this name stands, or the count where it is not known.
    fn place(&self, key: &[u8]) -> usize
        requires { Sound self.now }
        ensures { result ≡ place key.now (configured self.now).entries }
    {
        for i in 0..self.count {
            if self.entries[i].is_named(key) {
                return i;
            }
        }
        self.count
    }

    // Puts the entry at a place among the entries, or after the last.
    fn store(&mut self, at: usize, entry: Entry)
        requires { at < 32 }
        ensures { self.new ≡ stored self.old at entry }
    {
        self.entries[at] = entry;
        if at == self.count {
            self.count += 1;
        }
    }
}
