// The eight keys of a strip and their letters, first key first.
ghost use Rattle.std.specs.Prelude.{◌≡◌};
ghost use Rattle.strip.specs.Legend.{first_legend, with_letter};

// A key and a letter at each of eight places.
#[derive(Clone, Copy)]
pub struct Legend {
    pub keys: [u16; 8],
    pub letters: [u8; 8],
}

// Key i with the digit i as its letter, at place i.
pub fn digits() -> Legend
    ensures { result ≡ first_legend }
{
    Legend {
        keys: [0, 1, 2, 3, 4, 5, 6, 7],
        letters: [b'0', b'1', b'2', b'3', b'4', b'5', b'6', b'7'],
    }
}

// Another key and letter at a place; places are counted round, so that each number has one.
pub fn with_letter(legend: Legend, place: u64, key: u16, letter: u8) -> Legend
    ensures { result ≡ with_letter legend place key letter }
{
    let mut keys = legend.keys;
    let mut letters = legend.letters;
    let i = (place % 8) as usize;
    keys[i] = key;
    letters[i] = letter;
    Legend { keys, letters }
}
