// Texts, piece by piece, and what restoring from one answers.
ghost use Rattle.std.specs.Prelude.{[], ◌∷◌, ◌≡◌, ◌+◌, ◌*◌, ◌≤◌, ◌<◌, min, length, take, drop};
ghost use Rattle.answers.specs.Waiting.{Adds, piece_room};
ghost use Rattle.answers.specs.Replies.{or_refused, cut_up, bytes_say, restored_says};

use super::pieces::{accept, free, refuse, say};
use lists::Listed;

// Bytes as they are.
fn put_piece(out: &mut [u8], at: usize, piece: &[u8]) -> usize
    requires { (piece_room ≤ length out.old) × (length piece.now ≤ piece_room) }
    ensures { Adds out.old at (piece.now ∷ []) result out.new }
{
    let k = free(out, at);
    text::put(out, k, piece)
}

// Where a piece ends that begins at a place.
fn piece_end(from: usize, len: usize) -> usize
    requires { from ≤ len }
    ensures { result ≡ min (from + 192) len }
{
    from + (len - from).min(192)
}

// The piece of a text that begins at a place.
fn put_part(out: &mut [u8], at: usize, text: &[u8], from: usize) -> usize
    requires { (piece_room ≤ length out.old) × (from ≤ length text.now) }
    ensures { Adds out.old at (take piece_room (drop from text.now) ∷ []) result out.new }
{
    let to = piece_end(from, text.len());
    put_piece(out, at, &text[from..to])
}

// So many pieces from the first on.
fn put_pieces(out: &mut [u8], at: usize, text: &[u8], count: usize) -> usize
    requires { (piece_room ≤ length out.old) × (192 * count < length text.now + 192) × (length text.now ≤ 131072) }
    ensures { Adds out.old at (cut_up count 0 text.now) result out.new }
{
    let mut k = at;
    for i in 0..count {
        k = put_part(out, k, text, 192 * i);
    }
    k
}

// A text behind a line with the count of its bytes.
fn put_text(out: &mut [u8], at: usize, text: &[u8]) -> usize
    requires { (piece_room ≤ length out.old) × (length text.now ≤ 131072) }
    ensures { Adds out.old at (bytes_say text.now) result out.new }
{
    let n = text.len();
    let k = say(out, at, b"bytes=", text::wide(n));
    put_pieces(out, k, text, (n + 191) / 192)
}

// The text in the front of a lent buffer, or a refusal.
pub fn text_or(out: &mut [u8], at: usize, l: Listed, lent: &[u8]) -> usize
    requires { (piece_room ≤ length out.old) × (l.count ≤ length lent.now) × (length lent.now ≤ 131072) }
    ensures { Adds out.old at (or_refused l.number (bytes_say (take l.count lent.now))) result out.new }
{
    if l.number == 0 {
        let count = l.count;
        return put_text(out, at, &lent[..count]);
    }
    refuse(out, at, l.number)
}

// Accepted, or the refusal and the line.
pub fn restored_or(out: &mut [u8], at: usize, number: u64, line: u64) -> usize
    requires { piece_room ≤ length out.old }
    ensures { Adds out.old at (restored_says number line) result out.new }
{
    if number == 0 {
        return accept(out, at, 0);
    }
    let k = refuse(out, at, number);
    say(out, k, b"line=", line)
}
