// What the texts of requests and replies are made of.
ghost use Rattle.std.specs.Prelude.{◌≡◌, [], ◌∷◌, ◌+◌, ◌*◌, ◌≤◌, length, get_or};
ghost use Rattle.text_rooms.specs.Room.{overwrite};
ghost use Rattle.mewtocol_frame.specs.Text as tx;

use text_digits::Number;
use text_hex_words::put_low_first;
use text_slices::{byte_at, is_between};

// Whether a text begins with two letters.
#[tactic(auto, using(crate::proofs::Starts::second_decides, crate::proofs::Starts::first_decides))]
pub fn starts_2(s: &[u8], a: u8, b: u8) -> bool
    ensures { result ≡ tx.starts (a ∷ b ∷ []) s.now }
{
    byte_at(s, 0) == a && byte_at(s, 1) == b
}

// The number that the first character says where it is `0` or `1`.
pub fn bit(s: &[u8]) -> Number
    ensures { result ≡ tx.bit (get_or s.now 0 0) }
{
    let b = byte_at(s, 0);
    if is_between(b'0', b'1', b) {
        return Number::Value((b - b'0') as u32);
    }
    Number::NoDigitAt(0)
}

// Whether a range is in order, and of so many words at most.
pub fn up_to(most: u32, start: u32, end: u32) -> bool
    ensures { result ≡ tx.up_to most start end }
{
    start <= end && end - start < most
}

// How many words there are from start to end.
pub fn span(start: u32, end: u32) -> usize
    ensures { (result ≡ tx.span start end) × (result ≤ 4294967296) }
{
    if start <= end {
        (end - start) as usize + 1
    } else {
        0
    }
}

// The text of some words from an index on.
pub fn put_words_text(room: &mut [u8], at: usize, ws: &[u16])
    requires { at + 4 * length ws.now ≤ length room.old }
    ensures { room.new ≡ overwrite room.old at (tx.words_text ws.now) }
{
    for (i, w) in ws.iter().enumerate() {
        put_low_first(room, at + 4 * i, *w);
    }
}
