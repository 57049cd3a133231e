// The exclusive or over a text, as MEWTOCOL and the laser head carry it: computed, tested, written.
#![tactic(auto)]

ghost use Rattle.std.specs.Prelude.{◌≡◌, ◌+◌, ◌≤◌, length, take};
ghost use Rattle.text_rooms.specs.Room.{overwrite};
ghost use Rattle.checks_xor.specs.Xor.{xor_of, closing, right_xor};

use text_hex::{hex_digit, put_hex};
use text_rooms::put_byte;
use text_slices::{byte_at, part_of};

// The exclusive or of all bytes; 0 of none.
pub fn xor_of(frame: &[u8]) -> u8
    ensures { result ≡ xor_of frame.now }
{
    let mut r: u8 = 0;
    for b in frame {
        r ^= *b;
    }
    r
}

// Whether the last two characters are the upper-case hex of the exclusive or of those before.
pub fn right_xor(text: &[u8]) -> bool
    ensures { result ≡ right_xor text.now }
{
    let n = text.len();
    if n < 2 {
        return false;
    }
    let x = xor_of(part_of(text, 0, n - 2));
    if byte_at(text, n - 2) != hex_digit(x / 16) {
        return false;
    }
    byte_at(text, n - 1) == hex_digit(x)
}

// Closes a text of n characters: its exclusive or as two hex characters, and a last character; the other bytes stay. It
// gives the text's length then.
pub fn put_xor(out: &mut [u8], n: usize, last: u8) -> usize
    requires { n + 3 ≤ length out.old }
    ensures { (result ≡ n + 3) × (out.new ≡ overwrite out.old n (closing (take n out.old) last)) }
{
    let x = xor_of(&out[..n]);
    put_hex(out, n, x);
    put_byte(out, n + 2, last);
    n + 3
}
