// Words as four upper-case hex characters, read and written, in either byte order.
#![tactic(auto)]

ghost use Rattle.std.specs.Prelude.{◌≡◌, ◌+◌, ◌≤◌, length, drop};
ghost use Rattle.text_digits.specs.Digits.{later};
ghost use Rattle.text_rooms.specs.Room.{overwrite};
ghost use Rattle.text_hex.specs.Hex.{hex};
ghost use Rattle.text_hex_words.specs.Words.{high_first, low_first, low_first_word};

use text_digits::Number;
use text_hex::{hex_byte, put_hex};
use text_slices::rest;

// The byte that the third and the fourth character say; places count from the first.
fn second_byte(s: &[u8]) -> Number
    ensures { result ≡ later 2 (hex 2 (drop 2 s.now)) }
{
    match hex_byte(rest(s, 2)) {
        Number::Value(b) => Number::Value(b),
        Number::NoDigitAt(p) => Number::NoDigitAt(p + 2),
    }
}

// The word that the first four characters say, low byte first (MEWTOCOL).
pub fn word_low_first(s: &[u8]) -> Number
    ensures { result ≡ low_first_word s.now }
{
    let first = hex_byte(s);
    let Number::Value(low) = first else {
        return first;
    };
    let second = second_byte(s);
    let Number::Value(high) = second else {
        return second;
    };
    Number::Value(low + 256 * high)
}

// The word that the first four characters say, high byte first (Modbus).
pub fn word_high_first(s: &[u8]) -> Number
    ensures { result ≡ hex 4 s.now }
{
    let first = hex_byte(s);
    let Number::Value(high) = first else {
        return first;
    };
    let second = second_byte(s);
    let Number::Value(low) = second else {
        return second;
    };
    Number::Value(high * 256 + low)
}

// Writes a word as four characters, low byte first.
pub fn put_low_first(out: &mut [u8], at: usize, w: u16)
    requires { at + 4 ≤ length out.old }
    ensures { out.new ≡ overwrite out.old at (low_first w) }
{
    put_hex(out, at, (w % 256) as u8);
    put_hex(out, at + 2, (w / 256) as u8);
}

// Writes a word as four characters, high byte first.
pub fn put_high_first(out: &mut [u8], at: usize, w: u16)
    requires { at + 4 ≤ length out.old }
    ensures { out.new ≡ overwrite out.old at (high_first w) }
{
    put_hex(out, at, (w / 256) as u8);
    put_hex(out, at + 2, (w % 256) as u8);
}
