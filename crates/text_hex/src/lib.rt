// Upper-case hex, read and written: characters and bytes. Lower case is never a digit.
#![tactic(auto)]

ghost use Rattle.std.specs.Prelude.{◌≡◌, ◌+◌, ◌%◌, ◌≤◌, ltb, length, get_or};
ghost use Rattle.rules.specs.Choice.{pick};
ghost use Rattle.text_digits.specs.Digits.{is_digit};
ghost use Rattle.text_hex.specs.Hex as hx;
ghost use Rattle.text_rooms.specs.Room.{overwrite};

use text_digits::{Digit, Number};
use text_slices::{and, byte_at, is_between};

// The value of the hex digit at an index; past the end stands none.
#[tactic(auto, using(crate::proofs::Values::hex_decimal, crate::proofs::Values::hex_letter, crate::proofs::Values::hex_below, crate::proofs::Values::hex_between, crate::proofs::Values::hex_above))]
pub fn hex_at(s: &[u8], i: usize) -> Digit
    ensures { result ≡ hx.hex_value (get_or s.now i 0) }
{
    match byte_at(s, i) {
        b @ b'0'..=b'9' => Digit::Is((b - b'0') as u32),
        b @ b'A'..=b'F' => Digit::Is((b - b'A' + 10) as u32),
        _ => Digit::NoDigit,
    }
}

// Whether a byte is a hex digit. By two tests of a range: by `matches!` a request's text costs more than its goal (docs/PERFORMANCE.md).
pub fn is_hex(b: u8) -> bool
    ensures { result ≡ is_digit (hx.hex_value b) }
{
    is_between(b'0', b'9', b) || is_between(b'A', b'F', b)
}

// Whether every byte is a hex digit. It goes on after one that is not, so that many bytes can be tested at once.
pub fn all_hex(s: &[u8]) -> bool
    ensures { result ≡ hx.all_hex s.now }
{
    let mut fine = true;
    for i in 0..s.len() {
        fine = and(fine, is_hex(s[i]));
    }
    fine
}

// The byte that the first two characters say, or where the first of them stands that is no hex digit.
pub fn hex_byte(s: &[u8]) -> Number
    ensures { result ≡ hx.hex 2 s.now }
{
    let Digit::Is(a) = hex_at(s, 0) else {
        return Number::NoDigitAt(0);
    };
    let Digit::Is(b) = hex_at(s, 1) else {
        return Number::NoDigitAt(1);
    };
    Number::Value(a * 16 + b)
}

// The byte that two hex digits say, the first in the word's low half, by arithmetic alone; of other characters it says what that gives.
pub fn pair_of(w: u16) -> u8
    ensures { result ≡ hx.pair_of w }
{
    let a = w % 256;
    let b = w / 256;
    let x = a % 16 + 9 * (a / 64);
    let y = b % 16 + 9 * (b / 64);
    ((16 * x + y) % 256) as u8
}

// How far the digits A to F stand behind 9: a number that is added takes no branch.
fn gap(d: u8) -> u8
    ensures { result ≡ pick (ltb d 10) 0 7 }
{
    if d < 10 { 0 } else { 7 }
}

// The hex digit of a number's lowest four bits.
pub fn hex_digit(n: u8) -> u8
    ensures { result ≡ hx.hex_digit (n % 16) }
{
    let d = n % 16;
    48 + d + gap(d)
}

// Writes a byte as two characters from index at on; the other bytes stay.
pub fn put_hex(out: &mut [u8], at: usize, b: u8)
    requires { at + 2 ≤ length out.old }
    ensures { out.new ≡ overwrite out.old at (hx.hex_byte b) }
{
    out[at] = hex_digit(b / 16);
    out[at + 1] = hex_digit(b);
}
