// Texts in which `\` and two hex digits stand for a byte, read and printed for the programs. Nothing of the engine stands on it. Each
// function is proved to stay within what it is lent; what a program makes of its input is held to its stored output.
#![tactic(auto)]

ghost use Rattle.std.specs.Prelude.{◌≤◌, length};

use std::io;
use std::io::Write;
use text_digits::Number;
use text_hex::hex_byte;
use text_slices::{is_between, rest};
use tools_printing::{print_byte, put};

// How many bytes of a text are taken.
const TEXT: usize = 200;

// The byte that the two hex digits behind a `\` say.
fn escaped(digits: &[u8]) -> u8 {
    match hex_byte(digits) {
        Number::Value(b) => (b % 256) as u8,
        Number::NoDigitAt(_) => b'?',
    }
}

// The bytes of a text, at most 200 of them: characters, or two hex digits after `\`. How many they are.
pub fn unescape(text: &[u8], room: &mut [u8]) -> usize
    requires { 200 ≤ length room.old }
    ensures { result ≤ 200 }
{
    let mut left = text;
    for n in 0..TEXT {
        let Some((first, behind)) = left.split_first() else {
            return n;
        };
        if *first == b'\\' {
            room[n] = escaped(behind);
            left = rest(left, 3);
        } else {
            room[n] = *first;
            left = behind;
        }
    }
    TEXT
}

// Whether a byte is printed as it is.
fn is_plain(b: u8) -> bool {
    is_between(b' ', b'~', b) && b != b'\\'
}

// Bytes as `unescape` reads them.
pub fn print_escaped(out: &mut impl Write, bytes: &[u8]) -> io::Result<()> {
    for b in bytes {
        if is_plain(*b) {
            put(out, &[*b])?;
        } else {
            put(out, b"\\")?;
            print_byte(out, *b)?;
        }
    }
    Ok(())
}
