// What a person types, for the programs: numbers, hex pairs with what people put between them, texts that lack their ending. Nothing of
// the engine stands on it. What a number says and where a text ends is promised in full; every other function is proved to stay within
// what it is lent, and what a program makes of its input is held to its stored output.
#![tactic(auto)]

ghost use Rattle.std.specs.Prelude.{◌≡◌, ◌*◌, ◌<◌, ◌≤◌};
ghost use Rattle.tools_typed.specs.Typed as ty;

use text_slices::{byte_at, is_between, part_of, rest};
use tools_lines::decode;

// What the hex pairs of a line are squeezed in, all between them left out.
const LONGEST_LINE: usize = 2000;

// ---- rooms

// A byte in its place, where the room has that place.
pub fn store(room: &mut [u8], at: usize, byte: u8) {
    if let Some(place) = room.get_mut(at) {
        *place = byte;
    }
}

// Bytes from the start of the room on, as far as it takes them.
pub fn store_all(room: &mut [u8], bytes: &[u8]) {
    for (place, byte) in room.iter_mut().zip(bytes) {
        *place = *byte;
    }
}

// A byte after the first n of a room, if it has a place for it; how many there are then.
pub fn push(room: &mut [u8], n: usize, byte: u8) -> usize {
    if n >= room.len() {
        return n;
    }
    room[n] = byte;
    n + 1
}

// The ending of a text of n bytes: CR, and LF too where it starts with `:`. How many bytes there are then.
pub fn end_text(room: &mut [u8], n: usize) -> usize {
    let is_ascii = byte_at(room, 0) == b':';
    let m = push(room, n, b'\r');
    if is_ascii { push(room, m, b'\n') } else { m }
}

// ---- numbers

// The value of a digit in either case, or 16 for what is none: one test against the base then tells both, as the definition has it.
fn digit_value(b: u8) -> u64
    ensures value { result ≡ ty.digit_value b }
    ensures upper_bound { result ≤ 16 }
{
    if is_between(b'0', b'9', b) {
        return (b - b'0') as u64;
    }
    if is_between(b'A', b'F', b) {
        return (b - b'A') as u64 + 10;
    }
    if is_between(b'a', b'f', b) {
        return (b - b'a') as u64 + 10;
    }
    16
}

fn base(hex: bool) -> u64
    ensures value { result ≡ ty.base hex }
    ensures upper_bound { result ≤ 16 }
{
    if hex { 16 } else { 10 }
}

// A number with all its digits moved up one place.
fn moved_up(hex: bool, v: u32) -> u64
    ensures value { result ≡ v * ty.base hex }
    ensures upper_bound { result < 68719476736 }
{
    let wide = u64::from(v);
    if hex { wide * 16 } else { wide * 10 }
}

// A number, and one digit more behind it: none where that is no digit, or more than most.
fn with_digit(hex: bool, most: u32, v: u32, b: u8) -> Option<u32>
    ensures { result ≡ ty.with_digit hex most v b }
{
    let d = digit_value(b);
    if d >= base(hex) {
        return None;
    }
    let next = moved_up(hex, v) + d;
    if next > u64::from(most) {
        return None;
    }
    Some(next as u32)
}

// The number from 0 to most that a whole text says, in decimal or in hex.
pub fn number_up_to(hex: bool, most: u32, text: &[u8]) -> Option<u32>
    ensures { result ≡ ty.number_up_to hex most text.now }
{
    if text.is_empty() {
        return None;
    }
    let mut v = 0;
    for b in text {
        v = with_digit(hex, most, v, *b)?;
    }
    Some(v)
}

// Whether a text starts with the mark of hex, `0x` or `0X`.
#[tactic(auto, unfolding(crate::specs::Typed::is_marked))]
pub fn is_marked(text: &[u8]) -> bool
    ensures { result ≡ ty.is_marked text.now }
{
    let x = byte_at(text, 1);
    byte_at(text, 0) == b'0' && (x == b'x' || x == b'X')
}

// A number from 0 to most as people type it: in decimal, or in hex behind `0x`.
pub fn typed_number(most: u32, text: &[u8]) -> Option<u32>
    ensures { result ≡ ty.typed_number most text.now }
{
    if is_marked(text) {
        return number_up_to(true, most, rest(text, 2));
    }
    number_up_to(false, most, text)
}

// ---- blanks

// Blank, tab and CR: what may stand behind a text and doesn't show.
#[tactic(auto, unfolding(crate::specs::Typed::is_blank))]
pub fn is_blank(b: u8) -> bool
    ensures { result ≡ ty.is_blank b }
{
    b == b' ' || b == b'\t' || b == b'\r'
}

// How many bytes a text has without the blanks at its end.
pub fn end_of(text: &[u8]) -> usize
    ensures { ty.EndsAt text.now result }
{
    match text.iter().rposition(|b| !is_blank(*b)) {
        Some(last) => last + 1,
        None => 0,
    }
}

// A text without the blanks at its end.
pub fn trimmed(text: &[u8]) -> &[u8] {
    &text[..end_of(text)]
}

// ---- hex pairs

// What people put between bytes.
fn is_between_bytes(b: u8) -> bool {
    is_blank(b) || b == b',' || b == b':'
}

// Whether a text has one digit and then nothing, or what stands between bytes.
fn is_single(text: &[u8]) -> bool {
    digit_value(byte_at(text, 0)) < 16 && (text.len() == 1 || is_between_bytes(byte_at(text, 1)))
}

// The digits of a line and nothing between them, in upper case, as far as the room takes them; how many they are. A mark is left out where a
// byte may start, at the line's start and behind what stands between bytes; the one digit of `0x1` gets its 0.
fn squeeze(line: &[u8], room: &mut [u8]) -> usize {
    let mut n = 0;
    let mut may_start = true;
    let mut left = line;
    // A turn takes one character, or the two of a mark, which no iterator over the characters does.
    while let Some((first, behind)) = left.split_first() {
        if may_start && is_marked(left) {
            may_start = false;
            left = rest(behind, 1);
            if is_single(left) {
                n = push(room, n, b'0');
            }
        } else {
            may_start = is_between_bytes(*first);
            left = behind;
            if !may_start {
                n = push(room, n, first.to_ascii_uppercase());
            }
        }
    }
    n
}

// Hex pairs into the room, if it takes them all; how many. Blanks, commas, colons and `0x` may stand between them, and lower case is allowed.
pub fn typed_pairs(line: &[u8], room: &mut [u8]) -> Option<usize> {
    let mut pairs = [0u8; LONGEST_LINE];
    let n = squeeze(line, &mut pairs);
    decode(part_of(&pairs, 0, n), room)
}
