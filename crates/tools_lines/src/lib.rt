// What the programs read their input with: lines, and bytes given as hex pairs. Nothing of the engine stands on it. What the lines of a
// text are is promised in full; `decode` is proved to stay within what it is lent, and what a program makes of a line is held to its stored
// output.
#![tactic(auto)]

ghost use Rattle.std.specs.Prelude.{◌≡◌, ◌+◌, ◌<◌, ◌≤◌, eqb, length, drop, min};
ghost use Rattle.std.specs.Iterator.{YieldsFirstRef, item_count};
ghost use Rattle.std.specs.List.{position_or_len};
ghost use Rattle.tools_lines.specs.Lines.{lines};

use text_digits::Number;
use text_hex::hex_byte;
use text_slices::same;

// The place of the first such byte from index at on, or the length where there is none.
pub fn place_from(s: &[u8], at: usize, byte: u8) -> usize
    requires { at ≤ length s.now }
    ensures lower_bound { at ≤ result }
    ensures upper_bound { result ≤ length s.now }
    ensures value { result ≡ at + position_or_len (λ b. eqb b byte) (drop at s.now) }
{
    match s[at..].iter().position(|b| *b == byte) {
        Some(i) => at + i,
        None => s.len(),
    }
}

// Where the line after the one from at to end starts.
pub fn next_line(input: &[u8], at: usize, end: usize) -> usize
    requires { (at < length input.now) × (at ≤ end) × (end ≤ length input.now) }
    ensures lower_bound { at < result }
    ensures upper_bound { result ≤ length input.now }
    ensures value { result ≡ min (end + 1) (length input.now) }
{
    if end < input.len() { end + 1 } else { end }
}

// The lines of a text, without the LF that ends each but perhaps the last.
#[derive(Clone, Copy)]
pub struct Lines<'a>(pub &'a [u8]);

impl<'a> Iterator for Lines<'a> {
    type Item = &'a [u8];

    ghost next_gives = { YieldsFirstRef (λ s. lines s.0.now) };

    ghost remaining = { item_count (λ s. lines s.0.now) };

    fn next(&mut self) -> Option<&'a [u8]> {
        let left = self.0;
        if left.is_empty() {
            return None;
        }
        let end = place_from(left, 0, b'\n');
        let next = next_line(left, 0, end);
        self.0 = &left[next..];
        Some(&left[..end])
    }
}

fn low_byte(number: u32) -> u8 {
    (number % 256) as u8
}

// Upper-case hex pairs into the room, if it takes them all; so many bytes are in the room then. `-` is no pair, and says no byte.
pub fn decode(text: &[u8], room: &mut [u8]) -> Option<usize> {
    if same(text, b"-") {
        return Some(0);
    }
    let n = text.len() / 2;
    if n == 0 || text.len() % 2 != 0 || n > room.len() {
        return None;
    }
    for (place, pair) in room.iter_mut().zip(text.chunks_exact(2)) {
        let Number::Value(b) = hex_byte(pair) else {
            return None;
        };
        *place = low_byte(b);
    }
    Some(n)
}
