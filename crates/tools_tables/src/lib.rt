// Lines that set up a table for the programs that run frames over one, and show what it holds:
//   w K V   word K holds V
//   a K A   word K has attribute A
//   s K     shows word K, four hex digits
//   c       all words 0, all attributes 3
// Nothing of the engine stands on it. Each function is proved to stay within what it is lent; what a program makes of its input is held to
// its stored output.
#![tactic(auto)]

ghost use Rattle.std.specs.Prelude.{◌≤◌};

use rules::Refusal;
use std::io;
use std::io::Write;
use text_slices::rest;
use tools_lines::place_from;
use tools_printing::print_word;

// The number that a text begins with, at most nine digits of it.
pub fn number(s: &[u8]) -> u32 {
    let mut v: u32 = 0;
    for b in s {
        if !b.is_ascii_digit() || v >= 100_000_000 {
            return v;
        }
        v = v * 10 + u32::from(*b - b'0');
    }
    v
}

// What follows the first such byte.
pub fn after(s: &[u8], byte: u8) -> &[u8] {
    rest(&s[place_from(s, 0, byte)..], 1)
}

pub fn after_blank(s: &[u8]) -> &[u8] {
    after(s, b' ')
}

pub fn at_most(n: usize, most: usize) -> usize
    ensures { result ≤ most }
{
    n.min(most)
}

pub fn print_refused(out: &mut impl Write, refusal: Refusal) -> io::Result<()> {
    let number = refusal.number();
    write!(out, "refused {number}")
}

// The kind of a line: its first character where a blank or nothing follows, and else 0, for a heading.
pub fn kind_of(line: &[u8]) -> u8 {
    match line {
        [kind] | [kind, b' ', ..] => *kind,
        _ => 0,
    }
}

fn set_word(words: &mut [u16], setting: &[u8]) {
    if let Some(word) = words.get_mut(number(setting) as usize) {
        *word = (number(after_blank(setting)) % 65536) as u16;
    }
}

fn set_attribute(attributes: &mut [u8], setting: &[u8]) {
    if let Some(attribute) = attributes.get_mut(number(setting) as usize) {
        *attribute = (number(after_blank(setting)) % 256) as u8;
    }
}

// The lines that change the table; any other kind changes nothing.
pub fn prepare(words: &mut [u16], attributes: &mut [u8], kind: u8, setting: &[u8]) {
    match kind {
        b'w' => set_word(words, setting),
        b'a' => set_attribute(attributes, setting),
        b'c' => {
            words.fill(0);
            attributes.fill(3);
        }
        _ => {}
    }
}

pub fn show_word(out: &mut impl Write, words: &[u16], setting: &[u8]) -> io::Result<()> {
    match words.get(number(setting) as usize) {
        Some(word) => print_word(out, *word),
        None => Ok(()),
    }
}
