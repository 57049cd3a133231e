// Runs outside vectors through slices, digits, hex and the checks, and prints what came out. Each line of standard input is
// one vector and gives one line of output: the vector (cut after 60 characters), a colon, the answer.
//
// A vector is a kind, one blank, and a text:
//   rtu, ascii, laserhex           a frame as hex pairs    its printed check, the computed one, and the verdict
//   laser, mew                     a frame as it is        the same; mew's CR is left out
//   crc, xor, lrc                  bytes as hex pairs      the check of all of them
//   bits                           two of these, a blank   in how many bits they differ, or the refusal's number
//   dec2 dec3 dec4 dec5            characters              their value, and that value written again; or where no digit stands
//   hex, low, high                 characters              the same, for a byte and for words of either byte order
//   allhex, visible                characters              whether all are hex digits, or from 20h to 7Eh
// A `-` stands for no bytes at all. What starts with `#` is a heading, and is repeated. Where the kind is none of these,
// or hex pairs are not upper-case pairs of at most 512 bytes, the answer is `not understood`. At most 65,536 bytes of
// input are read.
#![tactic(auto)]

use checks_bit_count::{BitCount, bits_differing};
use checks_crc::{crc_of, right_crc};
use checks_lrc::{lrc_of, right_lrc};
use checks_xor::{right_xor, xor_of};
use std::io;
use std::io::Write;
use text_digits::{Number, decimal_2, decimal_3, decimal_4, decimal_5};
use text_hex::{all_hex, hex_byte};
use text_hex_words::{put_low_first, word_high_first, word_low_first};
use text_slices::{all_between, part_of};
use tools_lines::{Lines, decode};
use tools_printing::{print_byte, print_joined, print_padded, print_word, put};
use tools_reader::read_full;

// How much of the input is read, in bytes.
const INPUT: usize = 65536;

// The longest vector in hex pairs, in bytes: twice what a bit count takes.
const ROOM: usize = 512;

// How many characters of a vector are repeated: every frame that a document prints is shorter.
const SHOWN: usize = 60;

// What stands before the first blank, or all, and what stands after it.
fn parted(text: &[u8]) -> (&[u8], &[u8]) {
    match text.iter().position(|b| *b == b' ') {
        Some(at) => (&text[..at], &text[at + 1..]),
        None => (text, &[]),
    }
}

fn not_understood(out: &mut impl Write) -> io::Result<()> {
    write!(out, "not understood")
}

fn print_verdict(out: &mut impl Write, is_right: bool) -> io::Result<()> {
    put(out, if is_right { b", right" } else { b", wrong" })
}

fn print_whether(out: &mut impl Write, is_so: bool) -> io::Result<()> {
    write!(out, "{}", if is_so { "yes" } else { "no" })
}

// An RTU frame: the CRC stands last, low byte first.
fn rtu(out: &mut impl Write, frame: &[u8]) -> io::Result<()> {
    let [body @ .., low, high] = frame else {
        return write!(out, "too short for a check");
    };
    put(out, b"check ")?;
    print_joined(out, &[*low, *high])?;
    put(out, b", computed ")?;
    print_joined(out, &crc_of(body).to_le_bytes())?;
    print_verdict(out, right_crc(frame))
}

// The bytes of a Modbus ASCII frame: the LRC stands last.
fn ascii(out: &mut impl Write, bytes: &[u8]) -> io::Result<()> {
    let [body @ .., check] = bytes else {
        return write!(out, "too short for a check");
    };
    put(out, b"check ")?;
    print_byte(out, *check)?;
    put(out, b", computed ")?;
    print_byte(out, lrc_of(body))?;
    print_verdict(out, right_lrc(bytes))
}

// A text whose last two characters are its exclusive or.
fn mew(out: &mut impl Write, text: &[u8]) -> io::Result<()> {
    let [body @ .., high, low] = text else {
        return write!(out, "too short for a check");
    };
    write!(out, "check ")?;
    out.write_all(&[*high, *low])?;
    put(out, b", computed ")?;
    print_byte(out, xor_of(body))?;
    print_verdict(out, right_xor(text))
}

// A laser head frame is such a text and a period.
fn laser(out: &mut impl Write, frame: &[u8]) -> io::Result<()> {
    match frame {
        [text @ .., b'.'] => mew(out, text),
        _ => write!(out, "no period at the end"),
    }
}

// The bytes of hex pairs, which the room takes.
fn bytes_in<'a>(text: &[u8], room: &'a mut [u8]) -> Option<&'a [u8]> {
    match decode(text, room) {
        Some(n) => Some(part_of(room, 0, n)),
        None => None,
    }
}

fn bits(out: &mut impl Write, text: &[u8]) -> io::Result<()> {
    let (one, other) = parted(text);
    let mut room = [0u8; ROOM];
    let Some(a) = bytes_in(one, &mut room) else {
        return not_understood(out);
    };
    let mut other_room = [0u8; ROOM];
    let Some(b) = bytes_in(other, &mut other_room) else {
        return not_understood(out);
    };
    match bits_differing(a, b) {
        BitCount::Bits(n) => write!(out, "{n}"),
        BitCount::Refused(why) => write!(out, "refused {}", why.number()),
    }
}

// How a number that was read is written again.
#[derive(Clone, Copy)]
enum Form {
    Field(usize),
    Byte,
    LowFirst,
    HighFirst,
}

fn print_written(out: &mut impl Write, form: Form, number: u32) -> io::Result<()> {
    match form {
        Form::Field(width) => print_padded(out, number, width),
        Form::Byte => print_byte(out, (number % 256) as u8),
        Form::LowFirst => {
            let mut four = [0u8; 4];
            put_low_first(&mut four, 0, (number % 65536) as u16);
            out.write_all(&four)
        }
        Form::HighFirst => print_word(out, (number % 65536) as u16),
    }
}

fn print_number(out: &mut impl Write, form: Form, read: Number) -> io::Result<()> {
    match read {
        Number::Value(v) => {
            write!(out, "value {v}, written ")?;
            print_written(out, form, v)
        }
        Number::NoDigitAt(at) => write!(out, "no digit at {at}"),
    }
}

// A vector that is given as hex pairs.
fn answer_pairs(out: &mut impl Write, kind: &[u8], text: &[u8]) -> io::Result<()> {
    let mut room = [0u8; ROOM];
    let Some(bytes) = bytes_in(text, &mut room) else {
        return not_understood(out);
    };
    match kind {
        b"rtu" => rtu(out, bytes),
        b"ascii" => ascii(out, bytes),
        b"laserhex" => laser(out, bytes),
        b"crc" => print_word(out, crc_of(bytes)),
        b"xor" => print_byte(out, xor_of(bytes)),
        b"lrc" => print_byte(out, lrc_of(bytes)),
        _ => not_understood(out),
    }
}

fn answer(out: &mut impl Write, kind: &[u8], text: &[u8]) -> io::Result<()> {
    match kind {
        b"dec2" => print_number(out, Form::Field(2), decimal_2(text)),
        b"dec3" => print_number(out, Form::Field(3), decimal_3(text)),
        b"dec4" => print_number(out, Form::Field(4), decimal_4(text)),
        b"dec5" => print_number(out, Form::Field(5), decimal_5(text)),
        b"hex" => print_number(out, Form::Byte, hex_byte(text)),
        b"low" => print_number(out, Form::LowFirst, word_low_first(text)),
        b"high" => print_number(out, Form::HighFirst, word_high_first(text)),
        b"allhex" => print_whether(out, all_hex(text)),
        b"visible" => print_whether(out, all_between(32, 126, text)),
        b"laser" => laser(out, text),
        b"mew" => mew(out, text),
        b"bits" => bits(out, text),
        _ => answer_pairs(out, kind, text),
    }
}

fn vector(out: &mut impl Write, line: &[u8]) -> io::Result<()> {
    out.write_all(part_of(line, 0, SHOWN))?;
    if line.len() > SHOWN {
        write!(out, "..")?;
    }
    write!(out, ": ")?;
    let (kind, text) = parted(line);
    answer(out, kind, text)
}

fn answer_line(out: &mut impl Write, line: &[u8]) -> io::Result<()> {
    match line {
        [b'#', ..] => out.write_all(line)?,
        _ => vector(out, line)?,
    }
    writeln!(out)
}

fn main(rt: HostRuntime) -> io::Result<()> {
    let mut out = rt.stdout();
    let mut input = [0u8; INPUT];
    let n = read_full(&mut rt.reader(), &mut input)?;
    for line in Lines(&input[..n]) {
        answer_line(&mut out, line)?;
    }
    out.flush()
}
