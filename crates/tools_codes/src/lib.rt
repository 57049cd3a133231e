// What `explain` prints of names and codes: each with its meaning, a line for each; `pointing` shows where a frame is wrong. Nothing of the
// engine stands on it; what is printed is held to the stored output.
#![tactic(auto)]

pub mod pointing;

use std::io;
use std::io::{Cursor, Write};
use text_slices::part_of;
use tools_printing::put;

// More than any line has.
const LINE: usize = 80;

// A line that was gathered, in one piece: standard output has no buffer.
fn put_line(out: &mut impl Write, line: &Cursor<[u8; LINE]>) -> io::Result<()> {
    put(out, part_of(line.get_ref(), 0, line.position() as usize))
}

fn print_meaning(out: &mut impl Write, code: u8, text: &str) -> io::Result<()> {
    let mut line = Cursor::new([0u8; LINE]);
    writeln!(line, "{code:02X}, {text}")?;
    put_line(out, &line)
}

// Prints a code that means something; whether it does.
fn print_code(out: &mut impl Write, code: u8, meaning: Option<&str>) -> io::Result<bool> {
    let Some(text) = meaning else {
        return Ok(false);
    };
    print_meaning(out, code, text)?;
    Ok(true)
}

// Prints an error number or an exception.
fn print_answered(out: &mut impl Write, code: u8, meaning: Option<&str>) -> io::Result<()> {
    let text = meaning.unwrap_or("which our stations never give");
    print_meaning(out, code, text)
}

// ---- the codes

// The commands of MEWTOCOL.
const COMMANDS: [(&str, &str); 9] = [
    ("RCS", "read one contact"),
    ("RCP", "read contacts"),
    ("RCC", "read relay words"),
    ("WCS", "write one contact"),
    ("WCP", "write contacts"),
    ("WCC", "write relay words"),
    ("RD", "read words"),
    ("WD", "write words"),
    ("SD", "fill words with one value"),
];

// The command that a MEWTOCOL text begins with.
pub fn print_command(out: &mut impl Write, text: &[u8]) -> io::Result<()> {
    for (name, meaning) in COMMANDS {
        if text.starts_with(name.as_bytes()) {
            let mut line = Cursor::new([0u8; LINE]);
            writeln!(line, "{name}, {meaning}")?;
            return put_line(out, &line);
        }
    }
    Ok(())
}

// The number of a MEWTOCOL error.
pub fn print_error(out: &mut impl Write, number: u8) -> io::Result<()> {
    let meaning = match number {
        0x40 => Some("the check is wrong"),
        0x41 => Some("the form of the text is wrong"),
        0x42 => Some("the command is not known"),
        0x60 => Some("a count, letter or range is wrong"),
        0x61 => Some("the data is wrong"),
        0x66 => Some("a word or contact is not there or not open"),
        _ => None,
    };
    print_answered(out, number, meaning)
}

// A function of Modbus, where it is one of ours.
pub fn print_function(out: &mut impl Write, function: u8) -> io::Result<()> {
    let meaning = match function {
        0x01 => Some("read coils"),
        0x03 => Some("read registers"),
        0x05 => Some("write one coil"),
        0x06 => Some("write one register"),
        0x08 => Some("diagnosis"),
        0x0F => Some("write coils"),
        0x10 => Some("write registers"),
        0x16 => Some("mask a register"),
        _ => None,
    };
    print_code(out, function, meaning)?;
    Ok(())
}

// A sub-function of 08 by its two bytes, where it is one of ours; whether it is.
pub fn print_sub_function(out: &mut impl Write, high: u8, low: u8) -> io::Result<bool> {
    let meaning = match (high, low) {
        (0, 0x00) => Some("echo"),
        (0, 0x0A) => Some("clear"),
        (0, 0x0B) => Some("bus messages"),
        (0, 0x0C) => Some("check errors"),
        (0, 0x0D) => Some("exception replies"),
        (0, 0x0E) => Some("own messages"),
        (0, 0x0F) => Some("no response"),
        _ => None,
    };
    print_code(out, low, meaning)
}

// An exception to function 08.
pub fn print_diagnosis_exception(out: &mut impl Write, code: u8) -> io::Result<()> {
    let meaning = match code {
        1 => Some("the sub-function is not known"),
        3 => Some("a length is wrong, or the data is not zero"),
        _ => None,
    };
    print_answered(out, code, meaning)
}

// An exception to another function of Modbus.
pub fn print_exception(out: &mut impl Write, code: u8) -> io::Result<()> {
    let meaning = match code {
        1 => Some("the function is not known"),
        2 => Some("a register or coil is not there or not open"),
        3 => Some("a length, quantity or value is wrong"),
        _ => None,
    };
    print_answered(out, code, meaning)
}
