// A table from a file, for the programs: lines `address attribute value` or `from-to attribute value`, as serial_station(1) tells. Every
// mistake is told with file, line and reason, in the words of that program. Nothing of the engine stands on it. Each function is proved to
// stay within what it is lent; what a program makes of its input is tested from outside (tests/tools).
#![tactic(auto)]

use std::io;
use std::io::{Read, Write};
use std::rt::Files;
use text_slices::{part_of, rest};
use tools_lines::place_from;
use tools_printing::{tell, tell_failed};
use tools_reader::{Met, Reading, line_in, open_read, read_line, start};
use tools_typed::{is_blank, number_up_to, typed_number};

// More words than a table may have are never named.
pub const WORDS: usize = 65536;

// A line without its comment is shorter.
const LONGEST_LINE: usize = 2000;

// How much of the file is read at a time.
const PIECE: usize = 4096;

// ---- mistakes

// What is wrong with a line.
#[derive(Clone, Copy)]
enum Mistake<'a> {
    // A text that may not stand there, and what may.
    Wrong(&'a [u8], &'static str),
    // A word that an earlier line has given.
    GivenBefore { word: usize, line: u64 },
}

// `table.txt:12: 5x: an address is a number from 0 to 65535`.
fn tell_mistake(
    err: &mut impl Write,
    path: &[u8],
    number: u64,
    mistake: Mistake<'_>,
) -> io::Result<()> {
    tell(err, path)?;
    write!(err, ":{number}: ")?;
    match mistake {
        Mistake::Wrong(text, reason) => {
            tell(err, text)?;
            writeln!(err, ": {reason}")
        }
        Mistake::GivenBefore { word, line } => {
            writeln!(err, "{word}: line {line} has given this word")
        }
    }
}

// ---- settings

// What a line says of the words from first to last.
#[derive(Clone, Copy)]
struct Setting {
    first: usize,
    last: usize,
    attribute: u8,
    value: u16,
}

// An address of a range.
fn address<'a>(range: &'a [u8], digits: &[u8]) -> Result<usize, Mistake<'a>> {
    match number_up_to(false, 65535, digits) {
        Some(n) => Ok(n as usize),
        None => Err(Mistake::Wrong(range, "an address is a number from 0 to 65535")),
    }
}

// What follows the dash of `from-to`; one address is both.
fn after_dash(range: &[u8], dash: usize) -> &[u8] {
    if dash < range.len() {
        rest(range, dash + 1)
    } else {
        range
    }
}

fn setting_of<'a>(
    range: &'a [u8],
    attribute: &'a [u8],
    value: &'a [u8],
) -> Result<Setting, Mistake<'a>> {
    let dash = place_from(range, 0, b'-');
    let first = address(range, part_of(range, 0, dash))?;
    let last = address(range, after_dash(range, dash))?;
    if first > last {
        return Err(Mistake::Wrong(range, "the first address is above the last"));
    }
    let Some(a) = number_up_to(false, 3, attribute) else {
        return Err(Mistake::Wrong(
            attribute,
            "an attribute is 0 (hole), 1 (read), 2 (write) or 3 (both)",
        ));
    };
    let Some(v) = typed_number(65535, value) else {
        return Err(Mistake::Wrong(
            value,
            "a value is a number from 0 to 65535, or from 0x0 to 0xFFFF",
        ));
    };
    Ok(Setting {
        first,
        last,
        attribute: (a % 256) as u8,
        value: (v % 65536) as u16,
    })
}

// The setting of a line without its comment, if it has one.
fn setting_in(line: &[u8]) -> Result<Option<Setting>, Mistake<'_>> {
    if line.contains(&0) {
        return Err(Mistake::Wrong(b"byte 00h", "a table is text"));
    }
    let mut fields = line
        .split(|b| is_blank(*b))
        .filter(|field| !field.is_empty());
    let Some(range) = fields.next() else {
        return Ok(None);
    };
    let (Some(attribute), Some(value), None) = (fields.next(), fields.next(), fields.next()) else {
        return Err(Mistake::Wrong(
            range,
            "a line is `address attribute value` or `from-to attribute value`",
        ));
    };
    Ok(Some(setting_of(range, attribute, value)?))
}

// The setting of a line that was read. A comment may be longer than the room for a line: only what stands before it counts.
fn setting_read(reading: Reading, room: &[u8]) -> Result<Option<Setting>, Mistake<'_>> {
    let line = line_in(reading, room);
    let end = place_from(line, 0, b'#');
    if reading.is_over && end == line.len() {
        return Err(Mistake::Wrong(b"the line", "too long"));
    }
    setting_in(&line[..end])
}

// ---- tables

// A table that a file fills, and which line gave each word: 0 is none, as lines are numbered from 1 on.
#[derive(Drop)]
struct Table<'a> {
    words: &'a mut [u16],
    attributes: &'a mut [u8],
    lines: &'a mut [u64],
}

impl<'a> Table<'a> {
    // A word is given once, by the line of a number; a word that the table lacks is passed over.
    fn give(&mut self, k: usize, setting: Setting, number: u64) -> Result<(), Mistake<'static>> {
        if k >= self.words.len() || k >= self.attributes.len() || k >= self.lines.len() {
            return Ok(());
        }
        let earlier = self.lines[k];
        if earlier > 0 {
            return Err(Mistake::GivenBefore {
                word: k,
                line: earlier,
            });
        }
        self.words[k] = setting.value;
        self.attributes[k] = setting.attribute;
        self.lines[k] = number;
        Ok(())
    }

    // All words of a setting, or those before the first that an earlier line gave.
    fn set(&mut self, setting: Setting, number: u64) -> Result<(), Mistake<'static>> {
        for k in setting.first..=setting.last {
            self.give(k, setting, number)?;
        }
        Ok(())
    }

    // What the line in the room says.
    fn take<'b>(&mut self, reading: Reading, room: &'b [u8]) -> Result<(), Mistake<'b>> {
        match setting_read(reading, room)? {
            Some(setting) => self.set(setting, reading.number),
            None => Ok(()),
        }
    }
}

// ---- files

// A file that could not be opened or read, which is told; false, for what it came to.
fn has_failed(err: &mut impl Write, path: &[u8], why: io::Error) -> io::Result<bool> {
    tell_failed(err, path, &why)?;
    Ok(false)
}

// All lines of an open file; whether none has a mistake and all could be read, which is told otherwise.
fn take_file(
    err: &mut impl Write,
    file: &mut impl Read,
    path: &[u8],
    table: &mut Table<'_>,
) -> io::Result<bool> {
    let mut piece = [0u8; PIECE];
    let mut room = [0u8; LONGEST_LINE];
    let mut is_fine = true;
    let mut reading = start();
    for _ in 0..u64::MAX {
        match read_line(file, &mut piece, reading, &mut room) {
            Ok(next) => reading = next,
            Err(why) => return has_failed(err, path, why),
        }
        if matches!(reading.met, Met::More | Met::End) {
            return Ok(is_fine);
        }
        if let Err(mistake) = table.take(reading, &room) {
            tell_mistake(err, path, reading.number, mistake)?;
            is_fine = false;
        }
    }
    Ok(is_fine)
}

// The words and attributes of a table file over holes; whether it can be used, as all that is wrong has been told; an error is one of telling it, and
// the words and attributes that lines before gave are set then.
pub fn read_table(
    rt: &impl Files,
    err: &mut impl Write,
    path: &[u8],
    words: &mut [u16],
    attributes: &mut [u8],
) -> io::Result<bool> {
    let mut lines = [0u64; WORDS];
    let mut table = Table {
        words,
        attributes,
        lines: &mut lines,
    };
    match open_read(rt, path) {
        Ok(mut file) => take_file(err, &mut file, path, &mut table),
        Err(why) => has_failed(err, path, why),
    }
}
