// Runs the laser head's frames: read, told as a distance, and written. Each line of standard input is one step and gives one line of
// output.
//
//   k TEXT     reads a frame, and as a distance: TEXT, its check and `.`
//   l TEXT     the same of TEXT alone
//   p ROOM TEXT   writes a frame into a room of ROOM bytes, at most 118, and reads it: TEXT is two command bytes and the data
// In a TEXT, and where bytes are printed, `\` and two hex digits stand for a byte. At most 200 bytes of a TEXT are taken. Any other
// line is a heading, and is repeated.
//
// A frame is printed whole; what was read is its command, its data between brackets, and after an arrow its distance. A refusal is
// printed by its number, and 13 with the place in the frame.
#![tactic(auto)]

use checks_xor::put_xor;
use laser::{Distance, Reading, Written, frame_data, read_distance, read_frame, write_frame};
use rules::Refusal;
use std::io;
use std::io::Write;
use text_slices::{byte_at, part_of, rest};
use tools_escapes::{print_escaped, unescape};
use tools_lines::Lines;
use tools_reader::read_full;
use tools_tables::{after_blank, at_most, kind_of, number, print_refused};

// How much of the input is read, in bytes.
const INPUT: usize = 65536;

// A text, its check and the last character.
const FRAME: usize = 203;

// The largest room that a frame is written into.
const ROOM: usize = 118;

fn print_reading(out: &mut impl Write, reading: Reading) -> io::Result<()> {
    match reading {
        Reading::Frame(first, second) => {
            write!(out, "command ")?;
            print_escaped(out, &[first, second])
        }
        Reading::Refused(why) => print_refused(out, why),
    }
}

fn print_distance(out: &mut impl Write, distance: Distance) -> io::Result<()> {
    match distance {
        Distance::Hundredths(v) => write!(out, "distance {v}"),
        Distance::NotAsked(at) => {
            print_refused(out, Refusal::NOT_ASKED)?;
            write!(out, " at {at}")
        }
        Distance::Refused(why) => print_refused(out, why),
    }
}

// Reads a frame.
fn tell(out: &mut impl Write, frame: &[u8]) -> io::Result<()> {
    print_reading(out, read_frame(frame))?;
    write!(out, ", data [")?;
    print_escaped(out, frame_data(frame))?;
    write!(out, "] -> ")?;
    print_distance(out, read_distance(frame))
}

// Reads the frame that a text is, with its check and `.`.
fn tell_checked(out: &mut impl Write, text: &[u8]) -> io::Result<()> {
    let mut room = [0u8; FRAME];
    let n = unescape(text, &mut room);
    let whole = put_xor(&mut room, n, b'.');
    tell(out, part_of(&room, 0, whole))
}

// Reads the frame that a text is alone.
fn tell_bare(out: &mut impl Write, text: &[u8]) -> io::Result<()> {
    let mut room = [0u8; FRAME];
    let n = unescape(text, &mut room);
    tell(out, part_of(&room, 0, n))
}

// Writes a frame, a command and its data, into so many bytes of a room, and reads it.
fn write_and_tell(out: &mut impl Write, setting: &[u8]) -> io::Result<()> {
    let mut typed = [0u8; FRAME];
    let n = unescape(after_blank(setting), &mut typed);
    let text = part_of(&typed, 0, n);
    let mut room = [0u8; ROOM];
    let most = at_most(number(setting) as usize, ROOM);
    let (first, second) = (byte_at(text, 0), byte_at(text, 1));
    match write_frame(&mut room[..most], first, second, rest(text, 2)) {
        Written::Frame(n) => {
            let frame = part_of(&room, 0, n);
            print_escaped(out, frame)?;
            write!(out, " -> ")?;
            tell(out, frame)
        }
        Written::Refused(why) => print_refused(out, why),
    }
}

// A line, and what is answered.
fn step(out: &mut impl Write, line: &[u8]) -> io::Result<()> {
    out.write_all(line)?;
    let setting = rest(line, 2);
    let kind = kind_of(line);
    if let b'k' | b'l' | b'p' = kind {
        write!(out, " -> ")?;
    }
    match kind {
        b'k' => tell_checked(out, setting)?,
        b'l' => tell_bare(out, setting)?,
        b'p' => write_and_tell(out, setting)?,
        _ => {}
    }
    writeln!(out)
}

fn main(rt: HostRuntime) -> io::Result<()> {
    let mut out = rt.stdout();
    let mut input = [0u8; INPUT];
    let n = read_full(&mut rt.reader(), &mut input)?;
    for line in Lines(&input[..n]) {
        step(&mut out, line)?;
    }
    out.flush()
}
