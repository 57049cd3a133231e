// Lines of any number and length from an open file or another reader, for the programs: each is handed out as soon as it has come, so that a
// person at a terminal sees the answer to one before typing the next. The line stands in a room of the caller's; of one that is longer, what
// doesn't fit is passed over, and that there was more is told. Nothing of the engine stands on it.
#![tactic(auto)]

ghost use Rattle.std.specs.Prelude.{◌≡◌, ◌<◌, ◌≤◌, IfOk, length};
ghost use Rattle.tools_reader.specs.Reader as rd;

use std::fs::File;
use std::io;
use std::io::{ErrorKind, Read};
use std::rt::Files;
use text_slices::{byte_at, part_of};

// A file, opened to be read. std's paths are UTF-8 text.
pub fn open_read<R: Files>(rt: &R, path: &[u8]) -> io::Result<R::File> {
    match str::from_utf8(path) {
        Ok(text) => File::open(rt, text),
        Err(_) => Err(io::Error::new(ErrorKind::InvalidInput, "a path is UTF-8 text")),
    }
}

// Fills a room from a reader, up to the reader's end; how many bytes came. Where a read fails there is its error, and the bytes that had come
// stand at the room's front.
pub fn read_full(input: &mut impl Read, room: &mut [u8]) -> io::Result<usize>
    ensures { IfOk result (λ n. n ≤ length room.new) }
{
    let mut at = 0;
    // a turn goes on by as many bytes as the read gave
    while at < room.len() {
        let n = input.read(&mut room[at..])?;
        if n == 0 {
            return Ok(at);
        }
        at += n;
    }
    Ok(at)
}

// What reading came to.
#[derive(Clone, Copy)]
pub enum Met {
    // The line goes on.
    More,
    // A line stands in the room.
    Line,
    // The last line stands in the room, and had no LF.
    Last,
    // There is no line any more.
    End,
}

// Where reading is: at the byte of the piece that comes next, of so many that were filled. So many bytes of the line stand in the room,
// and whether there were more; lines are numbered from 1 on.
#[derive(Clone, Copy)]
pub struct Reading {
    pub at: usize,
    pub filled: usize,
    pub used: usize,
    pub is_over: bool,
    pub number: u64,
    pub met: Met,
}

// Before the first line.
pub fn start() -> Reading {
    Reading {
        at: 0,
        filled: 0,
        used: 0,
        is_over: false,
        number: 0,
        met: Met::Line,
    }
}

// A line's next byte goes behind the first bytes of a room, if there is a place for it; how many there are then.
pub fn take(room: &mut [u8], used: usize, byte: u8) -> usize
    ensures value { result ≡ rd.counted room.old used }
    ensures room_after { room.new ≡ rd.kept room.old used byte }
{
    if used < room.len() {
        room[used] = byte;
        return used + 1;
    }
    used
}

fn hear(reading: Reading, byte: u8, room: &mut [u8]) -> Reading {
    let at = reading.at.saturating_add(1);
    if byte == b'\n' {
        return Reading {
            at,
            met: Met::Line,
            ..reading
        };
    }
    let is_over = reading.is_over || reading.used >= room.len();
    let used = take(room, reading.used, byte);
    Reading {
        at,
        used,
        is_over,
        met: Met::More,
        ..reading
    }
}

fn ended(reading: Reading, met: Met) -> Reading {
    Reading {
        at: 0,
        filled: 0,
        met,
        ..reading
    }
}

// The next piece of the file, as much as there is of it now.
fn refill(input: &mut impl Read, piece: &mut [u8], reading: Reading) -> io::Result<Reading> {
    let filled = input.read(piece)?;
    if filled > 0 {
        return Ok(Reading {
            at: 0,
            filled,
            met: Met::More,
            ..reading
        });
    }
    if reading.used > 0 {
        return Ok(ended(reading, Met::Last));
    }
    Ok(ended(reading, Met::End))
}

fn go_on(
    input: &mut impl Read,
    piece: &mut [u8],
    reading: Reading,
    room: &mut [u8],
) -> io::Result<Reading> {
    let at = reading.at;
    if at < reading.filled {
        return Ok(hear(reading, byte_at(piece, at), room));
    }
    refill(input, piece, reading)
}

// Reads the next line, or ends in the error of the read that failed: what had come of the line stands in the room then. A proved loop has to
// end, and nothing says that a file does: its turns are counted up to a number that no run comes to.
pub fn read_line(
    input: &mut impl Read,
    piece: &mut [u8],
    reading: Reading,
    room: &mut [u8],
) -> io::Result<Reading> {
    let mut state = Reading {
        used: 0,
        is_over: false,
        number: reading.number.saturating_add(1),
        met: Met::More,
        ..reading
    };
    for _ in 0..u64::MAX {
        state = go_on(input, piece, state, room)?;
        if !matches!(state.met, Met::More) {
            break;
        }
    }
    Ok(state)
}

// The mark that some editors put before the first line: EF BB BF.
fn has_mark(line: &[u8]) -> bool {
    line.starts_with(&[0xEF, 0xBB, 0xBF])
}

// The line in the room, as far as it fits; the first without its byte order mark.
pub fn line_in(reading: Reading, room: &[u8]) -> &[u8] {
    let line = part_of(room, 0, reading.used);
    if reading.number == 1 && has_mark(line) {
        return part_of(line, 3, line.len());
    }
    line
}
