// Runs pairs of frames: whether they meet, and at which cell first. Each line of standard input is one step and gives one line of output.
//
//   o FRAME | FRAME   over 200 words that may be read and written
//   r FRAME | FRAME   over 200 words that may be read
//   h FRAME | FRAME   over the first, with the profile of the HL-G2, 50 mm type
// A frame is typed as `explain` takes it, and heard by station 1. Any other line is a heading, and is repeated.
//
// What they do is printed of each, `r` for read, `w` for write, `-` for nothing, and after an arrow the first cell and its word and bit.
#![tactic(auto)]

use masters::{Line, meeting, touched};
use std::io;
use std::io::Write;
use table_cells::Meeting;
use table_registers::Profile;
use text_slices::{part_of, rest};
use tools_lines::{Lines, place_from};
use tools_names::print_bit;
use tools_reader::read_full;
use tools_tables::kind_of;
use tools_typed::trimmed;
use tools_words::{Frame, LONGEST, frame_in};

// How much of the input is read, in bytes.
const INPUT: usize = 65536;

const WORDS: usize = 200;

const OWN: u32 = 1;

// What is no frame to a station is an RTU frame of no bytes, which does nothing.
const NONE: Frame = Frame {
    line: Line::Rtu,
    count: 0,
};

// A frame, and the line that it is of.
#[derive(Clone, Copy)]
struct Sent<'a> {
    line: Line,
    frame: &'a [u8],
}

// A table that both frames of a step meet at.
#[derive(Clone, Copy)]
struct Site<'a> {
    attributes: &'a [u8],
    profile: Profile,
}

impl<'a> Site<'a> {
    // What a frame does.
    fn print_touched(self, out: &mut impl Write, sent: Sent<'_>) -> io::Result<()> {
        let cells = touched(sent.line, self.attributes, self.profile, OWN, sent.frame);
        let way = match cells.way {
            1 => "r",
            2 => "w",
            3 => "rw",
            _ => "-",
        };
        write!(out, "{way}")
    }

    fn print_meeting(self, out: &mut impl Write, one: Sent<'_>, other: Sent<'_>) -> io::Result<()> {
        let at = meeting(
            self.attributes,
            self.profile,
            one.line,
            OWN,
            one.frame,
            other.line,
            OWN,
            other.frame,
        );
        match at {
            Meeting::Never => write!(out, "apart"),
            Meeting::At(cell) => {
                write!(out, "{cell}, ")?;
                print_bit(out, cell as usize)
            }
        }
    }

    // What the two frames of a text do, and where they meet.
    fn tell(self, out: &mut impl Write, text: &[u8]) -> io::Result<()> {
        let bar = place_from(text, 0, b'|');
        let mut room = [0u8; LONGEST + 2];
        let found = frame_in(trimmed(part_of(text, 0, bar)), &mut room).unwrap_or(NONE);
        let one = Sent {
            line: found.line,
            frame: part_of(&room, 0, found.count),
        };
        let mut other_room = [0u8; LONGEST + 2];
        let found = frame_in(trimmed(rest(rest(text, bar), 2)), &mut other_room).unwrap_or(NONE);
        let other = Sent {
            line: found.line,
            frame: part_of(&other_room, 0, found.count),
        };
        write!(out, " -> ")?;
        self.print_touched(out, one)?;
        write!(out, " ")?;
        self.print_touched(out, other)?;
        write!(out, " -> ")?;
        self.print_meeting(out, one, other)
    }
}

fn step(out: &mut impl Write, line: &[u8]) -> io::Result<()> {
    out.write_all(line)?;
    let (attribute, profile) = match kind_of(line) {
        b'o' => (3, Profile::Free),
        b'r' => (1, Profile::Free),
        b'h' => (3, Profile::HlG2),
        _ => return writeln!(out),
    };
    let site = Site {
        attributes: &[attribute; WORDS],
        profile,
    };
    site.tell(out, rest(line, 2))?;
    writeln!(out)
}

fn main(rt: HostRuntime) -> io::Result<()> {
    let mut out = rt.stdout();
    let mut input = [0u8; INPUT];
    let n = read_full(&mut rt.reader(), &mut input)?;
    for line in Lines(&input[..n]) {
        step(&mut out, line)?;
    }
    out.flush()
}
