// Says of each word of the command line what it is:
//   400134, 000209           a register or coil as the catalogue numbers it
//   DT00133, WR0103, R1030   a data register, a relay word, a contact
//   400134=5                 one of these and a number that is to be written to it, in decimal or in hex behind `0x`
//   400101=-950000           a limit of the HL-G2, 50 mm type, and a signed number that is to be written to its two words
//   hex pairs                a frame: RTU, or any other that starts and ends as its kind does. Blanks, commas, colons and `0x` may stand
//                            between them, lower case is allowed, and a frame may be several words
//   a text from `:`, `%`, `<`, `/` on   an ASCII, MEWTOCOL or laser head frame; CR and LF may be left out, and `\0` is the byte 00h
// For a register or coil it prints the address that goes out in a frame, its other names and the requests that read or write it; of a
// frame, its parts, its check and what the check should be, what it asks or tells, and what a station makes of it. What is none of these
// gets one line that says why, or what was probably meant. Of a frame to a station it prints the cells that it may read and write; of two words that
// are such frames, whether their order can matter, and where they meet first.
#![tactic(auto)]

ghost use Rattle.std.specs.Prelude.{◌<◌, ◌≤◌, IfOk, IsTrue};

use std::io;
use std::io::Write;
use std::rt::Env;
use text_slices::part_of;
use tools_cells::{Sent, print_order};
use tools_options::{
    ARGUMENT, Options, Run, Word, arg, arg_count, print_version, read_options, take,
};
use tools_pages::add;
use tools_printing::{end_output, print_text, put, went_out};
use tools_typed::{push, trimmed};
use tools_words::{Frame, LONGEST, Part, explain_word, frame_in, part_in};

// ---- words of the command line

// A word and what it is.
fn explain_shown(out: &mut impl Write, station: u32, word: &[u8]) -> io::Result<()> {
    print_text(out, word)?;
    put(out, b"\n")?;
    explain_word(out, station, word)?;
    went_out(out, b"\n")
}

fn explain_argument(rt: &impl Env, out: &mut impl Write, station: u32, i: usize) -> io::Result<()> {
    let mut buffer = [0u8; ARGUMENT];
    let Ok(n) = rt.arg(i, &mut buffer) else {
        return went_out(
            out,
            b"(an argument over 4,096 bytes)\n  too long: no frame is\n\n",
        );
    };
    explain_shown(out, station, trimmed(&buffer[..n]))
}

// ---- frames in several words

fn part_at(rt: &impl Env, i: usize) -> Part {
    let mut buffer = [0u8; ARGUMENT];
    let n = arg(rt, i, &mut buffer);
    part_in(trimmed(&buffer[..n]))
}

// Where the words from one on that may be parts of a frame end.
fn parts_end(rt: &impl Env, i: usize, count: usize) -> usize
    requires { i ≤ count }
    ensures { i ≤ result }
{
    for end in i..count {
        if matches!(part_at(rt, end), Part::None) {
            return end;
        }
    }
    count
}

// Some words of the command line that are explained as one: from the first to before the end.
#[derive(Clone, Copy)]
struct Span {
    first: usize,
    end: usize,
}

// Whether one of several words is too short for a frame by itself: all are then one frame.
fn is_joined(rt: &impl Env, span: Span) -> bool
    requires { span.first ≤ span.end }
    ensures { IsTrue result → span.first < span.end }
{
    if span.end - span.first < 2 {
        return false;
    }
    for i in span.first..span.end {
        if matches!(part_at(rt, i), Part::Short) {
            return true;
        }
    }
    false
}

// A blank behind the first n bytes of a room, if there are any.
fn part(room: &mut [u8], n: usize) -> usize {
    if 0 < n { push(room, n, b' ') } else { n }
}

// A word behind the first n bytes of a room, and a blank before it; how many bytes there are then.
fn add_word(rt: &impl Env, room: &mut [u8], n: usize, i: usize) -> usize {
    let mut buffer = [0u8; ARGUMENT];
    let k = arg(rt, i, &mut buffer);
    let blank = part(room, n);
    add(room, blank, trimmed(&buffer[..k]))
}

fn join(rt: &impl Env, room: &mut [u8], span: Span) -> usize {
    let mut n = 0;
    for i in span.first..span.end {
        n = add_word(rt, room, n, i);
    }
    n
}

// What doesn't fit leaves more than the longest frame, and is told so.
fn explain_joined(rt: &impl Env, out: &mut impl Write, station: u32, span: Span) -> io::Result<()> {
    let mut room = [0u8; LONGEST + 1];
    let n = join(rt, &mut room, span);
    explain_shown(out, station, part_of(&room, 0, n))
}

// Explains a word, with those after it where all are one frame; which they were.
fn explain_operand(
    rt: &impl Env,
    out: &mut impl Write,
    station: u32,
    i: usize,
    count: usize,
) -> io::Result<Span>
    requires { i < count }
    ensures { IfOk result (λ span. i < span.end) }
{
    let span = Span {
        first: i,
        end: parts_end(rt, i, count),
    };
    if is_joined(rt, span) {
        explain_joined(rt, out, station, span)?;
        return Ok(span);
    }
    explain_argument(rt, out, station, i)?;
    Ok(Span {
        first: i,
        end: i + 1,
    })
}

// ---- two frames

// The operands, as far as two alone may be frames whose order matters.
#[derive(Clone, Copy)]
enum Operands {
    None,
    One(Span),
    Two(Span, Span),
    More,
}

impl Operands {
    fn and(self, next: Span) -> Operands {
        match self {
            Operands::None => Operands::One(next),
            Operands::One(one) => Operands::Two(one, next),
            Operands::Two(_, _) | Operands::More => Operands::More,
        }
    }
}

// The frame to a station that some words are, if they are one, in a room of its own.
fn frame_at(rt: &impl Env, span: Span, room: &mut [u8]) -> Option<Frame> {
    let mut words = [0u8; LONGEST + 1];
    let n = join(rt, &mut words, span);
    frame_in(part_of(&words, 0, n), room)
}

// Whether the order of two frames to stations can matter; of anything else nothing is said.
fn explain_order(rt: &impl Env, out: &mut impl Write, one: Span, other: Span) -> io::Result<()> {
    let mut one_room = [0u8; LONGEST + 2];
    let mut other_room = [0u8; LONGEST + 2];
    let Some(first) = frame_at(rt, one, &mut one_room) else {
        return Ok(());
    };
    let Some(second) = frame_at(rt, other, &mut other_room) else {
        return Ok(());
    };
    put(out, b"the order of the two\n")?;
    print_order(
        out,
        Sent {
            line: first.line,
            frame: part_of(&one_room, 0, first.count),
        },
        Sent {
            line: second.line,
            frame: part_of(&other_room, 0, second.count),
        },
    )?;
    put(out, b"\n")
}

fn explain_all(rt: &impl Env, out: &mut impl Write, station: u32) -> io::Result<()> {
    let count = arg_count(rt);
    let mut seen = Operands::None;
    let mut is_ended = false;
    let mut i = 1;
    // No `for`: a turn takes one word or several.
    while i < count {
        let taken = take(rt, b"s", i, count, is_ended);
        match taken.word {
            Word::Operand => {
                let span = explain_operand(rt, out, station, i, count)?;
                seen = seen.and(span);
                i = span.end;
            }
            Word::Ending => {
                is_ended = true;
                i = taken.next;
            }
            Word::Help | Word::Version | Word::Letter(_) => i = taken.next,
        }
    }
    match seen {
        Operands::Two(one, other) => explain_order(rt, out, one, other),
        Operands::None | Operands::One(_) | Operands::More => Ok(()),
    }
}

const USAGE: &[u8] = b"usage: explain [-s station] word ...
  says what each word is; -s is the station of the requests that are shown, 1 to 247
  400134, 000209   a register or coil as the catalogue numbers it
  DT00133, WR0103, R1030   a data register, a relay word, a contact
  400134=5   one of these, and what is to be written to it
  400101=-950000   a limit of the HL-G2, in two words
  01 03 00 85 00 01 95 E3   a frame in hex
  :01030085000176   a Modbus ASCII frame, without CR and LF
  '%01#RDD001050010757'   a MEWTOCOL frame, without CR
  '/060D12345\\06C.'   a laser head frame; \\0 is the byte 00h
  two frames   also whether their order can matter
explain --version | --help
";

fn explain(rt: &impl Env, out: &mut impl Write, o: Options) -> io::Result<()> {
    if o.first.is_none() {
        return put(out, USAGE);
    }
    explain_all(rt, out, o.station)
}

fn run(rt: &impl Env, out: &mut impl Write, err: &mut impl Write) -> io::Result<()> {
    let o = read_options(rt, err, b"s")?;
    match o.run {
        Run::Go => explain(rt, out, o),
        Run::Help => put(out, USAGE),
        Run::Version => print_version(out, b"explain"),
        Run::Stop => Ok(()),
    }
}

fn main(rt: HostRuntime) -> io::Result<()> {
    let mut out = rt.stdout();
    let mut err = rt.stderr();
    let went = run(&rt, &mut out, &mut err);
    end_output(&mut out, &mut err, went)
}
