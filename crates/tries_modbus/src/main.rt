// Runs Modbus requests through both stations, and prints what they answer. Each line of standard input is one request and
// gives one line of output: the request (cut after 60 characters), a colon, the reply, `carried out` or the number of the
// refusal, and every word that the request changed.
//
// All requests share one record of the line's counters. Behind a `+` the line ends with the five counts that the request left.
//
// A request is a kind, one blank, and a text:
//   rtu      an RTU frame as hex pairs
//   pdu      a body as hex pairs; station 1 and the CRC are put around it
//   ascii    an ASCII frame; its CR and LF are left out
//   raw      an ASCII frame as hex pairs, CR and LF with it
//   text     a body as hex pairs; `:`, station 1, the LRC, CR and LF are put around it
//   all, alltext    as pdu and text, to station 0, which is all stations
//   fit, fittext, fitall    as pdu, text and all, to a station with the profile of the HL-G2, 50 mm
//   few, own0, own247, own248, room512    as rtu, with an attribute too few, another own station, a room of 512 bytes
//   whole    as rtu, over the largest table there is, all open, with all words 0
//   counters    no request: the five counts as ten hex pairs, high byte first, which the record is set to
// A `-` stands for no bytes at all. What starts with `#` is a heading, and is repeated. Each request but `whole` is given the same
// table of 4,096 words. At most 65,536 bytes of input are read.
#![tactic(auto)]

use checks_crc::crc_of;
use checks_lrc::lrc_of;
use modbus_ascii::ascii_station;
use modbus_counters::Counters;
use modbus_rtu::rtu_station;
use station::Answer;
use std::alloc::{AllocError, Global};
use std::io;
use std::io::Write;
use table_registers::Profile;
use text_hex::put_hex;
use text_slices::part_of;
use tools_lines::{Lines, decode};
use tools_printing::{print_joined, print_refusal, print_text, print_word};
use tools_reader::read_full;

// How much of the input is read, in bytes.
const INPUT: usize = 65536;

// The longest request, in bytes: longer than any frame that a station takes. What is longer is cut.
const ROOM: usize = 600;

// How many bytes of a body, or of a text, go into a frame.
const BODY: usize = 500;

// How many characters of a request are repeated.
const SHOWN: usize = 60;

// The number of words in the table.
const WORDS: usize = 4096;

// The number of words in the largest there is.
const MOST: usize = 65536;

// The smallest room that a station takes for a reply.
const REPLY: usize = 513;

// ---- frames

// A station, a body and its CRC.
fn rtu_frame(alloc: Global, to: u8, body: &[u8]) -> Result<Vec<u8>, AllocError> {
    let mut frame = vec![in alloc; to]?;
    frame.extend_from_slice(part_of(body, 0, BODY))?;
    let crc = crc_of(&frame);
    frame.extend_from_slice(&crc.to_le_bytes())?;
    Ok(frame)
}

// `:`, a station, a body and its LRC as hex pairs, CR and LF.
fn text_frame(alloc: Global, to: u8, body: &[u8]) -> Result<Vec<u8>, AllocError> {
    let mut bytes = vec![in alloc; to]?;
    bytes.extend_from_slice(part_of(body, 0, BODY))?;
    let lrc = lrc_of(&bytes);
    bytes.push(lrc)?;
    let mut frame = vec![in alloc; b':']?;
    for byte in bytes {
        let mut pair = [0u8; 2];
        put_hex(&mut pair, 0, byte);
        frame.extend_from_slice(&pair)?;
    }
    frame.extend_from_slice(b"\r\n")?;
    frame.truncate(ROOM);
    Ok(frame)
}

// A text with its CR and LF.
fn ended(alloc: Global, text: &[u8]) -> Result<Vec<u8>, AllocError> {
    let mut frame = Vec::new(alloc);
    frame.extend_from_slice(part_of(text, 0, BODY))?;
    frame.extend_from_slice(b"\r\n")?;
    Ok(frame)
}

// ---- the table

// Each word is its own number, but for the relay words and those of the worked lines.
fn usual_words() -> [u16; WORDS] {
    let mut words = [0; WORDS];
    for (i, word) in words.iter_mut().enumerate() {
        *word = (i % 65536) as u16;
    }
    words[18] = 0x0012;
    words[105] = 0x1234;
    words[106] = 0xFFFF;
    words[107] = 0x0000;
    words[130..136].copy_from_slice(&[0xA5C3, 0x8001, 0xFFFF, 0x0000, 0x7FFE, 0x5A3C]);
    words
}

// Words 200 to 203 and 134 are holes, 210 to 213 and 131 read-only, 220 to 223 and 132 write-only.
fn usual_attributes() -> [u8; WORDS] {
    let mut attributes = [3; WORDS];
    attributes[200..204].fill(0);
    attributes[210..214].fill(1);
    attributes[220..224].fill(2);
    attributes[131] = 1;
    attributes[132] = 2;
    attributes[134] = 0;
    attributes
}

// Every word that is no longer what it was, with its number.
fn print_changes(out: &mut impl Write, before: &[u16], after: &[u16]) -> io::Result<()> {
    for (k, (was, is)) in before.iter().zip(after).enumerate() {
        if was != is {
            write!(out, ", word {k} ")?;
            print_word(out, *is)?;
        }
    }
    Ok(())
}

// ---- the station

#[derive(Clone, Copy)]
enum Format {
    Rtu,
    Ascii,
}

// The station that a request goes to: how many attributes its table has, and how large a room for its reply.
#[derive(Clone, Copy)]
struct Called {
    format: Format,
    profile: Profile,
    own: u32,
    attributes: usize,
    room: usize,
}

impl Called {
    fn rtu() -> Called {
        Called {
            format: Format::Rtu,
            profile: Profile::Free,
            own: 1,
            attributes: WORDS,
            room: REPLY,
        }
    }

    fn ascii() -> Called {
        Called {
            format: Format::Ascii,
            ..Called::rtu()
        }
    }

    // The same with the profile of the HL-G2.
    fn fitting(self) -> Called {
        Called {
            profile: Profile::HlG2,
            ..self
        }
    }

    fn print_answer(self, out: &mut impl Write, answer: Answer, room: &[u8]) -> io::Result<()> {
        match answer {
            Answer::Reply(n) => {
                write!(out, "reply ")?;
                let reply = part_of(room, 0, n);
                match self.format {
                    Format::Rtu => print_joined(out, reply),
                    Format::Ascii => print_text(out, reply),
                }
            }
            Answer::CarriedOut => write!(out, "carried out"),
            Answer::Refused(number) => print_refusal(out, number),
        }
    }

    // Answers a frame over a table.
    fn answer(
        self,
        out: &mut impl Write,
        words: &mut [u16],
        attributes: &[u8],
        frame: &[u8],
        counters: &mut Counters,
    ) -> io::Result<()> {
        let mut room = [0u8; REPLY];
        let reply = &mut room[..self.room.min(REPLY)];
        let (profile, own) = (self.profile, self.own);
        let call = match self.format {
            Format::Rtu => { rtu_station(words, attributes, profile, own, frame, reply, *counters) }
            Format::Ascii => {
                ascii_station(words, attributes, profile, own, frame, reply, *counters)
            }
        };
        *counters = call.counters;
        self.print_answer(out, call.answer, &room)
    }

    // Answers a frame over the table that each request is given.
    fn hear(self, out: &mut impl Write, frame: &[u8], counters: &mut Counters) -> io::Result<()> {
        let before = usual_words();
        let mut words = before;
        let attributes = usual_attributes();
        let given = part_of(&attributes, 0, self.attributes);
        self.answer(out, &mut words, given, frame, counters)?;
        print_changes(out, &before, &words)
    }

    // Answers a frame over the largest table.
    fn hear_over_most(
        self,
        out: &mut impl Write,
        frame: &[u8],
        counters: &mut Counters,
    ) -> io::Result<()> {
        let before = [0; MOST];
        let mut words = before;
        self.answer(out, &mut words, &[3; MOST], frame, counters)?;
        print_changes(out, &before, &words)
    }
}

// ---- requests

// The counts that ten bytes tell, each high byte first.
fn told(bytes: &[u8]) -> Option<Counters> {
    let [b0, b1, d0, d1, e0, e1, o0, o1, u0, u1] = bytes else {
        return None;
    };
    Some(Counters {
        bus: u16::from_be_bytes([*b0, *b1]),
        damaged: u16::from_be_bytes([*d0, *d1]),
        exceptions: u16::from_be_bytes([*e0, *e1]),
        own: u16::from_be_bytes([*o0, *o1]),
        unanswered: u16::from_be_bytes([*u0, *u1]),
    })
}

fn set(out: &mut impl Write, bytes: &[u8], counters: &mut Counters) -> io::Result<()> {
    match told(bytes) {
        Some(counts) => {
            *counters = counts;
            write!(out, "set")
        }
        None => write!(out, "not understood"),
    }
}

// The calls whose table, station or room is another.
fn answer_other(
    out: &mut impl Write,
    kind: &[u8],
    bytes: &[u8],
    counters: &mut Counters,
) -> io::Result<()> {
    let usual = Called::rtu();
    let narrow = Called {
        room: REPLY - 1,
        ..usual
    };
    let of_none = Called { own: 0, ..narrow };
    match kind {
        b"few" => {
            let few = Called {
                attributes: WORDS - 1,
                ..of_none
            };
            few.hear(out, bytes, counters)
        }
        b"own0" => of_none.hear(out, bytes, counters),
        b"own247" => {
            let last = Called { own: 247, ..usual };
            last.hear(out, bytes, counters)
        }
        b"own248" => {
            let past = Called {
                own: 248,
                ..Called::ascii()
            };
            past.hear(out, bytes, counters)
        }
        b"room512" => narrow.hear(out, bytes, counters),
        b"whole" => usual.hear_over_most(out, bytes, counters),
        b"counters" => set(out, bytes, counters),
        _ => write!(out, "not understood"),
    }
}

// The requests that are given as hex pairs: frames, and bodies to one station or to all.
fn answer_bytes(
    out: &mut impl Write,
    alloc: Global,
    kind: &[u8],
    bytes: &[u8],
    counters: &mut Counters,
) -> io::Result<()> {
    let rtu = Called::rtu();
    let ascii = Called::ascii();
    match kind {
        b"rtu" => rtu.hear(out, bytes, counters),
        b"raw" => ascii.hear(out, bytes, counters),
        b"pdu" => rtu.hear(out, &rtu_frame(alloc, 1, bytes)?, counters),
        b"all" => rtu.hear(out, &rtu_frame(alloc, 0, bytes)?, counters),
        b"text" => ascii.hear(out, &text_frame(alloc, 1, bytes)?, counters),
        b"alltext" => ascii.hear(out, &text_frame(alloc, 0, bytes)?, counters),
        b"fit" => rtu
            .fitting()
            .hear(out, &rtu_frame(alloc, 1, bytes)?, counters),
        b"fitall" => rtu
            .fitting()
            .hear(out, &rtu_frame(alloc, 0, bytes)?, counters),
        b"fittext" => ascii
            .fitting()
            .hear(out, &text_frame(alloc, 1, bytes)?, counters),
        _ => answer_other(out, kind, bytes, counters),
    }
}

// What stands before the first blank, or all, and what stands after it.
fn parted(text: &[u8]) -> (&[u8], &[u8]) {
    match text.iter().position(|b| *b == b' ') {
        Some(at) => (&text[..at], &text[at + 1..]),
        None => (text, &[]),
    }
}

// A request without its `+`.
fn request(
    out: &mut impl Write,
    alloc: Global,
    line: &[u8],
    counters: &mut Counters,
) -> io::Result<()> {
    let (kind, text) = parted(line);
    if let b"ascii" = kind {
        return Called::ascii().hear(out, &ended(alloc, text)?, counters);
    }
    let mut room = [0u8; ROOM];
    match decode(text, &mut room) {
        Some(n) => answer_bytes(out, alloc, kind, part_of(&room, 0, n), counters),
        None => write!(out, "not understood"),
    }
}

fn print_counters(out: &mut impl Write, counters: Counters) -> io::Result<()> {
    write!(out, ", 0B {:04X}", counters.bus)?;
    write!(out, ", 0C {:04X}", counters.damaged)?;
    write!(out, ", 0D {:04X}", counters.exceptions)?;
    write!(out, ", 0E {:04X}", counters.own)?;
    write!(out, ", 0F {:04X}", counters.unanswered)
}

// A request: its line, cut, what comes of it, and the five counts where it asks for them.
fn repeat(
    out: &mut impl Write,
    alloc: Global,
    line: &[u8],
    counters: &mut Counters,
) -> io::Result<()> {
    out.write_all(part_of(line, 0, SHOWN))?;
    if line.len() > SHOWN {
        write!(out, "..")?;
    }
    write!(out, ": ")?;
    match line.strip_prefix(b"+") {
        Some(uncounted) => {
            request(out, alloc, uncounted, counters)?;
            print_counters(out, *counters)
        }
        None => request(out, alloc, line, counters),
    }
}

// A heading, or a request.
fn answer_line(
    out: &mut impl Write,
    alloc: Global,
    line: &[u8],
    counters: &mut Counters,
) -> io::Result<()> {
    match line {
        [b'#', ..] => out.write_all(line)?,
        _ => repeat(out, alloc, line, counters)?,
    }
    writeln!(out)
}

fn main(rt: HostRuntime) -> io::Result<()> {
    let mut out = rt.stdout();
    let mut counters = Counters::cleared();
    let mut input = [0u8; INPUT];
    let n = read_full(&mut rt.reader(), &mut input)?;
    for line in Lines(&input[..n]) {
        answer_line(&mut out, rt.alloc(), line, &mut counters)?;
    }
    out.flush()
}
