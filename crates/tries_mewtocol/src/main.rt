// Runs MEWTOCOL frames through a station, over a table that the input sets up, and prints what came back. Each line of
// standard input is one step and gives one line of output.
//
//   = WORDS ATTRIBUTES OWN ROOM TEXT   a frame: TEXT, its check and CR, for a table of so many words and attributes, to the
//                                      station OWN with a reply room of ROOM bytes
//   + WORDS ATTRIBUTES OWN ROOM TEXT   the same with the profile of the HL-G2, 50 mm
//   > WORDS ATTRIBUTES OWN ROOM TEXT   the same without a check: TEXT and CR
//   ! WORDS ATTRIBUTES OWN ROOM TEXT   TEXT alone
//   w K V      word K holds V
//   a K A      word K has attribute A
//   s K        shows word K, four hex digits
//   c          all words 0, all attributes 3
// Any other line is a heading, and is repeated. A reply is printed without its CR, a refusal by its number, and a frame for all
// that was done as `carried out`.
#![tactic(auto)]

use checks_xor::put_xor;
use mewtocol_station::station;
use rules::CR;
use station::Answer;
use std::alloc::{AllocError, Global};
use std::io;
use std::io::Write;
use table_registers::Profile;
use text_rooms::{put_byte, put_part};
use text_slices::{part_of, rest};
use tools_lines::Lines;
use tools_reader::read_full;
use tools_tables::{after_blank, at_most, kind_of, number, prepare, print_refused, show_word};

// How much of the input is read, in bytes.
const INPUT: usize = 65536;

// How many words and attributes the table has: one more than any that a station takes.
const WORDS: usize = 65537;

// How many characters of a TEXT are taken, and the largest room for a reply.
const TEXT: usize = 2100;

const REPLY: usize = 2100;

#[derive(Drop)]
struct Table {
    words: Vec<u16>,
    attributes: Vec<u8>,
}

// What stands behind the text of a frame.
#[derive(Clone, Copy)]
enum Ending {
    CheckAndCr,
    Cr,
    Nothing,
}

// The four numbers of a line with a frame, and its text.
#[derive(Clone, Copy)]
struct Setting<'a> {
    words: u32,
    attributes: u32,
    own: u32,
    room: u32,
    text: &'a [u8],
}

impl<'a> Setting<'a> {
    fn of(line: &'a [u8]) -> Setting<'a> {
        let second = after_blank(line);
        let third = after_blank(second);
        let fourth = after_blank(third);
        Setting {
            words: number(line),
            attributes: number(second),
            own: number(third),
            room: number(fourth),
            text: part_of(after_blank(fourth), 0, TEXT),
        }
    }
}

fn framed(alloc: Global, text: &[u8], ending: Ending) -> Result<Vec<u8>, AllocError> {
    let n = text.len();
    let mut frame = vec![in alloc; 0; n + 3]?;
    put_part(&mut frame, 0, text);
    let whole = match ending {
        Ending::CheckAndCr => put_xor(&mut frame, n, CR),
        Ending::Cr => {
            put_byte(&mut frame, n, CR);
            n + 1
        }
        Ending::Nothing => n,
    };
    frame.truncate(whole);
    Ok(frame)
}

fn print_answer(out: &mut impl Write, answer: Answer, reply: &[u8]) -> io::Result<()> {
    match answer {
        Answer::Reply(n) => out.write_all(part_of(reply, 0, n.saturating_sub(1))),
        Answer::CarriedOut => write!(out, "carried out"),
        Answer::Refused(number) => print_refused(out, number),
    }
}

impl Table {
    fn new(alloc: Global) -> Result<Table, AllocError> {
        Ok(Table {
            words: vec![in alloc; 0; WORDS]?,
            attributes: vec![in alloc; 3; WORDS]?,
        })
    }

    // Has a station over the front of the table answer a frame.
    fn ask(
        &mut self,
        out: &mut impl Write,
        profile: Profile,
        setting: Setting<'_>,
        frame: &[u8],
    ) -> io::Result<()> {
        let words = at_most(setting.words as usize, self.words.len());
        let attributes = at_most(setting.attributes as usize, self.attributes.len());
        let mut reply = [0u8; REPLY];
        let room = at_most(setting.room as usize, REPLY);
        let answer = station(
            &mut self.words[..words],
            &self.attributes[..attributes],
            profile,
            setting.own,
            frame,
            &mut reply[..room],
        );
        print_answer(out, answer, &reply)
    }

    // What a line of a kind is answered.
    fn act(
        &mut self,
        out: &mut impl Write,
        alloc: Global,
        kind: u8,
        line: &[u8],
    ) -> io::Result<()> {
        let (profile, ending) = match kind {
            b'=' => (Profile::Free, Ending::CheckAndCr),
            b'+' => (Profile::HlG2, Ending::CheckAndCr),
            b'>' => (Profile::Free, Ending::Cr),
            b'!' => (Profile::Free, Ending::Nothing),
            b's' => {
                write!(out, " -> ")?;
                return show_word(out, &self.words, line);
            }
            _ => return Ok(()),
        };
        write!(out, " -> ")?;
        let setting = Setting::of(line);
        let frame = framed(alloc, setting.text, ending)?;
        self.ask(out, profile, setting, &frame)
    }

    fn step(&mut self, out: &mut impl Write, alloc: Global, line: &[u8]) -> io::Result<()> {
        out.write_all(line)?;
        let kind = kind_of(line);
        let setting = rest(line, 2);
        prepare(&mut self.words, &mut self.attributes, kind, setting);
        self.act(out, alloc, kind, setting)?;
        writeln!(out)
    }
}

fn main(rt: HostRuntime) -> io::Result<()> {
    let mut out = rt.stdout();
    let mut table = Table::new(rt.alloc())?;
    let mut input = [0u8; INPUT];
    let n = read_full(&mut rt.reader(), &mut input)?;
    for line in Lines(&input[..n]) {
        table.step(&mut out, rt.alloc(), line)?;
    }
    out.flush()
}
