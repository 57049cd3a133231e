// Runs the MEWTOCOL host: requests written, answered by a station over a table that the input sets up, and their replies read. Each
// line of standard input is one step and gives one line of output.
//
//   q STATION REQUEST | ROOM   writes a request into a room of ROOM bytes, at most 2,048; then the station's reply, and what the
//                              reader makes of it
//   = STATION REQUEST | TEXT   reads a reply to a request: TEXT, its check and CR
//   ! STATION REQUEST | TEXT   the same of TEXT alone
//   w K V      word K holds V
//   a K A      word K has attribute A
//   s K        shows word K, four hex digits
//   c          all words 0, all attributes 3
// A REQUEST is a command's name, or `RC` for the two that read contacts, and its numbers, or lists of numbers with commas; `-` is an empty
// list, and `<` before the name asks for the expanded form:
//   RC CONTACTS    RCC START END    WCS CONTACT VALUE    WCP CONTACTS VALUES    WCC START END WORDS    RD START END
//   WD START END WORDS    SD START END WORD
// A contact is 16 × relay word + bit, so R1030 is 1648. In a TEXT, and where bytes are printed, `\` and two hex digits stand for
// a byte. At most 200 bytes of a TEXT are taken, and 512 numbers of a list. Any other line is a heading, and is repeated.
//
// A frame is printed without its CR; `taken`, where the reader took a reply, or the station's error number; data as it stands,
// between brackets, and then as words, four hex digits each, or as contacts. A refusal is printed by its number, and 13 of the reader
// with the place in the frame. A REQUEST with another name is `not understood`.
#![tactic(auto)]

ghost use Rattle.std.specs.Prelude.{◌≤◌, IfOk, vec_len};

use checks_xor::put_xor;
use mewtocol_asking::Ask;
use mewtocol_frame::Form;
use mewtocol_frame::frame::form_in;
use mewtocol_reader::{Reply, data_contact, data_word, read_reply, reply_data};
use mewtocol_station::station;
use mewtocol_writer::{Written, write_request};
use rules::{CR, Refusal};
use station::Answer;
use std::alloc::{AllocError, Global};
use std::io;
use std::io::Write;
use table_registers::Profile;
use text_digits::Number;
use text_slices::{part_of, rest};
use tools_escapes::{print_escaped, unescape};
use tools_lines::{Lines, place_from};
use tools_printing::{print_byte, print_word, put};
use tools_reader::read_full;
use tools_tables::{
    after, after_blank, at_most, kind_of, number, prepare, print_refused, show_word,
};

// How much of the input is read, in bytes.
const INPUT: usize = 65536;

// How many words and attributes the table has.
const WORDS: usize = 4096;

// How many elements of a list are taken.
const LIST: usize = 512;

// A text, its check and the last character.
const FRAME: usize = 203;

// The largest room for a request or a reply.
const ROOM: usize = 2048;

// What stands before the first such byte, or all.
fn before(s: &[u8], byte: u8) -> &[u8] {
    part_of(s, 0, place_from(s, 0, byte))
}

// The numbers of a list; a comma at its end begins no other.
fn numbers(alloc: Global, list: &[u8]) -> Result<Vec<u32>, AllocError>
    ensures { IfOk result (λ numbers. vec_len numbers ≤ 512) }
{
    if list.is_empty() || list.starts_with(b"-") {
        return Ok(Vec::new(alloc));
    }
    list.strip_suffix(b",")
        .unwrap_or(list)
        .split(|b| *b == b',')
        .take(LIST)
        .map(|element| number(element))
        .collect(alloc)
}

// ---- printing

// A frame without its last character.
fn print_frame(out: &mut impl Write, frame: &[u8]) -> io::Result<()> {
    match frame {
        [front @ .., _] => print_escaped(out, front),
        [] => Ok(()),
    }
}

fn print_words(out: &mut impl Write, part: &[u8]) -> io::Result<()> {
    for i in 0..30 {
        let Number::Value(w) = data_word(part, i) else {
            return Ok(());
        };
        put(out, b" ")?;
        print_word(out, (w % 65536) as u16)?;
    }
    Ok(())
}

fn print_contacts(out: &mut impl Write, part: &[u8]) -> io::Result<()> {
    for i in 0..30 {
        let Number::Value(v) = data_contact(part, i) else {
            return Ok(());
        };
        write!(out, " {v}")?;
    }
    Ok(())
}

fn print_reply(out: &mut impl Write, reply: Reply) -> io::Result<()> {
    match reply {
        Reply::Shows => write!(out, "taken"),
        Reply::Error(e) => {
            put(out, b"error ")?;
            print_byte(out, e)
        }
        Reply::NotAsked(at) => {
            print_refused(out, Refusal::NOT_ASKED)?;
            write!(out, " at {at}")
        }
        Reply::Refused(number) => print_refused(out, number),
    }
}

// ---- requests

// What a name asks with up to three numbers; its lists stand beside it. Contacts are read as `RC`, by whichever command their number asks for.
fn ask_of(name: &[u8], a: u32, b: u32, c: u32) -> Option<Ask> {
    match name {
        b"RC" => Some(Ask::ReadContacts),
        b"RCC" => Some(Ask::ReadRelays(a, b)),
        b"WCS" => Some(Ask::WriteContact(a, b)),
        b"WCP" => Some(Ask::WriteContacts),
        b"WCC" => Some(Ask::WriteRelays(a, b)),
        b"RD" => Some(Ask::ReadWords(a, b)),
        b"WD" => Some(Ask::WriteWords(a, b)),
        b"SD" => Some(Ask::FillWords(a, b, c)),
        _ => None,
    }
}

// What a host asks of a station, and the lists of it.
#[derive(Drop)]
struct Request {
    own: u32,
    form: Form,
    ask: Ask,
    contacts: Vec<u32>,
    values: Vec<u8>,
    words: Vec<u16>,
}

impl Request {
    // The request of a line, or none where its name is of no command.
    fn of(alloc: Global, setting: &[u8]) -> Result<Option<Request>, AllocError> {
        let text = before(after_blank(setting), b'|');
        let name = before(text.strip_prefix(b"<").unwrap_or(text), b' ');
        let fields = after_blank(text);
        let first = before(fields, b' ');
        let second = before(after_blank(fields), b' ');
        let third = before(after_blank(after_blank(fields)), b' ');
        let Some(ask) = ask_of(name, number(first), number(second), number(third)) else {
            return Ok(None);
        };
        let values = numbers(alloc, second)?;
        let words = numbers(alloc, third)?;
        Ok(Some(Request {
            own: number(setting),
            form: form_in(text),
            ask,
            contacts: numbers(alloc, first)?,
            values: values.iter().map(|v| (*v % 256) as u8).collect(alloc)?,
            words: words.iter().map(|w| (*w % 65536) as u16).collect(alloc)?,
        }))
    }

    // Reads a reply, and prints its data: as it stands, and as what was asked for.
    fn hear(&self, out: &mut impl Write, reply: &[u8]) -> io::Result<()> {
        let (contacts, values, words) = (&self.contacts, &self.values, &self.words);
        let heard = read_reply(
            self.form, self.own, self.ask, contacts, values, words, reply,
        );
        print_reply(out, heard)?;
        let part = reply_data(
            self.form, self.own, self.ask, contacts, values, words, reply,
        );
        write!(out, ", data [")?;
        print_escaped(out, part)?;
        write!(out, "]")?;
        match self.ask {
            Ask::ReadContacts => print_contacts(out, part),
            _ => print_words(out, part),
        }
    }

    // Reads the reply that a text is, with its check and CR.
    fn hear_checked(&self, out: &mut impl Write, text: &[u8]) -> io::Result<()> {
        let mut room = [0u8; FRAME];
        let n = unescape(text, &mut room);
        let whole = put_xor(&mut room, n, CR);
        self.hear(out, part_of(&room, 0, whole))
    }

    // Reads the reply that a text is alone.
    fn hear_bare(&self, out: &mut impl Write, text: &[u8]) -> io::Result<()> {
        let mut room = [0u8; FRAME];
        let n = unescape(text, &mut room);
        self.hear(out, part_of(&room, 0, n))
    }

    // Writes the request into so many bytes, has the station that it names answer it, and reads the reply.
    fn exchange(&self, out: &mut impl Write, table: &mut Table, most: usize) -> io::Result<()> {
        let mut room = [0u8; ROOM];
        let most = at_most(most, ROOM);
        let written = write_request(
            self.form,
            self.own,
            self.ask,
            &self.contacts,
            &self.values,
            &self.words,
            &mut room[..most],
        );
        match written {
            Written::Frame(n) => {
                let frame = part_of(&room, 0, n);
                print_frame(out, frame)?;
                write!(out, " -> ")?;
                self.ask_station(out, table, frame)
            }
            Written::Refused(number) => print_refused(out, number),
        }
    }

    // Has a station answer a frame, and reads its reply.
    fn ask_station(&self, out: &mut impl Write, table: &mut Table, frame: &[u8]) -> io::Result<()> {
        let mut room = [0u8; ROOM];
        let answer = station(
            &mut table.words,
            &table.attributes,
            Profile::Free,
            self.own,
            frame,
            &mut room,
        );
        let reply = match answer {
            Answer::Reply(n) => part_of(&room, 0, n),
            Answer::CarriedOut | Answer::Refused(_) => &[],
        };
        match answer {
            Answer::Reply(_) => print_frame(out, reply)?,
            Answer::CarriedOut => write!(out, "carried out")?,
            Answer::Refused(number) => print_refused(out, number)?,
        }
        write!(out, " -> ")?;
        self.hear(out, reply)
    }
}

// ---- lines

#[derive(Drop)]
struct Table {
    words: Vec<u16>,
    attributes: Vec<u8>,
}

impl Table {
    fn new(alloc: Global) -> Result<Table, AllocError> {
        Ok(Table {
            words: vec![in alloc; 0; WORDS]?,
            attributes: vec![in alloc; 3; WORDS]?,
        })
    }

    // What a line with a request does.
    fn request(
        &mut self,
        out: &mut impl Write,
        alloc: Global,
        kind: u8,
        setting: &[u8],
    ) -> io::Result<()> {
        write!(out, " -> ")?;
        let Some(request) = Request::of(alloc, setting)? else {
            return write!(out, "not understood");
        };
        let text = after_blank(after(setting, b'|'));
        match kind {
            b'q' => request.exchange(out, self, number(text) as usize),
            b'=' => request.hear_checked(out, text),
            _ => request.hear_bare(out, text),
        }
    }

    fn step(&mut self, out: &mut impl Write, alloc: Global, line: &[u8]) -> io::Result<()> {
        out.write_all(line)?;
        let kind = kind_of(line);
        let setting = rest(line, 2);
        prepare(&mut self.words, &mut self.attributes, kind, setting);
        match kind {
            b'q' | b'=' | b'!' => self.request(out, alloc, kind, setting)?,
            b's' => {
                write!(out, " -> ")?;
                show_word(out, &self.words, setting)?;
            }
            _ => {}
        }
        writeln!(out)
    }
}

fn main(rt: HostRuntime) -> io::Result<()> {
    let mut out = rt.stdout();
    let mut table = Table::new(rt.alloc())?;
    let mut input = [0u8; INPUT];
    let n = read_full(&mut rt.reader(), &mut input)?;
    for line in Lines(&input[..n]) {
        table.step(&mut out, rt.alloc(), line)?;
    }
    out.flush()
}
