// Answers frames over a table. Standard input, or the file that the command line names, has one frame a line, answered as soon as it has
// come:
//   an RTU frame as hex pairs; blanks, commas, colons, `0x` and lower case are allowed
//   an ASCII frame from its `:` on, without CR and LF
//   a MEWTOCOL frame from its `%` or `<` on, without CR
//   `counters`, which is no frame: the five counts of the Modbus line are printed
// What starts with `#` is a remark, and is repeated. Each frame is printed after `>`, its reply after `<`, and then every word that it
// changed; where nothing goes on the line the reason stands in its place. The table and the counters are kept from frame to frame.
//
// The built-in table has the areas of document 001's map (chapter 7): DT00000 to DT00002, the external input DT00133 to DT00135 and the
// set values DT01000 to DT01999 to read and write, measured values, external output and status DT00100 to DT00132 and DT00136 to read.
#![tactic(auto)]

ghost use Rattle.std.specs.Prelude.{◌≤◌};

use mewtocol_station::station;
use modbus_ascii::ascii_station;
use modbus_counters::Counters;
use modbus_rtu::rtu_station;
use station::Answer;
use std::io;
use std::io::{Cursor, Read, Write};
use std::rt::{Env, Files};
use table_registers::Profile;
use text_slices::{part_of, same};
use tools_answers::{
    print_answer, print_changes, print_counters, print_no_frame, print_shown, print_too_long,
};
use tools_catalogue::fill_from;
use tools_options::{ARGUMENT, Options, Place, Run, print_version, read_options};
use tools_pages::send;
use tools_printing::{end_output, put, tell, tell_failed};
use tools_reader::{Met, Reading, line_in, open_read, read_line, start};
use tools_table_file::{WORDS, read_table};
use tools_typed::{end_text, store_all, trimmed, typed_pairs};

// A line with a frame is shorter, also with `0x` and a comma at each byte.
const LONGEST_LINE: usize = 2100;

// A line's frame, with CR and LF.
const LONGEST: usize = 2102;

// More than any reply.
const ROOM: usize = 2048;

// A frame and its reply as they are shown, at most five characters a byte.
const PAGE: usize = 32768;

// How much of a file is read at a time.
const PIECE: usize = 4096;

// Words of the built-in table.
const BUILT_IN: usize = 4096;

// ---- the built-in table

fn set_map(attributes: &mut [u8; WORDS]) {
    attributes[..3].fill(3);
    attributes[100..133].fill(1);
    attributes[133..136].fill(3);
    attributes[136] = 1;
    attributes[1000..2000].fill(3);
}

// A measured value for the master unit, and the words of the worked lines.
fn set_words(words: &mut [u16; WORDS]) {
    words[100] = 0x3039;
    words[105] = 0x1234;
    words[106] = 0xFFFF;
}

// ---- frames, shown and answered

// What a frame is written in.
#[derive(Clone, Copy)]
enum Format {
    Rtu,
    Ascii,
    Mewtocol,
}

// What the frames are answered from: a table, a profile and a station's number, and the counters of its Modbus line.
#[derive(Drop)]
struct Served<'a> {
    words: &'a mut [u16],
    attributes: &'a [u8],
    profile: Profile,
    own: u32,
    counters: Counters,
}

impl<'a> Served<'a> {
    // MEWTOCOL frames count nothing.
    fn answer(&mut self, format: Format, frame: &[u8], room: &mut [u8]) -> Answer {
        let words = &mut *self.words;
        let (attributes, profile, own) = (self.attributes, self.profile, self.own);
        let counters = self.counters;
        let call = match format {
            Format::Rtu => rtu_station(words, attributes, profile, own, frame, room, counters),
            Format::Ascii => ascii_station(words, attributes, profile, own, frame, room, counters),
            Format::Mewtocol => return station(words, attributes, profile, own, frame, room),
        };
        self.counters = call.counters;
        call.answer
    }

    fn serve(&mut self, page: &mut impl Write, format: Format, frame: &[u8]) -> io::Result<()> {
        let mut room = [0u8; ROOM];
        let is_text = !matches!(format, Format::Rtu);
        print_shown(page, b"> ", is_text, frame)?;
        let answer = self.answer(format, frame, &mut room);
        print_answer(page, is_text, answer, &room)
    }

    // A text with its CR, and LF for ASCII.
    fn serve_text(&mut self, page: &mut impl Write, format: Format, text: &[u8]) -> io::Result<()> {
        let mut frame = [0u8; LONGEST];
        store_all(&mut frame, text);
        let n = end_text(&mut frame, text.len());
        self.serve(page, format, part_of(&frame, 0, n))
    }

    fn serve_pairs(&mut self, page: &mut impl Write, number: u64, line: &[u8]) -> io::Result<()> {
        let mut frame = [0u8; LONGEST];
        match typed_pairs(line, &mut frame) {
            Some(n) => self.serve(page, Format::Rtu, part_of(&frame, 0, n)),
            None => print_no_frame(page, number, line),
        }
    }

    // The answer to a line.
    fn serve_line(&mut self, page: &mut impl Write, number: u64, line: &[u8]) -> io::Result<()> {
        match line {
            [] => Ok(()),
            b"counters" => print_counters(page, self.counters),
            [b'#', ..] => {
                put(page, line)?;
                put(page, b"\n")
            }
            [b':', ..] => self.serve_text(page, Format::Ascii, line),
            [b'%' | b'<', ..] => self.serve_text(page, Format::Mewtocol, line),
            _ => self.serve_pairs(page, number, line),
        }
    }

    // Serves a line, and prints the answer, in one piece, and the words that it changed.
    fn serve_and_compare(
        &mut self,
        out: &mut impl Write,
        number: u64,
        line: &[u8],
    ) -> io::Result<()> {
        let mut before = [0u16; WORDS];
        for (kept, word) in before.iter_mut().zip(&*self.words) {
            *kept = *word;
        }
        let mut page = Cursor::new([0u8; PAGE]);
        self.serve_line(&mut page, number, line)?;
        send(out, page.get_ref(), page.position() as usize)?;
        print_changes(out, &before, self.words)
    }

    // A line that is too long is passed over; any other is served without the blanks at its end.
    fn serve_read(
        &mut self,
        out: &mut impl Write,
        reading: Reading,
        room: &[u8],
    ) -> io::Result<()> {
        if reading.is_over {
            return print_too_long(out, reading.number);
        }
        self.serve_and_compare(out, reading.number, trimmed(line_in(reading, room)))
    }

    // All lines of an open file until one can't be read, which is told.
    fn serve_lines(
        &mut self,
        input: &mut impl Read,
        out: &mut impl Write,
        err: &mut impl Write,
        path: &[u8],
    ) -> io::Result<()> {
        let mut piece = [0u8; PIECE];
        let mut room = [0u8; LONGEST_LINE];
        let mut reading = start();
        for _ in 0..u64::MAX {
            match read_line(input, &mut piece, reading, &mut room) {
                Ok(next) => reading = next,
                Err(why) => return tell_failed(err, path, &why),
            }
            if matches!(reading.met, Met::More | Met::End) {
                return Ok(());
            }
            self.serve_read(out, reading, &room)?;
        }
        Ok(())
    }

    // The file of a path; `-` is standard input.
    fn serve_path(
        &mut self,
        rt: &(impl Env + Files + Input),
        out: &mut impl Write,
        err: &mut impl Write,
        path: &[u8],
    ) -> io::Result<()> {
        if same(path, b"-") {
            return self.serve_lines(&mut rt.reader(), out, err, b"standard input");
        }
        match open_read(rt, path) {
            Ok(mut file) => self.serve_lines(&mut file, out, err, path),
            Err(why) => tell_failed(err, path, &why),
        }
    }
}

// ---- the command line

// The table that the options name, or the built-in one; whether there is one.
fn set_table(
    rt: &(impl Env + Files),
    err: &mut impl Write,
    table: Option<Place>,
    words: &mut [u16; WORDS],
    attributes: &mut [u8; WORDS],
) -> io::Result<bool> {
    let Some(table) = table else {
        set_words(words);
        set_map(attributes);
        return Ok(true);
    };
    let mut path = [0u8; ARGUMENT];
    read_table(rt, err, table.text(rt, &mut path), words, attributes)
}

// The attributes of a name of a catalogue file, in place of the table's; whether they can be used.
fn set_attributes(
    rt: &(impl Env + Files),
    err: &mut impl Write,
    o: Options,
    attributes: &mut [u8; WORDS],
) -> io::Result<bool> {
    match (o.catalogue, o.name) {
        (None, None) => Ok(true),
        (Some(file), Some(name)) => {
            let mut path = [0u8; ARGUMENT];
            let mut asked = [0u8; ARGUMENT];
            let path = file.text(rt, &mut path);
            fill_from(rt, err, path, name.text(rt, &mut asked), attributes)
        }
        _ => {
            tell(
                err,
                b"-C and -N go together: a catalogue file, and a name in it\n",
            )?;
            Ok(false)
        }
    }
}

// The profile that the options name; none is told.
fn profile_of(
    rt: &impl Env,
    err: &mut impl Write,
    place: Option<Place>,
) -> io::Result<Option<Profile>> {
    let Some(place) = place else {
        return Ok(Some(Profile::Free));
    };
    let mut buffer = [0u8; ARGUMENT];
    let name = place.text(rt, &mut buffer);
    if same(name, b"hl-g2-50") {
        return Ok(Some(Profile::HlG2));
    }
    tell(err, b"-m ")?;
    tell(err, name)?;
    tell(err, b": the profile there is is hl-g2-50\n")?;
    Ok(None)
}

// The built-in table is a small one, as every call pays for the attributes of all words.
fn words_lent(o: Options) -> usize
    ensures { result ≤ 65536 }
{
    if o.table.is_none() && o.catalogue.is_none() {
        BUILT_IN
    } else {
        WORDS
    }
}

fn serve(
    rt: &(impl Env + Files + Input),
    out: &mut impl Write,
    err: &mut impl Write,
    o: Options,
) -> io::Result<()> {
    let mut words = [0u16; WORDS];
    let mut attributes = [0u8; WORDS];
    if !set_table(rt, err, o.table, &mut words, &mut attributes)? {
        return Ok(());
    }
    if !set_attributes(rt, err, o, &mut attributes)? {
        return Ok(());
    }
    let Some(profile) = profile_of(rt, err, o.profile)? else {
        return Ok(());
    };
    let count = words_lent(o);
    let mut served = Served {
        words: &mut words[..count],
        attributes: &attributes[..count],
        profile,
        own: o.station,
        counters: Counters::cleared(),
    };
    let Some(file) = o.first else {
        return served.serve_path(rt, out, err, b"-");
    };
    let mut path = [0u8; ARGUMENT];
    served.serve_path(rt, out, err, file.text(rt, &mut path))
}

fn second_file(rt: &impl Env, err: &mut impl Write, place: Place) -> io::Result<()> {
    let mut path = [0u8; ARGUMENT];
    tell(err, place.text(rt, &mut path))?;
    tell(err, b": a second file; one is served\n")
}

const USAGE: &str = "\
usage: serve [-s station] [-T table] [-C catalogue -N name] [-m profile] [file]
  answers the frames in file, or on standard input, one a line
  the line `counters` prints the five counts of the Modbus line so far
  -s  the station that answers, 1 to 247; 1 if it is left out
  -T  a table file, as serial_station takes it, in place of the built-in table
  -C  a catalogue file; the attributes are those of the name that -N gives, and the words the table's
  -m  hl-g2-50: writes that the HL-G2, 50 mm type, would not take are refused
serve --version | --help
";

fn run(
    rt: &(impl Env + Files + Input),
    out: &mut impl Write,
    err: &mut impl Write,
) -> io::Result<()> {
    let o = read_options(rt, err, b"sTCNm")?;
    match o.run {
        Run::Go => {
            match o.second {
                Some(second) => second_file(rt, err, second),
                None => serve(rt, out, err, o),
            }
        }
        Run::Help => put(out, USAGE.as_bytes()),
        Run::Version => print_version(out, b"serve"),
        Run::Stop => Ok(()),
    }
}

fn main(rt: HostRuntime) -> io::Result<()> {
    let mut out = rt.stdout();
    let mut err = rt.stderr();
    let went = run(&rt, &mut out, &mut err);
    end_output(&mut out, &mut err, went)
}
