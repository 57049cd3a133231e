// The command lines of the programs, in the words that all of them share: `--help`, `--version` and settings of one letter, each with its
// value behind it or in the next word. What a word means and which station a text names is promised in full; what is told of a wrong one
// goes to standard error. A wrong word changes no exit status (docs/DECISIONS.md), so the words have to do. Nothing of the engine
// stands on it.
#![tactic(auto)]

ghost use Rattle.std.specs.Prelude.{◌≡◌, ◌-◌, ◌<◌, ◌≤◌, length};
ghost use Rattle.tools_options.specs.Options as op;

use std::env::FillError;
use std::io;
use std::io::Write;
use std::rt::Env;
use text_slices::{byte_at, rest, same};
use tools_printing::{put, tell};
use tools_typed::number_up_to;

// The highest station of Modbus.
pub const LAST_STATION: u32 = 247;

// What a word of a command line is.
#[derive(Clone, Copy)]
pub enum Word {
    // No option: a file, or what a program is asked about.
    Operand,
    Help,
    Version,
    // `--`: all that follows are operands.
    Ending,
    // Any other, by the letter behind its dash.
    Letter(u8),
}

// What a word means by itself. A lone `-` is an operand.
pub fn word_of(text: &[u8]) -> Word
    ensures { result ≡ op.meaning text.now }
{
    if byte_at(text, 0) != b'-' {
        return Word::Operand;
    }
    if text.len() == 1 {
        return Word::Operand;
    }
    if same(text, b"--help") {
        return Word::Help;
    }
    if same(text, b"--version") {
        return Word::Version;
    }
    if same(text, b"--") {
        return Word::Ending;
    }
    Word::Letter(byte_at(text, 1))
}

// The station that a text names, 1 to 247.
pub fn station_of(text: &[u8]) -> Option<u32>
    ensures { result ≡ op.station text.now }
{
    let n = number_up_to(false, LAST_STATION, text)?;
    if n == 0 {
        return None;
    }
    Some(n)
}

// ---- words of this command line

// The longest argument that is looked at.
pub const ARGUMENT: usize = 4096;

// Puts an argument at the start of a room; how many bytes it has, or 0 where it is missing or longer than the room.
pub fn arg(rt: &impl Env, i: usize, room: &mut [u8]) -> usize
    ensures { result ≤ length room.new }
{
    match rt.arg(i, room) {
        Ok(n) => n,
        Err(_) => 0,
    }
}

fn is_there(rt: &impl Env, i: usize) -> bool {
    !matches!(rt.arg(i, &mut [0u8; 1]), Err(FillError::NotPresent))
}

// How many arguments there are, the program's own name among them.
pub fn arg_count(rt: &impl Env) -> usize {
    for n in 0..usize::MAX {
        if !is_there(rt, n) {
            return n;
        }
    }
    usize::MAX
}

// A text in an argument: from a byte of it on.
#[derive(Clone, Copy)]
pub struct Place {
    pub index: usize,
    pub from: usize,
}

impl Place {
    // The text, read into a room; empty where its argument is missing or longer than the room.
    pub fn text<'a>(self, rt: &impl Env, room: &'a mut [u8]) -> &'a [u8]
        ensures { length result.now ≤ length room.old - self.from }
    {
        let n = arg(rt, self.index, room);
        rest(&room[..n], self.from)
    }
}

// A word and its place among the arguments, where its value is, and the word after both.
#[derive(Clone, Copy)]
pub struct Taken {
    pub word: Word,
    pub index: usize,
    pub value: Place,
    pub next: usize,
}

// An option's value: what stands behind its letter, or else the next word.
fn with_value(word: Word, index: usize, length: usize, count: usize) -> Taken
    requires { index < count }
    ensures { index < result.next }
{
    if length > 2 {
        return Taken {
            word,
            index,
            value: Place { index, from: 2 },
            next: index + 1,
        };
    }
    let next = index + 1;
    Taken {
        word,
        index,
        value: Place {
            index: next,
            from: 0,
        },
        next: if next < count { next + 1 } else { count },
    }
}

fn alone(word: Word, index: usize, count: usize) -> Taken
    requires { index < count }
    ensures { index < result.next }
{
    Taken {
        word,
        index,
        value: Place { index, from: 0 },
        next: index + 1,
    }
}

// Word i of count, at which the options may have ended; the letters are those that have a value.
pub fn take(rt: &impl Env, letters: &[u8], i: usize, count: usize, is_ended: bool) -> Taken
    requires { i < count }
    ensures { i < result.next }
{
    let mut buffer = [0u8; ARGUMENT];
    let n = arg(rt, i, &mut buffer);
    if is_ended {
        return alone(Word::Operand, i, count);
    }
    let word = word_of(&buffer[..n]);
    match word {
        Word::Letter(letter) if letters.contains(&letter) => with_value(word, i, n, count),
        _ => alone(word, i, count),
    }
}

// ---- all options

// What a program is to do.
#[derive(Clone, Copy)]
pub enum Run {
    Go,
    Help,
    Version,
    // What is wrong has been told.
    Stop,
}

// What a command line says: where the values of the settings and the first two operands are, as far as there are any.
#[derive(Clone, Copy)]
pub struct Options {
    pub run: Run,
    pub station: u32,
    pub table: Option<Place>,
    pub catalogue: Option<Place>,
    pub name: Option<Place>,
    pub profile: Option<Place>,
    pub first: Option<Place>,
    pub second: Option<Place>,
    is_ended: bool,
}

impl Options {
    // Before the first word.
    fn start() -> Options {
        Options {
            run: Run::Go,
            station: 1,
            table: None,
            catalogue: None,
            name: None,
            profile: None,
            first: None,
            second: None,
            is_ended: false,
        }
    }

    fn take_operand(&mut self, place: Place) {
        if self.first.is_none() {
            self.first = Some(place);
        } else if self.second.is_none() {
            self.second = Some(place);
        }
    }

    fn take_station(
        &mut self,
        rt: &impl Env,
        err: &mut impl Write,
        place: Place,
    ) -> io::Result<()> {
        let mut buffer = [0u8; ARGUMENT];
        let text = place.text(rt, &mut buffer);
        match station_of(text) {
            Some(station) => self.station = station,
            None => {
                self.run = Run::Stop;
                tell(err, b"-s ")?;
                tell(err, text)?;
                writeln!(err, ": a station is a number from 1 to {LAST_STATION}")?;
            }
        }
        Ok(())
    }

    // The value of a setting, or that it is missing.
    fn value(
        &mut self,
        rt: &impl Env,
        err: &mut impl Write,
        place: Place,
        missing: &[u8],
    ) -> io::Result<Option<Place>> {
        if place.index < arg_count(rt) {
            return Ok(Some(place));
        }
        self.run = Run::Stop;
        tell(err, missing)?;
        Ok(None)
    }

    fn take_unknown(
        &mut self,
        rt: &impl Env,
        err: &mut impl Write,
        index: usize,
    ) -> io::Result<()> {
        self.run = Run::Stop;
        let mut buffer = [0u8; ARGUMENT];
        let n = arg(rt, index, &mut buffer);
        tell(err, &buffer[..n])?;
        tell(err, b": no such option; --help tells which there are\n")
    }

    // A setting that the program has.
    fn take_setting(
        &mut self,
        rt: &impl Env,
        err: &mut impl Write,
        letter: u8,
        taken: Taken,
    ) -> io::Result<()> {
        let at = taken.value;
        match letter {
            b's' => self.take_station(rt, err, at)?,
            b'T' => self.table = self.value(rt, err, at, b"-T: a table file is missing\n")?,
            b'C' => self.catalogue = self.value(rt, err, at, b"-C: a catalogue file is missing\n")?,
            b'N' => self.name = self.value(rt, err, at, b"-N: a name is missing\n")?,
            b'm' => self.profile = self.value(rt, err, at, b"-m: a profile is missing\n")?,
            _ => self.take_unknown(rt, err, taken.index)?,
        }
        Ok(())
    }

    fn take_word(
        &mut self,
        rt: &impl Env,
        err: &mut impl Write,
        letters: &[u8],
        taken: Taken,
    ) -> io::Result<()> {
        match taken.word {
            Word::Operand => self.take_operand(taken.value),
            Word::Help => self.run = Run::Help,
            Word::Version => self.run = Run::Version,
            Word::Ending => self.is_ended = true,
            Word::Letter(letter) if letters.contains(&letter) => {
                self.take_setting(rt, err, letter, taken)?;
            }
            Word::Letter(_) => self.take_unknown(rt, err, taken.index)?,
        }
        Ok(())
    }
}

// What the command line says to a program that has the settings of some letters, of `s`, `T`, `C`, `N` and `m`; what is wrong with it is told in
// one line, and the first word that is wrong, or that asks for help, decides. An error is one of telling that.
pub fn read_options(rt: &impl Env, err: &mut impl Write, letters: &[u8]) -> io::Result<Options> {
    let count = arg_count(rt);
    let mut options = Options::start();
    let mut i = 1;
    // A turn takes one word or two, an option and its value, so the next place is what `take` says.
    while i < count && matches!(options.run, Run::Go) {
        let taken = take(rt, letters, i, count, options.is_ended);
        options.take_word(rt, err, letters, taken)?;
        i = taken.next;
    }
    Ok(options)
}

// The program's name and the version that the header tells: tests/version holds the two the same.
pub fn print_version(out: &mut impl Write, program: &[u8]) -> io::Result<()> {
    put(out, program)?;
    put(out, b" (jeulgopae) 0.13.1\n")
}
