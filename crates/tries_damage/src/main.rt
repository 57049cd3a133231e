// Damages frames and counts how many are taken. RTU frames of 8 and 13 bytes with every choice of 1, 2 or 3 bits flipped, and
// with every choice of bits within 16 in a row; MEWTOCOL, Modbus ASCII and laser head frames with every character changed to
// every other byte. A frame is taken where the station changes a word or answers anything but MEWTOCOL's error 40, where the
// MEWTOCOL host's reader gives data or an error number, or where the laser head's reader gives a frame or a distance. Each
// frame is first tried as it is: that one is taken. The proof says all of this for every frame
// (crates/claims/specs/LineDamage.antt); the run is for the reader who trusts runs.
#![tactic(auto)]

ghost use Rattle.std.specs.Prelude.{◌<◌, length};

use laser::{Distance, Reading, read_distance, read_frame};
use mewtocol_asking::Ask;
use mewtocol_frame::Form;
use mewtocol_reader::{Reply, read_reply};
use modbus_ascii::ascii_station;
use modbus_counters::Counters;
use modbus_line::Call;
use modbus_rtu::rtu_station;
use station::Answer;
use std::io;
use std::io::Write;
use table_registers::Profile;

#[derive(Clone, Copy)]
enum Format {
    Rtu,
    Ascii,
    Mewtocol,
    Host,
    Laser,
}

// The attributes of eight words, all open.
const OPEN: [u8; 8] = [3; 8];

// ---- what is taken

// Whether a station answered, or carried something out.
fn answered(answer: Answer) -> bool {
    match answer {
        Answer::Reply(_) | Answer::CarriedOut => true,
        Answer::Refused(_) => false,
    }
}

// Whether any word is no longer 0.
fn changed(words: &[u16]) -> bool {
    words.iter().any(|word| *word != 0)
}

// Whether a Modbus station takes a frame.
fn taken_modbus<S>(station: S, frame: &[u8]) -> bool
where
    S: FnOnce(&mut [u16], &[u8], Profile, u32, &[u8], &mut [u8], Counters) -> Call,
    requires { S.IsAlwaysCallable station }
{
    let mut words = [0u16; 8];
    let mut room = [0u8; 513];
    let counters = Counters::cleared();
    let call = station(
        &mut words,
        &OPEN,
        Profile::Free,
        1,
        frame,
        &mut room,
        counters,
    );
    answered(call.answer) || changed(&words)
}

// Whether a MEWTOCOL reply says error 40.
fn says_40(reply: &[u8]) -> bool {
    matches!(reply, [_, _, _, b'!', b'4', b'0', ..])
}

fn taken_mewtocol(frame: &[u8]) -> bool {
    let mut words = [0u16; 8];
    let mut room = [0u8; 2048];
    let answer = mewtocol_station::station(&mut words, &OPEN, Profile::Free, 1, frame, &mut room);
    (answered(answer) && !says_40(&room)) || changed(&words)
}

// A reply to a host that asked station 1 for word 1.
fn taken_host(frame: &[u8]) -> bool {
    let ask = Ask::ReadWords(1, 1);
    match read_reply(Form::Ordinary, 1, ask, &[], &[], &[], frame) {
        Reply::Shows | Reply::Error(_) => true,
        Reply::NotAsked(_) | Reply::Refused(_) => false,
    }
}

fn taken_laser(frame: &[u8]) -> bool {
    let read = match read_frame(frame) {
        Reading::Frame(_, _) => true,
        Reading::Refused(_) => false,
    };
    let measured = match read_distance(frame) {
        Distance::Hundredths(_) => true,
        Distance::NotAsked(_) | Distance::Refused(_) => false,
    };
    read || measured
}

fn taken(format: Format, frame: &[u8]) -> bool {
    match format {
        Format::Rtu => taken_modbus(rtu_station, frame),
        Format::Ascii => taken_modbus(ascii_station, frame),
        Format::Mewtocol => taken_mewtocol(frame),
        Format::Host => taken_host(frame),
        Format::Laser => taken_laser(frame),
    }
}

// ---- what is tried

// The bits of a pattern of 16 flipped, its lowest at bit k of the frame; those past its end are left out.
fn flip(frame: &mut [u8], k: usize, pattern: u16) {
    let spread = u32::from(pattern) << (k % 8);
    for (j, bits) in spread.to_le_bytes().iter().enumerate() {
        if let Some(byte) = frame.get_mut(k / 8 + j) {
            *byte ^= *bits;
        }
    }
}

// How many choices there are of the 15 bits after a first one, or of those that are left.
fn choices(left: usize) -> u16 {
    1 << left.min(15)
}

// Frames of a format: how many were tried, and how many of them taken.
#[derive(Clone, Copy)]
struct Trial {
    format: Format,
    tried: u64,
    taken: u64,
}

impl Trial {
    fn of(format: Format) -> Trial {
        Trial {
            format,
            tried: 0,
            taken: 0,
        }
    }

    // One frame more.
    fn frame(&mut self, frame: &[u8]) {
        self.tried = self.tried.wrapping_add(1);
        if taken(self.format, frame) {
            self.taken = self.taken.wrapping_add(1);
        }
    }

    // Every choice of at most so many of the bits from one on.
    fn flips(&mut self, frame: &mut [u8], most: u32, from: usize, bits: usize) {
        if most == 0 {
            return;
        }
        for k in from..bits {
            flip(frame, k, 1);
            self.frame(frame);
            self.flips(frame, most - 1, k + 1, bits);
            flip(frame, k, 1);
        }
    }

    // Every choice of bits within 16 in a row, by the first of them and by those of the 15 after it.
    fn windows(&mut self, frame: &mut [u8], bits: usize) {
        for k in 0..bits {
            for after in 0..choices(bits - 1 - k) {
                let pattern = after << 1 | 1;
                flip(frame, k, pattern);
                self.frame(frame);
                flip(frame, k, pattern);
            }
        }
    }

    // A character, as every other byte.
    fn character(&mut self, frame: &mut [u8], at: usize)
        requires { at < length frame.old }
    {
        let was = frame[at];
        for other in 0..=255 {
            if other != was {
                frame[at] = other;
                self.frame(frame);
            }
        }
        frame[at] = was;
    }

    fn characters(&mut self, frame: &mut [u8]) {
        for at in 0..frame.len() {
            self.character(frame, at);
        }
    }

    fn print(self, out: &mut impl Write, what: &str) -> io::Result<()> {
        writeln!(out, "{what}: {} tried, {} taken", self.tried, self.taken)
    }
}

// ---- what is printed

fn as_it_is(out: &mut impl Write, format: Format, frame: &[u8], name: &str) -> io::Result<()> {
    writeln!(out, "{name}")?;
    let mut trial = Trial::of(format);
    trial.frame(frame);
    trial.print(out, "  as it is")
}

fn rtu(out: &mut impl Write, frame: &mut [u8], bits: usize, name: &str) -> io::Result<()> {
    as_it_is(out, Format::Rtu, frame, name)?;
    let mut flips = Trial::of(Format::Rtu);
    flips.flips(frame, 3, 0, bits);
    flips.print(out, "  1, 2 or 3 bits flipped")?;
    let mut windows = Trial::of(Format::Rtu);
    windows.windows(frame, bits);
    windows.print(out, "  bits within 16 in a row flipped")
}

fn text(out: &mut impl Write, format: Format, frame: &mut [u8], name: &str) -> io::Result<()> {
    as_it_is(out, format, frame, name)?;
    let mut characters = Trial::of(format);
    characters.characters(frame);
    characters.print(out, "  one character changed")
}

fn main(rt: HostRuntime) -> io::Result<()> {
    let mut out = rt.stdout();
    let mut eight = *b"\x01\x06\x00\x01\x00\x01\x19\xCA";
    rtu(
        &mut out,
        &mut eight,
        64,
        "RTU, 8 bytes, write 1 to register 400002",
    )?;
    let mut thirteen = *b"\x01\x10\x00\x01\x00\x02\x04\x00\x0A\x01\x02\x92\x30";
    rtu(
        &mut out,
        &mut thirteen,
        104,
        "RTU, 13 bytes, write 10 and 258 to registers 400002 and 400003",
    )?;
    let mut line = *b":010600010001F7\r\n";
    text(
        &mut out,
        Format::Ascii,
        &mut line,
        "Modbus ASCII, write 1 to register 400002",
    )?;
    let mut request = *b"%01#WDD0000100001010051\r";
    text(
        &mut out,
        Format::Mewtocol,
        &mut request,
        "MEWTOCOL, write 1 to DT1",
    )?;
    let mut reply = *b"%01$RD010017\r";
    text(
        &mut out,
        Format::Host,
        &mut reply,
        "MEWTOCOL reply, DT1 is 1",
    )?;
    let mut distance = *b"/060D12345\x006C.";
    text(
        &mut out,
        Format::Laser,
        &mut distance,
        "laser head, 123.45 mm",
    )?;
    out.flush()
}
