// What `explain` says of the cells that a frame may read and write, and of the order of two frames. It knows no table: it takes one in which
// every word is there and may be read and written, at the station that the frame names, without a profile. Nothing of the engine stands on
// it; what is printed is held to the stored output.
#![tactic(auto)]

use checks_crc::right_crc;
use checks_lrc::right_lrc;
use masters::{Line, meeting, touched};
use modbus_ascii::bytes_in;
use std::io;
use std::io::Write;
use table_addresses::{CoilAddress, FrameAddress};
use table_cells::{Meeting, Touched};
use table_registers::Profile;
use text_digits::{Number, decimal_2};
use text_hex::hex_byte;
use text_slices::{byte_at, rest};
use tools_names::{
    coil_of, contact_at, is_relay, low_16, print_bit, print_coil, print_coils, print_contact,
    print_registers,
};
use tools_printing::put;

// A table of every word.
const WORDS: usize = 65536;

// ---- frames

// A frame to a station, in a format.
#[derive(Clone, Copy)]
pub struct Sent<'a> {
    pub line: Line,
    pub frame: &'a [u8],
}

// A station that digits name; that of a frame to all is any, and 1 stands for it.
fn named(n: Number) -> u32 {
    match n {
        Number::Value(0) | Number::NoDigitAt(_) => 1,
        Number::Value(v) => v,
    }
}

impl<'a> Sent<'a> {
    fn station(self) -> u32 {
        match self.line {
            Line::Mewtocol => named(decimal_2(rest(self.frame, 1))),
            Line::Rtu => named(Number::Value(byte_at(self.frame, 0) as u32)),
            Line::Ascii => named(hex_byte(rest(self.frame, 1))),
        }
    }

    fn cells(self) -> Touched {
        let attributes = [3u8; WORDS];
        touched(
            self.line,
            &attributes,
            Profile::Free,
            self.station(),
            self.frame,
        )
    }

    fn is_diagnosis(self) -> bool {
        match self.line {
            Line::Mewtocol => false,
            Line::Rtu => rtu_diagnoses(self.frame),
            Line::Ascii => ascii_diagnoses(self.frame),
        }
    }
}

// Function 08 tells of the line, and not of the table, where a station answers it.
fn diagnoses(station: u8, function: u8) -> bool {
    function == 8 && matches!(station, 1..=247)
}

fn rtu_diagnoses(frame: &[u8]) -> bool {
    matches!(frame.len(), 4..=256)
        && right_crc(frame)
        && diagnoses(byte_at(frame, 0), byte_at(frame, 1))
}

fn ascii_diagnoses(frame: &[u8]) -> bool {
    let Some(said) = bytes_in(frame) else {
        return false;
    };
    let bytes = said.as_slice();
    right_lrc(bytes) && diagnoses(byte_at(bytes, 0), byte_at(bytes, 1))
}

// ---- cells

// A coil's address of a cell; cells and coil addresses run alike.
fn coil_at(cell: u32) -> CoilAddress {
    let first = CoilAddress::asked(0).cell();
    CoilAddress::asked(low_16((cell as usize).saturating_sub(first)))
}

// A run of cells: whole words, or bits of relay words.
fn print_run(out: &mut impl Write, first: u32, each: u32) -> io::Result<()> {
    let last = first.saturating_add(each.saturating_sub(1));
    if first % 16 == 0 && last % 16 == 15 {
        return print_registers(
            out,
            FrameAddress::asked(first / 16),
            FrameAddress::asked(last / 16),
        );
    }
    print_coils(out, coil_at(first), coil_at(last))
}

// The cells that a frame may read and write, a line for each run; where there are none, that, of a frame that a station is to answer.
pub fn print_cells(out: &mut impl Write, is_asked: bool, sent: Sent) -> io::Result<()> {
    let cells = sent.cells();
    let way = match cells.way {
        1 => "reads ",
        2 => "writes ",
        _ => "reads and writes ",
    };
    let firsts = cells.firsts;
    for first in firsts.iter().take(cells.runs as usize) {
        write!(out, "  cells     {way}")?;
        print_run(out, *first, cells.each)?;
    }
    if is_asked && cells.runs == 0 {
        put(out, b"  cells     none, whatever the words hold\n")?;
    }
    Ok(())
}

// ---- the order of two frames

// A cell by its names: that of a relay word is a contact and a coil, any other a bit of a register.
fn print_cell(out: &mut impl Write, cell: usize) -> io::Result<()> {
    if is_relay(cell) {
        print_bit(out, cell)?;
        put(out, b" = ")?;
        print_contact(out, contact_at(cell))?;
        put(out, b" = ")?;
        print_coil(out, coil_of(cell))?;
        return put(out, b"\n");
    }
    let address = FrameAddress::asked(low_16(cell / 16));
    write!(out, "bit {} of ", cell % 16)?;
    print_registers(out, address, address)
}

// Whether the order of two frames can matter, and at which cell first.
pub fn print_order(out: &mut impl Write, one: Sent, other: Sent) -> io::Result<()> {
    if one.is_diagnosis() || other.is_diagnosis() {
        return put(
            out,
            b"  function 08 tells what came before it: its order matters to what it tells, and to no word\n",
        );
    }
    let attributes = [3u8; WORDS];
    let at = meeting(
        &attributes,
        Profile::Free,
        one.line,
        one.station(),
        one.frame,
        other.line,
        other.station(),
        other.frame,
    );
    match at {
        Meeting::Never => put(
            out,
            b"  can't matter: neither writes a cell that the other reads or writes\n",
        ),
        Meeting::At(cell) => {
            put(out, b"  can matter: they meet first at ")?;
            print_cell(out, cell as usize)
        }
    }
}
