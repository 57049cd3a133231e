// Registers, coils, contacts and words by their names, as `explain` prints them. Every number comes out of the conversions: where a word
// or a bit has no name, the conversion says so. Nothing of the engine stands on it; what is printed is held to the stored output.
#![tactic(auto)]

ghost use Rattle.std.specs.Prelude.{◌<◌};

use rules::Refusal;
use std::io;
use std::io::Write;
use table_addresses::{CoilAddress, CoilIs, FrameAddress, RegisterIs, contact_cell};
use tools_printing::{print_padded, print_word, put};

// A number that stands in four hex digits.
pub fn low_16(n: usize) -> u32
    ensures { result < 65536 }
{
    (n % 65536) as u32
}

pub fn print_hex_word(out: &mut impl Write, w: u32) -> io::Result<()> {
    print_word(out, (w % 65536) as u16)?;
    put(out, b"h")
}

// A number in decimal and in hex.
pub fn print_both(out: &mut impl Write, n: u32) -> io::Result<()> {
    write!(out, "{n} (")?;
    print_hex_word(out, n)?;
    put(out, b")")
}

pub fn print_dt(out: &mut impl Write, k: u32) -> io::Result<()> {
    put(out, b"DT")?;
    print_padded(out, k, 5)
}

pub fn print_wr(out: &mut impl Write, relay: u32) -> io::Result<()> {
    put(out, b"WR")?;
    print_padded(out, relay, 4)
}

// A contact, 16 × relay word + bit: three decimal digits and a hex digit.
pub fn print_contact(out: &mut impl Write, contact: u32) -> io::Result<()> {
    put(out, b"R")?;
    print_padded(out, contact / 16, 3)?;
    write!(out, "{:X}", contact % 16)
}

// The number of a register, or that the address has none.
pub fn print_register(out: &mut impl Write, address: FrameAddress) -> io::Result<()> {
    match address.number() {
        RegisterIs::Number(n) => print_padded(out, n.as_printed(), 6),
        RegisterIs::Refused(_) => put(out, b"(no register)"),
    }
}

// The number of a coil, or that the address has none.
pub fn print_coil(out: &mut impl Write, is: CoilIs) -> io::Result<()> {
    match is {
        CoilIs::Number(n) => print_padded(out, n.as_printed(), 6),
        CoilIs::Refused(_) => put(out, b"(no coil)"),
    }
}

// ---- cells: 16 × word + bit

// The coil that is a cell. Coil addresses and cells run alike, so the cell of address 0 is what they differ by.
pub fn coil_of(cell: usize) -> CoilIs {
    let first = CoilAddress::asked(0).cell();
    match cell.checked_sub(first) {
        Some(address) if address < 65536 => CoilAddress::asked(address as u32).number(),
        _ => CoilIs::Refused(Refusal::RANGE),
    }
}

// The contact that is a cell, in the same way; 0 below the first.
pub fn contact_at(cell: usize) -> u32 {
    low_16(cell.saturating_sub(contact_cell(0)))
}

// Whether a cell is a bit of a relay word.
pub fn is_relay(cell: usize) -> bool {
    match coil_of(cell) {
        CoilIs::Number(_) => true,
        CoilIs::Refused(_) => false,
    }
}

// The number of the data register at an address.
pub fn dt_of(address: FrameAddress) -> u32
    ensures { result < 65536 }
{
    low_16(address.word())
}

// The first cell of the word at an address.
pub fn cell_of(address: FrameAddress) -> usize
    ensures { result < 1048576 }
{
    16 * (dt_of(address) as usize)
}

pub fn last_cell_of(address: FrameAddress) -> usize {
    cell_of(address) + 15
}

// The relay word of a cell.
pub fn relay_of(cell: usize) -> u32 {
    contact_at(cell) / 16
}

// `bit 0 of DT00133`
pub fn print_bit(out: &mut impl Write, cell: usize) -> io::Result<()> {
    write!(out, "bit {} of ", cell % 16)?;
    print_dt(out, low_16(cell / 16))
}

// ---- runs

// What runs are of, printed by its names.
trait Named: Copy {
    fn is(self, other: Self) -> bool;

    fn print_names(self, out: &mut impl Write) -> io::Result<()>;
}

// A register and its word; a register that is none has no word.
impl Named for FrameAddress {
    fn is(self, other: FrameAddress) -> bool {
        self.word() == other.word()
    }

    fn print_names(self, out: &mut impl Write) -> io::Result<()> {
        print_register(out, self)?;
        if let RegisterIs::Number(_) = self.number() {
            put(out, b" = ")?;
            print_dt(out, dt_of(self))?;
        }
        Ok(())
    }
}

// A coil and its contact; a coil that is none has no contact.
impl Named for CoilAddress {
    fn is(self, other: CoilAddress) -> bool {
        self.value() == other.value()
    }

    fn print_names(self, out: &mut impl Write) -> io::Result<()> {
        let is = self.number();
        print_coil(out, is)?;
        if let CoilIs::Number(_) = is {
            put(out, b" = ")?;
            print_contact(out, contact_at(self.cell()))?;
        }
        Ok(())
    }
}

// The first of a run, and the last where it is another.
fn print_run<T: Named>(out: &mut impl Write, first: T, last: T) -> io::Result<()> {
    first.print_names(out)?;
    if !first.is(last) {
        put(out, b" to ")?;
        last.print_names(out)?;
    }
    put(out, b"\n")
}

// `400106 = DT00105 to 400108 = DT00107`
pub fn print_registers(
    out: &mut impl Write,
    first: FrameAddress,
    last: FrameAddress,
) -> io::Result<()> {
    print_run(out, first, last)
}

// `000209 = R1030 to 000224 = R103F`
pub fn print_coils(out: &mut impl Write, first: CoilAddress, last: CoilAddress) -> io::Result<()> {
    print_run(out, first, last)
}

// A word that a frame carries.
pub fn print_value(out: &mut impl Write, w: u32) -> io::Result<()> {
    print_hex_word(out, w)?;
    writeln!(out, " = {w}")
}

// What the words of a list are numbered by, from a first number on: those of a write by the registers that they go to; those of a reply,
// which doesn't say where they were read, by their places.
#[derive(Clone, Copy)]
pub enum Numbered {
    Registers(usize),
    Values(usize),
}

// Word i of a list.
pub fn print_item(out: &mut impl Write, numbered: Numbered, i: usize, w: u32) -> io::Result<()> {
    let n = (i % 65536) as u32;
    match numbered {
        Numbered::Registers(first) => {
            put(out, b"  ")?;
            print_dt(out, (first % 100000) as u32 + n)?;
            put(out, b"   ")?;
        }
        Numbered::Values(first) => {
            put(out, b"  value ")?;
            print_padded(out, (first % 100000) as u32 + n, 3)?;
            put(out, b" ")?;
        }
    }
    print_value(out, w)
}
