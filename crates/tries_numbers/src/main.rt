// Prints what the conversions give at the edges of their ranges, the four names of each of the 96 coils, the three ways
// to name one bit, and what the address check says at the edges of tables of several sizes.
#![tactic(auto)]

ghost use Rattle.std.specs.Prelude.{◌<◌};

use rules::Refusal;
use station::Ready;
use station::order::ready;
use std::io;
use std::io::Write;
use table_addresses::{
    Area, CoilAddress, CoilAt, CoilIs, CoilNumber, FrameAddress, RegisterAt, RegisterIs,
    RegisterNumber, contact_cell, contact_of,
};
use table_bit_writes::write_contacts;
use table_registers::Verdict;
use table_registers::check::{first_lacking, first_lacking_coil, first_lacking_contact};
use table_registers::reads::{cell_at, words_from};
use text_decimals::put_decimal;
use text_digits::Number;
use text_hex::hex_digit;
use text_slices::part_of;

fn refused(out: &mut impl Write, number: Refusal) -> io::Result<()> {
    write!(out, "refused {}", number.number())
}

// ---- registers

fn print_register(out: &mut impl Write, number: RegisterIs) -> io::Result<()> {
    match number {
        RegisterIs::Number(n) => write!(out, "number {}", n.as_printed()),
        RegisterIs::Refused(number) => refused(out, number),
    }
}

fn print_address(out: &mut impl Write, address: RegisterAt) -> io::Result<()> {
    match address {
        RegisterAt::Address(a) => write!(out, "address {}", a.word()),
        RegisterAt::Refused(number) => refused(out, number),
    }
}

fn from_number(out: &mut impl Write, n: u32) -> io::Result<()> {
    write!(out, "register {n}: ")?;
    let at = RegisterNumber::printed(n).address();
    print_address(out, at)?;
    if let RegisterAt::Address(a) = at {
        write!(out, ", ")?;
        print_register(out, a.number())?;
    }
    writeln!(out)
}

fn from_address(out: &mut impl Write, n: u32) -> io::Result<()> {
    write!(out, "address {n}: ")?;
    let is = FrameAddress::asked(n).number();
    print_register(out, is)?;
    if let RegisterIs::Number(m) = is {
        write!(out, ", ")?;
        print_address(out, m.address())?;
    }
    writeln!(out)
}

// ---- coils

fn print_coil_number(out: &mut impl Write, number: CoilIs) -> io::Result<()> {
    match number {
        CoilIs::Number(n) => write!(out, "number {:06}", n.as_printed()),
        CoilIs::Refused(number) => refused(out, number),
    }
}

fn print_coil_address(out: &mut impl Write, address: CoilAt) -> io::Result<()> {
    match address {
        CoilAt::Address(a) => write!(out, "address {}", a.value()),
        CoilAt::Refused(number) => refused(out, number),
    }
}

fn from_coil_number(out: &mut impl Write, n: u32) -> io::Result<()> {
    write!(out, "coil {n}: ")?;
    let at = CoilNumber::printed(n).address();
    print_coil_address(out, at)?;
    if let CoilAt::Address(a) = at {
        write!(out, ", ")?;
        print_coil_number(out, a.number())?;
    }
    writeln!(out)
}

fn from_coil_address(out: &mut impl Write, n: u32) -> io::Result<()> {
    write!(out, "coil address {n}: ")?;
    let is = CoilAddress::asked(n).number();
    print_coil_number(out, is)?;
    if let CoilIs::Number(m) = is {
        write!(out, ", ")?;
        print_coil_address(out, m.address())?;
    }
    writeln!(out)
}

// ---- cells

fn print_cell(out: &mut impl Write, cell: usize) -> io::Result<()> {
    write!(out, "word {} bit {}", cell / 16, cell % 16)
}

fn print_contact_cell(out: &mut impl Write, text: &[u8]) -> io::Result<()> {
    match contact_of(text) {
        Number::Value(contact) => print_cell(out, contact_cell(contact)),
        Number::NoDigitAt(_) => write!(out, "not a contact"),
    }
}

// The characters of bit `bit` of a relay word, and where they lead.
fn contact(out: &mut impl Write, relay: u32, bit: u8) -> io::Result<()> {
    let mut text = [0u8; 4];
    put_decimal(&mut text, 0, 3, relay);
    text[3] = hex_digit(bit);
    write!(out, "R")?;
    out.write_all(&text)?;
    write!(out, " is ")?;
    print_contact_cell(out, &text)
}

// Coil number 161 + i in all its names, and back.
fn coil(out: &mut impl Write, i: u32) -> io::Result<()>
    requires { i < 96 }
{
    write!(out, "{:06}: ", 161 + i)?;
    if let CoilAt::Address(a) = CoilNumber::printed(161 + i).address() {
        write!(out, "address {} is ", a.value())?;
        print_cell(out, a.cell())?;
        write!(out, ", ")?;
        contact(out, 100 + i / 16, (i % 16) as u8)?;
        write!(out, ", ")?;
        print_coil_number(out, a.number())?;
    }
    writeln!(out)
}

fn coils(out: &mut impl Write) -> io::Result<()> {
    for i in 0..96 {
        coil(out, i)?;
    }
    Ok(())
}

// Coil 000209, contact R1030 and bit 0 of word 133 are one cell.
fn three_names(out: &mut impl Write) -> io::Result<()> {
    write!(out, "coil 000209 is ")?;
    if let CoilAt::Address(a) = CoilNumber::printed(209).address() {
        print_cell(out, a.cell())?;
    }
    write!(out, "\ncontact R1030 is ")?;
    print_contact_cell(out, b"1030")?;
    write!(out, "\nword 133 bit 0 is ")?;
    print_cell(out, 16 * 133)?;
    writeln!(out)
}

fn print_verdict(out: &mut impl Write, verdict: Verdict) -> io::Result<()> {
    match verdict {
        Verdict::Granted => write!(out, "granted"),
        Verdict::Lacking(i) => write!(out, "refused at {i}"),
        Verdict::Unfit => write!(out, "refused by the profile"),
    }
}

fn show_word(out: &mut impl Write, words: &[u16], k: u32) -> io::Result<()> {
    match words_from(words, FrameAddress::asked(k), 1).first() {
        Some(word) => write!(out, "{word}"),
        None => Ok(()),
    }
}

// That cell written as a contact, and read as a coil and in its word; the word's other bits stay.
fn written(out: &mut impl Write) -> io::Result<()> {
    let mut words = [0u16; 136];
    words[133] = 18;
    write!(out, "word 133 is ")?;
    show_word(out, &words, 133)?;
    write!(out, "; R1030 set: ")?;
    let verdict = write_contacts(&mut words, &[3; 136], &[1648], &[1]);
    print_verdict(out, verdict)?;
    write!(out, ", word 133 is ")?;
    show_word(out, &words, 133)?;
    writeln!(
        out,
        ", coil 000209 is {}",
        cell_at(&words, CoilAddress::asked(208).cell())
    )
}

// ---- tables

// What the address check knows of a table: how many words it has, and their attributes.
#[derive(Clone, Copy)]
struct Table<'a> {
    words: u32,
    attributes: &'a [u8],
}

impl<'a> Table<'a> {
    fn print_run(
        self,
        out: &mut impl Write,
        area: Area,
        first: u32,
        count: usize,
    ) -> io::Result<()> {
        write!(out, "  {count} from {first}: ")?;
        let address = FrameAddress::asked(first);
        let verdict = first_lacking(
            self.words as usize,
            self.attributes,
            area,
            1,
            address,
            count,
        );
        print_verdict(out, verdict)?;
        writeln!(out)
    }

    fn print_relays(self, out: &mut impl Write) -> io::Result<()> {
        let words = self.words as usize;
        writeln!(out, "  relay words:")?;
        self.print_run(out, Area::Relays, 129, 2)?;
        self.print_run(out, Area::Relays, 130, 6)?;
        self.print_run(out, Area::Relays, 135, 2)?;
        write!(out, "  coils 160 to 255: ")?;
        let first = CoilAddress::asked(160);
        print_verdict(
            out,
            first_lacking_coil(words, self.attributes, 1, first, 96),
        )?;
        write!(out, "\n  R1000, R105F: ")?;
        print_verdict(
            out,
            first_lacking_contact(words, self.attributes, 1, &[1600, 1695]),
        )?;
        writeln!(out)
    }

    fn print_edges(self, out: &mut impl Write) -> io::Result<()> {
        let words = self.words;
        self.print_run(out, Area::Registers, 0, words as usize)?;
        self.print_run(out, Area::Registers, words, 1)?;
        if words > 0 {
            self.print_run(out, Area::Registers, words - 1, 2)?;
        }
        Ok(())
    }

    fn print(self, out: &mut impl Write) -> io::Result<()> {
        write!(out, "table of {} words: ", self.words)?;
        match ready(self.words as usize, self.attributes, 1, 1, 0, 0) {
            Ready::Fine => {
                writeln!(out, "taken")?;
                self.print_edges(out)?;
                self.print_relays(out)
            }
            Ready::Refused(number) => {
                refused(out, number)?;
                writeln!(out)
            }
        }
    }
}

fn tables(out: &mut impl Write) -> io::Result<()> {
    let all = [3u8; 65537];
    for words in [0, 1, 130, 131, 135, 136, 4096, 4097, 65536, 65537] {
        let table = Table {
            words,
            attributes: part_of(&all, 0, words as usize),
        };
        table.print(out)?;
    }
    Ok(())
}

// ---- all of it

fn register_edges(out: &mut impl Write) -> io::Result<()> {
    for n in [
        400000, 400001, 400134, 404096, 404097, 465536, 465537, 0, 4294967295,
    ] {
        from_number(out, n)?;
    }
    for n in [0, 133, 4095, 4096, 65535, 65536, 4294967295] {
        from_address(out, n)?;
    }
    Ok(())
}

fn coil_edges(out: &mut impl Write) -> io::Result<()> {
    for n in [0, 160, 161, 209, 256, 257, 4294967295] {
        from_coil_number(out, n)?;
    }
    for n in [0, 159, 160, 208, 255, 256, 4294967295] {
        from_coil_address(out, n)?;
    }
    Ok(())
}

fn main(rt: HostRuntime) -> io::Result<()> {
    let mut out = rt.stdout();
    register_edges(&mut out)?;
    coil_edges(&mut out)?;
    coils(&mut out)?;
    three_names(&mut out)?;
    written(&mut out)?;
    tables(&mut out)?;
    out.flush()
}
