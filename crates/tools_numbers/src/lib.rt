// What a register or a coil is, by each of its names, and the requests that read or write it, as `explain` prints them. Nothing of the
// engine stands on it; what is printed is held to the stored output.
#![tactic(auto)]

ghost use Rattle.std.specs.Prelude.{◌<◌, IfSome};

use checks_crc::crc_of;
use checks_lrc::lrc_of;
use host_pairs::{Halves, pair_words};
use mewtocol_asking::Ask;
use mewtocol_frame::Form;
use mewtocol_writer::{Written, write_request};
use std::io;
use std::io::Write;
use table_addresses::{
    Area, CoilAddress, CoilAt, CoilIs, CoilNumber, FrameAddress, RegisterAt, RegisterIs,
    RegisterNumber, TABLE_LIMIT, contact_cell, contact_of,
};
use table_profiles::{Data, taken};
use table_registers::Profile;
use text_digits::{Number, decimal_4, decimal_5};
use text_slices::{byte_at, part_of, rest};
use tools_names::{
    cell_of, coil_of, contact_at, dt_of, is_relay, last_cell_of, low_16, print_bit, print_both,
    print_coil, print_contact, print_dt, print_register, print_wr, relay_of,
};
use tools_printing::{print_byte, print_joined, print_pairs, print_text, print_word, put};
use tools_typed::{number_up_to, typed_number};

// The highest station of MEWTOCOL.
const LAST_MEWTOCOL: u32 = 99;

// What requests are for: to read a place, or to write a number to it. No Option, since to read is a wish too.
#[derive(Clone, Copy)]
pub enum Wish {
    Read,
    Write(u32),
}

// The requests that are asked for, and the station that they go to.
#[derive(Clone, Copy)]
pub struct Asked {
    pub station: u32,
    pub wish: Wish,
}

// ---- requests

// A Modbus request in both its envelopes.
fn print_modbus(out: &mut impl Write, bytes: &[u8]) -> io::Result<()> {
    put(out, b"  RTU       ")?;
    print_pairs(out, bytes)?;
    put(out, b" ")?;
    print_pairs(out, &crc_of(bytes).to_le_bytes())?;
    put(out, b"\n  ASCII     :")?;
    print_joined(out, bytes)?;
    print_byte(out, lrc_of(bytes))?;
    put(out, b"<CR><LF>\n")
}

fn high_byte(n: u32) -> u8 {
    (n / 256 % 256) as u8
}

fn low_byte(n: u32) -> u8 {
    (n % 256) as u8
}

// The Modbus requests for one register or coil: a function, its address, and a quantity or a value.
fn print_one(
    out: &mut impl Write,
    station: u32,
    function: u8,
    address: u32,
    last: u32,
) -> io::Result<()> {
    let bytes = [
        low_byte(station),
        function,
        high_byte(address),
        low_byte(address),
        high_byte(last),
        low_byte(last),
    ];
    print_modbus(out, &bytes)
}

// A MEWTOCOL request and the contacts or words that it names; none that is asked here writes several contacts, which would take values.
fn print_mewtocol(
    out: &mut impl Write,
    station: u32,
    ask: Ask,
    contacts: &[u32],
    words: &[u16],
) -> io::Result<()> {
    let mut room = [0u8; 118];
    let written = write_request(
        Form::Ordinary,
        station,
        ask,
        contacts,
        &[],
        words,
        &mut room,
    );
    if let Written::Frame(n) = written {
        put(out, b"  MEWTOCOL  ")?;
        print_text(out, part_of(&room, 0, n))?;
        put(out, b"\n")?;
    }
    Ok(())
}

// Why there is no MEWTOCOL request.
fn print_no_mewtocol(out: &mut impl Write, station: u32) -> io::Result<()> {
    if station > LAST_MEWTOCOL {
        put(out, b"  MEWTOCOL  none: its stations are 1 to 99\n")?;
    }
    Ok(())
}

fn print_reading(out: &mut impl Write, station: u32) -> io::Result<()> {
    writeln!(out, "  to read it from station {station}:")
}

fn print_writing(out: &mut impl Write, station: u32, value: u32) -> io::Result<()> {
    put(out, b"  to write ")?;
    print_both(out, value)?;
    writeln!(out, " to it at station {station}:")
}

// ---- registers

fn no_register(out: &mut impl Write) -> io::Result<()> {
    put(out, b"  no register: there are ")?;
    print_register(out, FrameAddress::asked(0))?;
    put(out, b" to ")?;
    print_register(out, FrameAddress::asked(TABLE_LIMIT - 1))?;
    put(out, b", DT00000 to ")?;
    print_dt(out, TABLE_LIMIT - 1)?;
    put(out, b"\n")
}

// The contacts and coils of a relay word.
fn relay_facts(out: &mut impl Write, address: FrameAddress) -> io::Result<()> {
    let cell = cell_of(address);
    let last = last_cell_of(address);
    put(out, b"  contacts  ")?;
    print_contact(out, contact_at(cell))?;
    put(out, b" to ")?;
    print_contact(out, contact_at(last))?;
    put(out, b"\n  coils     ")?;
    print_coil(out, coil_of(cell))?;
    put(out, b" to ")?;
    print_coil(out, coil_of(last))?;
    put(out, b"\n")
}

// The relay word that a register is, if it is one.
fn relay_in(address: FrameAddress) -> Option<u32> {
    let cell = cell_of(address);
    if is_relay(cell) {
        Some(relay_of(cell))
    } else {
        None
    }
}

fn register_reads(out: &mut impl Write, station: u32, address: FrameAddress) -> io::Result<()> {
    let k = dt_of(address);
    print_reading(out, station)?;
    print_one(out, station, 3, k, 1)?;
    print_mewtocol(out, station, Ask::ReadWords(k, k), &[], &[])?;
    if let Some(relay) = relay_in(address) {
        print_mewtocol(out, station, Ask::ReadRelays(relay, relay), &[], &[])?;
    }
    print_no_mewtocol(out, station)
}

// Whether the HL-G2, 50 mm type, would take a write of this word alone.
fn print_refused(out: &mut impl Write, k: u32, value: u32) -> io::Result<()> {
    let given = Data::Same((value % 65536) as u16);
    if taken(Profile::HlG2, given, b"", k as usize, 1) {
        return Ok(());
    }
    put(out, b"  HL-G2     refuses this: ")?;
    match k {
        100..=103 => put(out, b"half a limit\n"),
        _ => put(out, b"out of range\n"),
    }
}

fn register_writes(
    out: &mut impl Write,
    station: u32,
    address: FrameAddress,
    value: u32,
) -> io::Result<()> {
    let k = dt_of(address);
    let words = [(value % 65536) as u16];
    print_writing(out, station, value)?;
    print_one(out, station, 6, k, value)?;
    print_mewtocol(out, station, Ask::WriteWords(k, k), &[], &words)?;
    if let Some(relay) = relay_in(address) {
        print_mewtocol(out, station, Ask::WriteRelays(relay, relay), &[], &words)?;
    }
    print_no_mewtocol(out, station)?;
    print_refused(out, k, value)
}

// What the profile of the HL-G2, 50 mm type, has of a word.
fn profile_facts(out: &mut impl Write, k: u32) -> io::Result<()> {
    let text = match k {
        53 | 55 => "  HL-G2     takes 0\n",
        57 => "  HL-G2     takes 1 to 4\n",
        70 => "  HL-G2     takes 0 to 2\n",
        100 | 102 => {
            "  HL-G2     with the next register one signed number, the lower 16 bits here
            -950000 to 950000 in 0.1 um: 8110h FFF1h to 7EF0h 000Eh, 0 is 0000h 0000h\n"
        }
        101 | 103 => {
            "  HL-G2     the higher 16 bits of the register before it; one write has both\n"
        }
        _ => "",
    };
    put(out, text.as_bytes())
}

// The greatest signed number of 32 bits.
const FARTHEST: u32 = 2147483647;

// The words of a pair by its lower word, and the requests that write both.
fn print_pair(out: &mut impl Write, station: u32, k: u32, low: u16, high: u16) -> io::Result<()>
    requires { k < 65535 }
{
    put(out, b"  HL-G2     ")?;
    print_word(out, low)?;
    put(out, b"h ")?;
    print_word(out, high)?;
    writeln!(out, "h, both words in one write at station {station}:")?;
    let bytes = [
        low_byte(station),
        0x10,
        high_byte(k),
        low_byte(k),
        0,
        2,
        4,
        high_byte(low as u32),
        low_byte(low as u32),
        high_byte(high as u32),
        low_byte(high as u32),
    ];
    print_modbus(out, &bytes)?;
    print_mewtocol(out, station, Ask::WriteWords(k, k + 1), &[], &[low, high])?;
    print_no_mewtocol(out, station)
}

fn no_limit(out: &mut impl Write) -> io::Result<()> {
    put(
        out,
        b"  no value: a limit is a number from -950000 to 950000\n",
    )
}

// A limit by its sign and its distance from zero.
fn limit_of(is_below: bool, distance: u32) -> i32 {
    let limit = distance.min(FARTHEST) as i32;
    if is_below { -limit } else { limit }
}

fn print_limit(out: &mut impl Write, station: u32, k: u32, limit: i32) -> io::Result<()>
    requires { k < 65535 }
{
    match pair_words(limit) {
        Halves::Words(low, high) => print_pair(out, station, k, low, high),
        Halves::Refused(_) => no_limit(out),
    }
}

// The lower word of the pair that a name names, if it names one.
fn lower_of(place: &[u8]) -> Option<u32>
    ensures { IfSome result (λ k. k < 65535) }
{
    match place {
        b"400101" | b"DT00100" => Some(100),
        b"400103" | b"DT00102" => Some(102),
        _ => None,
    }
}

// Whether a place is a pair of the HL-G2, 50 mm type; if it is, the requests that write a number to it are printed.
pub fn explain_pair(
    out: &mut impl Write,
    station: u32,
    place: &[u8],
    value: &[u8],
) -> io::Result<bool> {
    let Some(k) = lower_of(place) else {
        return Ok(false);
    };
    let is_below = value.starts_with(b"-");
    let digits = if is_below { rest(value, 1) } else { value };
    match typed_number(FARTHEST, digits) {
        Some(m) => print_limit(out, station, k, limit_of(is_below, m))?,
        None => no_limit(out)?,
    }
    Ok(true)
}

fn register_facts(out: &mut impl Write, asked: Asked, address: FrameAddress) -> io::Result<()> {
    let k = dt_of(address);
    let relay = relay_in(address);
    put(out, b"  register  ")?;
    print_register(out, address)?;
    put(out, b"\n  address   ")?;
    print_both(out, k)?;
    put(out, b" in a frame\n  word      ")?;
    print_dt(out, k)?;
    if let Some(relay) = relay {
        put(out, b", ")?;
        print_wr(out, relay)?;
    }
    put(out, b"\n")?;
    if relay.is_some() {
        relay_facts(out, address)?;
    }
    profile_facts(out, k)?;
    match asked.wish {
        Wish::Read => register_reads(out, asked.station, address),
        Wish::Write(value) => register_writes(out, asked.station, address, value),
    }
}

fn explain_address(out: &mut impl Write, asked: Asked, address: FrameAddress) -> io::Result<()> {
    match address.number() {
        RegisterIs::Number(_) => register_facts(out, asked, address),
        RegisterIs::Refused(_) => no_register(out),
    }
}

fn explain_register(out: &mut impl Write, asked: Asked, n: u32) -> io::Result<()> {
    match RegisterNumber::printed(n).address() {
        RegisterAt::Address(a) => register_facts(out, asked, a),
        RegisterAt::Refused(_) => no_register(out),
    }
}

// ---- coils and contacts

fn no_coil(out: &mut impl Write) -> io::Result<()> {
    put(
        out,
        b"  no coil or contact: there are 000161 to 000256, R1000 to R105F\n",
    )
}

fn coil_reads(out: &mut impl Write, station: u32, address: CoilAddress) -> io::Result<()> {
    let contacts = [contact_at(address.cell())];
    print_reading(out, station)?;
    print_one(out, station, 1, address.value(), 1)?;
    print_mewtocol(out, station, Ask::ReadContacts, &contacts, &[])?;
    print_no_mewtocol(out, station)
}

// On is FF00h in Modbus.
fn coil_writes(
    out: &mut impl Write,
    station: u32,
    address: CoilAddress,
    value: u32,
) -> io::Result<()> {
    let switch = match value {
        0 => 0,
        1 => 0xFF00,
        _ => {
            return put(out, b"  no value for it: a coil or contact is 0 or 1\n");
        }
    };
    let ask = Ask::WriteContact(contact_at(address.cell()), value);
    print_writing(out, station, value)?;
    print_one(out, station, 5, address.value(), switch)?;
    print_mewtocol(out, station, ask, &[], &[])?;
    print_no_mewtocol(out, station)
}

fn coil_facts(out: &mut impl Write, asked: Asked, address: CoilAddress) -> io::Result<()> {
    let cell = address.cell();
    put(out, b"  coil      ")?;
    print_coil(out, address.number())?;
    put(out, b"\n  address   ")?;
    print_both(out, address.value())?;
    put(out, b" in a frame\n  contact   ")?;
    print_contact(out, contact_at(cell))?;
    put(out, b"\n  place     ")?;
    print_bit(out, cell)?;
    put(out, b", ")?;
    print_wr(out, relay_of(cell))?;
    put(out, b", register ")?;
    print_register(out, FrameAddress::asked(low_16(cell / 16)))?;
    put(out, b"\n")?;
    match asked.wish {
        Wish::Read => coil_reads(out, asked.station, address),
        Wish::Write(value) => coil_writes(out, asked.station, address, value),
    }
}

fn explain_coil(out: &mut impl Write, asked: Asked, n: u32) -> io::Result<()> {
    match CoilNumber::printed(n).address() {
        CoilAt::Address(a) => coil_facts(out, asked, a),
        CoilAt::Refused(_) => no_coil(out),
    }
}

fn explain_cell(out: &mut impl Write, asked: Asked, cell: usize) -> io::Result<()> {
    match coil_of(cell) {
        CoilIs::Number(n) => explain_coil(out, asked, n.as_printed()),
        CoilIs::Refused(_) => no_coil(out),
    }
}

// ---- what was probably meant

fn six_digits(out: &mut impl Write) -> io::Result<()> {
    put(out, b"  registers have six digits, ")?;
    print_register(out, FrameAddress::asked(0))?;
    put(out, b" to ")?;
    print_register(out, FrameAddress::asked(TABLE_LIMIT - 1))
}

// A register without one of its zeros, as older catalogues number them: 40134 for 400134.
fn five_digits(out: &mut impl Write, n: u32) -> io::Result<()> {
    match RegisterNumber::printed(n).address() {
        RegisterAt::Address(a) => {
            put(out, b": ")?;
            print_register(out, a)?;
            put(out, b" was probably meant")
        }
        RegisterAt::Refused(_) => put(out, b":  are all"),
    }
}

// A number that is no register's is an address, perhaps.
fn bare_address(out: &mut impl Write, n: u32) -> io::Result<()> {
    if n < TABLE_LIMIT {
        write!(out, ": address {n} is register ")?;
        print_register(out, FrameAddress::asked(n))?;
        put(out, b", ")?;
        print_dt(out, n)?;
    }
    Ok(())
}

// What a number with fewer than six digits was probably meant for.
pub fn explain_short(out: &mut impl Write, word: &[u8]) -> io::Result<()> {
    let Some(n) = number_up_to(false, 99999, word) else {
        return Ok(());
    };
    six_digits(out)?;
    match n {
        40001..=49999 => five_digits(out, n + 360000)?,
        _ => bare_address(out, n)?,
    }
    put(out, b"\n")
}

// A number that is too long for a register, and not a frame either.
pub fn explain_long(out: &mut impl Write) -> io::Result<()> {
    six_digits(out)?;
    put(
        out,
        b"; between the bytes of a frame in digits alone stand blanks\n",
    )
}

// ---- as they are typed

// The number that six digits say.
fn decimal_6(word: &[u8]) -> Option<u32> {
    number_up_to(false, 999999, word)
}

// Whether a word is a number as the catalogue prints it: six digits.
pub fn is_number(word: &[u8]) -> bool {
    word.len() == 6 && matches!(decimal_6(word), Some(_))
}

// Registers start with 4 and coils with 0.
pub fn explain_number(out: &mut impl Write, asked: Asked, word: &[u8]) -> io::Result<()> {
    let Some(n) = decimal_6(word) else {
        return Ok(());
    };
    match byte_at(word, 0) {
        b'4' => explain_register(out, asked, n),
        b'0' => explain_coil(out, asked, n),
        _ => put(
            out,
            b"  no number of the catalogue: registers start with 4, coils with 0\n",
        ),
    }
}

// R and what follows.
pub fn explain_contact(out: &mut impl Write, asked: Asked, word: &[u8]) -> io::Result<()> {
    let name = rest(word, 1);
    match contact_of(name) {
        Number::Value(c) if name.len() == 4 => explain_cell(out, asked, contact_cell(c)),
        Number::Value(_) => put(out, b"  no contact: R takes four characters, as in R103F\n"),
        Number::NoDigitAt(_) => put(
            out,
            b"  no contact: R takes three decimal digits and a hex digit, as in R103F\n",
        ),
    }
}

// DT and what follows.
pub fn explain_dt(out: &mut impl Write, asked: Asked, word: &[u8]) -> io::Result<()> {
    let name = rest(word, 2);
    match decimal_5(name) {
        Number::Value(k) if name.len() == 5 => {
            explain_address(out, asked, FrameAddress::in_digits(Area::Registers, k))
        }
        _ => put(
            out,
            b"  no data register: DT takes five digits, as in DT00133\n",
        ),
    }
}

// WR and what follows: a relay word that the table has.
pub fn explain_wr(out: &mut impl Write, asked: Asked, word: &[u8]) -> io::Result<()> {
    let name = rest(word, 2);
    let relay = match decimal_4(name) {
        Number::Value(relay) if name.len() == 4 => relay,
        _ => {
            return put(
                out,
                b"  no relay word: WR takes four digits, as in WR0103\n",
            );
        }
    };
    let address = FrameAddress::in_digits(Area::Relays, relay);
    match relay_in(address) {
        Some(_) => register_facts(out, asked, address),
        None => put(out, b"  no relay word: there are WR0100 to WR0105\n"),
    }
}
