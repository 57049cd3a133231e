// Modbus frames taken apart, as `explain` prints them: RTU and ASCII are envelopes around one body, the function byte and its data. Nothing
// of the engine stands on it; what is printed is held to the stored output.
#![tactic(auto)]

ghost use Rattle.std.specs.Prelude.{◌≡◌, ltb};
ghost use Rattle.station.specs.declared.Whom.TheVariants.{This};
ghost use Rattle.modbus_counters.specs.Counters.{cleared, counted, came};
ghost use Rattle.modbus_counters.specs.Diagnosis.{count_at};

use checks_crc::{crc_of, right_crc};
use checks_lrc::{lrc_of, right_lrc};
use modbus_body::carry_out;
use modbus_counters::Counters;
use modbus_line::answer;
use station::Answer;
use std::io;
use std::io::Write;
use table_addresses::{CoilAddress, FrameAddress};
use table_registers::Profile;
use text_hex::all_hex;
use text_slices::{byte_at, part_of, rest};
use tools_codes::{print_diagnosis_exception, print_exception, print_function, print_sub_function};
use tools_lines::decode;
use tools_names::{
    Numbered, print_coils, print_hex_word, print_item, print_registers, print_value,
};
use tools_printing::{print_byte, print_pairs, put};

// A whole table, all of it open: what it refuses every station refuses.
const WORDS: usize = 65536;

// ---- parts of a body

// Two bytes, high byte first.
fn pair(body: &[u8], at: usize) -> u32 {
    let two = rest(body, at);
    byte_at(two, 0) as u32 * 256 + byte_at(two, 1) as u32
}

// The last of so many from the first on; the first where there is none.
fn last_of(first: u32, count: u32) -> u32 {
    if count == 0 {
        return first;
    }
    first % 65536 + (count - 1) % 65536
}

// What a request names by an address.
#[derive(Clone, Copy)]
enum Places {
    Registers,
    Coils,
}

fn print_places(out: &mut impl Write, places: Places, first: u32, last: u32) -> io::Result<()> {
    match places {
        Places::Registers => {
            print_registers(out, FrameAddress::asked(first), FrameAddress::asked(last))
        }
        Places::Coils => print_coils(out, CoilAddress::asked(first), CoilAddress::asked(last)),
    }
}

// The one place at the address.
fn print_place(out: &mut impl Write, places: Places, body: &[u8]) -> io::Result<()> {
    let address = pair(body, 1);
    let name = match places {
        Places::Registers => "register",
        Places::Coils => "coil    ",
    };
    write!(out, "  address   {address} ({address:04X}h)\n  {name}  ")?;
    print_places(out, places, address, address)
}

// So many places from the address on.
fn print_run(out: &mut impl Write, places: Places, body: &[u8], count: u32) -> io::Result<()> {
    let first = pair(body, 1);
    writeln!(
        out,
        "  address   {first} ({first:04X}h)\n  count     {count}"
    )?;
    if count == 0 {
        return Ok(());
    }
    let names = match places {
        Places::Registers => "registers",
        Places::Coils => "coils    ",
    };
    write!(out, "  {names} ")?;
    print_places(out, places, first, last_of(first, count))
}

// Bits as a frame packs them.
fn print_bits(out: &mut impl Write, bytes: &[u8]) -> io::Result<()> {
    put(out, b"  bits      ")?;
    print_pairs(out, bytes)?;
    put(out, b", the lowest bit of the first byte first\n")
}

// The words that some bytes hold; those of a write with the registers that they go to.
fn print_words(out: &mut impl Write, numbered: Numbered, bytes: &[u8]) -> io::Result<()> {
    for (i, word) in bytes.chunks_exact(2).enumerate() {
        print_item(out, numbered, i, pair(word, 0))?;
    }
    Ok(())
}

fn print_data(
    out: &mut impl Write,
    places: Places,
    numbered: Numbered,
    bytes: &[u8],
) -> io::Result<()> {
    match places {
        Places::Registers => print_words(out, numbered, bytes),
        Places::Coils => print_bits(out, bytes),
    }
}

// ---- what becomes of a body

// An exception to a function.
fn print_reason(out: &mut impl Write, function: u8, exception: u8) -> io::Result<()> {
    if function == 0x08 {
        print_diagnosis_exception(out, exception)
    } else {
        print_exception(out, exception)
    }
}

// Whether the frame that asks for a count is in it, cleared counters or not, so that no reply tells 0.
fn counts_itself(sub: u32) -> bool
    ensures { result ≡ ltb 0 (count_at sub (counted (came This) cleared)) }
{
    match sub {
        0x0B => true,
        0x0E => true,
        _ => false,
    }
}

// What a good request of function 08 gets.
fn print_diagnosed(out: &mut impl Write, sub: u32) -> io::Result<()> {
    match sub {
        0x00 => put(out, b"good, the same again\n"),
        0x0A => put(out, b"good, the same again; all five counts are 0 then\n"),
        _ if counts_itself(sub) => put(out, b"good, the count with this frame in it\n"),
        _ => put(out, b"good, the count\n"),
    }
}

fn print_good(out: &mut impl Write, body: &[u8]) -> io::Result<()> {
    put(out, b"  answer    ")?;
    if byte_at(body, 0) == 0x08 {
        print_diagnosed(out, pair(body, 1))
    } else {
        put(out, b"good, where the station has these words open\n")
    }
}

// What a station with a whole table answers to a request.
fn print_answer(out: &mut impl Write, body: &[u8]) -> io::Result<()> {
    let mut words = [0u16; WORDS];
    let attributes = [3u8; WORDS];
    let mut room = [0u8; 256];
    answer(
        &mut words,
        &attributes,
        Profile::Free,
        body,
        &mut room,
        0,
        Counters::cleared(),
    );
    if byte_at(&room, 0) < 128 {
        return print_good(out, body);
    }
    put(out, b"  answer    exception ")?;
    print_reason(out, byte_at(body, 0), byte_at(&room, 1))
}

// What a request to all stations comes to.
fn print_to_all(out: &mut impl Write, body: &[u8]) -> io::Result<()> {
    let mut words = [0u16; WORDS];
    let attributes = [3u8; WORDS];
    match carry_out(&mut words, &attributes, Profile::Free, body) {
        Answer::CarriedOut => put(
            out,
            b"  answer    none; done by each station that has these words open\n",
        ),
        _ => put(out, b"  answer    none, and no station does anything\n"),
    }
}

// What a request gets: nothing where it is damaged, meant for all or meant for nobody.
fn print_outcome(out: &mut impl Write, station: u8, is_right: bool, body: &[u8]) -> io::Result<()> {
    if !is_right {
        put(out, b"  answer    none, the check is wrong\n")
    } else if station == 0 {
        print_to_all(out, body)
    } else if is_station(station) {
        print_answer(out, body)
    } else {
        put(out, b"  answer    none, no station has this number\n")
    }
}

// ---- kinds

// What a body is by its length and its data.
#[derive(Clone, Copy)]
enum Kind {
    Request,
    Reply,
    Either,
    RequestOrNoCount,
    Misfit,
}

// Whether a station is to answer a body of a kind.
fn print_kind(out: &mut impl Write, kind: Kind) -> io::Result<bool> {
    let line = match kind {
        Kind::Request => "  kind      request\n",
        Kind::Reply => "  kind      reply\n",
        Kind::Either => "  kind      request, or the reply to it, which repeats it\n",
        Kind::RequestOrNoCount => "  kind      request, or a reply that tells a count of 0\n",
        Kind::Misfit => "  kind      neither a request nor a reply has this length\n",
    };
    put(out, line.as_bytes())?;
    Ok(!matches!(kind, Kind::Reply))
}

// Whether a body is a byte count and as many bytes: two for each register.
fn tells(places: Places, body: &[u8]) -> bool {
    let n = byte_at(body, 1) as usize;
    let is_even = matches!(places, Places::Coils) || n % 2 == 0;
    n > 0 && is_even && body.len() == n + 2
}

// ---- the functions: each says whether a station is to answer

// A run read: its reply has the data, behind a byte count. A list of three bytes is as long as a request; its address would be 0300h to
// 03FFh, where no coil is.
fn explain_run_read(out: &mut impl Write, places: Places, body: &[u8]) -> io::Result<bool> {
    if tells(places, body) {
        let answered = print_kind(out, Kind::Reply)?;
        print_data(out, places, Numbered::Values(1), rest(body, 2))?;
        return Ok(answered);
    }
    if body.len() != 5 {
        return print_kind(out, Kind::Misfit);
    }
    let answered = print_kind(out, Kind::Request)?;
    print_run(out, places, body, pair(body, 3))?;
    Ok(answered)
}

// What one place is set to.
fn print_setting(out: &mut impl Write, places: Places, w: u32) -> io::Result<()> {
    put(out, b"  value     ")?;
    match (places, w) {
        (Places::Registers, _) => print_value(out, w),
        (Places::Coils, 0xFF00) => put(out, b"FF00h, on\n"),
        (Places::Coils, 0) => put(out, b"0000h, off\n"),
        (Places::Coils, _) => writeln!(out, "{w:04X}h"),
    }
}

// A write to one place.
fn explain_set(out: &mut impl Write, places: Places, body: &[u8]) -> io::Result<bool> {
    if body.len() != 5 {
        return print_kind(out, Kind::Misfit);
    }
    let answered = print_kind(out, Kind::Either)?;
    print_place(out, places, body)?;
    print_setting(out, places, pair(body, 3))?;
    Ok(answered)
}

// Data other than 0 is a count: a request has none.
fn explain_count(out: &mut impl Write, sub: u32, data: u32) -> io::Result<bool> {
    if data == 0 {
        let kind = if counts_itself(sub) {
            Kind::Request
        } else {
            Kind::RequestOrNoCount
        };
        return print_kind(out, kind);
    }
    let answered = print_kind(out, Kind::Reply)?;
    let end = if data == 0xFFFF {
        ", where it stops"
    } else {
        ""
    };
    writeln!(out, "  count     {data}{end}")?;
    Ok(answered)
}

// The replies to echo and clear repeat the request.
fn explain_repeated(out: &mut impl Write, data: u32, is_echo: bool) -> io::Result<bool> {
    let kind = if is_echo || data == 0 {
        Kind::Either
    } else {
        Kind::Request
    };
    let answered = print_kind(out, kind)?;
    writeln!(out, "  data      {data:04X}h")?;
    Ok(answered)
}

fn explain_08(out: &mut impl Write, body: &[u8]) -> io::Result<bool> {
    if body.len() < 3 {
        return print_kind(out, Kind::Misfit);
    }
    put(out, b"  sub       ")?;
    if !print_sub_function(out, byte_at(body, 1), byte_at(body, 2))? {
        writeln!(out, "{:04X}, not one of 00 and 0A to 0F", pair(body, 1))?;
        return Ok(true);
    }
    if body.len() != 5 {
        return print_kind(out, Kind::Misfit);
    }
    let sub = pair(body, 1);
    if sub > 0x0A {
        return explain_count(out, sub, pair(body, 3));
    }
    explain_repeated(out, pair(body, 3), sub == 0)
}

// A run written: its request has the data, behind a byte count.
fn explain_run_write(out: &mut impl Write, places: Places, body: &[u8]) -> io::Result<bool> {
    if body.len() == 5 {
        let answered = print_kind(out, Kind::Reply)?;
        print_run(out, places, body, pair(body, 3))?;
        return Ok(answered);
    }
    if body.len() < 6 {
        return print_kind(out, Kind::Misfit);
    }
    let answered = print_kind(out, Kind::Request)?;
    print_run(out, places, body, pair(body, 3))?;
    let numbered = Numbered::Registers(pair(body, 1) as usize);
    print_data(out, places, numbered, rest(body, 6))?;
    Ok(answered)
}

fn explain_16(out: &mut impl Write, body: &[u8]) -> io::Result<bool> {
    if body.len() != 7 {
        return print_kind(out, Kind::Misfit);
    }
    let answered = print_kind(out, Kind::Either)?;
    print_place(out, Places::Registers, body)?;
    put(out, b"  and mask  ")?;
    print_hex_word(out, pair(body, 3))?;
    put(out, b", keeps the bits that are 1\n  or mask   ")?;
    print_hex_word(out, pair(body, 5))?;
    put(out, b", gives the bits that are not kept\n")?;
    Ok(answered)
}

// A function byte with its top bit set.
fn explain_refusal(out: &mut impl Write, body: &[u8]) -> io::Result<bool> {
    let function = byte_at(body, 0) % 128;
    print_byte(out, function)?;
    put(out, b", refused\n")?;
    if body.len() != 2 {
        return print_kind(out, Kind::Misfit);
    }
    let answered = print_kind(out, Kind::Reply)?;
    put(out, b"  exception ")?;
    print_reason(out, function, byte_at(body, 1))?;
    Ok(answered)
}

fn explain_other(out: &mut impl Write, body: &[u8]) -> io::Result<bool> {
    let function = byte_at(body, 0);
    if function >= 128 {
        return explain_refusal(out, body);
    }
    print_byte(out, function)?;
    put(out, b", not one of 01, 03, 05, 06, 08, 0F, 10 and 16\n")?;
    Ok(true)
}

fn explain_body(out: &mut impl Write, body: &[u8]) -> io::Result<bool> {
    let function = byte_at(body, 0);
    put(out, b"  function  ")?;
    print_function(out, function)?;
    match function {
        0x01 => explain_run_read(out, Places::Coils, body),
        0x03 => explain_run_read(out, Places::Registers, body),
        0x05 => explain_set(out, Places::Coils, body),
        0x06 => explain_set(out, Places::Registers, body),
        0x08 => explain_08(out, body),
        0x0F => explain_run_write(out, Places::Coils, body),
        0x10 => explain_run_write(out, Places::Registers, body),
        0x16 => explain_16(out, body),
        _ => explain_other(out, body),
    }
}

// ---- the envelopes: each says whether a station is to answer

fn is_station(station: u8) -> bool {
    matches!(station, 1..=247)
}

fn print_station(out: &mut impl Write, station: u8) -> io::Result<()> {
    let end = if station == 0 {
        ", which is all stations\n"
    } else if is_station(station) {
        "\n"
    } else {
        ", which no station has: 1 to 247\n"
    };
    write!(out, "  station   {station}{end}")
}

fn explain_parts(
    out: &mut impl Write,
    station: u8,
    is_right: bool,
    body: &[u8],
) -> io::Result<bool> {
    let is_asked = explain_body(out, body)?;
    if is_asked {
        print_outcome(out, station, is_right, body)?;
    }
    Ok(is_asked)
}

// The check that a frame has, and the right one where it is another.
fn print_check(out: &mut impl Write, check: &[u8], is_right: bool, right: &[u8]) -> io::Result<()> {
    put(out, b"  check     ")?;
    print_pairs(out, check)?;
    if is_right {
        return put(out, b", right\n");
    }
    put(out, b", wrong: ")?;
    print_pairs(out, right)?;
    put(out, b" is right\n")
}

pub fn explain_rtu(out: &mut impl Write, frame: &[u8]) -> io::Result<bool> {
    let n = frame.len();
    if !(4..=256).contains(&n) {
        put(out, b"  no RTU frame: it takes 4 to 256 bytes\n")?;
        return Ok(false);
    }
    writeln!(out, "  format    Modbus RTU, {n} bytes")?;
    print_station(out, byte_at(frame, 0))?;
    let is_right = right_crc(frame);
    let right = crc_of(part_of(frame, 0, n - 2)).to_le_bytes();
    print_check(out, rest(frame, n - 2), is_right, &right)?;
    explain_parts(out, byte_at(frame, 0), is_right, part_of(frame, 1, n - 3))
}

fn explain_bytes(out: &mut impl Write, bytes: &[u8]) -> io::Result<bool> {
    let n = bytes.len();
    if !(3..=255).contains(&n) {
        put(
            out,
            b"  no ASCII frame: it takes 3 to 255 bytes as hex pairs\n",
        )?;
        return Ok(false);
    }
    writeln!(out, "  format    Modbus ASCII, {n} bytes as hex pairs")?;
    print_station(out, byte_at(bytes, 0))?;
    let is_right = right_lrc(bytes);
    let right = [lrc_of(part_of(bytes, 0, n - 1))];
    print_check(out, rest(bytes, n - 1), is_right, &right)?;
    explain_parts(out, byte_at(bytes, 0), is_right, part_of(bytes, 1, n - 2))
}

// What stands between `:` and CR LF.
fn explain_pairs(out: &mut impl Write, text: &[u8]) -> io::Result<bool> {
    if !all_hex(text) {
        put(
            out,
            b"  no ASCII frame: between `:` and CR LF stand upper-case hex digits alone\n",
        )?;
        return Ok(false);
    }
    let mut bytes = [0u8; 600];
    let Some(n) = decode(text, &mut bytes) else {
        put(
            out,
            b"  no ASCII frame: after `:` stand hex pairs, an even number of digits\n",
        )?;
        return Ok(false);
    };
    explain_bytes(out, part_of(&bytes, 0, n))
}

// A frame with its CR and LF.
pub fn explain_ascii(out: &mut impl Write, frame: &[u8]) -> io::Result<bool> {
    let n = frame.len();
    if n < 3 {
        put(
            out,
            b"  no ASCII frame: it is shorter than `:`, CR and LF\n",
        )?;
        return Ok(false);
    }
    if !frame.ends_with(b"\r\n") {
        put(out, b"  no ASCII frame: it ends without CR and LF\n")?;
        return Ok(false);
    }
    explain_pairs(out, part_of(frame, 1, n - 3))
}
