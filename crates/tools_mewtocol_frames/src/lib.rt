// MEWTOCOL frames taken apart, as `explain` prints them: a request as a station hears it, a reply as a host reads it. What a frame means
// is said also where its check is wrong: then it is what the same frame with the right check means. Nothing of the engine stands on it;
// what is printed is held to the stored output.
#![tactic(auto)]

use checks_xor::xor_of;
use mewtocol_asking::{Ask, is_station};
use mewtocol_frame::LONGEST;
use mewtocol_frame::frame::{form_in, good_check, good_shape, limits_in, text_of};
use mewtocol_frame::text::span;
use mewtocol_reader::{Reply, data_contact, data_word, read_reply};
use mewtocol_requests::{Reading, Request, data_text, read_frame};
use mewtocol_station::station;
use station::Answer;
use std::io;
use std::io::Write;
use table_addresses::{Area, FrameAddress, contact_cell};
use table_registers::Profile;
use text_digits::{Number, decimal_2};
use text_hex::{hex_byte, hex_digit};
use text_slices::{byte_at, part_of, rest};
use tools_codes::pointing::print_pointed;
use tools_codes::{print_command, print_error};
use tools_names::{
    Numbered, coil_of, is_relay, print_bit, print_coil, print_contact, print_item, print_registers,
    print_value, print_wr,
};
use tools_printing::{print_byte, print_text, put};
use tools_typed::{store, store_all};

// A whole table, all of it open: what it refuses every station refuses.
const WORDS: usize = 65536;

// ---- words

// How many words some characters are, four each; 0 where they are none.
fn words_in(part: &[u8]) -> u32 {
    if part.len() > 400 {
        return 0;
    }
    (part.len() / 4) as u32
}

// The words of some characters; those of a write with the registers that they go to.
fn print_words(out: &mut impl Write, numbered: Numbered, part: &[u8]) -> io::Result<()> {
    for i in 0..words_in(part) {
        if let Number::Value(w) = data_word(part, i) {
            print_item(out, numbered, i as usize, w)?;
        }
    }
    Ok(())
}

// ---- requests

// What a station with a whole table replied.
fn print_replied(out: &mut impl Write, room: &[u8]) -> io::Result<()> {
    if byte_at(room, 3) != b'!' {
        return put(
            out,
            b"  answer    good, where the station has these words open\n",
        );
    }
    put(out, b"  answer    error ")?;
    if let Number::Value(e) = hex_byte(rest(room, 4)) {
        print_error(out, (e % 256) as u8)?;
    }
    Ok(())
}

// What a station with a whole table makes of a request; silence is for all stations alone.
fn print_answer(out: &mut impl Write, own: u32, frame: &[u8]) -> io::Result<()> {
    let mut words = [0u16; WORDS];
    let attributes = [3u8; WORDS];
    let mut room = [0u8; LONGEST];
    match station(
        &mut words,
        &attributes,
        Profile::Free,
        own,
        frame,
        &mut room,
    ) {
        Answer::Reply(_) => print_replied(out, &room),
        Answer::CarriedOut => put(
            out,
            b"  answer    none; done by each station that has these words open\n",
        ),
        Answer::Refused(_) => put(out, b"  answer    none, and no station does anything\n"),
    }
}

fn print_contact_facts(out: &mut impl Write, contact: u32) -> io::Result<()> {
    let cell = contact_cell(contact);
    put(out, b"  contact   ")?;
    print_contact(out, contact)?;
    if !is_relay(cell) {
        return put(out, b", outside R1000 to R105F");
    }
    put(out, b" = coil ")?;
    print_coil(out, coil_of(cell))?;
    put(out, b", ")?;
    print_bit(out, cell)
}

// At most n of a list.
fn some(contacts: &[u32], n: usize) -> &[u32] {
    &contacts[..n.min(contacts.len())]
}

fn print_contacts(out: &mut impl Write, contacts: &[u32]) -> io::Result<()> {
    for contact in contacts {
        print_contact_facts(out, *contact)?;
        put(out, b"\n")?;
    }
    Ok(())
}

fn print_settings(out: &mut impl Write, contacts: &[u32], values: &[u8]) -> io::Result<()> {
    for (contact, value) in contacts.iter().zip(values) {
        print_contact_facts(out, *contact)?;
        writeln!(out, ", to be {value}")?;
    }
    Ok(())
}

// The words from start to end.
fn print_range(out: &mut impl Write, area: Area, start: u32, end: u32) -> io::Result<()> {
    write!(out, "  count     {}", span(start, end))?;
    if let Area::Relays = area {
        put(out, b"\n  relays    ")?;
        print_wr(out, start)?;
        put(out, b" to ")?;
        print_wr(out, end)?;
    }
    put(out, b"\n  registers ")?;
    print_registers(
        out,
        FrameAddress::in_digits(area, start),
        FrameAddress::in_digits(area, end),
    )
}

fn print_request(
    out: &mut impl Write,
    request: Request,
    frame: &[u8],
    contacts: &[u32],
    values: &[u8],
) -> io::Result<()> {
    match request {
        Request::ReadContacts(n) => print_contacts(out, some(contacts, n as usize)),
        Request::WriteContacts(n) => print_settings(out, some(contacts, n as usize), values),
        Request::ReadRange(a, s, e) => print_range(out, a, s, e),
        Request::WriteRange(a, s, e) => {
            print_range(out, a, s, e)?;
            let numbered = Numbered::Registers(FrameAddress::in_digits(a, s).word());
            print_words(out, numbered, data_text(frame, span(s, e)))
        }
        Request::Fill(s, e, w) => {
            print_range(out, Area::Registers, s, e)?;
            put(out, b"  value     ")?;
            print_value(out, w)
        }
    }
}

// A request, with its check as it should be.
fn explain_request(out: &mut impl Write, frame: &[u8]) -> io::Result<()> {
    let mut contacts = [0u32; 8];
    let mut values = [0u8; 8];
    match read_frame(limits_in(frame), frame, &mut contacts, &mut values) {
        Reading::Faulty(_) => put(out, b"  kind      request, wrong in itself\n"),
        Reading::Asks(request) => {
            put(out, b"  command   ")?;
            print_command(out, text_of(frame))?;
            put(out, b"  kind      request\n")?;
            print_request(out, request, frame, &contacts, &values)
        }
    }
}

// ---- replies

// A reply: the station that it is from, the frame with its check as it should be, and the frame as it was given, which is what is shown.
#[derive(Clone, Copy)]
struct Heard<'a> {
    own: u32,
    frame: &'a [u8],
    given: &'a [u8],
}

impl<'a> Heard<'a> {
    // What it is to who made a request in its form; only ReadContacts has a list.
    fn read(self, ask: Ask, contacts: &[u32]) -> Reply {
        read_reply(
            form_in(self.frame),
            self.own,
            ask,
            contacts,
            &[0],
            &[0],
            self.frame,
        )
    }

    fn shows(self, ask: Ask, contacts: &[u32]) -> bool {
        matches!(self.read(ask, contacts), Reply::Shows)
    }

    // The place of the first character that the reply to a request has not there, or the frame's length.
    fn wrong_place(self, ask: Ask, contacts: &[u32]) -> usize {
        match self.read(ask, contacts) {
            Reply::NotAsked(at) => at,
            _ => self.frame.len(),
        }
    }

    // Points at a place of a reply whose data fits no request.
    fn point(self, out: &mut impl Write, at: usize, here: &[u8], whole: &[u8]) -> io::Result<()> {
        put(out, b"  kind      reply whose data fits no request\n")?;
        print_pointed(out, self.given, at, here, whole)
    }

    fn point_in_words(self, out: &mut impl Write, ask: Ask) -> io::Result<()> {
        self.point(
            out,
            self.wrong_place(ask, &[]),
            b"only 0 to 9 and A to F may stand here",
            b"it is the length, as each word has four characters",
        )
    }

    fn point_in_contacts(self, out: &mut impl Write, contacts: &[u32]) -> io::Result<()> {
        self.point(
            out,
            self.wrong_place(Ask::ReadContacts, contacts),
            b"only 0 and 1 may stand here",
            b"it is the length, as 1 to 8 contacts have one character each, and a word four",
        )
    }
}

fn print_reply_contacts(out: &mut impl Write, part: &[u8]) -> io::Result<()> {
    for i in 0..part.len() {
        if let Number::Value(v) = data_contact(part, i) {
            writeln!(out, "  contact {} {v}", i + 1)?;
        }
    }
    Ok(())
}

// Four or eight characters `0` and `1` can be contacts or words: only the request tells. What is asked names as many contacts as the reply has
// characters, and eight at most. Where contacts and words have the same length, a character that is wrong in words is wrong in contacts too.
fn explain_rc(out: &mut impl Write, heard: Heard, part: &[u8]) -> io::Result<()> {
    let eight = [0u32; 8];
    let contacts = some(&eight, part.len());
    let n = words_in(part);
    let relays = Ask::ReadRelays(0, n.saturating_sub(1));
    let shows_contacts = heard.shows(Ask::ReadContacts, contacts);
    let shows_relays = n > 0 && heard.shows(relays, &[]);
    if shows_contacts {
        put(out, b"  kind      reply to RCS or RCP, contacts read\n")?;
        print_reply_contacts(out, part)?;
    }
    if shows_contacts && shows_relays {
        put(out, b"  or, if RCC was asked:\n")?;
    }
    if shows_relays {
        put(out, b"  kind      reply to RCC, relay words read\n")?;
        print_words(out, Numbered::Values(1), part)?;
    }
    if shows_contacts || shows_relays {
        return Ok(());
    }
    if n > 0 && part.len() % 4 == 0 {
        heard.point_in_words(out, relays)
    } else {
        heard.point_in_contacts(out, contacts)
    }
}

// No data is no words: what is asked then is one.
fn explain_rd(out: &mut impl Write, heard: Heard, part: &[u8]) -> io::Result<()> {
    let ask = Ask::ReadWords(0, words_in(part).saturating_sub(1));
    if !heard.shows(ask, &[]) {
        return heard.point_in_words(out, ask);
    }
    put(out, b"  kind      reply to RD, words read\n")?;
    print_words(out, Numbered::Values(1), part)
}

// The reply to a write has no data.
fn explain_done(out: &mut impl Write, heard: Heard, ask: Ask, meaning: &str) -> io::Result<()> {
    if heard.shows(ask, &[]) {
        return writeln!(out, "  kind      reply to {meaning}");
    }
    heard.point(
        out,
        heard.wrong_place(ask, &[]),
        b"",
        b"it is the length, as the reply to a write has no data",
    )
}

fn explain_reply(out: &mut impl Write, heard: Heard) -> io::Result<()> {
    let text = text_of(heard.frame);
    match (byte_at(text, 0), byte_at(text, 1)) {
        (b'R', b'C') => explain_rc(out, heard, rest(text, 2)),
        (b'R', b'D') => explain_rd(out, heard, rest(text, 2)),
        (b'W', b'C') => explain_done(
            out,
            heard,
            Ask::WriteContact(0, 0),
            "WCS, WCP or WCC: written",
        ),
        (b'W', b'D') => explain_done(out, heard, Ask::WriteWords(0, 0), "WD: written"),
        (b'S', b'D') => explain_done(out, heard, Ask::FillWords(0, 0, 0), "SD: filled"),
        _ => heard.point(
            out,
            heard.given.len(),
            b"",
            b"no command begins with the two letters after `$`",
        ),
    }
}

// What a station answers that refuses; any request is refused alike.
fn explain_error(out: &mut impl Write, heard: Heard) -> io::Result<()> {
    if let Reply::Error(e) = heard.read(Ask::ReadContacts, &[0]) {
        put(out, b"  kind      error reply\n  error     ")?;
        return print_error(out, e);
    }
    put(
        out,
        b"  kind      no error reply: two upper-case hex digits stand after `!`\n",
    )?;
    print_pointed(
        out,
        heard.given,
        heard.wrong_place(Ask::ReadContacts, &[0]),
        b"only 0 to 9 and A to F may stand here",
        b"it is the length",
    )
}

// ---- the envelope

// A frame by its fourth character.
fn explain_marked(out: &mut impl Write, heard: Heard) -> io::Result<()> {
    match byte_at(heard.frame, 3) {
        b'#' => explain_request(out, heard.frame),
        b'$' => explain_reply(out, heard),
        b'!' => explain_error(out, heard),
        _ => put(
            out,
            b"  kind      unknown: after the station stands neither `#`, `$` nor `!`\n",
        ),
    }
}

fn print_check(out: &mut impl Write, frame: &[u8], n: usize, right: u8) -> io::Result<()> {
    put(out, b"  check     ")?;
    print_text(out, part_of(rest(frame, n), 0, 2))?;
    if good_check(frame) {
        return put(out, b", right\n");
    }
    put(out, b", wrong: ")?;
    print_byte(out, right)?;
    put(out, b" is right\n")
}

// Whether a frame is meant for a station: it is no reply.
fn is_asking(frame: &[u8]) -> bool {
    !matches!(byte_at(frame, 3), b'$' | b'!')
}

// A frame of good shape, for or from a station that can be; whether a station is to answer.
fn explain_from(out: &mut impl Write, own: u32, frame: &[u8]) -> io::Result<bool> {
    let Some(n) = frame.len().checked_sub(3) else {
        return Ok(false);
    };
    let right = xor_of(part_of(frame, 0, n));
    print_check(out, frame, n, right)?;
    let mut room = [0u8; LONGEST];
    store_all(&mut room, frame);
    store(&mut room, n, hex_digit(right / 16));
    store(&mut room, n + 1, hex_digit(right));
    let heard = Heard {
        own,
        frame: part_of(&room, 0, frame.len()),
        given: frame,
    };
    explain_marked(out, heard)?;
    let is_asked = is_asking(frame);
    if is_asked {
        print_answer(out, own, frame)?;
    }
    Ok(is_asked)
}

fn print_fault(out: &mut impl Write, frame: &[u8]) -> io::Result<()> {
    let n = frame.len();
    let limits = limits_in(frame);
    if n < 8 || n > limits.longest {
        return writeln!(
            out,
            "  no MEWTOCOL frame: it takes 8 to {} characters with CR",
            limits.longest
        );
    }
    put(out, b"  no MEWTOCOL frame: between `")?;
    print_text(out, part_of(frame, 0, 1))?;
    put(out, b"` and CR stand characters from 20h to 7Eh alone\n")
}

// A frame with its CR; whether a station is to answer.
pub fn explain_mewtocol(out: &mut impl Write, frame: &[u8]) -> io::Result<bool> {
    if !good_shape(limits_in(frame), 8, frame) {
        print_fault(out, frame)?;
        return Ok(false);
    }
    write!(
        out,
        "  format    MEWTOCOL, {} characters with CR\n  station   ",
        frame.len()
    )?;
    if rest(frame, 1).starts_with(b"FF") {
        put(out, b"FF, which is all stations\n")?;
        return explain_from(out, 1, frame);
    }
    let Number::Value(own) = decimal_2(rest(frame, 1)) else {
        print_text(out, part_of(frame, 1, 2))?;
        put(out, b", no two digits: no station hears it\n")?;
        return Ok(false);
    };
    if !is_station(own) {
        writeln!(out, "{own}, which no station has: 1 to 99")?;
        return Ok(false);
    }
    writeln!(out, "{own}")?;
    explain_from(out, own, frame)
}
