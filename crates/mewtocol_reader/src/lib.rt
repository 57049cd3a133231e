// The replies of MEWTOCOL stations, read by the host that asked. `replies` says what a frame is; the data of a reply is given as a part
// of the caller's frame, and read by place.
#![tactic(auto)]

mod replies;

ghost use Rattle.std.specs.Prelude.{◌≡◌, ◌*◌, drop, get_or};
ghost use Rattle.text_hex_words.specs.Words.{low_first_word};
ghost use Rattle.mewtocol_frame.specs.Text as tx;
ghost use Rattle.mewtocol_frame.specs.Frame.{limits_of};
ghost use Rattle.mewtocol_asking.specs.Asking as sk;
ghost use Rattle.mewtocol_asking.specs.Code as code;
ghost use Rattle.mewtocol_reader.specs.Replies as rp;

use mewtocol_asking::ways::asking;
use mewtocol_asking::{Ask, Asking, can_ask, is_station};
use mewtocol_frame::text::bit;
use mewtocol_frame::{Form, Limits};
use replies::read_frame;
use rules::Refusal;
use text_digits::Number;
use text_hex_words::word_low_first;
use text_slices::rest;

// What a reader makes of a frame: data, which `reply_data` gives; the station's error number; refusal 13, with the place in the frame of the
// first character that may not stand where it does, or the frame's length where no one character is wrong; or refusal 2, 10, 11, 12 or 14.
#[derive(Clone, Copy)]
pub enum Reply {
    Shows,
    Error(u8),
    NotAsked(usize),
    Refused(Refusal),
}

// The reader, told what the form allows.
fn read(limits: Limits, station: u32, asking: &Asking, frame: &[u8]) -> Reply
    ensures { rp.read_of result frame.now ≡ rp.read limits station
        (code.asking_of asking.now) frame.now }
{
    if !is_station(station) {
        return Reply::Refused(Refusal::STATION);
    }
    if !can_ask(limits, asking) {
        return Reply::Refused(Refusal::NO_REQUEST);
    }
    read_frame(limits, station, asking, frame)
}

// Reads the reply to what a station was asked in a form: any bytes, of any length.
pub fn read_reply(
    form: Form,
    station: u32,
    ask: Ask,
    contacts: &[u32],
    values: &[u8],
    words: &[u16],
    frame: &[u8],
) -> Reply
    ensures { rp.read_of result frame.now ≡ rp.read (limits_of form) station
        (sk.asking ask contacts.now values.now words.now) frame.now }
{
    read(
        Limits::of(form),
        station,
        &asking(ask, contacts, values, words),
        frame,
    )
}

// The part of a frame that holds the data of a reply, empty for a write's reply; for an error reply and every refusal the empty part at
// the frame's start.
pub fn reply_data<'a>(
    form: Form,
    station: u32,
    ask: Ask,
    contacts: &[u32],
    values: &[u8],
    words: &[u16],
    frame: &'a [u8],
) -> &'a [u8]
    ensures { rp.Part (rp.read (limits_of form) station (sk.asking ask contacts.now values.now words.now)
        frame.now) frame.entry.ref_ptr result.now result.ref_ptr }
{
    match read_reply(form, station, ask, contacts, values, words, frame) {
        Reply::Shows => &frame[6..frame.len() - 3],
        Reply::Error(_) => &frame[..0],
        Reply::NotAsked(_) => &frame[..0],
        Reply::Refused(_) => &frame[..0],
    }
}

// Word i of the data of a reply, low byte first; past the last no digit, at a place counted from the word's first character.
pub fn data_word(part: &[u8], i: u32) -> Number
    ensures { result ≡ low_first_word (drop (4 * i) part.now) }
{
    word_low_first(rest(part, 4 * i as usize))
}

// Contact i of the data of a reply, 0 or 1; past the last no digit.
pub fn data_contact(part: &[u8], i: usize) -> Number
    ensures { result ≡ tx.bit (get_or (drop i part.now) 0 0) }
{
    bit(rest(part, i))
}
