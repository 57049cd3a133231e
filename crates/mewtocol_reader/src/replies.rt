// What a frame is to a host that waits for a reply.
ghost use Rattle.std.specs.Prelude.{◌≡◌, List, ℕ, ◌+◌, ◌≤◌, length};
ghost use Rattle.rules.specs.Choice.{first_not};
ghost use Rattle.mewtocol_frame.specs.Text.{starts};
ghost use Rattle.mewtocol_frame.specs.Frame.{text_of};
ghost use Rattle.mewtocol_requests.specs.Requests.{letters};
ghost use Rattle.mewtocol_asking.specs.Code as code;
ghost use Rattle.mewtocol_reader.specs.Replies as rp;

use crate::Reply;
use mewtocol_asking::Asking;
use mewtocol_asking::numbers::listed;
use mewtocol_commands::Kind;
use mewtocol_commands::commands::entry;
use mewtocol_frame::Limits;
use mewtocol_frame::frame::{for_station, good_check, good_shape, limits_in, text_of};
use mewtocol_frame::text::{span, starts_2};
use rules::Refusal;
use text_digits::Number;
use text_hex::{hex_byte, is_hex};
use text_slices::{byte_at, is_between, rest};

// Whether a character may stand in data: `0` and `1` where it tells contacts, else upper-case hex.
fn allowed(contacts: bool, b: u8) -> bool
    ensures { result ≡ rp.allowed contacts b }
{
    if contacts {
        return is_between(b'0', b'1', b);
    }
    is_hex(b)
}

// The place of the first character that may not stand there; the length where all may.
fn first_wrong(contacts: bool, part: &[u8]) -> usize
    ensures { result ≡ first_not (rp.allowed contacts) part.now }
{
    'first: {
        for (i, b) in part.iter().enumerate() {
            if !allowed(contacts, *b) {
                break 'first i;
            }
        }
        part.len()
    }
}

// How many characters of data a request calls for.
fn data_size(asking: &Asking) -> usize
    ensures { result ≡ rp.data_size (code.request_of asking.now) }
{
    let e = entry(asking.command);
    let kind = e.kind;
    match kind {
        Kind::ReadContacts(_) => listed(asking),
        Kind::WriteContacts(_) => 0,
        Kind::ReadRange(_) => 4 * span(asking.first, asking.second),
        Kind::WriteRange(_) => 0,
        Kind::Fill => 0,
    }
}

// Whether the data of the reply tells contacts.
fn tells_contacts(asking: &Asking) -> bool
    ensures { result ≡ rp.tells_contacts (code.request_of asking.now) }
{
    let e = entry(asking.command);
    let kind = e.kind;
    match kind {
        Kind::ReadContacts(_) => true,
        Kind::WriteContacts(_) => false,
        Kind::ReadRange(_) => false,
        Kind::WriteRange(_) => false,
        Kind::Fill => false,
    }
}

// The first two letters of the command.
fn good_letters(asking: &Asking, text: &[u8]) -> bool
    ensures { result ≡ starts (letters (code.request_of asking.now)) text.now }
{
    let e = entry(asking.command);
    let name = e.name;
    starts_2(text, name.0, name.1)
}

// After `!`: two upper-case hex characters, the first at place 4 of a frame with so many characters.
fn error_in(end: usize, text: &[u8]) -> Reply
    ensures { (f : List ℕ) → rp.read_of result f ≡ rp.error_in end text.now }
{
    if text.len() != 2 {
        return Reply::NotAsked(end);
    }
    match hex_byte(text) {
        Number::Value(e) => Reply::Error(e as u8),
        Number::NoDigitAt(p) => Reply::NotAsked(p + 4),
    }
}

// After `$`: the command's first two letters, and the data, from place 6 of a frame with so many characters on.
fn data_in(asking: &Asking, end: usize, text: &[u8]) -> Reply
    requires { length text.now + 7 ≤ end }
    ensures { (f : List ℕ) → text_of f ≡ text.now → rp.read_of result f ≡
        rp.data_in (code.request_of asking.now) end text.now }
{
    if !good_letters(asking, text) {
        return Reply::NotAsked(end);
    }
    let part = rest(text, 2);
    if part.len() != data_size(asking) {
        return Reply::NotAsked(end);
    }
    let wrong = first_wrong(tells_contacts(asking), part);
    if wrong != part.len() {
        return Reply::NotAsked(wrong + 6);
    }
    Reply::Shows
}

// A good frame, in the form that was asked: an error, data, or 13.
fn form_reply(limits: Limits, asking: &Asking, frame: &[u8]) -> Reply
    requires { length (text_of frame.now) + 7 ≤ length frame.now }
    ensures { rp.read_of result frame.now ≡ rp.form_reply limits
        (code.request_of asking.now) frame.now }
{
    if byte_at(frame, 0) != limits.header {
        return Reply::NotAsked(frame.len());
    }
    let mark = byte_at(frame, 3);
    if mark == b'!' {
        return error_in(frame.len(), text_of(frame));
    }
    if mark == b'$' {
        return data_in(asking, frame.len(), text_of(frame));
    }
    Reply::NotAsked(frame.len())
}

// What a frame is to a host that asked what can be a request: its shape is that of its own form.
pub(crate) fn read_frame(limits: Limits, station: u32, asking: &Asking, frame: &[u8]) -> Reply
    ensures { rp.read_of result frame.now ≡ rp.read_frame limits station
        (code.request_of asking.now) frame.now }
{
    let own = limits_in(frame);
    if !good_shape(own, 9, frame) {
        return Reply::Refused(Refusal::SHAPE);
    }
    if !good_check(frame) {
        return Reply::Refused(Refusal::CHECK);
    }
    if !for_station(station, frame) {
        return Reply::Refused(Refusal::OTHER_STATION);
    }
    form_reply(limits, asking, frame)
}
