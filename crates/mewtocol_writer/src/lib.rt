// The host's requests to MEWTOCOL stations, written. `fields` writes the text, by the rows that a station reads.
#![tactic(auto)]

mod fields;

ghost use Rattle.std.specs.Prelude.{◌≡◌, true, ◌≤◌, length};
ghost use Rattle.mewtocol_frame.specs.Frame.{limits_of, Roomy};
ghost use Rattle.mewtocol_asking.specs.Asking as sk;
ghost use Rattle.mewtocol_asking.specs.Code as code;
ghost use Rattle.mewtocol_writer.specs.Writing as wr;

use checks_xor::put_xor;
use fields::put_text;
use mewtocol_asking::ways::asking;
use mewtocol_asking::{Ask, Asking, can_ask, is_station};
use mewtocol_frame::frame::put_opening;
use mewtocol_frame::{Form, Limits};
use rules::{CR, Refusal};

// What a writer did: a frame of so many bytes, or refusal 2, 3 or 14.
#[derive(Clone, Copy)]
pub enum Written {
    Frame(usize),
    Refused(Refusal),
}

// The whole frame of what can be a request.
fn put_request(limits: Limits, station: u32, asking: &Asking, room: &mut [u8]) -> usize
    requires { Roomy limits × (limits.longest ≤ length room.old) ×
        (sk.can_ask limits (code.asking_of asking.now) ≡ true) }
    ensures { wr.Puts 0 (wr.ask_frame limits.header station
        (code.asking_of asking.now)) room.old result room.new }
{
    put_opening(room, limits.header, station, b'#');
    let n = put_text(room, asking);
    put_xor(room, n, CR)
}

// The writer, in a form that has room for what it allows.
fn write(limits: Limits, station: u32, asking: &Asking, room: &mut [u8]) -> Written
    requires { Roomy limits }
    ensures { wr.Is (wr.write limits station (code.asking_of asking.now)
        room.old) result room.new }
{
    if !is_station(station) {
        return Written::Refused(Refusal::STATION);
    }
    if room.len() < limits.longest {
        return Written::Refused(Refusal::ROOM);
    }
    if !can_ask(limits, asking) {
        return Written::Refused(Refusal::NO_REQUEST);
    }
    Written::Frame(put_request(limits, station, asking, room))
}

// Writes a request to a station into the first bytes of a room of at least 118, in the expanded form 2,048; later bytes stay. Lists that
// the request doesn't use are not looked at.
pub fn write_request(
    form: Form,
    station: u32,
    ask: Ask,
    contacts: &[u32],
    values: &[u8],
    words: &[u16],
    room: &mut [u8],
) -> Written
    ensures { wr.Is (wr.write (limits_of form) station (sk.asking ask contacts.now values.now words.now)
        room.old) result room.new }
{
    write(
        Limits::of(form),
        station,
        &asking(ask, contacts, values, words),
        room,
    )
}
