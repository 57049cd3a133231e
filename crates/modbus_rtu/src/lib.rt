// A Modbus station in RTU frames: the station, the body, the CRC. The reply is written straight into the room.
#![tactic(auto)]

ghost use Rattle.std.specs.Prelude.{true, ◌≡◌, ◌∷◌, ◌+◌, ◌≤◌, length, get_or, take};
ghost use Rattle.text_rooms.specs.Room.{overwrite};
ghost use Rattle.checks_crc.specs.Crc.{crc_of, crc_bytes};
ghost use Rattle.table_registers.specs.Profile.{verdict};
ghost use Rattle.station.specs.Site.{site_of};
ghost use Rattle.station.specs.Station.{Fit};
ghost use Rattle.modbus_body.specs.Body.{repeats_all};
ghost use Rattle.modbus_line.specs.Framing.{modbus};
ghost use Rattle.modbus_line.specs.Calls.{Answers, Called, Heard};
ghost use Rattle.modbus_rtu.specs.Rtu.{rtu, rtu_frame};

use checks_crc::{crc_of, right_crc};
use modbus_body::carry_out;
use modbus_counters::Counters;
use modbus_line::{Call, HIGHEST, ROOM, Replied, answer, whom};
use rules::Refusal;
use station::order::ready;
use station::{Answer, Ready, Whom};
use table_registers::Profile;
use text_rooms::put_byte;
use text_slices::{byte_at, low_first, part_of};

// The bytes that a frame has at the least, and at the most.
const SHORTEST: usize = 4;

const LONGEST: usize = 256;

// Whether a reply that begins with this byte is the request again: a good one to 05, 06 or 16h is, and no other begins so.
fn repeats_all(first: u8) -> bool
    ensures { result ≡ repeats_all first }
{
    matches!(first, 0x05 | 0x06 | 0x16)
}

// The CRC of a reply to a request with this one: the same where the reply is the request again.
fn reply_crc(reply: &[u8], crc: u16) -> u16
    requires { repeats_all (get_or reply.now 1 0) ≡ true → crc ≡ crc_of reply.now }
    ensures { result ≡ crc_of reply.now }
{
    if repeats_all(byte_at(reply, 1)) {
        return crc;
    }
    crc_of(reply)
}

// The CRC of the first n bytes, after them.
fn put_crc(reply: &mut [u8], n: usize, crc: u16) -> usize
    requires { (n + 2 ≤ length reply.old) × (repeats_all (get_or (take n reply.old) 1 0) ≡ true → crc ≡ crc_of (take n reply.old)) }
    ensures { (result ≡ n + 2) × (reply.new ≡ overwrite reply.old n (crc_bytes (take n reply.old))) }
{
    let x = reply_crc(&reply[..n], crc);
    reply[n] = (x % 256) as u8;
    reply[n + 1] = (x / 256) as u8;
    n + 2
}

// The station, the answer to the body, and the CRC. The request's own CRC is `crc`.
fn serve(
    words: &mut [u16],
    attributes: &[u8],
    profile: Profile,
    own: u32,
    body: &[u8],
    crc: u16,
    reply: &mut [u8],
    counters: Counters,
) -> Replied
    requires { Fit (modbus rtu counters) own reply.old × (crc ≡ crc_of (own ∷ body.now)) }
    ensures { Answers (rtu_frame own) counters (verdict profile attributes.now) words.old body.now reply.old 0
        result words.new reply.new }
{
    put_byte(reply, 0, own as u8);
    let said = answer(words, attributes, profile, body, reply, 1, counters);
    Replied {
        size: put_crc(reply, 1 + said.size, crc),
        counters: said.counters,
    }
}

// The frame's length, its check and whom it is for, in this order; it counts before it is answered.
fn hear(
    words: &mut [u16],
    attributes: &[u8],
    profile: Profile,
    own: u32,
    frame: &[u8],
    reply: &mut [u8],
    counters: Counters,
) -> Call
    requires { Fit (modbus rtu counters) own reply.old }
    ensures { Heard rtu counters (site_of attributes.now profile own) words.old frame.now reply.old
        result words.new reply.new }
{
    let n = frame.len();
    if n < SHORTEST || n > LONGEST {
        return Call {
            answer: Answer::Refused(Refusal::SHAPE),
            counters: counters.stopped(Refusal::SHAPE),
        };
    }
    if !right_crc(frame) {
        return Call {
            answer: Answer::Refused(Refusal::CHECK),
            counters: counters.stopped(Refusal::CHECK),
        };
    }
    let body = part_of(frame, 1, n - 3);
    match whom(byte_at(frame, 0), own) {
        Whom::This => {
            let heard = counters.heard(Whom::This);
            let crc = low_first(frame, n - 2);
            let said = serve(words, attributes, profile, own, body, crc, reply, heard);
            Call {
                answer: Answer::Reply(said.size),
                counters: said.counters,
            }
        }
        Whom::All => Call {
            answer: carry_out(words, attributes, profile, body),
            counters: counters.heard(Whom::All),
        },
        Whom::Other => Call {
            answer: Answer::Refused(Refusal::OTHER_STATION),
            counters: counters.heard(Whom::Other),
        },
    }
}

// Answers one RTU frame of any length: `words` and `attributes` are the table, `own` is this station, `reply` is a room of
// at least 513 bytes, `counters` are the line's. A reply of n bytes stands in the room's first n; what was sent to all and carried out
// leaves the room, and where a number is given, words and room stay. The counters after the call come back beside the answer.
pub fn rtu_station(
    words: &mut [u16],
    attributes: &[u8],
    profile: Profile,
    own: u32,
    frame: &[u8],
    reply: &mut [u8],
    counters: Counters,
) -> Call
    ensures { Called rtu counters (site_of attributes.now profile own) words.old frame.now reply.old
        result words.new reply.new }
{
    match ready(words.len(), attributes, own, HIGHEST, ROOM, reply.len()) {
        Ready::Fine => hear(words, attributes, profile, own, frame, reply, counters),
        Ready::Refused(number) => Call {
            answer: Answer::Refused(number),
            counters,
        },
    }
}
