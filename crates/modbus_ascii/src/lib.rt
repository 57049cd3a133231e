// A Modbus station in ASCII frames: `:`, hex pairs, CR, LF. The pairs are decoded to a local array and the reply's bytes encoded back.
#![tactic(auto)]

ghost use Rattle.std.specs.Prelude.{true, false, List, MatchOption, ◌≡◌, ℕ, ◌+◌, ◌*◌, ◌≤◌, length, take};
ghost use Rattle.text_rooms.specs.Room.{overwrite, Put};
ghost use Rattle.text_hex.specs.Hex.{all_hex};
ghost use Rattle.table_registers.specs.Profile.{verdict};
ghost use Rattle.station.specs.Site.{site_of};
ghost use Rattle.station.specs.Station.{Fit};
ghost use Rattle.modbus_line.specs.Framing.{modbus};
ghost use Rattle.modbus_line.specs.Calls.{Answers, Called, Heard};
ghost use Rattle.modbus_ascii.specs.Ascii.{hex_pairs, pair_bytes, text_frame, with_lrc, good_ascii, bytes_of, body_in, ascii, Stands};

use checks_lrc::{lrc_of, right_lrc};
use modbus_body::carry_out;
use modbus_counters::Counters;
use modbus_line::{Call, HIGHEST, ROOM, Replied, answer, whom};
use rules::{CR, LF, Refusal};
use station::order::ready;
use station::{Answer, Ready, Whom};
use table_registers::Profile;
use text_hex::{all_hex, pair_of, put_hex};
use text_rooms::{put_byte, put_part};
use text_slices::{byte_at, low_first, part_of, rest};

fn good_ascii(frame: &[u8]) -> bool
    ensures { result ≡ good_ascii frame.now }
{
    let n = frame.len();
    if n < 9 {
        return false;
    }
    let count = (n - 3) / 2;
    if count > 255 {
        return false;
    }
    if n != 2 * count + 3 {
        return false;
    }
    if byte_at(frame, 0) != b':' {
        return false;
    }
    if byte_at(frame, n - 2) != CR {
        return false;
    }
    if byte_at(frame, n - 1) != LF {
        return false;
    }
    all_hex(part_of(frame, 1, 2 * count))
}

// The bytes of n pairs of hex digits, from the start of the room on.
fn decode(text: &[u8], n: usize, bytes: &mut [u8])
    requires { (n ≤ length bytes.old) × (n ≤ 1000) × (2 * n ≤ length text.now) × (all_hex (take (2 * n) text.now) ≡ true) }
    ensures { bytes.new ≡ overwrite bytes.old 0 (pair_bytes n text.now) }
{
    for i in 0..n {
        bytes[i] = pair_of(low_first(text, 2 * i));
    }
}

// Writes the bytes that a frame's pairs say to the start of a room, and gives how many; none where the frame's shape is wrong.
pub fn bytes_into(frame: &[u8], room: &mut [u8]) -> Option<usize>
    requires { 255 ≤ length room.old }
    ensures { MatchOption result (good_ascii frame.now ≡ false) (λ n. Stands frame.now n room.new) }
{
    if !good_ascii(frame) {
        return None;
    }
    let count = (frame.len() - 3) / 2;
    decode(rest(frame, 1), count, room);
    Some(count)
}

// The bytes that a frame's pairs say: so many, at the start of a room for the longest frame's.
#[derive(Clone, Copy)]
pub struct Decoded {
    pub count: usize,
    pub bytes: [u8; 255],
}

impl Decoded {
    // The bytes that the frame says, without the room behind them.
    pub fn as_slice(&self) -> &[u8]
        ensures { result.now ≡ take self.now.count self.now.bytes }
    {
        &self.bytes[..self.count.min(255)]
    }
}

// The bytes that a frame's pairs say; none where its shape is wrong.
pub fn bytes_in(frame: &[u8]) -> Option<Decoded>
    ensures { MatchOption result (good_ascii frame.now ≡ false) (λ d. Stands frame.now d.count d.bytes) }
{
    let mut bytes = [0u8; 255];
    match bytes_into(frame, &mut bytes) {
        Some(count) => Some(Decoded { count, bytes }),
        None => None,
    }
}

// Bytes as pairs, from index at on.
fn put_pairs(out: &mut [u8], at: usize, bytes: &[u8])
    requires { at + 2 * length bytes.now ≤ length out.old }
    ensures { out.new ≡ overwrite out.old at (hex_pairs bytes.now) }
{
    for (i, b) in bytes.iter().enumerate() {
        put_hex(out, at + 2 * i, *b);
    }
}

// The bytes of a reply as a text.
fn encode(bytes: &[u8], reply: &mut [u8]) -> usize
    requires { 2 * length bytes.now + 3 ≤ length reply.old }
    ensures { Put reply.old 0 (text_frame bytes.now) result reply.new }
{
    let n = 2 * bytes.len();
    put_byte(reply, 0, b':');
    put_pairs(reply, 1, bytes);
    put_byte(reply, n + 1, CR);
    put_byte(reply, n + 2, LF);
    n + 3
}

// The station, the answer to the body, and the LRC, at the start of a local room.
fn answer_bytes(
    words: &mut [u16],
    attributes: &[u8],
    profile: Profile,
    own: u32,
    body: &[u8],
    out: &mut [u8],
    counters: Counters,
) -> Replied
    requires { (own ≤ 247) × (258 ≤ length out.old) }
    ensures { Answers (with_lrc own) counters (verdict profile attributes.now) words.old body.now out.old 0
        result words.new out.new }
{
    put_byte(out, 0, own as u8);
    let said = answer(words, attributes, profile, body, out, 1, counters);
    let n = said.size + 1;
    let lrc = lrc_of(&out[..n]);
    put_byte(out, n, lrc);
    Replied {
        size: n + 1,
        counters: said.counters,
    }
}

// All between the station and the LRC.
fn body_in(bytes: &[u8]) -> &[u8]
    requires { 2 ≤ length bytes.now }
    ensures { result.now ≡ body_in bytes.now }
{
    part_of(bytes, 1, bytes.len() - 2)
}

// Here and in `hear_bytes` not the code of modbus_rtu: there the frame stays lent until its reply is written, here the reply waits in its place.
// The reply's bytes are made where their text is to stand, and wait in place of the frame's n while it is written.
fn serve_text(
    words: &mut [u16],
    attributes: &[u8],
    profile: Profile,
    own: u32,
    n: usize,
    bytes: &mut [u8],
    reply: &mut [u8],
    counters: Counters,
) -> Replied
    requires { Fit (modbus ascii counters) own reply.old × (2 ≤ n) × (n ≤ 255) × (255 ≤ length bytes.old) }
    ensures { Answers (λ b. text_frame (with_lrc own b)) counters (verdict profile attributes.now) words.old
        (body_in (take n bytes.old)) reply.old 0 result words.new reply.new }
{
    let body = body_in(part_of(bytes, 0, n));
    let said = answer_bytes(words, attributes, profile, own, body, reply, counters);
    let size = said.size;
    put_part(bytes, 0, part_of(reply, 0, size));
    Replied {
        size: encode(part_of(bytes, 0, size), reply),
        counters: said.counters,
    }
}

// The check and whom the frame is for, in this order; it counts before it is answered. The frame's bytes are the first n.
fn hear_bytes(
    words: &mut [u16],
    attributes: &[u8],
    profile: Profile,
    own: u32,
    n: usize,
    bytes: &mut [u8],
    reply: &mut [u8],
    counters: Counters,
) -> Call
    requires { Fit (modbus ascii counters) own reply.old × (3 ≤ n) × (n ≤ 255) × (255 ≤ length bytes.old) }
    ensures { (frame : List ℕ) → good_ascii frame ≡ true → bytes_of frame ≡ take n bytes.old
        → Heard ascii counters (site_of attributes.now profile own) words.old frame reply.old result words.new
        reply.new }
{
    let heard = part_of(bytes, 0, n);
    if !right_lrc(heard) {
        return Call {
            answer: Answer::Refused(Refusal::CHECK),
            counters: counters.stopped(Refusal::CHECK),
        };
    }
    let whom = whom(byte_at(heard, 0), own);
    let counted = counters.heard(whom);
    match whom {
        Whom::This => {
            let said = serve_text(words, attributes, profile, own, n, bytes, reply, counted);
            Call {
                answer: Answer::Reply(said.size),
                counters: said.counters,
            }
        }
        Whom::All => Call {
            answer: carry_out(words, attributes, profile, body_in(part_of(bytes, 0, n))),
            counters: counted,
        },
        Whom::Other => Call {
            answer: Answer::Refused(Refusal::OTHER_STATION),
            counters: counted,
        },
    }
}

fn hear_text(
    words: &mut [u16],
    attributes: &[u8],
    profile: Profile,
    own: u32,
    frame: &[u8],
    reply: &mut [u8],
    counters: Counters,
) -> Call
    requires { Fit (modbus ascii counters) own reply.old }
    ensures { Heard ascii counters (site_of attributes.now profile own) words.old frame.now reply.old
        result words.new reply.new }
{
    let mut bytes = [0u8; 255];
    match bytes_into(frame, &mut bytes) {
        Some(n) => hear_bytes(
            words, attributes, profile, own, n, &mut bytes, reply, counters,
        ),
        None => Call {
            answer: Answer::Refused(Refusal::SHAPE),
            counters: counters.stopped(Refusal::SHAPE),
        },
    }
}

// Answers one ASCII frame, `:` to LF, of any length: as `rtu_station`, for the same body and counters the same answer and counters.
pub fn ascii_station(
    words: &mut [u16],
    attributes: &[u8],
    profile: Profile,
    own: u32,
    frame: &[u8],
    reply: &mut [u8],
    counters: Counters,
) -> Call
    ensures { Called ascii counters (site_of attributes.now profile own) words.old frame.now reply.old
        result words.new reply.new }
{
    match ready(words.len(), attributes, own, HIGHEST, ROOM, reply.len()) {
        Ready::Fine => hear_text(words, attributes, profile, own, frame, reply, counters),
        Ready::Refused(number) => Call {
            answer: Answer::Refused(number),
            counters,
        },
    }
}
