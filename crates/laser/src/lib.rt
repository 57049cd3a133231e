// The laser head's frames: a reader, a writer, and the distance that a frame tells. A frame's end is found by its length,
// never by a `.`, and nothing is stripped before the check.
#![tactic(auto)]

ghost use Rattle.std.specs.Prelude.{◌≡◌, ◌+◌, ◌≤◌, length};
ghost use Rattle.text_rooms.specs.Room.{overwrite};
ghost use Rattle.laser.specs.Frame as fr;

use checks_xor::{put_xor, right_xor};
use rules::Refusal;
use text_decimals::put_decimal;
use text_digits::{Number, decimal_2, decimal_5};
use text_rooms::{put_byte, put_part};
use text_slices::{byte_at, part_of, rest};

// What a reader makes of a frame: its two command bytes, or refusal 10 or 11.
#[derive(Clone, Copy)]
pub enum Reading {
    Frame(u8, u8),
    Refused(Refusal),
}

// What a writer did: a frame of so many bytes, or refusal 3 or 14.
#[derive(Clone, Copy)]
pub enum Written {
    Frame(usize),
    Refused(Refusal),
}

// A distance in hundredths of a millimetre; refusal 13, with the place in the frame of the first character that may not stand where it does, or the
// frame's length where no one character is wrong; or refusal 10 or 11.
#[derive(Clone, Copy)]
pub enum Distance {
    Hundredths(u32),
    NotAsked(usize),
    Refused(Refusal),
}

// The room that a writer asks for.
const ROOM: usize = 118;

fn good_shape(frame: &[u8]) -> bool
    ensures { result ≡ fr.good_shape frame.now }
{
    let Number::Value(n) = decimal_2(rest(frame, 1)) else {
        return false;
    };
    if frame.len() != 8 + n as usize {
        return false;
    }
    if byte_at(frame, 0) != b'/' {
        return false;
    }
    byte_at(frame, frame.len() - 1) == b'.'
}

// Reads a frame: any bytes, of any length. It gives the two command bytes; `frame_data` gives the data.
pub fn read_frame(frame: &[u8]) -> Reading
    ensures { fr.given result (fr.bytes_of (fr.read frame.now)) ≡ fr.read frame.now }
{
    if !good_shape(frame) {
        return Reading::Refused(Refusal::SHAPE);
    }
    if !right_xor(part_of(frame, 0, frame.len() - 1)) {
        return Reading::Refused(Refusal::CHECK);
    }
    Reading::Frame(byte_at(frame, 3), byte_at(frame, 4))
}

// The part of a frame that holds its data; where the reader refuses the frame, the empty part at its start.
pub fn frame_data(frame: &[u8]) -> &[u8]
    ensures { fr.Part (fr.read frame.now) frame.entry.ref_ptr result.now result.ref_ptr }
{
    match read_frame(frame) {
        Reading::Frame(_, _) => &frame[5..frame.len() - 3],
        Reading::Refused(_) => &frame[..0],
    }
}

// All of a frame before its check, at the start of the room; the length that it has.
fn put_front(room: &mut [u8], first: u8, second: u8, bytes: &[u8]) -> usize
    requires { (length bytes.now ≤ 99) × (118 ≤ length room.old) }
    ensures { (result ≡ length (fr.front_of first second bytes.now)) ×
        (room.new ≡ overwrite room.old 0 (fr.front_of first second bytes.now)) }
{
    put_byte(room, 0, b'/');
    put_decimal(room, 1, 2, bytes.len() as u32);
    put_byte(room, 3, first);
    put_byte(room, 4, second);
    put_part(room, 5, bytes);
    bytes.len() + 5
}

// Writes a frame with a command and at most 99 data bytes of any value into the first bytes of a room of at least 118;
// later bytes stay.
pub fn write_frame(room: &mut [u8], first: u8, second: u8, bytes: &[u8]) -> Written
    ensures { fr.Is (fr.write room.old first second bytes.now) result room.new }
{
    if room.len() < ROOM {
        return Written::Refused(Refusal::ROOM);
    }
    if bytes.len() > 99 {
        return Written::Refused(Refusal::NO_REQUEST);
    }
    let n = put_front(room, first, second, bytes);
    Written::Frame(put_xor(room, n, b'.'))
}

// The distance that six data bytes tell: five digits and 00h, from place 5 of the frame on.
fn distance_at(bytes: &[u8]) -> Distance
    ensures { fr.given_distance result ≡ fr.distance_at bytes.now }
{
    match decimal_5(bytes) {
        Number::Value(v) => {
            if byte_at(bytes, 5) != 0 {
                return Distance::NotAsked(10);
            }
            Distance::Hundredths(v)
        }
        Number::NoDigitAt(p) => Distance::NotAsked(p + 5),
    }
}

// The distance that a command and its data tell, in a frame with so many characters.
fn distance_in(end: usize, first: u8, second: u8, bytes: &[u8]) -> Distance
    ensures { fr.given_distance result ≡ fr.distance_in end first second bytes.now }
{
    if first != b'0' {
        return Distance::NotAsked(end);
    }
    if second != b'D' {
        return Distance::NotAsked(end);
    }
    if bytes.len() != 6 {
        return Distance::NotAsked(end);
    }
    distance_at(bytes)
}

// Reads a distance: a frame that the reader takes, with command `0D` and data of five digits and 00h.
pub fn read_distance(frame: &[u8]) -> Distance
    ensures { fr.given_distance result ≡ fr.distance_of frame.now }
{
    match read_frame(frame) {
        Reading::Frame(first, second) => {
            distance_in(
                frame.len(),
                first,
                second,
                part_of(frame, 5, frame.len() - 8),
            )
        }
        Reading::Refused(why) => Distance::Refused(why),
    }
}
