// Modbus: one body of a request, the function byte and its data, answered over the table by one of seven functions. RTU and ASCII
// are frames around it, and no rule of a function is written twice.
#![tactic(auto)]

pub mod asking;
mod coils;
pub mod replies;
mod words;

ghost use Rattle.std.specs.Prelude.{◌≡◌, List, ℕ, ◌+◌, ◌≤◌, length};
ghost use Rattle.table_registers.specs.Profile.{verdict};
ghost use Rattle.station.specs.Site.{done};
ghost use Rattle.station.specs.Outcome.{Is, Served};
ghost use Rattle.station.specs.Station.{to_all};
ghost use Rattle.modbus_body.specs.Body as bd;
ghost use Rattle.modbus_body.specs.Said.{number_of, left};

use coils::{read_coils, write_coil, write_coils};
use replies::settle;
use rules::Refusal;
use station::Answer;
use table_registers::Profile;
use text_slices::byte_at;
use words::{mask_register, read_registers, write_register, write_registers};

// An exception, by its number.
#[derive(Clone, Copy, Debug, PartialEq, Eq)]
pub enum Exception {
    // no function, or none of its sub-functions
    Function = 1,
    // a word or coil that is not there, or lacks what is needed
    Address = 2,
    // a body that doesn't fit its function, or a value that the profile doesn't take
    Value = 3,
}

impl Exception {
    // The byte that a reply tells it by.
    pub fn number(self) -> u8
        ensures { result ≡ number_of self }
    {
        self as u8
    }
}

// Any function but 01 and 03: how many bytes of the request its good reply repeats, or an exception.
fn write(
    words: &mut [u16],
    attributes: &[u8],
    profile: Profile,
    body: &[u8],
) -> Result<u8, Exception>
    ensures { done bd.exceptions (verdict profile attributes.now) words.old (bd.body_asks bd.writes body.now) ≡
        left body.now result words.new }
{
    let function = byte_at(body, 0);
    match function {
        0x05 => write_coil(words, attributes, body),
        0x06 => write_register(words, attributes, profile, body),
        0x0F => write_coils(words, attributes, body),
        0x10 => write_registers(words, attributes, profile, body),
        0x16 => mask_register(words, attributes, profile, body),
        _ => Err(Exception::Function),
    }
}

// A body that was sent to all: a write is carried out where it would have got a good reply, and no reply is made.
pub fn carry_out(words: &mut [u16], attributes: &[u8], profile: Profile, body: &[u8]) -> Answer
    ensures { (room : List ℕ) → Is (to_all words.old room (bd.body_asks bd.functions body.now)
        (bd.answered (verdict profile attributes.now) words.old body.now)) result words.new room }
{
    match write(words, attributes, profile, body) {
        Ok(_) => Answer::CarriedOut,
        Err(_) => Answer::Refused(Refusal::OTHER_STATION),
    }
}

// Answers a body of any length and content: the reply's body stands in the room from index at on, the words are those after
// the request, and the result is the reply's length.
pub fn answer(
    words: &mut [u16],
    attributes: &[u8],
    profile: Profile,
    body: &[u8],
    out: &mut [u8],
    at: usize,
) -> usize
    requires { at + 256 ≤ length out.old }
    ensures { Served (bd.reply_to body.now) (bd.answered (verdict profile attributes.now) words.old body.now)
        out.old at result words.new out.new }
{
    let function = byte_at(body, 0);
    match function {
        0x01 => read_coils(words, attributes, body, out, at),
        0x03 => read_registers(words, attributes, body, out, at),
        _ => {
            let said = write(words, attributes, profile, body);
            settle(out, at, body, said)
        }
    }
}
