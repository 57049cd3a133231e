// What both frames of Modbus share: whom a frame is for, function 08 beside the seven that the table answers, and what a call counts.
#![tactic(auto)]

ghost use Rattle.std.specs.Prelude.{◌≡◌, ◌+◌, ◌≤◌, length};
ghost use Rattle.table_registers.specs.Profile.{verdict};
ghost use Rattle.station.specs.Outcome.{Served};
ghost use Rattle.modbus_body.specs.Body.{reply_to};
ghost use Rattle.modbus_line.specs.Framing.{answered, whom_at};
ghost use Rattle.modbus_line.specs.Calls.{Answers};

use modbus_counters::Counters;
use modbus_counters::diagnosis::{diagnose, replied};
use station::{Answer, Whom};
use table_registers::Profile;
use text_slices::byte_at;

// The highest station number; the lowest is 1.
pub const HIGHEST: u32 = 247;

// The reply room that a station of either frame asks for.
pub const ROOM: usize = 513;

// What a Modbus call gives back: the station's answer, and the line's counters after it.
#[derive(Clone, Copy)]
pub struct Call {
    pub answer: Answer,
    pub counters: Counters,
}

// A reply's size, and the counters after it.
#[derive(Clone, Copy)]
pub struct Replied {
    pub size: usize,
    pub counters: Counters,
}

// Whom a frame is for that names the station `to`, where `own` hears it: 0 names all stations.
pub fn whom(to: u8, own: u32) -> Whom
    ensures { result ≡ whom_at to own }
{
    if to as u32 == own {
        return Whom::This;
    }
    if to == 0 {
        return Whom::All;
    }
    Whom::Other
}

// The reply to a body: function 08's from the counters, any other's from the table.
fn reply(
    words: &mut [u16],
    attributes: &[u8],
    profile: Profile,
    body: &[u8],
    out: &mut [u8],
    at: usize,
    counters: Counters,
) -> usize
    requires { at + 256 ≤ length out.old }
    ensures { Served (reply_to body.now) (answered counters (verdict profile attributes.now) words.old body.now)
        out.old at result words.new out.new }
{
    if byte_at(body, 0) == 0x08 {
        return diagnose(out, at, body, counters);
    }
    modbus_body::answer(words, attributes, profile, body, out, at)
}

// Answers a body of any length and content, sent to this station by a frame that has counted in the counters: the reply's body stands
// in the room from index at on, and the words and the counters are those after it.
pub fn answer(
    words: &mut [u16],
    attributes: &[u8],
    profile: Profile,
    body: &[u8],
    out: &mut [u8],
    at: usize,
    counters: Counters,
) -> Replied
    requires { at + 256 ≤ length out.old }
    ensures { Answers (λ b. b) counters (verdict profile attributes.now) words.old body.now out.old at
        result words.new out.new }
{
    let size = reply(words, attributes, profile, body, out, at, counters);
    Replied {
        size,
        counters: replied(counters, body, byte_at(out, at)),
    }
}
