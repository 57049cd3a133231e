// What the stations of all formats share: what a call gives back, what it is given to do with, and the order 1, 2, 3, then the frame.
// Read specs/Station: one definition of a station serves every format.
#![tactic(auto)]

pub mod order;

use rules::Refusal;

// Whom a frame is for: the station that hears it, all stations, or another one.
#[derive(Clone, Copy)]
pub enum Whom {
    This,
    All,
    Other,
}

// What a station's call gives back: a reply of so many bytes; that a frame to all was carried out, without a reply; or a refusal or
// silence, by its number.
#[derive(Clone, Copy)]
pub enum Answer {
    Reply(usize),
    CarriedOut,
    Refused(Refusal),
}

// Whether a call goes on to its frame: 1, 2 and 3 come before it.
#[derive(Clone, Copy)]
pub enum Ready {
    Fine,
    Refused(Refusal),
}
