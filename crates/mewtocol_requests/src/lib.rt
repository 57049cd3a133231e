// What a MEWTOCOL frame asks (RULES M2 to M17). Nothing is looked up in a table here.
// A frame's way: `read_frame` looks at check and `#`, `texts` at the text between them, by the table of `mewtocol_commands` and the steps of
// `mewtocol_steps`.
#![tactic(auto)]

mod texts;

ghost use Rattle.std.specs.Prelude.{◌≡◌, ◌≤◌, length};
ghost use Rattle.mewtocol_frame.specs.Frame.{text_of};
ghost use Rattle.mewtocol_requests.specs.Hearing as hr;
ghost use Rattle.mewtocol_requests.specs.Code as code;

use mewtocol_frame::Limits;
use mewtocol_frame::frame::{good_check, text_of};
use mewtocol_steps::MewtocolError;
use table_addresses::Area;
use text_slices::{byte_at, rest};
use texts::read_text;

// What a request asks, in numbers. So many contacts (16 × relay word + bit), or a range of an area, from start to end; a fill names the
// registers from start to end, and the word. Contacts and values stand beside it, the words of a WriteRange in the frame (`data_text`).
#[derive(Clone, Copy)]
pub enum Request {
    ReadContacts(u32),
    WriteContacts(u32),
    ReadRange(Area, u32, u32),
    WriteRange(Area, u32, u32),
    Fill(u32, u32, u32),
}

// What a text asks: an error, or a request.
#[derive(Clone, Copy)]
pub enum Reading {
    Faulty(MewtocolError),
    Asks(Request),
}

// What a frame of a right shape asks, whomever it is for: the check, `#` and the text, in this order. The contacts and the values of a
// request are written into the first of the places lent for them, which are eight or more; all others stay.
pub fn read_frame(limits: Limits, frame: &[u8], contacts: &mut [u32], values: &mut [u8]) -> Reading
    requires { (8 ≤ length contacts.old) × (8 ≤ length values.old) }
    ensures { code.ReadsAs (hr.read_frame limits frame.now) (text_of frame.now) result contacts.old
        values.old contacts.new values.new }
{
    if !good_check(frame) {
        return Reading::Faulty(MewtocolError::Check);
    }
    if byte_at(frame, 3) != b'#' {
        return Reading::Faulty(MewtocolError::Format);
    }
    read_text(limits, text_of(frame), contacts, values)
}

// The part of a frame that holds the n words of a WriteRange, four characters each: the last before the check.
pub fn data_text(frame: &[u8], n: usize) -> &[u8]
    ensures { result.now ≡ code.data_in n (text_of frame.now) }
{
    let text = text_of(frame);
    if n <= text.len() / 4 {
        return rest(text, text.len() - 4 * n);
    }
    text
}
