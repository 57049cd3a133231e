// The envelope of a frame, each test total: no length is asked for.
ghost use Rattle.std.specs.Prelude.{◌≡◌, ◌≤◌, length};
ghost use Rattle.text_rooms.specs.Room.{overwrite};
ghost use Rattle.mewtocol_frame.specs.Frame as fr;

use crate::{Form, Limits};
use checks_xor::right_xor;
use rules::CR;
use text_decimals::put_decimal;
use text_digits::{Number, decimal_2};
use text_rooms::put_byte;
use text_slices::{all_between, byte_at, part_of, rest};

// The form of frame that its first character says.
pub fn form_in(frame: &[u8]) -> Form
    ensures { result ≡ fr.form_in frame.now }
{
    if byte_at(frame, 0) == b'<' {
        return Form::Expanded;
    }
    Form::Ordinary
}

// What the form allows that a frame's first character says; with neither header the ordinary one, whose shape it lacks.
pub fn limits_in(frame: &[u8]) -> Limits
    ensures { result ≡ fr.limits_in frame.now }
{
    Limits::of(form_in(frame))
}

// Whether a frame has the form's shape: its length from `least` on, its header, CR, and 20h to 7Eh between. A station asks for 8
// characters, a reader of replies for 9.
#[tactic(auto, using(crate::proofs::Shapes::no_cr))]
pub fn good_shape(limits: Limits, least: usize, frame: &[u8]) -> bool
    ensures { result ≡ fr.good_shape limits least frame.now }
{
    let n = frame.len();
    if n < least {
        return false;
    }
    if n > limits.longest {
        return false;
    }
    if byte_at(frame, 0) != limits.header {
        return false;
    }
    if byte_at(frame, n.saturating_sub(1)) != CR {
        return false;
    }
    all_between(0x20, 0x7E, part_of(frame, 1, n.saturating_sub(2)))
}

// Whether the two station characters are the decimal digits of this station.
pub fn for_station(own: u32, frame: &[u8]) -> bool
    ensures { result ≡ fr.for_station own frame.now }
{
    match decimal_2(rest(frame, 1)) {
        Number::Value(v) => v == own,
        Number::NoDigitAt(_) => false,
    }
}

// Whether the two characters before CR are the check of everything before them.
pub fn good_check(frame: &[u8]) -> bool
    ensures { result ≡ fr.good_check frame.now }
{
    right_xor(part_of(frame, 0, frame.len().saturating_sub(1)))
}

// All between the fourth character and the check.
pub fn text_of(frame: &[u8]) -> &[u8]
    ensures { result.now ≡ fr.text_of frame.now }
{
    part_of(frame, 4, frame.len().saturating_sub(7))
}

// The header character, the station's two digits and a mark, at the start of a room.
pub fn put_opening(room: &mut [u8], header: u8, station: u32, mark: u8)
    requires { 4 ≤ length room.old }
    ensures { room.new ≡ overwrite room.old 0 (fr.opening header station mark) }
{
    put_byte(room, 0, header);
    put_decimal(room, 1, 2, station);
    put_byte(room, 3, mark);
}
