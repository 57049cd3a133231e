// What the face for C says of two frames, in numbers: what a number of a format names, and where the frames meet.
#![tactic(auto)]

ghost use Rattle.std.specs.Prelude.{◌≡◌, leb, Some, None};
ghost use Rattle.rules.specs.Choice.{pick};
ghost use Rattle.jeulgopae_codes.specs.Asks.{profile_of};
ghost use Rattle.jeulgopae_masters.specs.Codes.{line_of, formats_of, meeting_code, SmallMeeting, meeting_by};

use jeulgopae_codes::asks::{Chosen, profile_of};
use jeulgopae_codes::codes::number;
use masters::{Line, meeting};
use table_cells::Meeting;

// No cell that one of the two writes is read or written by the other.
const APART: i32 = -1001;
// A number that names no profile, or no format.
const UNKNOWN_PROFILE: i32 = -2000;

const UNKNOWN_FORMAT: i32 = -2001;

// 0 is MEWTOCOL, 1 RTU, 2 ASCII; any other number names no format.
#[tactic(auto, unfolding(crate::specs::Codes::line_of))]
fn line_of(format: u32) -> Option<Line>
    ensures { result ≡ pick (leb format 2) (Some (line_of format)) None }
{
    match format {
        0 => Some(Line::Mewtocol),
        1 => Some(Line::Rtu),
        2 => Some(Line::Ascii),
        _ => None,
    }
}

// The formats that two numbers name, where both name one.
#[tactic(auto, unfolding(crate::specs::Codes::formats_of))]
fn formats_of(one: u32, other: u32) -> Option<(Line, Line)>
    ensures { result ≡ formats_of one other }
{
    Some((line_of(one)?, line_of(other)?))
}

fn meeting_code(at: Meeting) -> i32
    requires { SmallMeeting at }
    ensures { result ≡ meeting_code at }
{
    match at {
        Meeting::Never => APART,
        Meeting::At(cell) => number(cell as usize),
    }
}

// The first cell at which two frames meet, or -1001; -2000 for a number that names no profile, then -2001 for one that names no format.
pub fn meeting_number(
    attributes: &[u8],
    profile: u32,
    one_format: u32,
    one_own: u32,
    one_frame: &[u8],
    other_format: u32,
    other_own: u32,
    other_frame: &[u8],
) -> i32
    ensures { result ≡ meeting_by (profile_of profile) (formats_of one_format other_format) attributes.now one_own one_frame.now
        other_own other_frame.now }
{
    let Chosen::Named(p) = profile_of(profile) else {
        return UNKNOWN_PROFILE;
    };
    let Some((one, other)) = formats_of(one_format, other_format) else {
        return UNKNOWN_FORMAT;
    };
    meeting_code(meeting(
        attributes,
        p,
        one,
        one_own,
        one_frame,
        other,
        other_own,
        other_frame,
    ))
}
