// When the order of two masters on one table can matter: which cells a frame may read and write, and whether those of two frames meet.
#![tactic(auto)]

mod bodies;
mod mewtocol;
mod modbus;
mod whom;

ghost use Rattle.std.specs.Prelude.{◌≡◌, length};
ghost use Rattle.table_cells.specs.Touched.{cells_in, Touches, Lowest};
ghost use Rattle.table_cells.specs.Cells as cl;
ghost use Rattle.station.specs.Site.{site_of};
ghost use Rattle.masters.specs.Frames.{line_cells};

use mewtocol::mewtocol_touched;
use modbus::{ascii_touched, rtu_touched};
use table_cells::meet::first_meeting;
use table_cells::{Meeting, Touched};
use table_registers::Profile;

// How a line's frames are written.
#[derive(Clone, Copy)]
pub enum Line {
    Mewtocol,
    Rtu,
    Ascii,
}

// The cells that a frame of a line may read and write at station `own`, whatever the words hold: none where 1, 2, 10, 11 or 12 is given, or an error.
pub fn touched(line: Line, attributes: &[u8], profile: Profile, own: u32, frame: &[u8]) -> Touched
    ensures { Touches result (line_cells line (site_of attributes.now profile own) frame.now) }
{
    match line {
        Line::Mewtocol => mewtocol_touched(attributes, profile, own, frame),
        Line::Rtu => rtu_touched(attributes, profile, own, frame),
        Line::Ascii => ascii_touched(attributes, profile, own, frame),
    }
}

// The lowest cell at which what one frame touches meets another frame, of a line. As `touched` calls the three too, none of them is taken into another
// function, and the stack holds the locals of one line at a time.
fn met(
    first: Touched,
    line: Line,
    attributes: &[u8],
    profile: Profile,
    own: u32,
    frame: &[u8],
) -> Meeting
    ensures { Lowest (cl.meets_at (cells_in first) (line_cells line (site_of attributes.now profile own) frame.now)) result }
{
    match line {
        Line::Mewtocol => first_meeting(first, mewtocol_touched(attributes, profile, own, frame)),
        Line::Rtu => first_meeting(first, rtu_touched(attributes, profile, own, frame)),
        Line::Ascii => first_meeting(first, ascii_touched(attributes, profile, own, frame)),
    }
}

// Whether the order of two masters' frames on one table can matter, at the stations that hear them: the lowest cell that the one may write and the
// other may read or write. `Never` says that both orders leave the same words and give the same replies, but for those of function 08, which tell of the
// line.
pub fn meeting(
    attributes: &[u8],
    profile: Profile,
    one: Line,
    one_own: u32,
    one_frame: &[u8],
    other: Line,
    other_own: u32,
    other_frame: &[u8],
) -> Meeting
    ensures { result ≡ cl.meeting (length attributes.now) (line_cells one (site_of attributes.now profile one_own) one_frame.now)
        (line_cells other (site_of attributes.now profile other_own) other_frame.now) }
{
    let first = touched(one, attributes, profile, one_own, one_frame);
    met(first, other, attributes, profile, other_own, other_frame)
}
