// The cells of a Modbus frame: 1 and 2, the frame's tests, whom it is for, and then its body.
ghost use Rattle.std.specs.Prelude.{true, List, ◌≡◌, ℕ, ◌≤◌, length};
ghost use Rattle.table_addresses.specs.Catalogue.{table_limit};
ghost use Rattle.table_cells.specs.Touched.{Touches};
ghost use Rattle.station.specs.Site.{site_of};
ghost use Rattle.modbus_counters.specs.Counters.{cleared};
ghost use Rattle.modbus_line.specs.Framing.{modbus};
ghost use Rattle.modbus_ascii.specs.Ascii.{good_ascii, bytes_of, ascii};
ghost use Rattle.modbus_rtu.specs.Rtu.{rtu};
ghost use Rattle.masters.specs.Frames.{frame_cells};
ghost use Rattle.masters.specs.Asking.{heard_cells};

use crate::bodies::body_touched;
use crate::whom::for_whom;
use checks_crc::right_crc;
use checks_lrc::right_lrc;
use modbus_ascii::bytes_into;
use modbus_line::{HIGHEST, ROOM, whom};
use station::Ready;
use station::order::ready;
use table_cells::Touched;
use table_cells::touch::nothing;
use table_registers::Profile;
use text_slices::{byte_at, part_of};

fn rtu_heard(attributes: &[u8], profile: Profile, own: u32, frame: &[u8]) -> Touched
    requires { length attributes.now ≤ table_limit }
    ensures { Touches result (heard_cells (modbus rtu cleared) (site_of attributes.now profile own) frame.now) }
{
    let n = frame.len();
    if n < 4 {
        return nothing();
    }
    if n > 256 {
        return nothing();
    }
    if !right_crc(frame) {
        return nothing();
    }
    let asked = body_touched(attributes, profile, part_of(frame, 1, n - 3));
    for_whom(whom(byte_at(frame, 0), own), asked)
}

// An RTU frame.
pub(crate) fn rtu_touched(attributes: &[u8], profile: Profile, own: u32, frame: &[u8]) -> Touched
    ensures { Touches result (frame_cells (modbus rtu cleared) (site_of attributes.now profile own) frame.now) }
{
    match ready(attributes.len(), attributes, own, HIGHEST, ROOM, ROOM) {
        Ready::Fine => rtu_heard(attributes, profile, own, frame),
        Ready::Refused(_) => nothing(),
    }
}

// The bytes that an ASCII frame's pairs say.
fn bytes_heard(attributes: &[u8], profile: Profile, own: u32, bytes: &[u8]) -> Touched
    requires { (length attributes.now ≤ table_limit) × (3 ≤ length bytes.now) }
    ensures { (frame : List ℕ) → good_ascii frame ≡ true → bytes_of frame ≡ bytes.now
        → Touches result (heard_cells (modbus ascii cleared) (site_of attributes.now profile own) frame) }
{
    if !right_lrc(bytes) {
        return nothing();
    }
    let asked = body_touched(attributes, profile, part_of(bytes, 1, bytes.len() - 2));
    for_whom(whom(byte_at(bytes, 0), own), asked)
}

fn ascii_heard(attributes: &[u8], profile: Profile, own: u32, frame: &[u8]) -> Touched
    requires { length attributes.now ≤ table_limit }
    ensures { Touches result (heard_cells (modbus ascii cleared) (site_of attributes.now profile own) frame.now) }
{
    let mut bytes = [0u8; 255];
    match bytes_into(frame, &mut bytes) {
        Some(n) => bytes_heard(attributes, profile, own, part_of(&bytes, 0, n)),
        None => nothing(),
    }
}

// An ASCII frame.
pub(crate) fn ascii_touched(attributes: &[u8], profile: Profile, own: u32, frame: &[u8]) -> Touched
    ensures { Touches result (frame_cells (modbus ascii cleared) (site_of attributes.now profile own) frame.now) }
{
    match ready(attributes.len(), attributes, own, HIGHEST, ROOM, ROOM) {
        Ready::Fine => ascii_heard(attributes, profile, own, frame),
        Ready::Refused(_) => nothing(),
    }
}
