// The first field of some bytes: a tag, a length of two bytes, a value. Past the end every byte is 0, so that no function asks for more
// bytes than there are.
ghost use Rattle.std.specs.Prelude.{◌≡◌, ◌+◌, ◌*◌, ◌<◌};
ghost use Rattle.catalogue_format.specs.Format.{size_of, value_of, after_of, is_field, is_name, is_run, run_of};
ghost use Rattle.catalogue_format.specs.Shapes.{is_item};

use crate::Run;
use text_slices::{all_between, byte_at, part_of, rest};

pub const NAME: u8 = 1;

pub const RUN: u8 = 2;

pub const GROUP: u8 = 3;

fn pair(high: u8, low: u8) -> u16
    ensures { result ≡ high * 256 + low }
{
    (high as u16) * 256 + (low as u16)
}

pub fn wide(x: u16) -> usize
    ensures { (result ≡ x) × (result < 65536) }
{
    x as usize
}

// How long the value is, as the field says.
pub fn size_of(s: &[u8]) -> usize
    ensures { (result ≡ size_of s.now) × (result < 65536) }
{
    wide(pair(byte_at(s, 1), byte_at(s, 2)))
}

// The value, or as much of it as there is.
pub fn value_of(s: &[u8]) -> &[u8]
    ensures { result.now ≡ value_of s.now }
{
    part_of(s, 3, size_of(s))
}

// What comes after the field.
pub fn after(s: &[u8]) -> &[u8]
    ensures { result.now ≡ after_of s.now }
{
    rest(s, 3 + size_of(s))
}

// Whether a whole field of a tag stands in front.
pub(crate) fn is_field(tag: u8, s: &[u8]) -> bool
    ensures { result ≡ is_field tag s.now }
{
    if byte_at(s, 0) != tag {
        return false;
    }
    3 + size_of(s) <= s.len()
}

// Whether a name stands in front: 1 to 32 bytes, 20h to 7Eh.
pub fn is_name(s: &[u8]) -> bool
    ensures { result ≡ is_name s.now }
{
    if !is_field(NAME, s) {
        return false;
    }
    let n = size_of(s);
    if n < 1 {
        return false;
    }
    if n > 32 {
        return false;
    }
    all_between(32, 126, value_of(s))
}

// The run in front.
pub fn run_of(s: &[u8]) -> Run
    ensures { result ≡ run_of s.now }
{
    let first = pair(byte_at(s, 3), byte_at(s, 4));
    let count = pair(byte_at(s, 5), byte_at(s, 6));
    Run {
        first: first,
        count: count,
        attribute: byte_at(s, 7),
    }
}

// Whether a run stands in front: five bytes, some registers, an attribute from 0 to 3.
pub(crate) fn is_run(s: &[u8]) -> bool
    ensures { result ≡ is_run s.now }
{
    if !is_field(RUN, s) {
        return false;
    }
    if size_of(s) != 5 {
        return false;
    }
    let r = run_of(s);
    if r.count < 1 {
        return false;
    }
    r.attribute <= 3
}

// Whether a run or a whole group stands in front.
pub fn is_item(s: &[u8]) -> bool
    ensures { result ≡ is_item s.now }
{
    if is_run(s) {
        return true;
    }
    is_field(GROUP, s)
}
