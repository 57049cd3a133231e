// 20: whether a file can be read. One walk from the front, a step over a name or a run and a step into a group, tests each group by
// itself, so that no nesting grows the stack.
ghost use Rattle.std.specs.Prelude.{◌≡◌, true, eqb};
ghost use Rattle.rules.specs.Choice.{pick};
ghost use Rattle.catalogue_format.specs.Format.{tag_of, value_of, is_whole};
ghost use Rattle.catalogue_format.specs.Shapes.{into, filled_exactly, is_group_value, all_groups, well_formed};

use crate::fields::{GROUP, after, is_field, is_item, is_name, size_of, value_of};
use crate::walks::{Fields, Groups};
use text_slices::{byte_at, rest};

// A file has at most so many bytes.
pub const FILE_LIMIT: usize = 65535;

// Whether runs and groups fill the bytes exactly, whatever stands in the groups.
fn filled_exactly(s: &[u8]) -> bool
    ensures { result ≡ filled_exactly s.now }
{
    Fields(s).all(is_item)
}

// Whether a group's value is one name, and then runs and groups.
fn is_group_value(v: &[u8]) -> bool
    ensures { result ≡ is_group_value v.now }
{
    if !is_name(v) {
        return false;
    }
    filled_exactly(after(v))
}

// The next place of the walk: in the group, or after the field.
pub fn step(s: &[u8]) -> &[u8]
    ensures { result.now ≡ into s.now }
{
    if byte_at(s, 0) == GROUP {
        rest(s, 3)
    } else {
        after(s)
    }
}

// Whether the group in front is one, if a group stands in front.
pub fn is_fine(s: &[u8]) -> bool
    ensures { result ≡ pick (eqb (tag_of s.now) 3) (is_group_value (value_of s.now)) true }
{
    if byte_at(s, 0) != GROUP {
        return true;
    }
    is_group_value(value_of(s))
}

fn all_groups(s: &[u8]) -> bool
    ensures { result ≡ all_groups s.now }
{
    Groups(s).all(is_group_value)
}

// Whether the bytes are one group that takes them all, and not too many.
pub fn is_whole(s: &[u8]) -> bool
    ensures { result ≡ is_whole s.now }
{
    if s.len() > FILE_LIMIT {
        return false;
    }
    if !is_field(GROUP, s) {
        return false;
    }
    3 + size_of(s) == s.len()
}

// Whether the file can be read.
pub fn well_formed(s: &[u8]) -> bool
    ensures { result ≡ well_formed s.now }
{
    if !is_whole(s) {
        return false;
    }
    all_groups(s)
}
