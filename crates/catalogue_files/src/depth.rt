// 21: whether groups stand too deep. The reader of a field and the reader of items call each other, with the levels that are left
// falling, so that the stack holds no more than the levels that are asked for.
ghost use Rattle.std.specs.Prelude.{◌≡◌};
ghost use Rattle.catalogue_files.specs.Walks.{deeper_field, deeper_in};

use catalogue_format::fields::{GROUP, after, value_of};
use catalogue_format::walks::Fields;
use text_slices::byte_at;

// Whether a group stands in front, and groups in it, for more than k levels.
#[cycle(is_deeper_is_field_deeper)]
pub fn is_field_deeper(s: &[u8], k: usize) -> bool
    ensures { result ≡ deeper_field k s.now }
{
    if byte_at(s, 0) != GROUP {
        return false;
    }
    if k == 0 {
        return true;
    }
    is_deeper(after(value_of(s)), k - 1)
}

// Whether groups stand for more than k levels.
#[cycle(is_deeper_is_field_deeper)]
pub fn is_deeper(s: &[u8], k: usize) -> bool
    ensures { result ≡ deeper_in k s.now }
{
    for field in Fields(s) {
        if is_field_deeper(field, k) {
            return true;
        }
    }
    false
}
