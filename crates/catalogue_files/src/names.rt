// 23 and 24: names, byte for byte.
ghost use Rattle.std.specs.Prelude.{◌≡◌};
ghost use Rattle.catalogue_files.specs.Walks.{named_in, named_twice};

use catalogue_format::fields::value_of;
use catalogue_format::walks::Groups;
use text_slices::same;

// Whether a group has the name.
pub(crate) fn is_named(asked: &[u8], s: &[u8]) -> bool
    ensures { result ≡ named_in asked.now s.now }
{
    Groups(s).any(|v| same(asked, value_of(v)))
}

// Whether a name stands twice. Each is looked for in what is left of the walk, which `any` does not show its closure.
pub(crate) fn is_twice(s: &[u8]) -> bool
    ensures { result ≡ named_twice s.now }
{
    let mut later = Groups(s);
    while let Some(v) = later.next() {
        if is_named(value_of(v), later.0) {
            return true;
        }
    }
    false
}
