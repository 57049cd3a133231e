// The two walks along some bytes, as iterators: over the fields of one group, and into every group. A place of a walk is all that stands
// from a field on. No recursion into groups, so that no file can grow the stack.
ghost use Rattle.std.specs.Iterator.{YieldsFirstRef, item_count};
ghost use Rattle.catalogue_format.specs.Shapes.{siblings, places_in, groups_in};

use crate::fields::{GROUP, after, value_of};
use crate::shape::step;
use text_slices::byte_at;

// The fields that stand one after the other.
#[derive(Clone, Copy)]
pub struct Fields<'a>(pub &'a [u8]);

impl<'a> Iterator for Fields<'a> {
    type Item = &'a [u8];

    ghost next_gives = { YieldsFirstRef (λ s. siblings s.0.now) };

    ghost remaining = { item_count (λ s. siblings s.0.now) };

    #[tactic(auto, using(crate::proofs::Walked::no_field, crate::proofs::Walked::field_then, crate::proofs::Walked::fewer_fields))]
    fn next(&mut self) -> Option<&'a [u8]> {
        let field = self.0;
        if field.is_empty() {
            return None;
        }
        self.0 = after(field);
        Some(field)
    }
}

// Every field, a group before what stands in it.
#[derive(Clone, Copy)]
pub struct Places<'a>(pub &'a [u8]);

impl<'a> Iterator for Places<'a> {
    type Item = &'a [u8];

    ghost next_gives = { YieldsFirstRef (λ s. places_in s.0.now) };

    ghost remaining = { item_count (λ s. places_in s.0.now) };

    #[tactic(auto, using(crate::proofs::Walked::no_place, crate::proofs::Walked::place_then, crate::proofs::Walked::fewer_places))]
    fn next(&mut self) -> Option<&'a [u8]> {
        let place = self.0;
        if place.is_empty() {
            return None;
        }
        self.0 = step(place);
        Some(place)
    }
}

// The values of all groups, the outer before the inner.
#[derive(Clone, Copy)]
pub struct Groups<'a>(pub &'a [u8]);

impl<'a> Iterator for Groups<'a> {
    type Item = &'a [u8];

    ghost next_gives = { YieldsFirstRef (λ s. groups_in s.0.now) };

    ghost remaining = { item_count (λ s. groups_in s.0.now) };

    fn next(&mut self) -> Option<&'a [u8]> {
        while !self.0.is_empty() {
            let here = self.0;
            self.0 = step(here);
            if byte_at(here, 0) == GROUP {
                return Some(value_of(here));
            }
        }
        None
    }
}
