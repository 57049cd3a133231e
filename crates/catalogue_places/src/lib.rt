// Where a catalogue file goes wrong: for who edits such files. The filling itself (crate `catalogue_files`) gives the numbers 20 and 21
// alone; here the byte is told at which each is found. The definitions are in specs/Places.
#![tactic(auto)]

ghost use Rattle.std.specs.Prelude.{◌≡◌, not, ◌≤◌, length};
ghost use Rattle.catalogue_format.specs.Shapes.{siblings, is_item};
ghost use Rattle.catalogue_places.specs.Places.{first_that, wrong_field, wrong_group, field_at, unwhole_at, malformed_at, deep_field, deep_items, deep_step, deep_at, fault_of};

use catalogue_files::LEVELS;
use catalogue_files::depth::{is_deeper, is_field_deeper};
use catalogue_format::fields::{GROUP, after, is_item, is_name, size_of, value_of};
use catalogue_format::shape::{FILE_LIMIT, is_fine, is_whole, well_formed};
use catalogue_format::walks::{Fields, Places};
use text_slices::byte_at;

// What is wrong with a file's form, and at which byte, counted from 0.
#[derive(Clone, Copy)]
pub enum Fault {
    Malformed(usize),
    TooDeep(usize),
}

// The first field that is neither a run nor a whole group, with all that comes after it.
fn first_no_item(s: &[u8]) -> &[u8]
    ensures { result.now ≡ first_that (λ t. not (is_item t)) (siblings s.now) }
{
    Fields(s).find(|field| !is_item(*field)).unwrap_or(&[])
}

// What is wrong in a group's value.
fn wrong_field(v: &[u8]) -> &[u8]
    ensures { result.now ≡ wrong_field v.now }
{
    if !is_name(v) {
        return v;
    }
    first_no_item(after(v))
}

// The first group that is none.
fn wrong_group(s: &[u8]) -> &[u8]
    ensures { result.now ≡ wrong_group s.now }
{
    Places(s).find(|place| !is_fine(*place)).unwrap_or(&[])
}

// Where in the bytes that have the group in front.
fn field_at(g: &[u8]) -> usize
    requires { length g.now ≤ 65535 }
    ensures { (result ≡ field_at g.now) × (result ≤ 65538) }
{
    let v = value_of(g);
    let f = wrong_field(v);
    3 + (v.len() - f.len())
}

// Where a file ends, or its group does, that is not the whole of it.
fn unwhole_at(s: &[u8]) -> usize
    ensures { result ≡ unwhole_at s.now }
{
    if s.len() > FILE_LIMIT {
        return FILE_LIMIT;
    }
    if byte_at(s, 0) != GROUP {
        return 0;
    }
    let end = 3 + size_of(s);
    if end <= s.len() { end } else { s.len() }
}

// Where a file that is malformed is found to be.
fn malformed_at(s: &[u8]) -> usize
    ensures { result ≡ malformed_at s.now }
{
    if !is_whole(s) {
        return unwhole_at(s);
    }
    let g = wrong_group(s);
    s.len() - g.len() + field_at(g)
}

// The first field that has groups for more than k levels.
fn deep_field(s: &[u8], k: usize) -> &[u8]
    ensures { result.now ≡ deep_field k s.now }
{
    Fields(s)
        .find(|field| is_field_deeper(*field, k))
        .unwrap_or(&[])
}

// What stands in it after its name.
fn deep_items(s: &[u8], k: usize) -> &[u8]
    ensures { result.now ≡ deep_items k s.now }
{
    after(value_of(deep_field(s, k)))
}

// How far on that is.
fn deep_step(s: &[u8], k: usize) -> usize
    requires { length s.now ≤ 65535 }
    ensures { (result ≡ deep_step k s.now) × (result ≤ 131073) }
{
    let f = deep_field(s, k);
    let v = value_of(f);
    let items = after(v);
    s.len() - f.len() + (3 + (v.len() - items.len()))
}

// Where the first group more than so many levels down stands: a level further in at each turn.
fn deep_at(s: &[u8], levels: usize) -> usize
    requires { (length s.now ≤ 65535) × (levels ≤ 4) }
    ensures { result ≡ deep_at levels s.now }
{
    let mut left = s;
    let mut place = 0usize;
    for done in 0..levels {
        let k = levels - done;
        place += deep_step(left, k);
        let next = deep_items(left, k);
        left = next;
    }
    let f = deep_field(left, 0);
    place + (left.len() - f.len())
}

// Whether a file is malformed or too deep, as the filling finds it, and at which byte.
pub fn fault_in(file: &[u8]) -> Option<Fault>
    ensures { result ≡ fault_of file.now }
{
    if !well_formed(file) {
        return Some(Fault::Malformed(malformed_at(file)));
    }
    if is_deeper(file, LEVELS) {
        return Some(Fault::TooDeep(deep_at(file, LEVELS)));
    }
    None
}
