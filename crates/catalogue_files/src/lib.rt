// The catalogue files: models and their registers, kept as tagged fields. specs/ has what a file says and what it is refused for.
#![tactic(auto)]

pub mod depth;
mod filling;
mod names;
mod runs;

ghost use Rattle.catalogue_files.specs.Refusals.{outcome, Is};

use crate::depth::is_deeper;
use crate::filling::put_all;
use crate::names::{is_named, is_twice};
use crate::runs::any_refused;
use catalogue_format::shape::well_formed;
use rules::Refusal;
use table_addresses::TABLE_LIMIT;

// What filling gives back: the lent bytes are filled, or a refusal that leaves them as they were.
#[derive(Clone, Copy)]
pub enum Filled {
    Done,
    Refused(Refusal),
}

// How deep groups may stand.
pub const LEVELS: usize = 4;

// Reads a catalogue file and fills the lent attribute bytes: the runs of the group of that name and of every group around it, 0
// elsewhere. A file is refused for the first of these that holds anywhere in it, and then the bytes stay as they were: more lent bytes
// than a table has words (1), malformed (20), a fifth level (21), two runs that meet along one chain or an address beyond the lent bytes
// (22), a name twice (23), the name not found (24).
pub fn fill(file: &[u8], name: &[u8], attributes: &mut [u8]) -> Filled
    ensures { Is (outcome file.now name.now attributes.old) result attributes.new }
{
    let lent = attributes.len();
    if lent > TABLE_LIMIT as usize {
        return Filled::Refused(Refusal::TABLE);
    }
    if !well_formed(file) {
        return Filled::Refused(Refusal::MALFORMED);
    }
    if is_deeper(file, LEVELS) {
        return Filled::Refused(Refusal::TOO_DEEP);
    }
    if any_refused(lent, file) {
        return Filled::Refused(Refusal::MEETING);
    }
    if is_twice(file) {
        return Filled::Refused(Refusal::NAME_TWICE);
    }
    if !is_named(name, file) {
        return Filled::Refused(Refusal::NOT_FOUND);
    }
    put_all(attributes, name, file);
    Filled::Done
}
