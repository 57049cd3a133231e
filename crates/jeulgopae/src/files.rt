// Catalogue files.
ghost use Rattle.catalogue_files.specs.Refusals.{outcome};
ghost use Rattle.jeulgopae.specs.Codes.{Fills};

use catalogue_files::{Filled, fill};
use jeulgopae_codes::codes::refusal_code;

// Fills the attributes of a table from a catalogue file.
#[unsafe(no_mangle)]
pub extern "C" fn jeulgopae_catalogue_fill(file: &[u8], name: &[u8], attributes: &mut [u8]) -> i32
    ensures { Fills (outcome file.now name.now attributes.old) result attributes.new }
{
    match fill(file, name, attributes) {
        Filled::Done => 0,
        Filled::Refused(why) => refusal_code(why),
    }
}
