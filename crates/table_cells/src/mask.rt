// Whether a profile takes a mask write whatever the word holds, or only for some words, or for none.
ghost use Rattle.std.specs.Prelude.{◌≡◌};
ghost use Rattle.table_addresses.specs.Catalogue.{address_of};
ghost use Rattle.table_registers.specs.Bits.{masked};
ghost use Rattle.table_cells.specs.Touched.{mask_may_pass};

use table_addresses::FrameAddress;
use table_profiles::{Data, taken};
use table_registers::Profile;

// The bits of the and-mask as they are, the or-mask in the others. A line of its own here: of the two crates that mask neither has the other below.
fn masked(w: u16, and_mask: u16, or_mask: u16) -> u16
    ensures { result ≡ masked w and_mask or_mask }
{
    (w & and_mask) | (or_mask & (65535 - and_mask))
}

// Whether some word lets a mask write pass. A mask that leaves w leaves w in w too, and no register by itself may hold more than 4: so where the words 0
// to 4 don't let it pass, none does.
pub fn mask_may_pass(profile: Profile, word: FrameAddress, and_mask: u16, or_mask: u16) -> bool
    ensures { result ≡ mask_may_pass profile (address_of word) and_mask or_mask }
{
    let k = word.word();
    for v in 0..5 {
        if taken(profile, Data::Same(masked(v, and_mask, or_mask)), b"", k, 1) {
            return true;
        }
    }
    false
}
