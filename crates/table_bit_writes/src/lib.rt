// The operations that write single bits, contacts and coils: each does the address check first, and then all of it or none of it. They
// write relay words only, and no profile has any: what they promise holds under each.
#![tactic(auto)]

mod bits;

ghost use Rattle.std.specs.Prelude.{◌≡◌, map, ◌+◌, ◌<◌};
ghost use Rattle.table_addresses.specs.Catalogue.{coil_address_of};
ghost use Rattle.table_addresses.specs.Areas.{contact_cell, coil_cell};
ghost use Rattle.table_registers.specs.Table.{up_from};
ghost use Rattle.table_registers.specs.Bits.{on_of, bits_from, put_cells};
ghost use Rattle.table_registers.specs.Operation.{Carried, write_bits};
ghost use Rattle.table_registers.specs.Profile.{verdict};
ghost use Rattle.table_registers.specs.declared.Profile.{Profile};

use bits::{bit_at, put_cell};
use table_addresses::{CoilAddress, contact_cell};
use table_registers::Verdict;
use table_registers::check::{first_lacking_coil, first_lacking_contact};

fn put_contacts(words: &mut [u16], contacts: &[u32], values: &[u8])
    ensures { words.new ≡ put_cells words.old (map contact_cell contacts.now) (map on_of values.now) }
{
    // A place and not `zip`: of its pairs the loop's facts do not say at which place they stand.
    for (i, contact) in contacts.iter().enumerate() {
        if i >= values.len() {
            return;
        }
        put_cell(words, contact_cell(*contact), values[i] == 1);
    }
}

// Writes contacts left to right; a contact that is named twice keeps the last value.
pub fn write_contacts(
    words: &mut [u16],
    attributes: &[u8],
    contacts: &[u32],
    values: &[u8],
) -> Verdict
    ensures { (p : Profile) → Carried (write_bits (map contact_cell contacts.now) (map on_of values.now)) words.old
        (verdict p attributes.now) result words.new }
{
    let found = first_lacking_contact(words.len(), attributes, 2, contacts);
    if found.is_granted() {
        put_contacts(words, contacts, values);
    }
    found
}

fn put_coils(words: &mut [u16], cell: usize, n: usize, bytes: &[u8])
    requires { cell + n < 10000000000 }
    ensures { words.new ≡ put_cells words.old (up_from cell n) (bits_from bytes.now 0 n) }
{
    for i in 0..n {
        put_cell(words, cell + i, bit_at(bytes, i));
    }
}

// Writes a run of coils from packed bits, the lowest of each byte first; bits past the run are not read.
pub fn write_coils(
    words: &mut [u16],
    attributes: &[u8],
    first: CoilAddress,
    count: u32,
    bytes: &[u8],
) -> Verdict
    ensures { (p : Profile) → Carried (write_bits (up_from (coil_cell (coil_address_of first)) count) (bits_from bytes.now 0 count)) words.old
        (verdict p attributes.now) result words.new }
{
    let found = first_lacking_coil(words.len(), attributes, 2, first, count);
    if found.is_granted() {
        put_coils(words, first.cell(), count as usize, bytes);
    }
    found
}
