// The cells of an operation that may be done, in runs: of words as a run of 16 cells for each, of coils as a run, of contacts as a run of one cell
// each. What the address check refuses, or the profile does, touches nothing.
ghost use Rattle.std.specs.Prelude.{false, map, ◌≡◌, ℕ, ◌≤◌, length};
ghost use Rattle.rules.specs.Choice.{both};
ghost use Rattle.table_addresses.specs.Catalogue.{address_of, coil_address_of, table_limit};
ghost use Rattle.table_addresses.specs.Areas.{contact_cell, coil_cell};
ghost use Rattle.table_registers.specs.Table.{grants, up_from};
ghost use Rattle.table_profiles.specs.Runs.{in_run};
ghost use Rattle.table_cells.specs.Touched.{cells_in, Touches, run_cells, bit_cells};

use crate::Touched;
use table_addresses::{Area, CoilAddress, FrameAddress, contact_cell};
use table_registers::check::{first_lacking, first_lacking_coil, first_lacking_contact};

// No cell.
pub fn nothing() -> Touched
    ensures { (way c : ℕ) → cells_in result way c ≡ false }
{
    Touched {
        way: 0,
        runs: 0,
        each: 0,
        firsts: [0; 8],
    }
}

// One run.
fn run(ways: u8, first: u32, each: u32) -> Touched
    ensures { (way c : ℕ) → cells_in result way c ≡ both (grants way ways) (in_run first each c) }
{
    let mut firsts = [0u32; 8];
    firsts[0] = first;
    Touched {
        way: ways,
        runs: 1,
        each,
        firsts,
    }
}

// So many words from an address on, where the profile takes what is done with them.
pub fn words_touched(
    ways: u8,
    attributes: &[u8],
    area: Area,
    first: FrameAddress,
    count: usize,
    taken: bool,
) -> Touched
    requires { length attributes.now ≤ table_limit }
    ensures { Touches result (run_cells attributes.now area ways (address_of first) count taken) }
{
    if !taken {
        return nothing();
    }
    if count < 1 {
        return nothing();
    }
    let found = first_lacking(attributes.len(), attributes, area, ways, first, count);
    if !found.is_granted() {
        return nothing();
    }
    let k = first.word();
    run(ways, 16 * k as u32, 16 * count as u32)
}

// So many coils from one on.
pub fn coils_touched(ways: u8, attributes: &[u8], first: CoilAddress, count: u32) -> Touched
    ensures { Touches result (bit_cells attributes.now ways (up_from (coil_cell (coil_address_of first)) count)) }
{
    if count < 1 {
        return nothing();
    }
    let found = first_lacking_coil(attributes.len(), attributes, ways, first, count);
    if !found.is_granted() {
        return nothing();
    }
    let cell = first.cell();
    run(ways, cell as u32, count)
}

// These contacts, eight at most.
pub fn contacts_touched(ways: u8, attributes: &[u8], contacts: &[u32]) -> Touched
    requires { length contacts.now ≤ 8 }
    ensures { Touches result (bit_cells attributes.now ways (map contact_cell contacts.now)) }
{
    let found = first_lacking_contact(attributes.len(), attributes, ways, contacts);
    if !found.is_granted() {
        return nothing();
    }
    let mut firsts = [0u32; 8];
    for (i, contact) in contacts.iter().enumerate() {
        firsts[i] = contact_cell(*contact) as u32;
    }
    Touched {
        way: ways,
        runs: contacts.len() as u8,
        each: 1,
        firsts,
    }
}
