// What a catalogue file is made of (RULES G1 to G3): tagged fields, and whether some bytes are one file. specs/ has what it says.
#![tactic(auto)]

pub mod fields;
pub mod shape;
pub mod walks;

// So many registers from an address on, with one attribute.
#[derive(Clone, Copy)]
pub struct Run {
    pub first: u16,
    pub count: u16,
    pub attribute: u8,
}
