// Steps 2 to 7 over the text after a command's name (RULES M10 to M17), and the numbers of the errors that they and the table give.
#![tactic(auto)]

mod layouts;

ghost use Rattle.std.specs.Prelude.{◌≡◌, [], ◌∷◌};
ghost use Rattle.rules.specs.Tests.{first};
ghost use Rattle.text_hex.specs.Hex.{hex_byte};
ghost use Rattle.mewtocol_steps.specs.Steps as st;

use layouts::{is_there, listed, right_data, seen_in, total};
use mewtocol_commands::Kind;
use mewtocol_commands::commands::{good_range, layout};
use mewtocol_commands::rows::{first, second};
use mewtocol_frame::Limits;
use text_hex::hex_digit;

// Two characters.
#[derive(Clone, Copy)]
pub struct Pair(pub u8, pub u8);

// What an error reply says is wrong.
#[derive(Clone, Copy)]
pub enum MewtocolError {
    Check,
    Format,
    Command,
    Parameter,
    Data,
    Address,
}

impl MewtocolError {
    // The numbers are associated constants, so that each has a name and stands once (RULES P14).
    const CHECK_NUMBER: u8 = 0x40;

    const FORMAT_NUMBER: u8 = 0x41;

    const COMMAND_NUMBER: u8 = 0x42;

    const PARAMETER_NUMBER: u8 = 0x60;

    const DATA_NUMBER: u8 = 0x61;

    const ADDRESS_NUMBER: u8 = 0x66;

    // The number of an error.
    pub fn number(self) -> u8
        ensures { result ≡ st.number self }
    {
        match self {
            MewtocolError::Check => MewtocolError::CHECK_NUMBER,
            MewtocolError::Format => MewtocolError::FORMAT_NUMBER,
            MewtocolError::Command => MewtocolError::COMMAND_NUMBER,
            MewtocolError::Parameter => MewtocolError::PARAMETER_NUMBER,
            MewtocolError::Data => MewtocolError::DATA_NUMBER,
            MewtocolError::Address => MewtocolError::ADDRESS_NUMBER,
        }
    }

    // The two characters of the number, as an error reply carries them.
    pub fn characters(self) -> Pair
        ensures { result.0 ∷ result.1 ∷ [] ≡ hex_byte (st.number self) }
    {
        let n = self.number();
        Pair(hex_digit(n / 16), hex_digit(n))
    }
}

// Whether a text passes the steps, and if so its start and end, where it names a range.
#[derive(Clone, Copy)]
pub enum Passed {
    Fine(u32, u32),
    Wrong(MewtocolError),
}

// Steps 2 to 7, where n contacts are listed.
pub fn tested(limits: Limits, kind: Kind, n: u8, text: &[u8]) -> Passed
    ensures { st.says result ≡ first st.wrong (st.field_tests limits kind n text.now) (st.fine kind text.now) }
{
    let y = layout(kind);
    if !is_there(y, n as usize, text) {
        return Passed::Wrong(MewtocolError::Format);
    }
    let seen = seen_in(y, n as usize, text);
    if !seen.letters {
        return Passed::Wrong(MewtocolError::Parameter);
    }
    if !seen.digits {
        return Passed::Wrong(MewtocolError::Format);
    }
    let found = seen.found;
    let start = first(found);
    let end = second(found);
    if !good_range(limits, kind, start, end) {
        return Passed::Wrong(MewtocolError::Parameter);
    }
    let k = listed(y, n as usize, start, end);
    if text.len() != total(y, k) {
        return Passed::Wrong(MewtocolError::Format);
    }
    if !right_data(y, seen.values, text) {
        return Passed::Wrong(MewtocolError::Data);
    }
    Passed::Fine(start, end)
}
