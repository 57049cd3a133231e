// Catalogue numbers and frame addresses, kept apart by type: a number as the catalogue prints it never stands where an
// address as a frame carries it is meant. Only the conversions of this crate build one kind from the other; every other way in says
// where the number was found: in a frame's bytes, in its digits, printed in a catalogue, or in a caller's hand.
#![tactic(auto)]

ghost use Rattle.std.specs.Prelude.{◌≡◌, ◌+◌, ◌*◌, ◌<◌};
ghost use Rattle.table_addresses.specs.Catalogue.{number_of, address_of, coil_number_of, coil_address_of};
ghost use Rattle.table_addresses.specs.Catalogue.{register_address, register_number, coil_address, coil_number};
ghost use Rattle.table_addresses.specs.Catalogue.{given_at, given_is, given_coil_at, given_coil_is};
ghost use Rattle.table_addresses.specs.Cells.{contact_of};
ghost use Rattle.table_addresses.specs.Areas.{relay_word, contact_cell, coil_cell, word_in};

use rules::Refusal;
use text_digits::{Digit, Number, decimal_3};
use text_hex::hex_at;

// How many words a table has at most.
pub const TABLE_LIMIT: u32 = 65536;

// The number of the first register, DT00000.
const FIRST_REGISTER: u32 = 400001;

// The coils: 000161 on, 96 of them, at address 160 on.
const FIRST_COIL: u32 = 161;

const FIRST_COIL_ADDRESS: u32 = 160;

const COILS: u32 = 96;

// The relay words: WR0100 on are words 130 to 135.
const FIRST_WR: usize = 100;

pub const FIRST_RELAY: usize = 130;

pub const LAST_RELAY: usize = 135;

// How many words further on a relay word lies.
const RELAY_SHIFT: usize = FIRST_RELAY - FIRST_WR;

// How many cells further on a contact's and a coil's cell lies.
const CONTACT_SHIFT: usize = 16 * RELAY_SHIFT;

const COIL_SHIFT: usize = 16 * FIRST_RELAY - FIRST_COIL_ADDRESS as usize;

// The two areas of the table that MEWTOCOL names: relay words, WR, and data registers, DT.
#[derive(Clone, Copy)]
pub enum Area {
    Relays,
    Registers,
}

// A register as the catalogue numbers it.
#[derive(Clone, Copy)]
pub struct RegisterNumber(u32);

// A register as a frame addresses it.
#[derive(Clone, Copy)]
pub struct FrameAddress(usize);

// A coil as the catalogue numbers it.
#[derive(Clone, Copy)]
pub struct CoilNumber(u32);

// A coil as a frame addresses it.
#[derive(Clone, Copy)]
pub struct CoilAddress(u32);

// The address of a register number, or refusal 5.
#[derive(Clone, Copy)]
pub enum RegisterAt {
    Address(FrameAddress),
    Refused(Refusal),
}

// The number of a register's address, or refusal 5.
#[derive(Clone, Copy)]
pub enum RegisterIs {
    Number(RegisterNumber),
    Refused(Refusal),
}

// The address of a coil number, or refusal 5.
#[derive(Clone, Copy)]
pub enum CoilAt {
    Address(CoilAddress),
    Refused(Refusal),
}

// The number of a coil's address, or refusal 5.
#[derive(Clone, Copy)]
pub enum CoilIs {
    Number(CoilNumber),
    Refused(Refusal),
}

impl RegisterNumber {
    // A number that a catalogue prints, in range or not.
    pub fn printed(n: u32) -> RegisterNumber
        ensures { number_of result ≡ n }
    {
        RegisterNumber(n)
    }

    // The number, to be printed.
    pub fn as_printed(self) -> u32
        ensures { result ≡ number_of self }
    {
        self.0
    }

    // 400001 to 465536 are addresses 0 to 65,535; any other number is refused.
    pub fn address(self) -> RegisterAt
        ensures { given_at result ≡ register_address (number_of self) }
    {
        let n = self.0;
        if n < FIRST_REGISTER {
            return RegisterAt::Refused(Refusal::RANGE);
        }
        if n > FIRST_REGISTER + TABLE_LIMIT - 1 {
            return RegisterAt::Refused(Refusal::RANGE);
        }
        RegisterAt::Address(FrameAddress((n - FIRST_REGISTER) as usize))
    }
}

impl FrameAddress {
    // The address that two bytes of a frame say, the high byte first.
    pub fn in_bytes(high: u8, low: u8) -> FrameAddress
        ensures { address_of result ≡ high * 256 + low }
    {
        FrameAddress(high as usize * 256 + low as usize)
    }

    // The address of the word that a frame's digits name in an area: DT00133 and WR0103 are both word 133.
    pub fn in_digits(area: Area, n: u32) -> FrameAddress
        ensures { address_of result ≡ word_in area n }
    {
        match area {
            Area::Relays => FrameAddress(n as usize + RELAY_SHIFT),
            Area::Registers => FrameAddress(n as usize),
        }
    }

    // An address that a caller holds, in range or not.
    pub fn asked(a: u32) -> FrameAddress
        ensures { address_of result ≡ a }
    {
        FrameAddress(a as usize)
    }

    // The word of the table that it addresses, there or not.
    pub fn word(self) -> usize
        ensures { result ≡ address_of self }
    {
        self.0
    }

    // 0 to 65,535 are registers 400001 to 465536; any other address is refused.
    pub fn number(self) -> RegisterIs
        ensures { given_is result ≡ register_number (address_of self) }
    {
        let a = self.0;
        if a > TABLE_LIMIT as usize - 1 {
            return RegisterIs::Refused(Refusal::RANGE);
        }
        RegisterIs::Number(RegisterNumber(a as u32 + FIRST_REGISTER))
    }
}

impl CoilNumber {
    // A coil's number that a catalogue prints, in range or not.
    pub fn printed(n: u32) -> CoilNumber
        ensures { coil_number_of result ≡ n }
    {
        CoilNumber(n)
    }

    // The number, to be printed.
    pub fn as_printed(self) -> u32
        ensures { result ≡ coil_number_of self }
    {
        self.0
    }

    // 000161 to 000256 are addresses 160 to 255; any other number is refused.
    #[tactic(auto, using(crate::proofs::Coils::below_the_coils, crate::proofs::Coils::above_the_coils))]
    pub fn address(self) -> CoilAt
        ensures { given_coil_at result ≡ coil_address (coil_number_of self) }
    {
        let n = self.0;
        if n < FIRST_COIL {
            return CoilAt::Refused(Refusal::RANGE);
        }
        if n > FIRST_COIL + COILS - 1 {
            return CoilAt::Refused(Refusal::RANGE);
        }
        CoilAt::Address(CoilAddress(n - FIRST_COIL + FIRST_COIL_ADDRESS))
    }
}

impl CoilAddress {
    // The coil's address that two bytes of a frame say, the high byte first.
    pub fn in_bytes(high: u8, low: u8) -> CoilAddress
        ensures { coil_address_of result ≡ high * 256 + low }
    {
        CoilAddress(high as u32 * 256 + low as u32)
    }

    // A coil's address that a caller holds, in range or not.
    pub fn asked(a: u32) -> CoilAddress
        ensures { coil_address_of result ≡ a }
    {
        CoilAddress(a)
    }

    pub fn value(self) -> u32
        ensures { result ≡ coil_address_of self }
    {
        self.0
    }

    // 160 to 255 are coils 000161 to 000256; any other address is refused.
    pub fn number(self) -> CoilIs
        ensures { given_coil_is result ≡ coil_number (coil_address_of self) }
    {
        let a = self.0;
        if a < FIRST_COIL_ADDRESS {
            return CoilIs::Refused(Refusal::RANGE);
        }
        if a > FIRST_COIL_ADDRESS + COILS - 1 {
            return CoilIs::Refused(Refusal::RANGE);
        }
        CoilIs::Number(CoilNumber(a - FIRST_COIL_ADDRESS + FIRST_COIL))
    }

    // The cell of a coil, 16 × word + bit; it is a relay word's where the address is in range.
    pub fn cell(self) -> usize
        ensures { result ≡ coil_cell (coil_address_of self) }
    {
        let a = self.0;
        a as usize + COIL_SHIFT
    }
}

// The contact that four characters name, 16 × relay word + bit: three decimal digits and a hex digit.
pub fn contact_of(s: &[u8]) -> Number
    ensures { result ≡ contact_of s.now }
{
    let word = decimal_3(s);
    let Number::Value(relay) = word else {
        return word;
    };
    let Digit::Is(bit) = hex_at(s, 3) else {
        return Number::NoDigitAt(3);
    };
    Number::Value(16 * relay + bit)
}

// The cell of a contact.
pub fn contact_cell(contact: u32) -> usize
    ensures { result ≡ contact_cell contact }
{
    contact as usize + CONTACT_SHIFT
}
