// Catalogue numbers and frame addresses; the bit count and the CRC.
ghost use Rattle.std.specs.Prelude.{◌≡◌, pos};
ghost use Rattle.table_addresses.specs.Catalogue as catalogue;
ghost use Rattle.checks_crc.specs.Crc.{crc_of};
ghost use Rattle.checks_bit_count.specs.Differing.{bit_count};
ghost use Rattle.jeulgopae_codes.specs.Codes.{code};

use checks_bit_count::{BitCount, bits_differing};
use checks_crc::crc_of;
use jeulgopae_codes::codes::{number, refusal_code};
use table_addresses::{
    CoilAddress, CoilAt, CoilIs, CoilNumber, FrameAddress, RegisterAt, RegisterIs, RegisterNumber,
};

// The address of a register's number.
#[unsafe(no_mangle)]
pub extern "C" fn jeulgopae_register_address(register: u32) -> i32
    ensures { result ≡ code (catalogue.register_address register) }
{
    match RegisterNumber::printed(register).address() {
        RegisterAt::Address(a) => number(a.word()),
        RegisterAt::Refused(why) => refusal_code(why),
    }
}

// The number of a register's address.
#[unsafe(no_mangle)]
pub extern "C" fn jeulgopae_register_number(address: u32) -> i32
    ensures { result ≡ code (catalogue.register_number address) }
{
    match FrameAddress::asked(address).number() {
        RegisterIs::Number(n) => number(n.as_printed() as usize),
        RegisterIs::Refused(why) => refusal_code(why),
    }
}

// The address of a coil's number.
#[unsafe(no_mangle)]
pub extern "C" fn jeulgopae_coil_address(coil: u32) -> i32
    ensures { result ≡ code (catalogue.coil_address coil) }
{
    match CoilNumber::printed(coil).address() {
        CoilAt::Address(a) => number(a.value() as usize),
        CoilAt::Refused(why) => refusal_code(why),
    }
}

// The number of a coil's address.
#[unsafe(no_mangle)]
pub extern "C" fn jeulgopae_coil_number(address: u32) -> i32
    ensures { result ≡ code (catalogue.coil_number address) }
{
    match CoilAddress::asked(address).number() {
        CoilIs::Number(n) => number(n.as_printed() as usize),
        CoilIs::Refused(why) => refusal_code(why),
    }
}

// In how many bits two frames differ.
#[unsafe(no_mangle)]
pub extern "C" fn jeulgopae_bits_differing(a: &[u8], b: &[u8]) -> i32
    ensures { result ≡ code (bit_count a.now b.now) }
{
    match bits_differing(a, b) {
        BitCount::Bits(n) => number(n as usize),
        BitCount::Refused(why) => refusal_code(why),
    }
}

// The CRC of some bytes.
#[unsafe(no_mangle)]
pub extern "C" fn jeulgopae_crc(bytes: &[u8]) -> i32
    ensures { result ≡ pos (crc_of bytes.now) }
{
    number(crc_of(bytes) as usize)
}
