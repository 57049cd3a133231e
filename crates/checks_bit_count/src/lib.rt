// The bits in which two frames differ, counted.
#![tactic(auto)]

ghost use Rattle.std.specs.Prelude.{◌≡◌};
ghost use Rattle.checks_bit_count.specs.Differing.{given, bit_count};

use rules::Refusal;

// In how many bits two frames differ, or refusal 6 where their lengths differ or are over 256.
#[derive(Clone, Copy)]
pub enum BitCount {
    Bits(u16),
    Refused(Refusal),
}

pub fn bits_differing(a: &[u8], b: &[u8]) -> BitCount
    ensures { given result ≡ bit_count a.now b.now }
{
    if a.len() != b.len() {
        return BitCount::Refused(Refusal::LENGTHS);
    }
    if a.len() > 256 {
        return BitCount::Refused(Refusal::LENGTHS);
    }
    let mut n: u32 = 0;
    for (i, x) in a.iter().enumerate() {
        n += u32::count_ones((*x ^ b[i]) as u32);
    }
    BitCount::Bits(n as u16)
}
