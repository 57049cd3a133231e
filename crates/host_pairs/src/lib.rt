// Two registers as one signed number of 32 bits, as a host reads and writes the limits of a head: the lower 16 bits are in the lower
// register. Below zero the bits are taken from 2^32 down: a cast keeps the number, so it is never made of one below zero.
#![tactic(auto)]

ghost use Rattle.std.specs.Prelude.{◌≡◌};
ghost use Rattle.host_pairs.specs.Pairs.{pair_value, bits, is_writable, pair_words, given};

use rules::Refusal;

// The least and the greatest number that a pair is written with.
const LEAST: i32 = -950000;

const MOST: i32 = 950000;

// How many numbers a word can hold.
const WORDS: u32 = 65536;

// The least 32 bits that are a number below zero, and the greatest 32 bits, which are -1.
const SIGN: u32 = 2147483648;

const LAST: u32 = 4294967295;

// The number that two words hold, the lower 16 bits first: every pair is one number from -2147483648 to 2147483647.
pub fn pair_value(low: u16, high: u16) -> i32
    ensures { result ≡ pair_value low high }
{
    let v = low as u32 + WORDS * high as u32;
    if v < SIGN {
        return v as i32;
    }
    -1 - (LAST - v) as i32
}

// The two words of a number, the lower 16 bits first; or why there are none.
#[derive(Clone, Copy)]
pub enum Halves {
    Words(u16, u16),
    Refused(Refusal),
}

// A number is from -950,000 to 950,000.
fn is_writable(value: i32) -> bool
    ensures { result ≡ is_writable value }
{
    LEAST <= value && value <= MOST
}

// A number as 32 bits.
fn bits_of(value: i32) -> u32
    ensures { result ≡ bits value }
{
    if value < 0 {
        return LAST - (-1 - value) as u32;
    }
    value as u32
}

// The two words that a host writes for a number; outside -950,000 to 950,000 it is no request, 14.
pub fn pair_words(value: i32) -> Halves
    ensures { given result ≡ pair_words value }
{
    if !is_writable(value) {
        return Halves::Refused(Refusal::NO_REQUEST);
    }
    let v = bits_of(value);
    Halves::Words((v % WORDS) as u16, (v / WORDS) as u16)
}
