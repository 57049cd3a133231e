// Two registers as one signed number, for a host that reads and writes the limits of a head.
ghost use Rattle.std.specs.Prelude.{◌≡◌};
ghost use Rattle.host_pairs.specs.Pairs.{pair_value, pair_words};
ghost use Rattle.jeulgopae.specs.Codes.{low_code, high_code};

use host_pairs::{Halves, pair_value, pair_words};
use jeulgopae_codes::codes::{number, refusal_code};

// The number that two words hold, the lower 16 bits first.
#[unsafe(no_mangle)]
pub extern "C" fn jeulgopae_pair_value(low: u16, high: u16) -> i32
    ensures { result ≡ pair_value low high }
{
    pair_value(low, high)
}

// The lower word of a number.
#[unsafe(no_mangle)]
pub extern "C" fn jeulgopae_pair_low(value: i32) -> i32
    ensures { result ≡ low_code (pair_words value) }
{
    match pair_words(value) {
        Halves::Words(low, _) => number(low as usize),
        Halves::Refused(why) => refusal_code(why),
    }
}

// The higher word of a number.
#[unsafe(no_mangle)]
pub extern "C" fn jeulgopae_pair_high(value: i32) -> i32
    ensures { result ≡ high_code (pair_words value) }
{
    match pair_words(value) {
        Halves::Words(_, high) => number(high as usize),
        Halves::Refused(why) => refusal_code(why),
    }
}
