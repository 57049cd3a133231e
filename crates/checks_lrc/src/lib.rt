// The LRC over the bytes of a Modbus ASCII frame: computed and tested.
#![tactic(auto)]

ghost use Rattle.std.specs.Prelude.{◌≡◌};
ghost use Rattle.checks_lrc.specs.Lrc.{sum_of, lrc_of, right_lrc};

// The sum of all bytes modulo 256.
fn sum_of(bytes: &[u8]) -> u8
    ensures { result ≡ sum_of bytes.now }
{
    let mut s: u8 = 0;
    for b in bytes {
        s = s.wrapping_add(*b);
    }
    s
}

// The LRC of some bytes: what makes them add to 0 modulo 256.
pub fn lrc_of(bytes: &[u8]) -> u8
    ensures { result ≡ lrc_of bytes.now }
{
    sum_of(bytes).wrapping_neg()
}

// Whether some bytes, their LRC among them, add to 0 modulo 256.
pub fn right_lrc(bytes: &[u8]) -> bool
    ensures { result ≡ right_lrc bytes.now }
{
    sum_of(bytes) == 0
}
