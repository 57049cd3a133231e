// One bit of a word.
ghost use Rattle.std.specs.Prelude.{◌≡◌, ◌<◌};
ghost use Rattle.table_registers.specs.Bits.{with_bit, put_cell, bit_at};

use text_slices::byte_at;

// A word with one bit set or cleared.
fn with_bit(w: u16, bit: usize, on: bool) -> u16
    requires { bit < 16 }
    ensures { result ≡ with_bit w bit on }
{
    let mask: u16 = 1 << bit;
    if on { w | mask } else { w & (65535 - mask) }
}

// Writes one cell; past the table nothing is written.
pub(crate) fn put_cell(words: &mut [u16], cell: usize, on: bool)
    ensures { words.new ≡ put_cell words.old cell on }
{
    let k = cell / 16;
    if k >= words.len() {
        return;
    }
    words[k] = with_bit(words[k], cell % 16, on);
}

// Bit i of a run of bytes, the lowest of each byte first; past the end it is clear.
pub(crate) fn bit_at(bytes: &[u8], i: usize) -> bool
    ensures { result ≡ bit_at bytes.now i }
{
    let b = byte_at(bytes, i / 8);
    (b >> (i % 8)) % 2 == 1
}
