// What a read shows.
ghost use Rattle.std.specs.Prelude.{◌≡◌, take, drop};
ghost use Rattle.table_addresses.specs.Catalogue.{address_of};
ghost use Rattle.table_registers.specs.Bits.{cell_at};

use table_addresses::FrameAddress;

// A run of words, as the part of the table that holds it; as many as there are.
pub fn words_from(words: &[u16], first: FrameAddress, count: usize) -> &[u16]
    ensures { result.now ≡ take count (drop (address_of first) words.now) }
{
    let start = first.word();
    if words.len() <= start {
        return &words[..0];
    }
    let left = &words[start..];
    if count <= left.len() {
        &left[..count]
    } else {
        left
    }
}

// What a cell holds, 0 or 1; past the table 0.
pub fn cell_at(words: &[u16], cell: usize) -> u8
    ensures { result ≡ cell_at words.now cell }
{
    let k = cell / 16;
    let bit = cell % 16;
    if k >= words.len() {
        return 0;
    }
    let w = words[k];
    ((w >> bit) % 2) as u8
}
