// Writing into a lent room: a byte, a run of bytes.
#![tactic(auto)]

ghost use Rattle.std.specs.Prelude.{◌≡◌, [], ◌∷◌, ◌+◌, ◌≤◌, ◌<◌, length};
ghost use Rattle.text_rooms.specs.Room.{overwrite};

// Writes one byte at an index; the other bytes stay.
pub fn put_byte(out: &mut [u8], at: usize, b: u8)
    requires { at < length out.old }
    ensures { out.new ≡ overwrite out.old at (b ∷ []) }
{
    out[at] = b;
}

// Writes a run of bytes from index at on; the other bytes stay. Byte by byte: `copy_from_slice` would have the archive ask for `memmove` from outside.
pub fn put_part(out: &mut [u8], at: usize, s: &[u8])
    requires { at + length s.now ≤ length out.old }
    ensures { out.new ≡ overwrite out.old at s.now }
{
    for (i, b) in s.iter().enumerate() {
        out[at + i] = *b;
    }
}
