// Decimal fields, written.
#![tactic(auto)]

ghost use Rattle.std.specs.Prelude.{◌≡◌, ◌+◌, ◌≤◌, length};
ghost use Rattle.text_rooms.specs.Room.{overwrite};
ghost use Rattle.text_digits.specs.Digits.{decimals};

// Writes the last k decimal digits of a number from index at on; the other bytes stay.
pub fn put_decimal(out: &mut [u8], at: usize, k: usize, number: u32)
    requires { at + k ≤ length out.old }
    ensures { out.new ≡ overwrite out.old at (decimals k number) }
{
    let mut v = number;
    for done in 0..k {
        out[at + (k - 1 - done)] = b'0' + (v % 10) as u8;
        v = v / 10;
    }
}
