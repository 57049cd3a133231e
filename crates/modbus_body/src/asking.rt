// What a body says: its address, and whether its length, quantity and byte count are right.
ghost use Rattle.std.specs.Prelude.{◌≡◌, ◌<◌};
ghost use Rattle.modbus_body.specs.Bytes.{word_at};
ghost use Rattle.modbus_body.specs.Body.{address, good_read, good_write, good_coil};
ghost use Rattle.table_addresses.specs.Catalogue.{address_of, coil_address_of};

use table_addresses::{CoilAddress, FrameAddress};
use text_slices::byte_at;

// The register that a body names.
pub fn register_at(body: &[u8]) -> FrameAddress
    ensures { address_of result ≡ address body.now }
{
    FrameAddress::in_bytes(byte_at(body, 1), byte_at(body, 2))
}

// The coil that a body names.
pub fn coil_at(body: &[u8]) -> CoilAddress
    ensures { (coil_address_of result ≡ address body.now) × (coil_address_of result < 65536) }
{
    CoilAddress::in_bytes(byte_at(body, 1), byte_at(body, 2))
}

// The word of the two bytes from index i on, high byte first; 0 for what is past the end.
pub fn word_at(s: &[u8], i: u8) -> u16
    ensures { result ≡ word_at s.now i }
{
    let at = i as usize;
    let high = byte_at(s, at) as u16;
    let low = byte_at(s, at + 1) as u16;
    high * 256 + low
}

// Whether a body is an address and a quantity from 1 to a limit.
#[tactic(auto, unfolding(crate::specs::Body::good_read, rules::specs::Choice::between))]
pub fn good_read(body: &[u8], limit: u16) -> bool
    ensures { result ≡ good_read limit body.now }
{
    let n = word_at(body, 3);
    body.len() == 5 && 1 <= n && n <= limit
}

// Whether a body is an address, a quantity from 1 to a limit, this count of bytes, and as many bytes.
#[tactic(auto, unfolding(crate::specs::Body::good_write, rules::specs::Choice::between))]
pub fn good_write(body: &[u8], limit: u16, bytes: usize) -> bool
    ensures { result ≡ good_write limit bytes body.now }
{
    let n = word_at(body, 3);
    1 <= n && n <= limit && byte_at(body, 5) as usize == bytes && body.len() == 6 + bytes
}

// Whether a body is an address, and 0000h or FF00h.
#[tactic(auto, unfolding(crate::specs::Body::good_coil))]
pub fn good_coil(body: &[u8]) -> bool
    ensures { result ≡ good_coil body.now }
{
    let v = word_at(body, 3);
    body.len() == 5 && (v == 0 || v == 0xFF00)
}
