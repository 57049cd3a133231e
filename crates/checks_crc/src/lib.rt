// The CRC-16 over a Modbus RTU frame, bit by bit and from a table: computed and tested.
#![tactic(auto)]

ghost use Rattle.std.specs.Prelude.{◌≡◌, ◌+◌, ◌≤◌, ◌<◌, length, take};
ghost use Rattle.checks_crc.specs.Crc.{shifted, shifts, take_byte, crc_of, right_crc};
ghost use Rattle.checks_crc.specs.Runs.{Tabled, Fed, low_first};
ghost use Rattle.checks_shared.specs.Fold.{fold};

use text_slices::{low_first, part_of};

// One bit leaves the register at the low end; where it is one, the polynomial comes in.
fn shift_once(r: u16) -> u16
    ensures { result ≡ shifted r }
{
    if r & 1 == 1 {
        (r >> 1) ^ 0xA001
    } else {
        r >> 1
    }
}

// Eight bits leave.
fn shift_out(k: u16) -> u16
    ensures { result ≡ shifts 8 k }
{
    let mut x = k;
    for _i in 0..8u8 {
        x = shift_once(x);
    }
    x
}

// A byte is xored in, and eight bits leave.
fn take_byte(r: u16, b: u8) -> u16
    ensures { result ≡ take_byte r b }
{
    shift_out(r ^ (b as u16))
}

// The CRC-16 of a frame bit by bit: the rule as it is read.
fn crc_by_bits(frame: &[u8]) -> u16
    ensures { result ≡ crc_of frame.now }
{
    let mut r: u16 = 0xFFFF;
    for i in 0..frame.len() {
        r = take_byte(r, frame[i]);
    }
    r
}

// What every byte is once eight bits have left it (RULES K7).
const TABLE: [u16; 256] = [
    0x0000, 0xC0C1, 0xC181, 0x0140, 0xC301, 0x03C0, 0x0280, 0xC241, 0xC601, 0x06C0, 0x0780, 0xC741,
    0x0500, 0xC5C1, 0xC481, 0x0440, 0xCC01, 0x0CC0, 0x0D80, 0xCD41, 0x0F00, 0xCFC1, 0xCE81, 0x0E40,
    0x0A00, 0xCAC1, 0xCB81, 0x0B40, 0xC901, 0x09C0, 0x0880, 0xC841, 0xD801, 0x18C0, 0x1980, 0xD941,
    0x1B00, 0xDBC1, 0xDA81, 0x1A40, 0x1E00, 0xDEC1, 0xDF81, 0x1F40, 0xDD01, 0x1DC0, 0x1C80, 0xDC41,
    0x1400, 0xD4C1, 0xD581, 0x1540, 0xD701, 0x17C0, 0x1680, 0xD641, 0xD201, 0x12C0, 0x1380, 0xD341,
    0x1100, 0xD1C1, 0xD081, 0x1040, 0xF001, 0x30C0, 0x3180, 0xF141, 0x3300, 0xF3C1, 0xF281, 0x3240,
    0x3600, 0xF6C1, 0xF781, 0x3740, 0xF501, 0x35C0, 0x3480, 0xF441, 0x3C00, 0xFCC1, 0xFD81, 0x3D40,
    0xFF01, 0x3FC0, 0x3E80, 0xFE41, 0xFA01, 0x3AC0, 0x3B80, 0xFB41, 0x3900, 0xF9C1, 0xF881, 0x3840,
    0x2800, 0xE8C1, 0xE981, 0x2940, 0xEB01, 0x2BC0, 0x2A80, 0xEA41, 0xEE01, 0x2EC0, 0x2F80, 0xEF41,
    0x2D00, 0xEDC1, 0xEC81, 0x2C40, 0xE401, 0x24C0, 0x2580, 0xE541, 0x2700, 0xE7C1, 0xE681, 0x2640,
    0x2200, 0xE2C1, 0xE381, 0x2340, 0xE101, 0x21C0, 0x2080, 0xE041, 0xA001, 0x60C0, 0x6180, 0xA141,
    0x6300, 0xA3C1, 0xA281, 0x6240, 0x6600, 0xA6C1, 0xA781, 0x6740, 0xA501, 0x65C0, 0x6480, 0xA441,
    0x6C00, 0xACC1, 0xAD81, 0x6D40, 0xAF01, 0x6FC0, 0x6E80, 0xAE41, 0xAA01, 0x6AC0, 0x6B80, 0xAB41,
    0x6900, 0xA9C1, 0xA881, 0x6840, 0x7800, 0xB8C1, 0xB981, 0x7940, 0xBB01, 0x7BC0, 0x7A80, 0xBA41,
    0xBE01, 0x7EC0, 0x7F80, 0xBF41, 0x7D00, 0xBDC1, 0xBC81, 0x7C40, 0xB401, 0x74C0, 0x7580, 0xB541,
    0x7700, 0xB7C1, 0xB681, 0x7640, 0x7200, 0xB2C1, 0xB381, 0x7340, 0xB101, 0x71C0, 0x7080, 0xB041,
    0x5000, 0x90C1, 0x9181, 0x5140, 0x9301, 0x53C0, 0x5280, 0x9241, 0x9601, 0x56C0, 0x5780, 0x9741,
    0x5500, 0x95C1, 0x9481, 0x5440, 0x9C01, 0x5CC0, 0x5D80, 0x9D41, 0x5F00, 0x9FC1, 0x9E81, 0x5E40,
    0x5A00, 0x9AC1, 0x9B81, 0x5B40, 0x9901, 0x59C0, 0x5880, 0x9841, 0x8801, 0x48C0, 0x4980, 0x8941,
    0x4B00, 0x8BC1, 0x8A81, 0x4A40, 0x4E00, 0x8EC1, 0x8F81, 0x4F40, 0x8D01, 0x4DC0, 0x4C80, 0x8C41,
    0x4400, 0x84C1, 0x8581, 0x4540, 0x8701, 0x47C0, 0x4680, 0x8641, 0x8201, 0x42C0, 0x4380, 0x8341,
    0x4100, 0x81C1, 0x8081, 0x4040,
];

// Eight bits leave a register of any width: what is above them moves down, and what they become stands in the table.
fn byte_out(table: &[u16; 256], x: usize) -> usize
    requires { Tabled table.now }
    ensures { result ≡ shifts 8 x }
{
    (x / 256) ^ table[x % 256] as usize
}

// The number of the four bytes from index i on, low byte first.
fn four_from(s: &[u8], i: usize) -> u32
    requires { i + 4 ≤ length s.now }
    ensures { result ≡ low_first 4 s.now i }
{
    low_first(s, i) as u32 + 65536 * low_first(s, i + 2) as u32
}

// Takes eight bytes in, from index i on. All are xored in before the first leaves, so that no step waits for a byte.
fn take_eight(table: &[u16; 256], r: usize, s: &[u8], i: usize) -> usize
    requires { Tabled table.now × (r < 65536) × (i + 8 ≤ length s.now) }
    ensures { Fed s.now i r (i + 8) result }
{
    let mut x = r ^ (four_from(s, i) as usize + 4294967296 * four_from(s, i + 4) as usize);
    for _k in 0..8u8 {
        x = byte_out(table, x);
    }
    x
}

// Takes all bytes in, eight a turn.
fn take_all(table: &[u16; 256], r: usize, s: &[u8]) -> usize
    requires { Tabled table.now × (r < 65536) }
    ensures { (result < 65536) × (result ≡ fold take_byte r s.now) }
{
    let n = s.len();
    let mut q = r;
    let mut i = 0;
    // a turn takes eight bytes by their place, as the two runs below do, of which each has a place of its own
    while n - i >= 8 {
        q = take_eight(table, q, s, i);
        i += 8;
    }
    for k in i..n {
        q = byte_out(table, q ^ s[k] as usize);
    }
    q
}

// What 128 zero bytes make of a register: x to the 1024th is x + x^2 + x^4 modulo the polynomial.
fn past_128(r: u16) -> u16
    ensures { result ≡ shifts 1024 r }
{
    let once = shift_once(r);
    let twice = shift_once(once);
    once ^ twice ^ shift_once(shift_once(twice))
}

// The CRC-16 of 128 to 256 bytes by two runs that need not wait for each other: the last 128 bytes from an empty register, and side by side those before.
fn crc_by_two_runs(table: &[u16; 256], frame: &[u8]) -> u16
    requires { Tabled table.now × (128 ≤ length frame.now) × (length frame.now ≤ 256) }
    ensures { result ≡ crc_of frame.now }
{
    let n = frame.len();
    let m = n - 128;
    let mut p: usize = 0xFFFF;
    for k in 0..m % 8 {
        p = byte_out(table, p ^ frame[k] as usize);
    }
    let mut i = m % 8;
    let mut q: usize = 0;
    let mut j = m;
    // two places step together, eight bytes a turn
    while i < m {
        p = take_eight(table, p, frame, i);
        q = take_eight(table, q, frame, j);
        i += 8;
        j += 8;
    }
    while j < n {
        q = take_eight(table, q, frame, j);
        j += 8;
    }
    past_128((p % 65536) as u16) ^ (q % 65536) as u16
}

// The CRC-16 of a frame by the table. It is copied to the stack where it is named: once here, and not for each byte.
fn crc_by_table(frame: &[u8]) -> u16
    ensures { result ≡ crc_of frame.now }
{
    let table = TABLE;
    let n = frame.len();
    if n >= 128 {
        if n <= 256 {
            return crc_by_two_runs(&table, frame);
        }
    }
    (take_all(&table, 0xFFFF, frame) % 65536) as u16
}

// The CRC-16 of a frame; FFFFh of none. A short one is done before the table is copied.
pub fn crc_of(frame: &[u8]) -> u16
    ensures { result ≡ crc_of frame.now }
{
    if frame.len() < 40 {
        return crc_by_bits(frame);
    }
    crc_by_table(frame)
}

// The CRC-16 of a frame's first n bytes. With two ways to it, the table's loop stays a function of its own, and short frames don't pay for its room.
fn crc_before(frame: &[u8], n: usize) -> u16
    ensures { result ≡ crc_of (take n frame.now) }
{
    let front = part_of(frame, 0, n);
    if front.len() < 40 {
        return crc_by_bits(front);
    }
    crc_by_table(front)
}

// Whether the last two bytes of a frame are the CRC of those before, low byte first.
pub fn right_crc(frame: &[u8]) -> bool
    ensures { result ≡ right_crc frame.now }
{
    let n = frame.len();
    if n < 2 {
        return false;
    }
    low_first(frame, n - 2) == crc_before(frame, n - 2)
}
