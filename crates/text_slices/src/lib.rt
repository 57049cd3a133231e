// Parts of lent slices that are there or not, and tests over their bytes.
#![tactic(auto)]

ghost use Rattle.std.specs.Prelude.{◌≡◌, ◌+◌, ◌*◌, ◌<◌, length, get_or, take, drop};
ghost use Rattle.rules.specs.Choice.{both, between, all_between, same_bytes};

// The byte at an index, or 0 past the end.
pub fn byte_at(s: &[u8], i: usize) -> u8
    ensures { result ≡ get_or s.now i 0 }
{
    s.get(i).copied().unwrap_or(0)
}

// The word of the two bytes at an index, low byte first. As a function of its own it becomes one access, and a loop over it vector code.
pub fn low_first(s: &[u8], o: usize) -> u16
    requires { o + 1 < length s.now }
    ensures { result ≡ get_or s.now o 0 + 256 * get_or s.now (o + 1) 0 }
{
    u16::from_le_bytes([s[o], s[o + 1]])
}

// All from index a on: nothing where a is past the end.
pub fn rest(s: &[u8], a: usize) -> &[u8]
    ensures { result.now ≡ drop a s.now }
{
    s.get(a..).unwrap_or(&[])
}

// The k bytes from index a on, or as many of them as there are.
pub fn part_of(s: &[u8], a: usize, k: usize) -> &[u8]
    ensures { result.now ≡ take k (drop a s.now) }
{
    let t = rest(s, a);
    &t[..k.min(t.len())]
}

// Whether lo ≤ x ≤ hi.
pub fn is_between(lo: u8, hi: u8, x: u8) -> bool
    ensures { result ≡ between lo hi x }
{
    lo <= x && x <= hi
}

// Whether both hold, for loops that go on after a test that fails.
pub fn and(a: bool, b: bool) -> bool
    ensures { result ≡ both a b }
{
    a && b
}

// Whether every byte is from lo to hi. It goes on after one that is not, so that many bytes can be tested at once.
pub fn all_between(lo: u8, hi: u8, s: &[u8]) -> bool
    ensures { result ≡ all_between lo hi s.now }
{
    let mut fine = true;
    for x in s {
        fine = and(fine, is_between(lo, hi, *x));
    }
    fine
}

// Whether two slices hold the same bytes.
#[tactic(auto, using(crate::proofs::Alike::same_as_equal))]
pub fn same(a: &[u8], b: &[u8]) -> bool
    ensures { result ≡ same_bytes a.now b.now }
{
    a == b
}
