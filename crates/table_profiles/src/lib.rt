// The profile's look at a write of words: what it would leave, held against the registers of the profile before any word is written. The
// rule is `takes` in specs/Profile of table_registers; a write of words is a run, so only the words that it brings need be looked at.
#![tactic(auto)]

ghost use Rattle.std.specs.Prelude.{true, ◌≡◌, ◌*◌, ◌<◌, drop};
ghost use Rattle.text_digits.specs.Digits.{with_number};
ghost use Rattle.text_hex_words.specs.Words.{low_first_word};
ghost use Rattle.table_registers.specs.Profile as pf;
ghost use Rattle.table_profiles.specs.Runs.{brings_for, in_run, kept_in, run_taken};

use table_registers::{Profile, Verdict};
use text_digits::Number;
use text_hex_words::word_low_first;
use text_slices::{and, byte_at, rest};

// What a write brings: words as bytes, high byte first; words as a text of four hex characters each, low byte first; or one word for all.
#[derive(Clone, Copy)]
pub enum Data {
    Bytes,
    Text,
    // the slice beside it is not looked at
    Same(u16),
}

// The word that the first four characters say, low byte first; 0 where they say none.
fn word_in(s: &[u8]) -> u16
    ensures { result ≡ with_number (low_first_word s.now) (λ w. w) 0 }
{
    match word_low_first(s) {
        Number::Value(w) => w as u16,
        Number::NoDigitAt(_) => 0,
    }
}

// Word i of a text; past its end 0.
pub fn word_at(text: &[u8], i: usize) -> u16
    ensures { result ≡ with_number (low_first_word (drop (4 * i) text.now)) (λ w. w) 0 }
{
    if i > text.len() / 4 {
        return 0;
    }
    word_in(rest(text, 4 * i))
}

// Whether 32 bits, the lower 16 first, are a number from -most to most.
fn is_within(most: u32, low: u16, high: u16) -> bool
    ensures { result ≡ pf.within most (pf.joined low high) }
{
    let v = low as u32 + 65536 * high as u32;
    v <= most || v > 0xFFFFFFFF - most
}

// A write of n words from start on: what it brings stands in s.
#[derive(Clone, Copy)]
struct Write<'a> {
    given: Data,
    s: &'a [u8],
    start: usize,
    n: usize,
}

impl Write<'_> {
    // Word k of the table as it would be left, where the run has it.
    fn word(&self, k: usize) -> u16
        requires { (in_run self.now.start self.now.n k ≡ true) × (k < 200) }
        ensures { result ≡ brings_for self.now.given self.now.start self.now.n self.now.s.now k }
    {
        let i = k - self.start;
        match self.given {
            Data::Bytes => byte_at(self.s, 2 * i) as u16 * 256 + byte_at(self.s, 2 * i + 1) as u16,
            Data::Text => word_at(self.s, i),
            Data::Same(w) => w,
        }
    }

    // Whether the run has word k.
    fn has(&self, k: usize) -> bool
        ensures { result ≡ in_run self.now.start self.now.n k }
    {
        self.start <= k && k - self.start < self.n
    }

    // Whether a register that the run has ends between two values.
    fn keeps_single(&self, k: usize, low: u16, high: u16) -> bool
        requires { k < 200 }
        ensures { result ≡ kept_in self.now.given self.now.start self.now.n self.now.s.now (pf.single k low high) }
    {
        if !self.has(k) {
            return true;
        }
        let w = self.word(k);
        low <= w && w <= high
    }

    // Whether a pair of registers ends within its range, or the run has neither of them.
    fn keeps_pair(&self, k: usize, most: u32) -> bool
        requires { k < 199 }
        ensures { result ≡ kept_in self.now.given self.now.start self.now.n self.now.s.now (pf.pair k most) }
    {
        let second = self.has(k + 1);
        if !self.has(k) {
            return !second;
        }
        second && is_within(most, self.word(k), self.word(k + 1))
    }
}

// The six registers of the HL-G2, 50 mm type.
fn kept_by_hl_g2(given: Data, s: &[u8], start: usize, n: usize) -> bool
    ensures { result ≡ run_taken Profile.HlG2 given start n s.now }
{
    let write = Write { given, s, start, n };
    let high_limit = write.keeps_pair(100, 950000);
    let low_limit = write.keeps_pair(102, 950000);
    let r53 = write.keeps_single(53, 0, 0);
    let r55 = write.keeps_single(55, 0, 0);
    let r57 = write.keeps_single(57, 1, 4);
    let r70 = write.keeps_single(70, 0, 2);
    // A chain of `&&` over the six leaves the search more cases than it splits.
    and(
        high_limit,
        and(low_limit, and(r53, and(r55, and(r57, r70)))),
    )
}

// Whether a profile takes a write of n words from start on. The registers are looked at by a call for each kind of data: then the
// compiler keeps them out of the way of a write without a profile, which costs one test.
pub fn taken(profile: Profile, given: Data, s: &[u8], start: usize, n: usize) -> bool
    ensures { result ≡ run_taken profile given start n s.now }
{
    match profile {
        Profile::Free => true,
        Profile::HlG2 => match given {
            Data::Bytes => kept_by_hl_g2(Data::Bytes, s, start, n),
            Data::Text => kept_by_hl_g2(Data::Text, s, start, n),
            Data::Same(w) => kept_by_hl_g2(Data::Same(w), s, start, n),
        },
    }
}

// The verdict on what the address check found, where the profile takes the write or not.
pub fn fitting(found: Verdict, taken: bool) -> Verdict
    ensures { result ≡ pf.fitting taken found }
{
    match found {
        Verdict::Granted if !taken => Verdict::Unfit,
        _ => found,
    }
}
