// The operations that write words: each does the address check first, asks the profile, and then does all of it or none of it.
#![tactic(auto)]

ghost use Rattle.std.specs.Prelude.{ℕ, List, true, ◌≡◌, ◌+◌, ◌*◌, ◌/◌, ◌%◌, ◌≤◌, ◌<◌, length, get_or, replicate, drop};
ghost use Rattle.text_rooms.specs.Room.{overwrite};
ghost use Rattle.table_addresses.specs.Catalogue.{address_of};
ghost use Rattle.table_registers.specs.Bits.{masked};
ghost use Rattle.table_registers.specs.Profile.{verdict};
ghost use Rattle.table_registers.specs.Operation.{Carried, write_words, fill_words, mask_word, words_of_bytes, words_of_text};
ghost use Rattle.text_digits.specs.Digits.{with_number};
ghost use Rattle.text_hex.specs.Hex.{all_hex};
ghost use Rattle.text_hex_words.specs.Words.{low_first_word};

use table_addresses::{Area, FrameAddress};
use table_profiles::{Data, fitting, taken, word_at};
use table_registers::check::first_lacking;
use table_registers::{Profile, Verdict};
use text_hex::{all_hex, pair_of};
use text_slices::low_first;

// The word with its bytes exchanged.
pub fn exchanged(w: u16) -> u16
    ensures { result ≡ w % 256 * 256 + w / 256 }
{
    w % 256 * 256 + w / 256
}

// The word of two bytes, high byte first.
fn high_first(s: &[u8], o: usize) -> u16
    requires { o + 1 < length s.now }
    ensures { result ≡ get_or s.now o 0 * 256 + get_or s.now (o + 1) 0 }
{
    exchanged(low_first(s, o))
}

// Writes n words from start on, each as a function of its place says.
fn put_words<F: Fn(usize) -> u16>(words: &mut [u16], start: usize, n: usize, word: F)
    requires { (0 < n → start + n ≤ length words.old) × ((i : ℕ) → i < n → F.pre word i) }
    ensures { (vs : List ℕ) → length vs ≡ n → ((i w : ℕ) → i < n → F.post word i w → w ≡ get_or vs i 0) → words.new ≡ overwrite words.old start vs }
{
    for i in 0..n {
        words[start + i] = word(i);
    }
}

// Writes words that are given as bytes, high byte first, from an address on; an odd last byte is left out.
pub fn write_bytes(
    words: &mut [u16],
    attributes: &[u8],
    profile: Profile,
    first: FrameAddress,
    bytes: &[u8],
) -> Verdict
    ensures { Carried (write_words Area.Registers (address_of first) (words_of_bytes (length bytes.now / 2) bytes.now))
        words.old (verdict profile attributes.now) result words.new }
{
    let n = bytes.len() / 2;
    let start = first.word();
    let lacking = first_lacking(words.len(), attributes, Area::Registers, 2, first, n);
    let judged = fitting(lacking, taken(profile, Data::Bytes, bytes, start, n));
    if judged.is_granted() {
        put_words(words, start, n, |i| high_first(bytes, 2 * i));
    }
    judged
}

// The word that the four hex digits at an index say, low byte first, by arithmetic alone.
fn word_said(text: &[u8], o: usize) -> u16
    requires { (o + 3 < length text.now) × (all_hex text.now ≡ true) }
    ensures { result ≡ with_number (low_first_word (drop o text.now)) (λ w. w) 0 }
{
    pair_of(low_first(text, o)) as u16 + 256 * pair_of(low_first(text, o + 2)) as u16
}

// The words of any text: at once where it is hex and has as many as are asked, as every request's is that passed its steps.
fn put_data(words: &mut [u16], start: usize, n: usize, text: &[u8])
    requires { 0 < n → start + n ≤ length words.old }
    ensures { words.new ≡ overwrite words.old start (words_of_text n text.now) }
{
    if text.len() / 4 == n && all_hex(text) {
        put_words(words, start, n, |i| word_said(text, 4 * i));
    } else {
        put_words(words, start, n, |i| word_at(text, i));
    }
}

// Writes so many words from an address on, given as a text of four hex characters each, low byte first; with `Area::Relays`, only in the
// relay words. Where characters are missing or no hex, a word is 0.
pub fn write_text(
    words: &mut [u16],
    attributes: &[u8],
    profile: Profile,
    area: Area,
    first: FrameAddress,
    count: usize,
    text: &[u8],
) -> Verdict
    ensures { Carried (write_words area (address_of first) (words_of_text count text.now)) words.old
        (verdict profile attributes.now) result words.new }
{
    let start = first.word();
    let lacking = first_lacking(words.len(), attributes, area, 2, first, count);
    let found = fitting(lacking, taken(profile, Data::Text, text, start, count));
    if found.is_granted() {
        put_data(words, start, count, text);
    }
    found
}

// Writes one value to a run of words.
pub fn fill_words(
    words: &mut [u16],
    attributes: &[u8],
    profile: Profile,
    first: FrameAddress,
    count: usize,
    value: u16,
) -> Verdict
    ensures { Carried (fill_words (address_of first) count value) words.old (verdict profile attributes.now) result words.new }
{
    let start = first.word();
    let lacking = first_lacking(words.len(), attributes, Area::Registers, 2, first, count);
    let found = fitting(
        lacking,
        taken(profile, Data::Same(value), attributes, start, count),
    );
    if found.is_granted() {
        put_words(words, start, count, |_| value);
    }
    found
}

// A word; past the table 0.
fn word_or_0(words: &[u16], k: usize) -> u16
    ensures { result ≡ get_or words.now k 0 }
{
    if k >= words.len() {
        return 0;
    }
    words[k]
}

// What a mask write would leave in word k: the bits of the and-mask as they are, the or-mask in the others; past the table the word is 0.
fn masked_word(words: &[u16], k: usize, and_mask: u16, or_mask: u16) -> u16
    ensures { result ≡ masked (get_or words.now k 0) and_mask or_mask }
{
    let w = word_or_0(words, k);
    (w & and_mask) | (or_mask & (65535 - and_mask))
}

// Keeps the bits of the and-mask and mixes the or-mask into the others; it reads and writes the word.
pub fn mask_word(
    words: &mut [u16],
    attributes: &[u8],
    profile: Profile,
    word: FrameAddress,
    and_mask: u16,
    or_mask: u16,
) -> Verdict
    ensures { Carried (mask_word (address_of word) and_mask or_mask) words.old (verdict profile attributes.now) result words.new }
{
    let k = word.word();
    let left = masked_word(words, k, and_mask, or_mask);
    let lacking = first_lacking(words.len(), attributes, Area::Registers, 3, word, 1);
    let found = fitting(lacking, taken(profile, Data::Same(left), attributes, k, 1));
    if found.is_granted() {
        put_words(words, k, 1, |_| left);
    }
    found
}
