// The address check: a loop over the named words that ends at the first without what is needed. Before the loop over a run of words
// stands a quick test that none lacks anything, which is so of every good request.
ghost use Rattle.std.specs.Prelude.{Bool, List, true, ◌≡◌, map, ℕ, ◌+◌, ◌<◌, length, get_or};
ghost use Rattle.rules.specs.Choice.{between};
ghost use Rattle.table_addresses.specs.Catalogue.{address_of, coil_address_of};
ghost use Rattle.table_addresses.specs.Areas.{first_relay, last_relay, contact_cell, coil_cell};
ghost use Rattle.table_registers.specs.Table.{grants, in_area, allows, up_from, checked};
ghost use Rattle.table_registers.specs.Bits.{words_of};

use crate::Verdict;
use table_addresses::{Area, CoilAddress, FIRST_RELAY, FrameAddress, LAST_RELAY, contact_cell};
use text_slices::{byte_at, part_of};

// Whether an attribute has what is needed.
fn is_granted(need: u8, attribute: u8) -> bool
    ensures { result ≡ grants need attribute }
{
    attribute & need == need
}

fn is_relay(k: usize) -> bool
    ensures { result ≡ between first_relay last_relay k }
{
    FIRST_RELAY <= k && k <= LAST_RELAY
}

// Whether word k may be named in an area.
fn in_area(area: Area, k: usize) -> bool
    ensures { result ≡ in_area area k }
{
    match area {
        Area::Relays => is_relay(k),
        Area::Registers => true,
    }
}

// Whether every one of these attributes has what is needed. It goes on after one that has not, so that many can be tested at once.
fn all_granted(need: u8, s: &[u8]) -> bool
    ensures { result ≡ true → (j : ℕ) → j < length s.now → grants need (get_or s.now j 0) ≡ true }
{
    let mut acc = need;
    for attribute in s {
        acc &= *attribute;
    }
    acc == need
}

// What the check asks of a word: that it lies in a table of so many words, may be named, and has what is needed, which is a number as the
// rules and `grants` of specs/Table have it.
#[derive(Clone, Copy)]
struct Asked<'a> {
    words: usize,
    attributes: &'a [u8],
    area: Area,
    need: u8,
}

impl Asked<'_> {
    // Whether the word i places after the first is allowed.
    fn allows(&self, first: usize, i: usize) -> bool
        ensures { result ≡ allows self.now.words self.now.attributes.now self.now.area self.now.need (first + i) }
    {
        if self.words.saturating_sub(first) <= i {
            return false;
        }
        let k = first + i;
        in_area(self.area, k) && is_granted(self.need, byte_at(self.attributes, k))
    }

    // Whether a run of words is allowed throughout: then the address check finds nothing.
    fn allows_run(&self, first: usize, count: usize) -> bool
        ensures { result ≡ true → checked (allows self.now.words self.now.attributes.now self.now.area self.now.need) 0 (up_from first count) ≡ Verdict.Granted }
    {
        if count < 1 || self.words.saturating_sub(first) < count {
            return false;
        }
        if !in_area(self.area, first) || !in_area(self.area, first + count - 1) {
            return false;
        }
        let part = part_of(self.attributes, first, count);
        part.len() == count && all_granted(self.need, part)
    }
}

// The first of so many places that does not pass.
fn first_failing<F: Fn(usize) -> bool>(count: usize, passes: F) -> Verdict
    requires { (i : ℕ) → i < count → F.pre passes i }
    ensures { (p : ℕ → Bool) (ks : List ℕ) → length ks ≡ count → ((i : ℕ) (b : Bool) → i < count → F.post passes i b → b ≡ p (get_or ks i 0))
        → result ≡ checked p 0 ks }
{
    'first: {
        for i in 0..count {
            if !passes(i) {
                break 'first Verdict::Lacking(i);
            }
        }
        Verdict::Granted
    }
}

// The address check over a run of words.
pub fn first_lacking(
    words: usize,
    attributes: &[u8],
    area: Area,
    need: u8,
    first: FrameAddress,
    count: usize,
) -> Verdict
    ensures { result ≡ checked (allows words attributes.now area need) 0 (up_from (address_of first) count) }
{
    let asked = Asked {
        words,
        attributes,
        area,
        need,
    };
    let start = first.word();
    if asked.allows_run(start, count) {
        return Verdict::Granted;
    }
    first_failing(count, |i| asked.allows(start, i))
}

// The address check over a run of coils.
pub fn first_lacking_coil(
    words: usize,
    attributes: &[u8],
    need: u8,
    first: CoilAddress,
    count: u32,
) -> Verdict
    ensures { result ≡ checked (allows words attributes.now Area.Relays need) 0 (words_of (up_from (coil_cell (coil_address_of first)) count)) }
{
    let asked = Asked {
        words,
        attributes,
        area: Area::Relays,
        need,
    };
    let cell = first.cell();
    first_failing(count as usize, |i| asked.allows((cell + i) / 16, 0))
}

// The address check over a list of contacts: each one's word is looked for among the relay words, and then asked for what is needed.
pub fn first_lacking_contact(words: usize, attributes: &[u8], need: u8, contacts: &[u32]) -> Verdict
    ensures { result ≡ checked (allows words attributes.now Area.Relays need) 0 (words_of (map contact_cell contacts.now)) }
{
    let asked = Asked {
        words,
        attributes,
        area: Area::Registers,
        need,
    };
    // No `for`: the loop ends with the place.
    let mut rest = contacts.iter().enumerate();
    'contacts: loop {
        let Some((i, contact)) = rest.next() else {
            break Verdict::Granted;
        };
        let word = contact_cell(*contact) / 16;
        'relays: {
            for relay in FIRST_RELAY..=LAST_RELAY {
                if relay == word {
                    break 'relays;
                }
            }
            break 'contacts Verdict::Lacking(i);
        }
        if !asked.allows(word, 0) {
            break Verdict::Lacking(i);
        }
    }
}
