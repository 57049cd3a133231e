// The numbers of what is asked, in the order of its text, and how many contacts or words it lists.
ghost use Rattle.std.specs.Prelude.{◌≡◌, [], ◌∷◌, ◌/◌, ◌%◌, ◌≤◌, eqb, length, get_or};
ghost use Rattle.rules.specs.Choice.{pick};
ghost use Rattle.mewtocol_asking.specs.Asking as sk;
ghost use Rattle.mewtocol_asking.specs.Code as code;

use crate::Asking;
use mewtocol_commands::Kind;
use mewtocol_commands::commands::entry;

// One of three numbers; 0 past the last.
fn own(asking: &Asking, j: usize) -> u32
    ensures { result ≡ get_or (asking.now.first ∷ asking.now.second ∷ asking.now.third ∷ []) j 0 }
{
    match j {
        0 => asking.first,
        1 => asking.second,
        2 => asking.third,
        _ => 0,
    }
}

fn contact_at(contacts: &[u32], i: usize) -> u32
    ensures { result ≡ get_or contacts.now i 0 }
{
    contacts.get(i).copied().unwrap_or(0)
}

fn value_at(values: &[u8], i: usize) -> u32
    ensures { result ≡ get_or values.now i 0 }
{
    values.get(i).map_or(0, |v| u32::from(*v))
}

fn word_at(words: &[u16], i: usize) -> u32
    ensures { result ≡ get_or words.now i 0 }
{
    words.get(i).map_or(0, |w| u32::from(*w))
}

// A contact, its value, a contact, its value, where there are as many of both.
fn setting_at(contacts: &[u32], values: &[u8], j: usize) -> u32
    ensures { result ≡ get_or (sk.spread (sk.settings_of contacts.now values.now)) j 0 }
{
    if values.len() != contacts.len() {
        return 0;
    }
    if j % 2 == 0 {
        return contact_at(contacts, j / 2);
    }
    value_at(values, j / 2)
}

// The words of a range come after its start and end.
fn data_at(asking: &Asking, j: usize) -> u32
    ensures { result ≡ get_or (asking.now.first ∷ asking.now.second ∷ asking.now.words.now) j 0 }
{
    match j {
        0 => asking.first,
        1 => asking.second,
        _ => word_at(asking.words, j - 2),
    }
}

// Number j; 0 past the last.
pub fn number(asking: &Asking, j: usize) -> u32
    ensures { result ≡ get_or (code.numbers_for asking.now) j 0 }
{
    let e = entry(asking.command);
    match e.kind {
        Kind::ReadContacts(_) => contact_at(asking.contacts, j),
        Kind::WriteContacts(many) => {
            if many {
                return setting_at(asking.contacts, asking.values, j);
            }
            if j < 2 { own(asking, j) } else { 0 }
        }
        Kind::ReadRange(_) => if j < 2 { own(asking, j) } else { 0 },
        Kind::WriteRange(_) => data_at(asking, j),
        Kind::Fill => own(asking, j),
    }
}

// How many contacts or words are listed.
pub fn listed(asking: &Asking) -> usize
    ensures { result ≡ sk.listed_by (code.request_of asking.now) }
{
    let e = entry(asking.command);
    match e.kind {
        Kind::ReadContacts(_) => asking.contacts.len(),
        Kind::WriteContacts(many) => {
            if !many {
                return 1;
            }
            if asking.values.len() == asking.contacts.len() {
                asking.contacts.len()
            } else {
                0
            }
        }
        Kind::ReadRange(_) => 0,
        Kind::WriteRange(_) => asking.words.len(),
        Kind::Fill => 0,
    }
}
