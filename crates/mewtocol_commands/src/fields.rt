// Fields: how wide, which step looks at them, and what they say.
ghost use Rattle.std.specs.Prelude.{◌≡◌, drop, get_or};
ghost use Rattle.mewtocol_commands.specs.Fields as fs;
ghost use Rattle.mewtocol_commands.specs.Rows.{is_letter, passing};

use crate::Field;
use mewtocol_frame::text::bit;
use table_addresses::contact_of;
use text_digits::{Number, decimal_4, decimal_5};
use text_hex_words::word_low_first;
use text_slices::{byte_at, rest};

// How many characters a field has.
pub fn width(field: Field) -> usize
    ensures { result ≡ fs.width field }
{
    match field {
        Field::LetterR | Field::LetterD | Field::Value => 1,
        Field::Relay | Field::Contact | Field::Word => 4,
        Field::Register => 5,
    }
}

// The step that looks at a field's characters, by its number in the rules; no enum, since `every_field` takes any number and may take no fewer.
pub(crate) fn step_of(field: Field) -> u8
    ensures { result ≡ fs.step_of field }
{
    match field {
        Field::LetterR | Field::LetterD => 3,
        Field::Relay | Field::Register | Field::Contact => 4,
        Field::Value | Field::Word => 7,
    }
}

// Whether a field is a letter, which says no number.
pub fn is_letter(field: Field) -> bool
    ensures { result ≡ is_letter field }
{
    step_of(field) == 3
}

fn letter(s: &[u8], x: u8) -> Number
    ensures { result ≡ fs.letter x (get_or s.now 0 0) }
{
    if byte_at(s, 0) == x {
        return Number::Value(0);
    }
    Number::NoDigitAt(0)
}

// The number that the first characters say in a field.
pub(crate) fn reads(field: Field, s: &[u8]) -> Number
    ensures { result ≡ fs.reads field s.now }
{
    match field {
        Field::LetterR => letter(s, b'R'),
        Field::LetterD => letter(s, b'D'),
        Field::Relay => decimal_4(s),
        Field::Register => decimal_5(s),
        Field::Contact => contact_of(s),
        Field::Value => bit(s),
        Field::Word => word_low_first(s),
    }
}

// A step wants its own fields right and passes over the others.
pub(crate) fn passes(step: u8, field: Field, s: &[u8]) -> bool
    ensures { result ≡ passing step field s.now }
{
    if step != step_of(field) {
        return true;
    }
    match reads(field, s) {
        Number::Value(_) => true,
        Number::NoDigitAt(_) => false,
    }
}

// The number that the field at an index says, or 0.
pub(crate) fn said(field: Field, text: &[u8], at: usize) -> u32
    ensures { result ≡ fs.amount field (drop at text.now) }
{
    match reads(field, rest(text, at)) {
        Number::Value(v) => v,
        Number::NoDigitAt(_) => 0,
    }
}
