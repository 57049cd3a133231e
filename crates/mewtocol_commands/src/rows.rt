// Rows of fields: how long and wide they are, a step over the text of a row, and the numbers that it says.
ghost use Rattle.std.specs.Prelude.{◌≡◌, true, false, eqb, ◌≤◌, length, get_or};
ghost use Rattle.rules.specs.Choice.{pick, both};
ghost use Rattle.mewtocol_commands.specs.Rows as rs;
ghost use Rattle.mewtocol_commands.specs.Code.{row_of};
ghost use Rattle.mewtocol_commands.specs.Code as code;

use crate::fields::{is_letter, passes, reads, said, step_of, width};
use crate::{Field, Found, Row, Seen};
use text_digits::Number;
use text_slices::rest;

impl Row {
    // The fields of a row.
    pub fn as_slice(&self) -> &[Field]
        ensures { (result.now ≡ row_of self.now) × (length result.now ≤ 4) }
    {
        &self.fields[..self.size.min(4)]
    }
}

// How many fields a row has.
pub fn size(row: Row) -> usize
    ensures { (result ≡ length (row_of row)) × (result ≤ 4) }
{
    row.as_slice().len()
}

// Field i of the four places of a row; from 3 on the fourth.
pub fn field(row: Row, i: usize) -> Field
    ensures { result ≡ get_or row.fields i (get_or row.fields 3 Field.Word) }
{
    row.fields[i.min(3)]
}

// How many characters a row has.
pub fn wide(row: Row) -> usize
    ensures { (result ≡ rs.widths (row_of row)) × (result ≤ 20) }
{
    let all = row.as_slice();
    let mut at: usize = 0;
    for f in all {
        at += width(*f);
    }
    at
}

// A step over the text of a row.
pub fn every_field(step: u8, row: Row, text: &[u8]) -> bool
    ensures { result ≡ rs.every step (row_of row) text.now }
{
    let all = row.as_slice();
    let mut at: usize = 0;
    for f in all {
        if !passes(step, *f, rest(text, at)) {
            return false;
        }
        at += width(*f);
    }
    true
}

// Number j that the text of a row says; 0 where it says fewer.
pub fn number(row: Row, text: &[u8], j: usize) -> u32
    ensures { result ≡ get_or (rs.numbers (row_of row) text.now) j 0 }
{
    let all = row.as_slice();
    let mut at: usize = 0;
    let mut left = j;
    for f in all {
        if !is_letter(*f) {
            if left == 0 {
                return said(*f, text, at);
            }
            left -= 1;
        }
        at += width(*f);
    }
    0
}

// The numbers found, and one more; a third is passed over.
fn also(found: Found, v: u32) -> Found
    ensures { result ≡ rs.also found v }
{
    match found {
        Found::Nothing => Found::One(v),
        Found::One(a) => Found::Two(a, v),
        Found::Two(a, b) => Found::Two(a, b),
    }
}

// What was found, after a field of this step that says this number; a letter says none.
fn found_by(step: u8, found: Found, v: u32) -> Found
    ensures { result ≡ pick (eqb step 3) found (rs.also found v) }
{
    if step == 3 {
        return found;
    }
    also(found, v)
}

// Whether a step is still right, after a wrong field of another step or its own.
fn still(right: bool, step: u8, own: u8) -> bool
    ensures { result ≡ both right (pick (eqb step own) false true) }
{
    right && step != own
}

// What was seen, and one field more.
fn with_field(seen: Seen, field: Field, s: &[u8]) -> Seen
    ensures { code.Onward seen field s.now result }
{
    let step = step_of(field);
    let found = seen.found;
    match reads(field, s) {
        Number::Value(v) => Seen {
            found: found_by(step, found, v),
            ..seen
        },
        Number::NoDigitAt(_) => Seen {
            letters: still(seen.letters, 3, step),
            digits: still(seen.digits, 4, step),
            values: still(seen.values, 7, step),
            found: found_by(step, found, 0),
        },
    }
}

// One look at the text of a row: steps 3, 4 and 7, and the first two numbers.
pub fn look(row: Row, text: &[u8]) -> Seen
    ensures { code.Looks (row_of row) text.now result }
{
    let fields = row.as_slice();
    let mut at: usize = 0;
    let mut seen = Seen {
        letters: true,
        digits: true,
        values: true,
        found: Found::Nothing,
    };
    for f in fields {
        seen = with_field(seen, *f, rest(text, at));
        at += width(*f);
    }
    seen
}

// The first number found, or 0.
pub fn first(found: Found) -> u32
    ensures { result ≡ get_or (code.found_of found) 0 0 }
{
    match found {
        Found::Nothing => 0,
        Found::One(a) | Found::Two(a, _) => a,
    }
}

// And the second.
pub fn second(found: Found) -> u32
    ensures { result ≡ get_or (code.found_of found) 1 0 }
{
    match found {
        Found::Nothing | Found::One(_) => 0,
        Found::Two(_, b) => b,
    }
}
