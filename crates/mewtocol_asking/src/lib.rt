// What a host asks of a MEWTOCOL station, and whether it can be a request: what can't be is neither written nor waited for. `ways` turns
// each way of asking into a command and its request; `numbers` has the numbers of a request, in the order of its text.
#![tactic(auto)]

pub mod numbers;
pub mod ways;

ghost use Rattle.std.specs.Prelude.{◌≡◌, true, ◌+◌, ◌≤◌, ltb, drop};
ghost use Rattle.rules.specs.Choice.{pick, both, between};
ghost use Rattle.mewtocol_frame.specs.Frame.{highest};
ghost use Rattle.mewtocol_commands.specs.Fields.{room};
ghost use Rattle.mewtocol_commands.specs.Rows.{is_letter, times};
ghost use Rattle.mewtocol_commands.specs.Commands as cm;
ghost use Rattle.mewtocol_commands.specs.Code as rq;
ghost use Rattle.mewtocol_asking.specs.Asking as sk;
ghost use Rattle.mewtocol_asking.specs.Code as code;

use mewtocol_commands::commands::{entry, good_range, layout, word};
use mewtocol_commands::fields::is_letter;
use mewtocol_commands::rows::{field, size};
use mewtocol_commands::{Command, Field, Layout, Row};
use mewtocol_frame::text::span;
use mewtocol_frame::{HIGHEST, Limits};
use numbers::{listed, number};

// What a host asks, in numbers; a contact is 16 × relay word + bit, so R1030 is 16 × 103. Lists stand beside it: one to eight contacts for
// ReadContacts, contacts and their values for WriteContacts, words for WriteRelays and WriteWords.
#[derive(Clone, Copy)]
pub enum Ask {
    ReadContacts,
    ReadRelays(u32, u32),
    WriteContact(u32, u32),
    WriteContacts,
    WriteRelays(u32, u32),
    ReadWords(u32, u32),
    WriteWords(u32, u32),
    FillWords(u32, u32, u32),
}

// A command and its request: the numbers that stand in no list (contact and value, or start, end and word; 0 where it has none), and the lists.
#[derive(Clone, Copy)]
pub struct Asking<'a> {
    pub command: Command,
    pub first: u32,
    pub second: u32,
    pub third: u32,
    pub contacts: &'a [u32],
    pub values: &'a [u8],
    pub words: &'a [u16],
}

// Whether a station can be asked.
pub fn is_station(station: u32) -> bool
    ensures { result ≡ between 1 highest station }
{
    1 <= station && station <= HIGHEST
}

// Every number that a field has room for is below this.
fn room_of(field: Field) -> u32
    ensures { result ≡ room field }
{
    match field {
        Field::LetterR => 1,
        Field::LetterD => 1,
        Field::Relay => 10000,
        Field::Register => 100000,
        Field::Contact => 16000,
        Field::Value => 2,
        Field::Word => 65536,
    }
}

// Whether a field has room for a number.
fn has_room(field: Field, n: u32) -> bool
    ensures { result ≡ pick (is_letter field) true (ltb n (room field)) }
{
    if is_letter(field) {
        return true;
    }
    n < room_of(field)
}

// The place of the next number, after a field.
pub fn after(field: Field, j: usize) -> usize
    requires { j ≤ 20000000000 }
    ensures { result ≡ j + sk.says field }
{
    if is_letter(field) { j } else { j + 1 }
}

// How many numbers a row says.
pub fn numbers_in(row: Row) -> usize
    ensures { (result ≡ code.says_all (rq.row_of row)) × (result ≤ 4) }
{
    let mut j = 0;
    for i in 0..size(row) {
        j = after(field(row, i), j);
    }
    j
}

// Whether the fields of a row have room for the numbers from number j on.
fn fits_row(row: Row, asking: &Asking, j: usize) -> bool
    requires { j ≤ 18000000000 }
    ensures { result ≡ sk.fit (rq.row_of row) (drop j (code.numbers_for asking.now)) }
{
    let mut k = j;
    for i in 0..size(row) {
        let f = field(row, i);
        if !has_room(f, number(asking, k)) {
            return false;
        }
        k = after(f, k);
    }
    true
}

// And of a row that stands there n times.
fn fits_times(row: Row, n: usize, asking: &Asking, j: usize) -> bool
    requires { (n ≤ 4294967296) × (j ≤ 4) }
    ensures { result ≡ sk.fit (times n (rq.row_of row)) (drop j (code.numbers_for asking.now)) }
{
    let w = numbers_in(row);
    let mut k = j;
    for _i in 0..n {
        if !fits_row(row, asking, k) {
            return false;
        }
        k += w;
    }
    true
}

// Steps 1 and 6, 4 and 7: one to eight contacts, a word for each of the range, and every number has room in its field.
fn fits(layout: Layout, n: usize, start: u32, end: u32, asking: &Asking) -> bool
    ensures { result ≡ both (sk.right_count (rq.layout_of layout) n start end)
        (sk.fit (cm.fields_of (rq.layout_of layout) n) (code.numbers_for asking.now)) }
{
    match layout {
        Layout::Once(row) => fits_row(row, asking, 0),
        Layout::Counted(row) => {
            if n < 1 {
                return false;
            }
            if n > 8 {
                return false;
            }
            fits_times(row, n, asking, 0)
        }
        Layout::WithWords(row) => {
            if n != span(start, end) {
                return false;
            }
            if !fits_row(row, asking, 0) {
                return false;
            }
            fits_times(word(), n, asking, numbers_in(row))
        }
    }
}

// Whether what is asked passes steps 1 to 7 at a station.
pub fn can_ask(limits: Limits, asking: &Asking) -> bool
    ensures { result ≡ sk.can_ask limits (code.asking_of asking.now) }
{
    let e = entry(asking.command);
    let kind = e.kind;
    let y = layout(kind);
    let n = listed(asking);
    let start = number(asking, 0);
    let end = number(asking, 1);
    if !fits(y, n, start, end, asking) {
        return false;
    }
    good_range(limits, kind, start, end)
}
