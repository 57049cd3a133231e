// The name and step 1 of a text, and the request of one that passed all steps.
ghost use Rattle.std.specs.Prelude.{◌≡◌, ◌≤◌, length};
ghost use Rattle.rules.specs.Choice.{pick};
ghost use Rattle.text_rooms.specs.Room.{overwrite};
ghost use Rattle.mewtocol_commands.specs.Rows as rs;
ghost use Rattle.mewtocol_commands.specs.Commands as cm;
ghost use Rattle.mewtocol_steps.specs.Steps.{start_in, end_in, all_fields};
ghost use Rattle.mewtocol_requests.specs.Requests.{makes};
ghost use Rattle.mewtocol_requests.specs.Reading as rd;
ghost use Rattle.mewtocol_commands.specs.Code.{number_in, row_of};
ghost use Rattle.mewtocol_requests.specs.Code as code;

use crate::{Reading, Request};
use mewtocol_commands::commands::{contact, entry, filling, layout, name_len, named, setting};
use mewtocol_commands::rows::{number, wide};
use mewtocol_commands::{Kind, Layout, Named, Row};
use mewtocol_frame::Limits;
use mewtocol_steps::{MewtocolError, Passed, tested};
use text_slices::{byte_at, is_between, rest};

// The contacts of a row that stands k times in a text, into the first places lent for them.
fn take_contacts(row: Row, k: usize, text: &[u8], contacts: &mut [u32])
    requires { (k ≤ 8) × (8 ≤ length contacts.old) }
    ensures { contacts.new ≡ overwrite contacts.old
        0 (rs.repeated k (rs.widths (row_of row)) (number_in 0 (row_of row)) text.now) }
{
    let w = wide(row);
    let mut at: usize = 0;
    for i in 0..k {
        contacts[i] = number(row, rest(text, at), 0);
        at += w;
    }
}

// And the values of k settings.
fn take_values(k: usize, text: &[u8], values: &mut [u8])
    requires { (k ≤ 8) × (8 ≤ length values.old) }
    ensures { values.new ≡ overwrite values.old
        0 (rs.repeated k (rs.widths rs.setting) (number_in 1 rs.setting) text.now) }
{
    let row = setting();
    let w = wide(row);
    let mut at: usize = 0;
    for i in 0..k {
        values[i] = number(row, rest(text, at), 1) as u8;
        at += w;
    }
}

// How many contacts there are: one, or n.
fn how_many(many: bool, n: u8) -> usize
    ensures { result ≡ pick many n 1 }
{
    if many { n as usize } else { 1 }
}

// The request of a text that passed, its lists in the places lent for them.
fn make(
    kind: Kind,
    n: u8,
    start: u32,
    end: u32,
    text: &[u8],
    contacts: &mut [u32],
    values: &mut [u8],
) -> Request
    requires { (n ≤ 8) × (8 ≤ length contacts.old) × (8 ≤ length values.old) ×
        (length text.now ≡ rs.widths (all_fields (cm.layout kind) n text.now)) ×
        (start ≡ start_in (cm.layout kind) text.now) × (end ≡ end_in (cm.layout kind) text.now) }
    ensures { code.ReadsAs (rd.request (makes kind (rs.numbers (all_fields (cm.layout kind) n text.now) text.now)))
        text.now (Reading.Asks result) contacts.old values.old contacts.new values.new }
{
    match kind {
        Kind::ReadContacts(many) => {
            let k = how_many(many, n);
            take_contacts(contact(), k, text, contacts);
            Request::ReadContacts(k as u32)
        }
        Kind::WriteContacts(many) => {
            let k = how_many(many, n);
            take_contacts(setting(), k, text, contacts);
            take_values(k, text, values);
            Request::WriteContacts(k as u32)
        }
        Kind::ReadRange(a) => Request::ReadRange(a, start, end),
        Kind::WriteRange(a) => Request::WriteRange(a, start, end),
        Kind::Fill => Request::Fill(start, end, number(filling(), text, 2)),
    }
}

// The text after n.
fn read_fields(
    limits: Limits,
    kind: Kind,
    n: u8,
    text: &[u8],
    contacts: &mut [u32],
    values: &mut [u8],
) -> Reading
    requires { (n ≤ 8) × (8 ≤ length contacts.old) × (8 ≤ length values.old) }
    ensures { code.ReadsAs (rd.read_fields limits kind n text.now) text.now result contacts.old
        values.old contacts.new values.new }
{
    match tested(limits, kind, n, text) {
        Passed::Fine(start, end) => {
            Reading::Asks(make(kind, n, start, end, text, contacts, values))
        }
        Passed::Wrong(e) => Reading::Faulty(e),
    }
}

// Step 1, and then the others: the text after a command's name.
fn read_as(
    limits: Limits,
    kind: Kind,
    text: &[u8],
    contacts: &mut [u32],
    values: &mut [u8],
) -> Reading
    requires { (8 ≤ length contacts.old) × (8 ≤ length values.old) }
    ensures { code.ReadsAs (rd.read_as limits kind text.now) text.now result contacts.old values.old
        contacts.new values.new }
{
    match layout(kind) {
        Layout::Once(_) => read_fields(limits, kind, 0, text, contacts, values),
        Layout::WithWords(_) => read_fields(limits, kind, 0, text, contacts, values),
        Layout::Counted(_) => {
            if text.len() == 0 {
                return Reading::Faulty(MewtocolError::Format);
            }
            let b = byte_at(text, 0);
            if !is_between(b'1', b'8', b) {
                return Reading::Faulty(MewtocolError::Parameter);
            }
            read_fields(limits, kind, b - b'0', rest(text, 1), contacts, values)
        }
    }
}

// What a text asks: its name and steps 1 to 7.
pub(crate) fn read_text(
    limits: Limits,
    text: &[u8],
    contacts: &mut [u32],
    values: &mut [u8],
) -> Reading
    requires { (8 ≤ length contacts.old) × (8 ≤ length values.old) }
    ensures { code.ReadsAs (rd.read_text limits text.now) text.now result contacts.old values.old
        contacts.new values.new }
{
    match named(text) {
        Named::Is(c) => {
            let e = entry(c);
            let kind = e.kind;
            let name = e.name;
            read_as(limits, kind, rest(text, name_len(name)), contacts, values)
        }
        Named::Unknown => Reading::Faulty(MewtocolError::Command),
    }
}
