// Layouts: the row of a text, how long the whole is, and a step over it.
ghost use Rattle.std.specs.Prelude.{◌≡◌, ◌≤◌};
ghost use Rattle.mewtocol_commands.specs.Rows as rs;
ghost use Rattle.mewtocol_commands.specs.Commands as cm;
ghost use Rattle.mewtocol_steps.specs.Steps as st;
ghost use Rattle.mewtocol_steps.specs.Seeing as sn;
ghost use Rattle.mewtocol_commands.specs.Code as code;

use mewtocol_commands::commands::word;
use mewtocol_commands::rows::{every_field, look, wide};
use mewtocol_commands::{Layout, Row, Seen};
use mewtocol_frame::text::span;
use text_hex::all_hex;
use text_slices::{and, rest};

// How many characters it has, where n contacts or words are listed.
pub(crate) fn total(layout: Layout, n: usize) -> usize
    requires { n ≤ 5000000000 }
    ensures { result ≡ rs.widths (cm.fields_of (code.layout_of layout) n) }
{
    match layout {
        Layout::Once(row) => wide(row),
        Layout::Counted(row) => n * wide(row),
        Layout::WithWords(row) => wide(row) + n * wide(word()),
    }
}

// Step 2: the part whose length is known is there; except where words follow, nothing else does.
pub(crate) fn is_there(layout: Layout, n: usize, text: &[u8]) -> bool
    requires { n ≤ 5000000000 }
    ensures { result ≡ st.is_there (code.layout_of layout) n text.now }
{
    match layout {
        Layout::Once(row) => text.len() == wide(row),
        Layout::Counted(row) => text.len() == n * wide(row),
        Layout::WithWords(row) => wide(row) <= text.len(),
    }
}

// A step over the text of a row that stands there k times.
fn every_time(step: u8, row: Row, k: usize, text: &[u8]) -> bool
    requires { k ≤ 5000000000 }
    ensures { result ≡ rs.every step (rs.times k (code.row_of row)) text.now }
{
    let w = wide(row);
    let mut at: usize = 0;
    for _i in 0..k {
        if !every_field(step, row, rest(text, at)) {
            return false;
        }
        at += w;
    }
    true
}

// One look at the part whose length is known: steps 3, 4 and 7 over it, and the first two numbers of its row.
pub(crate) fn seen_in(layout: Layout, n: usize, text: &[u8]) -> Seen
    requires { n ≤ 5000000000 }
    ensures { sn.Seeing (code.layout_of layout) n text.now result }
{
    match layout {
        Layout::Once(row) => look(row, text),
        Layout::Counted(row) => {
            let one = look(row, text);
            let found = one.found;
            Seen {
                letters: every_time(3, row, n, text),
                digits: every_time(4, row, n, text),
                values: every_time(7, row, n, text),
                found,
            }
        }
        Layout::WithWords(row) => look(row, text),
    }
}

// Step 7, where the part whose length is known was seen and the text is as long as it should be: the words behind it are hex throughout.
pub(crate) fn right_data(layout: Layout, seen: bool, text: &[u8]) -> bool
    ensures { result ≡ sn.right_data (code.layout_of layout) seen text.now }
{
    match layout {
        Layout::Once(_) => seen,
        Layout::Counted(_) => seen,
        Layout::WithWords(row) => and(seen, all_hex(rest(text, wide(row)))),
    }
}

// How many contacts or words are listed.
pub(crate) fn listed(layout: Layout, n: usize, start: u32, end: u32) -> usize
    requires { n ≤ 5000000000 }
    ensures { (result ≡ st.listed (code.layout_of layout) n start end) × (result ≤ 5000000000) }
{
    match layout {
        Layout::Once(_) => n,
        Layout::Counted(_) => n,
        Layout::WithWords(_) => span(start, end),
    }
}
