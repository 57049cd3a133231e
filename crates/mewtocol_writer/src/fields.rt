// The text of a request, field by field, written straight into the room.
ghost use Rattle.std.specs.Prelude.{◌≡◌, true, false, ◌++◌, ◌+◌, ◌*◌, ◌≤◌, ◌<◌, length, drop};
ghost use Rattle.text_rooms.specs.Room.{overwrite};
ghost use Rattle.mewtocol_commands.specs.Fields as fs;
ghost use Rattle.mewtocol_commands.specs.Rows as rs;
ghost use Rattle.mewtocol_commands.specs.Commands as cm;
ghost use Rattle.mewtocol_commands.specs.Code as rq;
ghost use Rattle.mewtocol_asking.specs.Asking as sk;
ghost use Rattle.mewtocol_asking.specs.Code as code;
ghost use Rattle.mewtocol_writer.specs.Writing as wr;

use mewtocol_asking::numbers::{listed, number};
use mewtocol_asking::{Asking, after, numbers_in};
use mewtocol_commands::commands::{entry, layout, word};
use mewtocol_commands::fields::width;
use mewtocol_commands::rows::{field, size, wide};
use mewtocol_commands::{Field, Layout, Name, Row};
use text_decimals::put_decimal;
use text_hex::hex_digit;
use text_hex_words::put_low_first;
use text_rooms::put_byte;

// A number in a field; a letter stands for none.
fn put_field(room: &mut [u8], at: usize, field: Field, v: u32)
    requires { (at + fs.width field ≤ length room.old) × (rs.is_letter field ≡ false → v < fs.room field) }
    ensures { room.new ≡ overwrite room.old at (sk.characters field v) }
{
    match field {
        Field::LetterR => put_byte(room, at, b'R'),
        Field::LetterD => put_byte(room, at, b'D'),
        Field::Relay => put_decimal(room, at, 4, v),
        Field::Register => put_decimal(room, at, 5, v),
        Field::Contact => {
            put_decimal(room, at, 3, v / 16);
            put_byte(room, at + 3, hex_digit((v % 16) as u8));
        }
        Field::Value => put_byte(room, at, b'0' + v as u8),
        Field::Word => put_low_first(room, at, v as u16),
    }
}

// The fields of a row, with the numbers from number j on.
fn put_row(room: &mut [u8], at: usize, row: Row, asking: &Asking, j: usize)
    requires { (at + rs.widths (rq.row_of row) ≤ length room.old) × (j ≤ 18000000000) ×
        (sk.fit (rq.row_of row) (drop j (code.numbers_for asking.now)) ≡ true) }
    ensures { room.new ≡ overwrite room.old
        at (sk.filled (rq.row_of row) (drop j (code.numbers_for asking.now))) }
{
    let mut o = at;
    let mut k = j;
    for i in 0..size(row) {
        let f = field(row, i);
        put_field(room, o, f, number(asking, k));
        o += width(f);
        k = after(f, k);
    }
}

// And of a row that stands there n times.
fn put_times(room: &mut [u8], at: usize, row: Row, n: usize, asking: &Asking, j: usize)
    requires { (at + rs.widths (rq.row_of row) * n ≤ length room.old) × (n ≤ 4294967296) × (j ≤ 4) ×
        (sk.fit (rs.times n (rq.row_of row)) (drop j (code.numbers_for asking.now)) ≡ true) }
    ensures { room.new ≡ overwrite room.old
        at (sk.filled (rs.times n (rq.row_of row)) (drop j (code.numbers_for asking.now))) }
{
    let w = wide(row);
    let m = numbers_in(row);
    let mut o = at;
    let mut k = j;
    for _i in 0..n {
        put_row(room, o, row, asking, k);
        o += w;
        k += m;
    }
}

// The letters of a name, after the opening.
fn put_name(room: &mut [u8], name: Name) -> usize
    requires { 7 ≤ length room.old }
    ensures { wr.Puts 4 (rq.name_of name) room.old result room.new }
{
    put_byte(room, 4, name.0);
    put_byte(room, 5, name.1);
    if name.2 == 0 {
        return 6;
    }
    put_byte(room, 6, name.2);
    7
}

// All after the name, where n contacts or words are listed.
fn put_body(room: &mut [u8], at: usize, layout: Layout, n: usize, asking: &Asking) -> usize
    requires { (at + length (wr.body_text (rq.layout_of layout) n (code.numbers_for asking.now)) ≤ length
        room.old) × wr.Countable (rq.layout_of layout) n × (sk.fit (cm.fields_of (rq.layout_of layout) n)
        (code.numbers_for asking.now) ≡ true) × (at ≤ 7) }
    ensures { wr.Puts at (wr.body_text (rq.layout_of layout)
        n (code.numbers_for asking.now)) room.old result room.new }
{
    match layout {
        Layout::Once(row) => {
            put_row(room, at, row, asking, 0);
            at + wide(row)
        }
        Layout::Counted(row) => {
            put_byte(room, at, b'0' + n as u8);
            put_times(room, at + 1, row, n, asking, 0);
            at + 1 + n * wide(row)
        }
        Layout::WithWords(row) => {
            put_row(room, at, row, asking, 0);
            let o = at + wide(row);
            put_times(room, o, word(), n, asking, numbers_in(row));
            o + 4 * n
        }
    }
}

// The text of what can be a request, after the opening.
pub(crate) fn put_text(room: &mut [u8], asking: &Asking) -> usize
    requires { (7 ≤ length room.old) × (4 + length (sk.ask_text (code.asking_of asking.now)) ≤ length
        room.old) × wr.Askable (code.asking_of asking.now) }
    ensures { wr.Puts 4 (sk.ask_text (code.asking_of asking.now))
        room.old result room.new }
{
    let e = entry(asking.command);
    let kind = e.kind;
    let name = e.name;
    let at = put_name(room, name);
    let n = listed(asking);
    put_body(room, at, layout(kind), n, asking)
}
