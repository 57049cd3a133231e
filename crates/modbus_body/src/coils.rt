// Coils: 01, 05 and 0F.
ghost use Rattle.std.specs.Prelude.{◌≡◌, ◌∷◌, map, ◌+◌, ◌≤◌, ◌<◌, length};
ghost use Rattle.text_rooms.specs.Room.{overwrite, Put};
ghost use Rattle.table_registers.specs.Table.{up_from};
ghost use Rattle.table_registers.specs.Bits.{cell_at};
ghost use Rattle.table_registers.specs.Profile.{verdict};
ghost use Rattle.table_registers.specs.declared.Profile.{Profile};
ghost use Rattle.station.specs.Site.{done};
ghost use Rattle.station.specs.Outcome.{Served};
ghost use Rattle.modbus_body.specs.Bytes.{bytes_for, byte_of, packed, counted};
ghost use Rattle.modbus_body.specs.Body as bd;
ghost use Rattle.modbus_body.specs.Body.{function};
ghost use Rattle.modbus_body.specs.Said.{left};

use crate::Exception;
use crate::asking::{coil_at, good_coil, good_read, good_write, word_at};
use crate::replies::{refuse, told};
use table_registers::Verdict;
use table_registers::check::first_lacking_coil;
use table_registers::reads::cell_at;
use text_slices::{byte_at, rest};

// At most eight cells in one byte.
fn byte_of(words: &[u16], cell: usize, count: usize) -> u8
    requires { (count ≤ 8) × (cell < 100000) }
    ensures { result ≡ byte_of (map (cell_at words.now) (up_from cell count)) }
{
    let mut v = 0;
    for i in (0..count).rev() {
        v = 2 * v + cell_at(words, cell + i);
    }
    v
}

// A run of cells, eight to a byte.
fn put_run(out: &mut [u8], at: usize, words: &[u16], cell: usize, count: usize)
    requires { (at + bytes_for count ≤ length out.old) × (cell < 90000) × (count ≤ 2000) }
    ensures { out.new ≡ overwrite out.old at (packed (bytes_for count) (map (cell_at words.now) (up_from cell count))) }
{
    for j in 0..count.div_ceil(8) {
        out[at + j] = byte_of(words, cell + 8 * j, (count - 8 * j).min(8));
    }
}

// The function, a count and coils.
fn show_cells(
    out: &mut [u8],
    at: usize,
    body: &[u8],
    words: &[u16],
    cell: usize,
    count: usize,
) -> usize
    requires { (at + 256 ≤ length out.old) × (cell < 90000) × (count ≤ 2000) }
    ensures { Put out.old at (function body.now
        ∷ counted (packed (bytes_for count) (map (cell_at words.now) (up_from cell count)))) result out.new }
{
    let n = count.div_ceil(8);
    out[at] = byte_at(body, 0);
    out[at + 1] = n as u8;
    put_run(out, at + 2, words, cell, count);
    2 + n
}

// 01.
pub(crate) fn read_coils(
    words: &[u16],
    attributes: &[u8],
    body: &[u8],
    out: &mut [u8],
    at: usize,
) -> usize
    requires { at + 256 ≤ length out.old }
    ensures { (p : Profile) → Served (bd.reply_to body.now) (done bd.exceptions (verdict p attributes.now) words.now
        (bd.asks_by bd.read_coils body.now)) out.old at result words.now out.new }
{
    if !good_read(body, 2000) {
        return refuse(out, at, body, Exception::Value.number());
    }
    let first = coil_at(body);
    let count = word_at(body, 3);
    match first_lacking_coil(words.len(), attributes, 1, first, count as u32) {
        Verdict::Granted => show_cells(out, at, body, words, first.cell(), count as usize),
        Verdict::Lacking(_) => refuse(out, at, body, Exception::Address.number()),
        Verdict::Unfit => refuse(out, at, body, Exception::Value.number()),
    }
}

// 05: the first bit of FF00h sets the coil, that of 0000h clears it.
pub(crate) fn write_coil(words: &mut [u16], attributes: &[u8], body: &[u8]) -> Result<u8, Exception>
    ensures { (p : Profile) → done bd.exceptions (verdict p attributes.now) words.old (bd.asks_by bd.write_coil body.now) ≡
        left body.now result words.new }
{
    if !good_coil(body) {
        return Err(Exception::Value);
    }
    told(
        table_bit_writes::write_coils(words, attributes, coil_at(body), 1, rest(body, 3)),
        5,
    )
}

// 0F.
pub(crate) fn write_coils(
    words: &mut [u16],
    attributes: &[u8],
    body: &[u8],
) -> Result<u8, Exception>
    ensures { (p : Profile) → done bd.exceptions (verdict p attributes.now) words.old (bd.asks_by bd.write_coils body.now) ≡
        left body.now result words.new }
{
    let count = word_at(body, 3);
    if !good_write(body, 1968, (count as usize).div_ceil(8)) {
        return Err(Exception::Value);
    }
    told(
        table_bit_writes::write_coils(
            words,
            attributes,
            coil_at(body),
            count as u32,
            rest(body, 6),
        ),
        5,
    )
}
