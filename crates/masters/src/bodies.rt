// The cells of a Modbus body, by its function: a body that is wrong touches none, and function 08 nothing of the table.
ghost use Rattle.std.specs.Prelude.{◌≤◌, length};
ghost use Rattle.table_addresses.specs.Catalogue.{address_of, table_limit};
ghost use Rattle.table_registers.specs.Operation.{write_words, words_of_bytes};
ghost use Rattle.table_registers.specs.Profile.{verdict};
ghost use Rattle.table_cells.specs.Touched.{Touches, operation_cells};
ghost use Rattle.modbus_body.specs.Body as bd;
ghost use Rattle.masters.specs.Asking.{own_cells};

use modbus_body::asking::{coil_at, good_coil, good_read, good_write, register_at, word_at};
use table_addresses::{Area, FrameAddress};
use table_cells::Touched;
use table_cells::mask::mask_may_pass;
use table_cells::touch::{coils_touched, nothing, words_touched};
use table_profiles::{Data, taken};
use table_registers::Profile;
use text_slices::{byte_at, rest};

// 01.
fn coils_read(attributes: &[u8], body: &[u8]) -> Touched
    ensures { (p : Profile) → Touches result (own_cells attributes.now p (bd.asks_by bd.read_coils body.now)) }
{
    if !good_read(body, 2000) {
        return nothing();
    }
    coils_touched(1, attributes, coil_at(body), word_at(body, 3) as u32)
}

// 03.
fn registers_read(attributes: &[u8], body: &[u8]) -> Touched
    requires { length attributes.now ≤ table_limit }
    ensures { (p : Profile) → Touches result (own_cells attributes.now p (bd.asks_by bd.read_registers body.now)) }
{
    if !good_read(body, 125) {
        return nothing();
    }
    let count = word_at(body, 3) as usize;
    words_touched(
        1,
        attributes,
        Area::Registers,
        register_at(body),
        count,
        true,
    )
}

// 05.
fn coil_written(attributes: &[u8], body: &[u8]) -> Touched
    ensures { (p : Profile) → Touches result (own_cells attributes.now p (bd.asks_by bd.write_coil body.now)) }
{
    if !good_coil(body) {
        return nothing();
    }
    coils_touched(2, attributes, coil_at(body), 1)
}

// So many words, given as bytes, high byte first.
fn bytes_written(
    attributes: &[u8],
    profile: Profile,
    first: FrameAddress,
    bytes: &[u8],
    count: usize,
) -> Touched
    requires { length attributes.now ≤ table_limit }
    ensures { Touches result (operation_cells (verdict profile attributes.now) (length attributes.now)
        (write_words Area.Registers (address_of first) (words_of_bytes count bytes.now))) }
{
    let fits = taken(profile, Data::Bytes, bytes, first.word(), count);
    words_touched(2, attributes, Area::Registers, first, count, fits)
}

// 06.
fn register_written(attributes: &[u8], profile: Profile, body: &[u8]) -> Touched
    requires { length attributes.now ≤ table_limit }
    ensures { Touches result (own_cells attributes.now profile (bd.asks_by bd.write_register body.now)) }
{
    if body.len() != 5 {
        return nothing();
    }
    bytes_written(attributes, profile, register_at(body), rest(body, 3), 1)
}

// 0F.
fn coils_written(attributes: &[u8], body: &[u8]) -> Touched
    ensures { (p : Profile) → Touches result (own_cells attributes.now p (bd.asks_by bd.write_coils body.now)) }
{
    let count = word_at(body, 3);
    if !good_write(body, 1968, (count as usize + 7) / 8) {
        return nothing();
    }
    coils_touched(2, attributes, coil_at(body), count as u32)
}

// 10h.
fn registers_written(attributes: &[u8], profile: Profile, body: &[u8]) -> Touched
    requires { length attributes.now ≤ table_limit }
    ensures { Touches result (own_cells attributes.now profile (bd.asks_by bd.write_registers body.now)) }
{
    let count = word_at(body, 3) as usize;
    if !good_write(body, 123, 2 * count) {
        return nothing();
    }
    bytes_written(attributes, profile, register_at(body), rest(body, 6), count)
}

// 16h: it reads the word and writes it.
fn register_masked(attributes: &[u8], profile: Profile, body: &[u8]) -> Touched
    requires { length attributes.now ≤ table_limit }
    ensures { Touches result (own_cells attributes.now profile (bd.asks_by bd.mask_register body.now)) }
{
    if body.len() != 7 {
        return nothing();
    }
    let word = register_at(body);
    let fits = mask_may_pass(profile, word, word_at(body, 3), word_at(body, 5));
    words_touched(3, attributes, Area::Registers, word, 1, fits)
}

// Any function.
pub(crate) fn body_touched(attributes: &[u8], profile: Profile, body: &[u8]) -> Touched
    requires { length attributes.now ≤ table_limit }
    ensures { Touches result (own_cells attributes.now profile (bd.body_asks bd.functions body.now)) }
{
    let function = byte_at(body, 0);
    match function {
        0x01 => coils_read(attributes, body),
        0x03 => registers_read(attributes, body),
        0x05 => coil_written(attributes, body),
        0x06 => register_written(attributes, profile, body),
        0x0F => coils_written(attributes, body),
        0x10 => registers_written(attributes, profile, body),
        0x16 => register_masked(attributes, profile, body),
        _ => nothing(),
    }
}
