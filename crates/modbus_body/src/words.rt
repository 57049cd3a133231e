// Registers: 03, 06, 10h and 16h.
ghost use Rattle.std.specs.Prelude.{◌≡◌, ◌+◌, ◌≤◌, length};
ghost use Rattle.table_registers.specs.Profile.{verdict};
ghost use Rattle.station.specs.Site.{done};
ghost use Rattle.station.specs.Outcome.{Served};
ghost use Rattle.modbus_body.specs.Body as bd;
ghost use Rattle.modbus_body.specs.Said.{left};

use crate::Exception;
use crate::asking::{good_read, good_write, register_at, word_at};
use crate::replies::{refuse, show_words, told};
use table_addresses::Area;
use table_registers::check::first_lacking;
use table_registers::reads::words_from;
use table_registers::{Profile, Verdict};
use table_word_writes::{fill_words, mask_word, write_bytes};
use text_slices::rest;

// 03.
pub(crate) fn read_registers(
    words: &[u16],
    attributes: &[u8],
    body: &[u8],
    out: &mut [u8],
    at: usize,
) -> usize
    requires { at + 256 ≤ length out.old }
    ensures { (p : Profile) → Served (bd.reply_to body.now) (done bd.exceptions (verdict p attributes.now) words.now
        (bd.asks_by bd.read_registers body.now)) out.old at result words.now out.new }
{
    if !good_read(body, 125) {
        return refuse(out, at, body, Exception::Value.number());
    }
    let first = register_at(body);
    let count = word_at(body, 3) as usize;
    match first_lacking(words.len(), attributes, Area::Registers, 1, first, count) {
        Verdict::Granted => show_words(out, at, body, words_from(words, first, count)),
        Verdict::Lacking(_) => refuse(out, at, body, Exception::Address.number()),
        Verdict::Unfit => refuse(out, at, body, Exception::Value.number()),
    }
}

// 06.
pub(crate) fn write_register(
    words: &mut [u16],
    attributes: &[u8],
    profile: Profile,
    body: &[u8],
) -> Result<u8, Exception>
    ensures { done bd.exceptions (verdict profile attributes.now) words.old (bd.asks_by bd.write_register body.now) ≡
        left body.now result words.new }
{
    if body.len() != 5 {
        return Err(Exception::Value);
    }
    let word = register_at(body);
    told(
        fill_words(words, attributes, profile, word, 1, word_at(body, 3)),
        5,
    )
}

// 10h.
pub(crate) fn write_registers(
    words: &mut [u16],
    attributes: &[u8],
    profile: Profile,
    body: &[u8],
) -> Result<u8, Exception>
    ensures { done bd.exceptions (verdict profile attributes.now) words.old (bd.asks_by bd.write_registers body.now) ≡
        left body.now result words.new }
{
    let count = word_at(body, 3) as usize;
    if !good_write(body, 123, 2 * count) {
        return Err(Exception::Value);
    }
    told(
        write_bytes(words, attributes, profile, register_at(body), rest(body, 6)),
        5,
    )
}

// 16h.
pub(crate) fn mask_register(
    words: &mut [u16],
    attributes: &[u8],
    profile: Profile,
    body: &[u8],
) -> Result<u8, Exception>
    ensures { done bd.exceptions (verdict profile attributes.now) words.old (bd.asks_by bd.mask_register body.now) ≡
        left body.now result words.new }
{
    if body.len() != 7 {
        return Err(Exception::Value);
    }
    let word = register_at(body);
    told(
        mask_word(
            words,
            attributes,
            profile,
            word,
            word_at(body, 3),
            word_at(body, 5),
        ),
        7,
    )
}
