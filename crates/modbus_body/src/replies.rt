// The body of a reply, written into the room.
ghost use Rattle.std.specs.Prelude.{◌≡◌, List, [], ◌∷◌, ℕ, ◌+◌, ◌*◌, ◌/◌, ◌%◌, ◌≤◌, length, take};
ghost use Rattle.text_rooms.specs.Room.{overwrite, Put};
ghost use Rattle.station.specs.Site.{said};
ghost use Rattle.modbus_body.specs.Bytes.{word_bytes, bytes_of_words, counted};
ghost use Rattle.modbus_body.specs.Body.{exception, function, exceptions, reply_to};
ghost use Rattle.modbus_body.specs.Said.{says_of};

use crate::Exception;
use table_registers::Verdict;
use table_word_writes::exchanged;
use text_rooms::put_part;
use text_slices::{byte_at, part_of};

// An exception.
pub fn refuse(out: &mut [u8], at: usize, body: &[u8], e: u8) -> usize
    requires { at + 256 ≤ length out.old }
    ensures { Put out.old at (exception body.now e) result out.new }
{
    out[at] = byte_at(body, 0) | 0x80;
    out[at + 1] = e;
    2
}

// The body's first n bytes again, or as many as it has.
pub fn echo(out: &mut [u8], at: usize, body: &[u8], n: usize) -> usize
    requires { at + n ≤ length out.old }
    ensures { Put out.old at (take n body.now) result out.new }
{
    let part = part_of(body, 0, n);
    put_part(out, at, part);
    part.len()
}

// What is said of a write on which this is the verdict: n bytes of the request again, exception 02, or 03 where the profile doesn't take it.
pub(crate) fn told(verdict: Verdict, n: u8) -> Result<u8, Exception>
    ensures { (body : List ℕ) → says_of body result ≡ said exceptions (take n body) verdict }
{
    match verdict {
        Verdict::Granted => Ok(n),
        Verdict::Lacking(_) => Err(Exception::Address),
        Verdict::Unfit => Err(Exception::Value),
    }
}

// The reply to a write.
pub(crate) fn settle(out: &mut [u8], at: usize, body: &[u8], said: Result<u8, Exception>) -> usize
    requires { at + 256 ≤ length out.old }
    ensures { Put out.old at (reply_to body.now (says_of body.now said)) result out.new }
{
    match said {
        Ok(n) => echo(out, at, body, n as usize),
        Err(e) => refuse(out, at, body, e.number()),
    }
}

// A word as two bytes, low byte first: as a function of its own it becomes one access.
fn put_low_first(out: &mut [u8], o: usize, w: u16)
    requires { o + 2 ≤ length out.old }
    ensures { out.new ≡ overwrite out.old o (w % 256 ∷ w / 256 ∷ []) }
{
    out[o] = (w % 256) as u8;
    out[o + 1] = (w / 256) as u8;
}

// A word as two bytes, high byte first.
pub fn put_word(out: &mut [u8], at: usize, w: u16)
    requires { at + 2 ≤ length out.old }
    ensures { out.new ≡ overwrite out.old at (word_bytes w) }
{
    put_low_first(out, at, exchanged(w));
}

// Words, one after the other. `put_pairs` of modbus_ascii is as short over bytes: one function over a closure that writes each would be no shorter.
fn put_words(out: &mut [u8], at: usize, ws: &[u16])
    requires { at + 2 * length ws.now ≤ length out.old }
    ensures { out.new ≡ overwrite out.old at (bytes_of_words ws.now) }
{
    for (i, w) in ws.iter().enumerate() {
        put_word(out, at + 2 * i, *w);
    }
}

// The function, a count and words.
pub(crate) fn show_words(out: &mut [u8], at: usize, body: &[u8], ws: &[u16]) -> usize
    requires { (at + 256 ≤ length out.old) × (length ws.now ≤ 125) }
    ensures { Put out.old at (function body.now ∷ counted (bytes_of_words ws.now)) result out.new }
{
    out[at] = byte_at(body, 0);
    out[at + 1] = (2 * ws.len()) as u8;
    put_words(out, at + 2, ws);
    2 + 2 * ws.len()
}
