// Function 08: what is wrong with a body of it, and the reply to it, an exception, the same bytes again or a count.
ghost use Rattle.std.specs.Prelude.{◌≡◌, List, ◌++◌, ℕ, ◌+◌, ◌≤◌, ltb, length, take};
ghost use Rattle.rules.specs.Given.{gives, refused};
ghost use Rattle.rules.specs.Tests.{first};
ghost use Rattle.text_rooms.specs.Room.{Put};
ghost use Rattle.table_registers.specs.Operation.{Judge};
ghost use Rattle.station.specs.Site.{done};
ghost use Rattle.modbus_body.specs.Bytes.{word_bytes};
ghost use Rattle.modbus_body.specs.Body.{exceptions, reply_to};
ghost use Rattle.modbus_counters.specs.Diagnosis as dg;

use crate::Counters;
use modbus_body::Exception;
use modbus_body::asking::word_at;
use modbus_body::replies::{echo, put_word, refuse};
use text_slices::byte_at;

// 00, and 0A to 0F, of all 16 bits.
#[tactic(auto, unfolding(crate::specs::Diagnosis::is_sub, rules::specs::Choice::between))]
fn is_sub(sub: u16) -> bool
    ensures { result ≡ dg.is_sub sub }
{
    sub == 0 || 0x0A <= sub && sub <= 0x0F
}

// The exception that a body of function 08 gets: it is too short, asks for a sub-function that none is, or has other data than it should.
fn fault_in(body: &[u8]) -> Option<Exception>
    ensures { dg.fault_given result ≡ first refused (dg.diagnosis_tests body.now) (gives 0) }
{
    if body.len() < 3 {
        return Some(Exception::Value);
    }
    let asked = word_at(body, 1);
    if !is_sub(asked) {
        return Some(Exception::Function);
    }
    if body.len() != 5 {
        return Some(Exception::Value);
    }
    if asked == 0 {
        return None;
    }
    if word_at(body, 3) != 0 {
        return Some(Exception::Value);
    }
    None
}

// The count that a sub-function of 0B to 0F asks for.
fn count_of(counters: Counters, sub: u16) -> u16
    ensures { result ≡ dg.count_at sub counters }
{
    match sub {
        0x0B => counters.bus,
        0x0C => counters.damaged,
        0x0D => counters.exceptions,
        0x0E => counters.own,
        _ => counters.unanswered,
    }
}

// The body's first three bytes again, and a word.
fn show(out: &mut [u8], at: usize, body: &[u8], n: u16) -> usize
    requires { at + 256 ≤ length out.old }
    ensures { Put out.old at (take 3 body.now ++ word_bytes n) result out.new }
{
    let three = echo(out, at, body, 3);
    put_word(out, at + three, n);
    three + 2
}

// The reply to a body of function 08, over counters in which its frame has counted, into the room from index at on.
pub fn diagnose(out: &mut [u8], at: usize, body: &[u8], counters: Counters) -> usize
    requires { at + 256 ≤ length out.old }
    ensures { (judge : Judge) (words : List ℕ) → Put out.old at (reply_to body.now
        (done exceptions judge words (dg.diagnosed counters body.now)).says) result out.new }
{
    match fault_in(body) {
        Some(e) => refuse(out, at, body, e.number()),
        None => {
            let sub = word_at(body, 1);
            if sub <= 0x0A {
                return echo(out, at, body, 5);
            }
            show(out, at, body, count_of(counters, sub))
        }
    }
}

// Whether a body asks that the counters be cleared.
pub fn asks_clear(body: &[u8]) -> bool
    ensures { result ≡ dg.asks_clear body.now }
{
    byte_at(body, 0) == 0x08 && word_at(body, 1) == 0x0A
}

// What a reply leaves of the counters, told by the reply's first byte: an exception's has its top bit set.
pub fn replied(counters: Counters, body: &[u8], first: u8) -> Counters
    ensures { result ≡ dg.replied (ltb first 0x80) body.now counters }
{
    if first >= 0x80 {
        return counters.excepted();
    }
    if asks_clear(body) {
        return Counters::cleared();
    }
    counters
}
