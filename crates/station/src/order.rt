// The order 1, 2, 3, which the stations of all formats share.
ghost use Rattle.std.specs.Prelude.{◌≡◌, ◌+◌, ◌≤◌, length, drop};
ghost use Rattle.rules.specs.Choice.{both, all_between};
ghost use Rattle.rules.specs.Given.{gives, refused};
ghost use Rattle.rules.specs.Tests.{first};
ghost use Rattle.station.specs.Site.{plain_site};
ghost use Rattle.station.specs.Station.{call_tests, ready_given};

use crate::Ready;
use rules::Refusal;
use table_addresses::TABLE_LIMIT;
use text_slices::and;

// Whether no attribute is above 3: the or of all is then not.
fn none_above_3(s: &[u8]) -> bool
    ensures { result ≡ all_between 0 3 s.now }
{
    let mut acc: u8 = 0;
    for attribute in s {
        acc |= *attribute;
    }
    acc <= 3
}

// The or of the 32 bytes from index at on into as many lanes: lanes and the bytes behind the 32 say of 3 what lanes and all from at on said.
fn or_into(lanes: &mut [u8], s: &[u8], at: usize)
    requires { (length lanes.old ≡ 32) × (at + 32 ≤ length s.now) }
    ensures { both (all_between 0 3 lanes.new) (all_between 0 3 (drop (at + 32) s.now))
        ≡ both (all_between 0 3 lanes.old) (all_between 0 3 (drop at s.now)) }
{
    for j in 0..32 {
        lanes[j] |= s[at + j];
    }
}

// Whether no byte of many is above 3: 256 a turn into lanes, and then the rest.
fn none_of_many_above_3(s: &[u8]) -> bool
    ensures { result ≡ all_between 0 3 s.now }
{
    let mut lanes = [0u8; 32];
    let turns = s.len() / 256;
    for i in 0..turns {
        for k in 0..8 {
            or_into(&mut lanes, s, 256 * i + 32 * k);
        }
    }
    and(none_above_3(&lanes), none_above_3(&s[256 * turns..]))
}

// Table, station and room, in this order: a table of at most so many words with as many attributes, none above 3; a station from 1 to the
// highest; a room of at least so many bytes. The first that is wrong is the answer.
pub fn ready(
    words: usize,
    attributes: &[u8],
    own: u32,
    highest: u32,
    least: usize,
    room: usize,
) -> Ready
    ensures { ready_given result ≡ first refused (call_tests highest least (plain_site attributes.now own) words room) (gives 0) }
{
    if words > TABLE_LIMIT as usize {
        return Ready::Refused(Refusal::TABLE);
    }
    if attributes.len() != words {
        return Ready::Refused(Refusal::TABLE);
    }
    // Of a part that is taken here the caller passes pointer and count by themselves, and not through memory.
    if !none_of_many_above_3(&attributes[..words]) {
        return Ready::Refused(Refusal::TABLE);
    }
    if own < 1 {
        return Ready::Refused(Refusal::STATION);
    }
    if own > highest {
        return Ready::Refused(Refusal::STATION);
    }
    if room < least {
        return Ready::Refused(Refusal::ROOM);
    }
    Ready::Fine
}
