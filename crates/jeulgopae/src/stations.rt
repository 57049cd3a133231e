// The three stations. Those of Modbus are lent the counters of their line, which the engine takes and gives back by value.
ghost use Rattle.std.specs.Prelude.{◌≡◌};
ghost use Rattle.modbus_rtu.specs.Rtu.{rtu};
ghost use Rattle.modbus_ascii.specs.Ascii.{ascii};
ghost use Rattle.jeulgopae_codes.specs.Codes.{answer_code};
ghost use Rattle.jeulgopae_codes.specs.Asks.{profile_of};
ghost use Rattle.jeulgopae.specs.Codes.{StandsBy, CountedBy};

use jeulgopae_codes::asks::{Chosen, profile_of};
use jeulgopae_codes::codes::answer_code;
use mewtocol_station::station;
use modbus_ascii::ascii_station;
use modbus_counters::Counters;
use modbus_rtu::rtu_station;

// A number that names no profile gets this answer, which no rule gives, and nothing happens.
const UNKNOWN_PROFILE: i32 = -2000;

// Answers a MEWTOCOL request, under the profile that a number chooses.
#[unsafe(no_mangle)]
pub extern "C" fn jeulgopae_mewtocol_station(
    words: &mut [u16],
    attributes: &[u8],
    profile: u32,
    own: u32,
    frame: &[u8],
    room: &mut [u8],
) -> i32
    ensures { StandsBy (profile_of profile) attributes.now own words.old frame.now room.old
        result words.new room.new }
{
    let Chosen::Named(p) = profile_of(profile) else {
        return UNKNOWN_PROFILE;
    };
    answer_code(station(words, attributes, p, own, frame, room))
}

// Answers a Modbus RTU request. The host lends its line's counters, and finds in them what they are after the call.
#[unsafe(no_mangle)]
pub extern "C" fn jeulgopae_rtu_station(
    words: &mut [u16],
    attributes: &[u8],
    profile: u32,
    own: u32,
    frame: &[u8],
    room: &mut [u8],
    counters: &mut Counters,
) -> i32
    ensures { CountedBy (profile_of profile) rtu counters.old attributes.now own words.old frame.now
        room.old result words.new room.new counters.new }
{
    let Chosen::Named(p) = profile_of(profile) else {
        return UNKNOWN_PROFILE;
    };
    let call = rtu_station(words, attributes, p, own, frame, room, *counters);
    *counters = call.counters;
    answer_code(call.answer)
}

// Answers a Modbus ASCII request, as `jeulgopae_rtu_station` does: a function over both would take the station and all seven parameters, for six lines.
#[unsafe(no_mangle)]
pub extern "C" fn jeulgopae_ascii_station(
    words: &mut [u16],
    attributes: &[u8],
    profile: u32,
    own: u32,
    frame: &[u8],
    room: &mut [u8],
    counters: &mut Counters,
) -> i32
    ensures { CountedBy (profile_of profile) ascii counters.old attributes.now own words.old frame.now
        room.old result words.new room.new counters.new }
{
    let Chosen::Named(p) = profile_of(profile) else {
        return UNKNOWN_PROFILE;
    };
    let call = ascii_station(words, attributes, p, own, frame, room, *counters);
    *counters = call.counters;
    answer_code(call.answer)
}
