// The laser head's frames.
ghost use Rattle.std.specs.Prelude.{◌≡◌, ◌+◌, ◌*◌, ◌<◌, pos};
ghost use Rattle.laser.specs.Frame as fr;
ghost use Rattle.jeulgopae_codes.specs.Codes.{code, laser_code, distance_code, Small};
ghost use Rattle.jeulgopae.specs.Codes.{LaserWrites};

use jeulgopae_codes::codes::{number, place_code, refusal_code};
use laser::{Distance, Reading, Written, read_distance, read_frame, write_frame};

// Two command bytes and a count below 256 in one number.
fn layout(first: u8, second: u8, count: usize) -> i32
    requires { count < 256 }
    ensures { result ≡ pos (65536 * first + 256 * second + count) }
{
    number(65536 * first as usize + 256 * second as usize + count)
}

// Reads a frame.
#[unsafe(no_mangle)]
pub extern "C" fn jeulgopae_laser_read(frame: &[u8]) -> i32
    ensures { result ≡ laser_code (fr.read frame.now) }
{
    match read_frame(frame) {
        Reading::Frame(first, second) => layout(first, second, frame.len() - 8),
        Reading::Refused(why) => refusal_code(why),
    }
}

fn frame_code(written: Written) -> i32
    requires { Small (fr.given_written written) }
    ensures { result ≡ code (fr.given_written written) }
{
    match written {
        Written::Frame(n) => number(n),
        Written::Refused(why) => refusal_code(why),
    }
}

// Writes a frame.
#[unsafe(no_mangle)]
pub extern "C" fn jeulgopae_laser_write(first: u8, second: u8, bytes: &[u8], room: &mut [u8]) -> i32
    ensures { LaserWrites (fr.write room.old first second bytes.now) result room.new }
{
    frame_code(write_frame(room, first, second, bytes))
}

// The distance that a frame tells.
#[unsafe(no_mangle)]
pub extern "C" fn jeulgopae_laser_distance(frame: &[u8]) -> i32
    ensures { result ≡ distance_code (fr.distance_of frame.now) }
{
    match read_distance(frame) {
        Distance::Hundredths(v) => number(v as usize),
        Distance::NotAsked(place) => place_code(place),
        Distance::Refused(why) => refusal_code(why),
    }
}
