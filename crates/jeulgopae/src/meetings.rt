// Two masters on one table.
ghost use Rattle.std.specs.Prelude.{◌≡◌};
ghost use Rattle.jeulgopae_codes.specs.Asks.{profile_of};
ghost use Rattle.jeulgopae_masters.specs.Codes.{formats_of, meeting_by};

use jeulgopae_masters::meeting_number;

// Where two frames meet first, each at the station that hears it.
#[unsafe(no_mangle)]
pub extern "C" fn jeulgopae_meeting(
    attributes: &[u8],
    profile: u32,
    one_format: u32,
    one_own: u32,
    one_frame: &[u8],
    other_format: u32,
    other_own: u32,
    other_frame: &[u8],
) -> i32
    ensures { result ≡ meeting_by (profile_of profile) (formats_of one_format other_format) attributes.now one_own one_frame.now
        other_own other_frame.now }
{
    meeting_number(
        attributes,
        profile,
        one_format,
        one_own,
        one_frame,
        other_format,
        other_own,
        other_frame,
    )
}
