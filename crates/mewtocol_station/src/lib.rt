// A MEWTOCOL station: one call is given a table, a station number, a frame and a room, and answers the frame.
// A frame's way: `read_frame` of mewtocol_requests says what it asks, `doing` does it, `replies` writes the reply.
#![tactic(auto)]

mod doing;
mod replies;

ghost use Rattle.std.specs.Prelude.{◌≡◌, List, ℕ, ◌≤◌, length};
ghost use Rattle.table_registers.specs.Profile.{verdict};
ghost use Rattle.station.specs.Site.{site_of, done};
ghost use Rattle.station.specs.Outcome.{Is, Served};
ghost use Rattle.station.specs.Station.{to_all, received, Fit};
ghost use Rattle.mewtocol_frame.specs.Frame.{Roomy};
ghost use Rattle.mewtocol_requests.specs.Hearing.{read_frame};
ghost use Rattle.mewtocol_station.specs.Replies.{reply_frame};
ghost use Rattle.mewtocol_station.specs.Station as st;

use doing::{carry_out, writes};
use mewtocol_frame::frame::{for_station, good_shape, limits_in};
use mewtocol_frame::{HIGHEST, LONGEST, Limits};
use mewtocol_requests::{Reading, read_frame};
use mewtocol_steps::MewtocolError;
use replies::{refuse, show};
use rules::Refusal;
use station::order::ready;
use station::{Answer, Ready, Whom};
use table_registers::{Profile, Verdict};
use text_slices::byte_at;

// Who replies: the form's first character, and the station.
#[derive(Clone, Copy)]
pub(crate) struct Sender {
    header: u8,
    own: u32,
}

// Whom a frame is for, where the station `own` hears it: exactly the characters `FF` name all stations.
#[tactic(auto, using(crate::proofs::Named::own_is_this, crate::proofs::Named::first_tells, crate::proofs::Named::second_tells, crate::proofs::Named::both_tell))]
pub fn whom(own: u32, frame: &[u8]) -> Whom
    ensures { result ≡ st.whom_in own frame.now }
{
    if for_station(own, frame) {
        return Whom::This;
    }
    if byte_at(frame, 1) != b'F' {
        return Whom::Other;
    }
    if byte_at(frame, 2) != b'F' {
        return Whom::Other;
    }
    Whom::All
}

// Answers what a frame asks: an error; or an operation, done whole, with its good reply, or refused whole.
fn serve(
    limits: Limits,
    words: &mut [u16],
    attributes: &[u8],
    profile: Profile,
    own: u32,
    frame: &[u8],
    reply: &mut [u8],
) -> usize
    requires { (limits.longest ≤ length reply.old) × Roomy limits }
    ensures { Served (reply_frame limits.header own)
        (done st.errors (verdict profile attributes.now) words.old (st.reading_asks (read_frame limits frame.now)))
        reply.old 0 result words.new reply.new }
{
    let mut contacts = [0u32; 8];
    let mut values = [0u8; 8];
    let sender = Sender {
        header: limits.header,
        own,
    };
    match read_frame(limits, frame, &mut contacts, &mut values) {
        Reading::Faulty(e) => refuse(reply, sender, e),
        Reading::Asks(request) => {
            match carry_out(
                words, attributes, profile, request, frame, &contacts, &values,
            ) {
                Verdict::Granted => show(words, request, &contacts, sender, reply),
                Verdict::Lacking(_) => refuse(reply, sender, MewtocolError::Address),
                Verdict::Unfit => refuse(reply, sender, MewtocolError::Data),
            }
        }
    }
}

// A frame that was sent to all: a write is carried out where it would have got a good reply, and no reply is made.
fn serve_all(
    limits: Limits,
    words: &mut [u16],
    attributes: &[u8],
    profile: Profile,
    frame: &[u8],
) -> Answer
    ensures { (room : List ℕ) → let a = st.reading_asks (read_frame limits frame.now) in
        Is (to_all words.old room a (done st.errors (verdict profile attributes.now) words.old a)) result words.new room }
{
    let mut contacts = [0u32; 8];
    let mut values = [0u8; 8];
    match read_frame(limits, frame, &mut contacts, &mut values) {
        Reading::Faulty(_) => Answer::Refused(Refusal::OTHER_STATION),
        Reading::Asks(request) => {
            if !writes(request) {
                return Answer::Refused(Refusal::OTHER_STATION);
            }
            let verdict = carry_out(
                words, attributes, profile, request, frame, &contacts, &values,
            );
            if verdict.is_granted() {
                Answer::CarriedOut
            } else {
                Answer::Refused(Refusal::OTHER_STATION)
            }
        }
    }
}

// Answers a frame where 1, 2 and 3 are not given: its shape, in the form that its first character says, and then whom it is for.
fn respond(
    words: &mut [u16],
    attributes: &[u8],
    profile: Profile,
    own: u32,
    frame: &[u8],
    reply: &mut [u8],
) -> Answer
    requires { Fit st.mewtocol own reply.old }
    ensures { Is (received st.mewtocol (site_of attributes.now profile own) words.old frame.now
        reply.old) result words.new reply.new }
{
    let limits = limits_in(frame);
    if !good_shape(limits, 8, frame) {
        return Answer::Refused(Refusal::SHAPE);
    }
    match whom(own, frame) {
        Whom::This => Answer::Reply(serve(limits, words, attributes, profile, own, frame, reply)),
        Whom::All => serve_all(limits, words, attributes, profile, frame),
        Whom::Other => Answer::Refused(Refusal::OTHER_STATION),
    }
}

// Answers one frame of either form at station `own`, whatever is given: 1, 2 and 3 in this order, then the frame. 10 and 12 mean silence, and so does a
// frame to all that was carried out. A reply of n bytes stands in the first n bytes of the room; a refusal, silence with a number and an
// error reply leave the words as they were.
pub fn station(
    words: &mut [u16],
    attributes: &[u8],
    profile: Profile,
    own: u32,
    frame: &[u8],
    reply: &mut [u8],
) -> Answer
    ensures { Is (st.mewtocol_station (site_of attributes.now profile own) words.old frame.now reply.old)
        result words.new reply.new }
{
    match ready(words.len(), attributes, own, HIGHEST, LONGEST, reply.len()) {
        Ready::Fine => respond(words, attributes, profile, own, frame, reply),
        Ready::Refused(number) => Answer::Refused(number),
    }
}
