// Answers as numbers: a length or a value as itself, a refusal below zero.
ghost use Rattle.std.specs.Prelude.{◌≡◌, ◌+◌, ◌<◌, pos};
ghost use Rattle.station.specs.Outcome.{given};
ghost use Rattle.mewtocol_writer.specs.Writing as writing;
ghost use Rattle.mewtocol_reader.specs.Replies as replies;
ghost use Rattle.jeulgopae_codes.specs.Codes.{minus, code, answer_code, reply_code, data_code, Small, SmallReply, SmallNumber, Short};

use mewtocol_reader::Reply;
use mewtocol_writer::Written;
use rules::Refusal;
use station::Answer;
use text_digits::Number;

// A length or a value, which has room below the sign.
pub fn number(n: usize) -> i32
    requires { n < 2147483648 }
    ensures { result ≡ pos n }
{
    n as i32
}

// A refusal's number, below zero.
pub fn refusal_code(why: Refusal) -> i32
    ensures { result ≡ minus why.0 }
{
    0 - why.number() as i32
}

// 13 and its place, in one number: below every other answer, as -130007 is 13 at place 7.
pub fn place_code(place: usize) -> i32
    requires { place < 65536 }
    ensures { result ≡ minus (130000 + place) }
{
    -130000 - place as i32
}

// A frame for all that was carried out is no refusal, but there is no reply either.
const CARRIED_OUT: i32 = -15;

// What a station's call gave.
pub fn answer_code(answer: Answer) -> i32
    requires { SmallReply (given answer) }
    ensures { result ≡ answer_code (given answer) }
{
    match answer {
        Answer::Reply(n) => number(n),
        Answer::CarriedOut => CARRIED_OUT,
        Answer::Refused(why) => refusal_code(why),
    }
}

// What a writer gave.
pub fn request_code(written: Written) -> i32
    requires { Small (writing.given written) }
    ensures { result ≡ code (writing.given written) }
{
    match written {
        Written::Frame(n) => number(n),
        Written::Refused(why) => refusal_code(why),
    }
}

// What was read: the data of a reply is all but the six characters before it, the check and CR.
pub fn reply_code(reply: Reply, frame: &[u8]) -> i32
    requires { Short (replies.read_of reply frame.now) frame.now }
    ensures { result ≡ reply_code (replies.read_of reply frame.now) }
{
    match reply {
        Reply::Shows => number(frame.len() - 9),
        Reply::Error(e) => -256 - e as i32,
        Reply::NotAsked(place) => place_code(place),
        Reply::Refused(why) => refusal_code(why),
    }
}

// A word or a contact of a reply.
pub fn data_code(n: Number) -> i32
    requires { SmallNumber n }
    ensures { result ≡ data_code n }
{
    match n {
        Number::Value(v) => number(v as usize),
        Number::NoDigitAt(_) => -1000,
    }
}
