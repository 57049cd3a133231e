// The words in which every rule of the engine is written: choices by a test, tests in a row, what a call gives back, and why it
// refuses. Read specs/; all crates share them.
#![tactic(auto)]

ghost use Rattle.std.specs.Prelude.{◌≡◌};

// What ends a line: MEWTOCOL's CR, and CR LF of Modbus ASCII.
pub const CR: u8 = 13;

pub const LF: u8 = 10;

// Why a call refuses, or is silent: a number of the rules' table. Which of them an entry can give is a statement of `claims`.
#[derive(Clone, Copy)]
pub struct Refusal(u8);

impl Refusal {
    // Too many words, attributes that are not as many as the words, or an attribute above 3.
    pub const TABLE: Refusal = Refusal(1);

    // The own or the addressed station is out of its range.
    pub const STATION: Refusal = Refusal(2);

    // The room for a reply or a request is too small.
    pub const ROOM: Refusal = Refusal(3);

    // A number or an address outside the conversion's ranges.
    pub const RANGE: Refusal = Refusal(5);

    // The frames whose bits are compared differ in length, or are too long.
    pub const LENGTHS: Refusal = Refusal(6);

    pub const SHAPE: Refusal = Refusal(10);

    pub const CHECK: Refusal = Refusal(11);

    // For or from another station.
    pub const OTHER_STATION: Refusal = Refusal(12);

    // A good frame, but not a reply to what was asked.
    pub const NOT_ASKED: Refusal = Refusal(13);

    // What is asked for can't be a request.
    pub const NO_REQUEST: Refusal = Refusal(14);

    // A catalogue file that can't be read.
    pub const MALFORMED: Refusal = Refusal(20);

    // A catalogue file with a fifth level of groups.
    pub const TOO_DEEP: Refusal = Refusal(21);

    // Two runs of a catalogue file meet along one chain, or an address is beyond the lent bytes.
    pub const MEETING: Refusal = Refusal(22);

    // A name stands twice in a catalogue file.
    pub const NAME_TWICE: Refusal = Refusal(23);

    // No group of a catalogue file has the asked name.
    pub const NOT_FOUND: Refusal = Refusal(24);

    pub fn number(self) -> u8
        ensures { result ≡ self.0 }
    {
        self.0
    }
}
