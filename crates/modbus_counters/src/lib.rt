// The five counters of a Modbus line: what a frame counts before it is answered, what its reply leaves of them, and function 08, by
// which a master reads and clears them. They belong to the host; every call is given them and gives them back.
#![tactic(auto)]

pub mod diagnosis;

ghost use Rattle.std.specs.Prelude.{◌≡◌};
ghost use Rattle.modbus_counters.specs.Counters as cs;

use rules::Refusal;
use station::Whom;

// Each stops at FFFFh.
#[repr(C)]
#[derive(Clone, Copy)]
pub struct Counters {
    // 0B: frames with a right check, for whatever station
    pub bus: u16,
    // 0C: frames with a wrong check
    pub damaged: u16,
    // 0D: exceptions that went out
    pub exceptions: u16,
    // 0E: frames to the own station, or to all
    pub own: u16,
    // 0F: frames to all
    pub unanswered: u16,
}

// One more, up to FFFFh.
#[tactic(auto, unfolding(crate::specs::Counters::more))]
fn more(n: u16) -> u16
    ensures { result ≡ cs.more n }
{
    n.saturating_add(1)
}

impl Counters {
    // All five at zero.
    pub fn cleared() -> Counters
        ensures { result ≡ cs.cleared }
    {
        Counters {
            bus: 0,
            damaged: 0,
            exceptions: 0,
            own: 0,
            unanswered: 0,
        }
    }

    // After a frame that a number stopped before its station was looked at: a wrong check counts, nothing else does.
    pub fn stopped(self, why: Refusal) -> Counters
        ensures { result ≡ cs.counted (cs.stopped why.0) self }
    {
        if why.number() != 11 {
            return self;
        }
        Counters {
            damaged: more(self.damaged),
            ..self
        }
    }

    // After a frame whose check is right and that is for this station, for all or for another, before it is answered.
    #[tactic(auto, unfolding(crate::specs::Counters::counted))]
    pub fn heard(self, whom: Whom) -> Counters
        ensures { result ≡ cs.counted (cs.came whom) self }
    {
        let bus = more(self.bus);
        match whom {
            Whom::This => Counters {
                bus,
                own: more(self.own),
                ..self
            },
            Whom::All => Counters {
                bus,
                own: more(self.own),
                unanswered: more(self.unanswered),
                ..self
            },
            Whom::Other => Counters { bus, ..self },
        }
    }

    // After an exception went out.
    #[tactic(auto, unfolding(crate::specs::Counters::excepted))]
    pub fn excepted(self) -> Counters
        ensures { result ≡ cs.excepted self }
    {
        Counters {
            exceptions: more(self.exceptions),
            ..self
        }
    }
}
