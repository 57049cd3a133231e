// The two MEWTOCOL frame forms, as a station and a host share them: `frame` looks at an envelope and opens one, `text` has what the
// texts of requests and replies are made of.
#![tactic(auto)]

pub mod frame;
pub mod text;

ghost use Rattle.std.specs.Prelude.{◌≡◌};
ghost use Rattle.mewtocol_frame.specs.Frame.{limits_of};

// The highest station number; the lowest is 1.
pub const HIGHEST: u32 = 99;

// The longest frame of all forms: the room that a reply in any of them may take.
pub const LONGEST: usize = 2048;

// A form of frame: `%`, or `<` for the expanded one.
#[derive(Clone, Copy)]
pub enum Form {
    Ordinary,
    Expanded,
}

// What a form of frame allows: its first character, its longest frame, and how many words a request may read and write.
#[derive(Clone, Copy)]
pub struct Limits {
    pub header: u8,
    pub longest: usize,
    pub reads: u32,
    pub writes: u32,
}

impl Limits {
    // `%`, 118 characters, 27 words read, 24 written; `<`, 2,048 characters, 509 and 507.
    pub fn of(form: Form) -> Limits
        ensures { result ≡ limits_of form }
    {
        match form {
            Form::Ordinary => Limits {
                header: b'%',
                longest: 118,
                reads: 27,
                writes: 24,
            },
            Form::Expanded => Limits {
                header: b'<',
                longest: LONGEST,
                reads: 509,
                writes: 507,
            },
        }
    }
}
