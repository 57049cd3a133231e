// The register table: the address check and what a read shows. The definitions of the operations that any request of any protocol comes
// down to stand here too; `table_word_writes` and `table_bit_writes` do those that write, and nothing else in the engine writes a register.
#![tactic(auto)]

pub mod check;
pub mod reads;

ghost use Rattle.std.specs.Prelude.{◌≡◌};
ghost use Rattle.table_registers.specs.Operation.{is_granted};

// What is said of an operation before anything is done: done whole; or refused whole, since the word at a place among those that it
// names, counted from 0, is not there or lacks what is needed, or since it would leave a register as the profile doesn't allow.
#[derive(Clone, Copy)]
pub enum Verdict {
    Granted,
    Lacking(usize),
    Unfit,
}

impl Verdict {
    pub fn is_granted(self) -> bool
        ensures { result ≡ is_granted self }
    {
        matches!(self, Verdict::Granted)
    }
}

// What a head takes besides what the attributes grant: no limits, or those of the HL-G2, 50 mm type.
#[derive(Clone, Copy)]
pub enum Profile {
    Free,
    HlG2,
}
