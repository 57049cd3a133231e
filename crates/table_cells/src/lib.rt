// The cells that an operation may read and write, and whether those of two operations meet. A cell is a bit of a word: bit b of word k is 16 k + b.
#![tactic(auto)]

pub mod mask;
pub mod meet;
pub mod touch;

// Whether the cells of two requests meet, and at which cell first.
#[derive(Clone, Copy)]
pub enum Meeting {
    Never,
    At(u32),
}

// The cells that a request may touch: the first `runs` of these cells, and with each those after it, `each` cells in all. `way` says what is
// done with them, in the numbers of an attribute: 0 nothing, 1 read, 2 write, 3 both.
// Numbers and an array with a count, as specs/Touched reads them: the engine has fixed memory.
#[derive(Clone, Copy)]
pub struct Touched {
    pub way: u8,
    pub runs: u8,
    pub each: u32,
    pub firsts: [u32; 8],
}
