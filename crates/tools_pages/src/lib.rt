// Text gathered in a lent page, so that an answer goes out in one piece and a write that fails is noticed. Nothing of the engine stands on
// it. Each function is proved to stay within what it is lent; what a program prints is held to its stored output.
#![tactic(auto)]

use std::io;
use std::io::Write;
use text_slices::part_of;
use tools_typed::push;

// A text behind the first n bytes of a page, as far as there is room; how many there are then.
pub fn add(page: &mut [u8], n: usize, text: &[u8]) -> usize {
    let mut at = n;
    for byte in text {
        at = push(page, at, *byte);
    }
    at
}

// The first n bytes of a page, in one piece, and all that was written before them; an error where not all went out.
pub fn send(out: &mut impl Write, page: &[u8], n: usize) -> io::Result<()> {
    out.write_all(part_of(page, 0, n))?;
    out.flush()
}
