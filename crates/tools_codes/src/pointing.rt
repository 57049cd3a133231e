// A frame with one of its characters pointed at, as compilers do.
use std::io;
use std::io::Write;
use tools_printing::put;

// What stands for a character in one column: itself, or a dot where it can't be printed.
fn column(b: u8) -> u8 {
    match b {
        b' '..=b'~' => b,
        _ => b'.',
    }
}

// A frame and a `^` below a place of it: what may stand there, or, where the place is the frame's length, what is wrong with the whole.
pub fn print_pointed(
    out: &mut impl Write,
    frame: &[u8],
    at: usize,
    here: &[u8],
    whole: &[u8],
) -> io::Result<()> {
    put(out, b"  frame     ")?;
    for b in frame {
        put(out, &[column(*b)])?;
    }
    put(out, b"\n            ")?;
    for _ in 0..at {
        put(out, b" ")?;
    }
    if at < frame.len() {
        write!(out, "^ place {at}, counted from 0: ")?;
        put(out, here)?;
    } else {
        put(out, b"^ no one character is wrong: ")?;
        put(out, whole)?;
    }
    put(out, b"\n")
}
