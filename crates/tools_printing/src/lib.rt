// What the programs print with, to a writer that `main` gives them for standard output, and how they complain, to one for standard error.
// A write that fails ends in its error, and nothing else does: what went out before it stays, and the writer alone has changed. Nothing of
// the engine stands on it. Each function is proved to stay within what it is lent; what a program prints is held to its stored output.
#![tactic(auto)]

use rules::Refusal;
use std::io;
use std::io::{Cursor, Write};
use text_decimals::put_decimal;
use text_hex::put_hex;
use text_hex_words::put_high_first;
use text_slices::part_of;
use tools_lines::place_from;
use tools_typed::trimmed;

pub fn put(out: &mut impl Write, text: &[u8]) -> io::Result<()> {
    out.write_all(text)
}

// The same, and all that was written before it goes out too.
pub fn went_out(out: &mut impl Write, text: &[u8]) -> io::Result<()> {
    put(out, text)?;
    out.flush()
}

// ---- complaints

// The same as `put`: the name says that it is a complaint, and to which writer it goes.
pub fn tell(err: &mut impl Write, text: &[u8]) -> io::Result<()> {
    err.write_all(text)
}

pub fn tell_number(err: &mut impl Write, n: u64) -> io::Result<()> {
    write!(err, "{n}")
}

// What a file or a stream refused, with the system's reason, without its number, of at most 400 bytes: `table.txt: No such file or directory`.
pub fn tell_failed(err: &mut impl Write, what: &[u8], why: &io::Error) -> io::Result<()> {
    let mut reason = Cursor::new([0u8; 400]);
    write!(reason, "{why}")?;
    let text = part_of(reason.get_ref(), 0, reason.position() as usize);
    tell(err, what)?;
    tell(err, b": ")?;
    tell(err, trimmed(&text[..place_from(text, 0, b'(')]))?;
    tell(err, b"\n")
}

// What standard output refused, with the system's reason.
pub fn tell_unwritten(err: &mut impl Write, why: &io::Error) -> io::Result<()> {
    tell_failed(err, b"standard output", why)
}

// The end of a program whose printing came to this: what the writer still holds goes out, and what was refused is told. Where standard error
// takes no complaint, it takes none of that either, and its error is the program's.
pub fn end_output(
    out: &mut impl Write,
    err: &mut impl Write,
    went: io::Result<()>,
) -> io::Result<()> {
    let Err(why) = went.and(out.flush()) else {
        return Ok(());
    };
    tell_unwritten(err, &why)
}

// ---- numbers and bytes

// A byte as two hex digits, in one piece: standard output has no buffer, and `{:02X}` writes a zero and what follows it apart.
pub fn print_byte(out: &mut impl Write, b: u8) -> io::Result<()> {
    let mut two = [0u8; 2];
    put_hex(&mut two, 0, b);
    put(out, &two)
}

// A word as four hex digits, in one piece too.
pub fn print_word(out: &mut impl Write, w: u16) -> io::Result<()> {
    let mut four = [0u8; 4];
    put_high_first(&mut four, 0, w);
    put(out, &four)
}

pub fn print_number(out: &mut impl Write, n: u64) -> io::Result<()> {
    write!(out, "{n}")
}

// Why a call was refused, by its number.
pub fn print_refusal(out: &mut impl Write, refusal: Refusal) -> io::Result<()> {
    let number = refusal.number();
    write!(out, "number {number}")
}

// The last so many digits of a number, at most ten: `{:0w$}` prints all of a longer number.
pub fn print_padded(out: &mut impl Write, n: u32, width: usize) -> io::Result<()> {
    let mut digits = [0u8; 10];
    let k = width.min(10);
    put_decimal(&mut digits, 0, k, n);
    put(out, &digits[..k])
}

// How many bytes go out in one piece as pairs.
const AT_ONCE: usize = 16;

// Bytes as hex pairs, with a blank between two: behind one before each, so many in one piece, and the first piece without its blank.
pub fn print_pairs(out: &mut impl Write, bytes: &[u8]) -> io::Result<()> {
    let mut pairs = [b' '; 3 * AT_ONCE];
    let mut from = 1;
    for chunk in bytes.chunks(AT_ONCE) {
        let n = chunk.len().min(AT_ONCE);
        for i in 0..n {
            put_hex(&mut pairs, 3 * i + 1, chunk[i]);
        }
        put(out, part_of(&pairs, from, (3 * n).saturating_sub(from)))?;
        from = 0;
    }
    Ok(())
}

// Bytes as hex pairs with nothing between, as an ASCII frame has them.
pub fn print_joined(out: &mut impl Write, bytes: &[u8]) -> io::Result<()> {
    for b in bytes {
        print_byte(out, *b)?;
    }
    Ok(())
}

// What has no character: a hex pair.
fn print_nameless(out: &mut impl Write, b: u8) -> io::Result<()> {
    let mut four = *b"<00>";
    put_hex(&mut four, 1, b);
    put(out, &four)
}

// A character of a frame: CR, LF and NUL by their names, what has none as a hex pair.
pub fn print_character(out: &mut impl Write, b: u8) -> io::Result<()> {
    match b {
        b'\r' => put(out, b"<CR>"),
        b'\n' => put(out, b"<LF>"),
        0 => put(out, b"<NUL>"),
        b' '..=b'~' => put(out, &[b]),
        _ => print_nameless(out, b),
    }
}

fn is_plain(b: u8) -> bool {
    matches!(b, b' '..=b'~')
}

// Characters that stand together and are printed as they are go out in one piece.
pub fn print_text(out: &mut impl Write, bytes: &[u8]) -> io::Result<()> {
    for run in bytes.chunk_by(|a, b| is_plain(*a) && is_plain(*b)) {
        match run {
            [b] => print_character(out, *b)?,
            _ => put(out, run)?,
        }
    }
    Ok(())
}
