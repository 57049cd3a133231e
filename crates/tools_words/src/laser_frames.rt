// Laser head frames taken apart. The end is found by the length that the frame says, never by a `.`.
use checks_xor::xor_of;
use laser::{Distance, Reading, read_distance, read_frame};
use rules::Refusal;
use std::io;
use std::io::Write;
use text_digits::{Number, decimal_2};
use text_slices::{part_of, rest};
use tools_codes::pointing::print_pointed;
use tools_printing::{print_byte, print_text, put};

// The place of the 00h that ends a distance.
const CLOSING: usize = 10;

// Why a frame's shape is wrong.
fn print_fault(out: &mut impl Write, frame: &[u8]) -> io::Result<()> {
    let Number::Value(n) = decimal_2(rest(frame, 1)) else {
        return put(
            out,
            b"  no laser head frame: two digits stand after `/`, the number of data bytes\n",
        );
    };
    let told = 8 + n as usize;
    if frame.len() != told {
        return writeln!(
            out,
            "  no laser head frame: with {n} data bytes it has {told} bytes, not {}",
            frame.len()
        );
    }
    put(out, b"  no laser head frame: its last byte is not `.`\n")
}

// How many bytes stand before the check.
fn front_of(frame: &[u8]) -> usize {
    frame.len().saturating_sub(3)
}

// The length, and the two bytes before `.`.
fn print_check(out: &mut impl Write, frame: &[u8]) -> io::Result<()> {
    write!(
        out,
        "  format    laser head, {} bytes\n  check     ",
        frame.len()
    )?;
    print_text(out, part_of(frame, front_of(frame), 2))
}

fn print_command(out: &mut impl Write, frame: &[u8]) -> io::Result<()> {
    put(out, b"  command   ")?;
    print_text(out, part_of(frame, 3, 2))?;
    put(out, b"\n  data      ")?;
    if frame.len() < 9 {
        return put(out, b"none\n");
    }
    print_text(out, part_of(frame, 5, frame.len() - 8))?;
    put(out, b"\n")
}

fn print_millimetres(out: &mut impl Write, hundredths: u32) -> io::Result<()> {
    writeln!(
        out,
        "  distance  {}.{:02} mm",
        hundredths / 100,
        hundredths % 100
    )
}

// A distance in which a character is wrong.
fn print_no_distance(out: &mut impl Write, frame: &[u8], at: usize) -> io::Result<()> {
    put(out, b"  distance  none: it has five digits and 00h\n")?;
    if at < CLOSING {
        print_pointed(out, frame, at, b"only 0 to 9 may stand here", b"")
    } else {
        print_pointed(out, frame, at, b"only 00h may stand here", b"")
    }
}

// A frame with another command or count is no distance, and nothing is wrong with it.
fn print_distance(out: &mut impl Write, frame: &[u8]) -> io::Result<()> {
    match read_distance(frame) {
        Distance::Hundredths(v) => print_millimetres(out, v),
        Distance::NotAsked(at) if at < frame.len() => print_no_distance(out, frame, at),
        Distance::NotAsked(_) | Distance::Refused(_) => Ok(()),
    }
}

fn print_wrong(out: &mut impl Write, frame: &[u8]) -> io::Result<()> {
    put(out, b", wrong: ")?;
    print_byte(out, xor_of(part_of(frame, 0, front_of(frame))))?;
    put(out, b" is right\n")
}

// What is wrong with a frame that the reader refuses.
fn print_why(out: &mut impl Write, frame: &[u8], why: Refusal) -> io::Result<()> {
    let check = Refusal::CHECK;
    if why.number() != check.number() {
        return print_fault(out, frame);
    }
    print_check(out, frame)?;
    print_wrong(out, frame)?;
    print_command(out, frame)
}

pub(crate) fn explain_laser(out: &mut impl Write, frame: &[u8]) -> io::Result<()> {
    match read_frame(frame) {
        Reading::Frame(_, _) => {
            print_check(out, frame)?;
            put(out, b", right\n")?;
            print_command(out, frame)?;
            print_distance(out, frame)
        }
        Reading::Refused(why) => print_why(out, frame, why),
    }
}
