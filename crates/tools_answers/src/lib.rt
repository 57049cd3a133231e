// What `serve` shows: frames, their answers, the words that they changed, the line's counters, lines that have no frame. Nothing of the
// engine stands on it. Each function is proved to stay within what it is lent; what the program prints is held to its stored output.
#![tactic(auto)]

use modbus_counters::Counters;
use rules::Refusal;
use station::Answer;
use std::io;
use std::io::{Cursor, Write};
use text_decimals::put_decimal;
use text_hex_words::put_high_first;
use text_slices::part_of;
use tools_pages::send;
use tools_printing::{print_pairs, print_text, put};

// ---- frames and answers

// Bytes as the line carries them: characters, or hex pairs.
fn print_frame(out: &mut impl Write, is_text: bool, bytes: &[u8]) -> io::Result<()> {
    if is_text {
        print_text(out, bytes)
    } else {
        print_pairs(out, bytes)
    }
}

// What went on the line, behind `> ` or `< `.
pub fn print_shown(
    out: &mut impl Write,
    mark: &[u8],
    is_text: bool,
    bytes: &[u8],
) -> io::Result<()> {
    put(out, mark)?;
    print_frame(out, is_text, bytes)?;
    put(out, b"\n")
}

// Why nothing goes on the line.
fn reason(refusal: Refusal) -> &'static str {
    match refusal.number() {
        1 => "the table can't be",
        2 => "the own station can't be",
        3 => "the room for the reply is too small",
        10 => "the frame's shape is wrong",
        11 => "the frame's check is wrong",
        _ => "the frame is for another station, or for all and not to be done",
    }
}

fn print_silence(out: &mut impl Write, refusal: Refusal) -> io::Result<()> {
    let reason = reason(refusal);
    let number = refusal.number();
    writeln!(out, "  silence: {reason} ({number})")
}

// A reply, or why there is none.
pub fn print_answer(
    out: &mut impl Write,
    is_text: bool,
    answer: Answer,
    room: &[u8],
) -> io::Result<()> {
    match answer {
        Answer::Reply(k) => print_shown(out, b"< ", is_text, part_of(room, 0, k)),
        Answer::CarriedOut => put(out, b"  carried out, for all stations: no reply\n"),
        Answer::Refused(refusal) => print_silence(out, refusal),
    }
}

// ---- words

// A word that is no longer what it was: its name and both its values, each in its place of the line.
fn print_change(out: &mut impl Write, k: usize, before: u16, after: u16) -> io::Result<()> {
    let mut line = *b"  DT00000 was 0000h and is 0000h\n";
    put_decimal(&mut line, 4, 5, (k % 65536) as u32);
    put_high_first(&mut line, 14, before);
    put_high_first(&mut line, 27, after);
    send(out, &line, line.len())
}

// Every word that changed.
pub fn print_changes(out: &mut impl Write, before: &[u16], after: &[u16]) -> io::Result<()> {
    for (k, (was, is)) in before.iter().zip(after).enumerate() {
        if was != is {
            print_change(out, k, *was, *is)?;
        }
    }
    Ok(())
}

// ---- counters

// The five counts of a Modbus line, each behind the sub-function of 08 that asks for it.
pub fn print_counters(out: &mut impl Write, counters: Counters) -> io::Result<()> {
    let Counters {
        bus,
        damaged,
        exceptions,
        own,
        unanswered,
    } = counters;
    writeln!(out, "  0B bus messages: {bus}")?;
    writeln!(out, "  0C check errors: {damaged}")?;
    writeln!(out, "  0D exception replies: {exceptions}")?;
    writeln!(out, "  0E own messages: {own}")?;
    writeln!(out, "  0F no response: {unanswered}")
}

// ---- lines without a frame

// What a line has that is no frame.
pub fn print_no_frame(out: &mut impl Write, number: u64, line: &[u8]) -> io::Result<()> {
    write!(out, "  line {number}: ")?;
    put(
        out,
        b"neither hex pairs, nor a frame that starts with `:`, `%` or `<`, nor `counters`: ",
    )?;
    print_text(out, line)?;
    put(out, b"\n")
}

// A line that no frame is as long as.
pub fn print_too_long(out: &mut impl Write, number: u64) -> io::Result<()> {
    let mut page = Cursor::new([0u8; 80]);
    writeln!(page, "  line {number}: too long for any frame, and skipped")?;
    send(out, page.get_ref(), page.position() as usize)
}
