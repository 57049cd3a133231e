// A noise report for a line (RULES Q5). Standard input has records, one after the other: a two-byte length, high byte first, of 4 to 256,
// then the frame that was sent and the one that was received, both that long. Printed are five numbers of all records, each after its name
// and a blank, or `bad input` where the input is not at most 1,000,000 such records. What is counted is proved in noise_report; this
// program reads and prints.
#![tactic(auto)]

ghost use Rattle.std.specs.Prelude.{List, ℕ, ◌≤◌, IfOk, length};
ghost use Rattle.noise_report.specs.Heard.{Heard};

use noise_report::{BadInput, Outcome, Reader, Report, finish, hear, start};
use std::io;
use std::io::{Read, Write};
use std::rt::Env;
use tools_options::{Run, print_version, read_options};
use tools_printing::{end_output, put, tell, tell_failed, went_out};

// ---- the input

// How much of it is read at a time.
const PIECE: usize = 65536;

// The reader that has heard what came, piece by piece, each as large as it comes. The input is over at its end, or once it is bad whatever
// comes. A proved loop has to end, and nothing says that an input does: its turns are counted up to a number that no run uses up.
fn read_all(input: &mut impl Read, room: &mut [u8], piece: &mut [u8]) -> io::Result<Reader>
    ensures { IfOk result (λ reader. 514 ≤ length room.old → (s : List ℕ) × Heard s reader room.new) }
{
    let mut reader = start();
    for _ in 0..u64::MAX {
        let n = input.read(piece)?;
        if n == 0 {
            return Ok(reader);
        }
        reader = hear(reader, room, &piece[..n]);
        if reader.is_err() {
            return Ok(reader);
        }
    }
    Ok(reader)
}

// ---- the output

fn print_report(out: &mut impl Write, report: Report) -> io::Result<()> {
    let Report {
        pairs,
        faulty,
        flipped,
        refused,
        missed,
    } = report;
    writeln!(out, "pairs {pairs}")?;
    writeln!(out, "faulty {faulty}")?;
    writeln!(out, "flipped {flipped}")?;
    writeln!(out, "refused {refused}")?;
    writeln!(out, "missed {missed}")?;
    out.flush()
}

fn print_outcome(out: &mut impl Write, outcome: Outcome) -> io::Result<()> {
    match outcome {
        Ok(report) => print_report(out, report),
        Err(BadInput) => went_out(out, b"bad input\n"),
    }
}

// What was read is told only where all of it could be.
fn report_input(
    input: &mut impl Read,
    out: &mut impl Write,
    err: &mut impl Write,
) -> io::Result<()> {
    let mut room = [0u8; noise_report::ROOM];
    let mut piece = [0u8; PIECE];
    match read_all(input, &mut room, &mut piece) {
        Ok(reader) => print_outcome(out, finish(reader)),
        Err(why) => tell_failed(err, b"standard input", &why),
    }
}

const USAGE: &str = "\
usage: noise <file
  counts what a line did to the frames that were sent: standard input has records, each
  a two-byte length of 4 to 256, high byte first, then the sent and the received frame
  prints pairs, faulty, flipped, refused and missed, or `bad input`
noise --version | --help
";

fn run(rt: &(impl Env + Input), out: &mut impl Write, err: &mut impl Write) -> io::Result<()> {
    let options = read_options(rt, err, b"")?;
    match options.run {
        Run::Go => {
            if options.first.is_none() {
                report_input(&mut rt.reader(), out, err)
            } else {
                tell(
                    err,
                    b"noise reads standard input, and takes no file: noise <file\n",
                )
            }
        }
        Run::Help => put(out, USAGE.as_bytes()),
        Run::Version => print_version(out, b"noise"),
        Run::Stop => Ok(()),
    }
}

fn main(rt: HostRuntime) -> io::Result<()> {
    let mut out = rt.stdout();
    let mut err = rt.stderr();
    let went = run(&rt, &mut out, &mut err);
    end_output(&mut out, &mut err, went)
}
