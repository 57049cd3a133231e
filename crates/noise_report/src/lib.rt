// A noise report for a line: what was sent and what arrived, record by record, counted (RULES Q1 to Q7). The reader is given the input in
// pieces of any size.
#![tactic(auto)]

ghost use Rattle.std.specs.Prelude.{true, false, List, [], ◌∷◌, ◌++◌, ◌≡◌, ℕ, ◌+◌, ◌≤◌, ◌<◌, length, take};
ghost use Rattle.checks_shared.specs.Line.{flipped};
ghost use Rattle.noise_report.specs.Records.{Pair, pair_of, Fine, length_at, reading};
ghost use Rattle.noise_report.specs.Numbers.{numbers, Small, sum_of, report_of, Steps, outcome};
ghost use Rattle.noise_report.specs.Heard.{UpTo, Within, Between, Heard, Starts, Hears, Finishes};

use checks_bit_count::{BitCount, bits_differing};
use checks_crc::right_crc;
use text_rooms::put_part;
use text_slices::{byte_at, part_of, rest};

// The five numbers.
#[derive(Clone, Copy)]
pub struct Report {
    pub pairs: u64,
    pub faulty: u64,
    pub flipped: u64,
    pub refused: u64,
    pub missed: u64,
}

// An input is no list of whole records, or one of more than 1,000,000.
#[derive(Clone, Copy, Debug, PartialEq, Eq)]
pub struct BadInput;

// What is told of an input.
pub type Outcome = Result<Report, BadInput>;

// How far an input has been read: the report of the whole records, and how many bytes of the next one the room holds.
#[derive(Clone, Copy)]
pub struct Progress {
    pub report: Report,
    pub have: usize,
}

// A reader of an input, which may be bad already.
pub type Reader = Result<Progress, BadInput>;

// The report of a record, by what it adds to each number but `pairs`.
fn one_record(faulty: u64, flipped: u64, refused: u64, missed: u64) -> Report
    ensures { result ≡ numbers 1 faulty flipped refused missed }
{
    Report {
        pairs: 1,
        faulty,
        flipped,
        refused,
        missed,
    }
}

// In how many bits the frames of a record differ.
fn bits(sent: &[u8], received: &[u8]) -> u64
    ensures upper_bound { result < 65536 }
    ensures value { Fine (pair_of sent.now received.now) → result ≡ flipped sent.now received.now }
{
    let BitCount::Bits(n) = bits_differing(sent, received) else {
        return 0;
    };
    n as u64
}

// The report of one record.
fn report_of_one(sent: &[u8], received: &[u8]) -> Report
    ensures small { Small result }
    ensures value { Fine (pair_of sent.now received.now) → result ≡ report_of (pair_of sent.now received.now ∷ []) }
{
    let n = bits(sent, received);
    if !right_crc(sent) {
        return one_record(1, 0, 0, 0);
    }
    // Equal frames have equal checks.
    if n == 0 {
        return one_record(0, 0, 0, 0);
    }
    if right_crc(received) {
        return one_record(0, n, 0, 1);
    }
    one_record(0, n, 1, 0)
}

// 2,048 bits in each of 1,000,000 records: no number of a report is larger.
const LARGEST: u64 = 2_048_000_000;

fn is_small(report: Report) -> bool
    ensures small { result ≡ true → Small report }
    ensures value { Small report → result ≡ true }
{
    report.pairs <= LARGEST
        && report.faulty <= LARGEST
        && report.flipped <= LARGEST
        && report.refused <= LARGEST
        && report.missed <= LARGEST
}

fn plus(a: Report, b: Report) -> Report
    requires small { Small a }
    requires small_2 { Small b }
    ensures { result ≡ sum_of a b }
{
    Report {
        pairs: a.pairs + b.pairs,
        faulty: a.faulty + b.faulty,
        flipped: a.flipped + b.flipped,
        refused: a.refused + b.refused,
        missed: a.missed + b.missed,
    }
}

// The report with one record more. A report that no list of fewer than 1,000,000 records has may be left as it is.
pub fn step(report: Report, sent: &[u8], received: &[u8]) -> Report
    ensures { Steps report (pair_of sent.now received.now) result }
{
    if is_small(report) {
        return plus(report, report_of_one(sent, received));
    }
    report
}

// The room that a reader is lent: a record's length and two frames of 256 bytes.
pub const ROOM: usize = 514;

const LIMIT: u64 = 1_000_000;

// How short and how long a frame can be.
const LEAST: usize = 4;

const MOST: usize = 256;

// A reader that has heard nothing.
pub fn start() -> Reader
    ensures { Starts result }
{
    let report = Report {
        pairs: 0,
        faulty: 0,
        flipped: 0,
        refused: 0,
        missed: 0,
    };
    Ok(Progress { report, have: 0 })
}

// The two-byte length at the front of a record, high byte first.
fn length_at(part: &[u8]) -> usize
    ensures upper_bound { result < 65536 }
    ensures value { result ≡ length_at part.now }
{
    256 * usize::from(byte_at(part, 0)) + usize::from(byte_at(part, 1))
}

// How many bytes are wanted after a part of a record: those of its length, and then those of its frames.
fn wanted(part: &[u8]) -> usize
    ensures result_nonzero { 0 < result }
    ensures up_to { UpTo part.now result }
{
    let have = part.len();
    if have < 2 {
        return 2 - have;
    }
    let n = length_at(part);
    let size = 2 + (n + n);
    if have < size {
        return size - have;
    }
    1
}

// The reader after what has come of a record: it goes on, stops at a length that can't be or a record too many, or counts the record.
fn settle(report: Report, part: &[u8]) -> Reader
    ensures { (s : List ℕ) (rs : List Pair) → report ≡ report_of rs → Between s rs part.now → Within part.now → Heard s result part.now }
{
    let have = part.len();
    if have < 2 {
        return Ok(Progress { report, have });
    }
    let n = length_at(part);
    if n < LEAST || n > MOST {
        return Err(BadInput);
    }
    if have < 2 + (n + n) {
        return Ok(Progress { report, have });
    }
    if report.pairs >= LIMIT {
        return Err(BadInput);
    }
    let more = step(report, part_of(part, 2, n), part_of(part, 2 + n, n));
    Ok(Progress {
        report: more,
        have: 0,
    })
}

// Stores what has come of a record, and goes on from there.
fn hear_part(progress: Progress, room: &mut [u8], part: &[u8]) -> Reader
    ensures { 514 ≤ length room.old → (s : List ℕ) → Heard s (Ok progress) room.old → UpTo (take progress.have room.old) (length part.now) → Heard (s ++ part.now) result room.new }
{
    let Progress { report, have } = progress;
    // A reader that was not made here.
    if have > room.len() || part.len() > room.len() - have {
        return Err(BadInput);
    }
    put_part(room, have, part);
    settle(report, part_of(room, 0, have + part.len()))
}

// Hears a piece of the input, of any size. The room has at least 514 bytes, and is the reader's from its start to its end.
pub fn hear(reader: Reader, room: &mut [u8], piece: &[u8]) -> Reader
    ensures { Hears reader room.old piece.now result room.new }
{
    let mut progress = reader?;
    let mut left = piece;
    while !left.is_empty() {
        let next = wanted(part_of(room, 0, progress.have)).min(left.len());
        let (part, rest) = left.split_at(next);
        progress = hear_part(progress, room, part)?;
        left = rest;
    }
    Ok(progress)
}

// What is printed of the input that a reader has heard.
pub fn finish(reader: Reader) -> Outcome
    ensures { Finishes reader result }
{
    let Progress { report, have } = reader?;
    if have > 0 {
        return Err(BadInput);
    }
    Ok(report)
}

// The outcome of an input that is there as a whole.
pub fn report_on(input: &[u8]) -> Outcome
    ensures { result ≡ outcome (reading input.now) }
{
    let mut room = [0u8; ROOM];
    finish(hear(start(), &mut room, input))
}
