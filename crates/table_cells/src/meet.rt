// Whether two requests meet, and at which cell first: the lowest cell that any run of the one shares with any run of the other.
ghost use Rattle.std.specs.Prelude.{◌≡◌, max, min, take};
ghost use Rattle.rules.specs.Choice.{either};
ghost use Rattle.table_registers.specs.Table.{grants};
ghost use Rattle.table_profiles.specs.Runs.{in_run};
ghost use Rattle.table_cells.specs.Cells.{meets_at};
ghost use Rattle.table_cells.specs.Touched as tc;

use crate::{Meeting, Touched};
use text_slices::and;

fn or(a: bool, b: bool) -> bool
    ensures { result ≡ either a b }
{
    a || b
}

// Whether a way is among those of some cells.
fn has_way(ways: u8, way: u8) -> bool
    ensures { result ≡ grants way ways }
{
    ways & way == way
}

// Whether one way of two is to write, where the other is any.
fn ways_meet(one: u8, other: u8) -> bool
    ensures { result ≡ tc.ways_meet one other }
{
    let one_reads = has_way(one, 1);
    let one_writes = has_way(one, 2);
    let other_reads = has_way(other, 1);
    let other_writes = has_way(other, 2);
    or(
        and(one_writes, or(other_reads, other_writes)),
        and(one_reads, other_writes),
    )
}

// Whether a run of so many cells from a first on has cell c.
fn has_cell(first: u32, each: u32, c: u32) -> bool
    ensures { result ≡ in_run first each c }
{
    first <= c && c - first < each
}

fn later(a: u32, b: u32) -> u32
    ensures { result ≡ max a b }
{
    if a < b { b } else { a }
}

fn earlier(a: u32, b: u32) -> u32
    ensures { result ≡ min a b }
{
    if a < b { a } else { b }
}

// The first cell that two runs share: two runs that share any share the later of their first cells.
fn shared(n: u32, a: u32, m: u32, b: u32) -> Meeting
    ensures { result ≡ tc.shared n a m b }
{
    let c = later(a, b);
    if !has_cell(a, n, c) {
        return Meeting::Never;
    }
    if !has_cell(b, m, c) {
        return Meeting::Never;
    }
    Meeting::At(c)
}

fn lower(one: Meeting, other: Meeting) -> Meeting
    ensures { result ≡ tc.lower one other }
{
    match one {
        Meeting::Never => other,
        Meeting::At(k) => match other {
            Meeting::Never => Meeting::At(k),
            Meeting::At(l) => Meeting::At(earlier(k, l)),
        },
    }
}

// The first cell that a run shares with any of others.
fn shared_by_one(n: u32, a: u32, m: u32, others: &[u32]) -> Meeting
    ensures { result ≡ tc.lowest_of (tc.shared n a m) others.now }
{
    let mut found = Meeting::Never;
    for b in others {
        found = lower(found, shared(n, a, m, *b));
    }
    found
}

// The first cell that any of some runs shares with any of others.
fn shared_by_any(n: u32, ones: &[u32], m: u32, others: &[u32]) -> Meeting
    ensures { result ≡ tc.lowest_of (λ a. tc.lowest_of (tc.shared n a m) others.now) ones.now }
{
    let mut found = Meeting::Never;
    for a in ones {
        found = lower(found, shared_by_one(n, *a, m, others));
    }
    found
}

// The first n, or as many as there are.
fn front(s: &[u32], n: usize) -> &[u32]
    ensures { result.now ≡ take n s.now }
{
    if n <= s.len() { &s[..n] } else { s }
}

// The lowest cell that the one writes and the other reads or writes, or the other way round.
pub fn first_meeting(one: Touched, other: Touched) -> Meeting
    ensures { tc.Lowest (meets_at (tc.cells_in one) (tc.cells_in other)) result }
{
    if !ways_meet(one.way, other.way) {
        return Meeting::Never;
    }
    // with the other's runs first the loops keep the least on the stack
    let ones = one.firsts;
    shared_by_any(
        other.each,
        front(&other.firsts, other.runs as usize),
        one.each,
        front(&ones, one.runs as usize),
    )
}
