// 22: runs that meet along one chain, and addresses beyond the lent bytes.
ghost use Rattle.std.specs.Prelude.{◌≡◌, ◌+◌, ◌<◌, ltb};
ghost use Rattle.std.specs.Iterator.{YieldsFirst, item_count};
ghost use Rattle.rules.specs.Choice.{either, some};
ghost use Rattle.catalogue_files.specs.Refusals.{some_pair, meets};
ghost use Rattle.catalogue_format.specs.Shapes.{groups_in};
ghost use Rattle.catalogue_files.specs.Walks.{runs_in, meets_some, meets_inner, meets_in, beyond_in};

use catalogue_format::Run;
use catalogue_format::fields::{RUN, after, run_of, wide};
use catalogue_format::walks::Groups;
use text_slices::byte_at;

// The runs right in some items.
#[derive(Clone, Copy)]
pub(crate) struct Runs<'a>(pub(crate) &'a [u8]);

impl<'a> Iterator for Runs<'a> {
    type Item = Run;

    ghost next_gives = { YieldsFirst (λ s. runs_in s.0.now) };

    ghost remaining = { item_count (λ s. runs_in s.0.now) };

    fn next(&mut self) -> Option<Run> {
        while !self.0.is_empty() {
            let here = self.0;
            self.0 = after(here);
            if byte_at(here, 0) == RUN {
                return Some(run_of(here));
            }
        }
        None
    }
}

// The address after the last of a run.
pub(crate) fn end_of(r: Run) -> usize
    ensures { (result ≡ r.first + r.count) × (result < 131072) }
{
    wide(r.first) + wide(r.count)
}

// Whether two runs share an address.
fn meet(r: Run, q: Run) -> bool
    ensures { result ≡ meets r q }
{
    if wide(r.first) >= end_of(q) {
        return false;
    }
    wide(q.first) < end_of(r)
}

// Whether one of the runs meets another.
fn meets_one(q: Run, s: &[u8]) -> bool
    ensures { result ≡ some (meets q) (runs_in s.now) }
{
    Runs(s).any(|r| meet(q, r))
}

// Whether a run of these items meets one of those.
fn meets_some(s: &[u8], those: &[u8]) -> bool
    ensures { result ≡ meets_some s.now those.now }
{
    Runs(s).any(|q| meets_one(q, those))
}

// Whether two of the runs meet. Each is held against what is left of the walk, which `any` does not show its closure.
fn meets_later(s: &[u8]) -> bool
    ensures { result ≡ some_pair meets (runs_in s.now) }
{
    let mut later = Runs(s);
    while let Some(r) = later.next() {
        if meets_one(r, later.0) {
            return true;
        }
    }
    false
}

// Whether a run of a group in the items meets one of the items' own.
fn meets_inner(s: &[u8]) -> bool
    ensures { result ≡ meets_inner s.now }
{
    Groups(s).any(|v| meets_some(after(v), s))
}

fn meets_in(v: &[u8]) -> bool
    ensures { result ≡ meets_in v.now }
{
    let items = after(v);
    if meets_later(items) {
        return true;
    }
    meets_inner(items)
}

// Whether two runs meet along one chain.
fn any_meet(s: &[u8]) -> bool
    ensures { result ≡ some meets_in (groups_in s.now) }
{
    Groups(s).any(meets_in)
}

fn beyond_in(n: usize, v: &[u8]) -> bool
    ensures { result ≡ beyond_in n v.now }
{
    Runs(after(v)).any(|r| n < end_of(r))
}

// Whether a run has an address that is not among so many.
fn any_beyond(n: usize, s: &[u8]) -> bool
    ensures { result ≡ some (beyond_in n) (groups_in s.now) }
{
    Groups(s).any(|v| beyond_in(n, v))
}

// Whether two runs meet along one chain, or one has an address that is not among so many.
pub(crate) fn any_refused(n: usize, s: &[u8]) -> bool
    ensures { result ≡ either (some meets_in (groups_in s.now)) (some (beyond_in n) (groups_in s.now)) }
{
    if any_meet(s) {
        return true;
    }
    any_beyond(n, s)
}
