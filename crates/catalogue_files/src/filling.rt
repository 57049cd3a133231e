// The filling: 0 everywhere, and then the runs of the named group and of every group around it.
ghost use Rattle.std.specs.Prelude.{◌≡◌, ◌+◌, ◌≤◌, length, replicate};
ghost use Rattle.text_rooms.specs.Room.{overwrite};
ghost use Rattle.catalogue_files.specs.Refusals.{paint, painted};
ghost use Rattle.catalogue_format.specs.Shapes.{groups_in};
ghost use Rattle.catalogue_files.specs.Walks.{runs_in, on_chain_in, group_put, chain_in};

use crate::names::is_named;
use crate::runs::{Runs, end_of};
use catalogue_format::Run;
use catalogue_format::fields::{after, value_of, wide};
use catalogue_format::walks::Groups;
use text_slices::same;

fn put(attributes: &mut [u8], first: usize, count: usize, value: u8)
    requires { first + count ≤ length attributes.old }
    ensures { attributes.new ≡ overwrite attributes.old first (replicate count value) }
{
    attributes[first..first + count].fill(value);
}

fn put_run(attributes: &mut [u8], r: Run)
    ensures { attributes.new ≡ paint attributes.old r }
{
    if end_of(r) <= attributes.len() {
        put(attributes, wide(r.first), wide(r.count), r.attribute);
    }
}

// Puts the runs of some items.
fn put_runs(attributes: &mut [u8], s: &[u8])
    ensures { attributes.new ≡ painted attributes.old (runs_in s.now) }
{
    for r in Runs(s) {
        put_run(attributes, r);
    }
}

// Whether a group has the name, or a group in it.
fn is_on_chain(asked: &[u8], v: &[u8]) -> bool
    ensures { result ≡ on_chain_in asked.now v.now }
{
    let name = value_of(v);
    if same(asked, name) {
        return true;
    }
    let items = after(v);
    is_named(asked, items)
}

fn put_group(attributes: &mut [u8], asked: &[u8], v: &[u8])
    ensures { attributes.new ≡ group_put attributes.old asked.now v.now }
{
    if is_on_chain(asked, v) {
        put_runs(attributes, after(v));
    }
}

// Puts the runs of the chain.
fn put_chain(attributes: &mut [u8], asked: &[u8], s: &[u8])
    ensures { attributes.new ≡ painted attributes.old (chain_in asked.now (groups_in s.now)) }
{
    for v in Groups(s) {
        put_group(attributes, asked, v);
    }
}

// Fills the lent bytes.
pub(crate) fn put_all(attributes: &mut [u8], asked: &[u8], s: &[u8])
    ensures { attributes.new ≡ painted (replicate (length attributes.old) 0) (chain_in asked.now (groups_in s.now)) }
{
    put(attributes, 0, attributes.len(), 0);
    put_chain(attributes, asked, s);
}
