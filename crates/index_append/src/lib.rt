// Document 01, "then filled in sheet order": kits that come in listing order, entered into a table that was empty. Each goes behind all that the table
// holds, so that the next free node and every link are known, and nothing is searched.
#![tactic(auto)]

ghost use Rattle.std.specs.Prelude.{◌≡◌, ◌≤◌, ◌++◌};
ghost use Rattle.kits.specs.Kits.{most_units, units_in};
ghost use Rattle.nodes.specs.Nodes.{row_of};
ghost use Rattle.index_insert.specs.Enter.{enter_below, enter};
ghost use Rattle.index_append.specs.Inner.{LastEntered, Appendable, Agrees, Appends};

use index_links::{link_behind, move_tallies, put_tag};
use kits::{Row, agree};
use nodes::{depth_at, parent_at};

// Enters labels below the node at, behind its last child, in the nodes from n on, and the tag at their end: how many nodes are used then. behind is 0
// where the node has no child, as a link is. (Six numbers of one private function with one caller: a struct is no plainer.)
fn grow_behind(
    nodes: &mut [u16],
    labels: &[u16],
    at: usize,
    behind: usize,
    n: usize,
    tag: u16,
) -> usize
    requires { Appends nodes.old labels.now at behind n }
    ensures entered { nodes.new ≡ enter_below nodes.old at labels.now tag }
    ensures last { LastEntered nodes.new result (row_of nodes.old at ++ labels.now) }
{
    let mut p = at;
    let mut b = behind;
    let mut f = n;
    for label in labels {
        link_behind(nodes, p, b, *label, f);
        p = f;
        b = 0;
        f += 1;
    }
    put_tag(nodes, p, tag);
    f
}

// Enters a row that is not before the one entered last and agrees with it in so many places, with the nodes from n on: how many nodes are used then. The
// last row ends at node n - 1; up from there to the depth to which they agree, the row goes on below p, behind b.
fn append(nodes: &mut [u16], row: &[u16], shared: usize, n: usize, tag: u16) -> usize
    requires { Agrees nodes.old n row.now shared }
    ensures entered { nodes.new ≡ enter_below nodes.old 0 row.now tag }
    ensures last { LastEntered nodes.new result row.now }
{
    let mut p = n - 1;
    let mut b = 0;
    while shared < depth_at(nodes, p) {
        b = p;
        p = parent_at(nodes, p);
    }
    grow_behind(nodes, &row[shared..], p, b, n, tag)
}

// Enters a kit's row behind prev, the one entered last, with the nodes from n on: how many nodes are used then.
pub fn append_row(nodes: &mut [u16], prev: Row, row: Row, n: usize, t: u16) -> usize
    requires fact_1 { (prev.len ≤ most_units) × (row.len ≤ most_units) }
    requires fact_2 { Appendable nodes.old n (units_in prev) (units_in row) }
    ensures fact_1 { nodes.new ≡ enter nodes.old (units_in row) t }
    ensures fact_2 { LastEntered nodes.new result (units_in row) }
{
    let shared = agree(prev, row);
    let used = append(nodes, row.units(), shared, n, t);
    move_tallies(nodes, used - 1, 0, 1);
    used
}
