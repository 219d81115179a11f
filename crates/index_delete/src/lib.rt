// Document 01, "Deletion clears the tag, then from that node upwards zeroes and unlinks each node but the root that has neither tag nor child, and
// stops at the first that must stay".
#![tactic(auto)]

ghost use Rattle.std.specs.Prelude.{◌≡◌};
ghost use Rattle.kits.specs.Kits.{most_place};
ghost use Rattle.nodes.specs.Nodes.{depth};
ghost use Rattle.index_links.specs.Inner.{CanMove};
ghost use Rattle.index_delete.specs.Strike.{prune as pruned, strike_at};
ghost use Rattle.index_delete.specs.Inner.{Prunes};

use index_links::{move_tallies, put_tag, unlink};
use nodes::{child_at, parent_at, tag_at};

// From node `from` upwards.
fn prune(nodes: &mut [u16], from: usize)
    requires { Prunes most_place nodes.old from }
    ensures { nodes.new ≡ pruned nodes.old (depth nodes.old from) from }
{
    let mut i = from;
    while i != 0 {
        if tag_at(nodes, i) != 0 {
            return;
        }
        if child_at(nodes, i) != 0 {
            return;
        }
        let q = parent_at(nodes, i);
        unlink(nodes, i);
        i = q;
    }
}

// Strikes out the kit that ends at node i.
pub fn strike_at(nodes: &mut [u16], i: usize)
    requires { CanMove nodes.old i 1 0 }
    ensures { nodes.new ≡ strike_at nodes.old i }
{
    move_tallies(nodes, i, 1, 0);
    put_tag(nodes, i, 0);
    prune(nodes, i);
}
