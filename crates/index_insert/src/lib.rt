// Document 01, "Insertion takes missing nodes from shallow to deep, each the lowest numbered free one".
#![tactic(auto)]

ghost use Rattle.std.specs.Prelude.{◌≡◌, ◌-◌, drop};
ghost use Rattle.ground.specs.Lists.{from, first_or};
ghost use Rattle.kits.specs.Kits.{most_place};
ghost use Rattle.nodes.specs.Nodes.{size, is_free};
ghost use Rattle.nodes.specs.Inner.{Shape};
ghost use Rattle.index_links.specs.Links.{node_of};
ghost use Rattle.index_insert.specs.Enter.{lowest_free, enter_below};
ghost use Rattle.index_insert.specs.Inner.{Surveyed, Grows};

use index_links::{link, put_tag};
use nodes::{free_at, label_at, node_count, tag_at};

// The free nodes that a table has for an insertion: how many, and the lowest numbered; where there is none, that is the number of nodes,
// as the law `lowest_free` has it.
#[derive(Clone, Copy)]
pub struct FreeNodes {
    pub count: usize,
    pub lowest: usize,
}

// The free nodes, or None where some node bears the tag. Looks at every node once, from the last one down to the root, so that the free node met
// last is the lowest. In a sound table a label tells whether a node is free.
pub fn survey_nodes(nodes: &[u16], tag: u16) -> Option<FreeNodes>
    requires { Shape most_place nodes.now }
    ensures { Surveyed nodes.now tag result }
{
    let n = node_count(nodes);
    let mut free = FreeNodes {
        count: 0,
        lowest: n,
    };
    for i in (1..n).rev() {
        if tag_at(nodes, i) == tag {
            return None;
        }
        if label_at(nodes, i) == 0 {
            free.count += 1;
            free.lowest = i;
        }
    }
    if tag_at(nodes, 0) == tag {
        return None;
    }
    Some(free)
}

// The lowest numbered free node from a on; where there is none, the number of nodes, as the law `lowest_free` has it.
pub fn free_from(nodes: &[u16], a: usize) -> usize
    ensures { result ≡ first_or (size nodes.now) (is_free nodes.now) (from a (size nodes.now - a)) }
{
    let n = node_count(nodes);
    for i in a..n {
        if free_at(nodes, i) {
            return i;
        }
    }
    n
}

// Enters labels below the node at, which has none of them, and the tag at their end. The search for free nodes starts at the lowest, and goes on from
// the last one taken. The node at the end.
pub fn grow(nodes: &mut [u16], labels: &[u16], at: usize, lowest: usize, tag: u16) -> usize
    requires grows { Grows nodes.old at labels.now }
    requires is_lowest { lowest ≡ lowest_free nodes.old }
    ensures entered { nodes.new ≡ enter_below nodes.old at labels.now tag }
    ensures is_end { result ≡ node_of nodes.new at labels.now }
{
    let mut p = at;
    let mut a = lowest;
    for label in labels {
        let f = free_from(nodes, a);
        link(nodes, p, *label, f);
        p = f;
        a = f + 1;
    }
    put_tag(nodes, p, tag);
    p
}
