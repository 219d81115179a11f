// Document 01, "The node table": a node's children by their labels, and a node linked in among them or unlinked.
// (Casts here are bounded, which the check proves: `try_from` would add a refusal that cannot come, no plainer.)
#![tactic(auto)]

ghost use Rattle.std.specs.Prelude.{◌≡◌, [], ◌∷◌, ◌<◌, length, set};
ghost use Rattle.ground.specs.Limits.{two_limit};
ghost use Rattle.ground.specs.Laid.{laid};
ghost use Rattle.nodes.specs.Nodes.{words_per_node, at, parent_word, tag_word, depth, size, children};
ghost use Rattle.index_links.specs.Links.{child_with, last_below, link_to, link as linked, unlink as unlinked, recount};
ghost use Rattle.index_links.specs.Inner.{Reads, LinksTo, LinksBehind, CanMove, Unlinks, moved, word_behind};

use nodes::{
    CHILD, NEXT, TAG, TALLY, WORDS, child_at, depth_at, label_at, next_at, parent_at, tally_at,
};

// The child of p with the label l, 0 where there is none: no Option, since the answer is a link of the table, in which 0 means none (the law `child_with`).
pub fn child_with(nodes: &[u16], p: usize, l: u16) -> usize
    requires { Reads nodes.now p }
    ensures { result ≡ child_with nodes.now p l }
{
    let mut c = child_at(nodes, p);
    while c != 0 {
        let m = label_at(nodes, c);
        if m == l {
            return c;
        }
        if l < m {
            return 0;
        }
        c = next_at(nodes, c);
    }
    0
}

// The last child of p with a label below l, 0 where there is none: no Option here either (the law `last_below`).
fn last_below(nodes: &[u16], p: usize, l: u16) -> usize
    requires { Reads nodes.now p }
    ensures is_last { result ≡ last_below nodes.now l 0 (children nodes.now p) }
    ensures inside { result < size nodes.now }
{
    let mut b = 0;
    let mut c = child_at(nodes, p);
    while c != 0 {
        if l <= label_at(nodes, c) {
            return b;
        }
        b = c;
        c = next_at(nodes, c);
    }
    b
}

// The word of the link to what follows p's child b; where b is 0, of the link to p's first child.
#[tactic(auto, unfolding(crate::specs::Inner::word_behind))]
fn word_behind(p: usize, b: usize) -> usize
    requires p_small { p < two_limit }
    requires b_small { b < two_limit }
    ensures { result ≡ word_behind p b }
{
    if b == 0 {
        return p * WORDS + CHILD;
    }
    b * WORDS + NEXT
}

// The word in which the link to p's child with the label l stands, or has to stand.
fn link_to(nodes: &[u16], p: usize, l: u16) -> usize
    requires { Reads nodes.now p }
    ensures is_link { result ≡ link_to nodes.now p l }
    ensures inside { result < length nodes.now }
{
    let b = last_below(nodes, p, l);
    word_behind(p, b)
}

// Sets word k of node i.
fn set_word(nodes: &mut [u16], i: usize, k: usize, w: u16)
    requires { (i < size nodes.old) × (k < words_per_node) }
    ensures { nodes.new ≡ set nodes.old (at i k) w }
{
    nodes[i * WORDS + k] = w;
}

// Writes the words of node f (six numbers, the words that differ: a struct for two callers is no plainer): it has no child and no tag, and no kit at or
// below it yet.
fn put_node(nodes: &mut [u16], f: usize, parent: u16, next: u16, label: u16, depth: u16)
    requires { f < size nodes.old }
    ensures { nodes.new ≡ laid nodes.old (at f parent_word) (parent ∷ 0 ∷ next ∷ label ∷ depth ∷ 0 ∷ 0 ∷ []) }
{
    let at = f * WORDS;
    nodes[at..at + WORDS].copy_from_slice(&[parent, 0, next, label, depth, 0, 0]);
}

// Links node f in as p's child with the label l, behind b, the last child with a label below l; b is 0 where there is none.
pub fn link_behind(nodes: &mut [u16], p: usize, b: usize, l: u16, f: usize)
    requires { LinksBehind nodes.old p b l f }
    ensures { nodes.new ≡ linked nodes.old p l f }
{
    let w = word_behind(p, b);
    let rest = nodes[w];
    let depth = depth_at(nodes, p) + 1;
    put_node(nodes, f, p as u16, rest, l, depth as u16);
    nodes[w] = f as u16;
}

// Links node f in as p's child with the label l.
pub fn link(nodes: &mut [u16], p: usize, l: u16, f: usize)
    requires { LinksTo nodes.old p f }
    ensures { nodes.new ≡ linked nodes.old p l f }
{
    let b = last_below(nodes, p, l);
    link_behind(nodes, p, b, l, f);
}

// Zeroes and unlinks node i.
pub fn unlink(nodes: &mut [u16], i: usize)
    requires { Unlinks nodes.old i }
    ensures { nodes.new ≡ unlinked nodes.old i }
{
    let q = parent_at(nodes, i);
    let l = label_at(nodes, i);
    let w = link_to(nodes, q, l);
    let rest = next_at(nodes, i);
    nodes[w] = rest as u16;
    put_node(nodes, i, 0, 0, 0, 0);
}

// Sets the tag of node i: the one word that those above set by itself, under its name.
pub fn put_tag(nodes: &mut [u16], i: usize, t: u16)
    requires { i < size nodes.old }
    ensures { nodes.new ≡ set nodes.old (at i tag_word) t }
{
    set_word(nodes, i, TAG, t);
}

// So many kits off and so many on at node i: there, and at every node above it, the root too.
pub fn move_tallies(nodes: &mut [u16], i: usize, off: u16, on: u16)
    requires { CanMove nodes.old i off on }
    ensures { nodes.new ≡ recount (moved off on) nodes.old (depth nodes.old i) i }
{
    let mut at = i;
    while at != 0 {
        let q = parent_at(nodes, at);
        let n = tally_at(nodes, at);
        set_word(nodes, at, TALLY, n - off + on);
        at = q;
    }
    let n = tally_at(nodes, 0);
    set_word(nodes, 0, TALLY, n - off + on);
}
