// The check of a node table: document 01, "The table is sound when". Each node by itself first, so that links may be followed; then each chain
// once, with the tallies along it; then the equal labels on paths; then the tags. Its steps are in proportion to the number of nodes, whatever the words are.
#![tactic(auto)]

ghost use Rattle.std.specs.Prelude.{◌≡◌, true, ◌+◌, ◌<◌, ◌≤◌, ◌/◌};
ghost use Rattle.ground.specs.Inner.{Says};
ghost use Rattle.nodes.specs.Nodes.{most_nodes, child, next, size, nodes_length};
ghost use Rattle.nodes.specs.Sound.{nodes_sound};
ghost use Rattle.nodes.specs.Inner.{Head, Root, Used, Live, Climb, Siblings, Links};
ghost use Rattle.nodes_check.specs.Inner.{Sib, Under, Ok, Spot, Spots, Kin, Walked, Chains, Few, FewIfLast, Fews, Unlike, With};
ghost use Rattle.nodes_check.specs.Inner.{chain_tags, most_sum, tallied, word_bits, bit};

use kits::{MOST_QUANTITY, MOST_UNITS};
use nodes::{
    child_at, depth_at, free_at, label_at, next_at, node_count, parent_at, tag_at, tally_at,
};

// Tags seen are marked by bits, so many to a word, in so many words: one bit for each tag there can be.
const WORD_BITS: usize = 64;

const TAG_WORDS: usize = 1024;

// "the root's parent, sibling, label and depth are 0"
fn root_ok(nodes: &[u16]) -> bool
    requires { 0 < size nodes.now }
    ensures { Says (Root nodes.now) result }
{
    parent_at(nodes, 0) == 0
        && next_at(nodes, 0) == 0
        && label_at(nodes, 0) == 0
        && depth_at(nodes, 0) == 0
}

// A first child c that is in the table.
fn head_under(nodes: &[u16], i: usize, c: usize) -> bool
    requires { (c < size nodes.now) × (c ≡ child nodes.now i) × (0 < c) }
    ensures { Says (Head nodes.now i) result }
{
    label_at(nodes, c) != 0 && parent_at(nodes, c) == i
}

// "a first child is none or a used node other than the root that names that node as parent"
fn head_ok(nodes: &[u16], i: usize) -> bool
    requires { i < size nodes.now }
    ensures { Says (Head nodes.now i) result }
{
    let c = child_at(nodes, i);
    c == 0 || (c < node_count(nodes) && head_under(nodes, i, c))
}

// A next sibling s that is in the table.
fn sib_under(nodes: &[u16], i: usize, s: usize) -> bool
    requires { (s < size nodes.now) × (i < size nodes.now) × (s ≡ next nodes.now i) × (0 < s) }
    ensures { Says (Sib nodes.now i) result }
{
    parent_at(nodes, s) == parent_at(nodes, i) && label_at(nodes, i) < label_at(nodes, s)
}

// "a next sibling is none or a used node other than the root with the same parent and a greater label"
fn sib_ok(nodes: &[u16], i: usize) -> bool
    requires { i < size nodes.now }
    ensures { Says (Sib nodes.now i) result }
{
    let s = next_at(nodes, i);
    s == 0 || (s < node_count(nodes) && sib_under(nodes, i, s))
}

// "a used parent (the root counts), depth one more than its parent's and at most 64, and a label from 1 to the number of parts, at least its
// parent's label": of node i below q.
fn under_ok(nodes: &[u16], parts: u16, i: usize, q: usize) -> bool
    requires { (i < size nodes.now) × (q < size nodes.now) }
    ensures { Says (Under parts nodes.now i q) result }
{
    let m = label_at(nodes, q);
    let l = label_at(nodes, i);
    let d = depth_at(nodes, i);
    d == depth_at(nodes, q) + 1 && d <= MOST_UNITS && l <= parts && m <= l && (q == 0 || m != 0)
}

fn node_ok(nodes: &[u16], parts: u16, i: usize) -> bool
    requires { i < size nodes.now }
    ensures { Says (Ok parts nodes.now i) result }
{
    let q = parent_at(nodes, i);
    q < node_count(nodes) && under_ok(nodes, parts, i, q)
}

// Whether node i is right by itself.
fn spot_ok(nodes: &[u16], parts: u16, i: usize) -> bool
    requires { i < size nodes.now }
    ensures { Says (Spot parts nodes.now i) result }
{
    if !head_ok(nodes, i) {
        return false;
    }
    if i == 0 {
        return true;
    }
    if label_at(nodes, i) == 0 {
        return free_at(nodes, i);
    }
    if !node_ok(nodes, parts, i) {
        return false;
    }
    if !sib_ok(nodes, i) {
        return false;
    }
    if child_at(nodes, i) != 0 {
        return true;
    }
    tag_at(nodes, i) != 0
}

fn spots_ok(nodes: &[u16], parts: u16) -> bool
    ensures { Says (Spots parts nodes.now) result }
{
    (0..node_count(nodes)).all(|i| spot_ok(nodes, parts, i))
}

// What a chain comes to: how many nodes it has, and how many tagged nodes these say are at or below them.
#[derive(Clone, Copy)]
struct Chain {
    pub nodes: usize,
    pub tags: usize,
}

// Walks the chain that starts at the link h. No node comes twice, so the sum of their words is bounded, damaged ones too.
// (It follows links, and counts what it meets: there is no range to go over. `Live` and `Used` say where a link or a node stands, and are no types: the
// same number is another node in another table.)
fn walk_chain(nodes: &[u16], h: usize) -> Chain
    requires siblings { Siblings nodes.now }
    requires live { Live nodes.now h }
    requires few_nodes { size nodes.now ≤ most_nodes }
    ensures { Walked nodes.now h result }
{
    let mut at = h;
    let mut k = 0;
    let mut sum = 0;
    while at != 0 {
        sum += usize::from(tally_at(nodes, at));
        k += 1;
        at = next_at(nodes, at);
    }
    Chain {
        nodes: k,
        tags: sum,
    }
}

// "the number of tagged nodes at or below it": one for its own tag, and what the nodes of its chain say.
fn tally_ok(nodes: &[u16], i: usize, below: usize) -> bool
    requires node { i < size nodes.now }
    requires chain { below ≡ chain_tags nodes.now (child nodes.now i) }
    requires bounded { below ≤ most_sum }
    ensures { result ≡ tallied nodes.now i }
{
    let own = usize::from(tag_at(nodes, i) != 0);
    usize::from(tally_at(nodes, i)) == own + below
}

// "every used node but the root is found on its parent's chain", and every tally is right by its chain: each chain is walked once. A
// node is on no chain but its parent's, and there once, so all are found exactly when the chains together have as many nodes as are used.
fn chains_ok(nodes: &[u16]) -> bool
    requires { Kin nodes.now }
    ensures { Says (Chains nodes.now) result }
{
    let n = node_count(nodes);
    let mut used: usize = 0;
    let mut met: usize = 0;
    for i in 0..n {
        let chain = walk_chain(nodes, child_at(nodes, i));
        if !tally_ok(nodes, i, chain.tags) {
            return false;
        }
        met += chain.nodes;
        if label_at(nodes, i) != 0 {
            used += 1;
        }
    }
    met == used
}

// "no path has more than 15 equal labels": labels rise down a path, so equal ones stand together, and the climb stops where the label falls.
// (It follows links too.)
fn few_ok(nodes: &[u16], i: usize) -> bool
    requires climb { Climb nodes.now }
    requires used { Used nodes.now i }
    ensures { Says (Few nodes.now i) result }
{
    let l = label_at(nodes, i);
    let mut at = parent_at(nodes, i);
    let mut m = 1;
    while label_at(nodes, at) == l {
        if m == MOST_QUANTITY {
            return false;
        }
        at = parent_at(nodes, at);
        m += 1;
    }
    true
}

// The climb starts only where no child goes on with the label. The label of no child is the root's, 0.
fn few_if(nodes: &[u16], i: usize) -> bool
    requires links { Links nodes.now }
    requires node { i < size nodes.now }
    ensures { Says (FewIfLast nodes.now i) result }
{
    let l = label_at(nodes, i);
    if l == 0 {
        return true;
    }
    if label_at(nodes, child_at(nodes, i)) == l {
        return true;
    }
    few_ok(nodes, i)
}

// Each node is passed by one climb at most where every node is on its parent's chain: only the first child can have its parent's label.
fn fews_ok(nodes: &[u16]) -> bool
    requires { Links nodes.now }
    ensures { Says (Fews nodes.now) result }
{
    (0..node_count(nodes)).all(|i| few_if(nodes, i))
}

// Bit b of a word.
fn bit_at(w: u64, b: usize) -> u64
    requires { b < word_bits }
    ensures { result ≡ bit w b }
{
    (w >> b) & 1
}

// The word with bit b set.
fn bit_put(w: u64, b: usize) -> u64
    requires { b < word_bits }
    ensures { With w b result }
{
    w | (1u64 << b)
}

// "nonzero tags differ".
fn tags_ok(nodes: &[u16]) -> bool
    ensures { Says (Unlike nodes.now) result }
{
    let mut seen: [u64; TAG_WORDS] = [0; TAG_WORDS];
    for i in 0..node_count(nodes) {
        let t = usize::from(tag_at(nodes, i));
        if t != 0 {
            let w = seen[t / WORD_BITS];
            if bit_at(w, t % WORD_BITS) != 0 {
                return false;
            }
            seen[t / WORD_BITS] = bit_put(w, t % WORD_BITS);
        }
    }
    true
}

// Whether a table of a right length is sound, with so many parts registered.
pub fn nodes_sound(nodes: &[u16], parts: u16) -> bool
    requires { nodes_length nodes.now ≡ true }
    ensures { result ≡ nodes_sound parts nodes.now }
{
    if !root_ok(nodes) {
        return false;
    }
    if !spots_ok(nodes, parts) {
        return false;
    }
    if !chains_ok(nodes) {
        return false;
    }
    if !fews_ok(nodes) {
        return false;
    }
    tags_ok(nodes)
}
