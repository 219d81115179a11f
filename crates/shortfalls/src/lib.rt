// Request 1: kits that a bin almost fills, those whose shortfall is at most d, with the shortfall of each. On sound tables; the public call stands
// above.
// (Casts here are bounded, which the check proves: `try_from` would add a refusal that cannot come, no plainer.)
#![tactic(auto)]

ghost use Rattle.std.specs.Prelude.{◌≡◌, true, [], ◌+◌, ◌≤◌, ◌<◌, length};
ghost use Rattle.ground.specs.Calls.{SetsBoth};
ghost use Rattle.answers.specs.Answers.{reply};
ghost use Rattle.kits.specs.Kits.{most_place, good_list};
ghost use Rattle.nodes.specs.Nodes.{most_nodes};
ghost use Rattle.nodes.specs.Inner.{Shape, Sound};
ghost use Rattle.questions.specs.Inner.{found_from, some_tag, if_tag};
ghost use Rattle.shortfalls.specs.Shortfalls.{most_short, list_almost};
ghost use Rattle.shortfalls.specs.Inner.{left_of, after, almost, PutBoth, PutFrom, PutIn, AtLink};

use answers::{Answer, Refusal};
use kits::{MOST_UNITS, PLACES, set_quantities};
use nodes::{child_at, label_at, next_at, tag_at};
use questions::{kit_count, put_word, quantity};

// "a number d from 0 to 64"
pub const MOST_SHORT: u16 = MOST_UNITS as u16;

// What a walk keeps of the labels that it has passed: the last one, how many of it the bin has left, and the shortfall so far.
#[derive(Clone, Copy)]
pub struct Passed {
    pub last: u16,
    pub left: u16,
    pub short: u16,
}

impl Passed {
    // How many the bin has left for a label, behind the last one.
    #[tactic(auto, unfolding(crate::specs::Inner::left_of))]
    fn left_of(self, bin: &[u16; PLACES], label: u16) -> u16
        requires { label ≤ most_place }
        ensures { result ≡ left_of bin.now label self.last self.left }
    {
        if label == self.last {
            return self.left;
        }
        quantity(bin, label)
    }

    // A label more: it is taken from the bin, or it is short.
    #[tactic(auto, unfolding(crate::specs::Inner::passing))]
    fn pass(self, bin: &[u16; PLACES], label: u16) -> Passed
        requires { (label ≤ most_place) × (self.short ≤ most_short) }
        ensures { result ≡ after bin.now self label }
    {
        let left = self.left_of(bin, label);
        if 0 < left {
            return Passed {
                last: label,
                left: left - 1,
                short: self.short,
            };
        }
        Passed {
            last: label,
            left: 0,
            short: self.short + 1,
        }
    }
}

// Sets down a tag and a shortfall, each where there is room for it, unless the tag is 0; returns the place of the next.
fn put_both(tags: &mut [u16], shorts: &mut [u16], n: usize, t: u16, s: u16) -> usize
    requires { n + length (some_tag t) ≤ most_nodes }
    ensures { PutBoth tags.old shorts.old n (some_tag t) (if_tag t s) result tags.new shorts.new }
{
    if t == 0 {
        return n;
    }
    put_word(tags, n, t);
    put_word(shorts, n, s);
    n + 1
}

// Sets down the kits with a shortfall of at most d on the chain that starts at a link, and below it, from n on; returns the place of the next.
// A branch is left as soon as its shortfall passes d. Siblings are passed in a loop: it calls itself on a child alone. (Two outputs, lent by C, and
// the walk's own numbers: a struct of both is no plainer.)
fn list_almost(
    nodes: &[u16],
    bin: &[u16; PLACES],
    tags: &mut [u16],
    shorts: &mut [u16],
    n: usize,
    d: u16,
    at: usize,
    p: Passed,
) -> usize
    requires { (AtLink nodes.now bin.now d at p) × (n + length (found_from (almost bin.now d) nodes.now at) ≤ most_nodes) }
    ensures { PutFrom bin.now d nodes.now at tags.old shorts.old n result tags.new shorts.new }
{
    let mut link = at;
    let mut k = n;
    while link != 0 {
        let here = link;
        let then = p.pass(bin, label_at(nodes, here));
        link = next_at(nodes, here);
        if then.short <= d {
            k = put_both(tags, shorts, k, tag_at(nodes, here), then.short);
            let child = child_at(nodes, here);
            if child != 0 {
                k = list_almost(nodes, bin, tags, shorts, k, d, child, then);
            }
        }
    }
    k
}

// Sets down all kits with a shortfall of at most d, as far as there is room; returns how many they are.
fn set_almost(
    nodes: &[u16],
    bin: &[u16; PLACES],
    d: u16,
    tags: &mut [u16],
    shorts: &mut [u16],
) -> usize
    requires { (Shape most_place nodes.now) × (d ≤ most_short) }
    ensures { PutIn bin.now d nodes.now tags.old shorts.old result tags.new shorts.new }
{
    let none = Passed {
        last: 0,
        left: 0,
        short: 0,
    };
    list_almost(nodes, bin, tags, shorts, 0, d, child_at(nodes, 0), none)
}

// All kits with a shortfall of at most d: their tags in listing order, and their shortfalls in step. Where both outputs have
// room for all kits they are written at once; shorter ones are counted for first, so that a refusal writes nothing. Two outputs in step
// and no list of pairs: C lends them so.
pub fn all_almost(
    nodes: &[u16],
    bin: &[u16],
    d: u16,
    tags: &mut [u16],
    shorts: &mut [u16],
) -> Answer
    requires fact_1 { Sound most_place nodes.now }
    requires fact_2 { (good_list most_place bin.now ≡ true) × (d ≤ most_short) }
    ensures { SetsBoth (list_almost [] d bin.now nodes.now) tags.old shorts.old (reply result) tags.new
        shorts.new }
{
    let mut amounts = [0; PLACES];
    set_quantities(&mut amounts, bin);
    let room = tags.len().min(shorts.len());
    if kit_count(nodes) <= room {
        return Ok(set_almost(nodes, &amounts, d, tags, shorts));
    }
    let need = set_almost(nodes, &amounts, d, &mut tags[0..0], &mut shorts[0..0]);
    if room < need {
        return Err(Refusal::NoRoom(need));
    }
    set_almost(nodes, &amounts, d, tags, shorts);
    Ok(need)
}
