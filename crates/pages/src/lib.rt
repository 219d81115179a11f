// Request 4, "Turn the pages of a long listing": a bookmark, whether it is at fault, and the step to the next kit, on sound tables and by value. The
// walk goes down to the bookmark's row and on from there, so that a page costs one path and the nodes up to the next answer.
#![tactic(auto)]

ghost use Rattle.std.specs.Prelude.{◌≡◌, true, [], ◌≤◌};
ghost use Rattle.ground.specs.Calls.{Promise};
ghost use Rattle.answers.specs.Answers.{reply};
ghost use Rattle.kits.specs.Kits.{most_units, most_place, good_list, fixed_row};
ghost use Rattle.nodes.specs.Nodes.{child, row_of};
ghost use Rattle.nodes.specs.Inner.{Shape, Used, Live};
ghost use Rattle.questions.specs.Inner.{fits, covers, AtBin, AtList, wanting};
ghost use Rattle.pages.specs.Pages.{good_units, good_bookmark, row_shown, turn_page};
ghost use Rattle.pages.specs.Inner.{good_place, first_after, Alongside, Reaches, page_at, len_shown};

use answers::Answer;
use kits::{MOST_QUANTITY, MOST_UNITS, PLACES, Row, set_quantities};
use nodes::{child_at, depth_at, label_at, next_at, parent_at, tag_at};
use questions::{
    Containing, Question, Within, first_containing, first_within, had_of, last_place, quantity,
    want_after, want_from,
};

// "It holds whether paging has begun and the unit row of the last kit shown." A flag beside the row and no Option, since a bookmark not begun keeps its
// row as it was lent (`moved_on`, `turn_page`), and C holds the two apart.
#[derive(Clone, Copy)]
pub struct Bookmark {
    pub begun: bool,
    pub row: Row,
}

impl Bookmark {
    // The units of the last kit shown: "A bookmark not begun has its row ignored".
    #[tactic(auto, unfolding(crate::specs::Inner::len_shown, crate::specs::Pages::row_shown))]
    fn shown(&self) -> &[u16]
        requires { len_shown self.now ≤ most_units }
        ensures { result.now ≡ row_shown self.now }
    {
        if self.begun {
            return self.row.units();
        }
        &[]
    }
}

// What a step answers, and the bookmark after it.
#[derive(Clone, Copy)]
pub struct Page {
    pub answer: Answer,
    pub mark: Bookmark,
}

// Whether a place may come behind the last one, of which so many have come with it.
#[tactic(auto, unfolding(crate::specs::Inner::good_place, ground::specs::Lists::every, ground::specs::Lists::is_zero))]
fn good_place(parts: u16, last: u16, place: u16, had: u16) -> bool
    ensures { result ≡ good_place parts last place had }
{
    last <= place && place != 0 && place <= parts && had <= MOST_QUANTITY
}

// Whether the units of a row are good, with so many parts registered: one pass, with the last place and how many times it has come.
#[tactic(auto, using(crate::proofs::Bookmarks::one_pass))]
fn good_units(units: &[u16], parts: u16) -> bool
    ensures { result ≡ good_units parts units.now }
{
    let mut last = 0;
    let mut had = 0;
    for place in units {
        had = had_of(*place, last, had) + 1;
        if !good_place(parts, last, *place, had) {
            return false;
        }
        last = *place;
    }
    true
}

// Whether a bookmark is good, with so many parts registered. Of one not begun nothing is looked at, of its row only what the length counts.
#[tactic(auto, unfolding(crate::specs::Pages::good_bookmark, ground::specs::Lists::every))]
pub fn good_bookmark(mark: Bookmark, parts: u16) -> bool
    ensures { result ≡ good_bookmark parts mark }
{
    !mark.begun || (mark.row.len <= MOST_UNITS && good_units(mark.row.units(), parts))
}

// The row of a node, read up its parent links.
fn row_at(nodes: &[u16], i: usize) -> Row
    requires shape { Shape most_place nodes.now }
    requires used { Used nodes.now i }
    ensures { result ≡ fixed_row (row_of nodes.now i) }
{
    let len = depth_at(nodes, i);
    let mut places = [0; MOST_UNITS];
    let mut at = i;
    for d in (0..len).rev() {
        places[d] = label_at(nodes, at);
        at = parent_at(nodes, at);
    }
    Row { places, len }
}

// The first node of the chain that starts at a link whose label is not below a place; 0, the link to none, where there is none.
fn reach(nodes: &[u16], link: usize, place: u16) -> usize
    requires shape { Shape most_place nodes.now }
    requires live { Live nodes.now link }
    ensures { Reaches nodes.now place link result }
{
    let mut at = link;
    while at != 0 && label_at(nodes, at) < place {
        at = next_at(nodes, at);
    }
    at
}

// The walks to the next kit stay apart, as those of the questions that they end in: each carries what its own kind is asked of the rows below, as
// numbers, which go down faster than a struct of them (docs/PROVING.md, "Speed"). A node found is 0 where there is none, as `first_after` has it.

// The first kit within the bin that comes after a row, on the chain that starts at a link or below it: its node, or 0. The node above the link has the
// first d places of the row; of the nodes below it those with a smaller label than the next place come before the row, those with a greater one after.
fn after_within(
    nodes: &[u16],
    bin: &[u16; PLACES],
    top: u16,
    link: usize,
    last: u16,
    had: u16,
    row: &[u16],
    d: usize,
) -> usize
    requires { (AtBin nodes.now bin.now top link last had) × (Alongside row.now nodes.now link d) }
    ensures { result ≡ first_after row.now (fits bin.now) nodes.now link }
{
    if d == row.len() {
        return first_within(nodes, bin, top, link, last, had);
    }
    let place = row[d];
    let at = reach(nodes, link, place);
    if at == 0 {
        return 0;
    }
    let label = label_at(nodes, at);
    if place < label {
        return first_within(nodes, bin, top, at, last, had);
    }
    let came = had_of(label, last, had);
    if came < quantity(bin, label) {
        let below = after_within(
            nodes,
            bin,
            top,
            child_at(nodes, at),
            label,
            came + 1,
            row,
            d + 1,
        );
        if below != 0 {
            return below;
        }
    }
    first_within(nodes, bin, top, next_at(nodes, at), last, had)
}

// The same for the first kit that contains the list.
fn after_containing(
    nodes: &[u16],
    list: &[u16],
    link: usize,
    due: u16,
    left: u16,
    line: usize,
    row: &[u16],
    d: usize,
) -> usize
    requires { (AtList nodes.now list.now link (wanting due left line)) × (Alongside row.now nodes.now link d) }
    ensures { result ≡ first_after row.now (covers list.now) nodes.now link }
{
    if d == row.len() {
        return first_containing(nodes, list, link, due, left, line);
    }
    let place = row[d];
    let at = reach(nodes, link, place);
    if at == 0 {
        return 0;
    }
    let label = label_at(nodes, at);
    if place < label {
        return first_containing(nodes, list, at, due, left, line);
    }
    if due < label {
        return 0;
    }
    let then = want_after(list, label, due, left, line);
    let child = child_at(nodes, at);
    let below = after_containing(
        nodes,
        list,
        child,
        then.place,
        then.left,
        then.line,
        row,
        d + 1,
    );
    if below != 0 {
        return below;
    }
    first_containing(nodes, list, next_at(nodes, at), due, left, line)
}

// A kind of question whose listing is turned page by page.
pub trait Paged: Question {
    // The node of the first kit that answers and comes after a row, or 0.
    fn next(nodes: &[u16], list: &[u16], row: &[u16]) -> usize
        requires shape { Shape most_place nodes.now }
        requires good { good_list most_place list.now ≡ true }
        ensures { result ≡ first_after row.now (Self.test list.now) nodes.now (child nodes.now 0) };
}

impl Paged for Within {
    fn next(nodes: &[u16], bin: &[u16], row: &[u16]) -> usize {
        let mut amounts = [0; PLACES];
        set_quantities(&mut amounts, bin);
        after_within(
            nodes,
            &amounts,
            last_place(bin),
            child_at(nodes, 0),
            0,
            0,
            row,
            0,
        )
    }
}

impl Paged for Containing {
    fn next(nodes: &[u16], list: &[u16], row: &[u16]) -> usize {
        let want = want_from(list, 0);
        after_containing(
            nodes,
            list,
            child_at(nodes, 0),
            want.place,
            want.left,
            want.line,
            row,
            0,
        )
    }
}

// The page at a node: its kit's tag, and the bookmark at its row. Of no node: "0 when none is left, and then the bookmark stays where it was".
#[tactic(auto, using(crate::proofs::Turned::page_none, crate::proofs::Turned::page_found))]
fn page_at(nodes: &[u16], at: usize, mark: Bookmark) -> Page
    requires shape { Shape most_place nodes.now }
    requires live { Live nodes.now at }
    ensures { result ≡ page_at nodes.now mark at }
{
    if at == 0 {
        return Page {
            answer: Ok(0),
            mark,
        };
    }
    let row = row_at(nodes, at);
    Page {
        answer: Ok(usize::from(tag_at(nodes, at))),
        mark: Bookmark { begun: true, row },
    }
}

// The next page of the kits that answer.
pub fn next_page<Q: Paged>(nodes: &[u16], list: &[u16], mark: Bookmark) -> Page
    requires shape { Shape most_place nodes.now }
    requires good { good_list most_place list.now ≡ true }
    requires short { len_shown mark ≤ most_units }
    ensures { Promise (turn_page [] Q.asks list.now nodes.now mark) mark (reply result.answer) result.mark }
{
    let at = Q::next(nodes, list, mark.shown());
    page_at(nodes, at, mark)
}
