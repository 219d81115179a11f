// The seam for bindings, and the place that notices a weaker contract below: one function for each public call, in a shape that C can call; `face_c`
// exports them. A contract is the call's full promise, answer and every lent word, and its body is the call: what a call below no longer promises
// fails to prove here. The number of the answer is returned, its value goes out through `value`; a slice is a pointer and then how many elements it
// has. C links each call by a name of its own, so each kind of question has its own functions here, and what C lends apart stays apart.
// (Casts here are bounded, which the check proves: `try_from` would add a refusal that cannot come, no plainer.)
#![tactic(auto)]

ghost use Rattle.std.specs.Prelude.{◌≡◌, cond, ◌+◌, ◌-◌, ◌*◌, ◌<◌, ◌^◌};
ghost use Rattle.ground.specs.Lists.{is_zero};
ghost use Rattle.ground.specs.Calls.{answer, leaves, number_of, value_of, both};
ghost use Rattle.ground.specs.Stretch.{Stretch};
ghost use Rattle.ground.specs.Tables.{tables};
ghost use Rattle.answers.specs.Answers.{reply};
ghost use Rattle.register.specs.Register.{slot_bytes};
ghost use Rattle.register.specs.Calls.{registering, looking_up, showing, stretch_from, stretch_size};
ghost use Rattle.makers.specs.Calls.{beside, zeroing_makers, setting_maker, clearing_maker, showing_label, is_makers, holder, label_from, label_size};
ghost use Rattle.questions.specs.Questions.{is_within, is_containing};
ghost use Rattle.catalogue.specs.Calls.{emptying, inserting, finding, deleting, counting, any_kit, all_kits, almost_kits, turning, writing, reading};
ghost use Rattle.catalogue.specs.Calls.{writing_card, reading_card};
ghost use Rattle.face.specs.Face.{Handed, Crosses, beside_lent, lent_mark, mark_of, set_to, over_lent};
ghost use Rattle.face.specs.Face.{SmallReport, report_out, RescueCrosses};
ghost use Rattle.face.specs.Inner.{PlaceShown};

use answers::{Answer, reply_of};
use kits::{MOST_UNITS, Row};
use pages::{Bookmark, Page, Paged};
use questions::{Containing, Within};
use register::{SLOT_BYTES, length_at};
use sheet_read::Salvaged;

// An answer taken apart: "Each answer is a number (0 for done) and a value below 2^32".
fn hand_over(a: Answer, value: &mut u32) -> u8
    requires { value_of (reply a) < 2 ^ 32 }
    ensures { Handed (reply a) result value.new }
{
    let told = reply_of(a);
    *value = told.value as u32;
    told.number
}

// Empties both tables.
pub fn padrisk_empty(reg: &mut [u8], nodes: &mut [u16], value: &mut u32) -> u8
    ensures { Crosses emptying (tables reg.old nodes.old)
        result value.new (tables reg.new nodes.new) }
{
    hand_over(catalogue::empty(reg, nodes), value)
}

// Registers a number: its place.
pub fn padrisk_register_number(reg: &mut [u8], num: &[u8], value: &mut u32) -> u8
    ensures { Crosses (registering num.now) reg.old result value.new reg.new }
{
    hand_over(register::register_number(reg, num), value)
}

// Looks a number up: its place.
pub fn padrisk_look_up(reg: &[u8], num: &[u8], value: &mut u32) -> u8
    ensures { Handed (answer (looking_up num.now reg.now)) result value.new }
{
    hand_over(register::look_up(reg, num), value)
}

// Whether the number at a place can be shown.
pub fn padrisk_show_answer(reg: &[u8], place: u16, value: &mut u32) -> u8
    ensures { Handed (answer (showing place reg.now)) result value.new }
{
    hand_over(register::show_answer(reg, place), value)
}

// Shows the number at a place, as the stretch itself: no exported function can return one.
pub fn show_stretch(reg: &[u8], place: u16) -> &[u8]
    ensures { Stretch reg.entry result (stretch_from place reg.now) (stretch_size place reg.now) }
{
    register::show(reg, place)
}

// How far into its table the number at a place starts, where the call that shows it answers this; 0 where that is refused.
fn starts_at(told: Answer, place: u16) -> usize
    requires { PlaceShown (reply told) place }
    ensures { result ≡ leaves (reply told) 0 ((place - 1) * slot_bytes + 1) }
{
    match told {
        Ok(_) => (usize::from(place) - 1) * SLOT_BYTES + 1,
        Err(_) => 0,
    }
}

// How far into the register that stretch starts.
fn stretch_from(reg: &[u8], place: u16) -> usize
    ensures { result ≡ stretch_from place reg.now }
{
    starts_at(register::show_answer(reg, place), place)
}

// Shows the number at a place by numbers: how many bytes of the register it is; from which on goes out through `start`.
pub fn padrisk_show(reg: &[u8], place: u16, start: &mut usize) -> usize
    ensures fact_1 { start.new ≡ stretch_from place reg.now }
    ensures fact_2 { result ≡ stretch_size place reg.now }
{
    *start = stretch_from(reg, place);
    show_stretch(reg, place).len()
}

// Zeroes the maker's table.
pub fn padrisk_zero_makers(reg: &[u8], makers: &mut [u8], value: &mut u32) -> u8
    ensures { Crosses (beside_lent zeroing_makers reg.now) makers.old result value.new makers.new }
{
    hand_over(makers::zero_makers(reg, makers), value)
}

// Sets the maker's number of a place.
pub fn padrisk_set_maker(
    reg: &[u8],
    makers: &mut [u8],
    place: u16,
    num: &[u8],
    value: &mut u32,
) -> u8
    ensures { Crosses (beside_lent (setting_maker place num.now) reg.now) makers.old
        result value.new makers.new }
{
    hand_over(makers::set_maker(reg, makers, place, num), value)
}

// Clears the maker's number of a place.
pub fn padrisk_clear_maker(reg: &[u8], makers: &mut [u8], place: u16, value: &mut u32) -> u8
    ensures { Crosses (beside_lent (clearing_maker place) reg.now) makers.old result value.new makers.new }
{
    hand_over(makers::clear_maker(reg, makers, place), value)
}

// Whether a place has a label: the maker's number, or ours.
pub fn padrisk_label_answer(reg: &[u8], makers: &[u8], place: u16, value: &mut u32) -> u8
    ensures { Handed (answer (showing_label place (beside reg.now makers.now))) result value.new }
{
    hand_over(makers::label_answer(reg, makers, place), value)
}

// The label of a place, as the stretch itself of one of the two tables.
pub fn label_stretch<'a>(reg: &'a [u8], makers: &'a [u8], place: u16) -> &'a [u8]
    ensures { Stretch (holder place (beside reg.now makers.now) reg.entry makers.entry) result
        (label_from place (beside reg.now makers.now)) (label_size place (beside reg.now makers.now)) }
{
    makers::label(reg, makers, place)
}

// Whether that is the maker's table.
fn is_makers(reg: &[u8], makers: &[u8], place: u16) -> bool
    ensures { result ≡ is_makers place (beside reg.now makers.now) }
{
    match makers::label_answer(reg, makers, place) {
        Ok(_) => length_at(makers, usize::from(place) - 1) != 0,
        Err(_) => false,
    }
}

// The label of a place by numbers: how many bytes it is. From which on goes out through `start`, and through `theirs` 1 where they are bytes of the
// maker's table, and else 0.
pub fn padrisk_label<'a>(
    reg: &'a [u8],
    makers: &'a [u8],
    place: u16,
    theirs: &mut u8,
    start: &mut usize,
) -> usize
    ensures fact_1 { theirs.new ≡ cond (is_makers place (beside reg.now makers.now)) 1 0 }
    ensures fact_2 { start.new ≡ label_from place (beside reg.now makers.now) }
    ensures fact_3 { result ≡ label_size place (beside reg.now makers.now) }
{
    *theirs = is_makers(reg, makers, place) as u8;
    *start = starts_at(makers::label_answer(reg, makers, place), place);
    label_stretch(reg, makers, place).len()
}

// Inserts a list with a tag: the nodes newly taken.
pub fn padrisk_insert(reg: &[u8], nodes: &mut [u16], list: &[u16], tag: u16, value: &mut u32) -> u8
    ensures { Crosses (inserting list.now tag) (tables reg.now nodes.old)
        result value.new (tables reg.now nodes.new) }
{
    hand_over(catalogue::insert(reg, nodes, list, tag), value)
}

// Finds a list: its tag.
pub fn padrisk_find(reg: &[u8], nodes: &[u16], list: &[u16], value: &mut u32) -> u8
    ensures { Handed (answer (finding list.now (tables reg.now nodes.now))) result value.new }
{
    hand_over(catalogue::find(reg, nodes, list), value)
}

// Deletes a list: its tag.
pub fn padrisk_delete(reg: &[u8], nodes: &mut [u16], list: &[u16], value: &mut u32) -> u8
    ensures { Crosses (deleting list.now) (tables reg.now nodes.old)
        result value.new (tables reg.now nodes.new) }
{
    hand_over(catalogue::delete(reg, nodes, list), value)
}

// Counts the kits that begin with a list's units.
pub fn padrisk_count_beginning(reg: &[u8], nodes: &[u16], list: &[u16], value: &mut u32) -> u8
    ensures { Handed (answer (counting list.now (tables reg.now nodes.now))) result value.new }
{
    hand_over(catalogue::count_beginning(reg, nodes, list), value)
}

// Any kit within the bin: the tag of the first in listing order, or 0.
pub fn padrisk_any_within(reg: &[u8], nodes: &[u16], bin: &[u16], value: &mut u32) -> u8
    ensures { Handed (answer (any_kit is_within bin.now (tables reg.now nodes.now))) result value.new }
{
    hand_over(catalogue::any::<Within>(reg, nodes, bin), value)
}

// Any kit containing the list: the tag of the first in listing order, or 0.
pub fn padrisk_any_containing(reg: &[u8], nodes: &[u16], list: &[u16], value: &mut u32) -> u8
    ensures { Handed (answer (any_kit is_containing list.now (tables reg.now nodes.now))) result value.new }
{
    hand_over(catalogue::any::<Containing>(reg, nodes, list), value)
}

// All kits within the bin: their tags in listing order at the start of the output.
pub fn padrisk_all_within(
    reg: &[u8],
    nodes: &[u16],
    bin: &[u16],
    out: &mut [u16],
    value: &mut u32,
) -> u8
    ensures { Crosses (all_kits is_within bin.now (tables reg.now nodes.now)) out.old
        result value.new out.new }
{
    hand_over(catalogue::all::<Within>(reg, nodes, bin, out), value)
}

// All kits containing the list: their tags in listing order at the start of the output.
pub fn padrisk_all_containing(
    reg: &[u8],
    nodes: &[u16],
    list: &[u16],
    out: &mut [u16],
    value: &mut u32,
) -> u8
    ensures { Crosses (all_kits is_containing list.now (tables reg.now nodes.now)) out.old
        result value.new out.new }
{
    hand_over(catalogue::all::<Containing>(reg, nodes, list, out), value)
}

// All kits that the bin fills but for at most d units: their tags in the one output, and the shortfall of each in the other.
pub fn padrisk_all_almost(
    reg: &[u8],
    nodes: &[u16],
    bin: &[u16],
    d: u16,
    tags: &mut [u16],
    shorts: &mut [u16],
    value: &mut u32,
) -> u8
    ensures { Crosses (almost_kits d bin.now (tables reg.now nodes.now))
        (both tags.old shorts.old) result value.new (both tags.new shorts.new) }
{
    hand_over(
        catalogue::all_almost(reg, nodes, bin, d, tags, shorts),
        value,
    )
}

// The bookmark that C lends taken apart.
fn mark_of(begun: u8, len: usize, places: [u16; MOST_UNITS]) -> Bookmark
    ensures { result ≡ mark_of (lent_mark begun len places) }
{
    let row = Row {
        places: places,
        len: len,
    };
    Bookmark {
        begun: begun != 0,
        row: row,
    }
}

// The number that says whether paging has begun, set to it: only 0 is ever changed.
fn begun_as(begun: u8, goes: bool) -> u8
    ensures { result ≡ cond (is_zero begun) (cond goes 1 0) begun }
{
    if begun == 0 {
        return goes as u8;
    }
    begun
}

// A page taken apart: its answer, and its bookmark set down where it was lent.
fn hand_page(
    page: Page,
    begun: &mut u8,
    len: &mut usize,
    places: &mut [u16; MOST_UNITS],
    value: &mut u32,
) -> u8
    requires { value_of (reply page.answer) < 2 ^ 32 }
    ensures fact_1 { Handed (reply page.answer) result value.new }
    ensures fact_2 { lent_mark begun.new len.new places.new
        ≡ set_to (lent_mark begun.old len.old places.old) page.mark }
{
    let mark = page.mark;
    let row = mark.row;
    *begun = begun_as(*begun, mark.begun);
    *len = row.len;
    let shown = row.places;
    *places = shown;
    let answer = page.answer;
    hand_over(answer, value)
}

// Turns to the next kit of which the question holds, with the bookmark lent taken apart.
fn turn<Q: Paged>(
    reg: &[u8],
    nodes: &[u16],
    list: &[u16],
    begun: &mut u8,
    len: &mut usize,
    places: &mut [u16; MOST_UNITS],
    value: &mut u32,
) -> u8
    ensures { Crosses (over_lent (turning Q.asks list.now (tables reg.now nodes.now)))
        (lent_mark begun.old len.old places.old) result value.new
        (lent_mark begun.new len.new places.new) }
{
    let mark = mark_of(*begun, *len, *places);
    let page = catalogue::next_page::<Q>(reg, nodes, list, mark);
    hand_page(page, begun, len, places, value)
}

// Turns to the next kit within the bin: its tag, or 0 when none is left. The bookmark is lent taken apart, and moved on in place.
pub fn padrisk_turn_within(
    reg: &[u8],
    nodes: &[u16],
    bin: &[u16],
    begun: &mut u8,
    len: &mut usize,
    places: &mut [u16; MOST_UNITS],
    value: &mut u32,
) -> u8
    ensures { Crosses (over_lent (turning is_within bin.now (tables reg.now nodes.now)))
        (lent_mark begun.old len.old places.old) result value.new
        (lent_mark begun.new len.new places.new) }
{
    turn::<Within>(reg, nodes, bin, begun, len, places, value)
}

// Turns to the next kit containing the list, alike.
pub fn padrisk_turn_containing(
    reg: &[u8],
    nodes: &[u16],
    list: &[u16],
    begun: &mut u8,
    len: &mut usize,
    places: &mut [u16; MOST_UNITS],
    value: &mut u32,
) -> u8
    ensures { Crosses (over_lent (turning is_containing list.now (tables reg.now nodes.now)))
        (lent_mark begun.old len.old places.old) result value.new
        (lent_mark begun.new len.new places.new) }
{
    turn::<Containing>(reg, nodes, list, begun, len, places, value)
}

// Writes the sheet at the start of the output: the bytes written.
pub fn padrisk_write_sheet(reg: &[u8], nodes: &[u16], out: &mut [u8], value: &mut u32) -> u8
    ensures { Crosses (writing (tables reg.now nodes.now)) out.old
        result value.new out.new }
{
    hand_over(catalogue::write_sheet(reg, nodes, out), value)
}

// Reads a sheet into both tables: the kits read.
pub fn padrisk_read_sheet(reg: &mut [u8], nodes: &mut [u16], sheet: &[u8], value: &mut u32) -> u8
    ensures { Crosses (reading sheet.now) (tables reg.old nodes.old)
        result value.new (tables reg.new nodes.new) }
{
    hand_over(catalogue::read_sheet(reg, nodes, sheet), value)
}

// A salvage taken apart: the number of its answer, and its report in three lent numbers.
fn hand_report(told: Salvaged, announced: &mut u32, third: &mut u32, value: &mut u32) -> u8
    requires { SmallReport told.report }
    ensures fact_1 { result ≡ number_of (reply told.answer) }
    ensures fact_2 { report_out value.new announced.new third.new ≡ told.report }
{
    let report = told.report;
    *value = report.kept as u32;
    *announced = report.announced as u32;
    *third = report.third as u32;
    let answer = told.answer;
    reply_of(answer).number
}

// Salvages a torn sheet into both tables: the kits kept. The kits announced go out through `announced`, and through `third` the offset of the first
// fault or else the sheet's length; refused, 0 and 0, and the refusal's value through `third`.
pub fn padrisk_salvage(
    reg: &mut [u8],
    nodes: &mut [u16],
    sheet: &[u8],
    announced: &mut u32,
    third: &mut u32,
    value: &mut u32,
) -> u8
    ensures { RescueCrosses sheet.now (tables reg.old nodes.old) result
        (report_out value.new announced.new third.new) (tables reg.new nodes.new) }
{
    hand_report(
        catalogue::salvage(reg, nodes, sheet),
        announced,
        third,
        value,
    )
}

// Writes the card of a held list at the start of the output: the bytes written.
pub fn padrisk_write_card(
    reg: &[u8],
    nodes: &[u16],
    list: &[u16],
    out: &mut [u8],
    value: &mut u32,
) -> u8
    ensures { Crosses (writing_card list.now (tables reg.now nodes.now)) out.old
        result value.new out.new }
{
    hand_over(catalogue::write_card(reg, nodes, list, out), value)
}

// Reads a card into the index: the nodes newly taken.
pub fn padrisk_read_card(reg: &[u8], nodes: &mut [u16], card: &[u8], value: &mut u32) -> u8
    ensures { Crosses (reading_card card.now) (tables reg.now nodes.old)
        result value.new (tables reg.now nodes.new) }
{
    hand_over(catalogue::read_card(reg, nodes, card), value)
}
