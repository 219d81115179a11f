// The face of the catalogue as C links it: each export makes one call of `face`, with the same promise, under the name that C calls it by; so each kind
// of question has its own exports.
#![tactic(auto)]

ghost use Rattle.std.specs.Prelude.{◌≡◌, cond, ◌+◌, ◌-◌, ◌*◌, ◌<◌, ◌^◌};
ghost use Rattle.ground.specs.Lists.{is_zero};
ghost use Rattle.ground.specs.Calls.{answer, leaves, number_of, value_of, both};
ghost use Rattle.ground.specs.Stretch.{Stretch};
ghost use Rattle.ground.specs.Tables.{tables};
ghost use Rattle.answers.specs.Answers.{reply};
ghost use Rattle.register.specs.Register.{slot_bytes};
ghost use Rattle.register.specs.Calls.{registering, looking_up, showing, stretch_from, stretch_size};
ghost use Rattle.makers.specs.Calls.{beside, zeroing_makers, setting_maker, clearing_maker, showing_label, is_makers, holder, label_from, label_size};
ghost use Rattle.questions.specs.Questions.{is_within, is_containing};
ghost use Rattle.catalogue.specs.Calls.{emptying, inserting, finding, deleting, counting, any_kit, all_kits, almost_kits, turning, writing, reading};
ghost use Rattle.catalogue.specs.Calls.{writing_card, reading_card};
ghost use Rattle.face.specs.Face.{Handed, Crosses, beside_lent, lent_mark, mark_of, set_to, over_lent};
ghost use Rattle.face.specs.Face.{SmallReport, report_out, RescueCrosses};
ghost use Rattle.face.specs.Inner.{PlaceShown};

use kits::MOST_UNITS;

// Empties both tables.
#[unsafe(no_mangle)]
pub extern "C" fn padrisk_empty(reg: &mut [u8], nodes: &mut [u16], value: &mut u32) -> u8
    ensures { Crosses emptying (tables reg.old nodes.old)
        result value.new (tables reg.new nodes.new) }
{
    face::padrisk_empty(reg, nodes, value)
}

// Registers a number: its place.
#[unsafe(no_mangle)]
pub extern "C" fn padrisk_register_number(reg: &mut [u8], num: &[u8], value: &mut u32) -> u8
    ensures { Crosses (registering num.now) reg.old result value.new reg.new }
{
    face::padrisk_register_number(reg, num, value)
}

// Looks a number up: its place.
#[unsafe(no_mangle)]
pub extern "C" fn padrisk_look_up(reg: &[u8], num: &[u8], value: &mut u32) -> u8
    ensures { Handed (answer (looking_up num.now reg.now)) result value.new }
{
    face::padrisk_look_up(reg, num, value)
}

// Whether the number at a place can be shown.
#[unsafe(no_mangle)]
pub extern "C" fn padrisk_show_answer(reg: &[u8], place: u16, value: &mut u32) -> u8
    ensures { Handed (answer (showing place reg.now)) result value.new }
{
    face::padrisk_show_answer(reg, place, value)
}

// Shows the number at a place by numbers: how many bytes of the register it is; from which on goes out through `start`.
#[unsafe(no_mangle)]
pub extern "C" fn padrisk_show(reg: &[u8], place: u16, start: &mut usize) -> usize
    ensures fact_1 { start.new ≡ stretch_from place reg.now }
    ensures fact_2 { result ≡ stretch_size place reg.now }
{
    face::padrisk_show(reg, place, start)
}

// Zeroes the maker's table.
#[unsafe(no_mangle)]
pub extern "C" fn padrisk_zero_makers(reg: &[u8], makers: &mut [u8], value: &mut u32) -> u8
    ensures { Crosses (beside_lent zeroing_makers reg.now) makers.old result value.new makers.new }
{
    face::padrisk_zero_makers(reg, makers, value)
}

// Sets the maker's number of a place.
#[unsafe(no_mangle)]
pub extern "C" fn padrisk_set_maker(
    reg: &[u8],
    makers: &mut [u8],
    place: u16,
    num: &[u8],
    value: &mut u32,
) -> u8
    ensures { Crosses (beside_lent (setting_maker place num.now) reg.now) makers.old
        result value.new makers.new }
{
    face::padrisk_set_maker(reg, makers, place, num, value)
}

// Clears the maker's number of a place.
#[unsafe(no_mangle)]
pub extern "C" fn padrisk_clear_maker(
    reg: &[u8],
    makers: &mut [u8],
    place: u16,
    value: &mut u32,
) -> u8
    ensures { Crosses (beside_lent (clearing_maker place) reg.now) makers.old result value.new makers.new }
{
    face::padrisk_clear_maker(reg, makers, place, value)
}

// Whether a place has a label: the maker's number, or ours.
#[unsafe(no_mangle)]
pub extern "C" fn padrisk_label_answer(reg: &[u8], makers: &[u8], place: u16, value: &mut u32) -> u8
    ensures { Handed (answer (showing_label place (beside reg.now makers.now))) result value.new }
{
    face::padrisk_label_answer(reg, makers, place, value)
}

// The label of a place by numbers: how many bytes it is. From which on goes out through `start`, and through `theirs` 1 where they are bytes of the
// maker's table, and else 0.
#[unsafe(no_mangle)]
pub extern "C" fn padrisk_label<'a>(
    reg: &'a [u8],
    makers: &'a [u8],
    place: u16,
    theirs: &mut u8,
    start: &mut usize,
) -> usize
    ensures fact_1 { theirs.new ≡ cond (is_makers place (beside reg.now makers.now)) 1 0 }
    ensures fact_2 { start.new ≡ label_from place (beside reg.now makers.now) }
    ensures fact_3 { result ≡ label_size place (beside reg.now makers.now) }
{
    face::padrisk_label(reg, makers, place, theirs, start)
}

// Inserts a list with a tag: the nodes newly taken.
#[unsafe(no_mangle)]
pub extern "C" fn padrisk_insert(
    reg: &[u8],
    nodes: &mut [u16],
    list: &[u16],
    tag: u16,
    value: &mut u32,
) -> u8
    ensures { Crosses (inserting list.now tag) (tables reg.now nodes.old)
        result value.new (tables reg.now nodes.new) }
{
    face::padrisk_insert(reg, nodes, list, tag, value)
}

// Finds a list: its tag.
#[unsafe(no_mangle)]
pub extern "C" fn padrisk_find(reg: &[u8], nodes: &[u16], list: &[u16], value: &mut u32) -> u8
    ensures { Handed (answer (finding list.now (tables reg.now nodes.now))) result value.new }
{
    face::padrisk_find(reg, nodes, list, value)
}

// Deletes a list: its tag.
#[unsafe(no_mangle)]
pub extern "C" fn padrisk_delete(reg: &[u8], nodes: &mut [u16], list: &[u16], value: &mut u32) -> u8
    ensures { Crosses (deleting list.now) (tables reg.now nodes.old)
        result value.new (tables reg.now nodes.new) }
{
    face::padrisk_delete(reg, nodes, list, value)
}

// Counts the kits that begin with a list's units.
#[unsafe(no_mangle)]
pub extern "C" fn padrisk_count_beginning(
    reg: &[u8],
    nodes: &[u16],
    list: &[u16],
    value: &mut u32,
) -> u8
    ensures { Handed (answer (counting list.now (tables reg.now nodes.now))) result value.new }
{
    face::padrisk_count_beginning(reg, nodes, list, value)
}

// Any kit within the bin: the tag of the first in listing order, or 0.
#[unsafe(no_mangle)]
pub extern "C" fn padrisk_any_within(reg: &[u8], nodes: &[u16], bin: &[u16], value: &mut u32) -> u8
    ensures { Handed (answer (any_kit is_within bin.now (tables reg.now nodes.now))) result value.new }
{
    face::padrisk_any_within(reg, nodes, bin, value)
}

// Any kit containing the list: the tag of the first in listing order, or 0.
#[unsafe(no_mangle)]
pub extern "C" fn padrisk_any_containing(
    reg: &[u8],
    nodes: &[u16],
    list: &[u16],
    value: &mut u32,
) -> u8
    ensures { Handed (answer (any_kit is_containing list.now (tables reg.now nodes.now))) result value.new }
{
    face::padrisk_any_containing(reg, nodes, list, value)
}

// All kits within the bin: their tags in listing order at the start of the output.
#[unsafe(no_mangle)]
pub extern "C" fn padrisk_all_within(
    reg: &[u8],
    nodes: &[u16],
    bin: &[u16],
    out: &mut [u16],
    value: &mut u32,
) -> u8
    ensures { Crosses (all_kits is_within bin.now (tables reg.now nodes.now)) out.old
        result value.new out.new }
{
    face::padrisk_all_within(reg, nodes, bin, out, value)
}

// All kits containing the list: their tags in listing order at the start of the output.
#[unsafe(no_mangle)]
pub extern "C" fn padrisk_all_containing(
    reg: &[u8],
    nodes: &[u16],
    list: &[u16],
    out: &mut [u16],
    value: &mut u32,
) -> u8
    ensures { Crosses (all_kits is_containing list.now (tables reg.now nodes.now)) out.old
        result value.new out.new }
{
    face::padrisk_all_containing(reg, nodes, list, out, value)
}

// All kits that the bin fills but for at most d units: their tags in the one output, and the shortfall of each in the other.
#[unsafe(no_mangle)]
pub extern "C" fn padrisk_all_almost(
    reg: &[u8],
    nodes: &[u16],
    bin: &[u16],
    d: u16,
    tags: &mut [u16],
    shorts: &mut [u16],
    value: &mut u32,
) -> u8
    ensures { Crosses (almost_kits d bin.now (tables reg.now nodes.now))
        (both tags.old shorts.old) result value.new (both tags.new shorts.new) }
{
    face::padrisk_all_almost(reg, nodes, bin, d, tags, shorts, value)
}

// Turns to the next kit within the bin: its tag, or 0 when none is left. The bookmark is lent taken apart, and moved on in place.
#[unsafe(no_mangle)]
pub extern "C" fn padrisk_turn_within(
    reg: &[u8],
    nodes: &[u16],
    bin: &[u16],
    begun: &mut u8,
    len: &mut usize,
    places: &mut [u16; MOST_UNITS],
    value: &mut u32,
) -> u8
    ensures { Crosses (over_lent (turning is_within bin.now (tables reg.now nodes.now)))
        (lent_mark begun.old len.old places.old) result value.new
        (lent_mark begun.new len.new places.new) }
{
    face::padrisk_turn_within(reg, nodes, bin, begun, len, places, value)
}

// Turns to the next kit containing the list, alike.
#[unsafe(no_mangle)]
pub extern "C" fn padrisk_turn_containing(
    reg: &[u8],
    nodes: &[u16],
    list: &[u16],
    begun: &mut u8,
    len: &mut usize,
    places: &mut [u16; MOST_UNITS],
    value: &mut u32,
) -> u8
    ensures { Crosses (over_lent (turning is_containing list.now (tables reg.now nodes.now)))
        (lent_mark begun.old len.old places.old) result value.new
        (lent_mark begun.new len.new places.new) }
{
    face::padrisk_turn_containing(reg, nodes, list, begun, len, places, value)
}

// Writes the sheet at the start of the output: the bytes written.
#[unsafe(no_mangle)]
pub extern "C" fn padrisk_write_sheet(
    reg: &[u8],
    nodes: &[u16],
    out: &mut [u8],
    value: &mut u32,
) -> u8
    ensures { Crosses (writing (tables reg.now nodes.now)) out.old
        result value.new out.new }
{
    face::padrisk_write_sheet(reg, nodes, out, value)
}

// Reads a sheet into both tables: the kits read.
#[unsafe(no_mangle)]
pub extern "C" fn padrisk_read_sheet(
    reg: &mut [u8],
    nodes: &mut [u16],
    sheet: &[u8],
    value: &mut u32,
) -> u8
    ensures { Crosses (reading sheet.now) (tables reg.old nodes.old)
        result value.new (tables reg.new nodes.new) }
{
    face::padrisk_read_sheet(reg, nodes, sheet, value)
}

// Salvages a torn sheet into both tables: the kits kept. The kits announced go out through `announced`, and through `third` the offset of the first
// fault or else the sheet's length; refused, 0 and 0, and the refusal's value through `third`.
#[unsafe(no_mangle)]
pub extern "C" fn padrisk_salvage(
    reg: &mut [u8],
    nodes: &mut [u16],
    sheet: &[u8],
    announced: &mut u32,
    third: &mut u32,
    value: &mut u32,
) -> u8
    ensures { RescueCrosses sheet.now (tables reg.old nodes.old) result
        (report_out value.new announced.new third.new) (tables reg.new nodes.new) }
{
    face::padrisk_salvage(reg, nodes, sheet, announced, third, value)
}

// Writes the card of a held list at the start of the output: the bytes written.
#[unsafe(no_mangle)]
pub extern "C" fn padrisk_write_card(
    reg: &[u8],
    nodes: &[u16],
    list: &[u16],
    out: &mut [u8],
    value: &mut u32,
) -> u8
    ensures { Crosses (writing_card list.now (tables reg.now nodes.now)) out.old
        result value.new out.new }
{
    face::padrisk_write_card(reg, nodes, list, out, value)
}

// Reads a card into the index: the nodes newly taken.
#[unsafe(no_mangle)]
pub extern "C" fn padrisk_read_card(
    reg: &[u8],
    nodes: &mut [u16],
    card: &[u8],
    value: &mut u32,
) -> u8
    ensures { Crosses (reading_card card.now) (tables reg.now nodes.old)
        result value.new (tables reg.now nodes.new) }
{
    face::padrisk_read_card(reg, nodes, card, value)
}
