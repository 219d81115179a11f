// The calls of the catalogue on tables that are known to be sound. Whoever can prove it of its tables calls these, and pays for no check; the answers
// are those of the public calls. (`SoundTables` is a clause and no type: some calls write the one table, some both and some none, and a struct for each
// way of lending is no plainer than two slices.)
// (Casts here are bounded, which the check proves: `try_from` would add a refusal that cannot come, no plainer.)
ghost use Rattle.std.specs.Prelude.{◌≡◌};
ghost use Rattle.ground.specs.Calls.{answer, SetsBoth};
ghost use Rattle.ground.specs.Tables.{tables};
ghost use Rattle.tables.specs.Inner.{SoundTables};
ghost use Rattle.answers.specs.Answers.{reply};
ghost use Rattle.catalogue.specs.Calls.{inserting, finding, deleting, counting, any_kit, all_kits, almost_kits, writing, writing_card, reading_card};
ghost use Rattle.catalogue.specs.Calls.{Leaves, Sets, Turns};

use answers::{Answer, Refusal};
use pages::{Bookmark, Page, Paged, good_bookmark};
use questions::Question;
use shortfalls::MOST_SHORT;
use tables::check_lines;

// Inserts a list with a tag: the nodes newly taken.
pub fn insert(reg: &[u8], nodes: &mut [u16], list: &[u16], tag: u16) -> Answer
    requires { SoundTables (tables reg.now nodes.old) }
    ensures { Leaves (inserting list.now tag) reg.now nodes.old result reg.now nodes.new }
{
    if tag == 0 {
        return Err(Refusal::NoTag);
    }
    check_lines(reg, list)?;
    if !kits::has_room(list) {
        return Err(Refusal::TooMany);
    }
    index::insert(nodes, kits::row_of(list), tag)
}

// Finds a list: its tag. A list of more than 64 units is not held.
pub fn find(reg: &[u8], nodes: &[u16], list: &[u16]) -> Answer
    requires { SoundTables (tables reg.now nodes.now) }
    ensures { reply result ≡ answer (finding list.now (tables reg.now nodes.now)) }
{
    check_lines(reg, list)?;
    if !kits::has_room(list) {
        return Err(Refusal::NotHeld(0));
    }
    index::find(nodes, kits::row_of(list))
}

// Deletes a list: its tag.
pub fn delete(reg: &[u8], nodes: &mut [u16], list: &[u16]) -> Answer
    requires { SoundTables (tables reg.now nodes.old) }
    ensures { Leaves (deleting list.now) reg.now nodes.old result reg.now nodes.new }
{
    check_lines(reg, list)?;
    if !kits::has_room(list) {
        return Err(Refusal::NotHeld(0));
    }
    index::delete(nodes, kits::row_of(list))
}

// Counts the kits that begin with a list's units. No kit begins with more than 64 units.
pub fn count_beginning(reg: &[u8], nodes: &[u16], list: &[u16]) -> Answer
    requires { SoundTables (tables reg.now nodes.now) }
    ensures { reply result ≡ answer (counting list.now (tables reg.now nodes.now)) }
{
    check_lines(reg, list)?;
    if !kits::has_room(list) {
        return Ok(0);
    }
    Ok(index::count(nodes, kits::row_of(list)))
}

// Any kit of which the question holds, within the bin or containing the list: the tag of the first in listing order, or 0.
pub fn any<Q: Question>(reg: &[u8], nodes: &[u16], list: &[u16]) -> Answer
    requires { SoundTables (tables reg.now nodes.now) }
    ensures { reply result ≡ answer (any_kit Q.asks list.now (tables reg.now nodes.now)) }
{
    check_lines(reg, list)?;
    Ok(usize::from(questions::any::<Q>(nodes, list)))
}

// All kits of which it holds: their tags in listing order at the start of the output.
pub fn all<Q: Question>(reg: &[u8], nodes: &[u16], list: &[u16], out: &mut [u16]) -> Answer
    requires { SoundTables (tables reg.now nodes.now) }
    ensures { Sets (all_kits Q.asks list.now (tables reg.now nodes.now)) out.old result out.new }
{
    check_lines(reg, list)?;
    questions::all::<Q>(nodes, list, out)
}

// All kits that the bin fills but for at most d units: their tags in listing order at the start of the one output, and the shortfall of each at the
// same index of the other.
pub fn all_almost(
    reg: &[u8],
    nodes: &[u16],
    bin: &[u16],
    d: u16,
    tags: &mut [u16],
    shorts: &mut [u16],
) -> Answer
    requires { SoundTables (tables reg.now nodes.now) }
    ensures { SetsBoth (almost_kits d bin.now (tables reg.now nodes.now)) tags.old shorts.old
        (reply result) tags.new shorts.new }
{
    check_lines(reg, bin)?;
    if MOST_SHORT < d {
        return Err(Refusal::TooFar);
    }
    shortfalls::all_almost(nodes, bin, d, tags, shorts)
}

// The next page of the kits of which it holds: the tag of the first kit after the bookmark's row, or 0, and the bookmark at that kit.
pub fn next_page<Q: Paged>(reg: &[u8], nodes: &[u16], list: &[u16], mark: Bookmark) -> Page
    requires { SoundTables (tables reg.now nodes.now) }
    ensures { Turns Q.asks reg.now nodes.now list.now mark result.answer result.mark }
{
    if let Err(refusal) = check_lines(reg, list) {
        return Page {
            answer: Err(refusal),
            mark,
        };
    }
    let parts = register::count_parts(reg) as u16;
    if !good_bookmark(mark, parts) {
        return Page {
            answer: Err(Refusal::BadBookmark),
            mark,
        };
    }
    pages::next_page::<Q>(nodes, list, mark)
}

// Writes the sheet at the start of the output: the bytes written.
pub fn write_sheet(reg: &[u8], nodes: &[u16], out: &mut [u8]) -> Answer
    requires { SoundTables (tables reg.now nodes.now) }
    ensures { Sets (writing (tables reg.now nodes.now)) out.old result out.new }
{
    sheet_write::write_sheet(reg, nodes, out)
}

// Writes the card of a held list at the start of the output: the bytes written. "writing has those of finding a list, then 12 with the bytes needed".
pub fn write_card(reg: &[u8], nodes: &[u16], list: &[u16], out: &mut [u8]) -> Answer
    requires { SoundTables (tables reg.now nodes.now) }
    ensures { Sets (writing_card list.now (tables reg.now nodes.now)) out.old result out.new }
{
    let tag = find(reg, nodes, list)? as u16;
    card_write::write_card(reg, list, tag, out)
}

// Reads a card into the index: the nodes newly taken. "13 with the start of the first faulty item .., then 11 for an unregistered number, value its
// line, then insertion's 9, 10 and 12", and 19.
pub fn read_card(reg: &[u8], nodes: &mut [u16], s: &[u8]) -> Answer
    requires { SoundTables (tables reg.now nodes.old) }
    ensures { Leaves (reading_card s.now) reg.now nodes.old result reg.now nodes.new }
{
    let kit = card_read::read_card(reg, s)?;
    index::insert(nodes, kit.row, kit.tag)
}
