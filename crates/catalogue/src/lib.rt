// Document 01, "Calls and what they answer": the calls that are lent both tables. None has a `requires`: each checks all that it is lent, in the
// paper's order, and refuses. The work behind the checks is done by `sound`, on tables known to be so.
#![tactic(auto)]

ghost use Rattle.std.specs.Prelude.{◌≡◌};
ghost use Rattle.ground.specs.Calls.{answer, SetsBoth};
ghost use Rattle.ground.specs.Tables.{tables};
ghost use Rattle.answers.specs.Answers.{reply};
ghost use Rattle.catalogue.specs.Calls.{emptying, inserting, finding, deleting, counting, any_kit, all_kits, almost_kits, writing, reading};
ghost use Rattle.catalogue.specs.Calls.{writing_card, reading_card, Leaves, Sets, Turns, Rescues};

use answers::Answer;
use pages::{Bookmark, Page, Paged};
use questions::Question;
use sheet_read::{Salvaged, report_of};
use tables::{check_lengths, check_tables};

pub mod sound;

// Empties both tables.
pub fn empty(reg: &mut [u8], nodes: &mut [u16]) -> Answer
    ensures { Leaves emptying reg.old nodes.old result reg.new nodes.new }
{
    check_lengths(reg, nodes)?;
    ground::clear(reg);
    nodes::clear_nodes(nodes);
    Ok(0)
}

// Inserts a list with a tag: the nodes newly taken.
pub fn insert(reg: &[u8], nodes: &mut [u16], list: &[u16], tag: u16) -> Answer
    ensures { Leaves (inserting list.now tag) reg.now nodes.old result reg.now nodes.new }
{
    check_tables(reg, nodes)?;
    sound::insert(reg, nodes, list, tag)
}

// Finds a list: its tag. A list of more than 64 units is not held.
pub fn find(reg: &[u8], nodes: &[u16], list: &[u16]) -> Answer
    ensures { reply result ≡ answer (finding list.now (tables reg.now nodes.now)) }
{
    check_tables(reg, nodes)?;
    sound::find(reg, nodes, list)
}

// Deletes a list: its tag.
pub fn delete(reg: &[u8], nodes: &mut [u16], list: &[u16]) -> Answer
    ensures { Leaves (deleting list.now) reg.now nodes.old result reg.now nodes.new }
{
    check_tables(reg, nodes)?;
    sound::delete(reg, nodes, list)
}

// Counts the kits that begin with a list's units. No kit begins with more than 64 units.
pub fn count_beginning(reg: &[u8], nodes: &[u16], list: &[u16]) -> Answer
    ensures { reply result ≡ answer (counting list.now (tables reg.now nodes.now)) }
{
    check_tables(reg, nodes)?;
    sound::count_beginning(reg, nodes, list)
}

// Any kit of which the question holds, within the bin or containing the list: the tag of the first in listing order, or 0.
pub fn any<Q: Question>(reg: &[u8], nodes: &[u16], list: &[u16]) -> Answer
    ensures { reply result ≡ answer (any_kit Q.asks list.now (tables reg.now nodes.now)) }
{
    check_tables(reg, nodes)?;
    sound::any::<Q>(reg, nodes, list)
}

// All kits of which it holds: their tags in listing order at the start of the output.
pub fn all<Q: Question>(reg: &[u8], nodes: &[u16], list: &[u16], out: &mut [u16]) -> Answer
    ensures { Sets (all_kits Q.asks list.now (tables reg.now nodes.now)) out.old result out.new }
{
    check_tables(reg, nodes)?;
    sound::all::<Q>(reg, nodes, list, out)
}

// All kits that the bin fills but for at most d units: their tags in listing order at the start of the one output, and the shortfall of each at the
// same index of the other.
pub fn all_almost(
    reg: &[u8],
    nodes: &[u16],
    bin: &[u16],
    d: u16,
    tags: &mut [u16],
    shorts: &mut [u16],
) -> Answer
    ensures { SetsBoth (almost_kits d bin.now (tables reg.now nodes.now)) tags.old shorts.old
        (reply result) tags.new shorts.new }
{
    check_tables(reg, nodes)?;
    sound::all_almost(reg, nodes, bin, d, tags, shorts)
}

// The next page of the kits of which it holds: the tag of the first kit after the bookmark's row, or 0 where none is left; and the bookmark at that
// kit, or as it was. By value: `turning` moves a lent one on in place.
pub fn next_page<Q: Paged>(reg: &[u8], nodes: &[u16], list: &[u16], mark: Bookmark) -> Page
    ensures { Turns Q.asks reg.now nodes.now list.now mark result.answer result.mark }
{
    if let Err(refusal) = check_tables(reg, nodes) {
        return Page {
            answer: Err(refusal),
            mark,
        };
    }
    sound::next_page::<Q>(reg, nodes, list, mark)
}

// Writes the sheet at the start of the output: the bytes written.
pub fn write_sheet(reg: &[u8], nodes: &[u16], out: &mut [u8]) -> Answer
    ensures { Sets (writing (tables reg.now nodes.now)) out.old result out.new }
{
    check_tables(reg, nodes)?;
    sound::write_sheet(reg, nodes, out)
}

// Reads a sheet into both tables: the kits read.
pub fn read_sheet(reg: &mut [u8], nodes: &mut [u16], s: &[u8]) -> Answer
    ensures { Leaves (reading s.now) reg.old nodes.old result reg.new nodes.new }
{
    check_lengths(reg, nodes)?;
    sheet_read::read_sheet(reg, nodes, s)
}

// Request 12, "Rescue a torn sheet": fills both tables with what is kept of it; "reports the kits kept, the kits announced, and the offset of the
// first fault or else the sheet's length". The report is part of the answer, not lent.
pub fn salvage(reg: &mut [u8], nodes: &mut [u16], s: &[u8]) -> Salvaged
    ensures { Rescues s.now reg.old nodes.old result reg.new nodes.new }
{
    if let Err(refusal) = check_lengths(reg, nodes) {
        let answer = Err(refusal);
        return Salvaged {
            answer,
            report: report_of(answer, 0, 0),
        };
    }
    sheet_read::salvage(reg, nodes, s)
}

// Request 5, "Write a card for a held list, value the bytes": at the start of the output.
pub fn write_card(reg: &[u8], nodes: &[u16], list: &[u16], out: &mut [u8]) -> Answer
    ensures { Sets (writing_card list.now (tables reg.now nodes.now)) out.old result out.new }
{
    check_tables(reg, nodes)?;
    sound::write_card(reg, nodes, list, out)
}

// Request 5, "read a card into the index, value the nodes taken".
pub fn read_card(reg: &[u8], nodes: &mut [u16], s: &[u8]) -> Answer
    ensures { Leaves (reading_card s.now) reg.now nodes.old result reg.now nodes.new }
{
    check_tables(reg, nodes)?;
    sound::read_card(reg, nodes, s)
}
