// Document 01, "Write the sheet at the start of a lent output: bytes written". Each item is set down in the rest of the output, behind the last:
// the tail of the output slice is lent on to the writer of each number or kit record. The bytes needed are counted first.
// (Casts here are bounded, which the check proves: `try_from` would add a refusal that cannot come, no plainer.)
#![tactic(auto)]

ghost use Rattle.std.specs.Prelude.{◌≡◌, ◌+◌, ◌*◌, ◌<◌, ◌≤◌, length};
ghost use Rattle.ground.specs.Laid.{laid, Put};
ghost use Rattle.ground.specs.Calls.{Promise};
ghost use Rattle.answers.specs.Answers.{reply};
ghost use Rattle.kits.specs.Kits.{most_units, most_place};
ghost use Rattle.ground.specs.Limits.{most_parts, byte_limit};
ghost use Rattle.register.specs.Inner.{Ready, Short};
ghost use Rattle.nodes.specs.Nodes.{parent, most_nodes};
ghost use Rattle.nodes.specs.Inner.{Used, Shape, Sound};
ghost use Rattle.sheet.specs.Sheet.{bytes_of, line_bytes, contents_of, encode};
ghost use Rattle.sheet.specs.Calls.{writing_of};
ghost use Rattle.sheet.specs.Inner.{most_item, most_record};
ghost use Rattle.sheet_write.specs.Inner.{node_row, head_items, numbers_from, Counted, own_record, records_from, all_records};
ghost use Rattle.sheet_write.specs.Inner.{no_line, end_item, with_unit, end_of, row_lines, Stands, EndsIn, Kept, end_line, Reached, StandsAbove};

use answers::{Answer, Refusal};
use ground::copy_in;
use kits::MOST_UNITS;
use nodes::{child_at, label_at, listed_count, next_at, tag_at};
use register::{count_parts, number_at};
use repeats::LENGTH_BYTES;
use sheet::{
    LINES_AT, QUANTITY_BYTES, Sheet, TWO_BYTES, Width, place_bytes, put_kit, put_line, put_number,
    put_two,
};

// The line that a row ends in: how many lines stand before it, its place and its quantity. In front of every row stands a line of
// nothing, the root's, so that each row ends in one.
#[derive(Clone, Copy)]
pub struct EndLine {
    pub at: usize,
    pub place: u16,
    pub quantity: u16,
}

impl EndLine {
    // The root's.
    pub fn none() -> Self
        ensures { result ≡ no_line }
    {
        Self {
            at: 0,
            place: 0,
            quantity: 0,
        }
    }
}

// The lines of a row of 64 units at most, behind the root's, in a fixed array, since there is no heap.
const ROW_BYTES: usize = (TWO_BYTES + QUANTITY_BYTES) * (MOST_UNITS + 1);

// What a row ends in with one unit more: the same line again, or the next.
#[tactic(auto, using(crate::proofs::Carried::unit_again, crate::proofs::Carried::unit_new))]
fn with_unit(end: EndLine, label: u16) -> EndLine
    requires { (end.at ≤ most_units) × (end.quantity ≤ most_units) }
    ensures { result ≡ with_unit end label }
{
    if label == end.place {
        return EndLine {
            quantity: end.quantity + 1,
            ..end
        };
    }
    EndLine {
        at: end.at + 1,
        place: label,
        quantity: 1,
    }
}

// Sets a line down where it stands among the lines of its row.
fn set_line(lines: &mut [u8], line: EndLine, w: Width)
    requires { (line.at * line_bytes (bytes_of w) + line_bytes (bytes_of w) ≤ length lines.old) × (line.quantity < byte_limit) }
    ensures { lines.new ≡ laid lines.old (line.at * line_bytes (bytes_of w)) (end_item (bytes_of w) line) }
{
    let at = line.at * w.line_bytes();
    put_line(&mut lines[at..], line.place, line.quantity, w);
}

// The record of a node's own kit, where one ends there, from a place of the output on; `lines` are those of its row. (What it is given differs from
// call to call, so there is no struct of it; nor in the functions below.)
fn put_own(out: &mut [u8], at: usize, nodes: &[u16], i: usize, lines: &[u8], w: Width) -> usize
    requires shape { Shape most_place nodes.now }
    requires used { Used nodes.now i }
    requires lines { lines.now ≡ row_lines (bytes_of w) nodes.now i }
    requires room { at + length (own_record (bytes_of w) nodes.now i) ≤ length out.old }
    ensures { Put out.old at (own_record (bytes_of w) nodes.now i) result out.new }
{
    let tag = tag_at(nodes, i);
    if tag == 0 {
        return at;
    }
    at + put_kit(&mut out[at..], tag, lines, w)
}

// The record of a used node. Of its row only two lines can differ from what stands in `lines`: what the row above ends in, and what it ends in itself.
fn put_node(
    out: &mut [u8],
    at: usize,
    nodes: &[u16],
    i: usize,
    lines: &mut [u8],
    above: EndLine,
    end: EndLine,
    w: Width,
) -> usize
    requires ends { EndsIn nodes.now i above end }
    requires stands { Stands (bytes_of w) lines.old (node_row nodes.now (parent nodes.now i)) }
    requires room { at + length (own_record (bytes_of w) nodes.now i) ≤ length out.old }
    ensures put { Put out.old at (own_record (bytes_of w) nodes.now i) result out.new }
    ensures stands { Stands (bytes_of w) lines.new (node_row nodes.now i) }
    ensures kept { Kept (above.at * line_bytes (bytes_of w)) lines.old lines.new }
{
    set_line(lines, above, w);
    set_line(lines, end, w);
    let line = w.line_bytes();
    let to = (end.at + 1) * line;
    put_own(out, at, nodes, i, &lines[line..to], w)
}

// The records of the kits on the chain that starts at a link, each node's own before those below it: in listing order. The row of the node above
// ends in `quantity` of a place, at `line` among its lines; the others stand in `lines`. (Tried: three numbers go down faster than an `EndLine`.)
fn put_kits(
    out: &mut [u8],
    at: usize,
    nodes: &[u16],
    link: usize,
    lines: &mut [u8],
    line: usize,
    place: u16,
    quantity: u16,
    w: Width,
) -> usize
    requires reached { Reached nodes.now link (end_line line place quantity) }
    requires stands { StandsAbove (bytes_of w) nodes.now link lines.old }
    requires room { at + length (records_from (bytes_of w) nodes.now link) ≤ length out.old }
    ensures put { Put out.old at (records_from (bytes_of w) nodes.now link) result out.new }
    ensures kept { Kept (line * line_bytes (bytes_of w)) lines.old lines.new }
{
    let above = EndLine {
        at: line,
        place,
        quantity,
    };
    let mut i = link;
    let mut to = at;
    while i != 0 {
        let end = with_unit(above, label_at(nodes, i));
        let own = put_node(out, to, nodes, i, lines, above, end, w);
        let child = child_at(nodes, i);
        to = put_kits(
            out,
            own,
            nodes,
            child,
            lines,
            end.at,
            end.place,
            end.quantity,
            w,
        );
        i = next_at(nodes, i);
    }
    to
}

// The numbers of n slots.
fn put_numbers(out: &mut [u8], reg: &[u8], n: usize) -> usize
    requires short { Short reg.now n }
    requires room { length (numbers_from reg.now 0 n) ≤ length out.old }
    ensures { Put out.old 0 (numbers_from reg.now 0 n) result out.new }
{
    let mut at = 0;
    for k in 0..n {
        at += put_number(&mut out[at..], number_at(reg, k));
    }
    at
}

// How many bytes the numbers of n slots take.
fn numbers_size(reg: &[u8], n: usize) -> usize
    requires short { Short reg.now n }
    requires few { n ≤ most_parts }
    ensures size { result ≡ length (numbers_from reg.now 0 n) }
    ensures most { result ≤ most_item * n }
{
    let mut total = 0;
    for k in 0..n {
        total += LENGTH_BYTES + number_at(reg, k).len();
    }
    total
}

// How many bytes a node's own record takes: with the root's line, all lines but the last take as many as without it all do.
fn own_size(nodes: &[u16], i: usize, end: EndLine, w: Width) -> usize
    requires shape { Shape most_place nodes.now }
    requires used { Used nodes.now i }
    requires ends { end ≡ end_of (node_row nodes.now i) }
    ensures { result ≡ length (own_record (bytes_of w) nodes.now i) }
{
    if tag_at(nodes, i) == 0 {
        return 0;
    }
    LINES_AT + end.at * w.line_bytes()
}

// How many bytes the records of the kits on the chain that starts at a link, and below it, take.
fn kits_size(nodes: &[u16], link: usize, line: usize, place: u16, quantity: u16, w: Width) -> usize
    requires reached { Reached nodes.now link (end_line line place quantity) }
    requires few { length (records_from (bytes_of w) nodes.now link) ≤ most_record * most_nodes }
    ensures { result ≡ length (records_from (bytes_of w) nodes.now link) }
{
    let above = EndLine {
        at: line,
        place,
        quantity,
    };
    let mut i = link;
    let mut size = 0;
    while i != 0 {
        let end = with_unit(above, label_at(nodes, i));
        let own = size + own_size(nodes, i, end, w);
        let child = child_at(nodes, i);
        size = own + kits_size(nodes, child, end.at, end.place, end.quantity, w);
        i = next_at(nodes, i);
    }
    size
}

// How many bytes all kit records take.
fn records_size(nodes: &[u16], w: Width) -> usize
    requires { Shape most_place nodes.now }
    ensures size { result ≡ length (all_records (bytes_of w) nodes.now) }
    ensures most { result ≤ most_record * most_nodes }
{
    let none = EndLine::none();
    kits_size(
        nodes,
        child_at(nodes, 0),
        none.at,
        none.place,
        none.quantity,
        w,
    )
}

// The mark, the version and the part count.
fn put_head(out: &mut [u8], parts: u16) -> usize
    requires { length (head_items parts) ≤ length out.old }
    ensures { Put out.old 0 (head_items parts) result out.new }
{
    copy_in(out, 0, &Sheet::MARK);
    let at = Sheet::VERSION_AT + put_two(&mut out[Sheet::VERSION_AT..], Sheet::version(parts));
    at + put_two(&mut out[at..], parts)
}

// All kit records, with room for the lines of a row: those of all that is below the root, whose own kit has no unit.
fn put_records(out: &mut [u8], nodes: &[u16], w: Width) -> usize
    requires shape { Shape most_place nodes.now }
    requires room { length (all_records (bytes_of w) nodes.now) ≤ length out.old }
    ensures { Put out.old 0 (all_records (bytes_of w) nodes.now) result out.new }
{
    let mut lines = [0; ROW_BYTES];
    let none = EndLine::none();
    put_kits(
        out,
        0,
        nodes,
        child_at(nodes, 0),
        &mut lines,
        none.at,
        none.place,
        none.quantity,
        w,
    )
}

// All items of a sheet, one behind the other.
fn put_items(out: &mut [u8], reg: &[u8], nodes: &[u16], sheet: Sheet) -> usize
    requires ready { Ready reg.now }
    requires sound { Sound most_place nodes.now }
    requires counted { Counted reg.now nodes.now sheet }
    requires room { length (encode (contents_of reg.now nodes.now)) ≤ length out.old }
    ensures { Put out.old 0 (encode (contents_of reg.now nodes.now)) result out.new }
{
    let numbers = put_head(out, sheet.parts);
    let count = numbers + put_numbers(&mut out[numbers..], reg, usize::from(sheet.parts));
    let records = count + put_two(&mut out[count..], sheet.kits);
    records + put_records(&mut out[records..], nodes, place_bytes(sheet.parts))
}

// Writes the sheet of a sound register and node table: bytes written, or the bytes needed in all where the output has no room.
pub fn write_sheet(reg: &[u8], nodes: &[u16], out: &mut [u8]) -> Answer
    requires fact_1 { Ready reg.now }
    requires fact_2 { Sound most_place nodes.now }
    ensures { Promise (writing_of (contents_of reg.now nodes.now) out.old) out.old (reply result) out.new }
{
    let parts = count_parts(reg);
    let need = Sheet::HEAD
        + numbers_size(reg, parts)
        + TWO_BYTES
        + records_size(nodes, place_bytes(parts as u16));
    if out.len() < need {
        return Err(Refusal::NoRoom(need));
    }
    let sheet = Sheet::new(parts as u16, listed_count(nodes));
    Ok(put_items(out, reg, nodes, sheet))
}
