// Document 01, "The desk program": a line in, a reply in bytes out, over lent tables and lent outputs.
#![tactic(auto)]

ghost use Rattle.std.specs.Prelude.{◌≡◌, [], ◌+◌, ◌*◌, ◌≤◌, length};
ghost use Rattle.ground.specs.Calls.{number_of, value_of, memory, Promise};
ghost use Rattle.register.specs.Inner.{Ready};
ghost use Rattle.ground.specs.Tables.{tables};
ghost use Rattle.tables.specs.Inner.{SoundTables};
ghost use Rattle.answers.specs.Answers.{reply};
ghost use Rattle.catalogue.specs.Calls.{writing};
ghost use Rattle.desk_text.specs.Lines.{fields_from, parsed};
ghost use Rattle.desk_text.specs.Letters.{byte_of, writes as writesLetter};
ghost use Rattle.desk_replies.specs.Replies.{reply_line, tags_text, ReplyStands};
ghost use Rattle.desk_replies.specs.Inner.{head_room, tag_room};
ghost use Rattle.desk_lists.specs.Inner.{Pairs};
ghost use Rattle.desk_lines.specs.Desk.{sheet_text, register_line, write_line, call_of, asked, ask_line, at_desk, Answers};
ghost use Rattle.desk_lines.specs.Inner.{Room, set_down_by, printed, asked_places, ask_places, Outputs};

use answers::{Answer, reply_of};
use catalogue::sound;
use desk_lists::read_list;
use desk_replies::{put_listing, put_other, put_reply, put_sheet};
use desk_text::{Letter, Line, parse};
use questions::{Containing, Within};
use register::register_in;

// A pair takes four bytes of a line at least, so a line's list is no longer than this.
const LIST_WORDS: usize = 256;

// Replies with letter, number and value.
fn put_answer(out: &mut [u8], letter: Letter, a: Answer) -> usize
    requires { head_room + 1 ≤ length out.old }
    ensures { ReplyStands out.old (reply_line (byte_of letter) (number_of (reply a)) (value_of (reply a)) []) result out.new }
{
    let r = reply_of(a);
    put_reply(out, letter.byte(), usize::from(r.number), r.value)
}

// Replies with the tags that a listing has set down.
fn put_listed(out: &mut [u8], letter: Letter, a: Answer, places: &[u16]) -> usize
    requires room { head_room + tag_room * length places.now + 1 ≤ length out.old }
    requires inside { set_down_by (reply a) ≤ length places.now }
    ensures { ReplyStands out.old (printed (byte_of letter) tags_text (reply a) places.now) result out.new }
{
    match a {
        Ok(n) => put_listing(out, letter.byte(), &places[..n]),
        Err(_) => put_answer(out, letter, a),
    }
}

// Replies with the sheet that was written.
fn put_written(out: &mut [u8], a: Answer, sheet: &[u8]) -> usize
    requires room { head_room + 1 + 2 * length sheet.now + 1 ≤ length out.old }
    requires inside { set_down_by (reply a) ≤ length sheet.now }
    ensures { ReplyStands out.old (printed writesLetter sheet_text (reply a) sheet.now) result out.new }
{
    match a {
        Ok(n) => put_sheet(out, Letter::Writes.byte(), &sheet[..n]),
        Err(_) => put_answer(out, Letter::Writes, a),
    }
}

// "P number registers": the number stands from a position on.
fn register_line(line: &[u8], from: usize, reg: &mut [u8], nodes: &[u16], out: &mut [u8]) -> usize
    requires one_number { length (fields_from line.now from) ≡ 1 }
    requires ready { Ready reg.old }
    requires room { head_room + 1 ≤ length out.old }
    ensures { Answers (register_line (fields_from line.now from) (tables reg.old nodes.now)) out.old result
        out.new (tables reg.new nodes.now) }
{
    put_answer(out, Letter::Registers, register_in(reg, &line[from..]))
}

// "W writes".
fn write_line(reg: &[u8], nodes: &[u16], sheet: &mut [u8], out: &mut [u8]) -> usize
    requires sound { SoundTables (tables reg.now nodes.now) }
    requires room { head_room + 1 + 2 * length sheet.old + 1 ≤ length out.old }
    ensures says { ReplyStands out.old (write_line (tables reg.now nodes.now) sheet.old).says result out.new }
    ensures sheet { sheet.new ≡ memory (writing (tables reg.now nodes.now) sheet.old) sheet.old }
{
    let a = sound::write_sheet(reg, nodes, sheet);
    put_written(out, a, sheet)
}

// "K tag, then number and quantity pairs, inserts; F finds; D deletes; B any within; S any containing".
fn call(letter: Letter, tag: u16, list: &[u16], reg: &[u8], nodes: &mut [u16]) -> Answer
    requires { SoundTables (tables reg.now nodes.old) }
    ensures { Promise (call_of (byte_of letter) tag list.now (tables reg.now nodes.old))
        (tables reg.now nodes.old) (reply result) (tables reg.now nodes.new) }
{
    match letter {
        Letter::Inserts => sound::insert(reg, nodes, list, tag),
        Letter::Finds => sound::find(reg, nodes, list),
        Letter::Deletes => sound::delete(reg, nodes, list),
        Letter::AnyWithin => sound::any::<Within>(reg, nodes, list),
        _ => sound::any::<Containing>(reg, nodes, list),
    }
}

// Answers what a letter asks of a list: "b and s list all". (The memory is lent apart, as to `answer_line`.)
fn ask(
    letter: Letter,
    tag: u16,
    list: &[u16],
    reg: &[u8],
    nodes: &mut [u16],
    places: &mut [u16],
    out: &mut [u8],
) -> usize
    requires sound { SoundTables (tables reg.now nodes.old) }
    requires room { head_room + tag_room * length places.old + 1 ≤ length out.old }
    ensures answers { Answers (asked (byte_of letter) tag places.old (tables reg.now nodes.old) list.now) out.old result
        out.new (tables reg.now nodes.new) }
    ensures places { places.new ≡ asked_places (byte_of letter) places.old (tables reg.now nodes.old) list.now }
{
    match letter {
        Letter::AllWithin => {
            let within = sound::all::<Within>(reg, nodes, list, places);
            put_listed(out, letter, within, places)
        }
        Letter::AllContaining => {
            let containing = sound::all::<Containing>(reg, nodes, list, places);
            put_listed(out, letter, containing, places)
        }
        _ => {
            let a = call(letter, tag, list, reg, nodes);
            put_answer(out, letter, a)
        }
    }
}

// A line with a list. "Part numbers are looked up first, left to right; a lookup refusal is the answer."
fn ask_line(
    letter: Letter,
    tag: u16,
    line: &[u8],
    from: usize,
    reg: &[u8],
    nodes: &mut [u16],
    places: &mut [u16],
    out: &mut [u8],
) -> usize
    requires pairs { Pairs line.now from }
    requires sound { SoundTables (tables reg.now nodes.old) }
    requires room { head_room + tag_room * length places.old + 1 ≤ length out.old }
    ensures answers { Answers (ask_line (byte_of letter) tag (fields_from line.now from) places.old (tables reg.now nodes.old))
        out.old result out.new (tables reg.now nodes.new) }
    ensures places { places.new ≡ ask_places (byte_of letter) (fields_from line.now from) places.old (tables reg.now nodes.old) }
{
    let mut list = [0u16; LIST_WORDS];
    let read = read_list(line, from, reg, &mut list);
    match read {
        Ok(n) => ask(letter, tag, &list[..n], reg, nodes, places, out),
        Err(_) => put_answer(out, letter, read),
    }
}

// Answers a line: the reply stands at the start of the output, and its length is returned. The tables are sound and stay so (proofs/Left,
// `left_sound`), so none of the calls checks them. Each memory is lent apart: what a caller has of it may be of any length (`Room`), and the contract
// says of each output what it holds (`Outputs`).
pub fn answer_line(
    line: &[u8],
    reg: &mut [u8],
    nodes: &mut [u16],
    places: &mut [u16],
    sheet: &mut [u8],
    out: &mut [u8],
) -> usize
    requires sound { SoundTables (tables reg.old nodes.old) }
    requires room { Room places.old sheet.old out.old }
    ensures answers { Answers (at_desk (parsed line.now) places.old sheet.old (tables reg.old nodes.old))
        out.old result out.new (tables reg.new nodes.new) }
    ensures outputs { Outputs (parsed line.now) places.old sheet.old (tables reg.old nodes.old)
        places.new sheet.new }
{
    let Some(Line { letter, tag, from }) = parse(line) else {
        return put_other(out);
    };
    match letter {
        Letter::Registers => register_line(line, from, reg, nodes, out),
        Letter::Writes => write_line(reg, nodes, sheet, out),
        _ => ask_line(letter, tag, line, from, reg, nodes, places, out),
    }
}
