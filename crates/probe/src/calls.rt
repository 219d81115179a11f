// The letters: each makes one call, on what it needs of the memory lent. A new letter is a line of `call`, or of `call_register`.
// (The letter stays a byte: it is the format of a request, and what no line names breaks it.)
ghost use Rattle.std.specs.Prelude.{◌≡◌, ◌+◌, length};
ghost use Rattle.kits.specs.Kits.{most_units};

use crate::blocks::Blocks;
use crate::marks::{mark_in, put_mark};
use crate::reading::Request;
use answers::{Answer, reply_of};
use makers::{clear_maker, label, label_answer, set_maker, zero_makers};
use pages::Page;
use questions::{Containing, Within};
use register::{look_up, register_number, show, show_answer};

// A reply, and the second and third number of a call that has them.
#[derive(Clone, Copy)]
pub struct Told {
    pub number: u8,
    pub value: usize,
    pub second: usize,
    pub third: usize,
}

fn tells(a: Answer) -> Told {
    let r = reply_of(a);
    Told {
        number: r.number,
        value: r.value,
        second: 0,
        third: 0,
    }
}

// A page was shown: the bookmark is moved on where it stands.
fn turns(mark: &mut [u16], page: Page) -> Answer
    requires { length mark.old ≡ most_units + 2 }
{
    put_mark(mark, page.mark);
    page.answer
}

// Salvage has three numbers: the kits kept, the kits announced, and the offset; refused, 0, 0 and the refusal's value.
fn rescues(reg: &mut [u8], nodes: &mut [u16], s: &[u8]) -> Told {
    let rescued = catalogue::salvage(reg, nodes, s);
    let report = rescued.report;
    Told {
        number: reply_of(rescued.answer).number,
        value: report.kept,
        second: report.announced,
        third: report.third,
    }
}

// The calls that are lent no node table.
fn call_register(ask: Request, reg: &mut [u8], makers: &mut [u8], input: &[u8]) -> Option<Answer> {
    match ask.letter {
        b'p' => Some(register_number(reg, input)),
        b'l' => Some(look_up(reg, input)),
        b'n' => Some(show_answer(reg, ask.a)),
        b'z' => Some(zero_makers(reg, makers)),
        b'm' => Some(set_maker(reg, makers, ask.a, input)),
        b'u' => Some(clear_maker(reg, makers, ask.a)),
        b'v' => Some(label_answer(reg, makers, ask.a)),
        _ => None,
    }
}

impl Blocks<'_> {
    // Makes the call of a letter, if it has one. Where a page is turned, K has to hold a bookmark.
    pub fn call(&mut self, ask: Request) -> Option<Told> {
        let reg = &mut *self.reg;
        let nodes = &mut *self.nodes;
        let list = &mut *self.list;
        let input = &mut *self.input;
        let places = &mut *self.places;
        let seconds = &mut *self.seconds;
        let makers = &mut *self.makers;
        let output = &mut *self.output;
        let mark = &mut *self.mark;
        let answer = match ask.letter {
            b'e' => catalogue::empty(reg, nodes),
            b'k' => catalogue::insert(reg, nodes, list, ask.a),
            b'f' => catalogue::find(reg, nodes, list),
            b'd' => catalogue::delete(reg, nodes, list),
            b'#' => catalogue::count_beginning(reg, nodes, list),
            b'w' => catalogue::any::<Within>(reg, nodes, list),
            b'c' => catalogue::any::<Containing>(reg, nodes, list),
            b'W' => catalogue::all::<Within>(reg, nodes, list, places),
            b'C' => catalogue::all::<Containing>(reg, nodes, list, places),
            b'a' => catalogue::all_almost(reg, nodes, list, ask.a, places, seconds),
            b's' => catalogue::write_sheet(reg, nodes, output),
            b'r' => catalogue::read_sheet(reg, nodes, input),
            b'S' => return Some(rescues(reg, nodes, input)),
            b'x' => catalogue::write_card(reg, nodes, list, output),
            b'X' => catalogue::read_card(reg, nodes, input),
            b'g' => {
                let before = mark_in(mark)?;
                turns(
                    mark,
                    catalogue::next_page::<Within>(reg, nodes, list, before),
                )
            }
            b'G' => {
                let before = mark_in(mark)?;
                turns(
                    mark,
                    catalogue::next_page::<Containing>(reg, nodes, list, before),
                )
            }
            _ => call_register(ask, reg, makers, input)?,
        };
        Some(tells(answer))
    }

    // What comes back as the output: for the calls that show a number, the stretch shown.
    pub fn shown(&self, ask: Request) -> &[u8] {
        match ask.letter {
            b'n' => show(self.reg, ask.a),
            b'v' => label(self.reg, self.makers, ask.a),
            _ => self.output,
        }
    }
}
