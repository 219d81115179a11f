// Document 01, "The desk program": the list that a line types, each number looked up, left to right.
// (Casts here are bounded, which the check proves: `try_from` would add a refusal that cannot come, no plainer.)
#![tactic(auto)]

ghost use Rattle.std.specs.Prelude.{◌≡◌, [], ◌∷◌, ◌+◌, ◌≤◌, length};
ghost use Rattle.ground.specs.Laid.{laid};
ghost use Rattle.register.specs.Inner.{Ready};
ghost use Rattle.answers.specs.Answers.{reply};
ghost use Rattle.desk_lists.specs.Inner.{Pairs, most_words, ReadAs};

use answers::Answer;
use desk_text::{SPACE, end_of, read_amount};
use register::look_up_in;

// Sets a place and a quantity down.
fn put_pair(list: &mut [u16], at: usize, place: u16, quantity: u16)
    requires { at + 2 ≤ length list.old }
    ensures { list.new ≡ laid list.old at (place ∷ quantity ∷ []) }
{
    list[at] = place;
    list[at + 1] = quantity;
}

// Reads the pairs of a line from a position on, and sets the list that they type down at the start of the output: how many words it has, or the
// refusal of the first lookup that is refused. The fields are walked by where they end, as in the check of their form (desk_text, `good_pairs`).
pub fn read_list(line: &[u8], from: usize, reg: &[u8], list: &mut [u16]) -> Answer
    requires pairs { Pairs line.now from }
    requires ready { Ready reg.now }
    requires room { most_words ≤ length list.old }
    ensures { ReadAs reg.now line.now from (reply result) list.new }
{
    let mut n = 0;
    let mut at = from;
    while at <= line.len() {
        let number_end = end_of(line, at, SPACE);
        let place = look_up_in(reg, &line[at..number_end])? as u16;
        let start = number_end + 1;
        let end = end_of(line, start, SPACE);
        let quantity = read_amount(&line[start..end]).unwrap();
        put_pair(list, n, place, quantity);
        n += 2;
        at = end + 1;
    }
    Ok(n)
}
