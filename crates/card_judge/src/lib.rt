// Request 5, "13 with the start of the first faulty item": the judge of a card, which touches no table. It answers where the first faulty item starts,
// or the card's tag and line count.
#![tactic(auto)]

ghost use Rattle.std.specs.Prelude.{◌≡◌, ◌<◌, ◌≤◌, length, get_or};
ghost use Rattle.ground.specs.Limits.{byte_limit};
ghost use Rattle.repeats.specs.Inner.{next_place};
ghost use Rattle.kits.specs.Kits.{most_units};
ghost use Rattle.card.specs.Inner.{card_head};
ghost use Rattle.card.specs.Reading.{decode_card};
ghost use Rattle.card_judge.specs.Inner.{card_judged, behind_head, card_head_says, LineBefore, comes_next, amount_passes, line_passes, line_end};

use card::{Card, number_before};
use kits::{MOST_QUANTITY, MOST_UNITS};
use register::good_number;
use repeats::number_here;
use sheet::{QUANTITY_BYTES, item_size, two_at};

// The most of one part, to count with: a constant, where `usize::from` cannot be called.
const MOST_EACH: usize = MOST_QUANTITY as usize;

// Where the first faulty item of a card starts.
pub type FaultAt = usize;

// Mark, version, tag and line count.
fn read_head(s: &[u8]) -> Result<Card, FaultAt>
    ensures { card_head_says s.now result }
{
    if !s.starts_with(&Card::MARK) {
        return Err(0);
    }
    if s.len() < Card::TAG_AT || two_at(s, Card::VERSION_AT) != Card::VERSION {
        return Err(Card::VERSION_AT);
    }
    if s.len() < Card::COUNT_AT {
        return Err(Card::TAG_AT);
    }
    let tag = two_at(s, Card::TAG_AT);
    if tag == 0 {
        return Err(Card::TAG_AT);
    }
    if s.len() < Card::HEAD {
        return Err(Card::COUNT_AT);
    }
    Ok(Card::new(tag, usize::from(s[Card::COUNT_AT])))
}

// The quantity of the line at a place, which stands behind its number.
pub fn quantity_here(s: &[u8], at: usize) -> usize
    requires { next_place s.now at < length s.now }
    ensures value { result ≡ get_or s.now (next_place s.now at) 0 }
    ensures byte { result < byte_limit }
{
    usize::from(s[at + item_size(s, at)])
}

// Whether a number comes after that of the line before, which starts at prev; that of the first line comes after none.
fn comes_next(s: &[u8], prev: Option<usize>, num: &[u8]) -> bool
    requires { LineBefore s.now prev }
    ensures { result ≡ comes_next s.now prev num.now }
{
    match prev {
        Some(p) => number_before(number_here(s, p), num),
        None => true,
    }
}

// Whether a quantity passes behind so many units: "units past 64 are charged to the line that passes it".
fn amount_passes(quantity: usize, units: usize) -> bool
    requires { units ≤ most_units }
    ensures { result ≡ amount_passes units quantity }
{
    0 < quantity && quantity <= MOST_EACH && units + quantity <= MOST_UNITS
}

// Whether the line at a place passes, behind lines that have so many units and the last of which starts at prev.
fn line_passes(s: &[u8], at: usize, prev: Option<usize>, units: usize) -> bool
    requires whole { next_place s.now at < length s.now }
    requires before { LineBefore s.now prev }
    requires few { units ≤ most_units }
    ensures { result ≡ line_passes s.now prev units at }
{
    let num = number_here(s, at);
    good_number(num) && comes_next(s, prev, num) && amount_passes(quantity_here(s, at), units)
}

// Where the line at a place ends; none where it is cut short or does not pass.
fn line_end(s: &[u8], at: usize, prev: Option<usize>, units: usize) -> Option<usize>
    requires inside { at ≤ length s.now }
    requires before { LineBefore s.now prev }
    requires few { units ≤ most_units }
    ensures { result ≡ line_end s.now prev units at }
{
    if s.len() == at {
        return None;
    }
    let size = item_size(s, at) + QUANTITY_BYTES;
    if s.len() - at < size || !line_passes(s, at, prev, units) {
        return None;
    }
    Some(at + size)
}

// The lines behind the head, as many as the card says, and the end.
fn judge_lines(s: &[u8], card: Card) -> Result<Card, FaultAt>
    requires inside { card_head ≤ length s.now }
    requires few { card.lines < byte_limit }
    ensures { result ≡ card_judged (behind_head s.now card) }
{
    let mut units = 0;
    let mut prev = None;
    let mut at = Card::HEAD;
    for _k in 0..card.lines {
        let end = line_end(s, at, prev, units).ok_or(at)?;
        units += quantity_here(s, at);
        prev = Some(at);
        at = end;
    }
    if at < s.len() {
        return Err(at);
    }
    Ok(card)
}

// The whole card.
pub fn judge_card(s: &[u8]) -> Result<Card, FaultAt>
    ensures { result ≡ card_judged (decode_card s.now) }
{
    judge_lines(s, read_head(s)?)
}
