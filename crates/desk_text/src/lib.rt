// Document 01, "The desk program": what a line is, without any table.
// (Casts here are bounded, which the check proves: `try_from` would add a refusal that cannot come, no plainer.)
#![tactic(auto)]

ghost use Rattle.std.specs.Prelude.{◌≡◌, true, false, ◌+◌, ◌<◌, ◌≤◌, length};
ghost use Rattle.ground.specs.Lists.{allb};
ghost use Rattle.desk_text.specs.Inner.{EndOf, up_to, amount_where, amount_in, ParsedAs, line_where};
ghost use Rattle.desk_text.specs.Amounts.{leading_zero, small, amount_of};
ghost use Rattle.desk_text.specs.Letters.{byte_of, StandsFor};
ghost use Rattle.desk_text.specs.Lines.{fields_of, fields_from, filled, good_pairs, amount_and_pairs, behind_letter, parsed};

pub const LONGEST_LINE: usize = 512;

pub const SPACE: u8 = b' ';

pub const LINE_FEED: u8 = b'\n';

pub const MOST_DIGITS: usize = 5;

pub const LARGEST_AMOUNT: usize = 65535;

pub const ZERO_DIGIT: u8 = b'0';

// Where the field behind the letter starts.
const BEHIND_LETTER: usize = 2;

// What a line asks for.
#[derive(Clone, Copy, Debug, PartialEq, Eq)]
pub enum Letter {
    Registers,
    Inserts,
    Finds,
    Deletes,
    AnyWithin,
    AnyContaining,
    AllWithin,
    AllContaining,
    Writes,
}

impl Letter {
    // The letter that stands for a byte, if one does.
    pub fn of(b: u8) -> Option<Letter>
        ensures { StandsFor b result }
    {
        match b {
            b'P' => Some(Letter::Registers),
            b'K' => Some(Letter::Inserts),
            b'F' => Some(Letter::Finds),
            b'D' => Some(Letter::Deletes),
            b'B' => Some(Letter::AnyWithin),
            b'S' => Some(Letter::AnyContaining),
            b'b' => Some(Letter::AllWithin),
            b's' => Some(Letter::AllContaining),
            b'W' => Some(Letter::Writes),
            _ => None,
        }
    }

    // The byte that is typed for a letter, and printed.
    pub fn byte(self) -> u8
        ensures { result ≡ byte_of self }
    {
        match self {
            Letter::Registers => b'P',
            Letter::Inserts => b'K',
            Letter::Finds => b'F',
            Letter::Deletes => b'D',
            Letter::AnyWithin => b'B',
            Letter::AnyContaining => b'S',
            Letter::AllWithin => b'b',
            Letter::AllContaining => b's',
            Letter::Writes => b'W',
        }
    }
}

// A good line taken apart: its letter, its tag or 0, and where the fields behind these start.
#[derive(Clone, Copy)]
pub struct Line {
    pub letter: Letter,
    pub tag: u16,
    pub from: usize,
}

// How many bytes stand before the first b.
fn bytes_before(s: &[u8], b: u8) -> usize
    ensures { result ≡ up_to b s.now }
{
    s.iter().position(|x| *x == b).unwrap_or(s.len())
}

// Where the stretch that starts at a position ends: before the next b, or at the end.
pub fn end_of(s: &[u8], from: usize, b: u8) -> usize
    requires { from ≤ length s.now }
    ensures { EndOf s.now from b result }
{
    from + bytes_before(&s[from..], b)
}

// Whether no field of a line is empty.
fn all_filled(line: &[u8]) -> bool
    ensures { result ≡ allb filled (fields_of line.now) }
{
    line.split(|b| *b == SPACE).all(|f| !f.is_empty())
}

// How many fields stand from a position on.
fn count_fields(line: &[u8], from: usize) -> usize
    requires { from ≤ length line.now + 1 }
    ensures { result ≡ length (fields_from line.now from) }
{
    if line.len() < from {
        return 0;
    }
    line[from..].split(|b| *b == SPACE).count()
}

// Whether a field has a leading zero that is not all of it.
fn leading_zero(f: &[u8]) -> bool
    requires { 0 < length f.now }
    ensures { result ≡ leading_zero f.now }
{
    if f.len() == 1 {
        return false;
    }
    f[0] == ZERO_DIGIT
}

// The value of the digits of a field, where it has nothing else and they spell no more than an amount may be.
fn read_digits(f: &[u8]) -> Option<u16>
    ensures { result ≡ amount_where (small f.now) (amount_of f.now) }
{
    let mut v = 0;
    for b in f {
        if !b.is_ascii_digit() {
            return None;
        }
        v = v * 10 + usize::from(*b - ZERO_DIGIT);
        if LARGEST_AMOUNT < v {
            return None;
        }
    }
    Some(v as u16)
}

// Reads a tag or a quantity, if the field is a good one.
pub fn read_amount(f: &[u8]) -> Option<u16>
    ensures { result ≡ amount_in f.now }
{
    if f.is_empty() {
        return None;
    }
    if MOST_DIGITS < f.len() {
        return None;
    }
    if leading_zero(f) {
        return None;
    }
    read_digits(f)
}

// Whether the fields from a position on are number and quantity pairs. They are walked by where they end: a pair takes two, and a chain of `split`
// that steps by two and counts them besides is no plainer.
fn good_pairs(line: &[u8], from: usize) -> bool
    requires { from ≤ length line.now + 1 }
    ensures { result ≡ good_pairs (fields_from line.now from) }
{
    let mut at = from;
    while at <= line.len() {
        let number_end = end_of(line, at, SPACE);
        if number_end == line.len() {
            return false;
        }
        let start = number_end + 1;
        let end = end_of(line, start, SPACE);
        at = end + 1;
        if read_amount(&line[start..end]).is_none() {
            return false;
        }
    }
    true
}

// A line, if what stands there is good.
fn line_if(good: bool, letter: Letter, tag: u16, from: usize) -> Option<Line>
    ensures { result ≡ line_where good letter tag from }
{
    good.then_some(Line { letter, tag, from })
}

// An amount from a position on, and then pairs.
fn parse_amount(letter: Letter, line: &[u8], from: usize) -> Option<Line>
    requires { from ≤ length line.now + 1 }
    ensures { ParsedAs line.now (amount_and_pairs (byte_of letter) (fields_from line.now from)) result }
{
    if line.len() < from {
        return None;
    }
    let end = end_of(line, from, SPACE);
    let tag = read_amount(&line[from..end])?;
    let list = end + 1;
    line_if(good_pairs(line, list), letter, tag, list)
}

// What stands behind a letter, from a position on.
fn parse_behind(letter: Letter, line: &[u8], from: usize) -> Option<Line>
    requires { from ≤ length line.now + 1 }
    ensures { ParsedAs line.now (behind_letter (byte_of letter) (fields_from line.now from)) result }
{
    match letter {
        Letter::Registers => line_if(count_fields(line, from) == 1, letter, 0, from),
        Letter::Inserts => parse_amount(letter, line, from),
        Letter::Writes => line_if(count_fields(line, from) == 0, letter, 0, from),
        _ => line_if(good_pairs(line, from), letter, 0, from),
    }
}

// Takes a line apart, once for all that is done with it.
pub fn parse(line: &[u8]) -> Option<Line>
    ensures { ParsedAs line.now (parsed line.now) result }
{
    if line.is_empty() {
        return None;
    }
    if LONGEST_LINE < line.len() {
        return None;
    }
    if !all_filled(line) {
        return None;
    }
    let end = end_of(line, 0, SPACE);
    if end != 1 {
        return None;
    }
    parse_behind(Letter::of(line[0])?, line, BEHIND_LETTER)
}
