// Document 01, the table of refusals, and what the requests added to it: what every call of the house answers, from the register to the catalogue, and
// the number and value of each answer as a program writes them.
#![tactic(auto)]

ghost use Rattle.std.specs.Prelude.{◌≡◌};
ghost use Rattle.ground.specs.Calls.{number_of, value_of};
ghost use Rattle.answers.specs.Answers.{reply, refusal};
ghost use Rattle.answers.specs.Inner.{Means};

// Why a call is refused; a refusal that has a value carries it.
#[derive(Clone, Copy, Debug, PartialEq, Eq)]
pub enum Refusal {
    WrongLength,
    NotSound,
    BadNumber,
    // a list at fault, with the value of its line
    Unordered(usize),
    Unregistered(usize),
    Amount(usize),
    // more than 64 units
    TooMany,
    // tag 0
    NoTag,
    // with the place or the tag that it has
    Held(usize),
    TagBorne,
    // with the line of a card, or 0
    NotHeld(usize),
    // with what is missing, or needed in all
    NoRoom(usize),
    // a sheet at fault, with the offset of its first faulty item
    Fault(usize),
    // kits asked for that lack more than 64 units
    TooFar,
    // a bookmark at fault
    BadBookmark,
    // a number to register with punctuation at an end
    Punctuated,
    // a kit to insert without a unit
    NoUnits,
}

// A call is done, with its value, or refused.
pub type Answer = Result<usize, Refusal>;

// The numbers by which C and the lines of the desk tell an answer: a format, so they stay numbers here, at the edge alone.
const DONE: u8 = 0;

const WRONG_LENGTH: u8 = 1;

const NOT_SOUND: u8 = 2;

const BAD_NUMBER: u8 = 3;

const UNORDERED: u8 = 4;

const UNREGISTERED: u8 = 5;

const AMOUNT: u8 = 6;

const TOO_MANY: u8 = 7;

const NO_TAG: u8 = 8;

const HELD: u8 = 9;

const TAG_BORNE: u8 = 10;

const NOT_HELD: u8 = 11;

const NO_ROOM: u8 = 12;

const FAULT: u8 = 13;

const TOO_FAR: u8 = 14;

const BAD_BOOKMARK: u8 = 15;

const PUNCTUATED: u8 = 16;

const NO_UNITS: u8 = 19;

// A number, 0 for done, and a value.
#[derive(Clone, Copy)]
pub struct Reply {
    pub number: u8,
    pub value: usize,
}

impl Refusal {
    fn number(self) -> u8
        ensures { result ≡ number_of (refusal self) }
    {
        match self {
            Refusal::WrongLength => WRONG_LENGTH,
            Refusal::NotSound => NOT_SOUND,
            Refusal::BadNumber => BAD_NUMBER,
            Refusal::Unordered(_) => UNORDERED,
            Refusal::Unregistered(_) => UNREGISTERED,
            Refusal::Amount(_) => AMOUNT,
            Refusal::TooMany => TOO_MANY,
            Refusal::NoTag => NO_TAG,
            Refusal::Held(_) => HELD,
            Refusal::TagBorne => TAG_BORNE,
            Refusal::NotHeld(_) => NOT_HELD,
            Refusal::NoRoom(_) => NO_ROOM,
            Refusal::Fault(_) => FAULT,
            Refusal::TooFar => TOO_FAR,
            Refusal::BadBookmark => BAD_BOOKMARK,
            Refusal::Punctuated => PUNCTUATED,
            Refusal::NoUnits => NO_UNITS,
        }
    }

    // What it carries, 0 where it carries nothing.
    fn value(self) -> usize
        ensures { result ≡ value_of (refusal self) }
    {
        match self {
            Refusal::Unordered(v)
            | Refusal::Unregistered(v)
            | Refusal::Amount(v)
            | Refusal::Held(v)
            | Refusal::NotHeld(v)
            | Refusal::NoRoom(v)
            | Refusal::Fault(v) => v,
            _ => 0,
        }
    }
}

// An answer as it is printed. No `From`: its clause would stand in a ghost member, and read no plainer than this one.
pub fn reply_of(a: Answer) -> Reply
    ensures { Means result (reply a) }
{
    match a {
        Ok(value) => Reply {
            number: DONE,
            value,
        },
        Err(r) => Reply {
            number: r.number(),
            value: r.value(),
        },
    }
}
