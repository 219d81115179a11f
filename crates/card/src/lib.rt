// Request 5, "A card for a single kit": "a sibling of the sheet". A card's tag and line count, its sizes and offsets; reader and writer stand on these.
#![tactic(auto)]

ghost use Rattle.std.specs.Prelude.{◌≡◌, ◌∷◌, ◌++◌, ◌+◌, ◌≤◌, length, take, drop};
ghost use Rattle.kits.specs.Kits.{before};
ghost use Rattle.sheet.specs.Sheet.{line_words};

use kits::MOST_UNITS;
use sheet::LINE_WORDS;

// A card's tag and line count; its mark, version and limits are the type's own.
#[derive(Clone, Copy)]
pub struct Card {
    pub tag: u16,
    pub lines: usize,
}

impl Card {
    // "mark KIC"
    pub const MARK: [u8; 3] = *b"KIC";

    pub const VERSION: u16 = 1;

    // Where the version, the tag and the line count stand, and where the lines begin.
    pub const VERSION_AT: usize = 3;

    pub const TAG_AT: usize = 5;

    pub const COUNT_AT: usize = 7;

    pub const HEAD: usize = 8;

    pub fn new(tag: u16, lines: usize) -> Self
        ensures { (result.tag ≡ tag) × (result.lines ≡ lines) }
    {
        Self { tag, lines }
    }
}

// The words of a kit's list: each of its lines has a unit.
pub const KIT_WORDS: usize = MOST_UNITS * LINE_WORDS;

// "rising byte order of their numbers, a shorter one before any longer one that it begins"
pub fn number_before(a: &[u8], b: &[u8]) -> bool
    ensures { result ≡ before a.now b.now }
{
    a < b
}

// Sets a line down at a word of a list of so many words: what stood from there on moves up by a line. (By index, not by `copy_within`: that is a call
// of `memmove`, as `copy_in` of ground says.)
pub fn put_line_at(list: &mut [u16], words: usize, at: usize, place: u16, quantity: u16)
    requires inside { at ≤ words }
    requires room { words + line_words ≤ length list.old }
    ensures put { take (words + line_words) list.new ≡
        take at list.old ++ (place ∷ quantity ∷ drop at (take words list.old)) }
    ensures len { length list.new ≡ length list.old }
{
    for i in (at..words).rev() {
        list[i + LINE_WORDS] = list[i];
    }
    list[at + 1] = quantity;
    list[at] = place;
}
