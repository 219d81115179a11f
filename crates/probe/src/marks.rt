// A bookmark as the block K holds it: 1 where paging has begun and else 0, the length of the row, and 64 places.
ghost use Rattle.std.specs.Prelude.{◌≡◌, ◌+◌, length, OnSome};
ghost use Rattle.kits.specs.Kits.{most_units};

use kits::{MOST_UNITS, Row};
use pages::Bookmark;

const BEGUN: u16 = 1;

// Where the places start.
const PLACES_AT: usize = 2;

// How many numbers a bookmark is.
pub const MARK_WORDS: usize = PLACES_AT + MOST_UNITS;

// The bookmark that a block holds, if it holds one.
pub fn mark_in(words: &[u16]) -> Option<Bookmark>
    ensures { OnSome result (length words.now ≡ most_units + 2) }
{
    if words.len() != MARK_WORDS {
        return None;
    }
    if BEGUN < words[0] {
        return None;
    }
    let mut places = [0; MOST_UNITS];
    places.copy_from_slice(&words[PLACES_AT..]);
    let row = Row {
        places,
        len: usize::from(words[1]),
    };
    Some(Bookmark {
        begun: words[0] == BEGUN,
        row,
    })
}

// Sets a block to a bookmark, whose length came from a number of the block or counts 64 places at most.
pub fn put_mark(words: &mut [u16], mark: Bookmark)
    requires { length words.old ≡ most_units + 2 }
{
    let row = mark.row;
    words[0] = u16::from(mark.begun);
    words[1] = (row.len % 65536) as u16;
    words[PLACES_AT..].copy_from_slice(&row.places);
}
