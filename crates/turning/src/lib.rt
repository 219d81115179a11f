// "a bookmark that is lent to the call and moved on in place, for both kinds of question": the pages of the catalogue, over a bookmark behind `&mut`.
#![tactic(auto)]

ghost use Rattle.catalogue.specs.Calls.{Turns};

use answers::Answer;
use pages::{Bookmark, Paged};

// The next page of the kits within the bin, or of those containing the list: the tag of the kit shown, or 0 when none is left.
pub fn turn<Q: Paged>(reg: &[u8], nodes: &[u16], list: &[u16], mark: &mut Bookmark) -> Answer
    ensures { Turns Q.asks reg.now nodes.now list.now mark.old result mark.new }
{
    let page = catalogue::next_page::<Q>(reg, nodes, list, *mark);
    *mark = page.mark;
    page.answer
}
