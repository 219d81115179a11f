// Document 01, "The desk program": what is kept of a line while the input is read in pieces.
#![tactic(auto)]

ghost use Rattle.std.specs.Prelude.{◌≤◌, length};
ghost use Rattle.ground.specs.Laid.{Put};
ghost use Rattle.desk_input.specs.Inner.{part_kept};

use ground::copy_in;

// Keeps as many of the bytes as there is room for behind the first n.
pub fn keep_more(kept: &mut [u8], n: usize, bytes: &[u8]) -> usize
    requires { n ≤ length kept.old }
    ensures { Put kept.old n (part_kept kept.old n bytes.now) result kept.new }
{
    let room = kept.len() - n;
    if room < bytes.len() {
        copy_in(kept, n, &bytes[..room]);
        return kept.len();
    }
    copy_in(kept, n, bytes);
    n + bytes.len()
}
