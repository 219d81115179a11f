// Document 01, "The desk program": how a reply is printed, without any table.
// (Casts here are bounded, which the check proves: `try_from` would add a refusal that cannot come, no plainer.)
#![tactic(auto)]

ghost use Rattle.std.specs.Prelude.{◌≡◌, [], ◌∷◌, ◌+◌, ◌*◌, ◌<◌, ◌≤◌, length};
ghost use Rattle.desk_text.specs.Amounts.{zero_digit};
ghost use Rattle.desk_text.specs.Lines.{space};
ghost use Rattle.desk_replies.specs.Replies.{decimal, hex_digit, hex_of, tags_text, reply_head, reply_line, other_line, ReplyStands};
ghost use Rattle.ground.specs.Laid.{Put};
ghost use Rattle.desk_replies.specs.Inner.{head_room, tag_room};

use desk_text::{LINE_FEED, SPACE, ZERO_DIGIT};

const OTHER: u8 = b'?';

// Sets a byte down in the output: the position behind it.
pub fn put_byte(out: &mut [u8], at: usize, b: u8) -> usize
    requires { at < length out.old }
    ensures { Put out.old at (b ∷ []) result out.new }
{
    out[at] = b;
    at + 1
}

fn digit(n: usize) -> u8
    requires { n < 10 }
    ensures { result ≡ zero_digit + n }
{
    ZERO_DIGIT + n as u8
}

// Sets a number down in decimal. By hand, as `write!` into a cursor over the output is no plainer: each reply would have an error to handle that
// cannot happen, and the contracts name every byte (`Put .. (decimal n)`).
pub fn put_decimal(out: &mut [u8], at: usize, n: usize) -> usize
    requires { at + length (decimal n) ≤ length out.old }
    ensures { Put out.old at (decimal n) result out.new }
{
    if n < 10 {
        return put_byte(out, at, digit(n));
    }
    let last = put_decimal(out, at, n / 10);
    put_byte(out, last, digit(n % 10))
}

// Sets tags down, each behind a space.
pub fn put_tags(out: &mut [u8], from: usize, tags: &[u16]) -> usize
    requires { from + length (tags_text tags.now) ≤ length out.old }
    ensures { Put out.old from (tags_text tags.now) result out.new }
{
    let mut at = from;
    for tag in tags {
        at = put_byte(out, at, SPACE);
        at = put_decimal(out, at, usize::from(*tag));
    }
    at
}

fn hex_digit(d: u8) -> u8
    requires { d < 16 }
    ensures { result ≡ hex_digit d }
{
    if d < 10 {
        return ZERO_DIGIT + d;
    }
    b'A' - 10 + d
}

// Sets bytes down in capital hex.
pub fn put_hex(out: &mut [u8], from: usize, bytes: &[u8]) -> usize
    requires { from + length (hex_of bytes.now) ≤ length out.old }
    ensures { Put out.old from (hex_of bytes.now) result out.new }
{
    let mut at = from;
    for b in bytes {
        at = put_byte(out, at, hex_digit(*b / 16));
        at = put_byte(out, at, hex_digit(*b % 16));
    }
    at
}

// Sets the letter, the number and the value of a reply down at the start of the output.
pub fn put_head(out: &mut [u8], letter: u8, number: usize, value: usize) -> usize
    requires { length (reply_head letter number value) ≤ length out.old }
    ensures { Put out.old 0 (reply_head letter number value) result out.new }
{
    let mut at = put_byte(out, 0, letter);
    at = put_byte(out, at, SPACE);
    at = put_decimal(out, at, number);
    at = put_byte(out, at, SPACE);
    put_decimal(out, at, value)
}

// Sets the reply to a line that is not well formed down.
pub fn put_other(out: &mut [u8]) -> usize
    requires { 2 ≤ length out.old }
    ensures { ReplyStands out.old other_line result out.new }
{
    let at = put_byte(out, 0, OTHER);
    put_byte(out, at, LINE_FEED)
}

// Sets a whole reply of letter, number and value down. (Room is a clause: each reply asks for another length of the output.)
pub fn put_reply(out: &mut [u8], letter: u8, number: usize, value: usize) -> usize
    requires { head_room + 1 ≤ length out.old }
    ensures { ReplyStands out.old (reply_line letter number value []) result out.new }
{
    let at = put_head(out, letter, number, value);
    put_byte(out, at, LINE_FEED)
}

// Sets the whole reply of a listing that is done down.
pub fn put_listing(out: &mut [u8], letter: u8, tags: &[u16]) -> usize
    requires { head_room + tag_room * length tags.now + 1 ≤ length out.old }
    ensures { ReplyStands out.old (reply_line letter 0 (length tags.now) (tags_text tags.now)) result out.new }
{
    let mut at = put_head(out, letter, 0, tags.len());
    at = put_tags(out, at, tags);
    put_byte(out, at, LINE_FEED)
}

// Sets the whole reply with a sheet down.
pub fn put_sheet(out: &mut [u8], letter: u8, sheet: &[u8]) -> usize
    requires { head_room + 1 + 2 * length sheet.now + 1 ≤ length out.old }
    ensures { ReplyStands out.old (reply_line letter 0 (length sheet.now) (space ∷ hex_of sheet.now)) result out.new }
{
    let mut at = put_head(out, letter, 0, sheet.len());
    at = put_byte(out, at, SPACE);
    at = put_hex(out, at, sheet);
    put_byte(out, at, LINE_FEED)
}
