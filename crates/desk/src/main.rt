// Document 01, "The desk program": reads lines from standard input and writes a reply to each.
#![tactic(auto)]

ghost use Rattle.std.specs.Prelude.{◌≡◌, ◌*◌, length, take, replicate};
ghost use Rattle.register.specs.Register.{slot_bytes};
ghost use Rattle.nodes.specs.Nodes.{words_per_node};
ghost use Rattle.ground.specs.Tables.{tables};
ghost use Rattle.desk_lines.specs.Sizes.{desk_slots, desk_nodes, output_places, sheet_bytes, begun_desk};
ghost use Rattle.desk_lines.specs.Desk.{left_by};
ghost use Rattle.desk_lines.specs.Inner.{Room};
ghost use Rattle.desk_input.specs.Inner.{most_kept};
ghost use Rattle.desk.specs.Inner.{reply_bytes, Keeps, Takes};
ghost use Rattle.desk.specs.Lent.{tables_of, DeskAtHand};
ghost use Rattle.desk.specs.Desk.{Serves};

use desk_input::keep_more;
use desk_lines::answer_line;
use desk_text::end_of;
use std::io::{Read, Stdin, Stdout, Write};

// "It reads standard input with 255 slots, 2,048 nodes, 2,048 output places and 8,192 sheet bytes."
const SLOTS: usize = 255;

const NODES: usize = 2048;

const OUTPUT_PLACES: usize = 2048;

const SHEET_BYTES: usize = 8192;

// One byte more than a line may have: enough of an overlong line to tell it, however long it is.
const KEPT_BYTES: usize = desk_text::LONGEST_LINE + 1;

// How much of the input is read at once.
const PIECE_BYTES: usize = 4096;

// Room for the longest reply, the one to W: its head, a space, two digits for each byte of the sheet, and a line feed.
const REPLY_BYTES: usize = 16640;

// What the desk has at hand: its tables, and the outputs that it lends. (The room for a reply is an array of its own: where a sheet and its reply were in
// one struct LLVM made no vectors of setting the one down in the other, and `W` with a full register took four times as long.)
#[derive(Drop)]
struct Desk {
    reg: [u8; SLOTS * register::SLOT_BYTES],
    nodes: [u16; NODES * nodes::WORDS],
    places: [u16; OUTPUT_PLACES],
    sheet: [u8; SHEET_BYTES],
}

impl Desk {
    // Answers a line, and writes the reply out. A write that fails is not reported: whoever asked is gone.
    fn reply_to(&mut self, stdout: &mut Stdout, line: &[u8], out: &mut [u8])
        requires { DeskAtHand self.old out.old }
        ensures at_hand { DeskAtHand self.new out.new }
        ensures left { tables_of self.new ≡ left_by line.now (tables_of self.old) }
    {
        let n = answer_line(
            line,
            &mut self.reg,
            &mut self.nodes,
            &mut self.places,
            &mut self.sheet,
            out,
        );
        let _ = stdout.write_all(&out[..n]);
    }

    // Takes a piece of the input behind the `from` bytes kept of a line that has not ended, and answers every line that it ends: how many bytes
    // are kept now. The lines are walked by where they end, as what stands behind the last of them is kept and not answered.
    fn take_piece(
        &mut self,
        stdout: &mut Stdout,
        piece: &[u8],
        kept: &mut [u8],
        from: usize,
        out: &mut [u8],
    ) -> usize
        requires keeps { Keeps kept.old from }
        requires at_hand { DeskAtHand self.old out.old }
        ensures takes { Takes (take from kept.old) piece.now (tables_of self.old) result kept.new (tables_of self.new) }
        ensures at_hand { DeskAtHand self.new out.new }
    {
        let mut n = from;
        let mut at = 0;
        while at < piece.len() {
            let end = end_of(piece, at, desk_text::LINE_FEED);
            n = keep_more(kept, n, &piece[at..end]);
            if end == piece.len() {
                return n;
            }
            self.reply_to(stdout, &kept[..n], out);
            n = 0;
            at = end + 1;
        }
        n
    }

    // Reads the input to its end, piece by piece, and answers its lines, from empty tables on. The last line may lack its line feed. A read that
    // fails ends the input as its end does.
    fn serve(
        &mut self,
        stdin: &mut Stdin,
        stdout: &mut Stdout,
        kept: &mut [u8],
        piece: &mut [u8],
        out: &mut [u8],
    )
        requires keeps { Keeps kept.old 0 }
        requires begun { tables self.old.reg self.old.nodes ≡ begun_desk }
        requires room { Room self.old.places self.old.sheet out.old }
        ensures { Serves (tables self.new.reg self.new.nodes) }
    {
        let mut n = 0;
        // A proved loop has to end, and nothing says that the input does: these are more turns than any run has pieces.
        'pieces: for _ in 0..u64::MAX {
            let got = stdin.read(piece).unwrap_or(0);
            if got == 0 {
                break;
            }
            n = self.take_piece(stdout, &piece[..got], kept, n, out);
        }
        if n == 0 {
            return;
        }
        self.reply_to(stdout, &kept[..n], out);
    }
}

// The memory of the desk: "The register and index start empty". Each array is made by a function, so that a caller knows it by the contract
// and not element by element.
fn empty_register() -> [u8; SLOTS * register::SLOT_BYTES]
    ensures { (desk_slots * slot_bytes ≡ length result) × (result ≡ replicate (desk_slots * slot_bytes) 0) }
{
    [0u8; SLOTS * register::SLOT_BYTES]
}

fn empty_nodes() -> [u16; NODES * nodes::WORDS]
    ensures { (desk_nodes * words_per_node ≡ length result) × (result ≡ replicate (desk_nodes * words_per_node) 0) }
{
    [0u16; NODES * nodes::WORDS]
}

fn output_places() -> [u16; OUTPUT_PLACES]
    ensures { output_places ≡ length result }
{
    [0u16; OUTPUT_PLACES]
}

fn sheet_room() -> [u8; SHEET_BYTES]
    ensures { sheet_bytes ≡ length result }
{
    [0u8; SHEET_BYTES]
}

fn reply_room() -> [u8; REPLY_BYTES]
    ensures { reply_bytes ≡ length result }
{
    [0u8; REPLY_BYTES]
}

fn line_room() -> [u8; KEPT_BYTES]
    ensures { most_kept ≡ length result }
{
    [0u8; KEPT_BYTES]
}

fn main(rt: HostRuntime) {
    let mut desk = Desk {
        reg: empty_register(),
        nodes: empty_nodes(),
        places: output_places(),
        sheet: sheet_room(),
    };
    let mut out = reply_room();
    let mut kept = line_room();
    let mut piece = [0u8; PIECE_BYTES];
    desk.serve(
        &mut rt.stdin(),
        &mut rt.stdout(),
        &mut kept,
        &mut piece,
        &mut out,
    );
}
