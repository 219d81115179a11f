// The probe: every call of the catalogue over a pipe, so that a program in any language can compare every byte.
//
// A request is the call's letter, two arguments of two bytes, and the blocks R M N L I P Q O K D: all the memory that the
// call is lent. A block is the count of its elements in four bytes, and then the elements: bytes in R, M, I and O, words of
// two bytes in the others. An answer is its number in a byte, its value and two more numbers in four bytes each, and the
// blocks R M N P Q O K D as they stand after the call. Every number has the high byte first. Nothing is kept from one request
// to the next. A broken request, one that is cut short, has an unknown letter, a block larger than its room or, to turn a
// page, no bookmark in K, is answered by the one byte 255 and ends the program.
#![tactic(auto)]

mod blocks;
mod calls;
mod marks;
mod numbers;
mod reading;
mod writing;

use blocks::Blocks;
use marks::MARK_WORDS;
use reading::{Stop, read_request};
use std::io::{Stdin, Stdout};
use writing::{write_answer, write_broken};

// How many elements of each block there is room for: R and M, N, L, I, P and Q, O, D. In K there is room for a bookmark.
const REGISTER_ROOM: usize = 128064;

const NODES_ROOM: usize = 28700;

const LIST_ROOM: usize = 8200;

const INPUT_ROOM: usize = 65536;

const PLACES_ROOM: usize = 4200;

const OUTPUT_ROOM: usize = 65536;

const DRAWERS_ROOM: usize = 1024;

// Answers the next request, whose blocks are read to these rooms.
fn answer_next(stdin: &mut Stdin, stdout: &mut Stdout, rooms: Blocks<'_>) -> Result<(), Stop> {
    let ask = read_request(stdin)?;
    let mut lent = rooms.read(stdin)?;
    let told = lent.call(ask).ok_or(Stop::Broken)?;
    write_answer(stdout, ask, told, &lent);
    Ok(())
}

// Answers the next request, or a broken one: whether to go on.
fn serve_one(stdin: &mut Stdin, stdout: &mut Stdout, rooms: Blocks<'_>) -> bool {
    match answer_next(stdin, stdout, rooms) {
        Ok(()) => true,
        Err(Stop::Ended) => false,
        Err(Stop::Broken) => {
            write_broken(stdout);
            false
        }
    }
}

fn main(rt: HostRuntime) {
    let mut stdin = rt.stdin();
    let mut stdout = rt.stdout();
    let mut reg = [0u8; REGISTER_ROOM];
    let mut makers = [0u8; REGISTER_ROOM];
    let mut nodes = [0u16; NODES_ROOM];
    let mut list = [0u16; LIST_ROOM];
    let mut input = [0u8; INPUT_ROOM];
    let mut places = [0u16; PLACES_ROOM];
    let mut seconds = [0u16; PLACES_ROOM];
    let mut output = [0u8; OUTPUT_ROOM];
    let mut mark = [0u16; MARK_WORDS];
    let mut drawers = [0u16; DRAWERS_ROOM];
    // A proved loop has to end, and nothing says that the input does: these are more turns than any run has requests.
    for _ in 0..u64::MAX {
        let rooms = Blocks {
            reg: &mut reg,
            makers: &mut makers,
            nodes: &mut nodes,
            list: &mut list,
            input: &mut input,
            places: &mut places,
            seconds: &mut seconds,
            output: &mut output,
            mark: &mut mark,
            drawers: &mut drawers,
        };
        if !serve_one(&mut stdin, &mut stdout, rooms) {
            break;
        }
    }
}
