// Reading a request: its letter and two arguments, then its blocks, each to the start of its room.
ghost use Rattle.std.specs.Prelude.{◌≤◌, length, IfOk};

use crate::numbers::{BYTES_AT_ONCE, LONG_BYTES, WORDS_AT_ONCE, put_words};
use std::io::{Read, Stdin};

const HEAD_BYTES: usize = 5;

#[derive(Clone, Copy)]
pub struct Request {
    pub letter: u8,
    pub a: u16,
    pub b: u16,
}

// Why the program stops: the input has ended, or a request is broken.
#[derive(Clone, Copy, Debug, PartialEq, Eq)]
pub enum Stop {
    Ended,
    Broken,
}

// Reads until a buffer is full, the input ends or a read fails: how many bytes came. (Its step is what a read gave, so there is no `for`.)
fn read_full(stdin: &mut Stdin, buf: &mut [u8]) -> usize
    ensures { result ≤ length buf.new }
{
    let mut done = 0;
    while done < buf.len() {
        let n = stdin.read(&mut buf[done..]).unwrap_or(0);
        if n == 0 {
            break;
        }
        done += n;
    }
    done
}

// Fills a buffer from a request that has begun.
fn fill(stdin: &mut Stdin, buf: &mut [u8]) -> Result<(), Stop> {
    if read_full(stdin, buf) < buf.len() {
        return Err(Stop::Broken);
    }
    Ok(())
}

// Reads the letter and the arguments of the next request. The input ends before it, or within it, which breaks it.
pub fn read_request(stdin: &mut Stdin) -> Result<Request, Stop> {
    let mut head = [0u8; HEAD_BYTES];
    let got = read_full(stdin, &mut head);
    if got == 0 {
        return Err(Stop::Ended);
    }
    if got < HEAD_BYTES {
        return Err(Stop::Broken);
    }
    Ok(Request {
        letter: head[0],
        a: u16::from_be_bytes([head[1], head[2]]),
        b: u16::from_be_bytes([head[3], head[4]]),
    })
}

// Reads the count of a block, which is broken where its room is too small.
fn read_count(stdin: &mut Stdin, room: usize) -> Result<usize, Stop>
    ensures { IfOk result (λ n. n ≤ room) }
{
    let mut count = [0u8; LONG_BYTES];
    fill(stdin, &mut count)?;
    let n = u32::from_be_bytes(count) as usize;
    if room < n {
        return Err(Stop::Broken);
    }
    Ok(n)
}

// Reads a block of bytes: the part of its room that it takes. (Words go through a buffer and bytes do not, so the two have no generic form that is plainer.)
pub fn read_bytes<'a>(stdin: &mut Stdin, room: &'a mut [u8]) -> Result<&'a mut [u8], Stop> {
    let n = read_count(stdin, room.len())?;
    let block = &mut room[..n];
    fill(stdin, block)?;
    Ok(block)
}

// Reads a block of words: the part of its room that it takes.
pub fn read_words<'a>(stdin: &mut Stdin, room: &'a mut [u16]) -> Result<&'a mut [u16], Stop> {
    let n = read_count(stdin, room.len())?;
    let block = &mut room[..n];
    fill_words(stdin, block)?;
    Ok(block)
}

// Fills a block with words, as many at once as go through the buffer. (Made where there is something to read: most blocks of a request are empty.)
fn fill_words(stdin: &mut Stdin, block: &mut [u16]) -> Result<(), Stop> {
    for words in block.chunks_mut(WORDS_AT_ONCE) {
        let mut bytes = [0u8; BYTES_AT_ONCE];
        let size = words.len() * 2;
        fill(stdin, &mut bytes[..size])?;
        put_words(words, &bytes);
    }
    Ok(())
}
