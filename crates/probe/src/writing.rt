// Writing an answer.
use crate::blocks::Blocks;
use crate::calls::Told;
use crate::numbers::{BYTES_AT_ONCE, LONG_BYTES, WORDS_AT_ONCE, put_bytes, put_long};
use crate::reading::Request;
use std::io::{Stdout, Write};

const HEAD_BYTES: usize = 13;

const BROKEN: u8 = 255;

// Writes these bytes. What cannot be written is lost: whoever asked is gone.
fn write_out(stdout: &mut Stdout, bytes: &[u8]) {
    let _ = stdout.write_all(bytes);
}

// The answer to a broken request.
pub fn write_broken(stdout: &mut Stdout) {
    write_out(stdout, &[BROKEN]);
}

fn write_head(stdout: &mut Stdout, a: Told) {
    let mut head = [0u8; HEAD_BYTES];
    head[0] = a.number;
    put_long(&mut head, 1, a.value);
    put_long(&mut head, 5, a.second);
    put_long(&mut head, 9, a.third);
    write_out(stdout, &head);
}

fn write_count(stdout: &mut Stdout, n: usize) {
    let mut count = [0u8; LONG_BYTES];
    put_long(&mut count, 0, n);
    write_out(stdout, &count);
}

fn write_bytes(stdout: &mut Stdout, bytes: &[u8]) {
    write_count(stdout, bytes.len());
    write_out(stdout, bytes);
}

// Writes a block of words, as many at once as go through the buffer. (Bytes go by themselves: one function for both would take the way as a parameter.)
fn write_words(stdout: &mut Stdout, block: &[u16]) {
    write_count(stdout, block.len());
    for words in block.chunks(WORDS_AT_ONCE) {
        let mut bytes = [0u8; BYTES_AT_ONCE];
        let size = words.len() * 2;
        put_bytes(&mut bytes, words);
        write_out(stdout, &bytes[..size]);
    }
}

// Writes an answer: its numbers, then the blocks R M N P Q O K D.
pub fn write_answer(stdout: &mut Stdout, ask: Request, told: Told, lent: &Blocks<'_>) {
    write_head(stdout, told);
    write_bytes(stdout, lent.reg);
    write_bytes(stdout, lent.makers);
    write_words(stdout, lent.nodes);
    write_words(stdout, lent.places);
    write_words(stdout, lent.seconds);
    write_bytes(stdout, lent.shown(ask));
    write_words(stdout, lent.mark);
    write_words(stdout, lent.drawers);
}
