// Numbers as bytes, the high byte first.
// (Casts here are bounded, which the check proves: `try_from` would add a refusal that cannot come, no plainer.)
ghost use Rattle.std.specs.Prelude.{◌+◌, ◌≤◌, length};

// The bytes of a count or of one of an answer's values.
pub const LONG_BYTES: usize = 4;

// How many words are read or written at once, and the bytes that they are.
pub const WORDS_AT_ONCE: usize = 2048;

pub const BYTES_AT_ONCE: usize = 4096;

const LONGS: usize = 4294967296;

// Sets the four bytes from a place on to what a number is.
pub fn put_long(out: &mut [u8], at: usize, n: usize)
    requires { at + 4 ≤ length out.old }
{
    let low = (n % LONGS) as u32;
    out[at..at + LONG_BYTES].copy_from_slice(&low.to_be_bytes());
}

// Sets the words to what the first bytes are.
pub fn put_words(words: &mut [u16], bytes: &[u8]) {
    let (pairs, _) = bytes.as_chunks::<2>();
    for (word, pair) in words.iter_mut().zip(pairs) {
        *word = u16::from_be_bytes(*pair);
    }
}

// Sets the first bytes to what the words are.
pub fn put_bytes(bytes: &mut [u8], words: &[u16]) {
    let (pairs, _) = bytes.as_chunks_mut::<2>();
    for (pair, word) in pairs.iter_mut().zip(words) {
        *pair = word.to_be_bytes();
    }
}
