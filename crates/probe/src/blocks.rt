// The memory that a call is lent: the blocks R M N L I P Q O K D, or the rooms that they are read to.
use crate::reading::{Stop, read_bytes, read_words};
use std::io::Stdin;

#[derive(Drop)]
pub struct Blocks<'a> {
    pub reg: &'a mut [u8],
    pub makers: &'a mut [u8],
    pub nodes: &'a mut [u16],
    pub list: &'a mut [u16],
    pub input: &'a mut [u8],
    pub places: &'a mut [u16],
    pub seconds: &'a mut [u16],
    pub output: &'a mut [u8],
    pub mark: &'a mut [u16],
    pub drawers: &'a mut [u16],
}

impl<'a> Blocks<'a> {
    // Reads the blocks of a request to these rooms: of each the part that its block takes.
    pub fn read(self, stdin: &mut Stdin) -> Result<Blocks<'a>, Stop> {
        Ok(Blocks {
            reg: read_bytes(stdin, self.reg)?,
            makers: read_bytes(stdin, self.makers)?,
            nodes: read_words(stdin, self.nodes)?,
            list: read_words(stdin, self.list)?,
            input: read_bytes(stdin, self.input)?,
            places: read_words(stdin, self.places)?,
            seconds: read_words(stdin, self.seconds)?,
            output: read_bytes(stdin, self.output)?,
            mark: read_words(stdin, self.mark)?,
            drawers: read_words(stdin, self.drawers)?,
        })
    }
}
