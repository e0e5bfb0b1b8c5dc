//! A reader that returns a script in pieces of a maximum number of bytes.

use std::io;
use std::io::Read;

/// A reader that hands out at most so many bytes of a script at a time.
#[derive(Drop)]
pub struct Pieces<'a> {
    pub left: &'a [u8],
    pub most: usize,
}

impl Read for Pieces<'_> {
    fn read(&mut self, buffer: &mut [u8]) -> io::Result<usize> {
        let count = self.left.len().min(self.most).min(buffer.len());
        let (piece, rest) = self.left.split_at(count);
        buffer[..count].copy_from_slice(piece);
        self.left = rest;
        Ok(count)
    }
}
