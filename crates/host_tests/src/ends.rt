//! Readers that cut what they give.

use std::io::{self, Read};

/// Gives some bytes, so many at a time at most.
#[derive(Drop)]
pub struct Pieces<'a> {
    left: &'a [u8],
    most: usize,
}

impl<'a> Pieces<'a> {
    pub fn new(bytes: &'a [u8], most: usize) -> Self {
        Pieces { left: bytes, most }
    }
}

impl<'a> Read for Pieces<'a> {
    fn read(&mut self, buf: &mut [u8]) -> io::Result<usize> {
        let count = self.left.len().min(buf.len()).min(self.most);
        let (now, left) = self.left.split_at(count);
        buf[..count].copy_from_slice(now);
        self.left = left;
        Ok(count)
    }
}
