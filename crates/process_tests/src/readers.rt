//! Readers that tests read from.

use std::io::{self, ErrorKind, Read};

/// Gives so many bytes at a time.
#[derive(Drop)]
pub struct Pieces<'a> {
    pub left: &'a [u8],
    pub step: usize,
}

impl Read for Pieces<'_> {
    fn read(&mut self, buf: &mut [u8]) -> io::Result<usize> {
        let step = self.step.min(self.left.len());
        let (mut now, later) = self.left.split_at(step);
        let count = now.read(buf)?;
        if count == step {
            self.left = later;
        } else {
            self.left = &self.left[count..];
        }
        Ok(count)
    }
}

/// Gives these bytes at once, then so many ones, and then the last bytes.
#[derive(Drop)]
pub struct Filled<'a> {
    pub first: &'a [u8],
    pub ones: usize,
    pub last: &'a [u8],
}

impl Read for Filled<'_> {
    fn read(&mut self, buf: &mut [u8]) -> io::Result<usize> {
        if !self.first.is_empty() {
            return self.first.read(buf);
        }
        if self.ones == 0 {
            return self.last.read(buf);
        }
        let count = buf.len().min(self.ones);
        buf[..count].fill(1);
        self.ones -= count;
        Ok(count)
    }
}

/// Is interrupted before each read, and fails when its bytes are at an end.
#[derive(Drop)]
pub struct Failing<'a> {
    pub left: &'a [u8],
    pub is_interrupted: bool,
}

impl Read for Failing<'_> {
    fn read(&mut self, buf: &mut [u8]) -> io::Result<usize> {
        self.is_interrupted = !self.is_interrupted;
        if self.is_interrupted {
            return Err(io::Error::from(ErrorKind::Interrupted));
        }
        if self.left.is_empty() {
            return Err(io::Error::from(ErrorKind::ConnectionReset));
        }
        self.left.read(buf)
    }
}
