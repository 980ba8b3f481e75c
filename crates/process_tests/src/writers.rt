//! Writers that tests write to.

use std::io::{self, ErrorKind, Write};

/// Takes so many bytes at a time, and fails beyond so many.
#[derive(Drop)]
pub struct Sink {
    pub taken: Vec<u8>,
    pub step: usize,
    pub most: usize,
}

impl Write for Sink {
    fn write(&mut self, buf: &[u8]) -> io::Result<usize> {
        let room = self.most.saturating_sub(self.taken.len());
        let count = buf.len().min(self.step).min(room);
        if count == 0 && !buf.is_empty() {
            return Err(io::Error::from(ErrorKind::BrokenPipe));
        }
        self.taken.extend_from_slice(&buf[..count])?;
        Ok(count)
    }

    fn flush(&mut self) -> io::Result<()> {
        Ok(())
    }
}
