//! A reader that ends once.

use std::io::{self, Read};

/// Asks its reader for nothing more after the end. A terminal could be read on there, until the user ended it again.
#[derive(Drop)]
pub struct EndsOnce<R> {
    reader: R,
    has_ended: bool,
}

impl<R> EndsOnce<R> {
    ghost use Rattle.std.specs.Prelude.{◌≡◌, false};

    pub fn new(reader: R) -> EndsOnce<R>
        ensures { result ≡ record { reader = reader; has_ended = false } }
    {
        EndsOnce {
            reader,
            has_ended: false,
        }
    }
}

impl<R: Read> Read for EndsOnce<R> {
    ghost use Rattle.std.specs.Prelude.{if◌then◌else◌, option_map, []};

    ghost remaining = { λ r. option_map (λ bytes. if r.has_ended then [] else bytes) (R.remaining r.reader) };

    fn read(&mut self, buf: &mut [u8]) -> io::Result<usize> {
        if self.has_ended {
            return Ok(0);
        }
        let count = self.reader.read(buf)?;
        if count == 0 && !buf.is_empty() {
            self.has_ended = true;
        }
        Ok(count)
    }
}
