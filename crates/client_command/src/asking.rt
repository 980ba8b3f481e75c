//! Lines that are asked for.

use one_space::{Console, StandardError};
use std::io::{self, Read};

/// The lines of a reader. Someone who sits at a terminal is shown a prompt there before each read.
#[derive(Drop)]
pub struct AskedLines<'a, E, L> {
    console: StandardError<'a, E>,
    lines: L,
}

impl<'a, E: Eprint, L> AskedLines<'a, E, L> {
    ghost use Rattle.std.specs.Prelude.{◌≡◌};

    /// The lines of this reader. A prompt is shown if there is someone to whom it is.
    pub fn new(rt: &'a E, has_prompt: bool, lines: L) -> AskedLines<'a, E, L>
        ensures { result.lines ≡ lines }
    {
        AskedLines {
            console: StandardError::with_prompt(rt, has_prompt),
            lines,
        }
    }
}

impl<E: Eprint, L: Read> Read for AskedLines<'_, E, L> {
    ghost remaining = { λ r. L.remaining r.lines };

    fn read(&mut self, buf: &mut [u8]) -> io::Result<usize> {
        self.console.ask();
        let count = self.lines.read(buf)?;
        if count == 0 {
            self.console.end();
        }
        Ok(count)
    }
}
