//! Texts for a terminal: control characters are escaped, so that they command nothing there.

use bstr::{B, ByteSlice};
use std::fmt::{self, Display, Formatter};
use std::io;

/// A value's text, in which escapes stand for control characters, as `\u{1b}` for the escape itself.
#[derive(Clone, Copy, Drop)]
pub struct Escaped<D> {
    value: D,
    has_lines: bool,
}

impl<D> Escaped<D> {
    /// The text on one line: its line feeds are escaped too.
    pub fn line(value: D) -> Escaped<D> {
        Escaped {
            value,
            has_lines: false,
        }
    }

    /// The text with its line feeds as they are.
    pub fn lines(value: D) -> Escaped<D> {
        Escaped {
            value,
            has_lines: true,
        }
    }
}

impl<D: Display> Display for Escaped<D> {
    fn fmt<W: fmt::Write>(&self, f: &mut Formatter<W>) -> fmt::Result {
        let escaping = Escaping {
            out: f,
            has_lines: self.has_lines,
        };
        Formatter::new(escaping).write(&self.value)
    }
}

// Escapes what is written to it.
#[derive(Drop)]
struct Escaping<'a, W> {
    out: &'a mut Formatter<W>,
    has_lines: bool,
}

impl<W: fmt::Write> fmt::Write for Escaping<'_, W> {
    fn write_str(&mut self, text: &str) -> fmt::Result {
        for c in text.chars() {
            put_char(c, self.has_lines, self.out)?;
        }
        Ok(())
    }
}

fn put_char<W: fmt::Write>(c: char, has_lines: bool, out: &mut Formatter<W>) -> fmt::Result {
    if !c.is_control() || (has_lines && c == '\n') {
        return out.write_char(c);
    }
    for escape in c.escape_default() {
        out.write_char(escape)?;
    }
    Ok(())
}

/// Bytes as a text on one line, so far as they are UTF-8. Each other byte is escaped, as `\xff`.
#[derive(Clone, Copy, Drop)]
pub struct ShownBytes<'a>(pub &'a [u8]);

impl Display for ShownBytes<'_> {
    fn fmt<W: fmt::Write>(&self, f: &mut Formatter<W>) -> fmt::Result {
        for chunk in B(self.0).utf8_chunks() {
            write!(f, "{}", Escaped::line(chunk.valid()))?;
            for byte in chunk.invalid() {
                write!(f, "\\x{byte:02x}")?;
            }
        }
        Ok(())
    }
}

/// A program's outputs, the standard error escaped, line by line. Its messages may repeat words of the command line.
#[derive(Clone, Copy, Drop)]
pub struct EscapedErrors<'a, R>(pub &'a R);

impl<R: Print> Print for EscapedErrors<'_, R> {
    fn print<D: Display + Drop>(&self, value: D) -> io::Result<()> {
        self.0.print(value)
    }

    fn println<D: Display + Drop>(&self, value: D) -> io::Result<()> {
        self.0.println(value)
    }

    fn write_all(&self, bytes: &[u8]) -> io::Result<()> {
        Print::write_all(self.0, bytes)
    }
}

impl<R: Eprint> Eprint for EscapedErrors<'_, R> {
    fn eprint<D: Display + Drop>(&self, value: D) -> io::Result<()> {
        self.0.eprint(Escaped::lines(value))
    }

    fn eprintln<D: Display + Drop>(&self, value: D) -> io::Result<()> {
        self.0.eprintln(Escaped::lines(value))
    }
}
