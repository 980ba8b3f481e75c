//! The words of the command line.

use crate::complaints::Complaint;
use crate::console::{StandardError, complain};
use crate::escaped::ShownBytes;
use std::env::{self, FillError};
use std::io;
use std::rt::Env;

// Most bytes of a word that are shown. A path has fewer.
const SHOWN: usize = 4096;

/// The words of the command line, of which the first is the program's name.
///
/// # Errors
///
/// The status to end with, after a line on standard error: 2 for words that aren't UTF-8, 3 if memory runs out.
pub fn words_of<R: Env + Eprint + AllocGlobal>(rt: &R) -> Result<Vec<String>, u8> {
    match args_of(rt) {
        Ok(words) => Ok(words),
        Err(error) => Err(refuse_words(rt, &error)),
    }
}

fn args_of<R: Env + AllocGlobal>(rt: &R) -> io::Result<Vec<String>> {
    let args = env::args(rt)?;
    Ok(args.collect(rt.alloc())?)
}

// Words that aren't UTF-8 are a mistake on the command line.
fn refuse_words<R: Env + Eprint>(rt: &R, error: &io::Error) -> u8 {
    if error.kind() == io::ErrorKind::OutOfMemory {
        return complain(&mut StandardError::new(rt), Complaint::Stopped, error);
    }
    let mut buffer = [0; SHOWN];
    for number in 0..usize::MAX {
        match rt.arg(number, &mut buffer) {
            Ok(len) => {
                let (word, _) = buffer.split_at(len);
                if std::str::from_utf8(word).is_err() {
                    let _ = eprintln!(rt;
                        "error: word {number} is not UTF-8: {}",
                        ShownBytes(word)
                    );
                    return 2;
                }
            }
            Err(FillError::TooLong) => {}
            Err(FillError::NotPresent) => break,
        }
    }
    let _ = eprintln!(rt; "error: {error}");
    2
}
