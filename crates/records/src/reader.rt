//! The records of a reader.

ghost use Rattle.std.specs.Prelude.{◌≤◌, vec_len, vec_capacity};
ghost use Rattle.records.specs.declared.notice.TheConstants.{MAX_RECORD};

use crate::notice::{MAX_RECORD, Notice, notice_in};
use crate::taking::{PIECE, begins_with_record, read_record};
use std::alloc::Global;
use std::io::{self, BufReader, Read};
use terms::NoMemory;

/// The records of a reader.
#[derive(Drop)]
pub struct RecordReader<R> {
    input: BufReader<R>,
    body: Vec<u8>,
    ghost room: { MAX_RECORD ≤ vec_capacity body },
    ghost short: { vec_len body ≤ MAX_RECORD },
}

impl<R: Read + Drop> RecordReader<R> {
    ghost use Rattle.std.specs.Prelude.{◌≡◌, MatchBool, IfSome, IfNone, IfOk};
    ghost use Rattle.records.specs.Records.{BeginsWithRecord, IsPartial, TellsNothing};
    ghost use Rattle.records.specs.NoticeView.{Tells};
    ghost use Rattle.records.specs.ReaderView.{left_of, at_hand_of, body_of, Advances};

    /// The records of a reader, of which none is taken yet.
    ///
    /// # Errors
    ///
    /// NoMemory if there is no room for the longest record.
    pub fn new(alloc: Global, reader: R) -> Result<RecordReader<R>, NoMemory>
        ensures all { IfOk result (λ r. left_of R.remaining r ≡ R.remaining reader) }
    {
        let body = Vec::with_capacity(alloc, MAX_RECORD)?;
        match BufReader::with_capacity(alloc, PIECE, reader) {
            Ok(input) => Ok(RecordReader { input, body }),
            Err(_) => Err(NoMemory),
        }
    }

    /// Whether the next record has come whole, so that taking it waits for nothing.
    pub fn is_at_hand(&self) -> bool
        ensures { MatchBool result (BeginsWithRecord (at_hand_of self.now)) (IsPartial (at_hand_of self.now)) }
    {
        begins_with_record(self.input.buffer())
    }

    /// Takes the next record, and gives whether there was one. It takes no memory.
    ///
    /// # Errors
    ///
    /// The reader's. Part of a record may be lost then.
    pub fn advance(&mut self) -> io::Result<bool>
        ensures { Advances R.remaining result self.old self.new }
    {
        read_record(&mut self.input, &mut self.body)
    }

    /// What the record tells that was taken last. `None` if it tells nothing, or there was none.
    pub fn notice(&self) -> Option<Notice<'_>>
        ensures tells { IfSome result (Tells (body_of self.now)) }
        ensures nothing { IfNone result (TellsNothing (body_of self.now)) }
    {
        notice_in(self.body.as_slice())
    }
}
