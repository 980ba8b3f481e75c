//! Records: how bytes tell a process of a party what happened, and how it answers.
//!
//! A party is a process that reads and writes bytes, and nothing else. So frames, timers and links come to it as
//! records, and it writes the frames that are to go, and the timers that it wants, as records. Each is a length of four
//! bytes, a byte for its kind, and its content. `docs/formats.md` has the kinds.
//!
//! # What is proved
//!
//! [`RecordReader::read`] takes the next record of the bytes that the reader has left, in whatever pieces they come,
//! and [`RecordReader::notice`] gives what it tells. Records of an unknown kind tell nothing, and neither do those that
//! are too long. Neither call takes memory: room for the longest record is there from the start.
//! [`RecordReader::is_at_hand`] tells whether the next record has come whole. [`put_frame`] and [`put_timer`] append a
//! record's bytes, or nothing.
//!
//! Laws: all bytes tell some list of notices, and one alone (`inputs_tell`, `inputs_tell_one`). What is kept of a
//! record tells what the record tells (`kept_tell_the_same`).
//!
//! # What it keeps
//!
//! The longest record, 4,194,305 bytes, and 65,536 bytes that were read and not taken. A record that is too long passes
//! through the room of others.
#![tactic(auto)]

mod laws;
mod notice;
mod reader;
mod taking;
mod writing;

pub use laws::{inputs_tell, inputs_tell_one, kept_tell_the_same};
pub use notice::{FRAME, LINKS, MAX_RECORD, Notice, TIMER};
pub use reader::RecordReader;
pub use writing::{PutFault, put_frame, put_timer};
