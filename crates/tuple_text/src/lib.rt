//! Operations, answers and tuples as text.
//!
//! # What is proved
//!
//! `read_line` gives the operation exactly if the line is one (`IsLine`), and nothing exactly if the line is skipped.
//! Otherwise it gives a refusal that holds (`RefusesLine`): the offset is the length of the longest beginning of the
//! line that begins some line. `read_template` does the same for a template that stands alone. `write_tuple`,
//! `write_answer` and `write_op` append their text for all values. `written_is_text` says that the written text is a
//! text of the tuple, `written_is_read` that it is read again as that tuple.
#![tactic(auto)]

mod faults;
mod fields;
mod growing;
mod lines;
mod literals;
mod operations;
mod reader;
mod scalars;
mod verbs;
mod write;

pub use faults::{LineFault, MAX_LINE};
pub use lines::{read_line, read_template};
pub use operations::write_op;
pub use write::{write_answer, write_tuple, written_is_read, written_is_text};
