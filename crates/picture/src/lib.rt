//! A run as an SVG message sequence chart.
//!
//! # What is proved
//!
//! `escape` appends exactly the text of `specs/Escaping.antt`: the entity of each character that has a meaning in
//! XML, the replacement character for each that XML 1.0 does not allow, and all others themselves. By the law
//! `escaped_is_plain` an escaped text has no `<`, `>` or quote and only XML's characters, and each `&` begins an
//! entity.
//!
//! `write_picture` appends the declaration and the opening of an `svg` element, UTF-8, and the element's end, or
//! leaves the bytes as they were. It tells `NoEntry` exactly if the trace has entries, but none at the positions, and
//! `TooHigh` exactly if it has more than `MAX_ROWS` there. It tells `TooWide` only of more than `MAX_LANES` parties
//! (`specs/Faults.antt`). It is safe and returns, on any configuration, entries and points. What stands in between,
//! and that tags are well nested, is tested and looked at (`text_tests`, `docs/pictures`).
//!
//! # How it is made
//!
//! - It draws the trace lines that `trace_text` writes.
//! - It finds a frame's sending in a hash map by the frame's bytes. So the time grows with the bytes of the trace, and
//!   hardly faster.
//! - Labels are cut, titles are trace lines, and both go through `escape`.
#![tactic(auto)]

mod acts;
mod arrows;
mod drawing;
mod escaping;
mod fault;
mod judge;
mod labels;
mod lanes;
mod laws;
mod legend;
mod marks;
mod messages;
mod run;
mod shapes;

pub use drawing::write_picture;
pub use escaping::escape;
pub use fault::PictureFault;
pub use lanes::{MAX_LANES, MAX_ROWS};
pub use laws::escaped_is_plain;
pub use run::Run;
