//! Tests of the text of entries (`trace_text`).

mod entries;
mod frames;
