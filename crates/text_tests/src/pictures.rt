//! Tests of pictures (`picture`).

mod drawings;
mod escapes;
