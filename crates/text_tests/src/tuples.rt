//! Tests of operations, answers and tuples as text (`tuple_text`).

mod lines;
mod texts;
