//! Operations on a tuple space, their answers, and the bytes of both.
//!
//! # What is proved
//!
//! `encode_*` append the one spelling, or leave the bytes as they were. `decode_*` give a value only if the bytes in
//! front spell it, and call bytes malformed only if no front of them spells a value. They judge the bytes before they
//! take memory, so memory runs out only if some front spells a value; `decode_judged_op` reads bytes that were judged
//! before, in one pass. `is_op` and `is_result` hold exactly of a whole spelling and take no memory.
//!
//! Operations and answers are equal if `same` says so, `copy_in` gives equal ones, and `encoded_len` is the length of
//! the spelling. `is_read` tells which operations leave each space as it is, and `is_version_2` which ones a space of
//! version 1 refuses. `one_spelling` is the law that no spelling begins another and each stands for one value. By
//! `note_valid` each operation and answer that the program holds is within the limits.
#![tactic(auto)]

mod bad;
mod check;
mod decode;
mod decode_operations;
mod encode;
mod laws;
mod operations;
mod reading;

pub use bad::Bad;
pub use check::{is_op, is_result};
pub use decode::{decode_template, decode_tuple};
pub use decode_operations::{decode_judged_op, decode_op, decode_result, read_answer, read_op};
pub use encode::{encode_op, encode_result, encode_template, encode_tuple};
pub use laws::one_spelling;
pub use operations::{Answer, MAX_ANSWERS, Max, Op, Tuples};
