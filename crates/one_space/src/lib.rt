//! The commands on one space: `local` runs a script, and `show` prints a tuple.
//!
//! # What is proved
//!
//! [`run_lines`] holds over any reader and writer whose bytes are known, and any console that says what it was told. A
//! run begins with the empty space of the requested version. At `Ok` it wrote the result line of each line that isn't
//! refused, by the space as the lines before left it. It told each refused line, in order, by its number and refusal.
//! A strict run ends at the first refused line, and the fault has that line's number and refusal. Then, and at out of
//! memory or a reader's error, it wrote and told what belongs to some first lines. [`local`] is a strict run.
//!
//! [`run_opened`] gives the status 0 exactly if a script was run to its end and no line was refused. What it tells the
//! console at a fault is the complaint about that fault. Only `-` and `/dev/stdin` name the standard input.
//!
//! [`show`] writes the tuple that the digits spell, and refuses them exactly if they spell none. [`read_script`]
//! gives the operations of all lines, or the first ones if there are more than requested. If a line is refused, it
//! gives the number and the refusal of the first such line. The texts on standard error and the statuses follow from
//! the faults ([`Complaint`]).
//!
//! Results are held back only while a whole line is at hand, so nobody waits for an answer that is there. The order
//! of reads and writes is tested.
#![tactic(auto)]

mod commands;
mod complaints;
mod console;
mod digits;
mod escaped;
mod help;
mod input;
mod once;
mod pieces;
mod reasons;
mod script;
mod session;
mod words;

pub use commands::{
    LocalRequest, Terminals, is_standard_input, print_tuple, read_opened, run_opened, run_script,
    script_at, show_digits,
};
pub use complaints::Complaint;
pub use console::{Console, StandardError, Unheard, complain};
pub use digits::{BadDigits, ShowFault, show};
pub use escaped::{Escaped, EscapedErrors, ShownBytes};
pub use input::{NextLine, NoLine, next_line, skip_rest};
pub use once::EndsOnce;
pub use pieces::{PieceEnd, ReadFault, drop_return, is_blank, read_piece};
pub use reasons::LineReason;
pub use script::read_script;
pub use session::{Ended, LocalFault, Manner, Rules, local, run_lines};
pub use words::words_of;
