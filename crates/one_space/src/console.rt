//! Standard error, as the commands use it.

ghost use Rattle.std.specs.Prelude.{◌≡◌, [], ◌∷◌};
ghost use Rattle.one_space.specs.Complaints.{Says, complaint_text, lines_said, status_of};

use crate::complaints::Complaint;
use crate::escaped::Escaped;
use std::fmt::Display;

// The operations, with an example each.
const HELP: &str = r#"out TUPLE           adds the tuple                              out ("job" 1)
rdp TEMPLATE        finds the oldest tuple that matches         rdp ("job" ?int)
inp TEMPLATE        finds it and takes it away                  inp ("job" *)
cas TEMPLATE TUPLE  adds the tuple if no tuple matches          cas ("owner" *) ("owner" "me")
rdAll N TEMPLATE    tells the N oldest that match, N up to 64   rdAll 64 (* ?int)
inAll N TEMPLATE    tells them and takes them, in version 2     inAll 64 ("job" *)
upgrade             makes the space one of version 2            upgrade
A value is a number, a text, bytes as x00ff, true, false or a tuple; in version 2 also a wide number as w1. In a
template * stands for any value, and ?int, ?text, ?bytes, ?bool, ?tuple or ?wide for any of a kind.
The end of the input ends the session."#;

/// Is told all that a command says beside its results.
pub trait Console {
    ghost use Rattle.std.specs.Prelude.{ℕ, List, Option, None};

    /// The lines of the complaints that it was told, if it says them.
    ghost said: { Self → Option (List (List ℕ)) } = { λ _. None };

    /// Says the complaint, and on a line of its own the reason.
    fn say<D: Display + Drop>(&mut self, complaint: Complaint<'_>, reason: D)
        ensures { Says (said self.old) (said self.new) (complaint_text complaint.entry ∷ []) };

    /// All results so far are written, and the next line of the script is asked for.
    fn ask(&mut self)
        ensures { Says (said self.old) (said self.new) [] };

    /// Tells the operations.
    fn help(&mut self)
        ensures { Says (said self.old) (said self.new) [] };
}

/// A console that nobody hears.
#[derive(Clone, Copy, Drop)]
pub struct Unheard;

impl Console for Unheard {
    fn say<D: Display + Drop>(&mut self, _complaint: Complaint<'_>, _reason: D) {}

    fn ask(&mut self) {}

    fn help(&mut self) {}
}

/// Says the complaint and its reason, and gives the status that the program ends with.
pub fn complain<C: Console, D: Display + Drop>(
    console: &mut C,
    complaint: Complaint<'_>,
    reason: D,
) -> u8
    ensures status { result ≡ status_of complaint.entry }
    ensures said { Says (C.said console.old) (C.said console.new) (lines_said complaint.entry) }
{
    if !matches!(complaint, Complaint::OutputClosed) {
        console.say(complaint, reason);
    }
    complaint.status()
}

/// The standard error of a program. A failure to write there is ignored: the status tells of it too.
#[derive(Drop)]
pub struct StandardError<'a, R> {
    rt: &'a R,
    // Whether someone sits there and is asked for lines.
    has_prompt: bool,
    is_asking: bool,
}

impl<'a, R: Eprint> StandardError<'a, R> {
    /// No line is asked for.
    pub fn new(rt: &'a R) -> StandardError<'a, R> {
        StandardError {
            rt,
            has_prompt: false,
            is_asking: false,
        }
    }

    /// Shows a prompt before each line if it has one.
    pub fn with_prompt(rt: &'a R, has_prompt: bool) -> StandardError<'a, R> {
        StandardError {
            rt,
            has_prompt,
            is_asking: false,
        }
    }

    /// Ends the line on which a prompt waits.
    pub fn end(&mut self) {
        if self.is_asking {
            self.is_asking = false;
            let _ = eprintln!(self.rt; "");
        }
    }
}

impl<R: Eprint> Console for StandardError<'_, R> {
    fn say<D: Display + Drop>(&mut self, complaint: Complaint<'_>, reason: D) {
        self.is_asking = false;
        let _ = eprintln!(self.rt; "{}\n{}", Escaped::line(complaint), Escaped::line(reason));
    }

    fn ask(&mut self) {
        if self.has_prompt {
            self.is_asking = true;
            let _ = eprint!(self.rt; "> ");
        }
    }

    fn help(&mut self) {
        self.is_asking = false;
        let _ = eprintln!(self.rt; "{HELP}");
    }
}
