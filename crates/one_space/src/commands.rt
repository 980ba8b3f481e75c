//! The commands, from a path or digits to the status that the program ends with.

ghost use Rattle.std.specs.Prelude.{◌≡◌, ◌↔◌, ◌⊎◌, codes, IfErr, IfOk, IsErr, IsTrue};
ghost use Rattle.one_space.specs.Commands.{Complains, EndsByFault, EndsLocal, EndsShown, ReadsOpened, manner_for};
ghost use Rattle.one_space.specs.Complaints.{OfOpen};
ghost use Rattle.one_space.specs.Endings.{scene_of};

use crate::complaints::Complaint;
use crate::console::{Console, StandardError, complain};
use crate::digits::show;
use crate::script::read_script;
use crate::session::{LocalFault, Manner, Rules, run_lines};
use space::Version;
use std::alloc::Global;
use std::fs;
use std::io::{self, Read, Write};
use std::mem::forget;
use std::rt::Files;
use tuple_codec::Op;

/// The word that stands for the standard input, wherever a file is named.
pub const DASH: &str = "-";

/// The path of the standard input, which the program has already. Opening it by this path can fail, for example if
/// another user's program made it.
pub const STANDARD_INPUT: &str = "/dev/stdin";

/// Whether this word names the standard input.
pub fn is_standard_input(path: &str) -> bool
    ensures { IsTrue result ↔ ((path.now ≡ codes "-") ⊎ (path.now ≡ codes "/dev/stdin")) }
{
    path == DASH || path == STANDARD_INPUT
}

/// What `local` is asked for.
#[derive(Clone, Copy, Debug)]
pub struct LocalRequest<'a> {
    /// The path of the script, or `-`.
    pub script: &'a str,
    pub version: Version,
    /// Whether the run goes on after a refused line.
    pub keeps_going: bool,
}

/// Which of the program's streams are terminals.
#[derive(Clone, Copy, Debug)]
pub struct Terminals {
    pub input: bool,
    pub errors: bool,
}

/// The command `local`. Someone who sits at a terminal is shown a prompt there.
pub fn run_script<R: Files + Input + Print + Eprint + AllocGlobal>(
    rt: &R,
    terminals: Terminals,
    request: LocalRequest<'_>,
) -> u8 {
    let path = request.script;
    if is_standard_input(path) {
        let rules = rules_of(request, terminals.input);
        let has_prompt = terminals.input && terminals.errors;
        let mut console = StandardError::with_prompt(rt, has_prompt);
        let status = run_opened(
            rt.alloc(),
            rules,
            path,
            Ok(rt.reader()),
            &mut io::writer(rt),
            &mut console,
        );
        console.end();
        return status;
    }
    run_opened(
        rt.alloc(),
        rules_of(request, false),
        path,
        fs::open(rt, path),
        &mut io::writer(rt),
        &mut StandardError::new(rt),
    )
}

// The rules of a run whose lines come from someone who sits there, or not.
fn rules_of(request: LocalRequest<'_>, is_there: bool) -> Rules
    ensures version { result.version ≡ request.entry.version }
    ensures manner { result.manner ≡ manner_for is_there request.entry.keeps_going }
{
    let manner = if is_there {
        Manner::Talks
    } else if request.keeps_going {
        Manner::KeepsGoing
    } else {
        Manner::Strict
    };
    Rules {
        version: request.version,
        manner,
    }
}

/// Runs the script that was opened, or complains that it wasn't. The results go to the writer, and all else is told to
/// the console. Gives the status: 0 if the script ran to its end and no line was refused.
pub fn run_opened<I: Read + Drop, W: Write, C: Console>(
    alloc: Global,
    rules: Rules,
    path: &str,
    opened: io::Result<I>,
    writer: &mut W,
    console: &mut C,
) -> u8
    ensures unopened { IfErr opened
        (λ error. Complains (OfOpen error path.now) result (C.said console.old) (C.said console.new)) }
    ensures ended { IfOk opened (λ reader. EndsLocal rules path.now (I.remaining reader) result
        (scene_of W.contents C.said writer.old console.old)
        (scene_of W.contents C.said writer.new console.new)) }
{
    let input = match opened {
        Ok(input) => input,
        Err(error) => return complain(console, Complaint::of_open(&error, path), error),
    };
    match run_lines(alloc, rules, input, writer, console) {
        Ok(ended) => {
            let status = u8::from(ended.refused > 0);
            // The command ends here, and its process with it, so no tuple is given back.
            forget(ended);
            status
        }
        Err(fault) => end_with(&fault, path, console),
    }
}

// Complains about a fault, unless a refused line was told already. Gives the status.
fn end_with<C: Console>(fault: &LocalFault, path: &str, console: &mut C) -> u8
    ensures { EndsByFault fault.now path.now result (C.said console.old) (C.said console.new) }
{
    match fault {
        LocalFault::Refused { .. } => 1,
        LocalFault::Read(_) => complain(console, Complaint::Unreadable { path }, fault),
        LocalFault::NoMemory => complain(console, Complaint::Stopped, fault),
        LocalFault::Write(error) => complain(console, Complaint::of_write(error), fault),
    }
}

/// The first `most` operations of the script at this path, by [`read_script`].
///
/// # Errors
///
/// The status to end with, after a complaint.
pub fn script_at<R: Files + Input + Eprint + AllocGlobal>(
    rt: &R,
    path: &str,
    most: usize,
) -> Result<Vec<Op<Global>>, u8> {
    let mut console = StandardError::new(rt);
    if is_standard_input(path) {
        read_opened(rt.alloc(), path, Ok(rt.reader()), most, &mut console)
    } else {
        read_opened(rt.alloc(), path, fs::open(rt, path), most, &mut console)
    }
}

/// The first `most` operations of the script that was opened.
///
/// # Errors
///
/// The status to end with, after a complaint.
pub fn read_opened<I: Read + Drop, C: Console>(
    alloc: Global,
    path: &str,
    opened: io::Result<I>,
    most: usize,
    console: &mut C,
) -> Result<Vec<Op<Global>>, u8>
    ensures unopened { IfErr opened (λ error. IfErr result
        (λ status. Complains (OfOpen error path.now) status (C.said console.old) (C.said console.new))) }
    ensures fails { IsErr opened → IsErr result }
    ensures read { IfOk opened (λ reader. ReadsOpened most result path.now (I.remaining reader)
        (C.said console.old) (C.said console.new)) }
{
    let input = match opened {
        Ok(input) => input,
        Err(error) => return Err(complain(console, Complaint::of_open(&error, path), error)),
    };
    match read_script(alloc, input, most, console) {
        Ok(ops) => Ok(ops),
        Err(fault) => Err(end_with(&fault, path, console)),
    }
}

/// The command `show`.
pub fn print_tuple<R: Print + Eprint + AllocGlobal>(rt: &R, digits: &str) -> u8 {
    show_digits(
        rt.alloc(),
        digits,
        &mut io::writer(rt),
        &mut StandardError::new(rt),
    )
}

/// Writes the tuple of these digits by [`show`], or complains. Gives the status.
pub fn show_digits<W: Write, C: Console>(
    alloc: Global,
    digits: &str,
    writer: &mut W,
    console: &mut C,
) -> u8
    ensures { EndsShown digits.now result (W.contents writer.old) (W.contents writer.new)
        (C.said console.old) (C.said console.new) }
{
    match show(alloc, digits, writer) {
        Ok(()) => 0,
        Err(fault) => complain(console, Complaint::of_show(&fault), &fault),
    }
}
