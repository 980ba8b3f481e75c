//! The words of the command line, read by `clap`.
//!
//! The public items here have no type of `clap`, so only this crate pays for the proofs of those types.
//!
//! # What is proved
//!
//! `read_words` is safe and returns, on any words. If `clap` runs out of memory, it gives `NoMemory`. Only help and the
//! version give `Shown`, and neither of them gives `Wrong` (`say`). A request has the values that `clap` found, each in
//! its own field: `IsRequest` says which argument or option a field is of (`request_in`). A drill is the one that its
//! text names (`drill_of`). The tests of `btspace` show which words are a request, that not all others are `NoMemory`,
//! which values an option takes, and what the program prints.
#![tactic(auto)]

mod drills;

ghost use Rattle.std.specs.Prelude.{◌≡◌, ◌≢◌, ◌⊎◌, ◌^◌, ◌-◌, IfSome, codes};
ghost use Rattle.clap.specs.Values.{kind_of};
ghost use Rattle.command_line.specs.Requests.{ArePositions, AsksFor, IsAbove, IsFlag, IsPrinted, IsRequest, IsShown};

pub use crate::drills::{DrillKind, Drilled, Drills, MOST_DRILLS};
use crate::drills::{DRILLS, drills_among};
use clap::error::ErrorKind;
use clap::{Arg, ArgAction, ArgMatches, Command, Error, value_parser};
use std::alloc::{AllocError, Global};
use std::convert::AsStr;
use std::io;

/// A request of the command line.
#[derive(Clone, Copy, Debug, PartialEq, Eq)]
pub enum Request<'a> {
    /// Run the script at this path on a space of this version, after refused lines too if it keeps going.
    Local {
        script: &'a str,
        space: SpaceVersion,
        keeps_going: bool,
    },
    /// Show the tuple of these digits.
    Show {
        digits: &'a str,
    },
    /// Run the script at the second path on a cluster of the configuration at the first, whose drilled replicas lie.
    /// Summarize the run at its end, if that is asked for.
    Run {
        config: &'a str,
        script: &'a str,
        drills: Drills,
        has_summary: bool,
    },
    /// Run the schedule at the second path in the configuration at the first.
    Schedule {
        config: &'a str,
        file: &'a str,
        printed: Printed,
    },
    /// Write the file of each party of the configuration at this path into the folder.
    Keys {
        config: &'a str,
        folder: &'a str,
    },
    /// Serve the replica whose file of keys stands at this path.
    Replica {
        keys: &'a str,
    },
    /// Serve the client whose file of keys stands at this path, over the records that the second path has and that the
    /// third one takes. Its life begins above this timestamp, or above that of the clock.
    Client {
        keys: &'a str,
        records_in: &'a str,
        records_out: &'a str,
        above: Option<u64>,
    },
}

/// The version of a space.
#[derive(Clone, Copy, Debug, PartialEq, Eq)]
pub enum SpaceVersion {
    One,
    Two,
}

/// The output of a run.
#[derive(Clone, Copy, Debug, PartialEq, Eq)]
pub enum Printed {
    /// The accepted answers, and how many entries the trace has.
    Report,
    /// Each entry of the trace, and then the report.
    Trace,
    /// The picture of the entries at these positions, and nothing else.
    Picture(Positions),
}

/// Positions in a trace, counted from 0, with both ends. A trace may have fewer entries.
#[derive(Clone, Copy, Debug, PartialEq, Eq)]
pub struct Positions {
    pub from: u64,
    pub to: u64,
}

/// Why there is no request.
#[derive(Clone, Copy, Debug)]
pub enum NoRequest {
    /// The words ask for help or the version, which was printed on standard output.
    Shown,
    /// The words are wrong, and standard error says how, if it can be written.
    Wrong,
    /// The help or the version can't be printed.
    Unprinted(io::Error),
    NoMemory,
}

/// Reads the words; the first is the program's name. Prints help or the version if the words ask for it, and the
/// error if the words are wrong.
pub fn read_words<'a, R: Print + Eprint + AllocGlobal, S: AsStr>(
    rt: &R,
    words: &'a [S],
) -> Result<Request<'a>, NoRequest> {
    match request_of(rt.alloc(), words) {
        Ok(request) => Ok(request),
        Err(error) => Err(say(rt, &error)),
    }
}

fn request_of<'a, S: AsStr>(alloc: Global, words: &'a [S]) -> Result<Request<'a>, Error> {
    let mut program = program(alloc)?;
    request_by(&mut program, words)
}

// `clap` reports help and the version as an error.
fn request_by<'a, S: AsStr>(
    program: &mut Command<'a>,
    words: &'a [S],
) -> Result<Request<'a>, Error> {
    let matches = program.try_get_matches_from_mut(words)?;
    match request_among(&matches) {
        Some(request) => Ok(request),
        None => Err(missing_subcommand(program)),
    }
}

fn request_among<'a>(matches: &ArgMatches<'a>) -> Option<Request<'a>> {
    let (name, given) = matches.subcommand()?;
    request_in(name, given)
}

fn missing_subcommand(program: &mut Command<'_>) -> Error {
    match program.error(ErrorKind::MissingSubcommand, "a subcommand is missing") {
        Ok(error) => error,
        Err(error) => Error::from(error),
    }
}

// The request of a subcommand, whose arguments are required.
fn request_in<'a>(name: &str, given: &ArgMatches<'a>) -> Option<Request<'a>>
    ensures { IfSome result (IsRequest name.now given.now) }
{
    if name == "local" {
        Some(Request::Local {
            script: given.get_str("SCRIPT")?,
            space: space_version(given),
            keeps_going: flag_of(given, "keep-going"),
        })
    } else if name == "run" {
        Some(Request::Run {
            config: given.get_str("CONFIG")?,
            script: given.get_str("SCRIPT")?,
            drills: drills_among(given.get_strs("drill").unwrap_or(&[])),
            has_summary: flag_of(given, "summary"),
        })
    } else if name == "show" {
        Some(Request::Show {
            digits: given.get_str("HEX")?,
        })
    } else if name == "schedule" {
        Some(Request::Schedule {
            config: given.get_str("CONFIG")?,
            file: given.get_str("FILE")?,
            printed: printed_of(given),
        })
    } else if name == "keys" {
        Some(Request::Keys {
            config: given.get_str("CONFIG")?,
            folder: given.get_str("FOLDER")?,
        })
    } else if name == "replica" {
        Some(Request::Replica {
            keys: given.get_str("KEYS")?,
        })
    } else if name == "client" {
        Some(Request::Client {
            keys: given.get_str("KEYS")?,
            records_in: given.get_str("IN")?,
            records_out: given.get_str("OUT")?,
            above: above_of(given),
        })
    } else {
        None
    }
}

// `clap` gives the option the value 1 if the words don't name it.
fn space_version(given: &ArgMatches<'_>) -> SpaceVersion
    ensures { AsksFor given.now result }
{
    if given.get_str("space") == Some("2") {
        SpaceVersion::Two
    } else {
        SpaceVersion::One
    }
}

fn flag_of(given: &ArgMatches<'_>, name: &str) -> bool
    ensures { IsFlag given.now name.now result }
{
    given.get_flag(name)
}

// The two options exclude each other.
fn printed_of(given: &ArgMatches<'_>) -> Printed
    ensures { IsPrinted given.now result }
{
    if flag_of(given, "picture") {
        Printed::Picture(positions_of(given))
    } else if flag_of(given, "trace") {
        Printed::Trace
    } else {
        Printed::Report
    }
}

// A picture is of all entries, if the words don't say of which.
fn positions_of(given: &ArgMatches<'_>) -> Positions
    ensures { ArePositions given.now result }
{
    Positions {
        from: given.get_one::<u64>("from").unwrap_or(0),
        to: given.get_one::<u64>("to").unwrap_or(u64::MAX),
    }
}

fn above_of(given: &ArgMatches<'_>) -> Option<u64>
    ensures { IsAbove given.now result }
{
    given.get_one::<u64>("above")
}

fn program<'a>(alloc: Global) -> Result<Command<'a>, AllocError> {
    let program = Command::new(alloc, "btspace")
        .version("0.1.0")
        .about("A tuple space")
        .subcommand_required(true);
    let program = with_subcommand(program, local(alloc))?;
    let program = with_subcommand(program, run(alloc))?;
    let program = with_subcommand(program, schedule(alloc))?;
    let program = with_subcommand(program, keys(alloc))?;
    let program = with_subcommand(program, replica(alloc))?;
    let program = with_subcommand(program, client(alloc))?;
    with_subcommand(program, show(alloc))
}

// If memory runs out in a subcommand, the program is dropped only here.
fn with_subcommand<'a>(
    program: Command<'a>,
    subcommand: Result<Command<'a>, AllocError>,
) -> Result<Command<'a>, AllocError> {
    program.subcommand(subcommand?)
}

static SPACE_VERSIONS: [&str; 2] = ["1", "2"];

// An argument is made right before the subcommand takes it, so a `?` has none to drop.
fn local<'a>(alloc: Global) -> Result<Command<'a>, AllocError> {
    Command::new(alloc, "local")
        .about("Runs a script on a space of its own and prints a result line for each operation")
        .arg(space_option(alloc))?
        .arg(flag(
            alloc,
            "keep-going",
            "Go on after a refused line; the status is 1 at the end if there was one",
        ))?
        .arg(required(
            alloc,
            "SCRIPT",
            "The file of the script, a line for each operation, or -",
        ))
}

fn space_option<'a>(alloc: Global) -> Arg<'a> {
    Arg::new(alloc, "space")
        .long("space")
        .value_name("VERSION")
        .value_parser(SPACE_VERSIONS.as_slice())
        .default_value("1")
        .help("The version of the space; one of version 2 also takes wide numbers and inAll")
}

// The numbers were measured; docs/figures.md has the table.
const ROOM: &str =
    "The journal takes 65,536 entries, or as many as the configuration says. One client's writes that fit:
about 1,250 at f = 1, 490 at f = 2, 260 at f = 3. Reads that fit: about 4,300, 2,700, 1,980.";

fn run<'a>(alloc: Global) -> Result<Command<'a>, AllocError> {
    Command::new(alloc, "run")
        .about("Runs a script on a running cluster and prints a result line for each operation")
        .after_help(ROOM)
        .arg(drill_option(alloc))?
        .arg(flag(
            alloc,
            "summary",
            "Tell the views, numbers, entries, stopped parties and time of the run on standard error",
        ))?
        .arg(required(
            alloc,
            "CONFIG",
            "The file of the configuration, in TOML, which names no faulty party, or -",
        ))?
        .arg(required(
            alloc,
            "SCRIPT",
            "The file of the script, a line for each operation, which the clients take in turn, or -",
        ))
}

fn drill_option<'a>(alloc: Global) -> Arg<'a> {
    Arg::new(alloc, "drill")
        .long("drill")
        .value_name("REPLICA=DRILL")
        .action(ArgAction::Append)
        .value_parser(DRILLS.as_slice())
        .hide_possible_values(true)
        .help(
            "Let a replica lie, up to f of them: 3=silent sends nothing, 3=stale answers reads from an empty space",
        )
}

fn schedule<'a>(alloc: Global) -> Result<Command<'a>, AllocError> {
    let trace = flag(
        alloc,
        "trace",
        "Print the entries of the trace before the report, a line each",
    )
    .conflicts_with("picture")?;
    Command::new(alloc, "schedule")
        .about("Runs a schedule in a world of replicas and clients and prints what was accepted")
        .arg(trace)?
        .arg(flag(
            alloc,
            "picture",
            "Print the run as an SVG message sequence chart in place of the report",
        ))?
        .arg(position(
            alloc,
            "from",
            "The position of the first entry that the chart shows [default: 0]",
        )?)?
        .arg(position(
            alloc,
            "to",
            "The position of the last entry that the chart shows [default: the last one]",
        )?)?
        .arg(required(
            alloc,
            "CONFIG",
            "The file of the configuration, in TOML, or -",
        ))?
        .arg(required(
            alloc,
            "FILE",
            "The file of the schedule, a line for each step, or -",
        ))
}

// Who has the seed has all keys.
const SEED: &str =
    "The seed gives all keys, so no party may have it. Without a seed in the configuration a fresh one is drawn from
/dev/urandom, and kept nowhere.";

fn keys<'a>(alloc: Global) -> Result<Command<'a>, AllocError> {
    Command::new(alloc, "keys")
        .about("Writes a file for each party, with the keys that it may have")
        .after_help(SEED)
        .arg(required(
            alloc,
            "CONFIG",
            "The file of the configuration, in TOML, or -",
        ))?
        .arg(required(
            alloc,
            "FOLDER",
            "The folder of the files r0.toml .. and c0.toml .., which is made if it isn't there",
        ))
}

// The program opens no connection.
const RECORDS: &str =
    "It reads records from standard input and writes records to standard output: frames that come and go, and timers.
Something else has to carry them between the parties. It ends with its input.";

fn replica<'a>(alloc: Global) -> Result<Command<'a>, AllocError> {
    Command::new(alloc, "replica")
        .about("Serves a replica by the file of its keys, over records")
        .after_help(RECORDS)
        .arg(required(
            alloc,
            "KEYS",
            "The file of the replica's keys, as keys writes it",
        ))
}

const LIVES: &str =
    "It calls the operations of the lines on standard input, and prints a line for each: the result, or ! and why the line
is refused. Something else has to carry records between the parties: they are read at IN and written to OUT, which are
named pipes or /dev/fd/N. A client that is started again has to begin above all its earlier timestamps. By the clock it
does, unless that is set back.";

fn client<'a>(alloc: Global) -> Result<Command<'a>, AllocError> {
    Command::new(alloc, "client")
        .about("Serves a client by the file of its keys, over a script and records")
        .after_help(LIVES)
        .arg(above_option(alloc))?
        .arg(required(
            alloc,
            "KEYS",
            "The file of the client's keys, as keys writes it",
        ))?
        .arg(required(alloc, "IN", "The file from which it reads records"))?
        .arg(required(alloc, "OUT", "The file to which it writes records"))
}

fn above_option<'a>(alloc: Global) -> Arg<'a> {
    Arg::new(alloc, "above")
        .long("above")
        .value_name("TIMESTAMP")
        .value_parser(value_parser!(u64))
        .help(
            "Begin above this timestamp, below 2^62 [default: the milliseconds since 1970, times 2^20]",
        )
}

fn show<'a>(alloc: Global) -> Result<Command<'a>, AllocError> {
    Command::new(alloc, "show")
        .about("Prints the tuple that is encoded by these bytes")
        .arg(required(
            alloc,
            "HEX",
            "The bytes of a tuple, two hexadecimal digits a byte",
        ))
}

fn required<'a>(alloc: Global, name: &'a str, help: &'a str) -> Arg<'a> {
    Arg::new(alloc, name).required(true).help(help)
}

fn flag<'a>(alloc: Global, name: &'a str, help: &'a str) -> Arg<'a> {
    Arg::new(alloc, name)
        .long(name)
        .action(ArgAction::SetTrue)
        .help(help)
}

// The position of an entry, for a picture.
fn position<'a>(alloc: Global, name: &'a str, help: &'a str) -> Result<Arg<'a>, AllocError> {
    Arg::new(alloc, name)
        .long(name)
        .value_name("POSITION")
        .value_parser(value_parser!(u64))
        .help(help)
        .requires_arg("picture")
}

// Help and the version go to standard output, errors to standard error. Nobody may read these.
fn say<R: Print + Eprint>(rt: &R, error: &Error) -> NoRequest
    ensures memory { kind_of error.now ≡ ErrorKind.OutOfMemory → result ≡ NoRequest.NoMemory }
    ensures shown { IsShown result → (kind_of error.now ≡ ErrorKind.DisplayHelp)
        ⊎ (kind_of error.now ≡ ErrorKind.DisplayVersion) }
    ensures wrong { result ≡ NoRequest.Wrong → (kind_of error.now ≢ ErrorKind.DisplayHelp)
        × (kind_of error.now ≢ ErrorKind.DisplayVersion) }
{
    if error.kind() == ErrorKind::OutOfMemory {
        return NoRequest::NoMemory;
    }
    let printed = error.print(rt);
    if error.use_stderr() {
        return NoRequest::Wrong;
    }
    match printed {
        Ok(()) => NoRequest::Shown,
        Err(error) => NoRequest::Unprinted(error),
    }
}
