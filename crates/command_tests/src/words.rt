//! The words of the command line, and the output for them.

use command_line::{
    DrillKind, Drilled, Drills, NoRequest, Positions, Printed, Request, SpaceVersion, read_words,
};
use std::alloc::Global;
use std::cell::RefCell;
use std::fmt::Display;
use std::io::{self, Write};

// The texts printed on standard output and on standard error, while they are open.
#[derive(Drop)]
pub struct Console {
    is_open: bool,
    pub output: RefCell<Vec<u8>>,
    pub errors: RefCell<Vec<u8>>,
}

impl Console {
    pub fn new(alloc: Global, is_open: bool) -> Console {
        Console {
            is_open,
            output: RefCell::new(Vec::new(alloc)),
            errors: RefCell::new(Vec::new(alloc)),
        }
    }

    fn put<D: Display + Drop>(
        &self,
        stream: &RefCell<Vec<u8>>,
        value: D,
        end: &str,
    ) -> io::Result<()> {
        if !self.is_open {
            return Err(io::Error::from(io::ErrorKind::BrokenPipe));
        }
        match stream.try_borrow_mut() {
            Ok(mut text) => write!(text, "{value}{end}"),
            Err(_) => Err(io::Error::from(io::ErrorKind::ResourceBusy)),
        }
    }
}

impl Print for Console {
    fn print<D: Display + Drop>(&self, value: D) -> io::Result<()> {
        self.put(&self.output, value, "")
    }

    fn println<D: Display + Drop>(&self, value: D) -> io::Result<()> {
        self.put(&self.output, value, "\n")
    }

    fn write_all(&self, _bytes: &[u8]) -> io::Result<()> {
        Err(io::Error::from(io::ErrorKind::Unsupported))
    }
}

impl Eprint for Console {
    fn eprint<D: Display + Drop>(&self, value: D) -> io::Result<()> {
        self.put(&self.errors, value, "")
    }

    fn eprintln<D: Display + Drop>(&self, value: D) -> io::Result<()> {
        self.put(&self.errors, value, "\n")
    }
}

pub fn holds(stream: &RefCell<Vec<u8>>, text: &str) -> bool {
    match stream.try_borrow() {
        Ok(printed) => printed.as_slice() == text.as_bytes(),
        Err(_) => false,
    }
}

// Why words are no request.
#[derive(Clone, Copy, PartialEq, Eq)]
pub enum NoWords {
    Shown,
    Wrong,
    Unprinted,
    NoMemory,
}

// Why there is no request, or `None` if there is one.
pub fn ending_of(read: Result<Request<'_>, NoRequest>) -> Option<NoWords> {
    match read {
        Ok(_) => None,
        Err(NoRequest::Shown) => Some(NoWords::Shown),
        Err(NoRequest::Wrong) => Some(NoWords::Wrong),
        Err(NoRequest::Unprinted(_)) => Some(NoWords::Unprinted),
        Err(NoRequest::NoMemory) => Some(NoWords::NoMemory),
    }
}

// Words, why they are no request, and the texts on standard output and on standard error, in the layout of Rust's
// clap 4.
#[derive(Clone, Copy)]
struct Row {
    words: &'static [&'static str],
    why: NoWords,
    output: &'static str,
    errors: &'static str,
}

static ROWS: [Row; 24] = [
    Row {
        words: &["btspace", "--help"],
        why: NoWords::Shown,
        output: "A tuple space

Usage: btspace <COMMAND>

Commands:
  local     Runs a script on a space of its own and prints a result line for each operation
  run       Runs a script on a running cluster and prints a result line for each operation
  schedule  Runs a schedule in a world of replicas and clients and prints what was accepted
  keys      Writes a file for each party, with the keys that it may have
  replica   Serves a replica by the file of its keys, over records
  client    Serves a client by the file of its keys, over a script and records
  show      Prints the tuple that is encoded by these bytes
  help      Print this message or the help of the given subcommand(s)

Options:
  -h, --help     Print help
  -V, --version  Print version
",
        errors: "",
    },
    Row {
        words: &["btspace", "help"],
        why: NoWords::Shown,
        output: "A tuple space

Usage: btspace <COMMAND>

Commands:
  local     Runs a script on a space of its own and prints a result line for each operation
  run       Runs a script on a running cluster and prints a result line for each operation
  schedule  Runs a schedule in a world of replicas and clients and prints what was accepted
  keys      Writes a file for each party, with the keys that it may have
  replica   Serves a replica by the file of its keys, over records
  client    Serves a client by the file of its keys, over a script and records
  show      Prints the tuple that is encoded by these bytes
  help      Print this message or the help of the given subcommand(s)

Options:
  -h, --help     Print help
  -V, --version  Print version
",
        errors: "",
    },
    Row {
        words: &["btspace", "show", "-h"],
        why: NoWords::Shown,
        output: "Prints the tuple that is encoded by these bytes

Usage: btspace show <HEX>

Arguments:
  <HEX>  The bytes of a tuple, two hexadecimal digits a byte

Options:
  -h, --help  Print help
",
        errors: "",
    },
    Row {
        words: &["btspace", "help", "show"],
        why: NoWords::Shown,
        output: "Prints the tuple that is encoded by these bytes

Usage: btspace show <HEX>

Arguments:
  <HEX>  The bytes of a tuple, two hexadecimal digits a byte

Options:
  -h, --help  Print help
",
        errors: "",
    },
    Row {
        words: &["btspace", "--version"],
        why: NoWords::Shown,
        output: "btspace 0.1.0\n",
        errors: "",
    },
    Row {
        words: &["btspace"],
        why: NoWords::Wrong,
        output: "",
        errors: "error: 'btspace' requires a subcommand but one was not provided
  [subcommands: local, run, schedule, keys, replica, client, show, help]

Usage: btspace <COMMAND>

For more information, try '--help'.
",
    },
    Row {
        words: &["btspace", "nope"],
        why: NoWords::Wrong,
        output: "",
        errors: "error: unrecognized subcommand 'nope'

Usage: btspace <COMMAND>

For more information, try '--help'.
",
    },
    Row {
        words: &["btspace", "show"],
        why: NoWords::Wrong,
        output: "",
        errors: "error: the following required arguments were not provided:
  <HEX>

Usage: btspace show <HEX>

For more information, try '--help'.
",
    },
    Row {
        words: &["btspace", "run", "--help"],
        why: NoWords::Shown,
        output: "Runs a script on a running cluster and prints a result line for each operation

Usage: btspace run [OPTIONS] <CONFIG> <SCRIPT>

Arguments:
  <CONFIG>  The file of the configuration, in TOML, which names no faulty party, or -
  <SCRIPT>  The file of the script, a line for each operation, which the clients take in turn, or -

Options:
      --drill <REPLICA=DRILL>  Let a replica lie, up to f of them: 3=silent sends nothing, 3=stale answers reads from an empty space
      --summary                Tell the views, numbers, entries, stopped parties and time of the run on standard error
  -h, --help                   Print help

The journal takes 65,536 entries, or as many as the configuration says. One client's writes that fit:
about 1,250 at f = 1, 490 at f = 2, 260 at f = 3. Reads that fit: about 4,300, 2,700, 1,980.
",
        errors: "",
    },
    Row {
        words: &["btspace", "run", "a.toml"],
        why: NoWords::Wrong,
        output: "",
        errors: "error: the following required arguments were not provided:
  <SCRIPT>

Usage: btspace run <CONFIG> <SCRIPT>

For more information, try '--help'.
",
    },
    Row {
        words: &["btspace", "run", "--drill", "3=quiet", "a.toml", "b"],
        why: NoWords::Wrong,
        output: "",
        errors: "error: invalid value '3=quiet' for '--drill <REPLICA=DRILL>'
  [possible values: 0=silent, 0=stale, 1=silent, 1=stale, 2=silent, 2=stale, 3=silent, 3=stale, 4=silent, 4=stale, 5=silent, 5=stale, 6=silent, 6=stale, 7=silent, 7=stale, 8=silent, 8=stale, 9=silent, 9=stale]

  tip: a similar value exists: '3=silent'

For more information, try '--help'.
",
    },
    Row {
        words: &["btspace", "schedule", "a.toml"],
        why: NoWords::Wrong,
        output: "",
        errors: "error: the following required arguments were not provided:
  <FILE>

Usage: btspace schedule <CONFIG> <FILE>

For more information, try '--help'.
",
    },
    Row {
        words: &["btspace", "schedule", "--trace", "a.toml", "b", "--picture"],
        why: NoWords::Wrong,
        output: "",
        errors: "error: the argument '--trace' cannot be used with '--picture'

Usage: btspace schedule --trace <CONFIG> <FILE>

For more information, try '--help'.
",
    },
    Row {
        words: &["btspace", "schedule", "-h"],
        why: NoWords::Shown,
        output: "Runs a schedule in a world of replicas and clients and prints what was accepted

Usage: btspace schedule [OPTIONS] <CONFIG> <FILE>

Arguments:
  <CONFIG>  The file of the configuration, in TOML, or -
  <FILE>    The file of the schedule, a line for each step, or -

Options:
      --trace            Print the entries of the trace before the report, a line each
      --picture          Print the run as an SVG message sequence chart in place of the report
      --from <POSITION>  The position of the first entry that the chart shows [default: 0]
      --to <POSITION>    The position of the last entry that the chart shows [default: the last one]
  -h, --help             Print help
",
        errors: "",
    },
    Row {
        words: &["btspace", "schedule", "--from", "1", "a.toml", "b"],
        why: NoWords::Wrong,
        output: "",
        errors: "error: the following required arguments were not provided:
  --picture

Usage: btspace schedule --picture --from <POSITION> <CONFIG> <FILE>

For more information, try '--help'.
",
    },
    Row {
        words: &[
            "btspace",
            "schedule",
            "--picture",
            "--to",
            "last",
            "a.toml",
            "b",
        ],
        why: NoWords::Wrong,
        output: "",
        errors: "error: invalid value 'last' for '--to <POSITION>': invalid digit found in string

For more information, try '--help'.
",
    },
    Row {
        words: &["btspace", "client", "c0.toml", "in"],
        why: NoWords::Wrong,
        output: "",
        errors: "error: the following required arguments were not provided:
  <OUT>

Usage: btspace client <KEYS> <IN> <OUT>

For more information, try '--help'.
",
    },
    Row {
        words: &["btspace", "client", "--above", "now", "a", "b", "c"],
        why: NoWords::Wrong,
        output: "",
        errors: "error: invalid value 'now' for '--above <TIMESTAMP>': invalid digit found in string

For more information, try '--help'.
",
    },
    Row {
        words: &["btspace", "local", "a", "b"],
        why: NoWords::Wrong,
        output: "",
        errors: "error: unexpected argument 'b' found

Usage: btspace local [OPTIONS] <SCRIPT>

For more information, try '--help'.
",
    },
    Row {
        words: &["btspace", "local", "-h"],
        why: NoWords::Shown,
        output: "Runs a script on a space of its own and prints a result line for each operation

Usage: btspace local [OPTIONS] <SCRIPT>

Arguments:
  <SCRIPT>  The file of the script, a line for each operation, or -

Options:
      --space <VERSION>  The version of the space; one of version 2 also takes wide numbers and inAll [default: 1] [possible values: 1, 2]
      --keep-going       Go on after a refused line; the status is 1 at the end if there was one
  -h, --help             Print help
",
        errors: "",
    },
    Row {
        words: &["btspace", "local", "--space", "2"],
        why: NoWords::Wrong,
        output: "",
        errors: "error: the following required arguments were not provided:
  <SCRIPT>

Usage: btspace local --space <VERSION> <SCRIPT>

For more information, try '--help'.
",
    },
    Row {
        words: &["btspace", "local", "--space", "3", "a"],
        why: NoWords::Wrong,
        output: "",
        errors: "error: invalid value '3' for '--space <VERSION>'
  [possible values: 1, 2]

For more information, try '--help'.
",
    },
    Row {
        words: &["btspace", "local", "a", "--space"],
        why: NoWords::Wrong,
        output: "",
        errors: "error: a value is required for '--space <VERSION>' but none was supplied
  [possible values: 1, 2]

For more information, try '--help'.
",
    },
    Row {
        words: &["btspace", "local", "--space=1", "a", "--space=2"],
        why: NoWords::Wrong,
        output: "",
        errors: "error: the argument '--space <VERSION>' cannot be used multiple times

Usage: btspace local [OPTIONS] <SCRIPT>

For more information, try '--help'.
",
    },
];

fn is_printed(alloc: Global, row: &Row) -> bool {
    let console = Console::new(alloc, true);
    let read = read_words(&(&console, alloc), row.words);
    ending_of(read) == Some(row.why)
        && holds(&console.output, row.output)
        && holds(&console.errors, row.errors)
}

// If nothing can be printed, the help is unprinted, and wrong words stay wrong.
fn is_unheard(alloc: Global, row: &Row) -> bool {
    let console = Console::new(alloc, false);
    let wanted = match row.why {
        NoWords::Shown => NoWords::Unprinted,
        other => other,
    };
    ending_of(read_words(&(&console, alloc), row.words)) == Some(wanted)
}

#[test]
fn prints_help_and_mistakes(rt: HostRuntime) {
    for row in &ROWS {
        let is_right = is_printed(rt.alloc(), row) && is_unheard(rt.alloc(), row);
        assert!(rt; is_right, "{}{}", row.output, row.errors);
    }
}

fn asks_for(alloc: Global, words: &[&str], request: Request<'_>) -> bool {
    let console = Console::new(alloc, true);
    match read_words(&(&console, alloc), words) {
        Ok(asked) => asked == request,
        Err(_) => false,
    }
}

fn asks_for_local(alloc: Global, words: &[&str], space: SpaceVersion, keeps_going: bool) -> bool {
    let script = "a.bts";
    let request = Request::Local {
        script,
        space,
        keeps_going,
    };
    asks_for(alloc, words, request)
}

#[test]
fn reads_the_words_of_local(rt: HostRuntime) {
    let alloc = rt.alloc();
    let one = SpaceVersion::One;
    let two = SpaceVersion::Two;
    assert!(rt; asks_for_local(alloc, &["btspace", "local", "a.bts"], one, false));
    assert!(rt;
        asks_for_local(
            alloc,
            &["btspace", "local", "--space", "1", "a.bts"],
            one,
            false
        )
    );
    assert!(rt;
        asks_for_local(
            alloc,
            &["btspace", "local", "--space", "2", "a.bts"],
            two,
            false
        )
    );
    assert!(rt;
        asks_for_local(
            alloc,
            &["btspace", "local", "a.bts", "--space=2"],
            two,
            false
        )
    );
    assert!(rt;
        asks_for_local(
            alloc,
            &["btspace", "local", "a.bts", "--keep-going"],
            one,
            true
        )
    );
}

fn asks_for_run(alloc: Global, words: &[&str], drills: Drills, has_summary: bool) -> bool {
    let request = Request::Run {
        config: "a.toml",
        script: "-",
        drills,
        has_summary,
    };
    asks_for(alloc, words, request)
}

fn drill(replica: u8, kind: DrillKind) -> Option<Drilled> {
    Some(Drilled { replica, kind })
}

#[test]
fn reads_the_words_of_run(rt: HostRuntime) {
    let alloc = rt.alloc();
    let none = Drills([None, None, None, None]);
    assert!(rt; asks_for_run(alloc, &["btspace", "run", "a.toml", "-"], none, false));
    let stale = drill(6, DrillKind::Stale);
    let silent = drill(0, DrillKind::Silent);
    let words = [
        "btspace",
        "run",
        "--drill=6=stale",
        "--summary",
        "--drill",
        "0=silent",
        "a.toml",
        "-",
    ];
    let drills = Drills([stale, silent, None, None]);
    assert!(rt; asks_for_run(alloc, &words, drills, true));
}

fn asks_for_schedule(alloc: Global, words: &[&str], printed: Printed) -> bool {
    let request = Request::Schedule {
        config: "a.toml",
        file: "b",
        printed,
    };
    asks_for(alloc, words, request)
}

#[test]
fn reads_the_words_of_schedule(rt: HostRuntime) {
    let alloc = rt.alloc();
    let words = ["btspace", "schedule", "a.toml", "b"];
    assert!(rt; asks_for_schedule(alloc, &words, Printed::Report));
    let words = ["btspace", "schedule", "a.toml", "b", "--trace"];
    assert!(rt; asks_for_schedule(alloc, &words, Printed::Trace));
    let words = ["btspace", "schedule", "--picture", "a.toml", "b"];
    let all = Positions {
        from: 0,
        to: u64::MAX,
    };
    assert!(rt; asks_for_schedule(alloc, &words, Printed::Picture(all)));
    let words = [
        "btspace",
        "schedule",
        "--picture",
        "a.toml",
        "b",
        "--from",
        "7",
        "--to=19",
    ];
    let some = Positions { from: 7, to: 19 };
    assert!(rt; asks_for_schedule(alloc, &words, Printed::Picture(some)));
}

fn asks_for_client(alloc: Global, words: &[&str], above: Option<u64>) -> bool {
    let request = Request::Client {
        keys: "c0.toml",
        records_in: "in",
        records_out: "out",
        above,
    };
    asks_for(alloc, words, request)
}

#[test]
fn reads_the_words_of_client(rt: HostRuntime) {
    let alloc = rt.alloc();
    let words = ["btspace", "client", "c0.toml", "in", "out"];
    assert!(rt; asks_for_client(alloc, &words, None));
    let words = ["btspace", "client", "c0.toml", "in", "--above", "0", "out"];
    assert!(rt; asks_for_client(alloc, &words, Some(0)));
    let words = [
        "btspace",
        "client",
        "--above=18446744073709551615",
        "c0.toml",
        "in",
        "out",
    ];
    assert!(rt; asks_for_client(alloc, &words, Some(u64::MAX)));
}

#[test]
fn reads_the_words_of_show(rt: HostRuntime) {
    let request = Request::Show { digits: "00" };
    assert!(rt; asks_for(rt.alloc(), &["btspace", "show", "00"], request));
}
