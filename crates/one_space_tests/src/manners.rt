//! Runs that go on after refused lines, and what they say beside the results.

ghost use Rattle.std.specs.Prelude.{◌≤◌, length};

use crate::rows::repeated;
use one_space::{Complaint, Console, Manner, Rules, is_standard_input, run_opened};
use space::Version;
use std::alloc::Global;
use std::fmt::{Display, Write};
use std::io::{self, Read};
use std::test::Fail;

// Notes what a run says. If memory runs out something is left out, and the notes are wrong.
#[derive(Drop)]
struct Notes {
    said: String,
    has_prompt: bool,
}

impl Notes {
    fn new(alloc: Global, has_prompt: bool) -> Notes {
        Notes {
            said: String::new(alloc),
            has_prompt,
        }
    }
}

impl Console for Notes {
    fn say<D: Display + Drop>(&mut self, complaint: Complaint<'_>, reason: D) {
        let _ = write!(self.said, "{complaint}\n{reason}\n");
    }

    fn ask(&mut self) {
        if self.has_prompt {
            let _ = self.said.push_str("> ");
        }
    }

    fn help(&mut self) {
        let _ = self.said.push_str("(help)\n");
    }
}

// Gives a line at each read, as a terminal does.
#[derive(Drop)]
struct Typed<'a> {
    rest: &'a [u8],
}

impl Read for Typed<'_> {
    fn read(&mut self, buf: &mut [u8]) -> io::Result<usize> {
        let (mut line, others) = self.rest.split_at(line_end(self.rest));
        self.rest = others;
        line.read(buf)
    }
}

// Where the first line ends, with its line feed.
fn line_end(bytes: &[u8]) -> usize
    ensures { result ≤ length bytes.now }
{
    match bytes.iter().position(|byte| *byte == b'\n') {
        Some(place) => place + 1,
        None => bytes.len(),
    }
}

// A run of a script: what is written, what is said, and the status.
struct Row {
    manner: Manner,
    script: &'static str,
    results: &'static str,
    said: &'static str,
    status: u8,
}

static ROWS: [Row; 8] = [
    Row {
        manner: Manner::Strict,
        script: "out (1)\nout (01)\nout (2)\n",
        results: "done\n",
        said: "line 2: refused 6 at byte 6\nno line begins so: out (01\n",
        status: 1,
    },
    Row {
        manner: Manner::KeepsGoing,
        script: "out (1)\nout (01)\nout (2)\nrdAll 64 (*)\n",
        results: "done\ndone\nall 2 (1) (2)\n",
        said: "line 2: refused 6 at byte 6\nno line begins so: out (01\n",
        status: 1,
    },
    Row {
        manner: Manner::KeepsGoing,
        script: "out (y)\n\nrdp (1)(2)\nrdp (*)\n",
        results: "absent\n",
        said: "line 1: refused 6 at byte 5\nno line begins so: out (y\nline 3: refused 6 at byte 7\nno line begins so: rdp (1)(\n",
        status: 1,
    },
    // The last line has no line feed, and ends too early.
    Row {
        manner: Manner::KeepsGoing,
        script: "out (1)\nout (2",
        results: "done\n",
        said: "line 2: refused 6 at byte 6\nthe line ends too early\n",
        status: 1,
    },
    Row {
        manner: Manner::KeepsGoing,
        script: "help\nout (1)\n",
        results: "done\n",
        said: "line 1: refused 6 at byte 0\nno line begins so: h\n",
        status: 1,
    },
    Row {
        manner: Manner::KeepsGoing,
        script: "out (1)\n# help\nrdp (?int)",
        results: "done\nfound (1)\n",
        said: "",
        status: 0,
    },
    Row {
        manner: Manner::Talks,
        script: "help\nout (1)\nhelp me\n help \r\nrdp (?int)\n",
        results: "done\nfound (1)\n",
        said: "(help)\nline 3: refused 6 at byte 0\nno line begins so: h\n(help)\n",
        status: 1,
    },
    Row {
        manner: Manner::Talks,
        script: "out (1)\nhelp",
        results: "done\n",
        said: "(help)\n",
        status: 0,
    },
];

// Whether the row's run comes out, of lines that come one at each read or all at once.
fn comes_out(alloc: Global, row: &Row, is_typed: bool) -> bool {
    let rules = Rules {
        version: Version::One,
        manner: row.manner,
    };
    let script = row.script.as_bytes();
    let mut written = Vec::new(alloc);
    let mut notes = Notes::new(alloc, false);
    let status = if is_typed {
        let typed = Typed { rest: script };
        run_opened(alloc, rules, "a.bts", Ok(typed), &mut written, &mut notes)
    } else {
        run_opened(alloc, rules, "a.bts", Ok(script), &mut written, &mut notes)
    };
    status == row.status
        && written.as_slice() == row.results.as_bytes()
        && notes.said.as_str() == row.said
}

#[test]
fn runs_go_on_after_refused_lines(rt: HostRuntime) {
    for row in &ROWS {
        assert!(rt; comes_out(rt.alloc(), row, false), "{}", row.script);
        assert!(rt; comes_out(rt.alloc(), row, true), "{}", row.script);
    }
}

// Before each line that is typed, and before the end.
fn asks_for_lines(alloc: Global) -> bool {
    let rules = Rules {
        version: Version::One,
        manner: Manner::Talks,
    };
    let typed = Typed {
        rest: b"out (1)\nbad\nhelp\nrdp (2)\n".as_slice(),
    };
    let mut written = Vec::new(alloc);
    let mut notes = Notes::new(alloc, true);
    let status = run_opened(alloc, rules, "-", Ok(typed), &mut written, &mut notes);
    status == 1
        && written.as_slice() == b"done\nabsent\n".as_slice()
        && notes.said.as_str()
            == "> > line 2: refused 6 at byte 0\nno line begins so: b\n> (help)\n> > "
}

#[test]
fn a_session_asks_for_each_line(rt: HostRuntime) {
    assert!(rt; asks_for_lines(rt.alloc()));
}

// A line of more than 65,538 bytes is refused by its first ones, and its rest is passed.
#[test]
fn passes_the_rest_of_a_long_line(rt: HostRuntime) -> Result<(), Fail> {
    let script = repeated(rt.alloc(), "out (", "1 ", 40_000, ")\nout (2)\n")?;
    let rules = Rules {
        version: Version::One,
        manner: Manner::KeepsGoing,
    };
    let mut written = Vec::new(rt.alloc());
    let mut notes = Notes::new(rt.alloc(), false);
    let opened = Ok(script.as_slice());
    let status = run_opened(rt.alloc(), rules, "a.bts", opened, &mut written, &mut notes);
    assert_eq!(rt; status, 1);
    assert!(rt; written.as_slice() == b"done\n".as_slice());
    assert!(rt; notes.said.as_str().starts_with("line 1: refused 1\n"));
    Ok(())
}

// Paths, and whether they name the standard input.
static PATHS: [(&str, bool); 5] = [
    ("-", true),
    ("/dev/stdin", true),
    ("", false),
    ("--", false),
    ("./-", false),
];

#[test]
fn a_dash_is_the_standard_input(rt: HostRuntime) {
    for &(path, is_input) in &PATHS {
        assert_eq!(rt; is_standard_input(path), is_input, "{path}");
    }
}
