//! Worked scripts and digits.

use crate::endings::{Ending, local_ending, show_ending};
use one_space::{BadDigits, Complaint, LocalFault, ShowFault, Unheard, local, read_script, show};
use space::Version;
use std::alloc::{AllocError, Global};
use std::io::{self, Read, Write};
use std::test::Fail;
use tuple_text::LineFault;

// A script's bytes, and then a failure.
#[derive(Drop)]
struct Cut<'a> {
    front: &'a [u8],
}

impl Read for Cut<'_> {
    fn read(&mut self, buf: &mut [u8]) -> io::Result<usize> {
        if self.front.is_empty() {
            return Err(io::Error::from(io::ErrorKind::BrokenPipe));
        }
        self.front.read(buf)
    }
}

#[derive(Drop)]
struct Closed;

impl Write for Closed {
    fn write(&mut self, _buf: &[u8]) -> io::Result<usize> {
        Err(io::Error::from(io::ErrorKind::BrokenPipe))
    }

    fn flush(&mut self) -> io::Result<()> {
        Ok(())
    }
}

const FIRST_SCRIPT: &str = "# A first script: tuples of numbers go out, and templates read them.

# Each operation has a result line of its own.
out (1 2)
out (1 3)
out ()

# A star stands for any value, ?int for any number.
rdp (1 *)
rdp (?int 3)
rdp ()

# Reading takes nothing away, and the oldest tuple that matches is found.
rdp (1 *)

# A template matches tuples of its own length alone.
rdp (1)
out (-7)
rdp (?int)
";

const FIRST_RESULTS: &str = "done
done
done
found (1 2)
found (1 3)
found ()
found (1 2)
absent
done
found (-7)
";

// Scripts, their results, and how they end.
static SCRIPTS: [(&str, &str, Ending); 8] = [
    (
        "out (1)\nrdp (?int)\nrdp (2)\n",
        "done\nfound (1)\nabsent\n",
        Ending::Complete,
    ),
    (FIRST_SCRIPT, FIRST_RESULTS, Ending::Complete),
    ("# x\n\n", "", Ending::Complete),
    ("", "", Ending::Complete),
    (
        "out (01)\n",
        "",
        Ending::Refused(1, LineFault::BadByte { offset: 6 }),
    ),
    (
        "out (1",
        "",
        Ending::Refused(1, LineFault::BadByte { offset: 6 }),
    ),
    (
        "rdp (1)(2)\n",
        "",
        Ending::Refused(1, LineFault::BadByte { offset: 7 }),
    ),
    (
        "out (3)\n\nrdp (y)\nout (4)\n",
        "done\n",
        Ending::Refused(3, LineFault::BadByte { offset: 5 }),
    ),
];

#[test]
fn runs_scripts(rt: HostRuntime) {
    for &(script, results, ending) in &SCRIPTS {
        let mut written = Vec::new(rt.alloc());
        let given = local_ending(local(rt.alloc(), Version::One, script.as_bytes(), &mut written));
        assert_eq!(rt; given, ending, "{script}");
        assert!(rt; written.as_slice() == results.as_bytes(), "{script}");
    }
}

// Scripts, at most how many operations are kept of them, how many are then kept, and the ending.
static KEPT: [(&str, usize, usize, Ending); 6] = [
    ("", 1, 0, Ending::Complete),
    ("out (1)\n# x\nout (2)\nout (3)", 4, 3, Ending::Complete),
    ("out (1)\n# x\nout (2)\nout (3)", 3, 3, Ending::Complete),
    ("out (1)\n# x\nout (2)\nout (3)", 2, 2, Ending::Complete),
    ("out (1)\n# x\nout (2)\nout (3)", 0, 0, Ending::Complete),
    // No line is read after the last operation that is kept.
    ("out (1)\n# x\nout (2)\nout (3", 2, 2, Ending::Complete),
];

#[test]
fn keeps_the_first_operations(rt: HostRuntime) {
    for &(script, most, len, ending) in &KEPT {
        let (given, kept) = match read_script(rt.alloc(), script.as_bytes(), most, &mut Unheard) {
            Ok(ops) => (Ending::Complete, ops.len()),
            Err(fault) => (local_ending(Err(fault)), 0),
        };
        assert_eq!(rt; given, ending, "{script}");
        assert_eq!(rt; kept, len, "{script}");
    }
}

#[test]
fn keeps_results_where_reading_fails(rt: HostRuntime) {
    let reader = Cut {
        front: b"out (1)\nrdp (".as_slice(),
    };
    let mut written = Vec::new(rt.alloc());
    let ending = local_ending(local(rt.alloc(), Version::One, reader, &mut written));
    assert_eq!(rt; ending, Ending::Read);
    assert!(rt; written.as_slice() == b"done\n".as_slice());
}

// `tools/growths` refuses each growth in turn. The run ends as ever, or for out of memory; then the results of some
// first lines are written and nothing else. Writing takes no memory here.
#[test]
fn keeps_results_where_memory_runs_out(rt: HostRuntime) {
    let script = b"out (1)\nrdp (?int)\nrdp (2)\n".as_slice();
    let results = b"done\nfound (1)\nabsent\n".as_slice();
    let mut room = [0; 64];
    let mut rest = room.as_mut_slice();
    let ending = local_ending(local(rt.alloc(), Version::One, script, &mut rest));
    let left = rest.len();
    let written = &room[..room.len().saturating_sub(left)];
    match ending {
        Ending::Complete => assert!(rt; written == results),
        Ending::NoMemory => {
            assert!(rt; results.starts_with(written));
            assert!(rt; matches!(written, [] | [.., b'\n']));
        }
        _ => assert!(rt; false),
    }
}

#[test]
fn tells_that_writing_fails(rt: HostRuntime) {
    let script = b"out (1)\n".as_slice();
    let ending = local_ending(local(rt.alloc(), Version::One, script, &mut Closed));
    assert_eq!(rt; ending, Ending::Write);
    let ending = show_ending(show(rt.alloc(), "00", &mut Closed));
    assert_eq!(rt; ending, Ending::Write);
}

// Digits, the text that is written, and how that ends.
static DIGITS: [(&str, &str, Ending); 10] = [
    ("01010000000000000001", "(1)\n", Ending::Complete),
    ("020501020001780401", "((\"x\") true)\n", Ending::Complete),
    ("0102000109", "(\"\\x09\")\n", Ending::Complete),
    ("0101FFfffffffffffffF", "(-1)\n", Ending::Complete),
    ("020501020001780402", "", Ending::Malformed),
    ("0205010200017804", "", Ending::Malformed),
    ("010", "", Ending::Malformed),
    ("0000", "", Ending::Malformed),
    ("zz", "", Ending::Malformed),
    ("", "", Ending::Malformed),
];

#[test]
fn shows_tuples(rt: HostRuntime) {
    for &(digits, text, ending) in &DIGITS {
        let mut written = Vec::new(rt.alloc());
        let given = show_ending(show(rt.alloc(), digits, &mut written));
        assert_eq!(rt; given, ending, "{digits}");
        assert!(rt; written.as_slice() == text.as_bytes(), "{digits}");
    }
}

fn is_said(alloc: Global, complaint: &Complaint<'_>, text: &str) -> Result<bool, AllocError> {
    let said = format!(in alloc; "{complaint}")?;
    Ok(said.as_str() == text)
}

// Whether the complaint has this text, and the program ends with this status.
fn ends(
    alloc: Global,
    complaint: &Complaint<'_>,
    text: &str,
    status: u8,
) -> Result<bool, AllocError> {
    Ok(is_said(alloc, complaint, text)? && complaint.status() == status)
}

fn says_others(alloc: Global) -> Result<bool, AllocError> {
    let unreadable = Complaint::Unreadable { path: "a.bts" };
    Ok(
        ends(
            alloc,
            &Complaint::of_show(&ShowFault::Malformed(BadDigits::Odd)),
            "refused 5",
            1,
        )? && ends(alloc, &unreadable, "cannot read a.bts", 1)?
            && ends(alloc, &Complaint::Stopped, "stopped", 3)?,
    )
}

static LINES: [(LineFault, &str); 4] = [
    (
        LineFault::BadByte { offset: 5 },
        "line 1: refused 6 at byte 5",
    ),
    (LineFault::TooManyFields, "line 1: refused 1"),
    (LineFault::TooDeep, "line 1: refused 2"),
    (LineFault::TooLong, "line 1: refused 3"),
];

fn says_lines(alloc: Global) -> Result<bool, AllocError> {
    for &(fault, text) in &LINES {
        if !is_said(alloc, &Complaint::Line { number: 1, fault }, text)? {
            return Ok(false);
        }
    }
    Ok(true)
}

#[test]
fn says_what_went_wrong(rt: HostRuntime) -> Result<(), Fail> {
    assert!(rt; says_others(rt.alloc())?);
    assert!(rt; says_lines(rt.alloc())?);
    Ok(())
}
