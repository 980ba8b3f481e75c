//! Scripts over all values and operations.

use crate::endings::{Ending, local_ending};
use one_space::local;
use space::Version;
use std::alloc::{AllocError, Global};
use std::test::Fail;
use tuple_text::LineFault;

// Scripts on a space of version 1, their results, and how they end.
static ROWS: [(&str, &str, Ending); 23] = [
    (
        "out (\"a\\n\")\nrdp (?text)\n",
        "done\nfound (\"a\\n\")\n",
        Ending::Complete,
    ),
    (
        "out (1)\nout (1)\ninp (?int)\nrdAll 64 (*)\nrdp ()\n",
        "done\ndone\nfound (1)\nall 1 (1)\nabsent\n",
        Ending::Complete,
    ),
    (
        "out ((1))\nrdp ((*))\nrdp (?tuple)\nrdp ((* *))\nrdp ((2))\n",
        "done\nfound ((1))\nfound ((1))\nabsent\nabsent\n",
        Ending::Complete,
    ),
    (
        "out (true)\nrdp (?int)\nout (\"1\")\nrdp (1)\nrdp (?bool)\n",
        "done\nabsent\ndone\nabsent\nfound (true)\n",
        Ending::Complete,
    ),
    (
        "cas (\"k\" *) (\"k\" 1)\ncas (\"k\" *) (\"k\" 2)\nrdp (\"k\" *)\n",
        "swapped true\nswapped false\nfound (\"k\" 1)\n",
        Ending::Complete,
    ),
    (
        "out (x00ff x)\nrdp (?bytes ?bytes)\nrdp (x00 *)\n",
        "done\nfound (x00ff x)\nabsent\n",
        Ending::Complete,
    ),
    (
        "out (1)\nout (2)\nout (3)\nrdAll 2 (?int)\nrdAll 64 (?text)\n",
        "done\ndone\ndone\nall 2 (1) (2)\nall 0\n",
        Ending::Complete,
    ),
    (
        "out (\"\\\"\\\\\\x09é\")\nrdp (?text)\n",
        "done\nfound (\"\\\"\\\\\\x09é\")\n",
        Ending::Complete,
    ),
    (
        "out (((((((((1)))))))))\n",
        "",
        Ending::Refused(1, LineFault::TooDeep),
    ),
    (
        "rdAll 65 (*)\n",
        "",
        Ending::Refused(1, LineFault::BadByte { offset: 7 }),
    ),
    (
        "rdAll 0 (*)\n",
        "",
        Ending::Refused(1, LineFault::BadByte { offset: 6 }),
    ),
    (
        "out (\"\\x0a\")\n",
        "",
        Ending::Refused(1, LineFault::BadByte { offset: 9 }),
    ),
    (
        "out (x0F)\n",
        "",
        Ending::Refused(1, LineFault::BadByte { offset: 7 }),
    ),
    (
        "out (w1)\nout (1)\nrdp (?wide)\ncas (w1) (2)\nrdAll 64 (*)\n",
        "refused\ndone\nrefused\nrefused\nall 1 (1)\n",
        Ending::Complete,
    ),
    (
        "out (w)\n",
        "",
        Ending::Refused(1, LineFault::BadByte { offset: 6 }),
    ),
    (
        "out (w01)\n",
        "",
        Ending::Refused(1, LineFault::BadByte { offset: 7 }),
    ),
    (
        "out (w170141183460469231731687303715884105728)\n",
        "",
        Ending::Refused(1, LineFault::BadByte { offset: 44 }),
    ),
    ("inp ((?wide))\n", "refused\n", Ending::Complete),
    (
        "out (1)\ninAll 64 (*)\ninp (*)\n",
        "done\nrefused\nfound (1)\n",
        Ending::Complete,
    ),
    (
        "out (w1)\nupgrade\nout (w1)\nrdp (?int)\ninAll 2 (*)\n",
        "refused\ndone\ndone\nabsent\nall 1 (w1)\n",
        Ending::Complete,
    ),
    (
        "upgrade\nupgrade\ninAll 1 ()\n",
        "done\ndone\nall 0\n",
        Ending::Complete,
    ),
    (
        "upgrade 2\n",
        "",
        Ending::Refused(1, LineFault::BadByte { offset: 8 }),
    ),
    (
        "out (?int)\n",
        "",
        Ending::Refused(1, LineFault::BadByte { offset: 5 }),
    ),
];

// The same on a space of version 2. Another implementation, in Python, gives these results too.
static WIDE_ROWS: [(&str, &str, Ending); 11] = [
    (
        "out (w1)\nrdp (?wide)\nrdp (w1)\nrdp (1)\nrdp (?int)\ninp (*)\n",
        "done\nfound (w1)\nfound (w1)\nabsent\nabsent\nfound (w1)\n",
        Ending::Complete,
    ),
    (
        "out (w-170141183460469231731687303715884105728)\nrdp (?wide)\n",
        "done\nfound (w-170141183460469231731687303715884105728)\n",
        Ending::Complete,
    ),
    (
        "out (w170141183460469231731687303715884105727 \"a\")\ninp (?wide ?text)\n",
        "done\nfound (w170141183460469231731687303715884105727 \"a\")\n",
        Ending::Complete,
    ),
    (
        "out ((w0))\nrdp ((?wide))\nrdp (?tuple)\nrdp (?wide)\n",
        "done\nfound ((w0))\nfound ((w0))\nabsent\n",
        Ending::Complete,
    ),
    (
        "cas (w1) (w2)\ncas (w2) (1)\ncas (w2) (w2)\nrdAll 64 (*)\n",
        "swapped true\nswapped false\nswapped false\nall 1 (w2)\n",
        Ending::Complete,
    ),
    (
        "out (1)\nout (w1)\nout (2)\nout (3)\ninAll 2 (?int)\nrdAll 64 (*)\n",
        "done\ndone\ndone\ndone\nall 2 (1) (2)\nall 2 (w1) (3)\n",
        Ending::Complete,
    ),
    (
        "out (1)\nout (1)\ninAll 64 (*)\ninAll 64 (*)\nrdp (*)\ninAll 1 (w3)\n",
        "done\ndone\nall 2 (1) (1)\nall 0\nabsent\nall 0\n",
        Ending::Complete,
    ),
    (
        "inAll 65 (*)\n",
        "",
        Ending::Refused(1, LineFault::BadByte { offset: 7 }),
    ),
    (
        "inAll 0 (*)\n",
        "",
        Ending::Refused(1, LineFault::BadByte { offset: 6 }),
    ),
    (
        "inall 1 (*)\n",
        "",
        Ending::Refused(1, LineFault::BadByte { offset: 2 }),
    ),
    (
        "out (w-0)\n",
        "",
        Ending::Refused(1, LineFault::BadByte { offset: 7 }),
    ),
];

fn is_run(alloc: Global, version: Version, row: &(&str, &str, Ending)) -> bool {
    let (ending, written) = outcome(alloc, version, row.0.as_bytes());
    ending == row.2 && written.as_slice() == row.1.as_bytes()
}

#[test]
fn runs_worked_rows(rt: HostRuntime) {
    for row in &ROWS {
        assert!(rt; is_run(rt.alloc(), Version::One, row), "{}", row.0);
    }
}

#[test]
fn runs_wide_rows(rt: HostRuntime) {
    for row in &WIDE_ROWS {
        assert!(rt; is_run(rt.alloc(), Version::Two, row), "{}", row.0);
    }
}

// So many times the same between two ends.
pub fn repeated(
    alloc: Global,
    front: &str,
    part: &str,
    times: usize,
    back: &str,
) -> Result<Vec<u8>, AllocError> {
    let mut text = Vec::new(alloc);
    text.extend_from_slice(front.as_bytes())?;
    for _ in 0..times {
        text.extend_from_slice(part.as_bytes())?;
    }
    text.extend_from_slice(back.as_bytes())?;
    Ok(text)
}

// The ending of a script on a space of this version, and its output.
fn outcome(alloc: Global, version: Version, script: &[u8]) -> (Ending, Vec<u8>) {
    let mut written = Vec::new(alloc);
    let ending = local_ending(local(alloc, version, script, &mut written));
    (ending, written)
}

#[test]
fn judges_long_texts(rt: HostRuntime) -> Result<(), Fail> {
    let script = repeated(rt.alloc(), "out (\"", "a", 1020, "\")\n")?;
    let (ending, written) = outcome(rt.alloc(), Version::One, script.as_slice());
    assert_eq!(rt; ending, Ending::Complete);
    assert!(rt; written.as_slice() == b"done\n".as_slice());
    let script = repeated(rt.alloc(), "out (\"", "a", 1021, "\")\n")?;
    let (ending, written) = outcome(rt.alloc(), Version::One, script.as_slice());
    assert_eq!(rt; ending, Ending::Refused(1, LineFault::TooLong));
    assert!(rt; written.is_empty());
    Ok(())
}

#[test]
fn judges_long_lists(rt: HostRuntime) -> Result<(), Fail> {
    let script = repeated(rt.alloc(), "out (", "1 ", 32, ")\n")?;
    let (ending, _) = outcome(rt.alloc(), Version::One, script.as_slice());
    assert_eq!(rt; ending, Ending::Complete);
    let script = repeated(rt.alloc(), "out (", "1 ", 33, ")\n")?;
    let (ending, _) = outcome(rt.alloc(), Version::One, script.as_slice());
    assert_eq!(rt; ending, Ending::Refused(1, LineFault::TooManyFields));
    Ok(())
}

// A space of this version takes so many tuples and no more, until one is taken.
fn is_full_behind(alloc: Global, version: Version, most: usize) -> Result<bool, AllocError> {
    let tail = "out (2)\ncas (2) (2)\ncas (1) (2)\ninp (1)\nout (2)\n";
    let ends = "full\nfull\nswapped false\nfound (1)\ndone\n";
    let script = repeated(alloc, "", "out (1)\n", most, tail)?;
    let results = repeated(alloc, "", "done\n", most, ends)?;
    let (ending, written) = outcome(alloc, version, script.as_slice());
    Ok(ending == Ending::Complete && written.as_slice() == results.as_slice())
}

#[test]
fn a_space_is_full(rt: HostRuntime) -> Result<(), Fail> {
    assert!(rt; is_full_behind(rt.alloc(), Version::One, 8192)?);
    assert!(rt; is_full_behind(rt.alloc(), Version::Two, 12288)?);
    Ok(())
}
