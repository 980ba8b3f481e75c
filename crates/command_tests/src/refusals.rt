//! Configurations and schedules that are refused, what the program says of them, and how much of a file it reads.

use crate::schedules::{FOUR_SETTINGS, run};
use crate::words::{Console, holds};
use command_line::{Positions, Printed};
use schedule_command::{ScheduleFault, StepReason, end_schedule, read_settings, schedule};
use schedule_text::{MAX_STEP, Reason};
use std::alloc::Global;
use std::cell::Cell;
use std::io::{self, Read};

// Of four replicas the last one is faulty, and of two clients the second.
const FAULTY_SETTINGS: &str = r#"f = 1
clients = 2
seed = "000102030405060708090a0b0c0d0e0f101112131415161718191a1b1c1d1e1f"
faulty_replicas = [3]
faulty_clients = [1]
"#;

// The table of docs/formats.md: configurations, each in front of these lines, and what stands on standard error.
const SEED_SETTINGS: &str =
    "seed = \"000102030405060708090a0b0c0d0e0f101112131415161718191a1b1c1d1e1f\"\n";

static CONFIGURATIONS: [(&str, &str); 13] = [
    ("f = \nclients = 2\n", "refused 25\nline 1, column 5: "),
    (
        "f = 1\nclients = 2\nclient = 2\n",
        "refused 25\n`client` is no key of a configuration\n",
    ),
    ("f = 1\n", "refused 25\n`clients` is missing\n"),
    (
        "f = 1.0\nclients = 2\n",
        "refused 25\n`f` is no whole number\n",
    ),
    (
        "f = 4\nclients = 2\n",
        "refused 25\n`f` is 4, and has to be from 1 to 3\n",
    ),
    (
        "f = 1\nclients = 2\nfaulty_replicas = 3\n",
        "refused 25\n`faulty_replicas` is no array of whole numbers\n",
    ),
    (
        "f = 1\nclients = 2\nfaulty_replicas = [4]\n",
        "refused 25\n`faulty_replicas` names 4, and the numbers are below 4\n",
    ),
    (
        "f = 1\nclients = 2\nfaulty_clients = [1, 1]\n",
        "refused 25\n`faulty_clients` names 1 twice\n",
    ),
    (
        "f = 1\nclients = 2\nfaulty_replicas = [2, 3]\n",
        "refused 25\n`faulty_replicas` names 2 replicas, and `f` is 1\n",
    ),
    ("", "refused 25\n`f` is missing\n"),
    (
        "f = 0\n",
        "refused 25\n`f` is 0, and has to be from 1 to 3\n",
    ),
    (
        "f = 1\nclients = 257\n",
        "refused 25\n`clients` is 257, and has to be from 1 to 256\n",
    ),
    (
        "f = 1\nclients = 2\n\"\\u001b[31m\" = 2\n",
        "refused 25\n`\\u{1b}[31m` is no key of a configuration\n",
    ),
];

// Schedules among these parties, and what stands on standard error.
static SCHEDULES: [(&str, &str); 27] = [
    (
        "wait",
        "line 1: refused 23\nbyte 0: no step has this name\n",
    ),
    (
        "# no step\n\n wait",
        "line 3: refused 23\nbyte 1: no step has this name\n",
    ),
    ("tick", "line 1: refused 23\nbyte 4: PARTY is missing\n"),
    (
        "deliver r0 0",
        "line 1: refused 23\nbyte 8: FRAME has to be a number up to 18446744073709551615, without a leading zero\n",
    ),
    (
        "invoke 01 out (1)",
        "line 1: refused 23\nbyte 7: CLIENT has to be a number up to 65279, without a leading zero\n",
    ),
    (
        "tick r256",
        "line 1: refused 23\nbyte 5: PARTY has to be a party, as r0 or c0\n",
    ),
    (
        "seal c1 r0,,r1 00",
        "line 1: refused 23\nbyte 11: PARTIES has to be one or more parties, as r0,c0\n",
    ),
    (
        "bytes r0 0g",
        "line 1: refused 23\nbyte 10: this is no hexadecimal digit\n",
    ),
    (
        "bytes r0 000",
        "line 1: refused 23\nbyte 9: HEX has an odd number of digits\n",
    ),
    (
        "invoke 0 # 1",
        "line 1: refused 23\nbyte 9: LINE is missing\n",
    ),
    (
        "invoke 0 out (1",
        "line 1: refused 23\nbyte 9: LINE is refused 6 at its byte 6\n",
    ),
    (
        "invoke 0 out (((((((((1)))))))))",
        "line 1: refused 23\nbyte 9: LINE is refused 2: more than 8 levels\n",
    ),
    (
        "flush now",
        "line 1: refused 23\nbyte 6: a word is left over\n",
    ),
    ("tick r0\ntick r4\n", "line 2: refused 23\nthere is no r4\n"),
    ("bytes c2 00", "line 1: refused 23\nthere is no c2\n"),
    (
        "tick r3",
        "line 1: refused 23\nr3 is faulty, and this is a step of correct parties\n",
    ),
    (
        "invoke 1 out (1)",
        "line 1: refused 23\nc1 is faulty, and this is a step of correct parties\n",
    ),
    (
        "seal r0 r1 00",
        "line 1: refused 23\nr0 is correct, and this is a step of faulty parties\n",
    ),
    (
        "sign c1 0 r0 46",
        "line 1: refused 23\nc1 is no replica, and only replicas sign\n",
    ),
    (
        "sign r3 64 r0 46",
        "line 1: refused 23\nthere is no leaf 64: they are 0 to 63\n",
    ),
    (
        "invoke 0 out (1)\ninvoke 0 out (2)",
        "line 2: refused 23\nc0 has a call open\n",
    ),
    (
        "flush\n\ndeliver 0 r0\nwait\n",
        "line 3: refused 23\nframe 0 is not made yet: there are 0, the first of them 0\n",
    ),
    (
        "invoke 0 out (1)\nseal c1 r0 00\ndeliver 2 r0",
        "line 3: refused 23\nframe 2 is not made yet: there are 2, the first of them 0\n",
    ),
    (
        "seal c1 r0,r1,r2,c0,r0,r1,r2,c0,r0,r1,r2 00",
        "line 1: refused 23\nPARTIES names 11 parties, and a frame is for 1 to 10\n",
    ),
    (
        "seal c1 r1,r0 00",
        "line 1: refused 23\nPARTIES have to ascend, replicas before clients: r0 stands behind r1\n",
    ),
    (
        "seal c1 r0,r0 00",
        "line 1: refused 23\nPARTIES have to ascend, replicas before clients: r0 stands behind r0\n",
    ),
    ("seal c1 r0,c2 00", "line 1: refused 23\nthere is no c2\n"),
];

// Whether the fault is told so, and ends the program with this status.
fn is_told(alloc: Global, fault: &ScheduleFault, errors: &str, status: u8) -> bool {
    let console = Console::new(alloc, true);
    let ended = end_schedule(&console, fault, "four.toml");
    ended == status && begins(&console, errors)
}

// Whether standard error is this text, or begins with it if that has no line end.
fn begins(console: &Console, errors: &str) -> bool {
    if errors.ends_with("\n") {
        return holds(&console.errors, errors);
    }
    match console.errors.try_borrow() {
        Ok(printed) => printed.starts_with(errors.as_bytes()),
        Err(_) => false,
    }
}

fn is_no_configuration(alloc: Global, text: &str, errors: &str) -> bool {
    let Ok(whole) = format!(in alloc; "{text}{SEED_SETTINGS}") else {
        return false;
    };
    match read_settings(alloc, whole.as_bytes()) {
        Ok(_) => false,
        Err(fault) => is_told(alloc, &fault, errors, 1),
    }
}

#[test]
fn says_why_it_refuses_configurations(rt: HostRuntime) {
    for (text, errors) in &CONFIGURATIONS {
        assert!(rt; is_no_configuration(rt.alloc(), text, errors), "{text}");
    }
}

// Whether the schedule is refused so, and nothing is written.
fn is_no_schedule(alloc: Global, text: &str, errors: &str) -> bool {
    let mut written = Vec::new(alloc);
    match run(alloc, FAULTY_SETTINGS, text, Printed::Report, &mut written) {
        Ok(()) => false,
        Err(fault) => written.is_empty() && is_told(alloc, &fault, errors, 1),
    }
}

#[test]
fn says_why_it_refuses_schedules(rt: HostRuntime) {
    for (text, errors) in &SCHEDULES {
        assert!(rt; is_no_schedule(rt.alloc(), text, errors), "{text}");
    }
}

// Pictures that can't be drawn are a mistake in the words.
static UNDRAWN: [(u64, u64, &str); 2] = [
    (
        2,
        u64::MAX,
        "error: the trace has 2 entries, counted from 0, and none of them is to be drawn\n",
    ),
    (
        1,
        0,
        "error: the trace has 2 entries, counted from 0, and none of them is to be drawn\n",
    ),
];

fn is_not_drawn(alloc: Global, from: u64, to: u64, errors: &str) -> bool {
    let mut written = Vec::new(alloc);
    let printed = Printed::Picture(Positions { from, to });
    match run(
        alloc,
        FOUR_SETTINGS,
        "tick r0\ntick r1\n",
        printed,
        &mut written,
    ) {
        Ok(()) => false,
        Err(fault) => written.is_empty() && is_told(alloc, &fault, errors, 2),
    }
}

#[test]
fn says_why_it_draws_nothing(rt: HostRuntime) {
    for &(from, to, errors) in &UNDRAWN {
        assert!(rt; is_not_drawn(rt.alloc(), from, to, errors), "{errors}");
    }
}

// Bytes that never end, one text again and again, and how many of them were asked for.
#[derive(Drop)]
struct Endless<'a> {
    text: &'static [u8],
    asked: &'a Cell<u64>,
}

impl Read for Endless<'_> {
    fn read(&mut self, buf: &mut [u8]) -> io::Result<usize> {
        let mut place = 0usize;
        for byte in buf.iter_mut() {
            *byte = self.text.get(place).copied().unwrap_or(0);
            place = place.saturating_add(1);
            if place >= self.text.len() {
                place = 0;
            }
        }
        let asked = self.asked.get().saturating_add(buf.len() as u64);
        self.asked.set(asked);
        Ok(buf.len())
    }
}

// How much of an endless schedule is read, and why it is refused: of its first line.
fn endless_schedule(alloc: Global, text: &'static [u8]) -> Option<(u64, StepReason)> {
    let asked = Cell::new(0);
    let settings = read_settings(alloc, FOUR_SETTINGS.as_bytes()).ok()?;
    let reader = Endless {
        text,
        asked: &asked,
    };
    let mut written = Vec::new(alloc);
    match schedule(
        alloc,
        &settings.config,
        reader,
        Printed::Report,
        &mut written,
    ) {
        Err(ScheduleFault::Step { line: 1, reason }) => Some((asked.get(), reason)),
        _ => None,
    }
}

// The longest step and what a reader holds.
const MOST_READ: u64 = MAX_STEP as u64 + 32_768;

fn is_too_long(alloc: Global, text: &'static [u8]) -> bool {
    match endless_schedule(alloc, text) {
        Some(
            (
                asked,
                StepReason::NoStep {
                    reason: Reason::TooLong,
                    ..
                },
            ),
        ) => asked <= MOST_READ,
        _ => false,
    }
}

#[test]
fn reads_no_more_than_a_step_may_have(rt: HostRuntime) {
    assert!(rt; is_too_long(rt.alloc(), b"\0"));
    assert!(rt; is_too_long(rt.alloc(), b"flush "));
}

#[test]
fn reads_no_further_than_a_line_that_is_none(rt: HostRuntime) {
    let told = endless_schedule(rt.alloc(), b"y\n");
    assert!(rt; matches!(told, Some((asked, _)) if asked <= 32_768));
}

// How much of an endless configuration is read.
fn endless_settings(alloc: Global, text: &'static [u8]) -> Option<u64> {
    let asked = Cell::new(0);
    let reader = Endless {
        text,
        asked: &asked,
    };
    match read_settings(alloc, reader) {
        Err(ScheduleFault::Configuration(_)) => Some(asked.get()),
        _ => None,
    }
}

#[test]
fn reads_no_more_than_a_configuration_may_have(rt: HostRuntime) {
    for &text in &[b"\0".as_slice(), b"#", b"\n", b"y\n", b"f = 1\n"] {
        let asked = endless_settings(rt.alloc(), text);
        assert!(rt; asked.is_some_and(|asked| asked <= 131_072), "{text:?}");
    }
}

// Bytes, and then an error.
#[derive(Drop)]
struct Cut<'a> {
    front: &'a [u8],
}

impl Read for Cut<'_> {
    fn read(&mut self, buf: &mut [u8]) -> io::Result<usize> {
        if self.front.is_empty() {
            return Err(io::Error::from(io::ErrorKind::BrokenPipe));
        }
        self.front.read(buf)
    }
}

// Whether a file that can't be read to its end is told so, and nothing is written.
fn is_unreadable(alloc: Global, front: &[u8]) -> bool {
    let Ok(settings) = read_settings(alloc, FOUR_SETTINGS.as_bytes()) else {
        return false;
    };
    let mut written = Vec::new(alloc);
    let reader = Cut { front };
    match schedule(
        alloc,
        &settings.config,
        reader,
        Printed::Trace,
        &mut written,
    ) {
        Ok(()) => false,
        Err(fault) => {
            written.is_empty() && is_told(alloc, &fault, "cannot read four.toml\nbroken pipe\n", 1)
        }
    }
}

#[test]
fn says_that_a_file_is_cut(rt: HostRuntime) {
    assert!(rt; is_unreadable(rt.alloc(), b""));
    assert!(rt; is_unreadable(rt.alloc(), b"tick r0\n"));
    assert!(rt; is_unreadable(rt.alloc(), b"tick r0\nti"));
}

// Skipped lines of any length, with a step behind them.
fn is_skipped(alloc: Global, front: &str, filling: u8, len: usize) -> bool {
    let mut text = Vec::new(alloc);
    if text.extend_from_slice(front.as_bytes()).is_err()
        || text.resize(len, filling).is_err()
        || text.extend_from_slice(b"\r\ntick r0\n").is_err()
    {
        return false;
    }
    let Ok(settings) = read_settings(alloc, FOUR_SETTINGS.as_bytes()) else {
        return false;
    };
    let mut written = Vec::new(alloc);
    let ended = schedule(
        alloc,
        &settings.config,
        text.as_slice(),
        Printed::Report,
        &mut written,
    );
    ended.is_ok() && written.as_slice() == b"trace 1\n".as_slice()
}

#[test]
fn skips_lines_of_any_length(rt: HostRuntime) {
    for &len in &[1, 8190, 8191, 8192, 8193, 16_383, 16_384, 100_000] {
        assert!(rt; is_skipped(rt.alloc(), "#", b'#', len), "{len}");
        assert!(rt; is_skipped(rt.alloc(), "", b' ', len), "{len}");
    }
}

// What stands behind blanks of any number: a step, or what is no comment, since the line begins with a blank.
fn behind_blanks(alloc: Global, len: usize, rest: &str) -> Option<Result<(), u64>> {
    let mut text = Vec::new(alloc);
    text.resize(len, b' ').ok()?;
    text.extend_from_slice(rest.as_bytes()).ok()?;
    let settings = read_settings(alloc, FOUR_SETTINGS.as_bytes()).ok()?;
    let mut written = Vec::new(alloc);
    match schedule(
        alloc,
        &settings.config,
        text.as_slice(),
        Printed::Report,
        &mut written,
    ) {
        Ok(()) => Some(Ok(())),
        Err(
            ScheduleFault::Step {
                reason: StepReason::NoStep { byte, .. },
                ..
            },
        ) => Some(Err(byte)),
        Err(_) => None,
    }
}

#[test]
fn passes_blanks_of_any_number(rt: HostRuntime) {
    for &len in &[1usize, 8190, 8191, 8192, 8193, 16_383, 20_000] {
        let step = behind_blanks(rt.alloc(), len, "tick r0");
        let hash = behind_blanks(rt.alloc(), len, "# tick r0");
        assert!(rt; step == Some(Ok(())), "{len}");
        assert!(rt; hash == Some(Err(len as u64)), "{len}");
    }
}
