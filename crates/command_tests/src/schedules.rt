//! The example schedules with their reports and pictures.

use command_line::{Positions, Printed};
use schedule_command::{ScheduleFault, read_settings, schedule};
use std::alloc::Global;
use std::process::Abort;

// Schedules in other files run in it too.
pub const FOUR_SETTINGS: &str =
    r#"# Four replicas, of which one may be faulty, and two clients, the second of them faulty.
f = 1
clients = 2
seed = "000102030405060708090a0b0c0d0e0f101112131415161718191a1b1c1d1e1f"
faulty_clients = [1]
"#;

const FIRST_READ_SCHEDULE: &str =
    r#"# A client puts a tuple. The primary gives the call number 1, the replicas agree on it in three phases, and each of them
# executes it and replies. The call is accepted at the third reply that is alike.
invoke 0 out (1)
flush

# A read goes beside the order: each replica answers at once, from the state that it has, and says the number of that
# state. The read is accepted at the third answer that is alike in tuple and number.
invoke 0 rdp (*)
flush
"#;

const FIRST_READ_REPORT: &str = r#"accepted 49 client 0 time 1 done
accepted 64 client 0 time 2 found (1)
point 38 client 0 time 1 done
point 51 client 0 time 2 found (1)
trace 66
"#;

const TWO_CALLS_SCHEDULE: &str =
    r#"# A client puts a tuple and takes it. Each call is carried through the three phases before the next.
invoke 0 out (1)
flush
invoke 0 inp (*)
flush
"#;

const TWO_CALLS_REPORT: &str = r#"accepted 49 client 0 time 1 done
accepted 100 client 0 time 2 found (1)
point 38 client 0 time 1 done
point 89 client 0 time 2 found (1)
trace 102
"#;

const LIAR_SCHEDULE: &str =
    r#"# A faulty client lies to two replicas: under one timestamp it asks replicas 0 and 1 for one operation, and replicas 2
# and 3 for another. Each request has right MACs for the two that get it, and none for the others.
seal c1 r0,r1 4101010000000000000005002101010000000000000001
seal c1 r2,r3 4101010000000000000005002101010000000000000002

# The primary, replica 0, gives what it was asked for number 1, and replica 1 prepares that. Replicas 2 and 3 don't: they
# can't tell the request in the batch from a forged one. So number 1 is never prepared.
flush

# A correct client's call gets number 2. It is prepared and committed there, but not executed: number 1 comes first.
invoke 0 out (7)
flush

# The call waits, and time goes by: the replicas move to view 1. Its primary, replica 1, finds that nothing was prepared
# at number 1, and puts the null batch there; at number 2 stands again what was prepared. Both are executed, and the call
# is accepted.
tick r1
tick r2
tick r3
flush

# The liar's operations act nowhere, and a read finds what the correct client put.
invoke 0 rdAll 64 (*)
flush
"#;

const LIAR_REPORT: &str = r#"accepted 149 client 0 time 1 done
accepted 167 client 0 time 2 all 1 (7)
point 127 client 0 time 1 done
point 154 client 0 time 2 all 1 (7)
trace 169
"#;

static ROWS: [Row<'static>; 5] = [
    (FOUR_SETTINGS, FIRST_READ_SCHEDULE, false, FIRST_READ_REPORT),
    (FOUR_SETTINGS, TWO_CALLS_SCHEDULE, false, TWO_CALLS_REPORT),
    (FOUR_SETTINGS, LIAR_SCHEDULE, false, LIAR_REPORT),
    (FOUR_SETTINGS, "", false, "trace 0\n"),
    (
        FOUR_SETTINGS,
        "tick r3\r\n\n# a comment\n tick  c0",
        true,
        "0 tick r3\n1 tick c0\ntrace 2\n",
    ),
];

/// The configuration, the schedule, whether it is traced, and its output.
pub type Row<'a> = (&'a str, &'a str, bool, &'a str);

/// Runs a schedule in a configuration.
pub fn run(
    alloc: Global,
    settings: &str,
    text: &str,
    printed: Printed,
    written: &mut Vec<u8>,
) -> Result<(), ScheduleFault> {
    let settings = read_settings(alloc, settings.as_bytes())?;
    schedule(alloc, &settings.config, text.as_bytes(), printed, written)
}

fn is_reported(alloc: Global, (settings, text, is_traced, report): Row<'_>) -> bool {
    let printed = if is_traced {
        Printed::Trace
    } else {
        Printed::Report
    };
    let mut written = Vec::new(alloc);
    run(alloc, settings, text, printed, &mut written).is_ok()
        && written.as_slice() == report.as_bytes()
}

/// Each schedule has its report. The assertion stands here and not in each test, since each costs a proof.
pub fn are_reported<R: Abort>(rt: &R, alloc: Global, rows: &[Row<'_>]) {
    for row in rows {
        assert!(rt; is_reported(alloc, *row), "{}", row.1);
    }
}

#[test]
fn runs_the_schedules(rt: HostRuntime) {
    are_reported(&rt, rt.alloc(), &ROWS);
}

// Whether the output is a picture of the schedule with so many titles, and nothing else.
fn is_drawn(alloc: Global, text: &str, from: u64, to: u64, titles: usize) -> bool {
    let mut written = Vec::new(alloc);
    let printed = Printed::Picture(Positions { from, to });
    run(alloc, FOUR_SETTINGS, text, printed, &mut written).is_ok()
        && written.starts_with(b"<?xml ")
        && written.ends_with(b"</svg>\n")
        && count(written.as_slice(), b"<title>") == titles
}

fn count(bytes: &[u8], text: &[u8]) -> usize {
    let mut count = 0usize;
    for start in 0..bytes.len() {
        if bytes[start..].starts_with(text) {
            count = count.saturating_add(1);
        }
    }
    count
}

// The picture has a title, and so has each entry and each point that it shows. The report above tells the points.
#[test]
fn draws_a_schedule(rt: HostRuntime) {
    let alloc = rt.alloc();
    assert!(rt; is_drawn(alloc, "tick r3\ntick c0\n", 0, u64::MAX, 3));
    assert!(rt; is_drawn(alloc, "tick r3\ntick c0\n", 1, 1, 2));
    assert!(rt; is_drawn(alloc, FIRST_READ_SCHEDULE, 0, u64::MAX, 1 + 66 + 2));
    assert!(rt; is_drawn(alloc, FIRST_READ_SCHEDULE, 38, 50, 1 + 13 + 1));
}
