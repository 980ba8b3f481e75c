//! Scripts on running clusters.

use crate::words::{Console, holds};
use cluster_run::{Drill, Gate, Open, RunFault as ClusterFault, Unwatched, Watch, is_faultless};
use command_line::{DrillKind, Drilled, Drills};
use config_text::Settings;
use journal::Opened;
use one_space::{LocalFault, Unheard, read_script};
use run_command::{
    DrillFault, RunFault, Summary, drilled, drills_of, end_run, most_operations, run,
};
use schedule_command::read_settings;
use std::alloc::Global;
use std::marker::Brand;
use std::sync::Wait;
use std::thread::Threads;
use std::time::Clock;
use tuple_codec::Op;
use tuple_text::LineFault;

/// Four replicas and one client.
pub const CLUSTER_SETTINGS: &str =
    r#"# Four replicas, of which one may fail, and one client, which calls all operations of a script one after another.
f = 1
clients = 1
checkpoint = 16
seed = "000102030405060708090a0b0c0d0e0f101112131415161718191a1b1c1d1e1f"
"#;

const TWO_CLIENTS: &str = r#"
f = 1
clients = 2
seed = "000102030405060708090a0b0c0d0e0f101112131415161718191a1b1c1d1e1f"
"#;

const FOUR_CLIENTS: &str = r#"
f = 1
clients = 4
seed = "000102030405060708090a0b0c0d0e0f101112131415161718191a1b1c1d1e1f"
"#;

const SMALL_JOURNAL: &str = r#"
f = 1
clients = 1
seed = "000102030405060708090a0b0c0d0e0f101112131415161718191a1b1c1d1e1f"
journal = 10
"#;

// At f = 1 an operation takes at least six entries.
const ELEVEN_ENTRIES: &str = r#"
f = 1
clients = 1
seed = "000102030405060708090a0b0c0d0e0f101112131415161718191a1b1c1d1e1f"
journal = 11
"#;

const TWELVE_ENTRIES: &str = r#"
f = 1
clients = 1
seed = "000102030405060708090a0b0c0d0e0f101112131415161718191a1b1c1d1e1f"
journal = 12
"#;

const FAULTY_REPLICA: &str = r#"
f = 1
clients = 1
seed = "000102030405060708090a0b0c0d0e0f101112131415161718191a1b1c1d1e1f"
faulty_replicas = [3]
"#;

const FAULTY_CLIENT: &str = r#"
f = 1
clients = 2
seed = "000102030405060708090a0b0c0d0e0f101112131415161718191a1b1c1d1e1f"
faulty_clients = [1]
"#;

/// The end of a script's run, in a form that can be compared.
#[derive(Clone, Copy, PartialEq, Eq)]
pub enum Ending {
    Complete,
    /// The text is no configuration, or the configuration is refused.
    Configuration,
    Line(u64, LineFault),
    /// No cluster of the configuration has these drills.
    Drills,
    /// The journal has no room for the operations, so nothing starts.
    NoRoom,
    TooManyStopped,
    /// For any of the reasons why a run that began stops.
    Stopped,
}

impl Ending {
    fn is(self, wanted: Ending) -> bool {
        self == wanted || (self == Ending::TooManyStopped && wanted == Ending::Stopped)
    }
}

fn ending_of(ended: &Result<Option<Summary>, RunFault>) -> Ending {
    match ended {
        Ok(_) => Ending::Complete,
        Err(fault) => ending_at(fault),
    }
}

fn ending_at(fault: &RunFault) -> Ending {
    match fault {
        RunFault::Configuration => Ending::Configuration,
        RunFault::Drills(_) => Ending::Drills,
        RunFault::Stopped(ClusterFault::NoRoom { .. }) => Ending::NoRoom,
        RunFault::Stopped(ClusterFault::TooManyStopped) => Ending::TooManyStopped,
        RunFault::Stopped(_) | RunFault::NoMemory | RunFault::Write(_) => Ending::Stopped,
    }
}

// Runs the operations in a book of its own.
fn run_alone<
    R: Threads + Wait + Clock + Copy + Send + 'static,
    G: Gate + Send + Sync + Drop + 'static,
    S: Watch,
>(
    rt: &R,
    alloc: Global,
    settings: &Settings,
    gate: G,
    drills: Vec<(u16, Drill)>,
    ops: Vec<Op<Global>>,
    written: &mut Vec<u8>,
    watch: &mut S,
) -> Result<Option<Summary>, RunFault> {
    run::<Brand, R, G, _, S>(
        rt,
        alloc,
        Opened::new(),
        settings,
        gate,
        drills,
        ops,
        written,
        watch,
        true,
    )
}

fn run_ops<
    R: Threads + Wait + Clock + Copy + Send + 'static,
    G: Gate + Send + Sync + Drop + 'static,
    S: Watch,
>(
    rt: &R,
    alloc: Global,
    settings: &Settings,
    gate: G,
    drills: Vec<(u16, Drill)>,
    ops: Vec<Op<Global>>,
    written: &mut Vec<u8>,
    watch: &mut S,
) -> Ending {
    let ended = run_alone(rt, alloc, settings, gate, drills, ops, written, watch);
    ending_of(&ended)
}

fn run_script<
    R: Threads + Wait + Clock + Copy + Send + 'static,
    G: Gate + Send + Sync + Drop + 'static,
    S: Watch,
>(
    rt: &R,
    alloc: Global,
    settings: &Settings,
    gate: G,
    drills: Vec<(u16, Drill)>,
    script: &str,
    written: &mut Vec<u8>,
    watch: &mut S,
) -> Ending {
    let most = most_operations(settings);
    match read_script(alloc, script.as_bytes(), most, &mut Unheard) {
        Ok(ops) => run_ops(rt, alloc, settings, gate, drills, ops, written, watch),
        Err(LocalFault::Refused { line, fault }) => Ending::Line(line, fault),
        Err(_) => Ending::Stopped,
    }
}

fn run_drilled<
    R: Threads + Wait + Clock + Copy + Send + 'static,
    G: Gate + Send + Sync + Drop + 'static,
    S: Watch,
>(
    rt: &R,
    alloc: Global,
    settings: &Settings,
    gate: G,
    asked: &Drills,
    script: &str,
    written: &mut Vec<u8>,
    watch: &mut S,
) -> Ending {
    let Ok(drills) = drills_of(alloc, asked) else {
        return Ending::Stopped;
    };
    match drilled(alloc, settings, drills.as_slice()) {
        Ok(settings) => run_script(rt, alloc, &settings, gate, drills, script, written, watch),
        Err(fault) => ending_at(&fault),
    }
}

fn run_text<
    R: Threads + Wait + Clock + Copy + Send + 'static,
    G: Gate + Send + Sync + Drop + 'static,
    S: Watch,
>(
    rt: &R,
    alloc: Global,
    settings: &str,
    gate: G,
    asked: &Drills,
    script: &str,
    written: &mut Vec<u8>,
    watch: &mut S,
) -> Ending {
    match read_settings(alloc, settings.as_bytes()) {
        Ok(settings) => run_drilled(rt, alloc, &settings, gate, asked, script, written, watch),
        Err(_) => Ending::Configuration,
    }
}

/// Whether a cluster runs the script to its end. Its output is added to `written`.
pub fn is_complete<R: Threads + Wait + Clock + Copy + Send + 'static>(
    rt: &R,
    alloc: Global,
    settings: &str,
    script: &str,
    written: &mut Vec<u8>,
) -> bool {
    let none = Drills::NONE;
    run_text(
        rt,
        alloc,
        settings,
        Open,
        &none,
        script,
        written,
        &mut Unwatched,
    ) == Ending::Complete
}

// Whether the script ends so on a cluster with this gate and these drills, and prints these results.
fn ends_drilled<
    R: Threads + Wait + Clock + Copy + Send + 'static,
    G: Gate + Send + Sync + Drop + 'static,
    S: Watch,
>(
    rt: &R,
    alloc: Global,
    gate: G,
    asked: &Drills,
    watch: &mut S,
    (settings, script, ending, results): (&str, &str, Ending, &str),
) -> bool {
    let mut written = Vec::new(alloc);
    run_text(
        rt,
        alloc,
        settings,
        gate,
        asked,
        script,
        &mut written,
        watch,
    )
    .is(ending)
        && written.as_slice() == results.as_bytes()
}

/// Whether the script ends so on a cluster with this gate, and prints these results.
pub fn ends_so<
    R: Threads + Wait + Clock + Copy + Send + 'static,
    G: Gate + Send + Sync + Drop + 'static,
    S: Watch,
>(rt: &R, alloc: Global, gate: G, watch: &mut S, row: (&str, &str, Ending, &str)) -> bool {
    ends_drilled(rt, alloc, gate, &Drills::NONE, watch, row)
}

/// Whether the script prints these results on a cluster.
pub fn is_answered<R: Threads + Wait + Clock + Copy + Send + 'static>(
    rt: &R,
    alloc: Global,
    (settings, script, results): (&str, &str, &str),
) -> bool {
    let row = (settings, script, Ending::Complete, results);
    ends_so(rt, alloc, Open, &mut Unwatched, row)
}

static ROWS: [(&str, &str, Ending, &str); 13] = [
    (
        CLUSTER_SETTINGS,
        "out (1)\nout (1)\ninp (?int)\nrdAll 64 (*)\nrdp ()\n",
        Ending::Complete,
        "done\ndone\nfound (1)\nall 1 (1)\nabsent\n",
    ),
    (CLUSTER_SETTINGS, "", Ending::Complete, ""),
    (FOUR_CLIENTS, "# Nothing to do.\n\n", Ending::Complete, ""),
    (
        FOUR_CLIENTS,
        "out (1)\nout (2)",
        Ending::Complete,
        "done\ndone\n",
    ),
    (
        TWO_CLIENTS,
        "out (1)\nrdp (2)\nrdp (1)\nout (3)\ninp (1)\nrdp (3)\n",
        Ending::Complete,
        "done\nabsent\nfound (1)\ndone\nfound (1)\nfound (3)\n",
    ),
    // Ten entries are too few for a call: nothing is printed.
    (SMALL_JOURNAL, "out (1)\n", Ending::Stopped, ""),
    // With twelve entries for two operations a run starts, and the journal gets full.
    (ELEVEN_ENTRIES, "out (1)\nrdp (1)\n", Ending::NoRoom, ""),
    (
        ELEVEN_ENTRIES,
        "out (1)\nrdp (1)\nrdp (01)\n",
        Ending::NoRoom,
        "",
    ),
    (TWELVE_ENTRIES, "out (1)\nrdp (1)\n", Ending::Stopped, ""),
    // Faulty parties are refused.
    (FAULTY_REPLICA, "out (1)\n", Ending::Configuration, ""),
    (FAULTY_CLIENT, "out (1)\n", Ending::Configuration, ""),
    // A line is refused before anything starts.
    (
        CLUSTER_SETTINGS,
        "out (1)\n# x\nout (01)\n",
        Ending::Line(3, LineFault::BadByte { offset: 6 }),
        "",
    ),
    (
        CLUSTER_SETTINGS,
        "out (1)\nout (((((((((1)))))))))",
        Ending::Line(2, LineFault::TooDeep),
        "",
    ),
];

#[test]
fn runs_scripts_on_clusters(rt: HostRuntime) {
    for row in &ROWS {
        assert!(rt;
            ends_so(&rt, rt.alloc(), Open, &mut Unwatched, *row),
            "{}",
            row.1
        );
    }
}

const SILENT: Option<Drilled> = Some(Drilled {
    replica: 3,
    kind: DrillKind::Silent,
});

const STALE: Option<Drilled> = Some(Drilled {
    replica: 3,
    kind: DrillKind::Stale,
});

const NOT_THERE: Option<Drilled> = Some(Drilled {
    replica: 4,
    kind: DrillKind::Silent,
});

const OTHER: Option<Drilled> = Some(Drilled {
    replica: 2,
    kind: DrillKind::Stale,
});

const SHORT_SCRIPT: &str = "out (1)\nrdp (?int)\ninp (1)\nrdp (*)\n";

// Beside one liar of four replicas the answers are those without it. More drills than faults are refused, and so are
// those of no replica.
static DRILLED: [([Option<Drilled>; 4], Ending, &str); 5] = [
    (
        [SILENT, None, None, None],
        Ending::Complete,
        "done\nfound (1)\nfound (1)\nabsent\n",
    ),
    (
        [STALE, None, None, None],
        Ending::Complete,
        "done\nfound (1)\nfound (1)\nabsent\n",
    ),
    ([SILENT, OTHER, None, None], Ending::Drills, ""),
    ([SILENT, STALE, None, None], Ending::Drills, ""),
    ([NOT_THERE, None, None, None], Ending::Drills, ""),
];

fn is_drilled<R: Threads + Wait + Clock + Copy + Send + 'static>(
    rt: &R,
    alloc: Global,
    (asked, ending, results): ([Option<Drilled>; 4], Ending, &str),
) -> bool {
    let row = (CLUSTER_SETTINGS, SHORT_SCRIPT, ending, results);
    ends_drilled(rt, alloc, Open, &Drills(asked), &mut Unwatched, row)
}

#[test]
fn runs_scripts_beside_liars(rt: HostRuntime) {
    for row in &DRILLED {
        assert!(rt; is_drilled(&rt, rt.alloc(), *row), "{}", row.2);
    }
}

// Whether a run of one call tells that nobody stopped, and that at least six entries were taken.
fn is_summarized<R: Threads + Wait + Clock + Copy + Send + 'static>(rt: &R, alloc: Global) -> bool {
    let Ok(settings) = read_settings(alloc, CLUSTER_SETTINGS.as_bytes()) else {
        return false;
    };
    let Ok(ops) = read_script(alloc, b"out (1)\n".as_slice(), 2, &mut Unheard) else {
        return false;
    };
    let (drills, mut written) = (Vec::new(alloc), Vec::new(alloc));
    let ended = run_alone(
        rt,
        alloc,
        &settings,
        Open,
        drills,
        ops,
        &mut written,
        &mut Unwatched,
    );
    match &ended {
        Ok(Some(told)) => {
            told.calls == 1 && told.number >= 1 && told.stopped.is_empty() && told.entries >= 6
        }
        _ => false,
    }
}

#[test]
fn tells_a_summary(rt: HostRuntime) {
    assert!(rt; is_summarized(&rt, rt.alloc()));
}

fn swaps<R: Threads + Wait + Clock + Copy + Send + 'static>(rt: &R, alloc: Global) -> bool {
    let script = "cas (\"k\" *) (\"k\" 1)\ncas (\"k\" *) (\"k\" 2)\n";
    let mut written = Vec::new(alloc);
    is_complete(rt, alloc, TWO_CLIENTS, script, &mut written)
        && (written.as_slice() == b"swapped true\nswapped false\n".as_slice()
            || written.as_slice() == b"swapped false\nswapped true\n".as_slice())
}

#[test]
fn swaps_once(rt: HostRuntime) {
    assert!(rt; swaps(&rt, rt.alloc()));
}

// Whether the run is told to have ended so, by this status and this text.
fn is_told(alloc: Global, fault: &RunFault, status: u8, text: &str) -> bool {
    let console = Console::new(alloc, true);
    end_run(&console, fault) == status && holds(&console.errors, text)
}

fn is_stop_told(alloc: Global, fault: ClusterFault, text: &str) -> bool {
    is_told(alloc, &RunFault::Stopped(fault), 3, text)
}

// The reason stands on a line of its own, after the word `stopped` or the refusal of the configuration.
fn are_told(alloc: Global) -> bool {
    is_stop_told(
        alloc,
        ClusterFault::NoRoom { least: 6 },
        "stopped\nthe journal is too small for so many operations: each takes at least 6 entries\n",
    ) && is_stop_told(
        alloc,
        ClusterFault::TooManyStopped,
        "stopped\ntoo many replicas have stopped: memory ran out, or the journal is full\n",
    ) && is_told(
        alloc,
        &RunFault::Configuration,
        1,
        "refused 25\nthe configuration names a faulty party\n",
    ) && is_told(
        alloc,
        &RunFault::Drills(DrillFault::TooMany {
            most: 1,
            replicas: 4,
        }),
        1,
        "refused 25\nat most 1 of 4 replicas may be faulty\n",
    )
}

#[test]
fn says_why_a_run_is_stopped(rt: HostRuntime) {
    assert!(rt; are_told(rt.alloc()));
}

// Whether the configuration is read, and names a faulty party.
fn is_faulty(alloc: Global, settings: &str) -> bool {
    match read_settings(alloc, settings.as_bytes()) {
        Ok(settings) => !is_faultless(&settings.config),
        Err(_) => false,
    }
}

#[test]
fn names_faulty_parties(rt: HostRuntime) {
    assert!(rt; is_faulty(rt.alloc(), FAULTY_REPLICA) && is_faulty(rt.alloc(), FAULTY_CLIENT));
}
