//! `btspace`: a tuple space at the command line.
//!
//! # What is proved
//!
//! `local` and `show` are those of `one_space`. `run` writes a result line for each operation, in their order. The
//! line has the answer that the operation's client accepted to this call. It did so in a trace of the cluster that is
//! linearizable, if nothing in it is forged, unless two different texts of it have one digest. Without drills nothing
//! is forged. At a fault `run` writes nothing, unless the writer failed. If the words are no request, the status
//! follows from the reason. `keys` is that of `keys_command`, `replica` that of `replica_command`, and
//! `client` that of `client_command`.
//!
//! Tests show that a faulty party is refused before the script is read, and what the program shows while it runs.
#![tactic(auto)]

ghost use Rattle.std.specs.Prelude.{◌≡◌};

use client_command::{ClientRequest, run_client};
use cluster_run::{Drill, Open};
use command_line::{Drills, NoRequest, Printed, Request, SpaceVersion, read_words};
use config_text::Settings;
use events::Config;
use journal::Opened;
use keys_command::deal_keys;
use one_space::{
    Complaint, EscapedErrors, LocalRequest, StandardError, Terminals, complain, is_standard_input,
    print_tuple, run_script, script_at, words_of,
};
use replica_command::run_replica;
use run_command::{Display, Forecast, RunFault, drilled, drills_of, end_run, most_operations, run};
use schedule_command::{ScheduleFault, end_schedule, read_settings, schedule};
use space::Version;
use std::alloc::Global;
use std::io::{IsTerminal, Read};
use std::marker::Brand;
use std::process::ExitCode;
use std::rt::{Env, Files};
use std::sync::Wait;
use std::thread::Threads;
use std::time::Clock;
use std::{fs, io};
use tuple_codec::Op;

fn main(rt: HostRuntime) -> ExitCode {
    let terminals = Terminals {
        input: rt.stdin().is_terminal(),
        errors: rt.stderr().is_terminal(),
    };
    ExitCode::from(act_on_words(&rt, terminals))
}

// Does the request of the words, and gives the status.
fn act_on_words<
    R: Files
        + Env
        + Input
        + Print
        + Eprint
        + AllocGlobal
        + Threads
        + Wait
        + Clock
        + Copy
        + Send
        + 'static,
>(rt: &R, terminals: Terminals) -> u8 {
    let words = match words_of(rt) {
        Ok(words) => words,
        Err(status) => return status,
    };
    match read_words(&(EscapedErrors(rt), rt.alloc()), words.as_slice()) {
        Ok(request) => act_on(rt, terminals, request),
        Err(why) => end_words(rt, why),
    }
}

fn act_on<
    R: Files
        + Input
        + Print
        + Eprint
        + AllocGlobal
        + Threads
        + Wait
        + Clock
        + Copy
        + Send
        + 'static,
>(rt: &R, terminals: Terminals, request: Request<'_>) -> u8 {
    match request {
        Request::Local {
            script,
            space,
            keeps_going,
        } => {
            let request = LocalRequest {
                script,
                version: version_of(space),
                keeps_going,
            };
            run_script(rt, terminals, request)
        }
        Request::Run {
            config,
            script,
            drills,
            has_summary,
        } => {
            let asked = RunRequest {
                config,
                script,
                drills,
                has_summary,
                is_terminal: terminals.errors,
            };
            run_on_cluster(rt, asked)
        }
        Request::Show { digits } => print_tuple(rt, digits),
        Request::Schedule {
            config,
            file,
            printed,
        } => run_configured(rt, config, file, printed),
        Request::Keys { config, folder } => deal_keys(rt, config, folder),
        Request::Replica { keys } => run_replica(rt, keys),
        Request::Client {
            keys,
            records_in,
            records_out,
            above,
        } => {
            let request = ClientRequest {
                keys,
                records_in,
                records_out,
                above,
            };
            run_client(rt, terminals, request)
        }
    }
}

fn version_of(asked: SpaceVersion) -> Version
    ensures one { asked ≡ SpaceVersion.One → result ≡ Version.One }
    ensures two { asked ≡ SpaceVersion.Two → result ≡ Version.Two }
{
    match asked {
        SpaceVersion::One => Version::One,
        SpaceVersion::Two => Version::Two,
    }
}

// What `run` is asked for, and whether standard error is a terminal.
#[derive(Clone, Copy)]
struct RunRequest<'a> {
    config: &'a str,
    script: &'a str,
    drills: Drills,
    has_summary: bool,
    is_terminal: bool,
}

// The configuration is read and judged before the script is read.
fn run_on_cluster<
    R: Files
        + Input
        + Print
        + Eprint
        + AllocGlobal
        + Threads
        + Wait
        + Clock
        + Copy
        + Send
        + 'static,
>(rt: &R, asked: RunRequest<'_>) -> u8 {
    if is_read_twice(asked.config, asked.script) {
        return refuse_second(rt, asked.script);
    }
    match settings_at(rt, asked.config) {
        Ok(settings) => run_cluster(rt, &settings, asked),
        Err(status) => status,
    }
}

// Standard input can be read only once.
fn is_read_twice(config: &str, file: &str) -> bool {
    is_standard_input(config) && is_standard_input(file)
}

fn refuse_second<R: Eprint>(rt: &R, path: &str) -> u8 {
    let complaint = Complaint::Unreadable { path };
    complain(
        &mut StandardError::new(rt),
        complaint,
        "the standard input is read for the first file",
    )
}

// The configuration is read and judged before the schedule is read.
fn run_configured<R: Files + Input + Print + Eprint + AllocGlobal>(
    rt: &R,
    config: &str,
    file: &str,
    printed: Printed,
) -> u8 {
    if is_read_twice(config, file) {
        return refuse_second(rt, file);
    }
    match settings_at(rt, config) {
        Ok(settings) => run_schedule(rt, &settings.config, file, printed),
        Err(status) => status,
    }
}

// The settings in the file at this path, or the status after a complaint.
fn settings_at<R: Files + Input + Eprint + AllocGlobal>(
    rt: &R,
    path: &str,
) -> Result<Settings, u8> {
    let settings = if is_standard_input(path) {
        read_settings(rt.alloc(), rt.reader())
    } else {
        match fs::open(rt, path) {
            Ok(file) => read_settings(rt.alloc(), file),
            Err(error) => Err(ScheduleFault::of_read(error)),
        }
    };
    match settings {
        Ok(settings) => Ok(settings),
        Err(fault) => Err(end_schedule(rt, &fault, path)),
    }
}

fn run_schedule<R: Files + Input + Print + Eprint + AllocGlobal>(
    rt: &R,
    config: &Config,
    path: &str,
    printed: Printed,
) -> u8 {
    if is_standard_input(path) {
        return run_steps(rt, config, rt.reader(), path, printed);
    }
    match fs::open(rt, path) {
        Ok(file) => run_steps(rt, config, file, path, printed),
        Err(error) => end_schedule(rt, &ScheduleFault::of_read(error), path),
    }
}

fn run_steps<R: Print + Eprint + AllocGlobal, I: Read + Drop>(
    rt: &R,
    config: &Config,
    input: I,
    path: &str,
    printed: Printed,
) -> u8 {
    match schedule(rt.alloc(), config, input, printed, &mut io::writer(rt)) {
        Ok(()) => 0,
        Err(fault) => end_schedule(rt, &fault, path),
    }
}

// The script is read and judged before anything starts.
fn run_cluster<
    R: Files
        + Input
        + Print
        + Eprint
        + AllocGlobal
        + Threads
        + Wait
        + Clock
        + Copy
        + Send
        + 'static,
>(rt: &R, settings: &Settings, asked: RunRequest<'_>) -> u8 {
    let Ok(drills) = drills_of(rt.alloc(), &asked.drills) else {
        return end_run(rt, &RunFault::NoMemory);
    };
    let settings = match drilled(rt.alloc(), settings, drills.as_slice()) {
        Ok(settings) => settings,
        Err(fault) => return end_run(rt, &fault),
    };
    match script_at(rt, asked.script, most_operations(&settings)) {
        Ok(ops) => run_operations(rt, &settings, asked, drills, ops),
        Err(status) => status,
    }
}

fn run_operations<R: Print + Eprint + AllocGlobal + Threads + Wait + Clock + Copy + Send + 'static>(
    rt: &R,
    settings: &Settings,
    asked: RunRequest<'_>,
    drills: Vec<(u16, Drill)>,
    ops: Vec<Op<Global>>,
) -> u8 {
    let forecast = Forecast::of(settings, ops.as_slice());
    if asked.is_terminal && !forecast.fits() {
        let _ = eprintln!(rt; "{forecast}");
    }
    let mut display = Display::new(rt, asked.is_terminal, ops.len());
    let ending = run::<Brand, R, _, _, _>(
        rt,
        rt.alloc(),
        Opened::new(),
        settings,
        Open,
        drills,
        ops,
        &mut io::writer(rt),
        &mut display,
        asked.has_summary,
    );
    match ending {
        Ok(summary) => {
            if let Some(summary) = summary {
                let _ = eprintln!(rt; "{summary}");
            }
            0
        }
        Err(fault) => end_run(rt, &fault),
    }
}

// `read_words` has printed all other texts already.
fn end_words<R: Eprint>(rt: &R, why: NoRequest) -> u8
    ensures shown { why ≡ NoRequest.Shown → result ≡ 0 }
    ensures wrong { why ≡ NoRequest.Wrong → result ≡ 2 }
    ensures memory { why ≡ NoRequest.NoMemory → result ≡ 3 }
{
    let mut console = StandardError::new(rt);
    match why {
        NoRequest::Shown => 0,
        NoRequest::Wrong => 2,
        NoRequest::Unprinted(error) => complain(&mut console, Complaint::of_write(&error), error),
        NoRequest::NoMemory => complain(&mut console, Complaint::Stopped, "out of memory"),
    }
}
