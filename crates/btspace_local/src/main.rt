//! `btspace local` and `btspace show` alone.
//!
//! This program stands on one space, and so it is built long before the whole one, which has all commands.
#![tactic(auto)]

ghost use Rattle.std.specs.Prelude.{◌≡◌};

use command_line::{NoRequest, Request, SpaceVersion, read_words};
use one_space::{
    Complaint, EscapedErrors, LocalRequest, StandardError, Terminals, complain, print_tuple,
    run_script, words_of,
};
use space::Version;
use std::io::IsTerminal;
use std::process::ExitCode;
use std::rt::{Env, Files};

fn main(rt: HostRuntime) -> ExitCode {
    let terminals = Terminals {
        input: rt.stdin().is_terminal(),
        errors: rt.stderr().is_terminal(),
    };
    ExitCode::from(act_on_words(&rt, terminals))
}

// Does what the words ask for, and gives the status.
fn act_on_words<R: Files + Env + Input + Print + Eprint + AllocGlobal>(
    rt: &R,
    terminals: Terminals,
) -> u8 {
    let words = match words_of(rt) {
        Ok(words) => words,
        Err(status) => return status,
    };
    match read_words(&(EscapedErrors(rt), rt.alloc()), words.as_slice()) {
        Ok(
            Request::Local {
                script,
                space,
                keeps_going,
            },
        ) => {
            let request = LocalRequest {
                script,
                version: version_of(space),
                keeps_going,
            };
            run_script(rt, terminals, request)
        }
        Ok(Request::Show { digits }) => print_tuple(rt, digits),
        Ok(
            Request::Run { .. }
            | Request::Schedule { .. }
            | Request::Keys { .. }
            | Request::Replica { .. }
            | Request::Client { .. },
        ) => refuse_command(rt),
        Err(why) => end_words(rt, why),
    }
}

fn version_of(asked: SpaceVersion) -> Version
    ensures one { asked ≡ SpaceVersion.One → result ≡ Version.One }
    ensures two { asked ≡ SpaceVersion.Two → result ≡ Version.Two }
{
    match asked {
        SpaceVersion::One => Version::One,
        SpaceVersion::Two => Version::Two,
    }
}

fn refuse_command<R: Eprint>(rt: &R) -> u8 {
    let _ = eprintln!(rt; "error: this program has the commands local and show alone");
    2
}

// `read_words` has printed all other texts already.
fn end_words<R: Eprint>(rt: &R, why: NoRequest) -> u8 {
    match why {
        NoRequest::Shown => 0,
        NoRequest::Wrong => 2,
        NoRequest::Unprinted(error) => {
            complain(
                &mut StandardError::new(rt),
                Complaint::of_write(&error),
                error,
            )
        }
        NoRequest::NoMemory => {
            complain(
                &mut StandardError::new(rt),
                Complaint::Stopped,
                "out of memory",
            )
        }
    }
}
