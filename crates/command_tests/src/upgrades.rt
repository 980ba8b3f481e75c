//! An upgrade in the middle of other clients' calls.
//!
//! The threads decide which call comes before the upgrade. So the answers are judged by the rules that hold in each
//! order.

use crate::clusters::is_complete;
use std::alloc::Global;
use std::sync::Wait;
use std::thread::Threads;
use std::time::Clock;

// A checkpoint at each second number, so that states of either version have some.
const FOUR_CLIENTS: &str = r#"
f = 1
clients = 4
checkpoint = 2
seed = "000102030405060708090a0b0c0d0e0f101112131415161718191a1b1c1d1e1f"
"#;

const CLIENTS: usize = 4;

// The answers to client 0 in each round. Nobody else upgrades or takes its tuples, so they are certain.
static FIRST_CLIENT: [&str; 15] = [
    "done",
    "refused",
    "refused",
    "refused",
    "done",
    "done",
    "done",
    "done",
    "done",
    "all 2 (0 4) (0 w6)",
    "done",
    "done",
    "done",
    "found (0 w8)",
    "found (\"old\")",
];

// Client 0 leaves these in the space: the wide numbers from 8 to 12, each second one.
const FIRST_LEFT: u64 = 8;

const LAST_LEFT: u64 = 12;

#[derive(Clone, Copy)]
enum Call {
    // A tuple of the client's number and the round's, as a wide number.
    PutWide,
    // The oldest such tuple that the client put.
    FindWide,
    PutNumber,
    // The tuple that client 0 puts after its upgrade.
    FindNew,
    Upgrade,
}

// The calls of each other client in each round: a wide number in each second one.
static CALLS: [Call; 15] = [
    Call::PutWide,
    Call::Upgrade,
    Call::PutWide,
    Call::PutNumber,
    Call::PutWide,
    Call::FindWide,
    Call::PutWide,
    Call::FindNew,
    Call::PutWide,
    Call::FindWide,
    Call::PutWide,
    Call::Upgrade,
    Call::PutWide,
    Call::FindWide,
    Call::PutWide,
];

// The clients take the lines in turn, so each round has one line of each client. In a wide number stands the round.
const SCRIPT: &str = r#"out ("old")
out (1 w0)
out (2 w0)
out (3 w0)
out (0 w1)
upgrade
upgrade
upgrade
rdp (0 ?wide)
out (1 w2)
out (2 w2)
out (3 w2)
inAll 2 (0 *)
out (1 3)
out (2 3)
out (3 3)
out (0 4)
out (1 w4)
out (2 w4)
out (3 w4)
upgrade
rdp (1 ?wide)
rdp (2 ?wide)
rdp (3 ?wide)
out (0 w6)
out (1 w6)
out (2 w6)
out (3 w6)
out ("new")
rdp ("new")
rdp ("new")
rdp ("new")
out (0 w8)
out (1 w8)
out (2 w8)
out (3 w8)
inAll 2 (0 *)
rdp (1 ?wide)
rdp (2 ?wide)
rdp (3 ?wide)
out (0 w10)
out (1 w10)
out (2 w10)
out (3 w10)
upgrade
upgrade
upgrade
upgrade
out (0 w12)
out (1 w12)
out (2 w12)
out (3 w12)
rdp (0 ?wide)
rdp (1 ?wide)
rdp (2 ?wide)
rdp (3 ?wide)
rdp ("old")
out (1 w14)
out (2 w14)
out (3 w14)
rdAll 64 (?int ?wide)
"#;

// The answers of a client up to one of them.
#[derive(Clone, Copy)]
struct Learned {
    // An answer came from a space of version 2.
    is_upgraded: bool,
    // The oldest wide number of the client that is there, or the next one that is listed.
    next: Option<u64>,
}

impl Learned {
    // Judges a line of a client other than client 0.
    fn note(&mut self, call: Call, client: usize, round: usize, line: &str) -> bool {
        match call {
            Call::PutWide => self.note_put(round as u64, line),
            Call::FindWide => self.note_found(client, line),
            Call::PutNumber => line == "done",
            Call::FindNew => self.note_new(line),
            Call::Upgrade => line == "refused",
        }
    }

    // Once version 2 answered a client, it refuses nothing more.
    fn note_put(&mut self, round: u64, line: &str) -> bool {
        if line == "refused" {
            return !self.is_upgraded;
        }
        self.is_upgraded = true;
        self.next = self.next.or(Some(round));
        line == "done"
    }

    // The client finds its tuple, if the tuple was not refused.
    fn note_found(&mut self, client: usize, line: &str) -> bool {
        if line == "refused" {
            return !self.is_upgraded;
        }
        self.is_upgraded = true;
        match self.next {
            Some(round) => {
                line.strip_prefix("found (").and_then(wide_tuple) == Some((client, round))
            }
            None => line == "absent",
        }
    }

    // Whoever finds the tuple that was put after the upgrade comes after the upgrade too.
    fn note_new(&mut self, line: &str) -> bool {
        if line == "absent" {
            return true;
        }
        self.is_upgraded = true;
        line == "found (\"new\")"
    }

    // The tuples of a client are listed in the order of its calls, and none is left out between two of them.
    fn is_listed(&mut self, round: u64) -> bool {
        let is_next = self.next == Some(round) && round < CALLS.len() as u64;
        self.next = Some(round.saturating_add(2));
        is_next
    }
}

// The client and the wide number of a tuple's text after its opening parenthesis.
fn wide_tuple(text: &str) -> Option<(usize, u64)> {
    let (client, number) = text.trim_end().strip_suffix(")")?.split_once(" w")?;
    Some((client.parse().ok()?, number.parse().ok()?))
}

fn is_tuple_listed(text: &str, learned: &mut [Learned]) -> bool {
    let Some((client, round)) = wide_tuple(text) else {
        return false;
    };
    match learned.get_mut(client) {
        Some(learned) => learned.is_listed(round),
        None => false,
    }
}

// The tuples of client 0 are all listed. Of the other clients some may be missing, as they may still run.
fn is_listing(line: &str, learned: &mut [Learned]) -> bool {
    let mut texts = line.split('(');
    let front = texts.next();
    let mut count = 0u64;
    for text in texts {
        if !is_tuple_listed(text, learned) {
            return false;
        }
        count = count.saturating_add(1);
    }
    let told = front
        .and_then(|front| front.strip_prefix("all "))
        .and_then(|number| number.trim_end().parse::<u64>().ok());
    told == Some(count)
        && learned
            .first()
            .is_some_and(|first| first.next == Some(LAST_LEFT + 2))
}

fn is_answer(place: usize, line: &str, learned: &mut [Learned]) -> bool {
    let (round, client) = (place / CLIENTS, place % CLIENTS);
    match (
        FIRST_CLIENT.get(round),
        CALLS.get(round),
        learned.get_mut(client),
    ) {
        (Some(first), _, _) if client == 0 => line == *first,
        (_, Some(call), Some(learned)) => learned.note(*call, client, round, line),
        _ => client == 0 && is_listing(line, learned),
    }
}

// Whether each line is an answer that some order of the calls gives, as far as this can be judged.
fn are_answers(text: &str) -> bool {
    let nothing = Learned {
        is_upgraded: false,
        next: None,
    };
    let left = Learned {
        is_upgraded: true,
        next: Some(FIRST_LEFT),
    };
    let mut learned = [left, nothing, nothing, nothing];
    let mut count = 0;
    for (place, line) in text.lines().enumerate() {
        if !is_answer(place, line, &mut learned) {
            return false;
        }
        count = place;
    }
    count == CALLS.len() * CLIENTS
}

fn is_right(written: &[u8]) -> bool {
    match str::from_utf8(written) {
        Ok(text) => are_answers(text),
        Err(_) => false,
    }
}

fn is_upgraded<R: Threads + Wait + Clock + Copy + Send + 'static>(rt: &R, alloc: Global) -> bool {
    let mut written = Vec::new(alloc);
    is_complete(rt, alloc, FOUR_CLIENTS, SCRIPT, &mut written) && is_right(written.as_slice())
}

#[test]
fn upgrades_beside_other_clients(rt: HostRuntime) {
    assert!(rt; is_upgraded(&rt, rt.alloc()));
}
