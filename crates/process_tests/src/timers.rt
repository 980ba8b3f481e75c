//! Timers of a replica: how patient it is.

use patience::{Patience, Standing, Timer};
use state_transfer::Place;
use terms::{Level, Number, Timestamp, View};

// How a replica stands: it waits for nothing; it is inactive and waits for view 1, or for view 2; it waits for the
// first page of state 16, or the second one, without or with a request; for the request 1 of client 0; or for its
// request 2.
#[derive(Clone, Copy, PartialEq, Eq)]
enum Stands {
    Idle,
    Inactive,
    Later,
    First,
    Second,
    FirstWithRequest,
    One,
    Two,
}

fn standing(stands: Stands) -> Standing {
    let part = match stands {
        Stands::First | Stands::FirstWithRequest => Some(page(0)),
        Stands::Second => Some(page(1)),
        _ => None,
    };
    let request = match stands {
        Stands::One | Stands::FirstWithRequest => Some((0, Timestamp(1))),
        Stands::Two => Some((0, Timestamp(2))),
        _ => None,
    };
    let view = match stands {
        Stands::Inactive => Some(View(1)),
        Stands::Later => Some(View(2)),
        _ => None,
    };
    Standing {
        view,
        part,
        request,
    }
}

fn page(index: u16) -> (Number, Place) {
    let place = Place {
        level: Level::Page,
        index,
    };
    (Number(16), place)
}

// What happens to the timers, and what comes of it: a timer of so many milliseconds, none, a timeout, or no timeout.
#[derive(Clone, Copy)]
enum Step {
    Begins(Stands, u32),
    NoneBegins(Stands),
    Gives(Stands),
    GivesNothing(Stands),
    Stale(u64),
    Links(u8),
}

// Whether a new patience goes so.
fn goes(steps: &[Step]) -> bool {
    let mut patience = Patience::new(2);
    let mut number = 0u64;
    for &step in steps {
        if !is_taken(&mut patience, &mut number, step) {
            return false;
        }
    }
    true
}

fn is_taken(patience: &mut Patience, number: &mut u64, step: Step) -> bool {
    match step {
        Step::Begins(stands, milliseconds) => {
            *number = number.saturating_add(1);
            let timer = Timer {
                number: *number,
                milliseconds,
            };
            patience.begins(&standing(stands)) == Some(timer)
        }
        Step::NoneBegins(stands) => patience.begins(&standing(stands)).is_none(),
        Step::Gives(stands) => patience.ends(*number, &standing(stands)),
        Step::GivesNothing(stands) => !patience.ends(*number, &standing(stands)),
        Step::Stale(other) => !patience.ends(other, &standing(Stands::Inactive)),
        Step::Links(count) => {
            patience.links(count);
            true
        }
    }
}

// The milliseconds of the rows were computed by another implementation of the rules, in Python.
static REQUEST: [Step; 12] = [
    Step::NoneBegins(Stands::Idle),
    Step::Begins(Stands::One, 2_000),
    Step::NoneBegins(Stands::One),
    Step::Stale(0),
    Step::Stale(2),
    Step::Gives(Stands::One),
    Step::Stale(1),
    Step::Begins(Stands::Inactive, 4_000),
    Step::GivesNothing(Stands::Idle),
    Step::Begins(Stands::One, 2_000),
    Step::GivesNothing(Stands::Two),
    Step::Begins(Stands::Two, 2_000),
];

// A part before a request, and a view before a part. Only the same part is asked for again.
static ORDER: [Step; 11] = [
    Step::Begins(Stands::FirstWithRequest, 2_000),
    Step::GivesNothing(Stands::One),
    Step::Begins(Stands::First, 2_000),
    Step::GivesNothing(Stands::Second),
    Step::Begins(Stands::Second, 2_000),
    Step::GivesNothing(Stands::Inactive),
    Step::Begins(Stands::FirstWithRequest, 2_000),
    Step::Gives(Stands::First),
    Step::Begins(Stands::Inactive, 4_000),
    Step::Gives(Stands::Inactive),
    Step::Begins(Stands::Inactive, 8_000),
];

// Each view has its own time: twice as much if the replica follows others, as much again if it enters a view, and half
// as much once a request was executed there. The timers that ended early give nothing.
static FOLLOWS: [Step; 14] = [
    Step::Begins(Stands::One, 2_000),
    Step::Begins(Stands::Inactive, 4_000),
    Step::NoneBegins(Stands::Inactive),
    Step::Stale(1),
    Step::Begins(Stands::Later, 8_000),
    Step::Stale(2),
    Step::Begins(Stands::One, 8_000),
    Step::NoneBegins(Stands::Two),
    Step::Gives(Stands::One),
    Step::Begins(Stands::Inactive, 16_000),
    Step::Begins(Stands::One, 16_000),
    Step::GivesNothing(Stands::Two),
    Step::NoneBegins(Stands::Idle),
    Step::Begins(Stands::Two, 8_000),
];

// Linked to one other of the two that are needed: no timeout, and no longer timer.
static LINKS: [Step; 10] = [
    Step::Links(1),
    Step::Begins(Stands::One, 2_000),
    Step::GivesNothing(Stands::One),
    Step::Begins(Stands::One, 2_000),
    Step::Links(2),
    Step::Gives(Stands::One),
    Step::Begins(Stands::Inactive, 4_000),
    Step::Links(0),
    Step::GivesNothing(Stands::Inactive),
    Step::Begins(Stands::Inactive, 4_000),
];

#[test]
fn rows_go_as_they_say(rt: HostRuntime) {
    assert!(rt; goes(&REQUEST), "a request");
    assert!(rt; goes(&ORDER), "a part, a view");
    assert!(rt; goes(&LINKS), "few links");
    assert!(rt; goes(&FOLLOWS), "a view after a view");
}

// The timers of a replica that is inactive all the while.
static INACTIVE: [u32; 23] = [
    2_000,
    4_000,
    8_000,
    16_000,
    32_000,
    64_000,
    128_000,
    256_000,
    512_000,
    1_024_000,
    2_048_000,
    4_096_000,
    8_192_000,
    16_384_000,
    32_768_000,
    65_536_000,
    131_072_000,
    262_144_000,
    524_288_000,
    1_048_576_000,
    1_073_741_824,
    1_073_741_824,
    1_073_741_824,
];

// Those of one that gets a timeout at every second one, and waits for nothing at the others.
static TURNS: [u32; 24] = [
    2_000, 4_000, 2_000, 4_000, 2_000, 4_000, 2_000, 4_000, 4_000, 8_000, 4_000, 8_000, 4_000,
    8_000, 4_000, 8_000, 8_000, 16_000, 8_000, 16_000, 8_000, 16_000, 8_000, 16_000,
];

// Whether the timers are these, and at the end of every second one the replica stands so.
fn are_timers(timers: &[u32], second: Stands) -> bool {
    let mut patience = Patience::new(2);
    let mut number = 0u64;
    for &milliseconds in timers {
        let is_first = number % 2 == 0;
        let stands = if is_first { Stands::Inactive } else { second };
        let begins = Step::Begins(Stands::Inactive, milliseconds);
        if !is_taken(&mut patience, &mut number, begins) {
            return false;
        }
        if patience.ends(number, &standing(stands)) != (stands == Stands::Inactive) {
            return false;
        }
    }
    true
}

#[test]
fn timers_grow_and_fall(rt: HostRuntime) {
    assert!(rt;
        are_timers(&INACTIVE, Stands::Inactive),
        "twice as long each"
    );
    assert!(rt;
        are_timers(&TURNS, Stands::Idle),
        "half as long again, down to the shortest"
    );
}
