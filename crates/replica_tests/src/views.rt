//! A replica that moves to later views: its view changes, those of others, and new views.

use crate::answers::holds;
use crate::frames::Sent;
use crate::replicas::{Given, Row, runs};
use crate::signed::{Change, NewViewCase};
use crate::states::ROOT;

/// The first view change, to view 1, of a replica that has ordered nothing.
const NOTHING: Change = Change {
    sender: 0,
    leaf: 0,
    view: 1,
    low: 0,
    kept: &[0],
    prepared: &[],
    logged: &[],
    is_forged: false,
};

// ---- time goes by

const TO_1: Change = Change {
    sender: 2,
    ..NOTHING
};

const TO_2: Change = Change {
    sender: 2,
    leaf: 1,
    view: 2,
    ..NOTHING
};

/// Replica 2 does nothing as long as no request waits. If one does, it moves to the next view each time, and sends
/// its view change again when the request comes again.
pub static IN_TIME: [Row<'static>; 7] = [
    (Sent::Nothing, &[]),
    (Sent::Request(1), &[]),
    (Sent::Nothing, &[Given::Sends(Sent::ViewChange(&TO_1))]),
    (Sent::Request(1), &[Given::Sends(Sent::ViewChange(&TO_1))]),
    (Sent::Nothing, &[Given::Sends(Sent::ViewChange(&TO_2))]),
    (Sent::Request(1), &[Given::Sends(Sent::ViewChange(&TO_2))]),
    (Sent::ViewChange(&TO_2), &[]),
];

#[test]
fn time_goes_by(rt: HostRuntime) {
    holds(&rt, runs(rt.alloc(), 2, 16, &[&IN_TIME]));
}

const LOGGED_TWO: Change = Change {
    sender: 1,
    prepared: &[(1, 0)],
    logged: &[(1, 0), (2, 0)],
    ..NOTHING
};

// Replica 1 logs two batches, and prepares the first. Its view change says so, and it goes no further in the view that
// it has left.
static LEAVES: [Row<'static>; 9] = [
    (Sent::PrePrepare(1), &[Given::Sends(Sent::Prepare(1, 1))]),
    (Sent::Prepare(1, 2), &[Given::Sends(Sent::Commit(1, 1))]),
    (Sent::PrePrepare(2), &[Given::Sends(Sent::Prepare(2, 1))]),
    (Sent::Request(3), &[]),
    (
        Sent::Nothing,
        &[Given::Sends(Sent::ViewChange(&LOGGED_TWO))],
    ),
    (Sent::Prepare(2, 2), &[]),
    (Sent::Commit(1, 0), &[]),
    (Sent::Commit(1, 2), &[]),
    (Sent::PrePrepare(3), &[]),
];

#[test]
fn a_view_is_left(rt: HostRuntime) {
    holds(&rt, runs(rt.alloc(), 1, 16, &[&LEAVES]));
}

// ---- others move

const OF_0: Change = Change { view: 3, ..NOTHING };

const OF_1: Change = Change {
    sender: 1,
    view: 2,
    ..NOTHING
};

const OF_2: Change = Change {
    sender: 2,
    view: 2,
    ..NOTHING
};

const OF_3: Change = Change {
    sender: 3,
    view: 2,
    ..NOTHING
};

const VIEW_2: NewViewCase = NewViewCase {
    sender: 2,
    leaf: 1,
    view: 2,
    changes: &[OF_1, OF_2, OF_3],
    start: 0,
    batches: &[],
    is_forged: false,
};

const NEXT: Change = Change {
    sender: 2,
    leaf: 2,
    view: 3,
    logged: &[(1, 2)],
    ..NOTHING
};

/// Replica 0 moves to view 3 and replica 1 to view 2: so replica 2 moves to the lesser of these. It is the primary of
/// view 2, and begins it when replica 3 has moved there too. It numbers a request, says the new view and the number
/// again when the request comes again, and its next view change is signed by the third of its keys.
pub static JOINS: [Row<'static>; 7] = [
    (Sent::ViewChange(&OF_0), &[]),
    (
        Sent::ViewChange(&OF_1),
        &[Given::Sends(Sent::ViewChange(&OF_2))],
    ),
    (Sent::ViewChange(&OF_1), &[]),
    (
        Sent::ViewChange(&OF_3),
        &[Given::Sends(Sent::NewView(&VIEW_2))],
    ),
    (Sent::Request(1), &[Given::Sends(Sent::PrePrepareIn(2, 1))]),
    (
        Sent::Request(1),
        &[
            Given::Sends(Sent::NewView(&VIEW_2)),
            Given::Sends(Sent::PrePrepareIn(2, 1)),
        ],
    ),
    (Sent::Nothing, &[Given::Sends(Sent::ViewChange(&NEXT))]),
];

#[test]
fn others_move(rt: HostRuntime) {
    holds(&rt, runs(rt.alloc(), 2, 16, &[&JOINS]));
}

// ---- new views

// Replicas 0, 1 and 2 prepared number 1 in view 0, and move to view 1.
const PREPARED_0: Change = Change {
    prepared: &[(1, 0)],
    logged: &[(1, 0)],
    ..NOTHING
};

const PREPARED_1: Change = Change {
    sender: 1,
    ..PREPARED_0
};

const PREPARED_2: Change = Change {
    sender: 2,
    ..PREPARED_0
};

const ELSEWHERE: Change = Change {
    leaf: 1,
    view: 2,
    ..PREPARED_2
};

const FORGED: Change = Change {
    is_forged: true,
    ..PREPARED_2
};

const RIGHT: NewViewCase = NewViewCase {
    sender: 1,
    leaf: 0,
    view: 1,
    changes: &[PREPARED_0, PREPARED_1, PREPARED_2],
    start: 0,
    batches: &[1],
    is_forged: false,
};

// New views that are not taken: those of another sender, or of another sender's view; over two view changes, over one
// for another view, and over two of one sender; with the null batch in place of a prepared one, with another batch,
// with none, and with one more; from a state that nobody lists; with a wrong signature, and over a view change that
// has one.
static WRONG: [Row<'static>; 12] = [
    (Sent::NewView(&NewViewCase { sender: 2, ..RIGHT }), &[]),
    (Sent::NewView(&NewViewCase { view: 2, ..RIGHT }), &[]),
    (
        Sent::NewView(&NewViewCase {
            changes: &[PREPARED_0, PREPARED_1],
            ..RIGHT
        }),
        &[],
    ),
    (
        Sent::NewView(&NewViewCase {
            changes: &[PREPARED_0, PREPARED_1, ELSEWHERE],
            ..RIGHT
        }),
        &[],
    ),
    (
        Sent::NewView(&NewViewCase {
            changes: &[PREPARED_0, PREPARED_1, PREPARED_1],
            ..RIGHT
        }),
        &[],
    ),
    (
        Sent::NewView(&NewViewCase {
            batches: &[0],
            ..RIGHT
        }),
        &[],
    ),
    (
        Sent::NewView(&NewViewCase {
            batches: &[2],
            ..RIGHT
        }),
        &[],
    ),
    (
        Sent::NewView(&NewViewCase {
            batches: &[],
            ..RIGHT
        }),
        &[],
    ),
    (
        Sent::NewView(&NewViewCase {
            batches: &[1, 0],
            ..RIGHT
        }),
        &[],
    ),
    (Sent::NewView(&NewViewCase { start: 1, ..RIGHT }), &[]),
    (
        Sent::NewView(&NewViewCase {
            is_forged: true,
            ..RIGHT
        }),
        &[],
    ),
    (
        Sent::NewView(&NewViewCase {
            changes: &[PREPARED_0, PREPARED_1, FORGED],
            ..RIGHT
        }),
        &[],
    ),
];

/// Replica 3 takes the right one, once. In view 1 the batch of number 1 is prepared, committed and executed.
pub static BEGINS: [Row<'static>; 7] = [
    (
        Sent::NewView(&RIGHT),
        &[Given::Sends(Sent::PrepareIn(1, 1, 3))],
    ),
    (Sent::NewView(&RIGHT), &[]),
    (Sent::Commit(1, 0), &[]),
    (
        Sent::PrepareIn(1, 1, 0),
        &[Given::Sends(Sent::CommitIn(1, 1, 3))],
    ),
    (Sent::PrepareIn(1, 1, 1), &[]),
    (Sent::CommitIn(1, 1, 0), &[]),
    (
        Sent::CommitIn(1, 1, 1),
        &[Given::Executes(1), Given::Sends(Sent::Reply(1, 3))],
    ),
];

#[test]
fn new_views_come(rt: HostRuntime) {
    holds(&rt, runs(rt.alloc(), 3, 16, &[&WRONG, &BEGINS]));
}

const LEFT_0: Change = Change {
    sender: 3,
    ..NOTHING
};

const LEFT_1: Change = Change {
    sender: 3,
    leaf: 1,
    view: 2,
    ..NOTHING
};

// Replica 3 has moved to view 2, and takes no new view of view 1.
static BELOW: [Row<'static>; 4] = [
    (Sent::Request(1), &[]),
    (Sent::Nothing, &[Given::Sends(Sent::ViewChange(&LEFT_0))]),
    (Sent::Nothing, &[Given::Sends(Sent::ViewChange(&LEFT_1))]),
    (Sent::NewView(&RIGHT), &[]),
];

#[test]
fn a_new_view_below_its_target(rt: HostRuntime) {
    holds(&rt, runs(rt.alloc(), 3, 16, &[&BELOW]));
}

// ---- a start that is ahead

// Replicas 0, 1 and 2 executed number 1, and prepared number 2.
const AHEAD_0: Change = Change {
    low: 1,
    kept: &[1],
    prepared: &[(2, 0)],
    logged: &[(2, 0)],
    ..NOTHING
};

const AHEAD_1: Change = Change {
    sender: 1,
    ..AHEAD_0
};

const AHEAD_2: Change = Change {
    sender: 2,
    ..AHEAD_0
};

const AHEAD: NewViewCase = NewViewCase {
    sender: 1,
    leaf: 1,
    view: 1,
    changes: &[AHEAD_0, AHEAD_1, AHEAD_2],
    start: 1,
    batches: &[2],
    is_forged: false,
};

// Replica 3's view change then: it keeps no state from the mark 1 on yet.
const BEHIND: Change = Change {
    sender: 3,
    view: 2,
    low: 1,
    kept: &[],
    logged: &[(2, 1)],
    ..NOTHING
};

// It fetches the state of number 1 first and prepares number 2 then. When time goes by it asks for the part again
// before it moves on.
static FETCHES: [Row<'static>; 4] = [
    (
        Sent::NewView(&AHEAD),
        &[
            Given::Sends(Sent::Fetch(1, ROOT, 3)),
            Given::Sends(Sent::PrepareIn(1, 2, 3)),
        ],
    ),
    (Sent::Nothing, &[Given::Sends(Sent::Fetch(1, ROOT, 3))]),
    (Sent::Request(3), &[]),
    (
        Sent::Nothing,
        &[
            Given::Sends(Sent::Fetch(1, ROOT, 3)),
            Given::Sends(Sent::ViewChange(&BEHIND)),
        ],
    ),
];

#[test]
fn a_start_that_is_ahead(rt: HostRuntime) {
    holds(&rt, runs(rt.alloc(), 3, 1, &[&FETCHES]));
}
