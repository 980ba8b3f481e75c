//! The example schedules in which views change, with their reports.

use crate::schedules::{Row, are_reported};

const FAULTY_PRIMARY_SETTINGS: &str = r#"# Four replicas, the first of them faulty, and two clients.
f = 1
clients = 2
seed = "000102030405060708090a0b0c0d0e0f101112131415161718191a1b1c1d1e1f"
faulty_replicas = [0]
"#;

const TWO_FACES_SCHEDULE: &str =
    r#"# The primary of view 0 lies: it shows replica 1 one batch for number 1, and replicas 2 and 3 another.
invoke 0 out (1)
invoke 1 out (2)
seal r0 r1 4200000000000000000000000000000000000101000000a500000017410100000000000000000100210101000000000000000100040000dac66d9aaf1789991c241161dd528932451c0142b5efde7c001a6802a7254ab80001538959036992e84e4b3466c6c9dcbde89a45cbdebf8af8ac8b3f0e244a91e395000214e9ef1d3075629db92338068f2991d4fa252fa0fc1ebe05cd126e047d871ba800032f6a2ac079126dac5169d5a05779c513f6778f2a6e1e5e8d95037ceb02c1ca1f
seal r0 r2,r3 4200000000000000000000000000000000000101000000a5000000174101010000000000000001002101010000000000000002000400003d8fb67bbe0be8fde6ce62411d174c029c7401635efdfece256f360d0860f27e000109a3bd044bdff9acd589a3f92ad326a89b188a0a6a46109c51363dbce32852f20002d19f3421bab9064387e08f1f0b0618ebf060f69d3de7abac708cc59d7883ec69000356e516260eb030f217717a0ed1ffb5d47162809d6c42765ff936d141d29de9dd

# Replicas 2 and 3 prepare the second batch, and commit it. Three commits would execute it, but replica 0 says none and
# replica 1 has another batch. So nothing is executed.
flush

# The requests wait, and time goes by: each correct replica moves to view 1. What was prepared has to stay, and the
# primary of view 1, replica 1, doesn't have that batch: it can't begin the view.
tick r1
tick r2
tick r3
flush

# Time goes by again. Replica 2 is the primary of view 2, has the batch, and begins the view with it. The other request
# gets number 2 there.
tick r1
tick r2
tick r3
flush

# What was executed first stands first, for everybody.
invoke 0 rdAll 64 (*)
flush
"#;

const TWO_FACES_REPORT: &str = r#"accepted 103 client 1 time 1 done
accepted 107 client 0 time 1 done
accepted 119 client 0 time 2 all 2 (2) (1)
point 83 client 1 time 1 done
point 95 client 0 time 1 done
point 108 client 0 time 2 all 2 (2) (1)
trace 120
"#;

static ROWS: [Row<'static>; 1] = [(
    FAULTY_PRIMARY_SETTINGS,
    TWO_FACES_SCHEDULE,
    false,
    TWO_FACES_REPORT,
)];

#[test]
fn runs_the_schedules_with_view_changes(rt: HostRuntime) {
    are_reported(&rt, rt.alloc(), &ROWS);
}
