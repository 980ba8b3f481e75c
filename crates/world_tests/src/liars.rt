//! Runs in which a replica or a client is faulty.

use crate::reports::{REPLY, TIMESTAMP};
use crate::runs::{Check, Part, Run, come_out};
use crate::worlds::{CLIENT, PRIMARY_AND_CLIENT, PRIMARY_AND_ONE_CLIENT};

const AND_READ: Part<'static> = Part::Lines(&["flush", "invoke 0 rdAll 64 (*)", "flush"]);

static LIES: [Run<'static>; 5] = [
    // Client 1 makes two requests of timestamp 5: `out (1)` and `out (2)`. Of these the first one is numbered, and the
    // other is dropped. With MACs for two replicas alone neither is executed.
    Run {
        world: CLIENT,
        parts: &[
            Part::Lines(&["seal c1 r0,r1,r2,r3 4101010000000000000005002101010000000000000001"]),
            Part::Lines(&["seal c1 r0,r1,r2,r3 4101010000000000000005002101010000000000000002"]),
            AND_READ,
        ],
        refused: None,
        checks: &[
            Check::Execute(&[0, 1, 2, 3], &[(1, 1)]),
            Check::Accepts(&[(0, 1, "all 1 (1)")]),
        ],
    },
    Run {
        world: CLIENT,
        parts: &[
            Part::Lines(&["seal c1 r0,r1 4101010000000000000005002101010000000000000001"]),
            Part::Lines(&["seal c1 r0,r1 4101010000000000000005002101010000000000000002"]),
            AND_READ,
        ],
        refused: None,
        checks: &[
            Check::Execute(&[0, 1, 2, 3], &[]),
            Check::Accepts(&[(0, 1, "all 0")]),
        ],
    },
    FOR_TWO,
    ONE_TWICE,
    FIVE_AND_SIX,
];

// Client 1 makes a request with MACs for replicas 0 and 1 alone. Replica 0 numbers it and replica 1 prepares it. The
// other two drop the pre-prepare, so that is all.
const FOR_TWO: Run<'static> = Run {
    world: CLIENT,
    parts: &[
        Part::Lines(&["seal c1 r0,r1 4101010000000000000005002101010000000000000001"]),
        Part::Lines(&["flush"]),
    ],
    refused: None,
    checks: &[Check::Senders(&[0, 1]), Check::Execute(&[0, 1, 2, 3], &[])],
};

// Replica 0 is faulty, and puts the request `out (1)` of client 0 into a batch twice; then client 0 reads. The batch
// has two requests; each correct replica replies to each call once.
const ONE_TWICE: Run<'static> = Run {
    world: PRIMARY_AND_ONE_CLIENT,
    parts: &[
        Part::Lines(&["invoke 0 out (1)"]),
        Part::Lines(&[
            "seal r0 r1,r2,r3 4200000000000000000000000000000000000102000000a5000000174101000000000000000001002101010000000000000001000400007cc28ce19919cf0d141afdbd73eaeb5c738096d541e90c312e97824f26f7281e000122a3ddf970121bf5161d1bda29a94fe1eda4dd5d89bbe015037dd302cd3ba56d00020e767e5925f4fa5bccb6ebbf88f58fccd1b0e163ee0c411c1fb11f33941f9cc90003c65927450584976d7743d4d71457cb0550a08931851e96ade13428416ba0fc09000000a5000000174101000000000000000001002101010000000000000001000400007cc28ce19919cf0d141afdbd73eaeb5c738096d541e90c312e97824f26f7281e000122a3ddf970121bf5161d1bda29a94fe1eda4dd5d89bbe015037dd302cd3ba56d00020e767e5925f4fa5bccb6ebbf88f58fccd1b0e163ee0c411c1fb11f33941f9cc90003c65927450584976d7743d4d71457cb0550a08931851e96ade13428416ba0fc09",
        ]),
        AND_READ,
    ],
    refused: None,
    checks: &[
        Check::Execute(&[1, 2, 3], &[(1, 2)]),
        Check::Texts((1, REPLY, TIMESTAMP), None, &[&[1], &[2]]),
        Check::Texts((2, REPLY, TIMESTAMP), None, &[&[1], &[2]]),
        Check::Texts((3, REPLY, TIMESTAMP), None, &[&[1], &[2]]),
        Check::Accepts(&[(0, 1, "done"), (0, 2, "all 1 (1)")]),
    ],
};

// Replica 0 and client 1 are faulty, and a batch has requests of client 1 of timestamps 5 and 6; then client 0 reads.
// Each replica replies to timestamps 5 and 6 of client 1, and then to timestamp 1 of client 0.
const FIVE_AND_SIX: Run<'static> = Run {
    world: PRIMARY_AND_CLIENT,
    parts: &[
        Part::Lines(&[
            "seal r0 r1,r2,r3 4200000000000000000000000000000000000102000000a5000000174101010000000000000005002101010000000000000005000400007fd9b5239a3ca48c4477a208c7918e31887d27a7c356d5b0558deec854cd8d8c0001891267df3a3006cbc8c1799878e53d716a602bfd7cf08cf6258440963fe967840002a30ae7da58bcbab6a99485048a4137b49155e24c410b2cac11acfa6dd06cd22000036237cecc74740754a905d0e777d5ac6f4ed8d19c9cb1e4dd3e9636d370b19445000000a500000017410101000000000000000600210101000000000000000600040000c08ce6e64717cb2f9f769be0f626a0e3b0a0527692047ffb09fa7b14d1fbecdb000178813ddfe75fe806abc321fc7ee4434932fd155fe6b7764709610794eb8a0d2900026f3c37172b58d6ae020736193731cd91901c602a3da3d6e34231398ea606611500035838ae45800540362f2f687ad05e34c9360c8c1ac51560e37be4fe9768b9181c",
        ]),
        AND_READ,
    ],
    refused: None,
    checks: &[
        Check::Execute(&[1, 2, 3], &[(1, 2)]),
        Check::Texts((1, REPLY, TIMESTAMP), None, &[&[5], &[6], &[1]]),
        Check::Texts((2, REPLY, TIMESTAMP), None, &[&[5], &[6], &[1]]),
        Check::Texts((3, REPLY, TIMESTAMP), None, &[&[5], &[6], &[1]]),
        Check::Accepts(&[(0, 1, "all 2 (5) (6)")]),
    ],
};

#[test]
fn faulty_parties_lie(rt: HostRuntime) {
    come_out(&rt, rt.alloc(), &LIES);
}
