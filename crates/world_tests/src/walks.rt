//! What replicas 0, 1 and 2 get while they carry the calls of client 0, and replica 3 gets nothing of them. It then
//! fetches the state that they came to. Each second number has a checkpoint. Frames stand here by how many were made
//! between the request, or the first frame of a part, and them.

/// The deliveries of a call whose number has no checkpoint, which makes ten frames: the request, the pre-prepare, the
/// prepares of 1 and 2, the commits of 2, 0 and 1, and the replies of 1, 0 and 2 to client 0, which is 256.
pub const CARRIED: &[(u64, u16)] = &[
    (0, 0),
    (1, 1),
    (1, 2),
    (2, 0),
    (2, 2),
    (3, 0),
    (3, 1),
    (4, 0),
    (4, 1),
    (5, 1),
    (5, 2),
    (6, 0),
    (6, 2),
    (7, 256),
    (8, 256),
    (9, 256),
];

/// The same if it has one: then a checkpoint follows each reply, which makes 13 frames, and goes to the other two.
pub const CARRIED_TO_CHECKPOINT: &[(u64, u16)] = &[
    (0, 0),
    (1, 1),
    (1, 2),
    (2, 0),
    (2, 2),
    (3, 0),
    (3, 1),
    (4, 0),
    (4, 1),
    (5, 1),
    (5, 2),
    (6, 0),
    (6, 2),
    (7, 256),
    (9, 256),
    (11, 256),
    (8, 0),
    (8, 2),
    (10, 1),
    (10, 2),
    (12, 0),
    (12, 1),
];

/// Replica 3 gets the checkpoints of that call, and asks for the root's digests.
pub const CHECKPOINTS: &[(u64, u16)] = &[(8, 3), (10, 3), (12, 3)];

/// Replica 0 gets replica 3's fetch, and replica 3 gets the answer: two frames.
pub const ONE_PART: &[(u64, u16)] = &[(0, 0), (1, 3)];

/// That four times.
pub const FOUR_PARTS: &[(u64, u16)] = &[
    (0, 0),
    (1, 3),
    (2, 0),
    (3, 3),
    (4, 0),
    (5, 3),
    (6, 0),
    (7, 3),
];
