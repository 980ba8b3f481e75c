//! Laws of runs.

ghost use Rattle.cluster_run.specs.Room.{AnsweredOperationsTakeEntries};

/// A run in which operations are answered has at least [`least_entries`](crate::least_entries) entries for each of
/// them: its call, its request, the replies of a quorum and its acceptance, each at its client.
pub fn answered_operations_take_entries()
    ensures takes { AnsweredOperationsTakeEntries }
{}
