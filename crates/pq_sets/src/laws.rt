//! The law of a replica's sets P and Q over its history.

ghost use Rattle.pq_sets.specs.Recording.{RecordsBegin, PreparedIsRecorded, LoggedIsRecorded, RecordsAreLists};

/// A replica's sets P and Q stay what its history says, and are what a view change lists.
pub fn pq_sets_are_recorded()
    ensures begin { RecordsBegin }
    ensures prepared { PreparedIsRecorded }
    ensures logged { LoggedIsRecorded }
    ensures lists { RecordsAreLists }
{}
