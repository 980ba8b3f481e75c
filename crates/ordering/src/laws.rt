//! Laws of what a log answers after a change.

ghost use Rattle.ordering.specs.Laws.{FirstVotesCount, BatchesAreLogged, PreparesCount, CommitsCount, CutsKeep, CommittedStay};

/// The first vote of each sender counts.
pub fn first_votes_count()
    ensures first { FirstVotesCount }
{}

/// A taken message changes the answers at its number as it should, and at no other.
pub fn messages_are_read()
    ensures batches { BatchesAreLogged }
    ensures prepares { PreparesCount }
    ensures commits { CommitsCount }
{}

/// A cut keeps the entries within the marks before and after it.
pub fn cuts_keep()
    ensures keep { CutsKeep }
{}

/// In a later view nothing is logged or voted for yet, and each committed batch stays.
pub fn committed_stay()
    ensures stay { CommittedStay }
{}
