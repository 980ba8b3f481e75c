//! Laws of what a history certifies, and of a state that is installed by it.

ghost use Rattle.evidence.specs.ExamplesOfInstalling.{StateIsInstalled};
ghost use Rattle.evidence.specs.Certified.{ExecutesWithOwnCommit, ExecutesNotByOthersAlone, ExecutesWhatItCommits, TakesLater, TakesInOrder, LogsInMarks, LogsWhatBegins, LeavesNoGap, PreparedRemains, CommittedRemains};

/// A replica executes no batch before it committed the batch itself: the commits of the others alone, however many,
/// are not enough. If no message of a correct party is forged, it sent that commit.
pub fn own_commits_count()
    ensures own { ExecutesWithOwnCommit }
    ensures others { ExecutesNotByOthersAlone }
    ensures sent { ExecutesWhatItCommits }
{}

/// A replica takes a new view only above its own view, and not below a view change that it sent. So it takes none
/// twice.
pub fn taken_views_ascend()
    ensures later { TakesLater }
    ensures order { TakesInOrder }
{}

/// Each batch that an entry of a safe history logs is above the low mark, and at most two periods above it. Each batch
/// above the low mark in a new view that is taken is logged. At the primary of a view its batches leave no gap above
/// the low mark.
pub fn logged_batches_are_in_marks()
    ensures marks { LogsInMarks }
    ensures assigned { LogsWhatBegins }
    ensures gaps { LeavesNoGap }
{}

/// A batch that is prepared or committed at a replica stays so, whatever the replica gets later.
pub fn certificates_stay()
    ensures prepared { PreparedRemains }
    ensures committed { CommittedRemains }
{}

/// A replica that is behind may install the state whose root three checkpoints have. Before that it asks for the one
/// page that differs from its own, and gets it.
pub fn a_state_is_installed()
    ensures installed { StateIsInstalled }
{}
