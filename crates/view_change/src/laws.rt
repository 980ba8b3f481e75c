//! Laws of the selection over a set of view changes.

ghost use Rattle.view_change.specs.Laws.{SelectsBySet, LargerSetsAllow, EntriesDecide, GapsForbid, StartsAreListed, SizesDecide, NewViewsAreJudged, ChangesAreJudged};

/// A new view may be selected by its set of view changes alone.
pub fn selects_by_set()
    ensures exactly { SelectsBySet }
{}

/// A larger set of view changes allows all that a smaller one does, with null batches after it.
pub fn larger_sets_allow()
    ensures allows { LargerSetsAllow }
{}

/// The entries of a set decide whether a digest may stand.
pub fn entries_decide()
    ensures decide { EntriesDecide }
{}

/// If no batch may stand at a number, there is no selection.
pub fn gaps_forbid()
    ensures forbid { GapsForbid }
    ensures listed { StartsAreListed }
{}

/// All rules depend only on the public keys, the number of faulty replicas and the period.
pub fn sizes_decide()
    ensures decide { SizesDecide }
{}

/// Which view changes and new views a replica refuses, and so which it takes.
pub fn refusals_decide()
    ensures new_views { NewViewsAreJudged }
    ensures changes { ChangesAreJudged }
{}
