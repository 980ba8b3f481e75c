//! The law that a new view is selected exactly if it meets the rules.

ghost use Rattle.evidence.specs.Selected.{NewViewsMeetTheRules};

/// A new view is selected exactly if it meets the rules: it carries a set of signed view changes for it, within their
/// bounds, of a quorum of different replicas; its start is at or above the low marks of a quorum, and listed
/// by `f + 1`; and it has a batch that may stand for each number up to the greatest prepared within the span, and for
/// none beyond (Castro and Liskov, TOCS 2002, on view changes).
pub fn new_views_are_selected()
    ensures exactly { NewViewsMeetTheRules }
{}
