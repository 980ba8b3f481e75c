//! Counts of replicas, and the laws of quorums. Replicas have the numbers 0 to `3f`, and at most `f` of the `3f + 1`
//! are faulty.
#![tactic(auto)]

ghost use Rattle.quorum.specs.Quorum.{QuorumsMeet, OneIsCorrect};

/// Any two quorums of `2f + 1` replicas have a correct one in common (Castro and Liskov, TOCS 2002, on quorums and
/// certificates).
pub fn quorums_meet()
    ensures meet { QuorumsMeet }
{}

/// Any `f + 1` replicas have a correct one among them (Castro and Liskov, TOCS 2002, on quorums and
/// certificates).
pub fn one_is_correct()
    ensures one { OneIsCorrect }
{}
