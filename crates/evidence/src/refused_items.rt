//! Laws that show which lists of items are not linear, and which traces are not linearizable.

ghost use Rattle.evidence.specs.RefusedItems.{AnswersAsOneSpace, ListsWhatIsAccepted, ListsWhatIsCalled, ListsWhatIsAsked, ListsNoneTwice, PlacesInOrder, PlacesBehindCalls, PlacesBeforeAcceptances, LinearIsAllThree, WritesAreSeen, ReadsAreNotEarly};
ghost use Rattle.evidence.specs.FirstOperation.{FirstOperationHasItsPoint};
ghost use Rattle.evidence.specs.FirstReads.{ReadsHaveTheirPoints};

/// Each answer of a legal list is that of one space. A list that covers a trace has each operation that a correct
/// client accepted, with that answer. It has nothing of a correct client that the client did not call. It has nothing
/// of a faulty client that no correct replica was asked for by then, and nothing twice. The positions of a placed list
/// never fall, and a correct client's are between call and acceptance. A linear list is legal, covers the trace and is
/// placed.
pub fn lists_are_refused()
    ensures answers { AnswersAsOneSpace }
    ensures accepted { ListsWhatIsAccepted }
    ensures called { ListsWhatIsCalled }
    ensures asked { ListsWhatIsAsked }
    ensures none_twice { ListsNoneTwice }
    ensures in_order { PlacesInOrder }
    ensures behind { PlacesBehindCalls }
    ensures before { PlacesBeforeAcceptances }
    ensures linear { LinearIsAllThree }
{}

/// A trace is not linearizable if a read misses a tuple that was written before the read was called. Nor is it if a
/// read finds a tuple that is written only after the read was accepted.
pub fn traces_are_refused()
    ensures seen { WritesAreSeen }
    ensures not_early { ReadsAreNotEarly }
{}

/// The points of a client's first operation at four replicas are its one item, with the empty space's answer, at the
/// position at which the third replica executes it.
pub fn a_first_operation_has_its_point()
    ensures point { FirstOperationHasItsPoint }
{}

/// Reads that clients call before that operation have their points where the third replica executes it. They stand
/// after it, in the order of their clients. A read that a client calls after it has its point where it is called.
pub fn first_reads_have_their_points()
    ensures points { ReadsHaveTheirPoints }
{}
