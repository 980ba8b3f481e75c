//! Laws of the grammar.

ghost use Rattle.wire_format.specs.Words.{ReadsFrames, ReadsBodies, ReadsSaid, ReadsRequests, ReadsBatches};
ghost use Rattle.wire_format.specs.Words.{CarriesFrames, CarriesAll, HasOneFrame, HasOneBody};

/// No spelling of a frame begins another one, and bytes spell at most one body or frame.
pub fn one_spelling()
    ensures frames { HasOneFrame }
    ensures bodies { HasOneBody }
{}

/// The definitions that read a frame, its body, or the requests of a batch give exactly the value that the bytes
/// spell. Those of frames and of what they say hold of any list, the others of lists of bytes.
pub fn reads_what_is_spelled()
    ensures frames { ReadsFrames }
    ensures bodies { ReadsBodies }
    ensures said { ReadsSaid }
    ensures requests { ReadsRequests }
    ensures batches { ReadsBatches }
{}

/// The messages that a message carries are frames themselves, and the definition `carried` leaves none out.
pub fn carries_frames()
    ensures frames { CarriesFrames }
    ensures all { CarriesAll }
{}
