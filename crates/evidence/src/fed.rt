//! Laws that show that a schedule takes each step that may come, and what a flush delivers next.

ghost use Rattle.evidence.specs.Fed.{CallsAreFed, DeliveriesAreFed, BytesAreFed, TicksAreFed, SealedAreMade, SignedAreMade, FlushDeliversNext, FlushDeliversNoOther, FlushEnds, FlushesAreFed};

/// After any schedule a correct client with no open call may call. A correct party may get any frame that was made and
/// any bytes, and may have a tick. The schedule feeds each of these with the outputs that follow. A frame that a faulty
/// party may make is the next that can be delivered.
pub fn steps_are_fed()
    ensures calls { CallsAreFed }
    ensures deliveries { DeliveriesAreFed }
    ensures bytes { BytesAreFed }
    ensures ticks { TicksAreFed }
    ensures sealed { SealedAreMade }
    ensures signed { SignedAreMade }
{}

/// A flush delivers the first frame that is left for a correct receiver, to the first such receiver. It goes on so
/// until nothing is left. It feeds no other input, and may come after any schedule.
pub fn a_flush_delivers_in_order()
    ensures next { FlushDeliversNext }
    ensures no_other { FlushDeliversNoOther }
    ensures ends { FlushEnds }
    ensures flushes { FlushesAreFed }
{}
