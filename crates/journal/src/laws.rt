//! Laws of a journal's trace.

ghost use Rattle.journal.specs.Laws.{CarriedIsUnforged};

/// If no party is faulty, a run in which all received frames were sent is unforged. That is: the sender of each
/// frame, alone or carried, sent it, and whatever a correct party sends names it as sender.
pub fn carried_is_unforged()
    ensures unforged { CarriedIsUnforged }
{}
