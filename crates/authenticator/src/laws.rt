//! Laws of the definitions.

ghost use Rattle.authenticator.specs.Laws.{KeysAreOwn, PeersShareKeys, SealedIsAuthentic, SealedOpens};

/// A frame that is sealed for a party is authentic to it, and the party opens it if it knows the sender.
pub fn sealed_frames_open()
    ensures authentic { SealedIsAuthentic }
    ensures opens { SealedOpens }
{}

/// A seed gives a party the keys that it shares with each party that it exchanges frames with, and no others.
pub fn keys_are_shared()
    ensures shared { PeersShareKeys }
    ensures own { KeysAreOwn }
{}
