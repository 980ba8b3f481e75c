//! Laws of the definitions.

ghost use Rattle.signing.specs.Laws.{AuthenticWasOpened, AuthenticWasSigned, OpenedIsAuthentic, PublicsAreDerived, SignedIsAuthentic, SignedWasSigned, SignerIsAuthentic, VerifyingIsDecided};

/// The test of a signature is true exactly if the signature verifies.
pub fn verifying_is_decided()
    ensures { VerifyingIsDecided }
{}

/// The frames that are authentic to a party are those of others that open and, if they are to be signed, have their
/// sender's signature. A view change or new view is authentic to all parties but its sender, or to none.
pub fn receiving()
    ensures opened_is_authentic { OpenedIsAuthentic }
    ensures authentic_was_opened { AuthenticWasOpened }
    ensures signed_is_authentic { SignedIsAuthentic }
    ensures authentic_was_signed { AuthenticWasSigned }
    ensures signed_was_signed { SignedWasSigned }
    ensures signer_is_authentic { SignerIsAuthentic }
{}

/// Of the public keys that a seed gives, each replica's is that of its signing seed.
pub fn publics_are_derived()
    ensures { PublicsAreDerived }
{}
