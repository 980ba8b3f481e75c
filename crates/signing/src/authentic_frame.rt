//! A frame that is authentic to a party.

ghost use Rattle.wire.specs.Headers.{HasBody};
ghost use Rattle.wire_format.specs.Views.{body_data};

use wire::Body;

/// A frame that is authentic to a party: the body, and the bytes, so that whoever carries it on need not write it
/// again.
#[derive(Drop)]
pub struct AuthenticFrame<'b> {
    pub bytes: &'b [u8],
    pub body: Body,
    ghost spelled: { ∥ HasBody bytes.now (body_data body) ∥₁ },
}
