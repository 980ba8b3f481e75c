//! Authentication of messages.
//!
//! # What is proved
//!
//! `hmac` is RFC 2104's over FIPS 180-4, a `Key` that is made ready gives the same for one text or four at once, and
//! `same` holds exactly of equal MACs. `Ring::seal` gives the frame of a body with a MAC for each receiver, under the
//! key from its sender. It refuses a frame as too large exactly if it is.
//!
//! `Ring::open` gives the frame that the bytes spell, exactly if its sender takes part and may send such a message
//! and the receiver's entry is right or the frame is signed. Otherwise the refusal holds; memory runs out only for a
//! frame that opens. `Ring::refusal` judges a frame by its header alone. `sealed_frames_open` is the law that a
//! sealed frame opens at each receiver that knows its sender.
#![tactic(auto)]

mod laws;
mod mac;
mod ring;
mod row;
mod sealed;

pub use laws::{keys_are_shared, sealed_frames_open};
pub use mac::{Key, hmac, same};
pub use ring::Ring;
pub use row::{SharedKey, deal, signing_seed};
pub use sealed::{OpenFault, Opened, SealFault};
