//! The text of a page, hashed.

ghost use Rattle.std.specs.Prelude.{◌≡◌, IfSome};
ghost use Rattle.sha2.specs.Hashers.{Holds256};
ghost use Rattle.sha2.specs.Sha256.{sha256};

use sha2::{Digest as _, Sha256};
use std::marker::Model;
use terms::Digest;

/// A text, and a hasher that has read it. So a text that begins with this one is hashed from there on.
#[derive(Drop)]
pub struct Text {
    bytes: Vec<u8>,
    hasher: Sha256,
}

impl Model for Text {
    ghost use Rattle.std.specs.Prelude.{ℕ, List};
    ghost use Rattle.sha2.specs.Hashers.{Holds256};

    ghost Value = { List ℕ };

    ghost view = { λ t. t.bytes.items };

    ghost invariant = { λ t. Holds256 t.hasher t.bytes.items };
}

impl Text {
    /// A text, hashed whole.
    pub fn new(bytes: Vec<u8>) -> Text
        ensures { result ≡ bytes.items }
    {
        let mut hasher = Sha256::new();
        hasher.update(bytes.as_slice());
        Text { bytes, hasher }
    }

    /// A text that takes the place of another. If it begins with that one, only the rest is hashed.
    pub fn after(before: &Text, bytes: Vec<u8>) -> Text
        ensures { result ≡ bytes.items }
    {
        match read_on(before, bytes.as_slice()) {
            Some(hasher) => Text { bytes, hasher },
            None => Text::new(bytes),
        }
    }

    /// The text.
    pub fn as_slice(&self) -> &[u8]
        ensures { result.now ≡ self.now }
    {
        self.bytes.as_slice()
    }

    /// The digest of the text.
    pub fn digest(&self) -> Digest
        ensures { result ≡ sha256 self.now }
    {
        copy_of(&self.hasher).finalize()
    }
}

// A hasher that has read the bytes, if they begin with a text.
fn read_on(text: &Text, bytes: &[u8]) -> Option<Sha256>
    ensures { IfSome result (λ hasher. Holds256 hasher bytes.now) }
{
    match bytes.strip_prefix(text.as_slice()) {
        Some(rest) => {
            let mut hasher = copy_of(&text.hasher);
            hasher.update(rest);
            Some(hasher)
        }
        None => None,
    }
}

// A copy of a hasher's state.
fn copy_of(hasher: &Sha256) -> Sha256
    ensures { result ≡ hasher.now }
{
    match hasher.clone() {
        Ok(copy) => copy,
        Err(_) => unreachable!(),
    }
}
