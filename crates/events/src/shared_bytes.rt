//! Bytes that several owners share.

ghost use Rattle.std.specs.Prelude.{◌≡◌, IfOk};

use std::marker::Model;
use std::sync::ArcSlice;
use terms::NoMemory;

/// Bytes with several owners, in any threads. A frame lies in memory once, from its sending to the trace, and until its
/// last owner is dropped.
#[derive(Drop)]
pub struct SharedBytes {
    bytes: ArcSlice<u8>,
}

impl Model for SharedBytes {
    ghost use Rattle.std.specs.Arc.{arc_slice_items};
    ghost use Rattle.std.specs.Prelude.{ℕ, List};

    ghost Value = { List ℕ };

    ghost view = { λ s. arc_slice_items s.bytes };
}

impl SharedBytes {
    /// The bytes, with one owner. They are not copied. NoMemory if memory runs out.
    pub fn new(bytes: Vec<u8>) -> Result<SharedBytes, NoMemory>
        ensures { IfOk result (λ shared. shared ≡ bytes.items) }
    {
        let bytes = ArcSlice::from_vec(bytes)?;
        Ok(SharedBytes { bytes })
    }

    /// The same bytes for one more owner. They are not copied, and no memory is taken. NoMemory only if they have more
    /// owners than can be counted.
    pub fn share(&self) -> Result<SharedBytes, NoMemory>
        ensures { IfOk result (λ shared. shared ≡ self.now) }
    {
        let bytes = self.bytes.clone()?;
        Ok(SharedBytes { bytes })
    }

    /// The bytes.
    pub fn as_slice(&self) -> &[u8]
        ensures value { result.now ≡ self.now }
    {
        self.bytes.as_slice()
    }
}
