//! A page to set.

ghost use Rattle.std.specs.Prelude.{◌<◌};

/// A page's index, 0 to 1,023, and its new text.
#[derive(Drop)]
pub struct Page {
    pub index: usize,
    pub text: Vec<u8>,
    ghost in_range: { index < 1024 },
}
