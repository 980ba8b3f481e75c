//! A line that asks for help.

ghost use Rattle.std.specs.Prelude.{◌≡◌, ◌≢◌, ◌<◌, ◌≤◌, ◌↔◌, ℕ, IsTrue, length, slice_index};
ghost use Rattle.one_space.specs.Run.{IsHelp};

use crate::pieces::is_blank;
use tuple_text::MAX_LINE;

// The word that asks for help.
const HELP: &[u8] = b"help";

/// Whether the line is `help`, with blanks at both ends or without.
pub fn is_help(line: &[u8]) -> bool
    ensures { IsTrue result ↔ IsHelp line.now }
{
    if line.len() > MAX_LINE {
        return false;
    }
    let (_, word) = line.split_at(blanks_before(line));
    match word.strip_prefix(HELP) {
        Some(rest) => is_blank(rest),
        None => false,
    }
}

// How many blanks stand before the first other byte, or how many there are.
fn blanks_before(line: &[u8]) -> usize
    ensures within { result ≤ length line.now }
    ensures before { (k : ℕ) → k < result → slice_index line.now k ≡ 32 }
    ensures found { result < length line.now → slice_index line.now result ≢ 32 }
{
    match line.iter().position(|byte| *byte != b' ') {
        Some(place) => place,
        None => line.len(),
    }
}
