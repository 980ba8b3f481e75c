//! Histories, compared whole.

ghost use Rattle.std.specs.Prelude.{◌≡◌, ◌↔◌, IsTrue};
ghost use Rattle.protocol.specs.System.Trace.{history_of};
ghost use Rattle.protocol.specs.System.Reads.{without_reads};

use crate::entries::{is_same, orders, party_of};
use events::Entry;

/// Whether the entries of the party of this number are its history.
pub(crate) fn is_history(entries: &[Entry], party: u16, history: &[Entry]) -> bool
    ensures { IsTrue result ↔ (history_of party entries.now ≡ history.now) }
{
    let mut at = 0;
    for entry in entries {
        if party_of(entry) == party {
            if at == history.len() {
                return false;
            }
            if !is_same(entry, &history[at]) {
                return false;
            }
            at += 1;
        }
    }
    at == history.len()
}

/// Whether the history without reads is the one of ordering.
pub(crate) fn is_ordering(history: &[Entry], ordering: &[Entry]) -> bool
    ensures { IsTrue result ↔ (without_reads history.now ≡ ordering.now) }
{
    let mut at = 0;
    for entry in history {
        if orders(entry) {
            if at == ordering.len() {
                return false;
            }
            if !is_same(entry, &ordering[at]) {
                return false;
            }
            at += 1;
        }
    }
    at == ordering.len()
}
