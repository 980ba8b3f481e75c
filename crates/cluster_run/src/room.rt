//! The room that operations take in a journal.

ghost use Rattle.std.specs.Prelude.{◌≡◌};
ghost use Rattle.cluster_run.specs.Room.{least_entries};

use events::Config;

/// An operation that is answered takes at least so many entries: its call, its request, the replies of a quorum and its
/// acceptance, each at its client. The law
/// [`answered_operations_take_entries`](crate::answered_operations_take_entries) says so. What the replicas do for it
/// comes on top of that.
pub fn least_entries(config: &Config) -> u32
    ensures { result ≡ least_entries config.now }
{
    2 * u32::from(config.faults()) + 4
}
