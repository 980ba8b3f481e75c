//! Keys of parties.

ghost use Rattle.std.specs.Prelude.{◌≡◌, ◌≤◌, IfOk};

use authenticator::{Ring, deal};
use std::alloc::Global;
use terms::{NoMemory, Party};
use test_bytes::seed;

/// The keys of one party under the seed 00 01 .. 1f. One replica of four may be faulty, and there are so many clients.
pub fn own_ring(alloc: Global, clients: u16, me: Party) -> Result<Ring, NoMemory>
    requires { clients ≤ 256 }
    ensures { IfOk result (λ ring. ring.faults ≡ 1) }
{
    let keys = deal(alloc, &seed(), 1, clients, me)?;
    Ring::of_party(alloc, 1, clients, keys)
}
