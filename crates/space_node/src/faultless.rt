//! Configurations of a cluster.

ghost use Rattle.std.specs.Prelude.{◌≡◌, ◌↔◌, ◌+◌, [], IfOk, IsTrue};
ghost use Rattle.protocol.specs.System.Configuration.{IsConfiguration};
ghost use Rattle.space_node.specs.Runs.{IsFaultless, Serves};

use events::Config;
use std::alloc::Global;
use terms::{FIRST_CLIENT, NoMemory, ReplicaId};

/// Whether the configuration names no party as faulty. A cluster without drills starts only then.
pub fn is_faultless(config: &Config) -> bool
    ensures { IsTrue result ↔ IsFaultless config.now }
{
    // Tells a proof that the configuration is valid.
    let _faults = config.faults();
    has_correct_replicas(config) && has_correct_clients(config)
}

/// The replicas that the configuration doesn't name as faulty, in the order of their numbers.
pub(crate) fn correct_replicas(alloc: Global, config: &Config) -> Result<Vec<ReplicaId>, NoMemory>
    ensures { IfOk result (λ replicas. Serves config.now replicas.items) }
{
    // Tells a proof that the configuration is valid.
    let _faults = config.faults();
    let mut replicas = Vec::new(alloc);
    for number in 0..config.replicas() {
        if config.is_correct_replica(u16::from(number)) {
            replicas.push(ReplicaId(number))?;
        }
    }
    Ok(replicas)
}

fn has_correct_replicas(config: &Config) -> bool
    requires valid { IsConfiguration config.now }
    ensures { IsTrue result ↔ (config.now.faulty_replicas ≡ []) }
{
    for number in 0..u16::from(config.replicas()) {
        if !config.is_correct_replica(number) {
            return false;
        }
    }
    true
}

/// Whether no client is named as faulty.
pub(crate) fn has_correct_clients(config: &Config) -> bool
    requires valid { IsConfiguration config.now }
    ensures { IsTrue result ↔ (config.now.faulty_clients ≡ []) }
{
    for number in FIRST_CLIENT..FIRST_CLIENT + config.clients() {
        if !config.is_correct_client(number) {
            return false;
        }
    }
    true
}
