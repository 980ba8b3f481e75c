//! Drills: the behaviour of a cluster's faulty replicas.

ghost use Rattle.std.specs.Prelude.{◌≡◌, ◌↔◌, ◌==◌, IsTrue};
ghost use Rattle.std.specs.List.{list_any};
ghost use Rattle.quorum.specs.Quorum.{member};
ghost use Rattle.protocol.specs.System.Configuration.{IsConfiguration, is_faulty_replica};
ghost use Rattle.space_node.specs.Drills.{IsDrilled, MayStart, are_faulty_once, replicas_of};

use crate::faultless::has_correct_clients;
use events::Config;
use terms::ReplicaId;

/// The behaviour of a faulty replica, in place of its part.
#[derive(Clone, Copy, Debug, PartialEq, Eq, Drop)]
pub enum Drill {
    /// It takes frames and sends nothing.
    Silent,
    /// It answers each read from the empty space, as from the state of number 0, and does nothing else.
    Stale,
}

/// Whether a cluster may start with these drills: each faulty replica of the configuration has one, no other replica
/// has, and no client is faulty.
pub fn may_start(config: &Config, drills: &[(u16, Drill)]) -> bool
    ensures { IsTrue result ↔ MayStart config.now (replicas_of drills.now) }
{
    // Tells a proof that the configuration is valid.
    let _faults = config.faults();
    has_correct_clients(config) && are_of_faulty(config, drills) && is_drilled(config, drills)
}

// Whether the drills are of faulty replicas, no two of the same.
fn are_of_faulty(config: &Config, drills: &[(u16, Drill)]) -> bool
    requires valid { IsConfiguration config.now }
    ensures { result ≡ are_faulty_once config.now (replicas_of drills.now) }
{
    let [first, rest @ ..] = drills else {
        return true;
    };
    is_faulty(config, first.0) && !is_named(rest, first.0) && are_of_faulty(config, rest)
}

// Whether each faulty replica has a drill.
fn is_drilled(config: &Config, drills: &[(u16, Drill)]) -> bool
    requires valid { IsConfiguration config.now }
    ensures { IsTrue result ↔ IsDrilled config.now (replicas_of drills.now) }
{
    for number in 0..u16::from(config.replicas()) {
        if is_faulty(config, number) && !is_named(drills, number) {
            return false;
        }
    }
    true
}

fn is_faulty(config: &Config, number: u16) -> bool
    requires valid { IsConfiguration config.now }
    ensures { result ≡ is_faulty_replica config.now number }
{
    number < u16::from(config.replicas()) && !config.is_correct_replica(number)
}

// Whether one of the drills is of the replica of this number.
fn is_named(drills: &[(u16, Drill)], number: u16) -> bool
    ensures { result ≡ member (replicas_of drills.now) number }
{
    is_any(drills, number)
}

fn is_any(drills: &[(u16, Drill)], number: u16) -> bool
    ensures { result ≡ list_any (λ d. d.0 == number) drills.now }
{
    drills.iter().any(|drill| drill.0 == number)
}

/// The drill of the replica, if it has one.
pub(crate) fn drill_of(drills: &[(u16, Drill)], replica: ReplicaId) -> Option<Drill> {
    for drill in drills {
        if drill.0 == u16::from(replica.0) {
            return Some(drill.1);
        }
    }
    None
}
