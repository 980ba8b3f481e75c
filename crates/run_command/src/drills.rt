//! The drills of a cluster's faulty replicas.

ghost use Rattle.std.specs.Prelude.{◌≡◌, ◌==◌, ◌++◌, IfOk, MatchOption, OnOk};
ghost use Rattle.std.specs.List.{flat_map, list_any};
ghost use Rattle.quorum.specs.Quorum.{member};
ghost use Rattle.space_node.specs.Drills.{replicas_of};
ghost use Rattle.run_command.specs.Drilled.{EndsDrilled, IsDrillFault, IsDrilledFor, MayBeDrilled};
ghost use Rattle.run_command.specs.Drilled.{drill_asked, drills_asked, one_asked};
ghost use Rattle.run_command.specs.Judging.{first_wrong};

use crate::running::RunFault;
use cluster_run::{Drill, is_faultless};
use command_line::{DrillKind, Drilled, Drills};
use config_text::Settings;
use events::Config;
use std::alloc::Global;
use terms::NoMemory;
use thiserror::Error;

/// Why no cluster of a configuration has these drills.
#[derive(Clone, Copy, Debug, PartialEq, Eq, Error)]
pub enum DrillFault {
    /// There are more drills than faults.
    #[error("at most {most} of {replicas} replicas may be faulty")]
    TooMany { most: u8, replicas: u8 },
    #[error("there is no replica {replica} among {replicas}")]
    NoReplica { replica: u16, replicas: u8 },
    #[error("replica {replica} has two drills")]
    Twice { replica: u16 },
}

/// The drills that the words ask for, with the numbers of their replicas.
pub fn drills_of(alloc: Global, asked: &Drills) -> Result<Vec<(u16, Drill)>, NoMemory>
    ensures { IfOk result (λ drills. drills.items ≡ drills_asked asked.now) }
{
    drills_in(alloc, asked.0.as_slice())
}

fn drills_in(alloc: Global, asked: &[Option<Drilled>]) -> Result<Vec<(u16, Drill)>, NoMemory>
    ensures { IfOk result (λ drills. drills.items ≡ flat_map one_asked asked.now) }
{
    let mut drills = Vec::new(alloc);
    for drilled in asked {
        put_drill(drilled, &mut drills)?;
    }
    Ok(drills)
}

// Adds the drill, if there is one.
fn put_drill(asked: &Option<Drilled>, drills: &mut Vec<(u16, Drill)>) -> Result<(), NoMemory>
    ensures { OnOk result (drills.new.items ≡ drills.old.items ++ one_asked asked.now) }
{
    if let Some(drilled) = asked {
        drills.push(drill_of(*drilled))?;
    }
    Ok(())
}

fn drill_of(asked: Drilled) -> (u16, Drill)
    ensures { result ≡ drill_asked asked }
{
    let drill = match asked.kind {
        DrillKind::Silent => Drill::Silent,
        DrillKind::Stale => Drill::Stale,
    };
    (u16::from(asked.replica), drill)
}

/// The settings of a cluster in which the replicas with a drill are faulty, and no other party is. Such a cluster may
/// start with these drills.
///
/// # Errors
///
/// Configuration if the given settings name a faulty party. Otherwise Drills if no cluster of theirs has these drills,
/// with the reason, and NoMemory.
pub fn drilled(
    alloc: Global,
    settings: &Settings,
    drills: &[(u16, Drill)],
) -> Result<Settings, RunFault>
    ensures { EndsDrilled settings.now (replicas_of drills.now) result }
{
    if !is_faultless(&settings.config) {
        return Err(RunFault::Configuration);
    }
    if let Some(fault) = fault_of(&settings.config, drills) {
        return Err(RunFault::Drills(fault));
    }
    Ok(settings_for(alloc, settings, drills)?)
}

// The settings for drills that a cluster may have.
#[tactic(auto, using(crate::proofs::Drilling::drilled_may_start, crate::proofs::Drilling::is_drilled_config))]
fn settings_for(
    alloc: Global,
    settings: &Settings,
    drills: &[(u16, Drill)],
) -> Result<Settings, NoMemory>
    requires { MayBeDrilled settings.now.config (replicas_of drills.now) }
    ensures { IfOk result (λ made. IsDrilledFor settings.now (replicas_of drills.now) made) }
{
    let config = &settings.config;
    let replicas = numbers_of(alloc, drills)?;
    let made = Config::new(
        config.faults(),
        config.clients(),
        *config.seed(),
        config.period(),
        replicas,
        Vec::new(alloc),
    );
    match made {
        Ok(config) => Ok(Settings {
            config,
            journal: settings.journal,
        }),
        Err(_) => unreachable!(),
    }
}

fn numbers_of(alloc: Global, drills: &[(u16, Drill)]) -> Result<Vec<u16>, NoMemory>
    ensures { IfOk result (λ numbers. numbers.items ≡ replicas_of drills.now) }
{
    Ok(drills.iter().map(|drill| drill.0).collect(alloc)?)
}

// Why no cluster of the configuration has these drills, if none has.
#[tactic(auto, using(crate::proofs::Drilling::fault_or_none, crate::proofs::Drilling::too_many))]
fn fault_of(config: &Config, drills: &[(u16, Drill)]) -> Option<DrillFault>
    ensures { MatchOption result (MayBeDrilled config.now (replicas_of drills.now))
        (IsDrillFault config.now (replicas_of drills.now)) }
{
    let (most, replicas) = (config.faults(), config.replicas());
    if drills.len() > usize::from(most) {
        return Some(DrillFault::TooMany { most, replicas });
    }
    wrong_replica(replicas, drills)
}

// The first drill of no replica, or of one that has a later drill too.
fn wrong_replica(replicas: u8, drills: &[(u16, Drill)]) -> Option<DrillFault>
    ensures { result ≡ first_wrong replicas (replicas_of drills.now) }
{
    let [first, rest @ ..] = drills else {
        return None;
    };
    let replica = first.0;
    if replica < u16::from(replicas) {
        if is_named(rest, replica) {
            return Some(DrillFault::Twice { replica });
        }
        return wrong_replica(replicas, rest);
    }
    Some(DrillFault::NoReplica { replica, replicas })
}

// Whether one of the drills is of the replica of this number.
fn is_named(drills: &[(u16, Drill)], number: u16) -> bool
    ensures { result ≡ member (replicas_of drills.now) number }
{
    is_any(drills, number)
}

fn is_any(drills: &[(u16, Drill)], number: u16) -> bool
    ensures { result ≡ list_any (λ d. d.0 == number) drills.now }
{
    drills.iter().any(|drill| drill.0 == number)
}
