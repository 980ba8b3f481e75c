//! Worlds of replicas and clients, of which some may be faulty, and the steps of lines.
//!
//! Frames that faulty parties make stand in lines, as their bodies. Python made these by docs/formats.md, with hmac and
//! hashlib, without the code that reads them.

use events::Config;
use schedule_text::{Step, read_step};
use std::alloc::Global;
use terms::{ClientId, Party, ReplicaId};
use test_bytes::FRAME_SEED;

/// How many replicas may be faulty, how many clients there are, the checkpoint period, and who is faulty.
#[derive(Clone, Copy)]
pub struct World<'a> {
    pub faults: u8,
    pub clients: u16,
    pub period: u8,
    pub faulty_replicas: &'a [u16],
    pub faulty_clients: &'a [u16],
}

// The worlds of the tables, of four replicas unless they say otherwise. They are constants because one static can't
// name another one; no function names them.

/// All are correct.
pub const ONE_CLIENT: World<'static> = World {
    faults: 1,
    clients: 1,
    period: 16,
    faulty_replicas: &[],
    faulty_clients: &[],
};

pub const TWO_CLIENTS: World<'static> = World {
    faults: 1,
    clients: 2,
    period: 16,
    faulty_replicas: &[],
    faulty_clients: &[],
};

pub const TWENTY_CLIENTS: World<'static> = World {
    faults: 1,
    clients: 20,
    period: 16,
    faulty_replicas: &[],
    faulty_clients: &[],
};

/// Each second number has a checkpoint.
pub const ONE_CLIENT_OF_PERIOD_2: World<'static> = World {
    faults: 1,
    clients: 1,
    period: 2,
    faulty_replicas: &[],
    faulty_clients: &[],
};

pub const TWO_CLIENTS_OF_PERIOD_2: World<'static> = World {
    faults: 1,
    clients: 2,
    period: 2,
    faulty_replicas: &[],
    faulty_clients: &[],
};

pub const THREE_CLIENTS_OF_PERIOD_1: World<'static> = World {
    faults: 1,
    clients: 3,
    period: 1,
    faulty_replicas: &[],
    faulty_clients: &[],
};

/// Replica 0 is faulty.
pub const PRIMARY_AND_ONE_CLIENT: World<'static> = World {
    faults: 1,
    clients: 1,
    period: 16,
    faulty_replicas: &[0],
    faulty_clients: &[],
};

pub const PRIMARY_AND_TWO_CLIENTS: World<'static> = World {
    faults: 1,
    clients: 2,
    period: 16,
    faulty_replicas: &[0],
    faulty_clients: &[],
};

/// Replica 3 is faulty.
pub const BACKUP_AND_ONE_CLIENT: World<'static> = World {
    faults: 1,
    clients: 1,
    period: 16,
    faulty_replicas: &[3],
    faulty_clients: &[],
};

pub const BACKUP_AND_TWO_CLIENTS: World<'static> = World {
    faults: 1,
    clients: 2,
    period: 16,
    faulty_replicas: &[3],
    faulty_clients: &[],
};

/// Client 1 of two is faulty.
pub const CLIENT: World<'static> = World {
    faults: 1,
    clients: 2,
    period: 16,
    faulty_replicas: &[],
    faulty_clients: &[1],
};

pub const CLIENT_OF_PERIOD_1: World<'static> = World {
    faults: 1,
    clients: 2,
    period: 1,
    faulty_replicas: &[],
    faulty_clients: &[1],
};

pub const CLIENT_OF_PERIOD_2: World<'static> = World {
    faults: 1,
    clients: 2,
    period: 2,
    faulty_replicas: &[],
    faulty_clients: &[1],
};

/// Client 1 of two is faulty, and a replica.
pub const PRIMARY_AND_CLIENT: World<'static> = World {
    faults: 1,
    clients: 2,
    period: 16,
    faulty_replicas: &[0],
    faulty_clients: &[1],
};

pub const BACKUP_AND_CLIENT: World<'static> = World {
    faults: 1,
    clients: 2,
    period: 16,
    faulty_replicas: &[3],
    faulty_clients: &[1],
};

/// Seven replicas, of which two are faulty, and say nothing.
pub const SEVEN: World<'static> = World {
    faults: 2,
    clients: 1,
    period: 16,
    faulty_replicas: &[1, 2],
    faulty_clients: &[],
};

/// Ten replicas, of which the last is faulty.
pub const TEN: World<'static> = World {
    faults: 3,
    clients: 1,
    period: 16,
    faulty_replicas: &[9],
    faulty_clients: &[],
};

/// The configuration of a world.
pub fn config_of(alloc: Global, world: &World<'_>) -> Option<Config> {
    let faulty_replicas = Vec::from_slice(alloc, world.faulty_replicas).ok()?;
    let faulty_clients = Vec::from_slice(alloc, world.faulty_clients).ok()?;
    Config::new(
        world.faults,
        world.clients,
        FRAME_SEED,
        world.period,
        faulty_replicas,
        faulty_clients,
    )
    .ok()
}

// There is room before the step is read: else what refuses it would have to be dropped too, and each drop costs a
// proof.
fn is_line_put(alloc: Global, line: &str, steps: &mut Vec<Step>) -> bool {
    let Ok(()) = steps.reserve(1) else {
        return false;
    };
    match read_step(alloc, line.as_bytes()) {
        Ok(Some(step)) => {
            steps.push_reserved(step);
            true
        }
        _ => false,
    }
}

/// Appends the steps of these lines to the others, and tells whether all were put: each line is a step, and memory ran
/// out for none.
pub fn are_put(alloc: Global, lines: &[&str], steps: &mut Vec<Step>) -> bool {
    for line in lines {
        if !is_line_put(alloc, line, steps) {
            return false;
        }
    }
    true
}

/// The party of this number.
pub fn party_of(number: u16) -> Party {
    let [high, low] = number.to_be_bytes();
    if high == 0 {
        Party::Replica(ReplicaId(low))
    } else {
        let number = u16::from(low);
        Party::Client(ClientId { number })
    }
}
