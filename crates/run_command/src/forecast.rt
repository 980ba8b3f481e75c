//! How many entries of the journal a script will take.

use config_text::Settings;
use events::Config;
use std::alloc::Global;
use std::fmt::{self, Display, Formatter};
use tuple_codec::Op;

// Most requests of a batch.
const BATCH: u64 = 16;

/// The entries that a run takes if all replicas keep up, and each batch is as full as the clients can make it.
#[derive(Clone, Copy, Debug, PartialEq, Eq, Drop)]
pub struct Forecast {
    pub entries: u64,
    /// How many entries the journal takes.
    pub limit: u32,
}

impl Forecast {
    /// The forecast for a script of these operations.
    pub fn of(settings: &Settings, ops: &[Op<Global>]) -> Forecast {
        let config = &settings.config;
        let all = ops.len() as u64;
        let writes = ops.iter().filter(|op| !op.is_read()).count() as u64;
        let batches = writes.div_ceil(BATCH.min(u64::from(config.clients())));
        let checkpoints = batches / u64::from(config.period());
        let entries = all
            .saturating_mul(of_call(config))
            .saturating_add(batches.saturating_mul(of_batch(config)))
            .saturating_add(checkpoints.saturating_mul(of_checkpoint(config)));
        Forecast {
            entries,
            limit: settings.journal,
        }
    }

    /// Whether the journal has room for all of them.
    pub fn fits(&self) -> bool {
        self.entries <= u64::from(self.limit)
    }
}

// A call and its request; that each of n replicas gets it and replies, that the client gets the replies, and that it
// accepts.
fn of_call(config: &Config) -> u64 {
    3 * u64::from(config.replicas()) + 3
}

// A pre-prepare, n - 1 prepares and n commits, each sent once and got by all others, and n executions.
fn of_batch(config: &Config) -> u64 {
    let n = u64::from(config.replicas());
    2 * n * n + n
}

// n checkpoints, each sent once and got by all others.
fn of_checkpoint(config: &Config) -> u64 {
    let n = u64::from(config.replicas());
    n * n
}

impl Display for Forecast {
    fn fmt<W: fmt::Write>(&self, f: &mut Formatter<W>) -> fmt::Result {
        let (entries, limit) = (self.entries, self.limit);
        write!(
            f,
            "this script takes about {entries} entries, and the journal has room for {limit}"
        )
    }
}
