//! The report of a run.

use events::Entry;
use journal::Naming;
use space_node::{ClientHandle, Run};
use std::alloc::Global;
use terms::Party;
use tuple_codec::Answer;

/// The report of a run.
#[derive(Drop)]
pub struct Report<N: Naming> {
    /// In the order of the operations.
    pub answers: Vec<Answer<Global>>,
    /// All parties, as the run left them.
    pub parties: Parties<N>,
}

/// The parties of a run that ended, with the trace and their histories. To give back all that they hold takes a
/// thirtieth of a run's time; a process that ends may [`std::mem::forget`] it.
#[derive(Drop)]
pub struct Parties<N: Naming> {
    pub(crate) run: Run<N>,
    pub(crate) handles: Vec<ClientHandle<N>>,
}

impl<N: Naming> Parties<N> {
    /// The entries of all parties, the oldest first.
    pub fn trace(&self) -> &[Entry] {
        self.run.trace.as_slice()
    }

    /// The parties that had stopped: the replicas by number, and then the clients.
    pub fn stopped(&self) -> &[Party] {
        self.run.stopped.as_slice()
    }
}
