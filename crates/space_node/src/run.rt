//! The result of a cluster.

use crate::replica_share::ReplicaShare;
use events::Entry;
use journal::Naming;
use terms::Party;

/// The entries of a cluster's parties, and the parties that stopped.
#[derive(Drop)]
pub struct Run<N: Naming> {
    /// The entries of all parties, the oldest first.
    pub trace: Vec<Entry>,
    /// The shares of the correct replicas, in the order of their numbers. Each tells whether its replica had stopped.
    pub shares: Vec<ReplicaShare<N>>,
    /// The replicas that had stopped, by number, then the stopped clients of the given handles, in their order, and
    /// no others. A party stops if memory runs out or the journal refuses its event, and a client also if the cluster
    /// ends during its call. The trace has nothing of that event, nor of later ones.
    pub stopped: Vec<Party>,
}

/// Why a cluster's run is not whole. Its threads have ended.
#[derive(Drop)]
pub enum FinishFault<N: Naming> {
    /// The trace has another history of this party than its share or its handle.
    NotInJournal(Run<N>, Party),
    /// Memory ran out, and the run is lost.
    NoMemory,
}
