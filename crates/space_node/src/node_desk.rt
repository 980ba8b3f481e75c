//! The state behind a node's shelf lock.

ghost use Rattle.std.specs.Prelude.{◌≡◌, ◌<◌, [], IfSome, IfNone};
ghost use Rattle.terms.specs.declared.parties.TheConstants.{FIRST_CLIENT};
ghost use Rattle.protocol.specs.Replica.Owed.{IsPromptReplica};
ghost use Rattle.protocol.specs.System.Trace.Entry.{Got};
ghost use Rattle.replica.specs.Parted.{DeskFitsHistory};
ghost use Rattle.space_node.specs.PartyStates.{state_after_event, stopped_at};

use crate::entries::entries_of;
use crate::input::Outgoing;
use crate::recording::record;
use bumpalo::Bump;
use events::{Entry, EntryKind, SharedBytes};
use journal::{Journal, Naming, Share};
use read_only::asks_read;
use replica::Desk;
use std::alloc::Global;
use std::marker::Model;
use std::sync::{Mutex, Wait};

/// A replica's desk, with the share of its whole history.
#[derive(Drop)]
pub(crate) struct NodeDesk<N: Naming> {
    pub(crate) desk: Desk,
    pub(crate) share: Share<N>,
}

impl<N: Naming> Model for NodeDesk<N> {
    ghost use Rattle.std.specs.Prelude.{is_none};
    ghost use Rattle.space_node.specs.Codes.{party_state_code};
    ghost use Rattle.space_node.specs.PartyStates.{PartyState, DeskFitsShare};

    ghost Value = { PartyState };

    ghost coded = { party_state_code };

    ghost view = { λ s. record {
      party = s.share.party;
      history = s.share.history;
      stopped = is_none s.desk.holds;
    } };

    ghost invariant = { λ s. DeskFitsShare N.config s.desk s.share };
}

impl<N: Naming> NodeDesk<N> {
    /// The state of a replica that has done nothing.
    pub(crate) fn new(desk: Desk, share: Share<N>) -> NodeDesk<N>
        requires replica { share.party < FIRST_CLIENT }
        requires fits { DeskFitsHistory N.config share.party desk share.history }
        requires new { share.history ≡ [] }
    {
        NodeDesk { desk, share }
    }

    /// Whether the desk has stopped.
    pub(crate) fn is_stopped(&self) -> bool
        ensures { result ≡ self.now.stopped }
    {
        self.desk.is_stopped()
    }

    /// Stops the desk and gives the share out.
    pub(crate) fn release_share(&mut self, alloc: Global) -> Share<N>
        ensures party { result.party ≡ self.old.party }
        ensures history { result.history ≡ self.old.history }
        ensures prompt { IsPromptReplica N.config result.party result.history }
    {
        self.desk.stop();
        let share = self.share.take(alloc);
        self.share.note_right();
        share
    }

    /// The desk's outputs for bytes with the marks of a read, after the event is in the journal. `from` is the
    /// position at which they were sent. The desk stops if memory runs out or the journal refuses. A stopped desk, or
    /// other bytes, give nothing.
    pub(crate) fn read<R: Wait>(
        &mut self,
        rt: &R,
        alloc: Global,
        arena: &mut Bump,
        journal: &Mutex<Journal<N>>,
        bytes: SharedBytes,
        from: u64,
    ) -> Option<Outgoing>
        ensures given { IfSome result
            (λ given. self.new ≡ state_after_event self.old (Got self.old.party bytes) given.outputs.items) }
    {
        if !asks_read(bytes.as_slice()) {
            return None;
        }
        let Ok(outputs) = self.desk.read(alloc, bytes.as_slice(), arena) else {
            return None;
        };
        let party = self.share.party();
        let input = Entry::new(EntryKind::Got(party, bytes));
        let Ok(entries) = entries_of(alloc, party, input, outputs.as_slice()) else {
            self.desk.stop();
            return None;
        };
        match record(rt, journal, &mut self.share, Some(from), entries) {
            Ok(first) => Some(Outgoing { outputs, first }),
            Err(_) => {
                self.desk.stop();
                None
            }
        }
    }
}
