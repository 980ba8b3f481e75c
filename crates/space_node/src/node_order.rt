//! The state behind a node's order lock.

ghost use Rattle.std.specs.Prelude.{◌≡◌, None, is_none, false, IfSome, IfNone, IfOk, OnErr, true};
ghost use Rattle.replica.specs.Parted.{OrdererFitsHistory};
ghost use Rattle.space_node.specs.PartyStates.{InputLeads, input_of, state_after_event, stopped_at};

use crate::entries::entries_of;
use crate::input::{Input, Outgoing};
use crate::node_desk::NodeDesk;
use crate::recording::record_order;
use events::{Outputs, Stop};
use journal::{Journal, Naming, OrderShare};
use replica::{Desk, Event, Orderer};
use std::alloc::Global;
use std::marker::Model;
use std::sync::{Mutex, Wait};

/// A replica's orderer, with the share of its ordering.
#[derive(Drop)]
pub(crate) struct NodeOrder<N: Naming> {
    orderer: Orderer,
    order: OrderShare<N>,
}

impl<N: Naming> Model for NodeOrder<N> {
    ghost use Rattle.std.specs.Prelude.{is_none};
    ghost use Rattle.replica.specs.Parted.{OrdererFitsHistory};
    ghost use Rattle.space_node.specs.Codes.{party_state_code};
    ghost use Rattle.space_node.specs.PartyStates.{PartyState};

    ghost Value = { PartyState };

    ghost coded = { party_state_code };

    ghost view = { λ s. record {
      party = s.order.party;
      history = s.order.history;
      stopped = is_none s.orderer.holds;
    } };

    ghost invariant = { λ s. OrdererFitsHistory N.config s.order.party s.orderer s.order.history };
}

impl<N: Naming> NodeOrder<N> {
    /// The state of a replica that has done nothing.
    pub(crate) fn new(orderer: Orderer, order: OrderShare<N>) -> NodeOrder<N>
        requires fits { OrdererFitsHistory N.config order.party orderer order.history }
    {
        NodeOrder { orderer, order }
    }

    /// Whether the orderer has stopped.
    pub(crate) fn is_stopped(&self) -> bool
        ensures { result ≡ self.now.stopped }
    {
        self.orderer.is_stopped()
    }

    /// Stops both parts of the replica.
    pub(crate) fn stop(&mut self, shelf: &mut NodeDesk<N>)
        ensures stopped { self.new.stopped ≡ true }
        ensures shelf { shelf.new ≡ stopped_at shelf.old }
    {
        self.orderer.stop();
        shelf.desk.stop();
    }

    /// The outputs of the replica of both parts for its input, after the event is in the journal. Both parts stop if
    /// memory runs out or the journal refuses. If one has stopped before, there are no outputs.
    pub(crate) fn step<R: Wait>(
        &mut self,
        rt: &R,
        alloc: Global,
        shelf: &mut NodeDesk<N>,
        journal: &Mutex<Journal<N>>,
        input: Input,
    ) -> Option<Outgoing>
        ensures given { IfSome result
            (λ given. shelf.new.history
            ≡ (state_after_event shelf.old (input_of shelf.old.party input) given.outputs.items).history) }
        ensures stopped { IfNone result ((self.new.stopped ≡ true) × (shelf.new ≡ stopped_at shelf.old)) }
    {
        let Ok(outputs) = step_parts(&mut self.orderer, alloc, &mut shelf.desk, &input) else {
            return None;
        };
        let party = shelf.share.party();
        let (entry, from) = input.into_entry(party);
        let Ok(entries) = entries_of(alloc, party, entry, outputs.as_slice()) else {
            self.orderer.stop();
            shelf.desk.stop();
            return None;
        };
        let (share, order) = (&mut shelf.share, &mut self.order);
        match record_order(rt, journal, share, order, from, entries) {
            Ok(first) => Some(Outgoing { outputs, first }),
            Err(_) => {
                self.orderer.stop();
                shelf.desk.stop();
                None
            }
        }
    }
}

// The outputs of the replica of both parts.
fn step_parts(
    orderer: &mut Orderer,
    alloc: Global,
    desk: &mut Desk,
    input: &Input,
) -> Result<Outputs, Stop>
    ensures leads { IfOk result
        (λ outs. InputLeads orderer.old desk.old input.now outs.items orderer.new desk.new) }
    ensures stopped { OnErr result (orderer.new.holds ≡ None) }
    ensures desk_runs { IfOk result (λ _. is_none desk.new.holds ≡ false) }
    ensures desk_stopped { OnErr result (desk.new.holds ≡ None) }
    ensures member { orderer.new.member ≡ orderer.old.member }
    ensures desk_member { desk.new.member ≡ desk.old.member }
{
    match input {
        Input::Got(bytes, _) => orderer.step(alloc, desk, Event::Got(bytes.as_slice())),
        Input::Tick => orderer.step(alloc, desk, Event::Timeout),
    }
}
