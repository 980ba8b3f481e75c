//! The state that a client's handle keeps.

ghost use Rattle.std.specs.Prelude.{◌≡◌, ◌↔◌, ◌+◌, Err, [], true, false, IfOk, OnErr, IsTrue};
ghost use Rattle.terms.specs.Parties.{client_party};
ghost use Rattle.tuple_codec.specs.OperationView.{operation_of};
ghost use Rattle.protocol.specs.System.Configuration.{is_correct_replica};
ghost use Rattle.protocol.specs.Client.RightClient.{IsPromptClient};
ghost use Rattle.events.specs.declared.output.Stop.TheVariants as Stop;
ghost use Rattle.client_cert.specs.Fits.{Fits};
ghost use Rattle.space_node.specs.Calls.{CallBegins, HandleTakesTurn, IsSpent};
ghost use Rattle.space_node.specs.PartyStates.{ClientLeads, HasNoOpenCall, stopped_at};

use crate::entries::{entries_of, invocation};
use crate::input::{Input, Outgoing};
use crate::recording::record;
use crate::turn::{Turn, turn_of};
use client_cert::{Client, Event, InvokeFault};
use events::{Outputs, Stop};
use journal::{AppendFault, Journal, Naming, Share};
use std::alloc::Global;
use std::marker::Model;
use std::sync::{Mutex, Wait};
use terms::{ClientId, Party, Timestamp};
use tuple_codec::Op;

/// Most calls of a client.
const MAX_CALLS: u64 = 1 << 62;

/// A client, with the share of its history and the timestamp of its last call.
#[derive(Drop)]
pub(crate) struct HandleState<N: Naming> {
    id: ClientId,
    client: Client,
    calls: u64,
    stopped: bool,
    share: Share<N>,
}

impl<N: Naming> Model for HandleState<N> {
    ghost use Rattle.space_node.specs.Codes.{party_state_code};
    ghost use Rattle.space_node.specs.PartyStates.{PartyState, HandleFitsShare};

    ghost Value = { PartyState };

    ghost coded = { party_state_code };

    ghost view = { λ s. record {
      party = s.share.party;
      history = s.share.history;
      stopped = s.stopped;
    } };

    ghost invariant = { λ s. HandleFitsShare N.config s.id.number s.client s.calls s.stopped s.share };
}

impl<N: Naming> HandleState<N> {
    /// The state of a client that made no call.
    pub(crate) fn new(id: ClientId, client: Client, share: Share<N>) -> HandleState<N>
        requires party { share.party ≡ client_party id.number }
        requires no_replica { is_correct_replica N.config share.party ≡ false }
        requires new { share.history ≡ [] }
        requires number { client.number ≡ id.number }
        requires runs { client.stopped ≡ false }
        requires fits { Fits N.config client [] }
        ensures { result ≡ record { party = share.party; history = []; stopped = false } }
    {
        HandleState {
            id,
            client,
            calls: 0,
            stopped: false,
            share,
        }
    }

    pub(crate) fn share(&self) -> &Share<N>
        ensures party { result.now.party ≡ self.now.party }
        ensures history { result.now.history ≡ self.now.history }
    {
        &self.share
    }

    /// Stops the client.
    pub(crate) fn stop(&mut self)
        ensures { self.new ≡ stopped_at self.old }
    {
        self.stopped = true;
    }

    /// Whether the client has stopped. It has done all that it owes, up to the end of its history.
    pub(crate) fn is_stopped(&self) -> bool
        ensures value { result ≡ self.now.stopped }
        ensures prompt { IsPromptClient N.config self.now.party self.now.history }
    {
        self.stopped
    }

    /// Whether the client has stopped, or made 2^62 calls.
    pub(crate) fn is_spent(&self) -> bool
        ensures { IsTrue result ↔ IsSpent self.now }
    {
        self.stopped || self.calls >= MAX_CALLS
    }

    /// Begins a call if none is open, and gives its request after the event is in the journal.
    ///
    /// # Errors
    ///
    /// NoMemory, or the journal's refusal. The client has stopped then.
    pub(crate) fn invoke<R: Wait>(
        &mut self,
        rt: &R,
        alloc: Global,
        journal: &Mutex<Journal<N>>,
        op: Op<Global>,
    ) -> Result<Outgoing, AppendFault>
        requires may { ¬ IsSpent self.old }
        requires idle { HasNoOpenCall self.old }
        ensures begins { IfOk result (λ _. CallBegins self.old (operation_of op) self.new) }
        ensures stops { OnErr result (self.new ≡ stopped_at self.old) }
    {
        // The client counts as stopped until the event is in the journal.
        self.stopped = true;
        let timestamp = Timestamp(self.calls + 1);
        let input = invocation(alloc, self.id, timestamp, &op)?;
        let outputs = match self.client.invoke(alloc, op) {
            Ok(outputs) => outputs,
            Err(InvokeFault::NoMemory) => return Err(AppendFault::NoMemory),
            // No call is open, and a timestamp is left.
            Err(InvokeFault::Busy) => unreachable!(),
            Err(InvokeFault::Stopped) => unreachable!(),
        };
        let entries = entries_of(alloc, Party::Client(self.id), input, outputs.as_slice())?;
        let first = record(rt, journal, &mut self.share, None, entries)?;
        self.calls = timestamp.0;
        self.stopped = false;
        Ok(Outgoing { outputs, first })
    }

    /// Takes an input, and gives its turn after the event is in the journal, with the position of its first entry.
    ///
    /// # Errors
    ///
    /// NoMemory, or the journal's refusal. The client has stopped then.
    pub(crate) fn take<R: Wait>(
        &mut self,
        rt: &R,
        alloc: Global,
        journal: &Mutex<Journal<N>>,
        input: Input,
    ) -> Result<(Turn, u64), AppendFault>
        requires running { self.old.stopped ≡ false }
        ensures comes { IfOk result (λ taken. HandleTakesTurn self.old taken.0 self.new) }
        ensures stops { OnErr result (self.new ≡ stopped_at self.old) }
    {
        // The client counts as stopped until the event is in the journal.
        self.stopped = true;
        let outputs = match step_client(&mut self.client, alloc, &input) {
            Ok(outputs) => outputs,
            Err(Stop::NoMemory) => return Err(AppendFault::NoMemory),
            // The client hasn't stopped.
            Err(Stop::Stopped) => unreachable!(),
        };
        let party = Party::Client(self.id);
        let (entry, from) = input.into_entry(party);
        let entries = entries_of(alloc, party, entry, outputs.as_slice())?;
        let turn = turn_of(outputs, Timestamp(self.calls));
        let first = record(rt, journal, &mut self.share, from, entries)?;
        self.stopped = false;
        Ok((turn, first))
    }
}

// The outputs of the client.
fn step_client(client: &mut Client, alloc: Global, input: &Input) -> Result<Outputs, Stop>
    ensures leads { IfOk result (λ outs. ClientLeads client.old input.now outs.items client.new) }
    ensures runs { IfOk result (λ _. client.new.stopped ≡ false) }
    ensures stopped { result ≡ Err Stop.Stopped → client.old.stopped ≡ true }
    ensures number { client.new.number ≡ client.old.number }
{
    match input {
        Input::Got(bytes, _) => client.step(alloc, Event::Got(bytes.as_slice())),
        Input::Tick => client.step(alloc, Event::Retry),
    }
}
