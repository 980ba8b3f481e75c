//! A client's handle.

ghost use Rattle.std.specs.Prelude.{◌≡◌, ◌↔◌, Err, false, IfOk, OnErr, IsTrue};
ghost use Rattle.tuple_codec.specs.OperationView.{operation_of, outcome_of};
ghost use Rattle.terms.specs.Parties.{party_number, client_party};
ghost use Rattle.protocol.specs.Client.RightClient.{IsPromptClient};
ghost use Rattle.space_node.specs.declared.fault.CallFault.TheVariants as CallFault;
ghost use Rattle.space_node.specs.Calls.{Called, CallEnds, IsSpent, Refused};
ghost use Rattle.space_node.specs.PartyStates.{IsNew};

use crate::fault::CallFault;
use crate::handle_state::HandleState;
use crate::inbox::InboxMessage;
use crate::input::{Input, Outgoing};
use crate::shared::Shared;
use crate::turn::Turn;
use crossbeam_channel::Receiver;
use journal::{AppendFault, Naming, Share};
use std::alloc::Global;
use std::marker::Model;
use std::sync::{Arc, Wait};
use terms::Party;
use tuple_codec::{Answer, Op};

/// A client of a running cluster, which has one call at a time.
#[derive(Drop)]
pub struct ClientHandle<N: Naming> {
    state: HandleState<N>,
    shared: Arc<Shared<N>, Global>,
    messages: Receiver<InboxMessage>,
}

impl<N: Naming> Model for ClientHandle<N> {
    ghost use Rattle.space_node.specs.Codes.{party_state_code};
    ghost use Rattle.space_node.specs.PartyStates.{HasNoOpenCall, PartyState};

    ghost Value = { PartyState };

    ghost coded = { party_state_code };

    ghost view = { λ h. h.state };

    ghost invariant = { λ h. HasNoOpenCall h.state };
}

impl<N: Naming> ClientHandle<N> {
    pub(crate) fn new(
        state: HandleState<N>,
        shared: Arc<Shared<N>, Global>,
        messages: Receiver<InboxMessage>,
    ) -> ClientHandle<N>
        requires { IsNew state }
        ensures { result ≡ state }
    {
        ClientHandle {
            state,
            shared,
            messages,
        }
    }

    /// Which client it is.
    pub fn party(&self) -> Party
        ensures { party_number result ≡ self.now.party }
    {
        self.state.share().party()
    }

    /// Whether it is the handle of the client of this number.
    pub(crate) fn is_of(&self, number: u16) -> bool
        ensures { IsTrue result ↔ (self.now.party ≡ client_party number) }
    {
        match self.party() {
            Party::Client(client) => client.number == number,
            Party::Replica(_) => false,
        }
    }

    /// Whether the client has stopped. It has done all that it owes, up to the end of its history.
    pub(crate) fn is_stopped(&self) -> bool
        ensures value { result ≡ self.now.stopped }
        ensures prompt { IsPromptClient N.config self.now.party self.now.history }
    {
        self.state.is_stopped()
    }

    pub(crate) fn share(&self) -> &Share<N>
        ensures party { result.now.party ≡ self.now.party }
        ensures history { result.now.history ≡ self.now.history }
    {
        self.state.share()
    }

    /// Calls an operation and waits for its answer. A call after the cluster has ended is refused.
    ///
    /// # Errors
    ///
    /// Stopped exactly if the client had stopped, or made 2^62 calls. NotInJournal if the journal has another history
    /// of the client, or the cluster has ended. JournalFull if the journal has no room for an event of the call, and
    /// NoMemory. The client has stopped after an error, and the call has no answer.
    pub fn call<R: Wait>(
        &mut self,
        rt: &R,
        alloc: Global,
        op: Op<Global>,
    ) -> Result<Answer<Global>, CallFault>
        ensures called { IfOk result (λ answer. Called self.old (operation_of op) (outcome_of answer) self.new) }
        ensures refused { OnErr result (Refused self.old self.new) }
        ensures spent { (result ≡ Err CallFault.Stopped) ↔ IsSpent self.old }
    {
        if self.state.is_spent() {
            self.state.stop();
            return Err(CallFault::Stopped);
        }
        Ok(self.answer(rt, alloc, op)?)
    }

    // Makes the call, and waits for its answer.
    fn answer<R: Wait>(
        &mut self,
        rt: &R,
        alloc: Global,
        op: Op<Global>,
    ) -> Result<Answer<Global>, AppendFault>
        requires may { ¬ IsSpent self.old }
        ensures called { IfOk result (λ answer. Called self.old (operation_of op) (outcome_of answer) self.new) }
        ensures refused { OnErr result (Refused self.old self.new) }
    {
        let request = self.state.invoke(rt, alloc, &self.shared.journal, op)?;
        self.shared.send(rt, &request);
        let since = request.first;
        wait_answer(
            rt,
            alloc,
            &mut self.state,
            &self.shared,
            &self.messages,
            since,
        )
    }
}

// Takes the inbox until the open call, made at this position, is answered. The answer takes a quorum of later frames,
// so the thread may sleep until they have come.
fn wait_answer<N: Naming, R: Wait>(
    rt: &R,
    alloc: Global,
    state: &mut HandleState<N>,
    shared: &Shared<N>,
    messages: &Receiver<InboxMessage>,
    since: u64,
) -> Result<Answer<Global>, AppendFault>
    requires running { state.old.stopped ≡ false }
    ensures ends { IfOk result (λ answer. CallEnds state.old (outcome_of answer) state.new) }
    ensures refused { OnErr result (Refused state.old state.new) }
{
    let Some(inbox) = shared.inbox(state.share().party()) else {
        state.stop();
        return Err(AppendFault::NotInJournal);
    };
    let mut awaited = shared.quorum();
    for _ in rt.forever() {
        let input = match inbox.take(rt, messages, awaited) {
            Some(InboxMessage::Frame(bytes, from)) => {
                if from > since {
                    awaited = awaited.saturating_sub(1);
                }
                Input::Got(bytes, from)
            }
            Some(InboxMessage::Pulse) => Input::Tick,
            Some(InboxMessage::End) | None => {
                state.stop();
                return Err(AppendFault::NotInJournal);
            }
        };
        let (turn, first) = state.take(rt, alloc, &shared.journal, input)?;
        match turn {
            Turn::Answered(answer) => return Ok(answer),
            Turn::Waits(outputs) => shared.send(rt, &Outgoing { outputs, first }),
        }
    }
    unreachable!()
}
