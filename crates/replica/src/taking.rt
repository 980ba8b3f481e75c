//! What the replica does with a message that arrives.

ghost use Rattle.std.specs.Prelude.{◌≡◌, ◌<◌, true, false, [], Some, IfOk};
ghost use Rattle.terms.specs.declared.parties.TheConstants.{FIRST_CLIENT};
ghost use Rattle.terms.specs.Parties.{client_party};
ghost use Rattle.wire.specs.Marks.{has_type_of_requests};
ghost use Rattle.wire_format.specs.Messages.{pre_prepare, prepare, commit};
ghost use Rattle.wire_format.specs.Spelling.{IsBatch};
ghost use Rattle.wire_format.specs.Views.{message_data};
ghost use Rattle.read_only.specs.Receiving.{NobodyReceivesRead};
ghost use Rattle.replica.specs.Going.{IsOneParty};
ghost use Rattle.replica.specs.State.{heard};
ghost use Rattle.replica.specs.Entering.{TakesBytes, TakesMessage};

use crate::both_parts::BothParts;
use events::{Outputs, Stop};
use read_only::asks_read;
use std::alloc::Global;
use terms::{ClientId, Mode, Number, Party, ReplicaId};
use wire::{Body, Commit, Message, PrePrepare, Prepare, has_type_of_requests};

/// What a message touched, and so what may follow.
#[derive(Clone, Copy, Drop)]
pub(crate) enum DueWork {
    /// Nothing follows: the message was dropped, or answered.
    Nothing,
    /// The waiting requests or the marks, and so the numbers that are free for them.
    Waiting,
    /// The log's row of this number.
    Row(Number),
    /// The executed state: the replica installed another one.
    State,
    /// The view: the replica entered a later one.
    View,
}

impl BothParts {
    /// Takes the message in the bytes, if it is authentic and has no fault.
    pub(crate) fn take(
        &mut self,
        alloc: Global,
        bytes: &[u8],
        outputs: &mut Outputs,
    ) -> Result<DueWork, Stop>
        requires first { outputs.old.items ≡ [] }
        ensures ok { IfOk result (λ due_work. TakesBytes bytes.now self.old
            due_work self.new outputs.new.items) }
        ensures party { IsOneParty self.old self.new }
    {
        self.are_one();
        if asks_read(bytes) {
            return self.on_read(alloc, bytes, outputs);
        }
        if has_type_of_requests(bytes) {
            return self.on_request_bytes(alloc, bytes, outputs);
        }
        // A stored view change isn't verified again.
        if has_type_of_view_changes(bytes) && self.orderer.has_frame(bytes) {
            self.orderer.judges();
            return Ok(DueWork::Nothing);
        }
        let Some(Body { sender, message }) = self.orderer.authenticate(alloc, bytes)? else {
            return Ok(DueWork::Nothing);
        };
        match sender {
            Party::Client(client) => Ok(self.on_client(client, message, bytes)),
            Party::Replica(sender) => self.on_replica(alloc, sender, message, bytes, outputs),
        }
    }

    // Takes the ordered request in the bytes, if it is authentic. They are no read.
    fn on_request_bytes(
        &mut self,
        alloc: Global,
        bytes: &[u8],
        outputs: &mut Outputs,
    ) -> Result<DueWork, Stop>
        requires first { outputs.old.items ≡ [] }
        requires kind { has_type_of_requests bytes.now ≡ true }
        requires unmarked { NobodyReceivesRead bytes.now }
        ensures ok { IfOk result (λ due_work. TakesBytes bytes.now self.old
            due_work self.new outputs.new.items) }
        ensures party { IsOneParty self.old self.new }
    {
        self.are_one();
        let Some(request) = self.orderer.authenticate_request(bytes) else {
            return Ok(DueWork::Nothing);
        };
        match request.mode {
            Mode::Ordered => {
                self.on_request(alloc, request.client, request.timestamp, bytes, outputs)
            }
            Mode::ReadOnly => Ok(DueWork::Nothing),
        }
    }

    // Drops a client's message, which arrived in this frame: clients send requests alone.
    fn on_client(&self, client: ClientId, message: Message, frame: &[u8]) -> DueWork
        requires authentic { heard self.now.orderer frame.now
            ≡ Some (record { sender = client_party client.number; message = message_data message }) }
        requires other { has_type_of_requests frame.now ≡ false }
        ensures { TakesBytes frame.now self.now result self.now [] }
    {
        self.are_one();
        DueWork::Nothing
    }

    // Takes another replica's message, which arrived in this frame.
    fn on_replica(
        &mut self,
        alloc: Global,
        sender: ReplicaId,
        message: Message,
        frame: &[u8],
        outputs: &mut Outputs,
    ) -> Result<DueWork, Stop>
        requires first { outputs.old.items ≡ [] }
        requires authentic { heard self.old.orderer frame.now
            ≡ Some (record { sender = sender.0; message = message_data message }) }
        ensures ok { IfOk result (λ due_work. TakesBytes frame.now self.old
            due_work self.new outputs.new.items) }
        ensures party { IsOneParty self.old self.new }
    {
        self.are_one();
        match message {
            Message::PrePrepare(message) => self.on_pre_prepare(alloc, sender, message),
            Message::Prepare(message) => Ok(self.on_prepare(sender, &message)),
            Message::Commit(message) => Ok(self.on_commit(sender, &message)),
            Message::Checkpoint(message) => self.on_checkpoint(alloc, sender, &message, outputs),
            Message::Fetch(message) => self.on_fetch(alloc, sender, &message, outputs),
            Message::Meta(message) => self.on_meta(alloc, sender, &message, outputs),
            Message::Page(message) => self.on_page(alloc, sender, &message, outputs),
            Message::ViewChange(message) => {
                self.on_view_change(alloc, sender, message, frame, outputs)
            }
            Message::NewView(message) => self.on_new_view(alloc, sender, message, outputs),
            _ => {
                note_replica(sender);
                Ok(DueWork::Nothing)
            }
        }
    }

    fn on_pre_prepare(
        &mut self,
        alloc: Global,
        sender: ReplicaId,
        message: PrePrepare,
    ) -> Result<DueWork, Stop>
        requires batch { IsBatch 1 message.batch.text.items }
        ensures ok { IfOk result (λ due_work. TakesMessage sender
            (pre_prepare message.view.0 message.number.0 message.batch.text.items)
            self.old due_work self.new []) }
        ensures party { IsOneParty self.old self.new }
    {
        let number = message.number;
        if !self.orderer.take_batch(alloc, sender, message)? {
            return Ok(DueWork::Nothing);
        }
        Ok(DueWork::Row(number))
    }

    fn on_prepare(&mut self, sender: ReplicaId, message: &Prepare) -> DueWork
        ensures ok { TakesMessage sender (prepare message.now.view.0 message.now.number.0 message.now.digest)
            self.old result self.new [] }
        ensures party { IsOneParty self.old self.new }
    {
        if !self.orderer.take_prepare(sender, message) {
            return DueWork::Nothing;
        }
        DueWork::Row(message.number)
    }

    fn on_commit(&mut self, sender: ReplicaId, message: &Commit) -> DueWork
        ensures ok { TakesMessage sender (commit message.now.view.0 message.now.number.0 message.now.digest)
            self.old result self.new [] }
        ensures party { IsOneParty self.old self.new }
    {
        if !self.orderer.take_commit(sender, message) {
            return DueWork::Nothing;
        }
        DueWork::Row(message.number)
    }
}

// Bytes of another type are no view change, whatever is stored.
fn has_type_of_view_changes(bytes: &[u8]) -> bool {
    match bytes {
        [_, _, _, _, 0x46, ..] => true,
        _ => false,
    }
}

// Tells a proof that a replica's number is below those of clients.
fn note_replica(replica: ReplicaId)
    ensures { replica.0 < FIRST_CLIENT }
{
    let _number = replica.0;
}
