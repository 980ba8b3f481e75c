//! What the replica multicasts to the others, and what it multicasts again when a client asks again.

ghost use Rattle.std.specs.Prelude.{◌≡◌, ◌+◌, ◌≤◌, ◌<◌, ◌^◌, true, false, length, OnOk};
ghost use Rattle.wire_format.specs.Lists.{Each};
ghost use Rattle.wire_format.specs.Messages.{fetch, pre_prepare};
ghost use Rattle.wire_format.specs.Spelling.{IsBatch, IsCarried, IsMessage, is_ordered_request, is_signed, pieces_spelling};
ghost use Rattle.ordering.specs.Log.{is_in_marks};
ghost use Rattle.wire_format.specs.Views.{message_data, texts_of};
ghost use Rattle.frame_endpoint.specs.Endpoint.{FitsFrame};
ghost use Rattle.state_transfer.specs.Places.{IsPlace};
ghost use Rattle.orderer.specs.Going.{KeepsParty};
ghost use Rattle.orderer.specs.Multicasting.{OutputsHaveAll, OutputsHaveBatch, OutputsHaveRow, OutputsHaveVote, Multicasts, MulticastsAlso, MulticastsOwnBatch, MulticastsLastAlso, row_place, vote_place};

use crate::orderer::Orderer;
use authenticator::SealFault;
use events::{Outputs, Stop, emit};
use frame_endpoint::{fetch_message, pre_prepare_message};
use ordering::{HashedBatch, Phase};
use state_transfer::Place;
use std::alloc::Global;
use std::sync::Arc;
use terms::Number;
use wire::{Batch, Message};

impl Orderer {
    /// Assigns a number to these request frames, 1 to 16, as the primary.
    pub fn multicast_batch(
        &mut self,
        alloc: Global,
        number: Number,
        frames: &[Vec<u8>],
        outputs: &mut Outputs,
    ) -> Result<(), Stop>
        requires some { 1 ≤ length frames.now }
        requires few { length frames.now ≤ 16 }
        requires each { Each (IsCarried is_ordered_request) (texts_of frames.now) }
        requires within { is_in_marks self.old.log number.0 ≡ true }
        ensures ok { OnOk result (MulticastsOwnBatch number.0 (pieces_spelling (texts_of frames.now))
            self.old outputs.old.items self.new outputs.new.items) }
        ensures party { KeepsParty self.old self.new }
    {
        self.keeps();
        let batch = Arc::new(alloc, HashedBatch::new(Batch::of(alloc, frames)?))?;
        self.multicast_pre_prepare(alloc, number, batch.text(), outputs)?;
        self.log_batch(number, batch)?;
        self.used = number;
        Ok(())
    }

    /// Multicasts again what the replica sent for the numbers above this one, each in its order, and last its latest
    /// checkpoint.
    pub fn multicast_again(
        &mut self,
        alloc: Global,
        executed: Number,
        outputs: &mut Outputs,
    ) -> Result<(), Stop>
        requires { executed.0 < 2 ^ 48 }
        ensures ok { OnOk result (MulticastsLastAlso true 0 (OutputsHaveAll executed.0) self.old
            outputs.old.items self.new outputs.new.items) }
        ensures same { self.new ≡ self.old }
    {
        self.multicast_new_view_again(alloc, outputs)?;
        let last = self.log.low().0 + self.log.span();
        for number in executed.0 + 1..last + 1 {
            self.multicast_row_again(alloc, Number(number), outputs)?;
        }
        self.multicast_checkpoint_again(alloc, outputs)
    }

    // Multicasts again what the replica sent for a number.
    fn multicast_row_again(
        &mut self,
        alloc: Global,
        number: Number,
        outputs: &mut Outputs,
    ) -> Result<(), Stop>
        ensures ok { OnOk result (MulticastsAlso (row_place number.0) (row_place number.0 + 3) (OutputsHaveRow number.0)
            self.old outputs.old.items self.new outputs.new.items) }
        ensures same { self.new ≡ self.old }
    {
        self.multicast_batch_again(alloc, number, outputs)?;
        self.multicast_vote_again(alloc, Phase::Prepare, number, outputs)?;
        self.multicast_vote_again(alloc, Phase::Commit, number, outputs)
    }

    fn multicast_batch_again(
        &mut self,
        alloc: Global,
        number: Number,
        outputs: &mut Outputs,
    ) -> Result<(), Stop>
        ensures ok { OnOk result (MulticastsAlso (row_place number.0) (row_place number.0 + 1)
            (OutputsHaveBatch number.0)
            self.old outputs.old.items self.new outputs.new.items) }
        ensures same { self.new ≡ self.old }
    {
        self.keeps();
        // Up to this number the new view has the batches.
        if !self.is_primary() || number.0 <= self.assigned.0 {
            return Ok(());
        }
        let Some(batch) = self.log.logged_batch(number) else {
            return Ok(());
        };
        let batch = Arc::try_clone(batch)?;
        self.multicast_pre_prepare(alloc, number, batch.text(), outputs)
    }

    fn multicast_vote_again(
        &mut self,
        alloc: Global,
        phase: Phase,
        number: Number,
        outputs: &mut Outputs,
    ) -> Result<(), Stop>
        ensures ok { OnOk result (MulticastsAlso (row_place number.0 + vote_place phase)
            (row_place number.0 + (vote_place phase + 1)) (OutputsHaveVote phase number.0)
            self.old outputs.old.items self.new outputs.new.items) }
        ensures same { self.new ≡ self.old }
    {
        self.keeps();
        let me = self.log.me();
        match self.log.vote_of(phase, number, me) {
            Some(digest) => self.multicast_vote(alloc, phase, number, digest, outputs),
            None => Ok(()),
        }
    }

    fn multicast_pre_prepare(
        &mut self,
        alloc: Global,
        number: Number,
        text: &[u8],
        outputs: &mut Outputs,
    ) -> Result<(), Stop>
        requires { IsBatch 1 text.now }
        ensures said { OnOk result (Multicasts self.old (pre_prepare self.old.log.view number.0 text.now)
            outputs.old.items outputs.new.items) }
        ensures same { self.new ≡ self.old }
    {
        let text = Vec::from_slice(alloc, text)?;
        let message = pre_prepare_message(self.log.view(), number, Batch { text });
        self.multicast(alloc, message, outputs)
    }

    /// Asks all other replicas for a part of the state of this number.
    pub fn multicast_fetch(
        &mut self,
        alloc: Global,
        number: Number,
        place: Place,
        outputs: &mut Outputs,
    ) -> Result<(), Stop>
        requires { IsPlace place }
        ensures said { OnOk result (Multicasts self.old (fetch number.0 place.level place.index)
            outputs.old.items outputs.new.items) }
        ensures same { self.new ≡ self.old }
    {
        let message = fetch_message(number, place.level, place.index);
        self.multicast(alloc, message, outputs)
    }

    /// Multicasts a message that fits a frame.
    pub(crate) fn multicast(
        &mut self,
        alloc: Global,
        message: Message,
        outputs: &mut Outputs,
    ) -> Result<(), Stop>
        requires may { IsMessage (message_data message) }
        requires unsigned { is_signed (message_data message) ≡ false }
        requires fits { FitsFrame (message_data message) }
        ensures said { OnOk result
            (Multicasts self.old (message_data message) outputs.old.items outputs.new.items) }
        ensures same { self.new ≡ self.old }
    {
        match self.endpoint.send_to_others(alloc, message) {
            Ok(output) => emit(outputs, output),
            Err(SealFault::NoMemory) => Err(Stop::NoMemory),
            Err(SealFault::TooLarge) => unreachable!(),
        }
    }
}
