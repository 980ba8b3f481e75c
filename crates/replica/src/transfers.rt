//! State transfer: the parts that the replica asks for, and the parts that arrive.

ghost use Rattle.std.specs.Prelude.{◌≡◌, ◌≤◌, [], IfOk, OnOk};
ghost use Rattle.wire_format.specs.Messages.{fetch, meta, page};
ghost use Rattle.wire_format.specs.Spelling.{last_index};
ghost use Rattle.replica.specs.Going.{IsOneParty};
ghost use Rattle.replica.specs.Entering.{TakesMessage};
ghost use Rattle.replica.specs.Fetching.{FetchesNextPart, InstallsFetchedState, MulticastsFetch};
ghost use Rattle.desk.specs.Transferring.{MayBeSent};

use crate::both_parts::BothParts;
use crate::taking::DueWork;
use events::{Output, Outputs, Stop, emit};
use std::alloc::Global;
use terms::ReplicaId;
use wire::{Fetch, Meta, Page};

impl BothParts {
    /// Asks all other replicas for the part that the open transfer awaits.
    pub(crate) fn multicast_fetch(
        &mut self,
        alloc: Global,
        outputs: &mut Outputs,
    ) -> Result<(), Stop>
        ensures ok { OnOk result (MulticastsFetch self.old outputs.old.items outputs.new.items) }
        ensures same { self.new ≡ self.old }
    {
        match self.desk.asked() {
            Some((number, place)) => self.orderer.multicast_fetch(alloc, number, place, outputs),
            None => Ok(()),
        }
    }

    /// Sends a part of a kept state to the replica that asks for it.
    pub(crate) fn on_fetch(
        &mut self,
        alloc: Global,
        sender: ReplicaId,
        message: &Fetch,
        outputs: &mut Outputs,
    ) -> Result<DueWork, Stop>
        requires first { outputs.old.items ≡ [] }
        requires place { message.now.index ≤ last_index message.now.level }
        ensures ok { IfOk result (λ due_work. TakesMessage sender
            (fetch message.now.number.0 message.now.level message.now.index)
            self.old due_work self.new outputs.new.items) }
        ensures party { IsOneParty self.old self.new }
    {
        self.are_one();
        self.desk.send_part(alloc, sender, message, outputs)?;
        Ok(DueWork::Nothing)
    }

    /// Takes the digests below a place, and goes on with the parts that differ.
    pub(crate) fn on_meta(
        &mut self,
        alloc: Global,
        sender: ReplicaId,
        message: &Meta,
        outputs: &mut Outputs,
    ) -> Result<DueWork, Stop>
        requires first { outputs.old.items ≡ [] }
        requires said { MayBeSent message.now }
        ensures ok { IfOk result (λ due_work. TakesMessage sender
            (meta message.now.number.0 message.now.level message.now.index message.now.digests.items)
            self.old due_work self.new outputs.new.items) }
        ensures party { IsOneParty self.old self.new }
    {
        self.are_one();
        if !self.desk.take_digests(message) {
            return Ok(DueWork::Nothing);
        }
        if self.ask_next(alloc, outputs)? {
            return Ok(DueWork::Nothing);
        }
        if self.install(outputs)? {
            return Ok(DueWork::State);
        }
        Ok(DueWork::Nothing)
    }

    /// Takes the text of a page, and goes on with the parts that differ. If the pages are then complete and no state,
    /// the replica forgets the page, as if it had not arrived.
    pub(crate) fn on_page(
        &mut self,
        alloc: Global,
        sender: ReplicaId,
        message: &Page,
        outputs: &mut Outputs,
    ) -> Result<DueWork, Stop>
        requires first { outputs.old.items ≡ [] }
        ensures ok { IfOk result (λ due_work. TakesMessage sender
            (page message.now.number.0 message.now.index message.now.text.items)
            self.old due_work self.new outputs.new.items) }
        ensures party { IsOneParty self.old self.new }
    {
        self.are_one();
        let Some(taken) = self.desk.take_page(message)? else {
            return Ok(DueWork::Nothing);
        };
        if self.ask_next(alloc, outputs)? {
            return Ok(DueWork::Nothing);
        }
        if self.install(outputs)? {
            return Ok(DueWork::State);
        }
        self.desk.put_back(taken);
        Ok(DueWork::Nothing)
    }

    // Asks for the next part, if one is still to be fetched. Returns whether.
    fn ask_next(&mut self, alloc: Global, outputs: &mut Outputs) -> Result<bool, Stop>
        ensures ok { IfOk result (FetchesNextPart self.old outputs.old.items self.new outputs.new.items) }
        ensures party { IsOneParty self.old self.new }
    {
        if !self.desk.has_next_part()? {
            return Ok(false);
        }
        self.multicast_fetch(alloc, outputs)?;
        Ok(true)
    }

    // Installs the fetched state, keeps it as a checkpoint, and moves the marks up to it. Returns whether it is a
    // state.
    fn install(&mut self, outputs: &mut Outputs) -> Result<bool, Stop>
        ensures ok { IfOk result (InstallsFetchedState self.old outputs.old.items self.new outputs.new.items) }
        ensures party { IsOneParty self.old self.new }
    {
        let Some(entry) = self.desk.install()? else {
            return Ok(false);
        };
        emit(outputs, Output::Installed(entry.number, entry.digest))?;
        self.move_marks(entry.number);
        Ok(true)
    }
}
