//! The desk's part in state transfer: it serves parts of the kept states, and fetches a state that is ahead.

ghost use Rattle.std.specs.Prelude.{◌≡◌, ◌≤◌, false, IfOk, IfSome, OnOk, option_map};
ghost use Rattle.wire_format.specs.Views.{checkpoint_entry_data, message_data};
ghost use Rattle.wire_format.specs.Spelling.{IsMessage, is_signed, last_index};
ghost use Rattle.frame_endpoint.specs.Endpoint.{FitsFrame};
ghost use Rattle.state_transfer.specs.Places.{IsPlace};
ghost use Rattle.desk.specs.State.{IsSameDesk};
ghost use Rattle.desk.specs.Fetching.{SetsTarget, AsksPart, PutsBack, SendsPart, MessageHasPart, InstallsHeldPages, IsAskedFor, TakesDigests, TakesPage, target_number, closing_reached};
ghost use Rattle.desk.specs.Transferring.{MayBeSent};

use crate::desk::Desk;
use crate::transfer::{StateTransfer, Taken};
use authenticator::SealFault;
use events::{Outputs, Stop, emit};
use frame_endpoint::{meta_message, page_message, seal_for_one};
use state_transfer::Place;
use std::alloc::Global;
use terms::{Level, NoMemory, Number, Party, ReplicaId};
use wire::{CheckpointEntry, Fetch, Message, Meta, Page};

impl Desk {
    /// Sends the requested part to the asking replica alone, if the state is kept.
    pub fn send_part(
        &mut self,
        alloc: Global,
        asker: ReplicaId,
        fetch: &Fetch,
        outputs: &mut Outputs,
    ) -> Result<(), Stop>
        requires { fetch.now.index ≤ last_index fetch.now.level }
        ensures ok { OnOk result (SendsPart self.old asker fetch.now outputs.old.items outputs.new.items) }
        ensures same { self.new ≡ self.old }
    {
        let Some(message) = self.part_message(alloc, fetch)? else {
            return Ok(());
        };
        let party = Party::Replica(asker);
        match seal_for_one(&mut *self.ring, alloc, self.me, message, party) {
            Ok(output) => emit(outputs, output),
            Err(SealFault::NoMemory) => Err(Stop::NoMemory),
            // Each part of a state fits a frame.
            Err(SealFault::TooLarge) => unreachable!(),
        }
    }

    // The requested part, if the state is kept: the digests below a place, or the text of a page.
    fn part_message(&self, alloc: Global, fetch: &Fetch) -> Result<Option<Message>, NoMemory>
        requires { fetch.now.index ≤ last_index fetch.now.level }
        ensures part { IfOk result (MessageHasPart self.now fetch.now) }
        ensures may { IfOk result (λ part. IfSome part (λ message. IsMessage (message_data message))) }
        ensures unsigned { IfOk result
            (λ part. IfSome part (λ message. is_signed (message_data message) ≡ false)) }
        ensures fits { IfOk result (λ part. IfSome part (λ message. FitsFrame (message_data message))) }
    {
        let Some(pages) = self.snapshots.of(fetch.number) else {
            return Ok(None);
        };
        let Fetch {
            number,
            level,
            index,
        } = *fetch;
        let at = usize::from(index);
        match level {
            Level::Root | Level::Inner => {
                let digests = pages.children(level, at);
                Ok(Some(meta_message(alloc, number, level, index, digests)?))
            }
            Level::Page => {
                let text = Vec::from_slice(alloc, pages.page(at))?;
                Ok(Some(page_message(number, index, text)))
            }
        }
    }

    // A checkpoint's state is fetched only above this number: the fetched state's, or else the executed one's.
    fn target_number(&self) -> Number
        ensures { result.0 ≡ target_number self.now }
    {
        match &self.transfer {
            Some(open) => open.entry().number,
            None => self.executed.number(),
        }
    }

    /// Opens a transfer to this checkpoint's state, or moves the open one to it, if it is above the executed state and
    /// the fetched one. Returns whether. NoMemory if memory runs out.
    pub fn set_target(&mut self, alloc: Global, entry: &CheckpointEntry) -> Result<bool, NoMemory>
        ensures ok { IfOk result (SetsTarget (checkpoint_entry_data entry.now) self.old self.new) }
        ensures party { IsSameDesk self.old self.new }
    {
        if entry.number.0 <= self.target_number().0 {
            return Ok(false);
        }
        match &mut self.transfer {
            None => {
                let open = StateTransfer::start(alloc, entry, &mut *self.executed)?;
                self.transfer = Some(open);
            }
            Some(open) => open.move_to(entry),
        }
        Ok(true)
    }

    /// What the open transfer asks for, if there is one: the number of the state, and the place.
    pub fn asked(&self) -> Option<(Number, Place)>
        ensures value { IsAskedFor self.now result }
        ensures range { IfSome result (λ asked. IsPlace asked.1) }
    {
        let open = self.transfer.as_ref()?;
        Some((open.entry().number, open.asked()))
    }

    /// Takes the digests below a place if the transfer awaits them. Returns whether. Takes no memory.
    pub fn take_digests(&mut self, meta: &Meta) -> bool
        requires { MayBeSent meta.now }
        ensures { TakesDigests self.old meta.now self.new result }
    {
        match &mut self.transfer {
            Some(open) => open.take_digests(meta),
            None => false,
        }
    }

    /// Takes a page if the transfer awaits it, and returns what it replaced. NoMemory if memory runs out.
    pub fn take_page(&mut self, page: &Page) -> Result<Option<Taken>, NoMemory>
        ensures ok { IfOk result (TakesPage self.old page.now self.new) }
        ensures party { IsSameDesk self.old self.new }
    {
        match &mut self.transfer {
            Some(open) => open.take_page(page),
            None => Ok(None),
        }
    }

    /// Whether a part is still to be fetched. The transfer asks for that part then. NoMemory if memory runs out.
    pub fn has_next_part(&mut self) -> Result<bool, NoMemory>
        ensures ok { IfOk result (AsksPart self.old self.new) }
        ensures party { IsSameDesk self.old self.new }
    {
        let Some(open) = &mut self.transfer else {
            return Ok(false);
        };
        let Some(_place) = open.next_fetch(&mut *self.executed)? else {
            return Ok(false);
        };
        Ok(true)
    }

    /// Installs the fetched state in place of the executed one, keeps it alone, as a checkpoint, and closes the
    /// transfer. Returns its checkpoint. None if the fetched pages are no state of that number, or if some client's
    /// timestamp would fall. NoMemory if memory runs out.
    pub fn install(&mut self) -> Result<Option<CheckpointEntry>, NoMemory>
        ensures ok { IfOk result (λ entry. InstallsHeldPages self.old self.new
            (option_map checkpoint_entry_data entry)) }
        ensures party { IsSameDesk self.old self.new }
    {
        let Some(open) = &self.transfer else {
            return Ok(None);
        };
        if !open.install(&mut *self.executed)? {
            return Ok(None);
        }
        let entry = open.entry();
        self.transfer = None;
        self.snapshots.clear();
        self.keep_state()?;
        self.waiting.forget(&*self.executed);
        Ok(Some(entry))
    }

    /// Forgets the page that was taken last, as if it had not arrived. Takes no memory.
    pub fn put_back(&mut self, taken: Taken)
        ensures { PutsBack self.old taken self.new }
    {
        if let Some(open) = &mut self.transfer {
            open.put_back(taken);
        }
    }

    /// Closes the transfer of a state that executions have reached.
    pub(crate) fn close_reached(&mut self)
        ensures { self.new ≡ closing_reached self.old }
    {
        if let Some(open) = &self.transfer {
            if open.entry().number.0 <= self.executed.number().0 {
                self.transfer = None;
            }
        }
    }
}
