//! An open state transfer: the replica fetches a checkpoint's state part by part.

ghost use Rattle.std.specs.Prelude.{◌≡◌, true, false, IfNone, IfOk, IfSome, OnErr, OnOk};
ghost use Rattle.wire_format.specs.Views.{checkpoint_entry_data};
ghost use Rattle.partition_tree.specs.Digests.{root_of};
ghost use Rattle.state_transfer.specs.Places.{IsPlace};
ghost use Rattle.execution.specs.Installing.{HasPagesAt, NoneFalls, NoneReplaces};
ghost use Rattle.desk.specs.Transferring.{AsksPlace, IsRestedAt, MayBeSent, TakesDigestsOf, TakesPageOf, is_put_back, moved, started};

use execution::Executed;
use state_transfer::{PartFault, Place, Replaced, Transfer};
use std::alloc::Global;
use std::marker::Model;
use terms::{NoMemory, Number};
use wire::{CheckpointEntry, Meta, Page};

/// A state transfer, and the number of the executed state whose pages stand where none were fetched. After an execution
/// the transfer rests on the new state's pages only once it is looked at again. So executions themselves write and hash
/// nothing.
#[derive(Drop)]
pub(crate) struct StateTransfer {
    // It is some kilobytes, with digests of the parts. So it stays in its place when the desk moves.
    transfer: Box<Transfer>,
    rests_at: Number,
}

impl Model for StateTransfer {
    ghost use Rattle.desk.specs.State.{OpenData};
    ghost use Rattle.desk.specs.StateTransferView.{open_data};

    ghost Value = { OpenData };

    ghost view = { open_data };
}

/// What a page replaced, and the number at which the transfer rested before.
#[derive(Drop)]
pub struct Taken {
    pub replaced: Replaced,
    pub rests_at: Number,
}

impl StateTransfer {
    /// Starts a transfer to this checkpoint's state, which rests on the executed state. NoMemory if memory runs out.
    pub(crate) fn start(
        alloc: Global,
        entry: &CheckpointEntry,
        executed: &mut Executed,
    ) -> Result<StateTransfer, NoMemory>
        ensures made { IfOk result (λ o. o ≡ started executed.old.state (checkpoint_entry_data entry.now)) }
        ensures same { executed.new ≡ executed.old }
    {
        let rests_at = executed.number();
        let pages = executed.pages()?;
        let transfer = Transfer::start(alloc, entry.number, entry.digest, pages)?;
        Ok(StateTransfer {
            transfer: Box::new(alloc, transfer)?,
            rests_at,
        })
    }

    /// The checkpoint whose state the transfer fetches.
    pub(crate) fn entry(&self) -> CheckpointEntry
        ensures { checkpoint_entry_data result
            ≡ record { number = self.now.transfer.number; digest = self.now.transfer.root } }
    {
        CheckpointEntry {
            number: self.transfer.number(),
            digest: self.transfer.root(),
        }
    }

    /// The place that the transfer asks for.
    pub(crate) fn asked(&self) -> Place
        ensures value { result ≡ self.now.transfer.asked }
        ensures range { IsPlace result }
    {
        self.transfer.asked()
    }

    /// Moves the transfer to a newer checkpoint.
    pub(crate) fn move_to(&mut self, entry: &CheckpointEntry)
        ensures { self.new ≡ moved self.old (checkpoint_entry_data entry.now) }
    {
        self.transfer.move_to(entry.number, entry.digest);
    }

    /// Takes the digests below a place if the transfer awaits them. Returns whether. Takes no memory.
    pub(crate) fn take_digests(&mut self, meta: &Meta) -> bool
        requires { MayBeSent meta.now }
        ensures { TakesDigestsOf self.old meta.now self.new result }
    {
        let Ok(digests) = <&[_; 32]>::try_from(meta.digests.as_slice()) else {
            // A message that may be sent has 32.
            unreachable!();
        };
        let place = Place {
            level: meta.level,
            index: meta.index,
        };
        self.transfer.keeps();
        self.transfer.on_meta(meta.number, place, digests).is_ok()
    }

    /// Takes the text of a page if the transfer awaits it, and returns what it replaced. NoMemory if memory runs out.
    pub(crate) fn take_page(&mut self, page: &Page) -> Result<Option<Taken>, NoMemory>
        ensures ok { IfOk result (TakesPageOf self.old page.now self.new) }
        ensures err { OnErr result (self.new ≡ self.old) }
    {
        self.transfer.keeps();
        match self.transfer.on_page(page.number, page.index, &page.text) {
            Ok(replaced) => Ok(Some(Taken {
                replaced,
                rests_at: self.rests_at,
            })),
            Err(PartFault::NotAsked) => Ok(None),
            Err(PartFault::WrongDigest) => Ok(None),
            Err(PartFault::NoMemory) => Err(NoMemory),
        }
    }

    /// The next place that differs from the wanted state. The transfer asks for it then. None if all are equal.
    pub(crate) fn next_fetch(&mut self, executed: &mut Executed) -> Result<Option<Place>, NoMemory>
        ensures asks { IfOk result (AsksPlace executed.old.state self.old self.new) }
        ensures range { IfOk result (λ place. IfSome place IsPlace) }
        ensures done { IfOk result (λ place. IfNone place (root_of self.new.transfer.held ≡ self.new.transfer.root)) }
        ensures same { executed.new ≡ executed.old }
    {
        self.transfer.keeps();
        self.rest_on(executed)?;
        Ok(self.transfer.next_fetch())
    }

    // Rests on the executed state, if requests were executed since it last did.
    fn rest_on(&mut self, executed: &mut Executed) -> Result<(), NoMemory>
        ensures ok { OnOk result (IsRestedAt executed.old.state self.old self.new) }
        ensures same { executed.new ≡ executed.old }
    {
        let number = executed.number();
        if self.rests_at.0 == number.0 {
            return Ok(());
        }
        self.transfer.rest_on(executed.pages()?)?;
        self.rests_at = number;
        Ok(())
    }

    /// Installs the state of the held pages in place of the executed one, if there is such a state and it may. Returns
    /// whether. NoMemory if memory runs out.
    pub(crate) fn install(&self, executed: &mut Executed) -> Result<bool, NoMemory>
        ensures installed { (result ≡ Ok true)
            → HasPagesAt self.now.transfer.number self.now.transfer.held executed.new.state }
        ensures rises { (result ≡ Ok true) → NoneFalls executed.old.state executed.new.state }
        ensures none { (result ≡ Ok false) → root_of self.now.transfer.held ≡ self.now.transfer.root
            → NoneReplaces executed.old.state self.now.transfer.number self.now.transfer.held }
        ensures same { ¬ (result ≡ Ok true) → executed.new ≡ executed.old }
        ensures clients { executed.new.clients ≡ executed.old.clients }
    {
        let Some(pages) = self.transfer.finish() else {
            return Ok(false);
        };
        executed.install(self.transfer.number(), pages.copy()?)
    }

    /// Forgets the page that was taken last, as if it had not arrived. Takes no memory.
    pub(crate) fn put_back(&mut self, taken: Taken)
        ensures { is_put_back self.old taken self.new }
    {
        self.transfer.put_back(taken.replaced);
        self.rests_at = taken.rests_at;
    }
}
