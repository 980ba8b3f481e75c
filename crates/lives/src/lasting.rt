//! A machine with a log.

ghost use Rattle.std.specs.Prelude.{◌≡◌, OnOk};
ghost use Rattle.event_log.specs.Standing.{GathersMore};
ghost use Rattle.lives.specs.Events.{logged};

use crate::fault::LifeFault;
use crate::machine::Machine;
use crate::replaying::play;
use event_log::{Log, Owner};
use sqlite_disk::Disk;
use std::alloc::Global;

/// A machine with a log on a disk, and the outputs that are held back until their events are synced.
#[derive(Drop)]
pub struct Lasting<M: Machine, D: Disk> {
    machine: M,
    disk: D,
    log: Log,
    held: Vec<u8>,
    is_over: bool,
}

impl<M: Machine + Drop, D: Disk> Lasting<M, D> {
    ghost use Rattle.std.specs.Prelude.{[], IfOk, IfErr, OnErr, IsTrue, IsErr};
    ghost use Rattle.sqlite_disk.specs.Disk.{Only};
    ghost use Rattle.lives.specs.Lasts.{Lasts, Takes, GivesOut, KeepsFile, KeepsSynced, Plays, Rests, IsOver};
    ghost use Rattle.lives.specs.Repeats.{KeepsPlayed, LeavesDamage};

    /// The first life of a machine: makes a log in an empty file, of at most so many bytes.
    ///
    /// # Errors
    ///
    /// Log if the file has something, or can't be written. The disk is handed back.
    pub fn begin(
        alloc: Global,
        owner: Owner,
        room: usize,
        machine: M,
        disk: D,
    ) -> Result<Lasting<M, D>, (LifeFault, D)>
        requires usable { IsTrue (D.Disk.is_usable disk) }
        requires new { M.Machine.fits machine [] }
        ensures lasts { IfOk result (λ l. IsTrue (D.Disk.is_clean l.disk)
            → (D.Disk.seen disk ≡ []) × Lasts M.Machine.fits D.Disk.seen D.Disk.may_leave owner l [] []) }
        ensures usable { IfOk result (λ l. IsTrue (D.Disk.is_usable l.disk)) }
        // A file that has something is left as it is.
        ensures any_moment { IfErr result (λ e. IsTrue (D.Disk.is_clean e.1)
            → KeepsFile D.Disk.may_leave disk (D.Disk.seen disk) e.1) }
    {
        let mut disk = disk;
        match Log::create(alloc, owner, room, &mut disk) {
            Ok(log) => Ok(Lasting {
                machine,
                disk,
                log,
                held: Vec::new(alloc),
                is_over: false,
            }),
            Err(fault) => Err((fault.into(), disk)),
        }
    }

    /// A further life: plays the log of a file on a new machine, which has to give the same for each event. Gives the
    /// outputs of the log's last group too. They are to go out again, since a crash may have kept them back.
    ///
    /// # Errors
    ///
    /// Log if the file has no sound log of this owner, NoEvent and Differs at an event, Step and NoMemory. The disk is
    /// handed back.
    pub fn resume(
        alloc: Global,
        owner: Owner,
        room: usize,
        machine: M,
        disk: D,
    ) -> Result<(Lasting<M, D>, Vec<u8>), (LifeFault, D)>
        requires usable { IsTrue (D.Disk.is_usable disk) }
        requires restarted { Only (D.Disk.seen disk) (D.Disk.may_leave disk) }
        requires new { M.Machine.fits machine [] }
        ensures plays { IfOk result (λ r. IsTrue (D.Disk.is_clean r.0.disk)
            → Plays M.Machine.fits D.Disk.seen D.Disk.may_leave owner (D.Disk.seen disk) r.0 r.1.items) }
        ensures usable { IfOk result (λ r. IsTrue (D.Disk.is_usable r.0.disk)) }
        // A crash at any moment of the call leaves a file that keeps the whole history.
        ensures any_moment { IfOk result (λ r. IsTrue (D.Disk.is_clean r.0.disk)
            → KeepsPlayed D.Disk.may_leave owner (D.Disk.seen disk) r.0.disk) }
        ensures any_moment_err { IfErr result (λ e. IsTrue (D.Disk.is_clean e.1)
            → KeepsPlayed D.Disk.may_leave owner (D.Disk.seen disk) e.1) }
        // A damaged log is left as it is.
        ensures damage { IfErr result (λ e. IsTrue (D.Disk.is_clean e.1)
            → LeavesDamage D.Disk.may_leave owner (D.Disk.seen disk) e.1) }
    {
        let mut machine = machine;
        let mut disk = disk;
        match play(alloc, owner, room, &mut machine, &mut disk) {
            Ok((log, again)) => Ok((
                Lasting {
                    machine,
                    disk,
                    log,
                    held: Vec::new(alloc),
                    is_over: false,
                },
                again,
            )),
            Err(fault) => Err((fault, disk)),
        }
    }

    /// The machine.
    pub fn machine(&self) -> &M
        ensures { result.now ≡ self.now.machine }
    {
        &self.machine
    }

    /// Ends the life, and gives the disk.
    pub fn into_disk(self) -> D
        ensures { result ≡ self.disk }
    {
        self.disk
    }

    /// Has the machine take an input, and gives whether this moved it. The event is gathered for the log, and its
    /// outputs are held back.
    ///
    /// # Errors
    ///
    /// Any ends the life: the machine may be ahead of its log, so each later call is refused as Over.
    pub fn take(&mut self, alloc: Global, input: &[u8]) -> Result<bool, LifeFault>
        ensures takes { IfOk result (λ moved.
            Takes M.Machine.fits D.Disk.seen D.Disk.may_leave self.old self.new input.now moved) }
        ensures over { OnErr result (IsOver self.new) }
        ensures refused { IsOver self.old → IsErr result }
        ensures disk { self.new.disk ≡ self.old.disk }
    {
        if self.is_over {
            return Err(LifeFault::Over);
        }
        self.is_over = true;
        let before = self.held.len();
        let moved = self.machine.step(alloc, input, &mut self.held)?;
        if !moved {
            self.is_over = false;
            return Ok(false);
        }
        log_event(alloc, &mut self.log, input, &self.held[before..])?;
        self.is_over = false;
        Ok(true)
    }

    /// Writes the events that were gathered, syncs, and only then gives their outputs, in order. It writes nothing if
    /// there are none.
    ///
    /// # Errors
    ///
    /// Any ends the life: what the disk has is unknown, so each later call is refused as Over.
    pub fn sync(&mut self, alloc: Global) -> Result<Vec<u8>, LifeFault>
        requires usable { IsTrue (D.Disk.is_usable self.old.disk) }
        ensures gives { IfOk result (λ given.
            GivesOut M.Machine.fits D.Disk.seen D.Disk.may_leave self.old self.new given.items) }
        ensures over { OnErr result (IsOver self.new) }
        ensures refused { IsOver self.old → IsErr result }
        ensures usable { OnOk result (IsTrue (D.Disk.is_usable self.new.disk)) }
        // Whatever the result is: a crash at any moment of the call leaves a file that keeps all synced events.
        ensures any_moment { KeepsSynced M.Machine.fits D.Disk.seen D.Disk.may_leave self.old self.new }
    {
        if self.is_over {
            return Err(LifeFault::Over);
        }
        self.is_over = true;
        self.log.sync(alloc, &mut self.disk)?;
        self.is_over = false;
        Ok(std::mem::replace(&mut self.held, Vec::new(alloc)))
    }

    /// Writes an empty group if no event is held, and syncs: damage to the last events is then told from a torn tail.
    /// To be called once no input waits.
    ///
    /// # Errors
    ///
    /// As those of [`Lasting::sync`].
    pub fn rest(&mut self, alloc: Global) -> Result<(), LifeFault>
        requires usable { IsTrue (D.Disk.is_usable self.old.disk) }
        ensures lasts { OnOk result (Rests M.Machine.fits D.Disk.seen D.Disk.may_leave self.old self.new) }
        ensures over { OnErr result (IsOver self.new) }
        ensures usable { OnOk result (IsTrue (D.Disk.is_usable self.new.disk)) }
        ensures any_moment { KeepsSynced M.Machine.fits D.Disk.seen D.Disk.may_leave self.old self.new }
    {
        if self.is_over {
            return Err(LifeFault::Over);
        }
        self.is_over = true;
        self.log.rest(alloc, &mut self.disk)?;
        self.is_over = false;
        Ok(())
    }
}

// Gathers an event for the log.
fn log_event(alloc: Global, log: &mut Log, input: &[u8], outputs: &[u8]) -> Result<(), LifeFault>
    ensures { OnOk result (GathersMore log.old log.new (logged (input.now, outputs.now))) }
{
    let len = input.len();
    if len > u32::MAX as usize {
        return Err(LifeFault::TooLong { len });
    }
    let mut event = Vec::new(alloc);
    event.extend_from_slice(&(len as u32).to_be_bytes())?;
    event.extend_from_slice(input)?;
    event.extend_from_slice(outputs)?;
    log.put(&event)?;
    Ok(())
}
