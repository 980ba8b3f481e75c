//! Playing a log.

ghost use Rattle.std.specs.Prelude.{◌≡◌, ◌↔◌, ℕ, List, [], ◌∷◌, IfOk, OnOk, IsTrue};
ghost use Rattle.sqlite_disk.specs.Disk.{Only};
ghost use Rattle.lives.specs.Repeats.{Repeats, RepeatsText, PlaysAll, KeepsPlayed, LeavesDamage};

use crate::fault::LifeFault;
use crate::machine::Machine;
use event_log::{Log, Owner, Reading, next_event};
use sqlite_disk::Disk;
use std::alloc::Global;

/// Plays the log of a file: has the machine take each event, and compares what it gives. Gives the log, and the outputs
/// of its last group. It may crash too.
pub(crate) fn play<M: Machine, D: Disk>(
    alloc: Global,
    owner: Owner,
    room: usize,
    machine: &mut M,
    disk: &mut D,
) -> Result<(Log, Vec<u8>), LifeFault>
    requires usable { IsTrue (D.Disk.is_usable disk.old) }
    requires restarted { Only (D.Disk.seen disk.old) (D.Disk.may_leave disk.old) }
    requires new { M.Machine.fits machine.old [] }
    ensures plays { IfOk result (λ played. IsTrue (D.Disk.is_clean disk.new)
        → PlaysAll M.Machine.fits D.Disk.seen D.Disk.may_leave owner (D.Disk.seen disk.old)
        machine.new played.0 disk.new played.1.items) }
    ensures usable { OnOk result (IsTrue (D.Disk.is_usable disk.new)) }
    ensures clean { IsTrue (D.Disk.is_clean disk.new) → IsTrue (D.Disk.is_clean disk.old) }
    ensures any_moment { IsTrue (D.Disk.is_clean disk.new)
        → KeepsPlayed D.Disk.may_leave owner (D.Disk.seen disk.old) disk.new }
    ensures damage { IsTrue (D.Disk.is_clean disk.new)
        → LeavesDamage D.Disk.may_leave owner (D.Disk.seen disk.old) disk.new }
{
    let mut reading = Reading::open(alloc, owner, disk)?;
    let mut last = Vec::new(alloc);
    while reading.next_group(disk)? {
        last.clear();
        repeat_text(alloc, machine, reading.text(), reading.first(), &mut last)?;
    }
    let log = reading.end(alloc, room, disk)?;
    Ok((log, last))
}

// Has the machine take the events of this text again, the first of which has this number.
fn repeat_text<M: Machine>(
    alloc: Global,
    machine: &mut M,
    text: &[u8],
    first: u64,
    given: &mut Vec<u8>,
) -> Result<(), LifeFault>
    ensures { OnOk result (
        RepeatsText M.Machine.fits machine.old machine.new text.now given.old.items given.new.items) }
{
    let mut number = first;
    let mut rest = text;
    while let Some((event, behind)) = next_event(rest) {
        repeat_event(alloc, machine, event, number, given)?;
        number = number.saturating_add(1);
        rest = behind;
    }
    Ok(())
}

// Has the machine take one event again. It has to give what the event says.
fn repeat_event<M: Machine>(
    alloc: Global,
    machine: &mut M,
    event: &[u8],
    number: u64,
    given: &mut Vec<u8>,
) -> Result<(), LifeFault>
    ensures { OnOk result (
        Repeats M.Machine.fits machine.old machine.new (event.now ∷ []) given.old.items given.new.items) }
{
    let Some((input, outputs)) = next_event(event) else {
        return Err(LifeFault::NoEvent { number });
    };
    let mut again = Vec::new(alloc);
    let moved = machine.step(alloc, input, &mut again)?;
    if !moved {
        return Err(LifeFault::Differs { number });
    }
    if !are_same(&again, outputs) {
        return Err(LifeFault::Differs { number });
    }
    given.extend_from_slice(outputs)?;
    Ok(())
}

// Whether a machine gave these outputs again.
fn are_same(again: &[u8], outputs: &[u8]) -> bool
    ensures { IsTrue result ↔ (again.now ≡ outputs.now) }
{
    again == outputs
}
