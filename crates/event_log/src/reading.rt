//! A log that is read.

ghost use Rattle.std.specs.Prelude.{◌≡◌, ◌≤◌};

use crate::disks::{len, read};
use crate::fault::LogFault;
use crate::finding::{find_group, group_at};
use crate::groups::{EMPTY_GROUP, GROUP_HEAD};
use crate::header::{HEADER_LEN, judge_header};
use crate::log::Log;
use crate::owner::Owner;
use sqlite_disk::Disk;
use std::alloc::Global;

/// A log that is read, group by group. It keeps one group.
#[derive(Drop)]
pub struct Reading {
    owner: Owner,
    len: usize,
    place: usize,
    first: u64,
    number: u64,
    group: Vec<u8>,
    ghost inside: { place ≤ len },
}

impl Reading {
    ghost use Rattle.std.specs.Prelude.{◌<◌, ℕ, List, [], IfOk, OnOk, IsTrue};
    ghost use Rattle.sqlite_disk.specs.Disk.{Only};
    ghost use Rattle.event_log.specs.Standing.{IsAt, ReadsNext, EndsReading, LeavesDamage, KeepsRead, Cuts, KeepsCut};
    ghost use Rattle.event_log.specs.Standing.{text_of, unread};

    /// Begins to read the log of an owner: behind its header.
    ///
    /// # Errors
    ///
    /// Missing, Unmade, NoLog, DamagedHeader or Foreign if the file doesn't begin with the owner's header, NoMemory and
    /// Disk.
    pub fn open<D: Disk>(alloc: Global, owner: Owner, disk: &mut D) -> Result<Reading, LogFault>
        requires usable { IsTrue (D.Disk.is_usable disk.old) }
        ensures at { IfOk result (λ reading. IsTrue (D.Disk.is_clean disk.new)
            → IsAt owner reading (D.Disk.seen disk.old) []) }
        ensures seen { D.Disk.seen disk.new ≡ D.Disk.seen disk.old }
        ensures crash { (file : List ℕ) → D.Disk.may_leave disk.new file → D.Disk.may_leave disk.old file }
        ensures clean { IsTrue (D.Disk.is_clean disk.new) → IsTrue (D.Disk.is_clean disk.old) }
        ensures usable { IsTrue (D.Disk.is_usable disk.new) }
    {
        let len = len(disk)?;
        if len == 0 {
            return Err(LogFault::Missing);
        }
        if len < HEADER_LEN {
            return Err(LogFault::Unmade { len });
        }
        let mut group = Vec::new(alloc);
        read(disk, 0, HEADER_LEN, &mut group)?;
        judge_header(alloc, owner, &group)?;
        group.clear();
        Ok(Reading {
            owner,
            len,
            place: HEADER_LEN,
            first: 0,
            number: 0,
            group,
        })
    }

    /// Reads the next group, and gives whether a sound group of the next number stood there.
    ///
    /// # Errors
    ///
    /// NoMemory and Disk.
    pub fn next_group<D: Disk>(&mut self, disk: &mut D) -> Result<bool, LogFault>
        requires usable { IsTrue (D.Disk.is_usable disk.old) }
        ensures next { IfOk result (λ more. IsTrue (D.Disk.is_clean disk.new)
            → ReadsNext self.old (D.Disk.seen disk.old) more self.new) }
        ensures shorter { IfOk result (λ more. IsTrue more → unread self.new < unread self.old) }
        ensures seen { D.Disk.seen disk.new ≡ D.Disk.seen disk.old }
        ensures crash { (file : List ℕ) → D.Disk.may_leave disk.new file → D.Disk.may_leave disk.old file }
        ensures clean { IsTrue (D.Disk.is_clean disk.new) → IsTrue (D.Disk.is_clean disk.old) }
        ensures usable { IsTrue (D.Disk.is_usable disk.new) }
    {
        let found = group_at(disk, self.owner, self.len, self.place, &mut self.group)?;
        let Some((number, count)) = found else {
            return Ok(false);
        };
        if number != self.number {
            return Ok(false);
        }
        self.place += self.group.len();
        self.first = number;
        self.number += count;
        Ok(true)
    }

    /// The bytes of the events of the group that was read last, for [`next_event`](crate::next_event).
    pub fn text(&self) -> &[u8]
        ensures { result.now ≡ text_of self.now }
    {
        let len = self.group.len();
        if len < EMPTY_GROUP {
            return &[];
        }
        &self.group[GROUP_HEAD..len - 8]
    }

    /// The number of the first event of the group that was read last.
    pub fn first(&self) -> u64 {
        self.first
    }

    /// Ends reading: cuts what is behind the groups that were read, and goes on there.
    ///
    /// # Errors
    ///
    /// Damaged if a sound group stands anywhere behind them: nothing is cut then. NoMemory and Disk.
    pub fn end<D: Disk>(self, alloc: Global, room: usize, disk: &mut D) -> Result<Log, LogFault>
        requires usable { IsTrue (D.Disk.is_usable disk.old) }
        requires restarted { Only (D.Disk.seen disk.old) (D.Disk.may_leave disk.old) }
        ensures reads { IfOk result (λ log. IsTrue (D.Disk.is_clean disk.new)
            → EndsReading D.Disk.seen D.Disk.may_leave self (D.Disk.seen disk.old) log disk.new) }
        ensures usable { OnOk result (IsTrue (D.Disk.is_usable disk.new)) }
        ensures clean { IsTrue (D.Disk.is_clean disk.new) → IsTrue (D.Disk.is_clean disk.old) }
        // Whatever the result is: a crash at any moment of the call leaves a file that keeps all events.
        ensures any_moment { IsTrue (D.Disk.is_clean disk.new)
            → KeepsRead D.Disk.may_leave self (D.Disk.seen disk.old) disk.new }
        ensures damage { IsTrue (D.Disk.is_clean disk.new)
            → LeavesDamage D.Disk.may_leave self (D.Disk.seen disk.old) disk.new }
    {
        let found = find_group(alloc, disk, self.owner, self.len, self.place)?;
        match found {
            Some(sound) => Err(LogFault::Damaged {
                place: self.place,
                number: self.number,
                sound,
            }),
            None => {
                let log = self.cut(alloc, room, disk)?;
                Ok(log)
            }
        }
    }

    // Cuts what is behind the groups that were read, and goes on there.
    fn cut<D: Disk>(self, alloc: Global, room: usize, disk: &mut D) -> Result<Log, LogFault>
        requires usable { IsTrue (D.Disk.is_usable disk.old) }
        requires restarted { Only (D.Disk.seen disk.old) (D.Disk.may_leave disk.old) }
        ensures cuts { IfOk result (λ log. Cuts D.Disk.seen D.Disk.may_leave self (D.Disk.seen disk.old) log disk.new) }
        ensures usable { OnOk result (IsTrue (D.Disk.is_usable disk.new)) }
        ensures clean { IsTrue (D.Disk.is_clean disk.new) → IsTrue (D.Disk.is_clean disk.old) }
        ensures any_moment { KeepsCut D.Disk.may_leave self (D.Disk.seen disk.old) disk.new }
    {
        disk.set_len(self.place)?;
        disk.sync()?;
        Ok(Log::behind(alloc, self.owner, room, self.place, self.number))
    }
}
