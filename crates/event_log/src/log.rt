//! A log that goes on.

ghost use Rattle.std.specs.Prelude.{◌≡◌, ◌+◌, ◌<◌, ◌≤◌, ◌^◌, false, length, vec_len, OnOk, IsTrue};
ghost use Rattle.sqlite_disk.specs.Disk.{Follows, Holds, Only, Torn};
ghost use Rattle.event_log.specs.declared.groups.TheConstants.{MAX_GROUP};

use crate::disks::len;
use crate::events::put_event;
use crate::fault::LogFault;
use crate::groups::{EMPTY_GROUP, MAX_GROUP, group};
use crate::header::{HEADER_LEN, header};
use crate::owner::Owner;
use sqlite_disk::Disk;
use std::alloc::Global;

/// A log that goes on: where its file ends, and the events that it gathers for its next group.
#[derive(Drop)]
pub struct Log {
    owner: Owner,
    room: usize,
    end: usize,
    number: u64,
    gathered: Vec<u8>,
    count: u64,
    is_resting: bool,
    ghost short: { vec_len gathered ≤ MAX_GROUP },
    ghost numbered: { number + count < 2 ^ 64 },
}

impl Log {
    ghost use Rattle.std.specs.Prelude.{ℕ, List, [], IfOk, OnErr};
    ghost use Rattle.event_log.specs.Standing.{GathersMore, GathersTheSame, Stands, Syncs, Rests, KeepsSynced};

    /// Makes a log in an empty file of at most so many bytes.
    ///
    /// # Errors
    ///
    /// Exists if there is something in the file: it is left as it is. NoMemory and Disk.
    pub fn create<D: Disk>(
        alloc: Global,
        owner: Owner,
        room: usize,
        disk: &mut D,
    ) -> Result<Log, LogFault>
        requires usable { IsTrue (D.Disk.is_usable disk.old) }
        ensures stands { IfOk result (λ log. IsTrue (D.Disk.is_clean disk.new)
            → (D.Disk.seen disk.old ≡ []) × Stands D.Disk.seen D.Disk.may_leave owner log disk.new [] []) }
        ensures usable { OnOk result (IsTrue (D.Disk.is_usable disk.new)) }
        ensures clean { IsTrue (D.Disk.is_clean disk.new) → IsTrue (D.Disk.is_clean disk.old) }
        // A file that has something is left as it is.
        ensures any_moment { IsTrue (D.Disk.is_clean disk.new) → 0 < length (D.Disk.seen disk.old)
            → (file : List ℕ) → D.Disk.may_leave disk.new file → D.Disk.may_leave disk.old file }
    {
        if len(disk)? != 0 {
            return Err(LogFault::Exists);
        }
        let header = header(alloc, owner)?;
        write_synced(disk, 0, &header)?;
        let mut log = Log::behind(alloc, owner, room, HEADER_LEN, 0);
        log.is_resting = true;
        Ok(log)
    }

    /// A log whose file ends here, behind so many events.
    pub(crate) fn behind(alloc: Global, owner: Owner, room: usize, end: usize, number: u64) -> Log
        ensures place { (result.owner ≡ owner) × (result.end ≡ end) × (result.number ≡ number) }
        ensures empty { (result.gathered.items ≡ []) × (result.count ≡ 0) × (result.is_resting ≡ false) }
    {
        Log {
            owner,
            room,
            end,
            number,
            gathered: Vec::new(alloc),
            count: 0,
            is_resting: false,
        }
    }

    /// Gathers an event for the next group. Nothing is written yet.
    ///
    /// # Errors
    ///
    /// TooLong if the group has no room for it, Full if the file has none, and NoMemory. The log is as it was then.
    pub fn put(&mut self, event: &[u8]) -> Result<(), LogFault>
        ensures ok { OnOk result (GathersMore self.old self.new event.now) }
        ensures err { OnErr result (GathersTheSame self.old self.new) }
    {
        let len = event.len();
        if len > MAX_GROUP || len + 4 > MAX_GROUP - self.gathered.len() {
            return Err(LogFault::TooLong { len });
        }
        let room = self.room;
        let used = self
            .end
            .saturating_add(2 * EMPTY_GROUP + 4 + self.gathered.len() + len);
        if used > room || self.number + self.count == u64::MAX {
            return Err(LogFault::Full { room });
        }
        put_event(event, &mut self.gathered)?;
        self.count += 1;
        Ok(())
    }

    /// Writes all events that were gathered as one group, and syncs. It writes nothing if there are none.
    ///
    /// # Errors
    ///
    /// NoMemory and Disk. What the disk has is unknown then, so nothing more may be asked of the log: it is to be read
    /// again.
    pub fn sync<D: Disk>(&mut self, alloc: Global, disk: &mut D) -> Result<(), LogFault>
        requires usable { IsTrue (D.Disk.is_usable disk.old) }
        ensures syncs { OnOk result (Syncs D.Disk.seen D.Disk.may_leave self.old disk.old self.new disk.new) }
        ensures usable { OnOk result (IsTrue (D.Disk.is_usable disk.new)) }
        ensures clean { IsTrue (D.Disk.is_clean disk.new) → IsTrue (D.Disk.is_clean disk.old) }
        // Whatever the result is: a crash at any moment of the call leaves a file that keeps all synced events.
        ensures any_moment { KeepsSynced D.Disk.seen D.Disk.may_leave self.old disk.old disk.new }
    {
        if self.count == 0 {
            return Ok(());
        }
        self.write_group(alloc, disk)
    }

    /// Writes an empty group if no event is gathered, and syncs. Damage to the group before it is then told from a torn
    /// tail. It writes nothing if the last group is its own empty one.
    ///
    /// # Errors
    ///
    /// As those of [`Log::sync`].
    pub fn rest<D: Disk>(&mut self, alloc: Global, disk: &mut D) -> Result<(), LogFault>
        requires usable { IsTrue (D.Disk.is_usable disk.old) }
        ensures rests { OnOk result (Rests D.Disk.seen D.Disk.may_leave self.old disk.old self.new disk.new) }
        ensures usable { OnOk result (IsTrue (D.Disk.is_usable disk.new)) }
        ensures clean { IsTrue (D.Disk.is_clean disk.new) → IsTrue (D.Disk.is_clean disk.old) }
        ensures any_moment { KeepsSynced D.Disk.seen D.Disk.may_leave self.old disk.old disk.new }
    {
        if self.count > 0 || self.is_resting {
            return Ok(());
        }
        self.write_group(alloc, disk)?;
        Ok(())
    }

    // Writes what is gathered as one group, and syncs.
    fn write_group<D: Disk>(&mut self, alloc: Global, disk: &mut D) -> Result<(), LogFault>
        requires usable { IsTrue (D.Disk.is_usable disk.old) }
        ensures resting { OnOk result (self.old.count ≡ 0 → IsTrue self.new.is_resting) }
        ensures syncs { OnOk result (Syncs D.Disk.seen D.Disk.may_leave self.old disk.old self.new disk.new) }
        ensures usable { OnOk result (IsTrue (D.Disk.is_usable disk.new)) }
        ensures clean { IsTrue (D.Disk.is_clean disk.new) → IsTrue (D.Disk.is_clean disk.old) }
        ensures any_moment { KeepsSynced D.Disk.seen D.Disk.may_leave self.old disk.old disk.new }
    {
        let group = group(alloc, self.owner, self.number, &self.gathered)?;
        let Some(end) = self.end.checked_add(group.len()) else {
            return Err(LogFault::Full { room: self.room });
        };
        write_synced(disk, self.end, &group)?;
        self.end = end;
        self.number += self.count;
        self.is_resting = self.count == 0;
        self.gathered.clear();
        self.count = 0;
        Ok(())
    }
}

// Writes bytes at this place, and syncs.
fn write_synced<D: Disk>(disk: &mut D, place: usize, bytes: &[u8]) -> Result<(), LogFault>
    requires usable { IsTrue (D.Disk.is_usable disk.old) }
    requires some { 0 < length bytes.now }
    ensures written { OnOk result (Holds (D.Disk.seen disk.new) place bytes.now) }
    ensures torn { Torn place (length bytes.now) (D.Disk.seen disk.old) (D.Disk.seen disk.new) }
    ensures durable { OnOk result (Only (D.Disk.seen disk.new) (D.Disk.may_leave disk.new)) }
    ensures usable { OnOk result (IsTrue (D.Disk.is_usable disk.new)) }
    ensures clean { IsTrue (D.Disk.is_clean disk.new) → IsTrue (D.Disk.is_clean disk.old) }
    ensures crash { Follows (Torn place (length bytes.now)) (D.Disk.may_leave disk.old) (D.Disk.may_leave disk.new) }
{
    disk.write_at(place, bytes)?;
    disk.sync()?;
    Ok(())
}
