//! Reading from a disk.

ghost use Rattle.std.specs.Prelude.{◌≡◌, ◌<◌, ℕ, List, length, take, drop, IfOk, OnOk, IsTrue};

use crate::fault::LogFault;
use sqlite_disk::Disk;

/// How many bytes the file has.
pub(crate) fn len<D: Disk>(disk: &mut D) -> Result<usize, LogFault>
    requires usable { IsTrue (D.Disk.is_usable disk.old) }
    ensures len { IfOk result (λ len. IsTrue (D.Disk.is_clean disk.new) → len ≡ length (D.Disk.seen disk.old)) }
    ensures seen { D.Disk.seen disk.new ≡ D.Disk.seen disk.old }
    ensures crash { (file : List ℕ) → D.Disk.may_leave disk.new file → D.Disk.may_leave disk.old file }
    ensures clean { IsTrue (D.Disk.is_clean disk.new) → IsTrue (D.Disk.is_clean disk.old) }
    ensures usable { IsTrue (D.Disk.is_usable disk.new) }
{
    Ok(disk.len()?)
}

/// Reads so many bytes from this place on into the room, in place of what it had.
pub(crate) fn read<D: Disk>(
    disk: &mut D,
    place: usize,
    count: usize,
    room: &mut Vec<u8>,
) -> Result<(), LogFault>
    requires usable { IsTrue (D.Disk.is_usable disk.old) }
    requires some { 0 < count }
    ensures read { OnOk result (IsTrue (D.Disk.is_clean disk.new)
        → room.new.items ≡ take count (drop place (D.Disk.seen disk.old))) }
    ensures count { OnOk result (length room.new.items ≡ count) }
    ensures seen { D.Disk.seen disk.new ≡ D.Disk.seen disk.old }
    ensures crash { (file : List ℕ) → D.Disk.may_leave disk.new file → D.Disk.may_leave disk.old file }
    ensures clean { IsTrue (D.Disk.is_clean disk.new) → IsTrue (D.Disk.is_clean disk.old) }
    ensures usable { IsTrue (D.Disk.is_usable disk.new) }
{
    room.clear();
    room.resize(count, 0)?;
    disk.read_at(place, room)?;
    Ok(())
}
