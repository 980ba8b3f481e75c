//! Groups on a disk.

ghost use Rattle.std.specs.Prelude.{◌≡◌, ◌+◌, ◌-◌, ◌<◌, ◌≤◌, ℕ, false, List, length, take, drop, IfOk, IsTrue};
ghost use Rattle.std.specs.Int.{w64, to_be_bytes};
ghost use Rattle.memchr.specs.Find.{FindsNeedle};
ghost use Rattle.event_log.specs.Groups.{SaysText};
ghost use Rattle.event_log.specs.declared.groups.TheConstants.{MAX_GROUP};
ghost use Rattle.event_log.specs.Finding.{FindsNextGroup, FitsNextGroup, FindsFirst, SearchesTo, JudgesPlace};

use crate::disks::read;
use crate::fault::LogFault;
use crate::groups::{EMPTY_GROUP, GROUP_HEAD, MAX_GROUP, text_len, whole_group};
use crate::owner::Owner;
use memchr::memmem;
use sqlite_disk::Disk;
use std::alloc::Global;

/// How many bytes are searched at once.
const WINDOW: usize = 65_536;

/// The group that begins at this place of a file of so many bytes: the number of its first event, and how many it has.
/// It is in the room then. `None` if none begins there.
pub(crate) fn group_at<D: Disk>(
    disk: &mut D,
    owner: Owner,
    len: usize,
    place: usize,
    room: &mut Vec<u8>,
) -> Result<Option<(u64, u64)>, LogFault>
    requires usable { IsTrue (D.Disk.is_usable disk.old) }
    requires inside { place ≤ len }
    ensures finds { IfOk result (λ found. IsTrue (D.Disk.is_clean disk.new) → len ≡ length (D.Disk.seen disk.old)
        → FindsNextGroup owner (drop place (D.Disk.seen disk.old)) room.new.items found) }
    ensures bounds { IfOk result (λ found. FitsNextGroup (len - place) room.new.items found) }
    ensures seen { D.Disk.seen disk.new ≡ D.Disk.seen disk.old }
    ensures crash { (file : List ℕ) → D.Disk.may_leave disk.new file → D.Disk.may_leave disk.old file }
    ensures clean { IsTrue (D.Disk.is_clean disk.new) → IsTrue (D.Disk.is_clean disk.old) }
    ensures usable { IsTrue (D.Disk.is_usable disk.new) }
{
    let left = len - place;
    if left < EMPTY_GROUP {
        return Ok(None);
    }
    read(disk, place, GROUP_HEAD, room)?;
    match text_len(owner, room) {
        Some(text) => {
            let found = group_of_text(disk, owner, left - EMPTY_GROUP, place, text, room)?;
            Ok(found)
        }
        None => Ok(None),
    }
}

// The same, if its head says so many bytes of events, and the file has so many more than those of an empty group.
fn group_of_text<D: Disk>(
    disk: &mut D,
    owner: Owner,
    more: usize,
    place: usize,
    text: usize,
    room: &mut Vec<u8>,
) -> Result<Option<(u64, u64)>, LogFault>
    requires usable { IsTrue (D.Disk.is_usable disk.old) }
    requires few { text ≤ MAX_GROUP }
    ensures finds { IfOk result (λ found. IsTrue (D.Disk.is_clean disk.new)
        → more + 28 ≡ length (drop place (D.Disk.seen disk.old))
        → SaysText owner (take 20 (drop place (D.Disk.seen disk.old))) text
        → FindsNextGroup owner (drop place (D.Disk.seen disk.old)) room.new.items found) }
    ensures bounds { IfOk result (λ found. FitsNextGroup (more + 28) room.new.items found) }
    ensures seen { D.Disk.seen disk.new ≡ D.Disk.seen disk.old }
    ensures crash { (file : List ℕ) → D.Disk.may_leave disk.new file → D.Disk.may_leave disk.old file }
    ensures clean { IsTrue (D.Disk.is_clean disk.new) → IsTrue (D.Disk.is_clean disk.old) }
    ensures usable { IsTrue (D.Disk.is_usable disk.new) }
{
    if more < text {
        return Ok(None);
    }
    read(disk, place, EMPTY_GROUP + text, room)?;
    Ok(whole_group(owner, room))
}

/// The first place from this one on at which a sound group begins, in a file of so many bytes.
pub(crate) fn find_group<D: Disk>(
    alloc: Global,
    disk: &mut D,
    owner: Owner,
    len: usize,
    from: usize,
) -> Result<Option<usize>, LogFault>
    requires usable { IsTrue (D.Disk.is_usable disk.old) }
    ensures finds { IfOk result (λ found. IsTrue (D.Disk.is_clean disk.new) → len ≡ length (D.Disk.seen disk.old)
        → FindsFirst owner (D.Disk.seen disk.old) from found) }
    ensures seen { D.Disk.seen disk.new ≡ D.Disk.seen disk.old }
    ensures crash { (file : List ℕ) → D.Disk.may_leave disk.new file → D.Disk.may_leave disk.old file }
    ensures clean { IsTrue (D.Disk.is_clean disk.new) → IsTrue (D.Disk.is_clean disk.old) }
    ensures usable { IsTrue (D.Disk.is_usable disk.new) }
{
    let mut window = Vec::new(alloc);
    let mut group = Vec::new(alloc);
    let mut place = from;
    while place < len {
        let (next, is_found) = search_window(disk, owner, len, place, &mut window, &mut group)?;
        if is_found {
            return Ok(Some(next));
        }
        place = next;
    }
    Ok(None)
}

// Searches the window that begins at this place. Gives the place of the first sound group in it, or the place up to
// which none begins, and whether it found one.
fn search_window<D: Disk>(
    disk: &mut D,
    owner: Owner,
    len: usize,
    place: usize,
    window: &mut Vec<u8>,
    group: &mut Vec<u8>,
) -> Result<(usize, bool), LogFault>
    requires usable { IsTrue (D.Disk.is_usable disk.old) }
    requires inside { place < len }
    ensures finds { IfOk result (λ r. IsTrue (D.Disk.is_clean disk.new) → len ≡ length (D.Disk.seen disk.old)
        → SearchesTo owner (D.Disk.seen disk.old) place r.0 r.1) }
    ensures further { IfOk result (λ r. r.1 ≡ false → place < r.0) }
    ensures seen { D.Disk.seen disk.new ≡ D.Disk.seen disk.old }
    ensures crash { (file : List ℕ) → D.Disk.may_leave disk.new file → D.Disk.may_leave disk.old file }
    ensures clean { IsTrue (D.Disk.is_clean disk.new) → IsTrue (D.Disk.is_clean disk.old) }
    ensures usable { IsTrue (D.Disk.is_usable disk.new) }
{
    let size = window_len(len - place);
    read(disk, place, size, window)?;
    match find_mark(owner, window) {
        Some(step) => {
            let judged = judge_place(disk, owner, len, place + step, group)?;
            Ok(judged)
        }
        None => Ok((place + passed_len(size), false)),
    }
}

// Whether a sound group begins at this place, and the place, or else the next one.
fn judge_place<D: Disk>(
    disk: &mut D,
    owner: Owner,
    len: usize,
    place: usize,
    group: &mut Vec<u8>,
) -> Result<(usize, bool), LogFault>
    requires usable { IsTrue (D.Disk.is_usable disk.old) }
    requires inside { place < len }
    ensures judges { IfOk result (λ r. IsTrue (D.Disk.is_clean disk.new) → len ≡ length (D.Disk.seen disk.old)
        → JudgesPlace owner (D.Disk.seen disk.old) place r.0 r.1) }
    ensures further { IfOk result (λ r. r.1 ≡ false → r.0 ≡ place + 1) }
    ensures seen { D.Disk.seen disk.new ≡ D.Disk.seen disk.old }
    ensures crash { (file : List ℕ) → D.Disk.may_leave disk.new file → D.Disk.may_leave disk.old file }
    ensures clean { IsTrue (D.Disk.is_clean disk.new) → IsTrue (D.Disk.is_clean disk.old) }
    ensures usable { IsTrue (D.Disk.is_usable disk.new) }
{
    let found = group_at(disk, owner, len, place, group)?;
    match found {
        Some(_) => Ok((place, true)),
        None => Ok((place + 1, false)),
    }
}

// How many bytes are searched at once, of so many that are left.
fn window_len(left: usize) -> usize
    requires { 0 < left }
    ensures some { 0 < result }
    ensures within { result ≤ left }
    ensures all { result < 28 → result ≡ left }
{
    if left < WINDOW { left } else { WINDOW }
}

// How many bytes are passed over if no mark stands in so many. One may begin in the last seven.
fn passed_len(size: usize) -> usize
    requires { 0 < size }
    ensures some { 0 < result }
    ensures within { result ≤ size }
    ensures many { 8 ≤ size → result + 7 ≡ size }
{
    if size < 8 { 1 } else { size - 7 }
}

// Where the owner's mark first stands.
fn find_mark(owner: Owner, window: &[u8]) -> Option<usize>
    ensures { FindsNeedle window.now (to_be_bytes w64 owner.mark) 0 result }
{
    memmem::find(window, &owner.mark.to_be_bytes())
}
