//! What C calls for a space that lasts. A handle stands for the space. Each call takes the space out of it, and puts it
//! back.

ghost use Rattle.std.specs.Prelude.{◌≡◌, ◌≢◌, ◌↔◌, ◌^◌, ◌≤◌, ◌<◌, None, Some, true, length, take, drop, IfSome};
ghost use Rattle.tuple_codec.specs.Spelling.{SpellsSomeOperation};
ghost use Rattle.space.specs.Births.{empty_in};
ghost use Rattle.space.specs.Pages.{tuple_page_text};
ghost use Rattle.space.specs.declared.version.Version.TheVariants as Version;
ghost use Rattle.space_library.specs.Applied.{AppliesHeld, AsksForMore};
ghost use Rattle.space_library.specs.Refusals.{is_refusal};
ghost use Rattle.space_library.specs.Paged.{IsPageHeld, IsHeaderHeld, HoldsPages, ArePagesOfNone};

use crate::applying::apply_spelled;
use crate::handle::Handle;
use crate::paging::{read_pages, write_page};
use crate::running::{BAD_VERSION, CLOSED, NO_MEMORY, NONE};
use space::{HEADER_LEN, PAGES, Space};
use std::alloc::Global;

/// Opens a new space of version 1 or 2. A space that the handle held is gone.
///
/// It gives 0, or the number of a refusal, which leaves the handle with what it held:
///
/// - 4, memory ran out;
/// - 25, there is no such version.
#[unsafe(no_mangle)]
pub extern "C" fn btspace_open(alloc: Global, version: u8, handle: &mut Handle) -> u8
    ensures one { result ≡ 0 → version ≡ 1 → handle.new.held ≡ Some (empty_in Version.One) }
    ensures two { result ≡ 0 → version ≡ 2 → handle.new.held ≡ Some (empty_in Version.Two) }
    ensures refused { result ≢ 0 → handle.new.held ≡ handle.old.held }
    ensures version { (result ≡ 25) ↔ ((version ≢ 1) × (version ≢ 2)) }
    ensures number { result ≢ 0 → is_refusal result ≡ true }
{
    let space = match version {
        1 => Space::new(alloc),
        2 => Space::new_v2(alloc),
        _ => return BAD_VERSION,
    };
    hold(alloc, handle, space)
}

/// Closes the handle. The space that it held is gone. Closing a closed one does nothing.
#[unsafe(no_mangle)]
pub extern "C" fn btspace_close(alloc: Global, handle: &mut Handle)
    ensures { handle.new.held ≡ None }
{
    let _space = handle.take(alloc);
}

/// Applies the operation that the bytes, whole, spell, as client 0's, and writes its answer.
///
/// It gives 0, or the number of a refusal, after which all is as it was:
///
/// - 27, the handle is closed;
/// - 5, the bytes spell no operation;
/// - 4, memory ran out;
/// - 7, the longest answer that the operation may have doesn't fit;
/// - 21, no birth number is left, which takes 2 to the power of 53 operations.
#[unsafe(no_mangle)]
pub extern "C" fn btspace_apply(
    alloc: Global,
    handle: &mut Handle,
    operation: &[u8],
    answer: &mut [u8],
    written: &mut usize,
) -> u8
    // The space acted, and its answer was written.
    ensures applied { result ≡ 0 → AppliesHeld operation.now (take written.new answer.new)
        handle.old.held handle.new.held }

    // The rest of the answer's bytes stays.
    ensures rest { drop written.new answer.new ≡ drop written.new answer.old }
    ensures written { written.new ≤ length answer.old }

    // A refusal changes nothing, and writes nothing.
    ensures refused { result ≢ 0 → (handle.new.held ≡ handle.old.held) × (written.new ≡ 0) }

    ensures closed { (result ≡ 27) ↔ (handle.old.held ≡ None) }
    ensures malformed { result ≡ 5 → SpellsSomeOperation operation.now → ⊥ }
    ensures too_large { result ≡ 7 → AsksForMore operation.now (length answer.old) }
    ensures stopped { result ≡ 21 → IfSome handle.old.held (λ s. 2 ^ 62 ≤ s.next) }
    ensures number { result ≢ 0 → is_refusal result ≡ true }
{
    *written = 0;
    let Some(mut space) = handle.take(alloc) else {
        return CLOSED;
    };
    let applied = apply_spelled(alloc, &mut space, operation, answer);
    handle.put(alloc, space);
    match applied {
        Ok(len) => {
            *written = len;
            NONE
        }
        Err(refusal) => refusal,
    }
}

/// Writes the text of page `page`, 0 to 255, of the space. It has at most 66,176 bytes.
///
/// It gives 0, or the number of a refusal, which writes nothing:
///
/// - 27, the handle is closed;
/// - 5, there is no such page;
/// - 4, memory ran out;
/// - 7, the text doesn't fit.
#[unsafe(no_mangle)]
pub extern "C" fn btspace_page(
    alloc: Global,
    handle: &mut Handle,
    page: usize,
    text: &mut [u8],
    written: &mut usize,
) -> u8
    ensures page { result ≡ 0 → IsPageHeld handle.old.held page (take written.new text.new) }
    ensures same { handle.new.held ≡ handle.old.held }
    ensures rest { drop written.new text.new ≡ drop written.new text.old }
    ensures written { written.new ≤ length text.old }
    ensures refused { result ≢ 0 → written.new ≡ 0 }
    ensures closed { (result ≡ 27) ↔ (handle.old.held ≡ None) }
    ensures malformed { result ≡ 5 → PAGES ≤ page }
    ensures too_large { result ≡ 7 → IfSome handle.old.held
        (λ s. length text.old < length (tuple_page_text s page)) }
    ensures number { result ≢ 0 → is_refusal result ≡ true }
{
    *written = 0;
    let Some(space) = handle.take(alloc) else {
        return CLOSED;
    };
    let shown = write_page(&space, page, text);
    handle.put(alloc, space);
    match shown {
        Ok(len) => {
            *written = len;
            NONE
        }
        Err(refusal) => refusal,
    }
}

/// Writes the text of the header of the space after `number` executed batches. It gives 0, or 27 if the handle is
/// closed; then nothing is written.
#[unsafe(no_mangle)]
pub extern "C" fn btspace_header(
    alloc: Global,
    handle: &mut Handle,
    number: u64,
    header: &mut [u8; HEADER_LEN],
) -> u8
    ensures header { result ≡ 0 → IsHeaderHeld handle.old.held number header.new }
    ensures same { handle.new.held ≡ handle.old.held }
    ensures refused { result ≢ 0 → header.new ≡ header.old }
    ensures closed { (result ≡ 27) ↔ (handle.old.held ≡ None) }
    ensures known { result ≢ 0 → result ≡ 27 }
{
    let Some(space) = handle.take(alloc) else {
        return CLOSED;
    };
    *header = space.header_text(number);
    handle.put(alloc, space);
    NONE
}

/// Opens the space of a state by the texts of its pages 0 to 255, which stand one behind another, with their lengths,
/// and by its header. It tells how many batches were executed by the header. A space that the handle held is gone.
///
/// It gives 0, or the number of a refusal, which leaves the handle with what it held, and the number as it was:
///
/// - 5, the texts, the lengths and the header are those of no state (`Space::from_pages`);
/// - 4, memory ran out.
#[unsafe(no_mangle)]
pub extern "C" fn btspace_from_pages(
    alloc: Global,
    texts: &[u8],
    lengths: &[usize; PAGES],
    header: &[u8],
    handle: &mut Handle,
    number: &mut u64,
) -> u8
    ensures read { result ≡ 0 → HoldsPages lengths.now texts.now header.now handle.new.held number.new }
    ensures refused { result ≢ 0 → (handle.new.held ≡ handle.old.held) × (number.new ≡ number.old) }
    ensures malformed { result ≡ 5 → ArePagesOfNone lengths.now texts.now header.now }
    ensures number { result ≢ 0 → is_refusal result ≡ true }
{
    match read_pages(alloc, texts, lengths, header) {
        Ok((space, executed)) => {
            let held = hold(alloc, handle, space);
            if held == NONE {
                *number = executed;
            }
            held
        }
        Err(refusal) => refusal,
    }
}

// Holds this space from now on; 4 if memory ran out.
fn hold(alloc: Global, handle: &mut Handle, space: Space) -> u8
    ensures ok { result ≡ 0 → handle.new.held ≡ Some space }
    ensures err { result ≢ 0 → handle.new.held ≡ handle.old.held }
    ensures known { result ≢ 0 → result ≡ 4 }
{
    match Box::new(alloc, space) {
        Ok(boxed) => {
            handle.put(alloc, boxed);
            NONE
        }
        Err(_) => NO_MEMORY,
    }
}
