//! The page texts of one space, and a space by them.

ghost use Rattle.std.specs.Prelude.{◌≡◌, ◌≢◌, ◌≤◌, ◌<◌, Err, true, length, take, drop, IfOk, IfErr, OnErr};
ghost use Rattle.space.specs.Pages.{tuple_page_text, texts_of};
ghost use Rattle.space_library.specs.Refusals.{is_refusal};
ghost use Rattle.space_library.specs.Paged.{ArePagesCut, ArePagesOfNone, cut, total};

use crate::running::{MALFORMED, NO_MEMORY, TOO_LARGE};
use crate::writing::put;
use space::{PAGES, Space};
use std::alloc::Global;
use tuple_codec::Bad;

/// Writes the text of a page in front of `out`, and gives how many bytes it has. A refusal writes nothing.
pub fn write_page(space: &Space, page: usize, out: &mut [u8]) -> Result<usize, u8>
    ensures ok { IfOk result (λ len. take len out.new ≡ tuple_page_text space.now page) }
    ensures rest { IfOk result (λ len. drop len out.new ≡ drop len out.old) }
    ensures written { IfOk result (λ len. len ≤ length out.old) }
    ensures err { OnErr result (out.new ≡ out.old) }
    ensures malformed { result ≡ Err 5 → PAGES ≤ page }
    ensures too_large { result ≡ Err 7 → length out.old < length (tuple_page_text space.now page) }
    ensures refusal { (result ≢ Err 0) × (result ≢ Err 27) }
    ensures number { IfErr result (λ n. is_refusal n ≡ true) }
{
    if page >= PAGES {
        return Err(MALFORMED);
    }
    let Ok(text) = space.page_text(page) else {
        return Err(NO_MEMORY);
    };
    if out.len() < text.len() {
        return Err(TOO_LARGE);
    }
    Ok(put(0, text.as_slice(), out))
}

/// The space by the texts of its pages, which stand one behind another, and their lengths, and how many batches were
/// executed by its header.
#[tactic(auto, using(crate::proofs::Cutting::pages_cut, crate::proofs::Cutting::none_by_total, crate::proofs::Cutting::none_by_pages))]
pub fn read_pages(
    alloc: Global,
    texts: &[u8],
    lengths: &[usize; PAGES],
    header: &[u8],
) -> Result<(Space, u64), u8>
    ensures ok { IfOk result (λ x. ArePagesCut lengths.now texts.now header.now x.0 x.1) }
    ensures malformed { result ≡ Err 5 → ArePagesOfNone lengths.now texts.now header.now }
    ensures refusal { result ≢ Err 0 }
    ensures number { IfErr result (λ n. is_refusal n ≡ true) }
{
    let pages = cut_pages(alloc, texts, lengths)?;
    match Space::from_pages(alloc, pages.as_slice(), header) {
        Ok(read) => Ok(read),
        Err(Bad::Malformed) => Err(MALFORMED),
        Err(Bad::NoMemory) => Err(NO_MEMORY),
    }
}

// The texts of these lengths, which stand one behind another and are all of the bytes.
fn cut_pages<'t>(alloc: Global, texts: &'t [u8], lengths: &[usize]) -> Result<Vec<&'t [u8]>, u8>
    ensures ok { IfOk result (λ pages. texts_of pages.items ≡ cut lengths.now texts.now) }
    ensures all { IfOk result (λ pages. total lengths.now ≡ length texts.now) }
    ensures malformed { result ≡ Err 5 → total lengths.now ≢ length texts.now }
    ensures refusal { result ≢ Err 0 }
    ensures number { IfErr result (λ n. is_refusal n ≡ true) }
{
    let mut pages = Vec::new(alloc);
    let mut rest = texts;
    for len in lengths {
        if *len > rest.len() {
            return Err(MALFORMED);
        }
        let (page, after) = rest.split_at(*len);
        let Ok(()) = pages.push(page) else {
            return Err(NO_MEMORY);
        };
        rest = after;
    }
    if rest.is_empty() {
        Ok(pages)
    } else {
        Err(MALFORMED)
    }
}
