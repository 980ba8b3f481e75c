//! Worked pages of replies, texts that are no reply's, and memory refused.

ghost use Rattle.std.specs.Prelude.{◌≡◌, ◌≤◌};

use crate::answers::holds;
use reply_cache::ReplyCache;
use std::alloc::Global;
use terms::{ClientId, MAX_CLIENTS, NoMemory};
use test_bytes::{Verdict, all_hold};
use tuple_codec::{Answer, Bad};
use tuple_tree::{Atom, Refusal, Tuple, Value};

// The answer `done` to a first request that ran in the first batch.
const DONE: &[u8; 17] = b"\0\0\0\0\0\0\0\x01\0\0\0\0\0\0\0\x011";

// The answer `found (1)` to a request of timestamp 258 in batch 3.
const FOUND: &[u8; 27] = b"\0\0\0\0\0\0\x01\x02\0\0\0\0\0\0\0\x032\x01\x01\0\0\0\0\0\0\0\x01";

fn client(number: u8) -> ClientId
    ensures { result.number ≡ number }
{
    ClientId {
        number: u16::from(number),
    }
}

fn found(alloc: Global) -> Result<Answer<Global>, Refusal> {
    let mut tuple = Tuple::new_in(alloc);
    match tuple.push(Value::Atom(Atom::Number(1))) {
        Ok(()) => Ok(Answer::Found(tuple)),
        Err(pushed) => Err(pushed.refusal),
    }
}

// The page's text, at the second try if memory ran out at the first one.
fn page_of(cache: &ReplyCache, client: ClientId) -> Result<Vec<u8>, NoMemory> {
    match cache.page_text(client) {
        Ok(text) => Ok(text),
        Err(_) => cache.page_text(client),
    }
}

fn has_page(cache: &ReplyCache, client: ClientId, text: &[u8]) -> bool {
    match page_of(cache, client) {
        Ok(page) => page.as_slice() == text,
        Err(_) => false,
    }
}

fn has_no_replies(cache: &ReplyCache) -> bool {
    cache.seen(client(0)) == 0
        && cache.last(client(255)).is_none()
        && has_page(cache, client(0), b"")
}

// Whether client 7 has its second reply alone, and the client before it none.
fn is_replaced(cache: &ReplyCache) -> bool {
    let Some(reply) = cache.last(client(7)) else {
        return false;
    };
    cache.seen(client(7)) == 6
        && cache.seen(client(6)) == 0
        && (reply.timestamp, reply.number) == (6, 9)
        && matches!(&reply.answer, Answer::Swapped(true))
}

// The replies with these pages, at the second try if memory ran out at the first one.
fn read(alloc: Global, pages: &[&[u8]]) -> Result<ReplyCache, Bad> {
    match ReplyCache::from_pages(alloc, pages) {
        Err(Bad::NoMemory) => ReplyCache::from_pages(alloc, pages),
        first => first,
    }
}

fn has_pages(cache: &ReplyCache, pages: &[&[u8]]) -> bool {
    for (number, text) in pages.iter().enumerate() {
        if number >= MAX_CLIENTS || !has_page(cache, client(number as u8), text) {
            return false;
        }
    }
    true
}

// The result of reading these pages: whether the cache has the pages again.
fn is_read(alloc: Global, pages: &[&[u8]]) -> Result<bool, Bad> {
    let cache = read(alloc, pages)?;
    Ok(has_pages(&cache, pages))
}

// The same if all pages are empty except one.
fn is_page_read(alloc: Global, client: u8, text: &[u8]) -> Result<bool, Bad> {
    let mut pages: [&[u8]; MAX_CLIENTS] = [&[]; MAX_CLIENTS];
    pages[client as usize] = text;
    is_read(alloc, pages.as_slice())
}

static WRONG: [&[u8]; 6] = [
    // The timestamp 0.
    b"\0\0\0\0\0\0\0\0\0\0\0\0\0\0\0\x011",
    // No answer, and half a number.
    b"\0\0\0\0\0\0\0\x01\0\0\0\0\0\0\0\x01",
    b"\0\0\0\0\0\0\0\x01\0\0\0\0\0\0\0",
    // A byte too many, an answer that there is not, and a flag that there is not.
    b"\0\0\0\0\0\0\0\x01\0\0\0\0\0\0\0\x0111",
    b"\0\0\0\0\0\0\0\x01\0\0\0\0\0\0\0\x018",
    b"\0\0\0\0\0\0\0\x01\0\0\0\0\0\0\0\x014\x02",
];

// Whether client 9 gets its first reply, at the second try if memory ran out at the first one, which changed
// nothing.
fn gets_done(cache: &mut ReplyCache) -> bool {
    if cache.put(client(9), 1, 1, Answer::Done).is_ok() {
        return true;
    }
    cache.seen(client(9)) == 0 && cache.put(client(9), 1, 1, Answer::Done).is_ok()
}

// The same for client 200, after client 9 got its reply.
fn gets_full(cache: &mut ReplyCache) -> bool {
    if cache.put(client(200), 4, 2, Answer::Full).is_ok() {
        return true;
    }
    cache.seen(client(200)) == 0
        && cache.seen(client(9)) == 1
        && cache.put(client(200), 4, 2, Answer::Full).is_ok()
}

fn is_full(cache: &mut ReplyCache) -> bool {
    gets_done(cache)
        && gets_full(cache)
        && cache.seen(client(200)) == 4
        && has_page(cache, client(9), DONE.as_slice())
}

fn is_put(put: Result<(), NoMemory>) -> Verdict {
    match put {
        Ok(()) => Ok(true),
        Err(NoMemory) => Err(NoMemory),
    }
}

// Puts the reply of a batch that found a tuple.
fn puts_found(
    cache: &mut ReplyCache,
    alloc: Global,
    number: u8,
    timestamp: u64,
    batch: u64,
) -> Verdict
    requires { 1 ≤ timestamp }
{
    match found(alloc) {
        Ok(answer) => is_put(cache.put(client(number), timestamp, batch, answer)),
        Err(_) => Err(NoMemory),
    }
}

fn has_first(cache: &ReplyCache) -> bool {
    cache.seen(client(0)) == 1 && has_page(cache, client(0), DONE.as_slice())
}

fn has_both(cache: &ReplyCache) -> bool {
    has_page(cache, client(255), FOUND.as_slice()) && has_page(cache, client(0), DONE.as_slice())
}

fn gets_pages(cache: &mut ReplyCache, alloc: Global) -> Verdict {
    all_hold(&[
        is_put(cache.put(client(0), 1, 1, Answer::Done)),
        Ok(has_first(cache)),
        puts_found(cache, alloc, 255, 258, 3),
        Ok(has_both(cache)),
    ])
}

fn gets_another(cache: &mut ReplyCache, alloc: Global) -> Verdict {
    all_hold(&[
        puts_found(cache, alloc, 7, 5, 2),
        is_put(cache.put(client(7), 6, 9, Answer::Swapped(true))),
        Ok(is_replaced(cache)),
    ])
}

// What is asked of a new cache.
#[derive(Clone, Copy)]
enum Asked {
    IsEmpty,
    GetsPages,
    GetsAnother,
    IsFull,
}

fn answers(cache: &mut ReplyCache, alloc: Global, asked: Asked) -> Verdict {
    match asked {
        Asked::IsEmpty => Ok(has_no_replies(cache)),
        Asked::GetsPages => gets_pages(cache, alloc),
        Asked::GetsAnother => gets_another(cache, alloc),
        Asked::IsFull => Ok(is_full(cache)),
    }
}

fn new_cache_answers(alloc: Global, asked: Asked) -> Verdict {
    let mut cache = ReplyCache::new(alloc);
    let verdict = answers(&mut cache, alloc, asked);
    drop(cache);
    verdict
}

#[test]
fn new_replies(rt: HostRuntime) {
    holds(&rt, new_cache_answers(rt.alloc(), Asked::IsEmpty));
}

#[test]
fn pages_of_replies(rt: HostRuntime) {
    holds(&rt, new_cache_answers(rt.alloc(), Asked::GetsPages));
}

#[test]
fn a_reply_is_replaced_whole(rt: HostRuntime) {
    holds(&rt, new_cache_answers(rt.alloc(), Asked::GetsAnother));
}

// Whether it is read, or refused as no reply's.
fn comes_to(read: Result<bool, Bad>, wanted: Result<bool, Bad>) -> Verdict {
    match read {
        Err(Bad::NoMemory) => Err(NoMemory),
        read => Ok(read == wanted),
    }
}

fn reads_back(alloc: Global) -> Verdict {
    let mut pages: [&[u8]; MAX_CLIENTS] = [&[]; MAX_CLIENTS];
    pages[0] = DONE.as_slice();
    pages[255] = FOUND.as_slice();
    comes_to(is_read(alloc, pages.as_slice()), Ok(true))
}

#[test]
fn pages_are_read_back(rt: HostRuntime) {
    holds(&rt, reads_back(rt.alloc()));
}

fn are_no_replies(alloc: Global) -> Verdict {
    for &text in &WRONG {
        match comes_to(is_page_read(alloc, 3, text), Err(Bad::Malformed)) {
            Ok(true) => {}
            other => return other,
        }
    }
    Ok(true)
}

#[test]
fn texts_of_no_replies(rt: HostRuntime) {
    holds(&rt, are_no_replies(rt.alloc()));
}

fn are_refused(alloc: Global, pages: &[&[u8]]) -> Verdict {
    comes_to(is_read(alloc, pages), Err(Bad::Malformed))
}

fn refuses_other_counts(alloc: Global) -> Verdict {
    let pages: [&[u8]; 257] = [&[]; 257];
    all_hold(&[
        are_refused(alloc, &pages[..0]),
        are_refused(alloc, &pages[..255]),
        are_refused(alloc, pages.as_slice()),
    ])
}

#[test]
fn too_few_and_too_many_pages(rt: HostRuntime) {
    holds(&rt, refuses_other_counts(rt.alloc()));
}

// Passes whichever growth is refused, as by `tools/growths`.
#[test]
fn refusals_change_nothing(rt: HostRuntime) {
    holds(&rt, new_cache_answers(rt.alloc(), Asked::IsFull));
    let read = is_page_read(rt.alloc(), 255, FOUND.as_slice());
    holds(&rt, comes_to(read, Ok(true)));
}
