//! The replies by client.

ghost use Rattle.std.specs.Prelude.{◌≡◌, ℕ, ◌≤◌, ◌<◌, ◌++◌, ◌∷◌, [], OnOk, OnErr, IfOk, IsTrue, length, option_map};
ghost use Rattle.tuple_codec.specs.Results.{ReturnsEach};
ghost use Rattle.reply_cache.specs.Replies.{Replies, no_replies, last_of, seen_of, IsAbove, AreReplies};
ghost use Rattle.reply_cache.specs.ReplyView.{kept_of_reply, padded, AreSlots, with_answer};
ghost use Rattle.reply_cache.specs.Pages.{reply_page_text, ArePagesOfReplies};
ghost use Rattle.reply_cache.specs.Reading.{EachSpelled, texts_of, AreSomePages};

use crate::pages::{is_page, put_reply, read_reply};
use std::alloc::Global;
use std::marker::Model;
use terms::{ClientId, MAX_CLIENTS, NoMemory};
use tuple_codec::{Answer, Bad};

/// The reply to a client's last request.
#[derive(Drop)]
pub struct Reply {
    /// The request's timestamp, from 1 on.
    pub timestamp: u64,
    /// The number of the batch in which the request ran.
    pub number: u64,
    pub answer: Answer<Global>,
}

/// The last reply to each of the clients 0 to 255.
#[derive(Drop)]
pub struct ReplyCache {
    // One slot for each client up to the last one that has a reply.
    slots: Vec<Option<Reply>>,
}

impl Model for ReplyCache {
    ghost use Rattle.reply_cache.specs.Replies.{Replies};
    ghost use Rattle.reply_cache.specs.RepliesCode.{replies_code};
    ghost use Rattle.reply_cache.specs.ReplyView.{padded, AreSlots};

    ghost Value = { Replies };

    ghost coded = { replies_code };

    ghost view = { λ a. padded a.slots.items };

    ghost invariant = { λ a. AreSlots a.slots.items };
}

impl ReplyCache {
    /// No replies. Takes no memory.
    pub fn new(alloc: Global) -> ReplyCache
        ensures replies { result ≡ no_replies }
        ensures valid { AreReplies result }
    {
        let slots = Vec::new(alloc);
        ReplyCache { slots }
    }

    /// The reply to the client's last request. Takes no memory.
    pub fn last(&self, client: ClientId) -> Option<&Reply>
        ensures { option_map (λ reply. kept_of_reply reply.now) result ≡ last_of self.now client.number }
    {
        if (client.number as usize) < self.slots.len() {
            self.slots[client.number as usize].as_ref()
        } else {
            None
        }
    }

    /// The timestamp of the client's last request, 0 if there is none. Takes no memory.
    pub fn seen(&self, client: ClientId) -> u64
        ensures { result ≡ seen_of self.now client.number }
    {
        match self.last(client) {
            Some(reply) => reply.timestamp,
            None => 0,
        }
    }

    /// Keeps the reply to the client's last request instead of the one before. The client is one of 0 to 255, and
    /// `timestamp` from 1 on. NoMemory is returned only if neither the client nor one of a higher number has a reply
    /// yet. It changes nothing.
    pub fn put(
        &mut self,
        client: ClientId,
        timestamp: u64,
        number: u64,
        answer: Answer<Global>,
    ) -> Result<(), NoMemory>
        requires client { client.number < MAX_CLIENTS }
        requires timestamp { 1 ≤ timestamp }
        ensures ok { OnOk result (self.new ≡ with_answer self.old client timestamp number answer) }
        ensures memory { OnErr result (IsAbove client.number self.old) }
        ensures err { OnErr result (self.new ≡ self.old) }
        ensures valid { AreReplies self.new }
    {
        answer.note_valid();
        reach(&mut self.slots, client.number as usize)?;
        self.slots[client.number as usize] = Some(Reply {
            timestamp,
            number,
            answer,
        });
        Ok(())
    }

    /// The text of the client's page: empty without a reply, else the timestamp and the number in 8 bytes each, high
    /// byte first, and the spelling of the answer. NoMemory if memory runs out.
    pub fn page_text(&self, client: ClientId) -> Result<Vec<u8>, NoMemory>
        ensures { IfOk result (λ text. text.items ≡ reply_page_text self.now client.number) }
    {
        let mut text = Vec::new(*self.slots.allocator());
        if let Some(reply) = self.last(client) {
            put_reply(reply, &mut text)?;
        }
        Ok(text)
    }

    /// The replies by the texts of their pages, one for each of the clients 0 to 255.
    ///
    /// # Errors
    ///
    /// Malformed if these are the pages of no replies: a timestamp is 0, an answer isn't spelled, or there are not 256
    /// texts. That is judged before memory is allocated. NoMemory if memory runs out.
    pub fn from_pages(alloc: Global, pages: &[&[u8]]) -> Result<ReplyCache, Bad>
        // The replies that were read have these pages.
        ensures found { IfOk result (λ c. ArePagesOfReplies (texts_of pages.now) c) }

        // Texts that are the pages of no replies are refused as malformed, whatever memory there is.
        ensures memory { (result ≡ Err Bad.NoMemory) → AreSomePages (texts_of pages.now) }

        // The replies with these pages are read, unless memory runs out.
        ensures only { ReturnsEach Bad.NoMemory (λ c. c) (ArePagesOfReplies (texts_of pages.now)) result }
    {
        if pages.len() != MAX_CLIENTS {
            return Err(Bad::Malformed);
        }
        if !are_pages(pages) {
            return Err(Bad::Malformed);
        }
        let mut slots = Vec::new(alloc);
        for text in pages {
            let slot = read_reply(alloc, text)?;
            add_slot(&mut slots, slot)?;
        }
        Ok(ReplyCache { slots })
    }
}

// Whether each text is that of a page.
fn are_pages(pages: &[&[u8]]) -> bool
    requires { length pages.now ≡ MAX_CLIENTS }
    ensures found { IsTrue result → EachSpelled (texts_of pages.now) MAX_CLIENTS }
    ensures only { (rs : Replies) → ArePagesOfReplies (texts_of pages.now) rs → IsTrue result }
{
    for text in pages {
        if !is_page(text) {
            return false;
        }
    }
    true
}

fn add_slot(slots: &mut Vec<Option<Reply>>, slot: Option<Reply>) -> Result<(), NoMemory>
    ensures { OnOk result (slots.new.items ≡ slots.old.items ++ slot ∷ []) }
{
    Ok(slots.push(slot)?)
}

// Adds empty slots up to that of the client. An `Err` keeps the same replies.
fn reach(slots: &mut Vec<Option<Reply>>, client: usize) -> Result<(), NoMemory>
    requires client { client < MAX_CLIENTS }
    requires slots { AreSlots slots.old.items }
    ensures same { padded slots.new.items ≡ padded slots.old.items }
    ensures slots { AreSlots slots.new.items }
    ensures long { OnOk result (client < length slots.new.items) }
    ensures memory { OnErr result (length slots.old.items ≤ client) }
{
    for _slot in slots.len()..client + 1 {
        slots.push(None)?;
    }
    Ok(())
}
