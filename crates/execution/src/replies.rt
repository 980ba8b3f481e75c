//! The last replies, with a note of which may have changed.

ghost use Rattle.std.specs.Prelude.{◌≡◌, ℕ, ◌<◌, ◌≤◌, true, false, OnOk, OnErr};
ghost use Rattle.tuple_codec.specs.OperationView.{outcome_of};
ghost use Rattle.reply_cache.specs.Replies.{with_reply, AreReplies};
ghost use Rattle.execution.specs.Touching.{is_touched, TouchesReplies};

use reply_cache::ReplyCache;
use std::alloc::Global;
use std::marker::Model;
use terms::{ClientId, MAX_CLIENTS, NoMemory, Number, Timestamp};
use tuple_codec::Answer;

/// The last reply to each client, and whose may have changed since the last [`WatchedReplies::untouch`].
#[derive(Drop)]
pub struct WatchedReplies {
    replies: ReplyCache,
    touched: [bool; MAX_CLIENTS],
}

impl Model for WatchedReplies {
    ghost use Rattle.execution.specs.Touching.{RepliesState, replies_state_code};

    ghost Value = { RepliesState };

    ghost coded = { replies_state_code };

    ghost view = { λ a. record { replies = a.replies; touched = a.touched } };
}

impl WatchedReplies {
    /// Replies, all of them touched. Takes no memory.
    pub fn of(replies: ReplyCache) -> WatchedReplies
        ensures replies { result.replies ≡ replies }
        ensures all { (client : ℕ) → client < MAX_CLIENTS → is_touched result client ≡ true }
    {
        WatchedReplies {
            replies,
            touched: [true; MAX_CLIENTS],
        }
    }

    /// The replies.
    pub fn replies(&self) -> &ReplyCache
        ensures { result.now ≡ self.now.replies }
    {
        &self.replies
    }

    /// Keeps a reply as [`ReplyCache::put`] does, and touches the client's page.
    pub fn put(
        &mut self,
        client: ClientId,
        timestamp: Timestamp,
        number: Number,
        answer: Answer<Global>,
    ) -> Result<(), NoMemory>
        requires client { client.number < MAX_CLIENTS }
        requires timestamp { 1 ≤ timestamp.0 }
        ensures ok { OnOk result (self.new.replies ≡ with_reply self.old.replies client.number
            (record { timestamp = timestamp.0; number = number.0; outcome = outcome_of answer })) }
        ensures err { OnErr result (self.new.replies ≡ self.old.replies) }
        ensures valid { AreReplies self.new.replies }
        ensures touches { TouchesReplies self.old self.new }
    {
        self.touched[client.number as usize] = true;
        self.replies.put(client, timestamp.0, number.0, answer)
    }

    /// Whether the page of a client, 0 to 255, may differ from that at the last [`WatchedReplies::untouch`].
    pub fn touched(&self, client: usize) -> bool
        requires { client < MAX_CLIENTS }
        ensures { result ≡ is_touched self.now client }
    {
        self.touched[client]
    }

    /// Begins anew: no page is touched.
    pub fn untouch(&mut self)
        ensures replies { self.new.replies ≡ self.old.replies }
        ensures none { (client : ℕ) → client < MAX_CLIENTS → is_touched self.new client ≡ false }
    {
        self.touched = [false; MAX_CLIENTS];
    }
}
