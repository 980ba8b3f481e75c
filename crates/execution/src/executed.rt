//! The executed state.

ghost use Rattle.std.specs.Prelude.{◌≡◌, ◌+◌, ◌^◌, ◌<◌, ◌≤◌, true, false, map, option_map, IfOk};
ghost use Rattle.reply_cache.specs.ReplyView as reply_view;
ghost use Rattle.protocol.specs.Replica.State.{IsReplicatedState, opening, kept_of, last_time, pages_of, root_of};
ghost use Rattle.execution.specs.Executed.{ExecutesBatchText, told};
ghost use Rattle.execution.specs.Installing.{HasPagesAt, NoneFalls, NoneReplaces};
ghost use Rattle.execution.specs.contracts.executed.Executed.{the_row};
ghost use Rattle.std.specs.Borrow.{sem};
ghost use Rattle.std.specs.Io.BufRead.{Rests};
ghost use Rattle.terms.specs.declared.parties.TheConstants.{MAX_CLIENTS};

use crate::installing::{none_falls, read_pages};
use crate::pages::renew;
use crate::replies::WatchedReplies;
use crate::running::{Ran, run_frames};
use partition_tree::{Snapshot, Tree};
use reply_cache::{Reply, ReplyCache};
use space::{Space, Watched};
use std::alloc::Global;
use std::marker::Model;
use terms::{ClientId, Digest, NoMemory, Number, Timestamp};
use tuple_codec::Bad;
use wire::requests;

/// The executed state of a replica, in a configuration of up to 256 clients.
#[derive(Drop)]
pub struct Executed {
    alloc: Global,
    space: Watched,
    replies: WatchedReplies,
    number: Number,
    clients: u16,
    // The pages at the last checkpoint. So it has the text of each page that no request touched since.
    tree: Tree,
}

impl Model for Executed {
    ghost use Rattle.execution.specs.Executed.{ExecutedData, executed_code};
    ghost use Rattle.execution.specs.Keeping.{IsExecutedState};

    ghost Value = { ExecutedData };

    ghost coded = { executed_code };

    ghost view = { λ e. record {
      state = record { space = e.space.state; number = e.number.0; replies = e.replies.replies };
      clients = e.clients;
    } };

    ghost invariant = { λ e. IsExecutedState e.number.0 e.clients e.tree e.space e.replies };
}

impl Executed {
    /// The state before the first batch, with so many clients. NoMemory if memory runs out.
    pub fn new(alloc: Global, clients: u16) -> Result<Executed, NoMemory>
        requires { clients ≤ MAX_CLIENTS }
        ensures { IfOk result (λ e. e ≡ record { state = opening; clients = clients }) }
    {
        let tree = Tree::new(alloc)?;
        Ok(Executed {
            alloc,
            space: Watched::of(Space::new(alloc)),
            replies: WatchedReplies::of(ReplyCache::new(alloc)),
            number: Number(0),
            clients,
            tree,
        })
    }

    /// The number of the last executed batch, 0 before the first.
    pub fn number(&self) -> Number
        ensures value { result.0 ≡ self.now.state.number }
        ensures fits { result.0 < 2 ^ 48 }
    {
        self.number
    }

    /// How many clients there are.
    pub fn clients(&self) -> u16
        ensures value { result ≡ self.now.clients }
        ensures most { result ≤ MAX_CLIENTS }
    {
        self.clients
    }

    /// Tells a proof that this is a state. It does nothing.
    pub fn is_state(&self)
        ensures { IsReplicatedState self.now.state }
    {
        let _number = &self.number;
    }

    /// The reply to the client's last request that ran. Takes no memory.
    pub fn last(&self, client: ClientId) -> Option<&Reply>
        ensures { option_map (λ reply. reply_view.kept_of_reply reply.now) result
            ≡ kept_of self.now.state client.number }
    {
        self.replies.replies().last(client)
    }

    /// The timestamp of the client's last request that ran, 0 if there is none. Takes no memory.
    pub fn seen(&self, client: ClientId) -> Timestamp
        ensures { result.0 ≡ last_time self.now.state client.number }
    {
        Timestamp(self.replies.replies().seen(client))
    }

    /// The space, from which reads are answered.
    pub fn space(&self) -> &Space
        ensures { result.now ≡ self.now.state.space }
    {
        self.space.space()
    }

    /// Executes the next batch, by its text: in order, each of its requests whose timestamp is above its client's last.
    /// Returns the requests that ran. A text that is no batch has no requests.
    ///
    /// # Errors
    ///
    /// NoMemory if memory runs out. The value has then the batch's number and the effects of some of its requests. So
    /// it is no batch's state, and its holder stops for good.
    pub fn execute(&mut self, batch: &[u8]) -> Result<Vec<Ran>, NoMemory>
        requires { self.old.state.number + 1 < 2 ^ 48 }
        ensures executed { IfOk result
            (λ ran. ExecutesBatchText self.old batch.now (map told ran.items) self.new) }
        ensures number { self.new.state.number ≡ self.old.state.number + 1 }
        ensures clients { self.new.clients ≡ self.old.clients }
    {
        let frames = requests(batch);
        let mut ran = Vec::new(self.alloc);
        self.number = Number(self.number.0 + 1);
        run_frames(
            self.alloc,
            &mut self.space,
            &mut self.replies,
            &mut ran,
            self.number,
            self.clients,
            frames.as_slice(),
        )?;
        Ok(ran)
    }

    /// Replaces the state by the one with this number and these pages. Returns whether it did: whether there is such a
    /// state, and no client's last timestamp falls, so that no executed request is new again. The tree is kept, so the
    /// next checkpoint writes only the pages that later requests touch. Nothing changes if it returns false, or if
    /// memory runs out (NoMemory).
    pub fn install(&mut self, number: Number, pages: Tree) -> Result<bool, NoMemory>
        ensures installed { (result ≡ Ok true) → HasPagesAt number.0 pages self.new.state }
        ensures rises { (result ≡ Ok true) → NoneFalls self.old.state self.new.state }
        ensures none { (result ≡ Ok false) → NoneReplaces self.old.state number.0 pages }
        ensures same { ¬ (result ≡ Ok true) → self.new ≡ self.old }
        ensures clients { self.new.clients ≡ self.old.clients }
    {
        let (space, replies) = match read_pages(self.alloc, number, &pages) {
            Ok(state) => state,
            Err(Bad::Malformed) => return Ok(false),
            Err(Bad::NoMemory) => return Err(NoMemory),
        };
        if !none_falls(self.replies.replies(), &replies) {
            return Ok(false);
        }
        self.space = Watched::of(space);
        self.space.untouch();
        self.replies = WatchedReplies::of(replies);
        self.replies.untouch();
        self.number = number;
        self.tree = pages;
        Ok(true)
    }

    /// The tree over the pages of the state. It writes and hashes only the pages that requests may have changed since
    /// the last call. NoMemory if memory runs out.
    pub fn pages(&mut self) -> Result<&Tree, NoMemory>
        ensures pages { IfOk result (λ pages. pages.now ≡ pages_of self.old.state) }
        ensures* same { sem 𝓛 (Rests the_row self.entry (λ new. new ≡ self.old)) }
    {
        renew(
            self.alloc,
            &mut self.tree,
            &mut self.space,
            &mut self.replies,
            self.number,
        )?;
        Ok(&self.tree)
    }

    /// The pages of the state, as by [`Executed::pages`]. Later batches don't change them. NoMemory if memory runs out.
    pub fn checkpoint(&mut self) -> Result<Snapshot, NoMemory>
        ensures pages { IfOk result (λ pages. pages ≡ pages_of self.old.state) }
        ensures same { self.new ≡ self.old }
    {
        self.pages()?.snapshot()
    }

    /// The root of the tree over the pages of the state. NoMemory if memory runs out.
    pub fn root(&mut self) -> Result<Digest, NoMemory>
        ensures root { IfOk result (λ root. root ≡ root_of self.old.state) }
        ensures same { self.new ≡ self.old }
    {
        Ok(self.pages()?.root())
    }
}
