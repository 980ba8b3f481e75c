//! The desk: the executed state, the kept states, the waiting requests, the open state transfer, and the keys for
//! replies.

ghost use Rattle.std.specs.Prelude.{◌≡◌, ◌+◌, ◌^◌, ◌<◌, ◌≤◌, ◌↔◌, [], true, false, length, IfOk, IsFalse, IsTrue, OnOk};
ghost use Rattle.signing.specs.Publics.{knows};
ghost use Rattle.terms.specs.declared.parties.TheConstants.{MAX_CLIENTS};
ghost use Rattle.wire_format.specs.Lists.{Each};
ghost use Rattle.wire_format.specs.Spelling.{IsCarried, is_ordered_request};
ghost use Rattle.wire_format.specs.Views.{texts_of};
ghost use Rattle.desk.specs.State.{IsDesk, IsSameDesk};
ghost use Rattle.desk.specs.Waiting.{count_unnumbered, oldest_of, texts, unnumbered, with_numbered};
ghost use Rattle.desk.specs.Desking.{IsNewDesk, HasReply, RepliesAgain, RepliesToAll, RunsBatch, RunsWhole, SendsToClient, RequestWaits, message_of};

use crate::keeping::pages_of;
use crate::snapshots::Snapshots;
use crate::transfer::StateTransfer;
use crate::waiting::Waiting;
use authenticator::{Ring, SealFault};
use events::{Output, Outputs, SharedBytes, Stop, emit};
use execution::{Executed, Ran};
use frame_endpoint::{reply_message, seal_for_one};
use signing::PublicKeys;
use std::alloc::Global;
use std::marker::Model;
use terms::{ClientId, Mode, NoMemory, Number, Party, ReplicaId, Timestamp};
use tuple_codec::Answer;
use wire::Reply;

/// The executed state, the kept earlier ones, and the requests that wait for execution.
#[derive(Drop)]
pub struct Desk {
    pub(crate) me: ReplicaId,
    /// It is some 400 bytes, with a state of SHA-256. So it stays in its place when a part moves.
    pub(crate) ring: Box<Ring>,
    // The desk verifies no signature. But contracts see what it knows as one membership, which is its orderer's too.
    publics: PublicKeys,
    // The number of batches from one checkpoint to the next, 1 to 16.
    pub(crate) period: u8,
    /// It is over two kilobytes, with the digests of its tree. So it stays in its place when a part moves.
    pub(crate) executed: Box<Executed>,
    pub(crate) snapshots: Snapshots,
    pub(crate) transfer: Option<StateTransfer>,
    pub(crate) waiting: Waiting,
}

impl Model for Desk {
    ghost use Rattle.desk.specs.State.{DeskData, IsDesk};
    ghost use Rattle.desk.specs.DeskView.{desk_data};

    ghost Value = { DeskData };

    ghost use Rattle.std.specs.Coded.{codes};
    ghost use Rattle.execution.specs.Executed.{executed_code};

    ghost coded = { Prim.hlevel (codes, executed_code) };

    ghost view = { desk_data };

    ghost invariant = { λ d. IsDesk (desk_data d) };
}

impl Desk {
    /// The desk of this replica before its first event: the opening state, which is kept. The ring has the replica's
    /// keys. There are so many clients, and so many batches from one checkpoint to the next. NoMemory if memory runs
    /// out.
    pub fn new(
        alloc: Global,
        me: ReplicaId,
        ring: Ring,
        publics: PublicKeys,
        clients: u16,
        period: u8,
    ) -> Result<Desk, NoMemory>
        requires few { me.0 < 10 }
        requires clients { clients ≡ ring.clients }
        requires most { clients ≤ MAX_CLIENTS }
        requires some { 1 ≤ period }
        ensures made { IfOk result (IsNewDesk (knows ring publics) period me.0) }
    {
        let mut executed = Executed::new(alloc, clients)?;
        let mut snapshots = Snapshots::new(alloc);
        snapshots.keep(Number(0), pages_of(&mut executed)?)?;
        Ok(Desk {
            me,
            ring: Box::new(alloc, ring)?,
            publics,
            period,
            executed: Box::new(alloc, executed)?,
            snapshots,
            transfer: None,
            waiting: Waiting::new(alloc),
        })
    }

    /// The number of the last executed batch, 0 before the first.
    pub fn number(&self) -> Number
        ensures value { result.0 ≡ self.now.executed.state.number }
        ensures fits { result.0 < 2 ^ 48 }
    {
        self.executed.number()
    }

    /// The number of batches from one checkpoint to the next.
    pub fn period(&self) -> u8
        ensures { result ≡ self.now.period }
    {
        self.period
    }

    /// Tells a proof the invariant of a desk. Does nothing.
    pub fn keeps(&self)
        ensures { IsDesk self.now }
    {
        let _period = self.period;
    }

    /// Executes the next batch, which has this text, and replies to each of its requests that ran.
    pub fn execute(&mut self, alloc: Global, text: &[u8], outputs: &mut Outputs) -> Result<(), Stop>
        requires { self.old.executed.state.number + 1 < 2 ^ 48 }
        ensures ok { OnOk result (RunsWhole self.old text.now outputs.old.items self.new outputs.new.items) }
        ensures party { IsSameDesk self.old self.new }
    {
        let ran = self.run(alloc, text, outputs)?;
        self.reply_to_all(alloc, ran, outputs)
    }

    // Executes the batch and keeps the new state if it is to have a checkpoint. Forgets the requests that ran, and
    // closes a transfer that the execution reached.
    fn run(&mut self, alloc: Global, text: &[u8], outputs: &mut Outputs) -> Result<Vec<Ran>, Stop>
        requires { self.old.executed.state.number + 1 < 2 ^ 48 }
        ensures ok { IfOk result (λ ran. RunsBatch self.old text.now outputs.old.items
            self.new ran.items outputs.new.items) }
        ensures party { IsSameDesk self.old self.new }
    {
        self.snapshots.are_few();
        // Tells a proof that the state has a place for the reply to each client. So no request runs twice.
        let executed = &mut *self.executed;
        executed.is_state();
        let _clients = executed.clients();
        let ran = executed.execute(text)?;
        self.keep_due()?;
        let copy = Vec::from_slice(alloc, text)?;
        let batch = SharedBytes::new(copy)?;
        let executed = &*self.executed;
        emit(outputs, Output::Executed(executed.number(), batch))?;
        self.waiting.forget(executed);
        self.close_reached();
        Ok(ran)
    }

    // Replies to the requests that ran.
    #[tactic(auto, using(crate::proofs::Running::replies_start, crate::proofs::Running::replies_end))]
    fn reply_to_all(
        &mut self,
        alloc: Global,
        ran: Vec<Ran>,
        outputs: &mut Outputs,
    ) -> Result<(), Stop>
        ensures replies { OnOk result (RepliesToAll self.old ran.items outputs.old.items outputs.new.items) }
        ensures same { self.new ≡ self.old }
    {
        for it in ran {
            let Ran {
                client,
                timestamp,
                number,
                answer,
            } = it;
            let reply = Reply {
                client,
                timestamp,
                kind: Mode::Ordered,
                number,
                answer,
            };
            self.reply(alloc, reply, outputs)?;
        }
        Ok(())
    }

    /// Makes a newer request of the client wait in this frame, instead of the one that waits.
    pub fn wait(
        &mut self,
        alloc: Global,
        client: ClientId,
        timestamp: Timestamp,
        frame: &[u8],
    ) -> Result<(), Stop>
        requires { IsCarried is_ordered_request frame.now }
        ensures ok { OnOk result (RequestWaits client timestamp frame.now self.old self.new) }
        ensures party { IsSameDesk self.old self.new }
    {
        let frame = Vec::from_slice(alloc, frame)?;
        self.waiting.remove(client);
        self.waiting.push(client, timestamp, frame)?;
        Ok(())
    }

    /// Whether no request waits.
    pub fn none_waits(&self) -> bool
        ensures { IsTrue result ↔ (self.now.waiting.requests ≡ []) }
    {
        self.waiting.is_empty()
    }

    /// The client's number and the timestamp of the request that has waited longest, if one waits.
    pub fn oldest_waiting(&self) -> Option<(u16, Timestamp)>
        ensures { result ≡ oldest_of self.now.waiting.requests }
    {
        self.waiting.oldest()
    }

    /// The number of waiting requests that have no sequence number yet.
    pub fn count_unnumbered(&self) -> usize
        ensures { result ≡ count_unnumbered self.now.waiting }
    {
        self.waiting.count_unnumbered()
    }

    /// Whether a waiting request has no sequence number yet.
    pub fn has_unnumbered(&self) -> bool
        ensures some { IsTrue result → 1 ≤ length (unnumbered self.now.waiting) }
        ensures none { IsFalse result → count_unnumbered self.now.waiting ≡ 0 }
    {
        self.waiting.has_unnumbered()
    }

    /// Copies the frames of up to 16 waiting requests without a sequence number, the oldest first.
    pub fn unnumbered_frames(&self, alloc: Global) -> Result<Vec<Vec<u8>>, Stop>
        ensures value { IfOk result (λ frames. texts_of frames.items ≡ texts (unnumbered self.now.waiting)) }
        ensures each { Each (IsCarried is_ordered_request) (texts (unnumbered self.now.waiting)) }
        ensures most { length (unnumbered self.now.waiting) ≤ 16 }
    {
        self.waiting.unnumbered_frames(alloc)
    }

    /// Notes that the next `count` waiting requests have a sequence number.
    pub fn note_numbered(&mut self, count: usize)
        ensures { self.new ≡ record self.old { waiting = with_numbered count self.old.waiting } }
    {
        self.waiting.note_numbered(count);
    }

    /// Sends the kept reply to the client's last request again, if it has this timestamp. Returns whether.
    pub fn reply_again(
        &mut self,
        alloc: Global,
        client: ClientId,
        timestamp: Timestamp,
        outputs: &mut Outputs,
    ) -> Result<bool, Stop>
        ensures again { IfOk result (λ has. (has ≡ true)
            → RepliesAgain self.old client timestamp outputs.old.items outputs.new.items) }
        ensures has { IfOk result (HasReply self.old client timestamp) }
        ensures silent { IfOk result (λ has. (has ≡ false) → outputs.new ≡ outputs.old) }
        ensures same { self.new ≡ self.old }
    {
        let (number, answer) = match self.executed.last(client) {
            Some(kept) if kept.timestamp == timestamp.0 => {
                (Number(kept.number), kept.answer.copy_in(alloc)?)
            }
            _ => return Ok(false),
        };
        let reply = Reply {
            client,
            timestamp,
            kind: Mode::Ordered,
            number,
            answer,
        };
        self.reply(alloc, reply, outputs)?;
        Ok(true)
    }

    /// Sends a reply to its client.
    pub(crate) fn reply(
        &mut self,
        alloc: Global,
        reply: Reply,
        outputs: &mut Outputs,
    ) -> Result<(), Stop>
        ensures said { OnOk result
            (SendsToClient self.old reply.client (message_of reply) outputs.old.items outputs.new.items) }
        ensures same { self.new ≡ self.old }
    {
        let Reply {
            client,
            timestamp,
            kind,
            number,
            answer,
        } = reply;
        let message = reply_message(client, timestamp, kind, number, answer);
        let party = Party::Client(client);
        match seal_for_one(&mut *self.ring, alloc, self.me, message, party) {
            Ok(output) => emit(outputs, output),
            Err(SealFault::NoMemory) => Err(Stop::NoMemory),
            // Each reply fits a frame.
            Err(SealFault::TooLarge) => unreachable!(),
        }
    }
}
