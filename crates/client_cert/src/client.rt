//! A client over frames.

ghost use Rattle.std.specs.Prelude.{◌≡◌, ◌↔◌, ◌≤◌, ◌<◌, ◌^◌, ◌⊎◌, suc, true, false, [], ◌∷◌};
ghost use Rattle.std.specs.Prelude.{IfOk, OnErr, is_some};
ghost use Rattle.terms.specs.Parties.{client_party};
ghost use Rattle.tuple_codec.specs.OperationView.{operation_of};
ghost use Rattle.signing.specs.Publics.{knows};
ghost use Rattle.protocol.specs.System.Configuration.{Configuration, members};
ghost use Rattle.client_cert.specs.State.{IsSpent, called};
ghost use Rattle.events.specs.declared.output.Stop.TheVariants as Stop;
ghost use Rattle.client_cert.specs.Fits.{Fits, FitsLife};
ghost use Rattle.client_cert.specs.Steps.{CallLeads, CallStops, EventLeads, SendsAsMeant};
ghost use Rattle.client_cert.specs.Steps.{SendsRequest, BytesLead, KeepsWhetherOpen, RetryLeads};

use crate::asking::{all_replicas, first_mode};
use crate::call::{Call, request};
use crate::receiving::{Turned, weigh};
use authenticator::Ring;
use events::{Output, Outputs, SharedBytes, Stop, emit};
use signing::PublicKeys;
use std::alloc::Global;
use std::marker::Model;
use terms::{ClientId, Mode, Timestamp};
use thiserror::Error;
use tuple_codec::Op;

/// The greatest timestamp of a client, and so the most calls of one with one life.
const MAX_CALLS: u64 = 1 << 62;

/// An input of a client.
#[derive(Drop)]
pub enum Event<'a> {
    /// These bytes came.
    Got(&'a [u8]),
    /// Time went by: the open call's request is to go again.
    Retry,
}

/// Why a call was not made, or nothing was sent for it.
#[derive(Clone, Copy, Debug, PartialEq, Eq, Error)]
pub enum InvokeFault {
    /// A call is open.
    #[error("a call is open")]
    Busy,
    /// The client had stopped, or has no timestamp left.
    #[error("stopped")]
    Stopped,
    /// There was no memory for the request, and the client stopped.
    #[error("out of memory")]
    NoMemory,
}

/// A client, which has one call at a time.
#[derive(Drop)]
pub struct Client {
    id: ClientId,
    faults: u8,
    ring: Ring,
    publics: PublicKeys,
    calls: u64,
    call: Option<Call>,
    stopped: bool,
}

impl Model for Client {
    ghost use Rattle.client_cert.specs.State.{ClientState, ClientIsOfMembers, client_code};
    ghost use Rattle.signing.specs.Publics.{knows};

    ghost Value = { ClientState };

    ghost coded = { client_code };

    ghost view = { λ a. record {
      number = a.id.number;
      membership = knows a.ring a.publics;
      calls = a.calls;
      call = a.call;
      stopped = a.stopped;
    } };

    ghost invariant = { λ a. ClientIsOfMembers a.faults (knows a.ring a.publics) a.calls a.call a.stopped };
}

impl Client {
    /// A client that never made a call. Up to `faults` replicas, 1 to 3, may be faulty; the ring has the client's keys.
    /// Its timestamps are 1, 2, .., so it may have no earlier life. Its history is a correct client's in each
    /// configuration that gives it these keys, whoever is faulty there.
    pub fn new(client: ClientId, faults: u8, ring: Ring, publics: PublicKeys) -> Client
        requires faults { faults ≡ ring.faults }
        requires few { faults ≤ 3 }
        ensures fits { (c : Configuration)
            → members c (client_party client.number) ≡ knows ring publics → Fits c result [] }
        ensures number { result.number ≡ client.number }
        ensures runs { result.stopped ≡ false }
    {
        Client::start_above(client, faults, ring, publics, Timestamp(0))
    }

    /// A client that is started again, and made no call in this life. Its timestamps are those above `start`, up to
    /// 2^62. What it does is a life of a correct client; behind earlier lives it is that client's if none of theirs had
    /// a timestamp above `start`. They can't if `start` is a number that a file keeps, or the milliseconds since 1970,
    /// shifted left by 20 bits: that leaves 2^20 calls for each millisecond, and lasts until May 2109.
    #[tactic(auto, using(crate::proofs::Fitting::fits_new))]
    pub fn start_above(
        client: ClientId,
        faults: u8,
        ring: Ring,
        publics: PublicKeys,
        start: Timestamp,
    ) -> Client
        requires faults { faults ≡ ring.faults }
        requires few { faults ≤ 3 }
        requires room { start.0 ≤ 2 ^ 62 }
        ensures fits { (c : Configuration)
            → members c (client_party client.number) ≡ knows ring publics → FitsLife c start.0 result [] }
        ensures number { result.number ≡ client.number }
        ensures runs { result.stopped ≡ false }
    {
        Client {
            id: client,
            faults,
            ring,
            publics,
            calls: start.0,
            call: None,
            stopped: false,
        }
    }

    /// Whether a call is open.
    pub fn is_open(&self) -> bool
        ensures value { result ≡ is_some self.now.call }
    {
        self.call.is_some()
    }

    /// Whether the client has stopped. Its call is open then: without a call nothing takes memory.
    pub fn is_stopped(&self) -> bool
        ensures value { result ≡ self.now.stopped }
        ensures is_open { self.now.stopped ≡ true → is_some self.now.call ≡ true }
    {
        self.stopped
    }

    /// Calls an operation, with the next timestamp, and asks all replicas for it.
    ///
    /// # Errors
    ///
    /// The first that applies. Busy comes exactly if a call is open, and changes nothing. Stopped comes if the client
    /// had stopped, or spent the timestamp 2^62, and NoMemory if there is no memory for the request. After either the
    /// call counts as made: it is open, and the client has stopped.
    #[tactic(auto, using(crate::proofs::Calling::call_leads, crate::proofs::Calling::call_ends, crate::proofs::Calling::call_fails))]
    pub fn invoke(&mut self, alloc: Global, op: Op<Global>) -> Result<Outputs, InvokeFault>
        ensures leads { IfOk result (λ outs. CallLeads self.old op outs.items self.new) }
        ensures meant { IfOk result (λ outs. SendsAsMeant self.old outs.items) }
        ensures busy { (result ≡ Err InvokeFault.Busy) ↔ (is_some self.old.call ≡ true) }
        ensures same { result ≡ Err InvokeFault.Busy → self.new ≡ self.old }
        ensures stopped { (result ≡ Err InvokeFault.Stopped) ↔ IsSpent self.old }
        ensures ends { OnErr result ((is_some self.old.call ≡ true) ⊎ (self.new.stopped ≡ true)) }
        ensures stops { OnErr result (CallStops self.old op self.new) }
        ensures runs { IfOk result (λ _. self.new.stopped ≡ false) }
        ensures number { self.new.number ≡ self.old.number }
    {
        if self.call.is_some() {
            // Dropped by a call, for the same reason as in `put`.
            drop(op);
            return Err(InvokeFault::Busy);
        }
        op.note_valid();
        let mode = first_mode(&op);
        if self.calls >= MAX_CALLS {
            self.calls += 1;
            put(&mut self.call, Some(Call::new(alloc, op)));
            self.stopped = true;
            return Err(InvokeFault::Stopped);
        }
        self.begin(alloc, op);
        match self.ask(alloc, mode) {
            Ok(outputs) => Ok(outputs),
            Err(_) => {
                self.stopped = true;
                Err(InvokeFault::NoMemory)
            }
        }
    }

    // Begins a call.
    fn begin(&mut self, alloc: Global, op: Op<Global>)
        requires none { is_some self.old.call ≡ false }
        requires room { self.old.calls < 2 ^ 62 }
        ensures { self.new ≡ called (suc self.old.calls) (operation_of op) self.old }
    {
        self.calls += 1;
        put(&mut self.call, Some(Call::new(alloc, op)));
    }

    /// The outputs of the client for its next input.
    ///
    /// # Errors
    ///
    /// NoMemory if memory runs out, and then the client stops. Stopped exactly if it had stopped before. Both come
    /// only if a call is open.
    #[tactic(auto, using(crate::proofs::Stepping::stops_got, crate::proofs::Stepping::stops_tick))]
    pub fn step(&mut self, alloc: Global, event: Event<'_>) -> Result<Outputs, Stop>
        ensures leads { IfOk result (λ outs. EventLeads self.old event.entry outs.items self.new) }
        ensures meant { IfOk result (λ outs. SendsAsMeant self.old outs.items) }
        ensures stops { OnErr result (EventLeads self.old event.entry [] self.new) }
        ensures runs { IfOk result (λ _. self.new.stopped ≡ false) }
        ensures stopped { OnErr result (self.new.stopped ≡ true) }
        ensures before { (result ≡ Err Stop.Stopped) ↔ (self.old.stopped ≡ true) }
        ensures is_open { OnErr result (is_some self.old.call ≡ true) }
        ensures number { self.new.number ≡ self.old.number }
    {
        if self.stopped {
            return Err(Stop::Stopped);
        }
        match event {
            Event::Got(bytes) => match self.got(alloc, bytes) {
                Ok(outputs) => Ok(outputs),
                Err(_) => {
                    self.stopped = true;
                    Err(Stop::NoMemory)
                }
            },
            Event::Retry => match self.retry(alloc) {
                Ok(outputs) => Ok(outputs),
                Err(_) => {
                    self.stopped = true;
                    Err(Stop::NoMemory)
                }
            },
        }
    }

    // Bytes that come to a client that goes on.
    #[tactic(auto, using(crate::proofs::Calling::got_none_leads, crate::proofs::Calling::got_nothing_leads, crate::proofs::Calling::got_answer_leads, crate::proofs::Calling::got_asks_leads))]
    fn got(&mut self, alloc: Global, bytes: &[u8]) -> Result<Outputs, Stop>
        requires { self.old.stopped ≡ false }
        ensures leads { IfOk result (λ outs. BytesLead self.old bytes.now outs.items self.new) }
        ensures meant { IfOk result (λ outs. SendsAsMeant self.old outs.items) }
        ensures runs { IfOk result (λ _. self.new.stopped ≡ false) }
        ensures keeps { OnErr result (KeepsWhetherOpen self.old self.new) }
        ensures is_open { OnErr result (is_some self.old.call ≡ true) }
        ensures number { self.new.number ≡ self.old.number }
    {
        match &mut self.call {
            None => Ok(Vec::new(alloc)),
            Some(call) => {
                let turned = weigh(
                    &mut self.ring,
                    alloc,
                    self.id,
                    self.faults,
                    Timestamp(self.calls),
                    call,
                    bytes,
                )?;
                match turned {
                    Turned::Nothing => Ok(Vec::new(alloc)),
                    Turned::Ask => self.ask(alloc, Mode::Ordered),
                    Turned::Accept(answer) => {
                        let output = Output::Accepted(Timestamp(self.calls), answer);
                        let outputs = sole(alloc, output)?;
                        put(&mut self.call, None);
                        Ok(outputs)
                    }
                }
            }
        }
    }

    // The open call's request, if there is one, of a client that hasn't stopped.
    #[tactic(auto, using(crate::proofs::Calling::retry_none_leads, crate::proofs::Calling::retry_leads))]
    fn retry(&mut self, alloc: Global) -> Result<Outputs, Stop>
        requires { self.old.stopped ≡ false }
        ensures leads { IfOk result (λ outs. RetryLeads self.old outs.items self.new) }
        ensures meant { IfOk result (λ outs. SendsAsMeant self.old outs.items) }
        ensures runs { IfOk result (λ _. self.new.stopped ≡ false) }
        ensures keeps { OnErr result (KeepsWhetherOpen self.old self.new) }
        ensures is_open { OnErr result (is_some self.old.call ≡ true) }
        ensures number { self.new.number ≡ self.old.number }
    {
        if self.call.is_none() {
            return Ok(Vec::new(alloc));
        }
        let outputs = self.ask(alloc, Mode::Ordered)?;
        Ok(outputs)
    }

    // The open call's request.
    fn ask(&mut self, alloc: Global, mode: Mode) -> Result<Outputs, Stop>
        requires { is_some self.old.call ≡ true }
        ensures asked { IfOk result (λ outs. SendsRequest self.old mode outs.items self.new) }
        ensures keeps { OnErr result (KeepsWhetherOpen self.old self.new) }
        ensures same { (self.new.number ≡ self.old.number) × (self.new.stopped ≡ self.old.stopped) }
    {
        let Some(call) = self.call.take() else {
            unreachable!();
        };
        let (call, sealed) = request(
            &mut self.ring,
            alloc,
            self.id,
            self.faults,
            Timestamp(self.calls),
            mode,
            call,
        );
        put(&mut self.call, Some(call));
        let text = sealed?;
        let receivers = all_replicas(alloc, 3 * self.faults + 1)?;
        let frame = SharedBytes::new(text)?;
        sole(alloc, Output::Send(receivers, frame))
    }
}

// Replaces the open call. The old one is dropped only here: wherever a function drops a call, its proof has steps for
// each kind of operation.
fn put(place: &mut Option<Call>, call: Option<Call>)
    ensures { place.new ≡ call }
{
    *place = call;
}

// This output alone.
fn sole(alloc: Global, output: Output) -> Result<Outputs, Stop>
    ensures { IfOk result (λ outs. outs.items ≡ output ∷ []) }
{
    let mut outputs = Vec::new(alloc);
    emit(&mut outputs, output)?;
    Ok(outputs)
}
