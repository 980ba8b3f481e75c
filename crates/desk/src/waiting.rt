//! Requests that wait for execution.

ghost use Rattle.std.specs.Prelude.{◌≡◌, ◌≤◌, ◌++◌, ◌∷◌, [], not, length, map, filter, ◌↔◌, IfOk, IfSome, IsFalse, IsTrue, OnErr, OnOk};
ghost use Rattle.wire_format.specs.Lists.{Each};
ghost use Rattle.wire_format.specs.Spelling.{IsCarried, is_ordered_request};
ghost use Rattle.wire_format.specs.Views.{texts_of};
ghost use Rattle.desk.specs.Waiting.{HasRequestFrame, count_unnumbered, none_waiting, lent, oldest_of, request_of, texts, unnumbered, unnumbered_texts, is_of, is_new, is_assigned, all_numbered, renumbered, with_request, with_numbered, with_view, without_client, forgotten};

use events::Stop;
use execution::Executed;
use std::alloc::{AllocError, Global};
use std::marker::Model;
use terms::{ClientId, Timestamp};
use wire::MAX_REQUESTS;

/// A waiting request: its client and timestamp, and the frame in which it arrived.
#[derive(Drop)]
pub struct WaitingRequest {
    pub client: ClientId,
    pub timestamp: Timestamp,
    pub frame: Vec<u8>,
    /// Whether it has a number in the view.
    pub numbered: bool,
}

/// A call in the new view with which the view began. So it has a number in the view.
#[derive(Clone, Copy, Drop)]
pub struct AssignedCall {
    pub client: ClientId,
    pub timestamp: Timestamp,
}

/// The waiting requests in order of arrival, of each client the latest, so at most 256 frames; and the calls in the new
/// view with which the view began, at most 32 times 16.
#[derive(Drop)]
pub(crate) struct Waiting {
    requests: Vec<WaitingRequest>,
    assigned: Vec<AssignedCall>,
}

impl Model for Waiting {
    ghost use Rattle.desk.specs.Waiting.{WaitingData, IsWaiting};

    ghost Value = { WaitingData };

    ghost view = { λ w. record { requests = w.requests.items; assigned = w.assigned.items } };

    ghost invariant = { λ w. IsWaiting (record { requests = w.requests.items; assigned = w.assigned.items }) };
}

impl Waiting {
    pub(crate) fn new(alloc: Global) -> Waiting
        ensures { result ≡ none_waiting }
    {
        Waiting {
            requests: Vec::new(alloc),
            assigned: Vec::new(alloc),
        }
    }

    /// The client's request, if one waits.
    pub(crate) fn request_of(&self, client: ClientId) -> Option<&WaitingRequest>
        ensures value { lent result ≡ request_of client.number self.now }
        ensures request { IfSome result (λ r. HasRequestFrame r.now) }
    {
        self.requests
            .iter()
            .find(|request| request.client.number == client.number)
    }

    /// Whether no request waits.
    pub(crate) fn is_empty(&self) -> bool
        ensures { IsTrue result ↔ (self.now.requests ≡ []) }
    {
        self.requests.is_empty()
    }

    /// The client's number and the timestamp of the request that has waited longest.
    pub(crate) fn oldest(&self) -> Option<(u16, Timestamp)>
        ensures { result ≡ oldest_of self.now.requests }
    {
        match self.requests.as_slice() {
            [] => None,
            [request, ..] => Some((request.client.number, request.timestamp)),
        }
    }

    /// How many requests have no number yet.
    pub(crate) fn count_unnumbered(&self) -> usize
        ensures { result ≡ count_unnumbered self.now }
    {
        self.requests
            .iter()
            .filter(|request| !request.numbered)
            .count()
    }

    /// Whether a request has no number yet.
    pub(crate) fn has_unnumbered(&self) -> bool
        ensures some { IsTrue result → 1 ≤ length (unnumbered self.now) }
        ensures none { IsFalse result → count_unnumbered self.now ≡ 0 }
    {
        self.requests.iter().any(|request| !request.numbered)
    }

    /// Copies of the frames of up to 16 requests that have no number yet, the oldest first.
    pub(crate) fn unnumbered_frames(&self, alloc: Global) -> Result<Vec<Vec<u8>>, Stop>
        ensures value { IfOk result (λ frames. texts_of frames.items ≡ texts (unnumbered self.now)) }
        ensures each { Each (IsCarried is_ordered_request) (texts (unnumbered self.now)) }
        ensures most { length (unnumbered self.now) ≤ 16 }
    {
        copy_unnumbered(alloc, &self.requests)
    }

    /// Appends a client's request in this frame. It has a number in the view if the view began with it.
    pub(crate) fn push(
        &mut self,
        client: ClientId,
        timestamp: Timestamp,
        frame: Vec<u8>,
    ) -> Result<(), AllocError>
        requires { IsCarried is_ordered_request frame.items }
        ensures ok { OnOk result (self.new ≡ with_request client timestamp frame self.old) }
        ensures err { OnErr result (self.new ≡ self.old) }
    {
        let numbered = is_call_in(client, timestamp, &self.assigned);
        self.requests.push(WaitingRequest {
            client,
            timestamp,
            frame,
            numbered,
        })?;
        Ok(())
    }

    /// Notes that the first `count` of the requests without a number have one.
    pub(crate) fn note_numbered(&mut self, count: usize)
        ensures { self.new ≡ with_numbered count self.old }
    {
        number_first(count, &mut self.requests);
    }

    /// A view begins by a new view with these calls. They alone have a number in it.
    pub(crate) fn begin_view(&mut self, calls: Vec<AssignedCall>)
        ensures { self.new ≡ with_view calls.items self.old }
    {
        renumber(&calls, &mut self.requests);
        self.assigned = calls;
    }

    /// Removes the client's request, if one waits.
    pub(crate) fn remove(&mut self, client: ClientId)
        ensures { self.new ≡ without_client client.number self.old }
    {
        keep_others(client, &mut self.requests);
    }

    /// Removes the requests that ran, or are older than one of their client's that ran.
    pub(crate) fn forget(&mut self, executed: &Executed)
        ensures { self.new ≡ forgotten executed.now.state self.old }
    {
        keep_new(executed, &mut self.requests);
    }
}

// Whether the call is one of these.
fn is_call_in(client: ClientId, timestamp: Timestamp, calls: &[AssignedCall]) -> bool
    ensures { result ≡ is_assigned calls.now client.number timestamp.0 }
{
    calls.iter().any(|call| call.client.number == client.number && call.timestamp.0 == timestamp.0)
}

fn number_first(count: usize, requests: &mut Vec<WaitingRequest>)
    ensures { requests.new.items ≡ all_numbered count requests.old.items }
{
    let mut left = count;
    for request in requests.iter_mut() {
        if left > 0 && !request.numbered {
            request.numbered = true;
            left -= 1;
        }
    }
}

fn renumber(calls: &[AssignedCall], requests: &mut Vec<WaitingRequest>)
    ensures { requests.new.items ≡ map (renumbered calls.now) requests.old.items }
{
    for request in requests.iter_mut() {
        request.numbered = is_call_in(request.client, request.timestamp, calls);
    }
}

fn keep_others(client: ClientId, requests: &mut Vec<WaitingRequest>)
    ensures { requests.new.items ≡ filter (λ r. not (is_of client.number r)) requests.old.items }
{
    requests.retain(|request| request.client.number != client.number);
}

fn keep_new(executed: &Executed, requests: &mut Vec<WaitingRequest>)
    ensures { requests.new.items ≡ filter (is_new executed.now.state) requests.old.items }
{
    requests.retain(|request| executed.seen(request.client).0 < request.timestamp.0);
}

// Copies of the frames of up to 16 requests without a number.
fn copy_unnumbered(alloc: Global, requests: &[WaitingRequest]) -> Result<Vec<Vec<u8>>, Stop>
    ensures { IfOk result (λ frames. texts_of frames.items ≡ unnumbered_texts requests.now) }
{
    let mut frames = Vec::new(alloc);
    for request in requests {
        if !request.numbered && frames.len() < MAX_REQUESTS {
            add_copy(&mut frames, alloc, &request.frame)?;
        }
    }
    Ok(frames)
}

fn add_copy(frames: &mut Vec<Vec<u8>>, alloc: Global, frame: &[u8]) -> Result<(), Stop>
    ensures { OnOk result (texts_of frames.new.items ≡ texts_of frames.old.items ++ frame.now ∷ []) }
{
    let copy = Vec::from_slice(alloc, frame)?;
    frames.push(copy)?;
    Ok(())
}
