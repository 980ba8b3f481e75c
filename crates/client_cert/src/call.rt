//! An open call and the replies to it.

ghost use Rattle.std.specs.Prelude.{◌≡◌, ◌≤◌, IfOk, OnOk};
ghost use Rattle.terms.specs.declared.order.Mode.TheVariants as modes;
ghost use Rattle.tuple_codec.specs.OperationView.{operation_of};
ghost use Rattle.protocol.specs.System.Frames.{same_mode};
ghost use Rattle.client_cert.specs.Asking.{AsksAs};
ghost use Rattle.client_cert.specs.State.{TakesReply, ballots_of, count_alike, new_call, turn_of, went};
ghost use Rattle.client_cert.specs.TurnView.{turn_is};

use crate::asking::seal_request;
use crate::ballots::{Ballot, Ballots};
use authenticator::Ring;
use events::Stop;
use std::alloc::Global;
use std::marker::Model;
use terms::{ClientId, Mode, Timestamp};
use tuple_codec::Op;

/// The consequence of a reply.
#[derive(Clone, Copy, Drop)]
pub(crate) enum Next {
    Wait,
    AskOrdered,
    Accept,
}

/// A call that is not answered yet.
#[derive(Drop)]
pub(crate) struct Call {
    op: Op<Global>,
    /// Whether a request for it was sent ordered.
    ordered: bool,
    ordered_ballots: Ballots,
    read_ballots: Ballots,
}

impl Model for Call {
    ghost use Rattle.client_cert.specs.State.{CallState, call_code};

    ghost Value = { CallState };

    ghost coded = { call_code };

    ghost use Rattle.tuple_codec.specs.OperationView.{operation_of};

    ghost view = { λ c. record {
      op = operation_of c.op;
      ordered = c.ordered;
      ordered_ballots = c.ordered_ballots;
      read_ballots = c.read_ballots;
    } };
}

impl Call {
    pub(crate) fn new(alloc: Global, op: Op<Global>) -> Call
        ensures { result ≡ new_call (operation_of op) }
    {
        Call {
            op,
            ordered: false,
            ordered_ballots: Ballots::new(alloc),
            read_ballots: Ballots::new(alloc),
        }
    }

    /// Keeps a reply, in place of that replica's earlier one in this mode.
    pub(crate) fn note(&mut self, sender: u16, mode: Mode, ballot: Ballot) -> Result<(), Stop>
        ensures taken { OnOk result (TakesReply self.old mode sender ballot self.new) }
    {
        match mode {
            Mode::Ordered => self.ordered_ballots.note(sender, ballot),
            Mode::ReadOnly => self.read_ballots.note(sender, ballot),
        }
    }

    /// The consequence of the newest reply, that of the sender in this mode.
    pub(crate) fn next(&self, faults: u8, mode: Mode, sender: u16) -> Next
        requires few { faults ≤ 3 }
        ensures turn { turn_is result (turn_of faults self.now mode sender) }
    {
        let replicas = 3 * u16::from(faults) + 1;
        if self.count_alike(replicas, mode, sender) >= 2 * u16::from(faults) + 1 {
            Next::Accept
        } else if !self.ordered && self.read_ballots.count(replicas) >= replicas {
            Next::AskOrdered
        } else {
            Next::Wait
        }
    }

    // How many of so many replicas gave the like of the sender's reply in this mode.
    fn count_alike(&self, replicas: u16, mode: Mode, sender: u16) -> u16
        ensures { result ≡ count_alike (ballots_of mode self.now) replicas sender }
    {
        match mode {
            Mode::Ordered => self.ordered_ballots.count_alike(replicas, sender),
            Mode::ReadOnly => self.read_ballots.count_alike(replicas, sender),
        }
    }
}

pub(crate) fn is_ordered(mode: Mode) -> bool
    ensures { result ≡ same_mode mode modes.Ordered }
{
    match mode {
        Mode::Ordered => true,
        Mode::ReadOnly => false,
    }
}

/// Gives the call back, and its request, sealed for all replicas. After an error the call only counts as sent.
pub(crate) fn request(
    ring: &mut Ring,
    alloc: Global,
    client: ClientId,
    faults: u8,
    timestamp: Timestamp,
    mode: Mode,
    call: Call,
) -> (Call, Result<Vec<u8>, Stop>)
    requires faults { faults ≡ ring.old.faults }
    requires few { faults ≤ 3 }
    ensures sealed { IfOk result.1 (AsksAs ring.old client mode timestamp call.op) }
    ensures went { result.0 ≡ went mode call }
    ensures same { ring.new ≡ ring.old }
{
    let Call {
        op,
        ordered,
        ordered_ballots,
        read_ballots,
    } = call;
    let (op, sealed) = seal_request(ring, alloc, client, faults, timestamp, mode, op);
    let call = Call {
        op,
        ordered: is_ordered(mode) || ordered,
        ordered_ballots,
        read_ballots,
    };
    (call, sealed)
}
