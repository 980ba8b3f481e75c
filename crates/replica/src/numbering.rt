//! Requests that arrive, and the numbers that a primary assigns to them.

ghost use Rattle.std.specs.Prelude.{◌≡◌, ◌≤◌, suc, true, [], length, IfNone, IfOk, IfSome, OnOk};
ghost use Rattle.wire_format.specs.Spelling.{IsCarried, is_ordered_request};
ghost use Rattle.ordering.specs.Log.{is_in_marks};
ghost use Rattle.desk.specs.Waiting.{unnumbered};
ghost use Rattle.replica.specs.Going.{IsOneParty};
ghost use Rattle.replica.specs.Entering.{TakesRequest};
ghost use Rattle.replica.specs.Numbering.{AllAgain, IsNextFree};
ghost use Rattle.orderer.specs.Numbering.{next_number};
ghost use Rattle.replica.specs.NumbersNext.{NumbersNext, NumbersTurn, NumbersWaitingRequests};

use crate::both_parts::BothParts;
use crate::taking::DueWork;
use desk::Arrival;
use events::{Outputs, Stop};
use std::alloc::Global;
use terms::{ClientId, Number, Timestamp};

/// A primary assigns numbers at most so far above the executed one.
const AHEAD: u64 = 2;

impl BothParts {
    /// Takes a client's ordered request. The replica answers the last executed one again, and makes a newer one wait.
    /// If the request waits already, the replica multicasts again what it sent for numbers that aren't executed.
    pub(crate) fn on_request(
        &mut self,
        alloc: Global,
        client: ClientId,
        timestamp: Timestamp,
        frame: &[u8],
        outputs: &mut Outputs,
    ) -> Result<DueWork, Stop>
        requires carried { IsCarried is_ordered_request frame.now }
        requires first { outputs.old.items ≡ [] }
        ensures ok { IfOk result (λ due_work. TakesRequest client timestamp frame.now self.old
            due_work self.new outputs.new.items) }
        ensures party { IsOneParty self.old self.new }
    {
        if self.desk.reply_again(alloc, client, timestamp, outputs)? {
            return Ok(DueWork::Nothing);
        }
        match self.desk.arrival_of(client, timestamp, frame) {
            Arrival::Past => Ok(DueWork::Nothing),
            Arrival::Waiting => {
                self.multicast_all_again(alloc, outputs)?;
                Ok(DueWork::Nothing)
            }
            Arrival::New => {
                self.desk.wait(alloc, client, timestamp, frame)?;
                Ok(DueWork::Waiting)
            }
        }
    }

    // Multicasts again, while active, what the replica sent for numbers that aren't executed; else its view change.
    fn multicast_all_again(&mut self, alloc: Global, outputs: &mut Outputs) -> Result<(), Stop>
        ensures ok { OnOk result (AllAgain self.old outputs.old.items self.new outputs.new.items) }
        ensures same { self.new ≡ self.old }
    {
        if !self.orderer.is_active() {
            return self.orderer.multicast_view_change_again(alloc, outputs);
        }
        let executed = self.desk.number();
        self.orderer.multicast_again(alloc, executed, outputs)
    }

    /// Assigns the free numbers to waiting requests, if the replica is the primary. Each turn leaves fewer requests
    /// without a number.
    pub(crate) fn number_waiting(
        &mut self,
        alloc: Global,
        outputs: &mut Outputs,
    ) -> Result<(), Stop>
        ensures ok { OnOk result
            (NumbersWaitingRequests self.old outputs.old.items self.new outputs.new.items) }
        ensures party { IsOneParty self.old self.new }
    {
        for _ in 0..self.desk.count_unnumbered() {
            if !self.number_turn(alloc, outputs)? {
                return Ok(());
            }
        }
        Ok(())
    }

    // Assigns the next number to waiting requests, and does what follows. Returns whether there were both.
    fn number_turn(&mut self, alloc: Global, outputs: &mut Outputs) -> Result<bool, Stop>
        ensures ok { IfOk result
            (NumbersTurn self.old outputs.old.items self.new outputs.new.items) }
        ensures party { IsOneParty self.old self.new }
    {
        let Some(number) = self.free_number() else {
            return Ok(false);
        };
        if !self.desk.has_unnumbered() {
            return Ok(false);
        }
        self.number_next(alloc, number, outputs)?;
        self.advance(alloc, number, outputs)?;
        Ok(true)
    }

    // Assigns the number to the oldest requests without one.
    fn number_next(
        &mut self,
        alloc: Global,
        number: Number,
        outputs: &mut Outputs,
    ) -> Result<(), Stop>
        requires within { is_in_marks self.old.orderer.log number.0 ≡ true }
        requires some { 1 ≤ length (unnumbered self.old.desk.waiting) }
        ensures ok { OnOk result
            (NumbersNext number.0 self.old outputs.old.items self.new outputs.new.items) }
        ensures party { IsOneParty self.old self.new }
    {
        let frames = self.desk.unnumbered_frames(alloc)?;
        self.orderer
            .multicast_batch(alloc, number, &frames, outputs)?;
        self.desk.note_numbered(frames.len());
        Ok(())
    }

    // The free number of the orderer, if it is at most two above the executed one.
    fn free_number(&self) -> Option<Number>
        ensures within { IfSome result (λ number. is_in_marks self.now.orderer.log number.0 ≡ true) }
        ensures next { IfSome result (λ number. number.0 ≡ next_number self.now.orderer) }
        ensures free { IfSome result (λ _. IsNextFree self.now) }
        ensures none { IfNone result (IsNextFree self.now → ⊥) }
    {
        let number = self.orderer.free_number()?;
        if number.0 <= self.desk.number().0 + AHEAD {
            Some(number)
        } else {
            None
        }
    }
}
