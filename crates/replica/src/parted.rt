//! A replica in two parts, which may lie behind two locks: the orderer, and the desk, which answers reads beside it.
//!
//! The desk keeps up with the whole history, the orderer with the entries of ordering. An event of ordering takes both;
//! a read takes the desk alone. Each part has a stop flag of its own, and a stopped part holds nothing any more.

ghost use Rattle.std.specs.Prelude.{◌≡◌, ◌⊎◌, ◌↔◌, true, false, [], None, Some, Err, is_none, IfOk, IsOk, OnErr, OnOk, IsTrue};
ghost use Rattle.events.specs.declared.output.Stop.TheVariants as Stop;
ghost use Rattle.replica.specs.MemberView.{member_data};
ghost use Rattle.replica.specs.State.{member_of};
ghost use Rattle.replica.specs.Parted.{AreTogether, BothLead, BothSendAsMeant, DeskStops, OrdererStops, ReadLeads, ReadSendsAsMeant};
ghost use Rattle.wire.specs.Marks.{asks_read};

use crate::both_parts::BothParts;
use crate::member::Member;
use crate::replica::Event;
use bumpalo::Bump;
use desk::Desk as DeskState;
use events::{Outputs, Stop};
use orderer::Orderer as OrdererState;
use read_only::asks_read;
use std::alloc::Global;
use std::marker::Model;

/// The part that orders requests. It knows no state.
#[derive(Drop)]
pub struct Orderer {
    member: Member,
    holds: Option<OrdererState>,
}

impl Model for Orderer {
    ghost use Rattle.replica.specs.State.{OrdererPart, IsOrdererPart};
    ghost use Rattle.replica.specs.PartedView.{orderer_part};

    ghost Value = { OrdererPart };

    ghost view = { orderer_part };

    ghost invariant = { λ o. IsOrdererPart (orderer_part o) };
}

/// The executed state, the kept states and what waits for execution, with the keys for replies.
#[derive(Drop)]
pub struct Desk {
    member: Member,
    holds: Option<DeskState>,
}

impl Model for Desk {
    ghost use Rattle.replica.specs.State.{DeskPart, IsDeskPart};
    ghost use Rattle.replica.specs.PartedView.{desk_part};
    ghost use Rattle.std.specs.Coded.{codes};
    ghost use Rattle.execution.specs.Executed.{executed_code};

    ghost Value = { DeskPart };

    ghost coded = { Prim.hlevel (codes, executed_code) };

    ghost view = { desk_part };

    ghost invariant = { λ d. IsDeskPart (desk_part d) };
}

impl Orderer {
    pub(crate) fn new(member: Member, orderer: OrdererState) -> Orderer
        requires member { member_of orderer.endpoint.membership orderer.endpoint.me
            ≡ member_data member }
        ensures { result ≡ record { member = member_data member; holds = Some orderer } }
    {
        Orderer {
            member,
            holds: Some(orderer),
        }
    }

    pub(crate) fn stopped(member: Member) -> Orderer
        ensures { result ≡ record { member = member_data member; holds = None } }
    {
        Orderer {
            member,
            holds: None,
        }
    }

    /// Whether the orderer has stopped.
    pub fn is_stopped(&self) -> bool
        ensures { result ≡ is_none self.now.holds }
    {
        self.holds.is_none()
    }

    /// Stops the orderer.
    pub fn stop(&mut self)
        ensures stopped { self.new.holds ≡ None }
        ensures member { self.new.member ≡ self.old.member }
        ensures keeps { OrdererStops self.old self.new }
    {
        self.holds = None;
    }

    /// What the replica of both parts gives for its next input. A desk of another replica, or with another period of
    /// checkpoints, gives nothing, and nothing changes.
    ///
    /// # Errors
    ///
    /// NoMemory if memory runs out, which it never does with such a desk, and Stopped exactly if either part had
    /// stopped before. Both have stopped then, and nothing is given.
    pub fn step(
        &mut self,
        alloc: Global,
        desk: &mut Desk,
        event: Event<'_>,
    ) -> Result<Outputs, Stop>
        ensures leads { IfOk result (λ outs. BothLead self.old desk.old event.entry outs.items self.new desk.new) }
        ensures meant { IfOk result (λ outs. BothSendAsMeant self.old desk.old outs.items) }
        ensures stops { OnErr result (BothLead self.old desk.old event.entry [] self.new desk.new) }
        ensures apart { ¬ (AreTogether self.old desk.old) → IfOk result (λ outs. outs.items ≡ []) }
        ensures same { ¬ (AreTogether self.old desk.old) → IfOk result (λ _. self.new ≡ self.old) }
        ensures desk_same { ¬ (AreTogether self.old desk.old) → IfOk result (λ _. desk.new ≡ desk.old) }
        ensures refused { ¬ (AreTogether self.old desk.old) → OnErr result (result ≡ Err Stop.Stopped) }
        ensures runs { IfOk result (λ _. is_none self.new.holds ≡ false) }
        ensures desk_runs { IfOk result (λ _. is_none desk.new.holds ≡ false) }
        ensures stopped { OnErr result (self.new.holds ≡ None) }
        ensures desk_stopped { OnErr result (desk.new.holds ≡ None) }
        ensures before { (result ≡ Err Stop.Stopped) ↔ ((self.old.holds ≡ None) ⊎ (desk.old.holds ≡ None)) }
        ensures member { self.new.member ≡ self.old.member }
        ensures desk_member { desk.new.member ≡ desk.old.member }
    {
        if self.is_stopped() || desk.is_stopped() {
            self.stop();
            desk.stop();
            return Err(Stop::Stopped);
        }
        if !self.goes_with(desk) {
            return Ok(Vec::new(alloc));
        }
        self.step_with(alloc, desk, event)
    }

    // Whether both are parts of one replica, and neither has stopped.
    fn goes_with(&self, desk: &Desk) -> bool
        ensures { IsTrue result ↔ AreTogether self.now desk.now }
    {
        let (Some(orderer), Some(state)) = (&self.holds, &desk.holds) else {
            return false;
        };
        self.member.is_same(&desk.member) && have_one_period(orderer, state)
    }

    // The outputs of both parts together. Both have stopped if the step fails.
    fn step_with(
        &mut self,
        alloc: Global,
        desk: &mut Desk,
        event: Event<'_>,
    ) -> Result<Outputs, Stop>
        requires together { AreTogether self.old desk.old }
        ensures leads { IfOk result (λ outs. BothLead self.old desk.old event.entry outs.items self.new desk.new) }
        ensures sends { IfOk result (λ outs. BothSendAsMeant self.old desk.old outs.items) }
        ensures runs { IfOk result (λ _. is_none self.new.holds ≡ false) }
        ensures desk_runs { IfOk result (λ _. is_none desk.new.holds ≡ false) }
        ensures refused { OnErr result (result ≡ Err Stop.NoMemory) }
        ensures stopped { OnErr result (self.new.holds ≡ None) }
        ensures desk_stopped { OnErr result (desk.new.holds ≡ None) }
        ensures member { self.new.member ≡ self.old.member }
        ensures desk_member { desk.new.member ≡ desk.old.member }
    {
        let orderer = take_orderer(&mut self.holds);
        let state = take_desk(&mut desk.holds);
        let mut both_parts = BothParts {
            orderer,
            desk: state,
        };
        let Ok(outputs) = both_parts.step(alloc, event) else {
            return Err(Stop::NoMemory);
        };
        let BothParts {
            orderer: later_orderer,
            desk: later_state,
        } = both_parts;
        self.holds = Some(later_orderer);
        desk.holds = Some(later_state);
        Ok(outputs)
    }
}

// Whether both have the same period of checkpoints.
fn have_one_period(orderer: &OrdererState, desk: &DeskState) -> bool
    ensures { IsTrue result ↔ (orderer.now.received.sizes.period ≡ desk.now.period) }
{
    orderer.period() == desk.period()
}

fn take_orderer(holds: &mut Option<OrdererState>) -> OrdererState
    requires { is_none holds.old ≡ false }
    ensures is { holds.old ≡ Some result }
    ensures left { holds.new ≡ None }
{
    match holds.take() {
        Some(orderer) => orderer,
        None => unreachable!(),
    }
}

fn take_desk(holds: &mut Option<DeskState>) -> DeskState
    requires { is_none holds.old ≡ false }
    ensures is { holds.old ≡ Some result }
    ensures left { holds.new ≡ None }
{
    match holds.take() {
        Some(desk) => desk,
        None => unreachable!(),
    }
}

impl Desk {
    pub(crate) fn new(member: Member, desk: DeskState) -> Desk
        requires member { member_of desk.membership desk.me ≡ member_data member }
        ensures { result ≡ record { member = member_data member; holds = Some desk } }
    {
        Desk {
            member,
            holds: Some(desk),
        }
    }

    pub(crate) fn stopped(member: Member) -> Desk
        ensures { result ≡ record { member = member_data member; holds = None } }
    {
        Desk {
            member,
            holds: None,
        }
    }

    /// Whether the desk has stopped.
    pub fn is_stopped(&self) -> bool
        ensures { result ≡ is_none self.now.holds }
    {
        self.holds.is_none()
    }

    /// Stops the desk.
    pub fn stop(&mut self)
        ensures stopped { self.new.holds ≡ None }
        ensures member { self.new.member ≡ self.old.member }
        ensures keeps { DeskStops self.old self.new }
    {
        self.holds = None;
    }

    /// What the replica gives for bytes with the marks of a read: the answer from the executed state, if they are a
    /// read. Other bytes give nothing, and change nothing. The arena is for the read's template alone.
    ///
    /// # Errors
    ///
    /// NoMemory if memory runs out for a read, with which the desk stops, and Stopped exactly if it had stopped before.
    /// Nothing is given then.
    pub fn read(&mut self, alloc: Global, bytes: &[u8], arena: &mut Bump) -> Result<Outputs, Stop>
        ensures leads { asks_read bytes.now ≡ true
            → IfOk result (λ outs. ReadLeads self.old bytes.now outs.items self.new) }
        ensures meant { IfOk result (λ outs. ReadSendsAsMeant self.old outs.items) }
        ensures stops { asks_read bytes.now ≡ true → OnErr result (ReadLeads self.old bytes.now [] self.new) }
        ensures others { asks_read bytes.now ≡ false → IfOk result (λ outs. outs.items ≡ []) }
        ensures refused { asks_read bytes.now ≡ false → OnErr result (result ≡ Err Stop.Stopped) }
        ensures same { IfOk result (λ _. self.new ≡ self.old) }
        ensures stopped { OnErr result (self.new.holds ≡ None) }
        ensures before { (result ≡ Err Stop.Stopped) ↔ (self.old.holds ≡ None) }
        ensures member { self.new.member ≡ self.old.member }
    {
        if self.is_stopped() {
            return Err(Stop::Stopped);
        }
        let mut outputs = Vec::new(alloc);
        if self.answer(alloc, bytes, arena, &mut outputs).is_err() {
            self.stop();
            return Err(Stop::NoMemory);
        }
        Ok(outputs)
    }

    // The answer to bytes with the marks of a read.
    fn answer(
        &mut self,
        alloc: Global,
        bytes: &[u8],
        arena: &mut Bump,
        outputs: &mut Outputs,
    ) -> Result<(), Stop>
        requires first { outputs.old.items ≡ [] }
        ensures leads { asks_read bytes.now ≡ true → is_none self.old.holds ≡ false
            → OnOk result (ReadLeads self.old bytes.now outputs.new.items self.new) }
        ensures meant { OnOk result (ReadSendsAsMeant self.old outputs.new.items) }
        ensures others { asks_read bytes.now ≡ false → outputs.new.items ≡ [] }
        ensures done { asks_read bytes.now ≡ false → IsOk result }
        ensures same { self.new ≡ self.old }
    {
        let Some(state) = &mut self.holds else {
            return Ok(());
        };
        if !asks_read(bytes) {
            return Ok(());
        }
        state.read(alloc, bytes, arena, outputs)
    }
}
