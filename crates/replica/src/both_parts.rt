//! Both parts of a replica, joined within an event.

ghost use Rattle.std.specs.Prelude.{◌≡◌, [], IfOk, OnOk};
ghost use Rattle.replica.specs.State.{AreOne};
ghost use Rattle.replica.specs.Going.{IsOneParty};
ghost use Rattle.orderer.specs.ViewChangeOut.{AreChanges};
ghost use Rattle.replica.specs.Entering.{TakesInput};
ghost use Rattle.replica.specs.FollowingUp.{ExecutesAndNumbers, FollowsUp};
ghost use Rattle.replica.specs.Inputs.{input_of};
ghost use Rattle.replica.specs.BothParts.{BothPartsEventLead, me_of};

use crate::replica::Event;
use crate::taking::DueWork;
use desk::Desk;
use events::{Outputs, Stop};
use orderer::Orderer;
use std::alloc::Global;
use std::marker::Model;

/// The orderer and the desk share nothing but the steps that they make together.
#[derive(Drop)]
pub(crate) struct BothParts {
    pub(crate) orderer: Orderer,
    pub(crate) desk: Desk,
}

impl Model for BothParts {
    ghost use Rattle.replica.specs.State.{BothPartsData, AreOne};
    ghost use Rattle.std.specs.Coded.{codes};
    ghost use Rattle.execution.specs.Executed.{executed_code};

    ghost Value = { BothPartsData };

    ghost coded = { Prim.hlevel (codes, executed_code) };

    ghost use Rattle.replica.specs.BothPartsView.{both_parts_data};

    ghost view = { both_parts_data };

    ghost invariant = { λ r. AreOne r.orderer r.desk };
}

impl BothParts {
    // Tells a proof that both parts are of one replica.
    pub(crate) fn are_one(&self)
        ensures { AreOne self.now.orderer self.now.desk }
    {
        let _period = self.desk.period();
    }

    /// The outputs of an event. Tells a proof that both parts are of one replica before it and after it.
    pub(crate) fn step(&mut self, alloc: Global, event: Event<'_>) -> Result<Outputs, Stop>
        ensures before { AreOne self.old.orderer self.old.desk }
        ensures leads { IfOk result (λ outs. BothPartsEventLead self.old event.entry outs.items self.new) }
        ensures party { IsOneParty self.old self.new }
        ensures after { IfOk result (λ _. AreOne self.new.orderer self.new.desk) }
        ensures changes { IfOk result (λ _. AreChanges self.new.orderer.received.held) }
    {
        self.are_one();
        let outputs = self.react(alloc, event)?;
        self.are_one();
        self.orderer.note_changes();
        Ok(outputs)
    }

    // The outputs of an event: first those that the message itself asks for, then those that the log asks for. Last the
    // primary assigns the free numbers to waiting requests.
    pub(crate) fn react(&mut self, alloc: Global, event: Event<'_>) -> Result<Outputs, Stop>
        ensures leads { IfOk result (λ outs. BothPartsEventLead self.old event.entry outs.items self.new) }
        ensures party { IsOneParty self.old self.new }
    {
        self.are_one();
        let mut outputs = Vec::new(alloc);
        let due_work = self.begin(alloc, event, &mut outputs)?;
        self.finish_event(alloc, due_work, &mut outputs)?;
        Ok(outputs)
    }

    // Emits what the event itself asks for. Returns what it touched.
    fn begin(
        &mut self,
        alloc: Global,
        event: Event<'_>,
        outputs: &mut Outputs,
    ) -> Result<DueWork, Stop>
        requires first { outputs.old.items ≡ [] }
        ensures ok { IfOk result (λ due_work. TakesInput (input_of (me_of self.old) event.entry) self.old
            due_work self.new outputs.new.items) }
        ensures party { IsOneParty self.old self.new }
    {
        match event {
            Event::Timeout => self.on_timeout(alloc, outputs),
            Event::Got(bytes) => self.take(alloc, bytes, outputs),
        }
    }

    // Emits what follows, by what the event touched.
    fn finish_event(
        &mut self,
        alloc: Global,
        due_work: DueWork,
        outputs: &mut Outputs,
    ) -> Result<(), Stop>
        ensures ok { OnOk result (FollowsUp due_work self.old outputs.old.items self.new outputs.new.items) }
        ensures party { IsOneParty self.old self.new }
    {
        match due_work {
            DueWork::Nothing => Ok(()),
            DueWork::Waiting => self.number_waiting(alloc, outputs),
            DueWork::Row(number) => {
                self.advance(alloc, number, outputs)?;
                self.number_waiting(alloc, outputs)
            }
            DueWork::State | DueWork::View => self.execute_and_number(alloc, outputs),
        }
    }

    // Executes committed batches, and then assigns numbers to waiting requests.
    fn execute_and_number(&mut self, alloc: Global, outputs: &mut Outputs) -> Result<(), Stop>
        ensures ok { OnOk result
            (ExecutesAndNumbers self.old outputs.old.items self.new outputs.new.items) }
        ensures party { IsOneParty self.old self.new }
    {
        self.execute_committed(alloc, outputs)?;
        self.number_waiting(alloc, outputs)
    }
}
