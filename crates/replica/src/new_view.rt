//! New views: the replica's own, and those of others.

ghost use Rattle.std.specs.Prelude.{◌≡◌, [], IfOk};
ghost use Rattle.wire_format.specs.Lists.{Each};
ghost use Rattle.wire_format.specs.Spelling.{IsBatch};
ghost use Rattle.wire_format.specs.Messages.{new_view};
ghost use Rattle.wire_format.specs.Views.{new_view_data};
ghost use Rattle.view_change.specs.Sets.{texts_of};
ghost use Rattle.replica.specs.Going.{IsOneParty};
ghost use Rattle.replica.specs.Beginning.{MayBegin};
ghost use Rattle.replica.specs.Entering.{TakesMessage};

use crate::both_parts::BothParts;
use crate::taking::DueWork;
use events::{Outputs, Stop};
use ordering::HashedBatch;
use std::alloc::Global;
use std::sync::Arc;
use terms::{NoMemory, ReplicaId};
use view_change::{Selection, refusals_decide, sizes_decide};
use wire::NewView;

impl BothParts {
    /// Begins the view that the replica moves to, if it is that view's primary and the stored view changes allow it.
    pub(crate) fn begin_view(
        &mut self,
        alloc: Global,
        outputs: &mut Outputs,
    ) -> Result<DueWork, Stop>
        ensures ok { IfOk result (λ due_work. MayBegin self.old outputs.old.items
            due_work self.new outputs.new.items) }
        ensures party { IsOneParty self.old self.new }
    {
        self.orderer.keeps();
        self.desk.keeps();
        // Tells a proof that the sizes alone decide what may be selected.
        sizes_decide();
        let Some(selection) = self.orderer.selection(alloc)? else {
            return Ok(DueWork::Nothing);
        };
        let Some(frame) = self.orderer.sign_new_view(alloc, &selection)? else {
            return Ok(DueWork::Nothing);
        };
        self.orderer.multicast_frame(alloc, &frame, outputs)?;
        let view = self.orderer.target();
        self.enter(alloc, view, selection, Some(frame), outputs)?;
        Ok(DueWork::View)
    }

    /// Takes a new view, if it has no fault.
    pub(crate) fn on_new_view(
        &mut self,
        alloc: Global,
        sender: ReplicaId,
        message: NewView,
        outputs: &mut Outputs,
    ) -> Result<DueWork, Stop>
        requires first { outputs.old.items ≡ [] }
        requires batches { Each (IsBatch 0) (new_view_data message).batches }
        ensures ok { IfOk result (λ due_work. TakesMessage sender (new_view (new_view_data message))
            self.old due_work self.new outputs.new.items) }
        ensures party { IsOneParty self.old self.new }
    {
        self.orderer.keeps();
        self.desk.keeps();
        refusals_decide();
        sizes_decide();
        if !self.orderer.may_enter(alloc, sender, &message)? {
            return Ok(DueWork::Nothing);
        }
        let view = message.view;
        let selection = selection_in(alloc, message)?;
        self.enter(alloc, view, selection, None, outputs)?;
        Ok(DueWork::View)
    }
}

// The selection with which a new view begins.
fn selection_in(alloc: Global, new: NewView) -> Result<Selection, NoMemory>
    ensures start { IfOk result (λ s. s.start.0 ≡ (new_view_data new).start) }
    ensures root { IfOk result (λ s. s.root ≡ (new_view_data new).root) }
    ensures batches { IfOk result (λ s. texts_of s.batches.items ≡ (new_view_data new).batches) }
{
    let NewView {
        start,
        root,
        batches,
        ..
    } = new;
    let mut hashed = Vec::with_capacity(alloc, batches.len())?;
    for batch in batches {
        hashed.push(Arc::new(alloc, HashedBatch::new(batch))?)?;
    }
    Ok(Selection {
        start,
        root,
        batches: hashed,
    })
}
