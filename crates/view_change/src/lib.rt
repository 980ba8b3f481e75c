//! View changes (Castro and Liskov, Practical Byzantine fault tolerance and proactive recovery, TOCS 2002, on view
//! changes): which view changes a replica stores, which selection they allow, and which new views a replica takes. The
//! sets P and Q of its own view changes are in `pq_sets`. Nothing here signs, sends or authenticates.
//!
//! # What is proved
//!
//! - `Received` has at most one view change of each replica, the latest. Each is within its bounds and signed by its
//!   sender in the frame that is stored with it. `add` takes a view change exactly if no refusal applies; else it
//!   returns the first one that does and changes nothing. `joined_view` is the least later view of others exactly if
//!   more than `f` have one.
//! - If any selection satisfies the rules over the stored view changes, `select` returns the one with the greatest
//!   start and the first batch in order at each number. It returns None only if there is none, over these view changes
//!   or any part of them.
//! - `assemble` makes the new view of a selection. It satisfies the rules, and may be sent.
//! - `check_new_view` is Ok exactly if the new view is by its primary, of a later view, and satisfies the rules; else
//!   it returns the first refusal that applies.
//! - The laws: a new view is selected by its set; a larger set allows all that a smaller one does; entries decide which
//!   digests may stand; the rules depend on two sizes and the public keys alone; and a replica takes exactly what
//!   it does not refuse.
//!
//! If memory runs out, a call that takes memory returns an error and leaves all as it was.
//!
//! # How it is made
//!
//! - Contracts see `Received` as a place for each replica (`ReceivedState`). `add` judges a frame, and `add_signed` one
//!   that was authenticated before.
//! - `refusal` in `specs/Checking.antt` is the first refusal of a new view. `SelectsNewView` and `NothingSelects` in
//!   `specs/Selecting.antt` say what `select` returns.
//! - A rule is an enum (`Rule`), and one loop counts who passes it. That is the counting of the definitions themselves.
#![tactic(auto)]

mod assembling;
mod bounds;
mod carried;
mod change_fault;
mod changes;
mod checking;
mod choosing;
mod copying;
mod fault;
mod laws;
mod received;
mod rules;
mod selecting;

pub use assembling::assemble;
pub use bounds::is_set;
pub use change_fault::ChangeFault;
pub use changes::{Change, Selection, SignedChange, Sizes};
pub use checking::check_new_view;
pub use copying::copy_change;
pub use fault::NewViewFault;
pub use laws::{
    entries_decide, gaps_forbid, larger_sets_allow, refusals_decide, selects_by_set, sizes_decide,
};
pub use received::Received;
pub use selecting::select;
