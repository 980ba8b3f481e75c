//! The journal of a running cluster: one trace of all correct parties' entries, and for each party a share with its
//! own history.
//!
//! # What is proved
//!
//! These hold by the types alone, so also of values behind locks. The trace of a [`Journal`] is a run's (`IsRun`),
//! and each frame that a party got was sent before, except those that name a faulty sender (`Carried`). The history
//! of a [`Share`] is a correct party's.
//!
//! [`Journal::append`] and [`Journal::append_order`] take an event of a share's party, all of it or nothing. They
//! refuse it exactly if it is out of step ([`AppendFault::NotInJournal`]), or if it isn't and the limit would be
//! passed ([`AppendFault::JournalFull`]), or if memory runs out. A refusal changes nothing. [`Journal::agrees`]
//! compares exactly, and [`Journal::take`] gives out the trace.
//!
//! A journal that [`Journal::tied`] makes takes an event in a time that grows neither with the trace nor with the
//! party's history. That is measured and not proved. Proved is that each comparison is exact all the same.
//!
//! # How it is made
//!
//! - Journal and shares are generic in a `Naming`. It names one configuration, and has no value when the program runs.
//!   So all that two locks hold is of one configuration.
//! - No type ties what two locks hold. So `append` compares that the trace has just the share's history of its party.
//! - To compare it whole would cost more with each append. So journal and shares are tied (`Tie`) by a history of
//!   events that stands in the proofs alone. The program keeps its count.
//! - Three comparisons of numbers tell that a share has seen its party's last event. If they don't tell it, all is
//!   compared. The tie only says where both are known to agree, so the comparison stays exact.
//! - The trace and the shares have in common what an entry has: a frame, a batch, an operation or an answer. So an
//!   append copies none of them under the journal's lock.
//! - The law `carried_is_unforged` leads from such a trace to the headline: if no party is faulty, each frame that was
//!   got was sent.
#![tactic(auto)]

mod carrying;
mod comparing;
mod entries;
mod fault;
mod front;
mod growing;
mod laws;
mod locked;
mod matching;
mod naming;
mod opening;
mod order_share;
mod parties;
mod share;
mod tie;

pub use fault::AppendFault;
pub use front::Opened;
pub use laws::carried_is_unforged;
pub use locked::Journal;
pub use naming::Naming;
pub use order_share::OrderShare;
pub use share::Share;
