//! Patience: when a replica is told that time went by.
//!
//! A replica learns of time by timeouts alone (`replica::Event::Timeout`). At one it asks again for the part that its
//! transfer awaits; and if a request waits or it is inactive, it signs a view change. A replica has 64 signatures for
//! its life, so it should get no timeout but where something stands still.
//!
//! A timer begins if the replica waits for something: a new view, a part, or the execution of a request. The replica
//! gets a timeout only if it still waits for the same when the timer is over. Then the next timer lasts twice as long.
//! If it waits for something else, or for nothing, the next one lasts half as long. The first lasts two seconds.
//!
//! Each view has its own time. If the replica follows others out of its view, or to a later one, the timer ends early,
//! and the next one lasts twice as long, as it does at those who had a timeout. If it enters the view that it waited
//! for, the timer ends early too. The next one lasts as long, until a request is executed in that view (Castro and
//! Liskov, TOCS 2002, on liveness).
//!
//! No view begins without a quorum. So a replica that is linked to fewer than 2f others gets no timeout: it would sign
//! view changes that nobody gets, and then follow the others by transfers alone.
//!
//! # What is proved
//!
//! [`Patience::begins`] and [`Patience::ends`] do what these rules say over all that happened before (`Begins`,
//! `Ends`). Time is a number that the caller gives: no clock is read here.
//!
//! The shortest timer doubles with each fourth timeout that may cost a signature. So whatever happens, 64 of these
//! timeouts take 524,280 seconds of timers at least, which are six days (`timeouts_take_time`).
#![tactic(auto)]

mod laws;
mod patience;
mod standing;

pub use laws::timeouts_take_time;
pub use patience::{FIRST, LONGEST, Patience, Timer};
pub use standing::{Standing, Wait};
