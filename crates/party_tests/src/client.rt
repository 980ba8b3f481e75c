//! Tests of a client over frames (`client_cert`) and of the types that the parties share (`events`): a call from its
//! request to its answer, which replies count, a read that falls back, a call that is refused, memory refused, a later
//! life, and which configurations there are.

mod calls;
mod clients;
mod configurations;
mod lives;
mod replies;
mod stops;
