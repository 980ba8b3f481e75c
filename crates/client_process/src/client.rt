//! The client of `client_cert`, as its process steps it.

use crate::caller::Caller;
use client_cert::{Client, Event, InvokeFault};
use events::{Outputs, Stop};
use std::alloc::Global;
use tuple_codec::Op;

impl Caller for Client {
    ghost use Rattle.client_cert.specs.State.{me_of};
    ghost use Rattle.client_process.specs.Clients.{FitsRunning};

    ghost me = { me_of };

    ghost fits = { λ client c start history. FitsRunning c start client history };

    fn call(&mut self, alloc: Global, op: Op<Global>) -> Result<Outputs, Stop> {
        match self.invoke(alloc, op) {
            Ok(outputs) => Ok(outputs),
            Err(InvokeFault::NoMemory) => Err(Stop::NoMemory),
            Err(InvokeFault::Busy | InvokeFault::Stopped) => Err(Stop::Stopped),
        }
    }

    fn got(&mut self, alloc: Global, frame: &[u8]) -> Result<Outputs, Stop> {
        self.step(alloc, Event::Got(frame))
    }

    fn retry(&mut self, alloc: Global) -> Result<Outputs, Stop> {
        self.step(alloc, Event::Retry)
    }

    ghost is_right = { λ client c start history h. (h.fits.running h.runs).gave };
}
