//! One of four replicas, and its outputs.

ghost use Rattle.std.specs.Prelude.{◌≤◌, IsTrue};

use crate::answers::of_stop;
use crate::frames::{Sent, batch, frame_of, receivers_of};
use crate::states::{State, root_of};
use authenticator::{Ring, deal, signing_seed};
use events::{Output, Outputs, Stop};
use replica::{Desk, Event, Numbers, Orderer, Replica};
use signing::{PublicKeys, Signer};
use std::alloc::Global;
use terms::{NoMemory, Party, ReplicaId};
use test_bytes::{FRAME_SEED, Verdict, both};

/// An output of an event: a frame, the batch of a number that is executed, or a state of a number that is installed.
#[derive(Clone, Copy)]
pub enum Given {
    Sends(Sent),
    Executes(u8),
    Installs(u8, State),
}

/// A frame that comes, and the outputs for it.
pub type Row<'a> = (Sent, &'a [Given]);

// The replica among three clients, with its own keys of this seed.
fn new_replica(
    alloc: Global,
    seed: &[u8; 32],
    period: u8,
    me: ReplicaId,
) -> Result<Replica, NoMemory>
    requires known { me.0 ≤ 3 }
    requires some { 1 ≤ period }
    requires short { period ≤ 16 }
{
    let numbers = Numbers {
        faults: 1,
        clients: 3,
        period,
    };
    let party = Party::Replica(me);
    let ring = Ring::of_party(alloc, 1, 3, deal(alloc, seed, 1, 3, party)?)?;
    let signer = Signer::from_seed(&signing_seed(seed, party));
    let publics = PublicKeys::new(alloc, seed, 1)?;
    Replica::new(alloc, numbers, me, ring, signer, publics)
}

// It lies in a box: a function that owns all of a replica takes long to prove.
fn boxed<T: Drop>(alloc: Global, value: T) -> Result<Box<T>, Stop> {
    match Box::new(alloc, value) {
        Ok(value) => Ok(value),
        Err(_) => Err(Stop::NoMemory),
    }
}

fn boxed_in(alloc: Global, seed: &[u8; 32], period: u8, me: ReplicaId) -> Result<Box<Replica>, Stop>
    requires known { me.0 ≤ 3 }
    requires some { 1 ≤ period }
    requires short { period ≤ 16 }
{
    match new_replica(alloc, seed, period, me) {
        Ok(replica) => boxed(alloc, replica),
        Err(NoMemory) => Err(Stop::NoMemory),
    }
}

// Whether one of four replicas has this number, and may keep its state so often.
fn is_there(period: u8, me: u8) -> bool
    ensures { IsTrue result → (me ≤ 3) × (1 ≤ period) × (period ≤ 16) }
{
    me <= 3 && period >= 1 && period <= 16
}

/// The replica of this number below 4, before its first event, with a checkpoint at each multiple of the period and
/// with the keys that the seed gives it. Where there is none it is as one that stopped.
pub fn replica_of_seed(
    alloc: Global,
    seed: &[u8; 32],
    period: u8,
    me: u8,
) -> Result<Box<Replica>, Stop> {
    if is_there(period, me) {
        boxed_in(alloc, seed, period, ReplicaId(me))
    } else {
        Err(Stop::Stopped)
    }
}

/// The same with the keys by which frames are sealed.
pub fn replica_of_period(alloc: Global, period: u8, me: u8) -> Result<Box<Replica>, Stop> {
    replica_of_seed(alloc, &FRAME_SEED, period, me)
}

/// The parts of a replica, in boxes.
pub type Parts = (Box<Orderer>, Box<Desk>);

// Both are boxed before either is asked for, so that neither is dropped outside of its box.
fn both_parts(
    orderer: Result<Box<Orderer>, Stop>,
    desk: Result<Box<Desk>, Stop>,
) -> Result<Parts, Stop> {
    let orderer = orderer?;
    Ok((orderer, desk?))
}

fn split(alloc: Global, replica: Replica) -> Result<Parts, Stop> {
    let (orderer, desk) = replica.split();
    both_parts(boxed(alloc, orderer), boxed(alloc, desk))
}

fn split_in(alloc: Global, period: u8, me: ReplicaId) -> Result<Parts, Stop>
    requires known { me.0 ≤ 3 }
    requires some { 1 ≤ period }
    requires short { period ≤ 16 }
{
    match new_replica(alloc, &FRAME_SEED, period, me) {
        Ok(replica) => split(alloc, replica),
        Err(NoMemory) => Err(Stop::NoMemory),
    }
}

/// The parts of that replica.
pub fn parts_of_period(alloc: Global, period: u8, me: u8) -> Result<Parts, Stop> {
    if is_there(period, me) {
        split_in(alloc, period, ReplicaId(me))
    } else {
        Err(Stop::Stopped)
    }
}

fn are_receivers(parties: &[Party], numbers: &[u16]) -> bool {
    parties.len() == numbers.len()
        && parties
            .iter()
            .zip(numbers)
            .all(|(party, number)| party.number() == *number)
}

fn is_given(alloc: Global, output: &Output, given: Given) -> Verdict {
    match (output, given) {
        (Output::Send(parties, frame), Given::Sends(sent)) => both(
            Ok(are_receivers(parties, receivers_of(sent))),
            frame_of(alloc, sent).is(frame.as_slice()),
        ),
        (Output::Executed(at, text), Given::Executes(number)) => both(
            Ok(at.0 == u64::from(number)),
            batch(alloc, number).is(text.as_slice()),
        ),
        (Output::Installed(at, root), Given::Installs(number, state)) => both(
            Ok(at.0 == u64::from(number)),
            root_of(alloc, state).is(root),
        ),
        _ => Ok(false),
    }
}

/// Whether the outputs are these.
pub fn are_given(alloc: Global, outputs: &Outputs, all: &[Given]) -> Verdict {
    for (output, given) in outputs.as_slice().iter().zip(all) {
        match is_given(alloc, output, *given) {
            Ok(true) => {}
            other => return other,
        }
    }
    Ok(outputs.len() == all.len())
}

/// Whether the step gave these.
pub fn are_given_by(alloc: Global, stepped: Result<Outputs, Stop>, all: &[Given]) -> Verdict {
    match stepped {
        Ok(outputs) => {
            let verdict = are_given(alloc, &outputs, all);
            drop(outputs);
            verdict
        }
        Err(stop) => of_stop(stop),
    }
}

// Whether the replica gives this for an event, and goes on.
fn gives_at(replica: &mut Replica, alloc: Global, event: Event<'_>, all: &[Given]) -> Verdict {
    let verdict = are_given_by(alloc, replica.step(alloc, event), all);
    both(verdict, Ok(!replica.is_stopped()))
}

/// Whether the replica gives this for bytes that come, and goes on.
pub fn gives(replica: &mut Replica, alloc: Global, bytes: &[u8], all: &[Given]) -> Verdict {
    gives_at(replica, alloc, Event::Got(bytes), all)
}

fn gives_for_frame(replica: &mut Replica, alloc: Global, sent: Sent, all: &[Given]) -> Verdict {
    let frame = frame_of(alloc, sent);
    let verdict = gives(replica, alloc, frame.bytes(), all);
    frame.end(verdict)
}

/// Whether the replica gives this for a frame of the run, or when time goes by.
pub fn gives_for(replica: &mut Replica, alloc: Global, sent: Sent, all: &[Given]) -> Verdict {
    match sent {
        Sent::Nothing => gives_at(replica, alloc, Event::Timeout, all),
        _ => gives_for_frame(replica, alloc, sent, all),
    }
}

/// Whether the replica gives the expected outputs for each frame, one after another.
pub fn gives_all(replica: &mut Replica, alloc: Global, rows: &[Row<'_>]) -> Verdict {
    for (sent, all) in rows {
        match gives_for(replica, alloc, *sent, all) {
            Ok(true) => {}
            other => return other,
        }
    }
    Ok(true)
}

fn gives_tables(replica: &mut Replica, alloc: Global, tables: &[&[Row<'_>]]) -> Verdict {
    for rows in tables {
        match gives_all(replica, alloc, rows) {
            Ok(true) => {}
            other => return other,
        }
    }
    Ok(true)
}

/// Whether the replica of this number, with a checkpoint at each multiple of this period, gives the expected outputs
/// for each frame of each table.
pub fn runs(alloc: Global, me: u8, period: u8, tables: &[&[Row<'_>]]) -> Verdict {
    match replica_of_period(alloc, period, me) {
        Ok(mut replica) => {
            let verdict = gives_tables(&mut *replica, alloc, tables);
            drop(replica);
            verdict
        }
        Err(stop) => of_stop(stop),
    }
}
