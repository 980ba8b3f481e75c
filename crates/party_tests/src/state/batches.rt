//! A batch of two requests, which comes twice.

ghost use Rattle.std.specs.Prelude.{◌≤◌};

use crate::answers::{all_hold, holds};
use crate::state::frames::BATCH_OF_TWO;
use execution::Executed;
use std::alloc::Global;
use terms::{ClientId, Digest, NoMemory};

// The roots were computed by Python's hashlib, over the pages as docs/formats.md has them: the tuples (1) and (2) with
// the births 0 and 1, the replies to both clients, and the header.
pub static ROOT_AFTER_ONE: Digest = [
    0x0d, 0x27, 0x26, 0x53, 0xdd, 0x8b, 0xdd, 0x80, 0x1f, 0xbc, 0xf8, 0xb8, 0xc7, 0x92, 0xa8, 0x90,
    0x60, 0x05, 0x53, 0x32, 0xa3, 0x3f, 0xe9, 0x27, 0xb4, 0x8b, 0xff, 0x58, 0x13, 0xcb, 0x43, 0x3c,
];

// The second batch changes the header alone.
pub static ROOT_AFTER_TWO: Digest = [
    0x7c, 0x93, 0xf5, 0x5a, 0x03, 0xfd, 0x75, 0x80, 0x3b, 0xfd, 0xdc, 0x2e, 0xe2, 0xc8, 0x06, 0xd6,
    0x61, 0xb2, 0x81, 0x74, 0x1f, 0xeb, 0xb4, 0x1e, 0x12, 0x5b, 0x21, 0x22, 0xb5, 0xce, 0x00, 0x54,
];

// How many requests of the batch run, or none at the last number.
fn count_of_ran(executed: &mut Executed) -> Result<usize, NoMemory> {
    if executed.number().0 + 1 >= 1 << 48 {
        return Ok(0);
    }
    let ran = executed.execute(&BATCH_OF_TWO)?;
    let count = ran.len();
    drop(ran);
    Ok(count)
}

// Whether the next batch runs so many requests.
fn runs(executed: &mut Executed, count: usize) -> Result<bool, NoMemory> {
    Ok(count_of_ran(executed)? == count)
}

pub fn has_root(executed: &mut Executed, root: &Digest) -> Result<bool, NoMemory> {
    Ok(executed.root()? == *root)
}

// Whether the next batch runs so many requests, and leaves this root.
pub fn leaves(executed: &mut Executed, count: usize, root: &Digest) -> Result<bool, NoMemory> {
    all_hold(&[runs(executed, count), has_root(executed, root)])
}

/// The state before the first batch, for so many clients. It lies in a box: a function that owns all of it takes long
/// to prove.
pub fn beginning(alloc: Global, clients: u16) -> Result<Box<Executed>, NoMemory>
    requires { clients ≤ 256 }
{
    Ok(Box::new(alloc, Executed::new(alloc, clients)?)?)
}

// Whether the batch runs both requests at first and none again.
fn runs_once(executed: &mut Executed) -> Result<bool, NoMemory> {
    all_hold(&[
        leaves(executed, 2, &ROOT_AFTER_ONE),
        leaves(executed, 0, &ROOT_AFTER_TWO),
        Ok(executed.seen(ClientId { number: 1 }).0 == 2),
    ])
}

fn runs_once_from_beginning(alloc: Global) -> Result<bool, NoMemory> {
    let mut executed = beginning(alloc, 2)?;
    let answer = runs_once(&mut *executed);
    drop(executed);
    answer
}

#[test]
fn a_batch_runs_once(rt: HostRuntime) {
    holds(&rt, runs_once_from_beginning(rt.alloc()));
}

fn runs_one_of_two(alloc: Global) -> Result<bool, NoMemory> {
    let mut executed = beginning(alloc, 1)?;
    let answer = runs(&mut *executed, 1);
    drop(executed);
    answer
}

#[test]
fn requests_of_no_client_do_not_run(rt: HostRuntime) {
    holds(&rt, runs_one_of_two(rt.alloc()));
}
