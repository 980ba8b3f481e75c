//! The ends of tests.

use std::process::Abort;
use terms::NoMemory;
use test_bytes::Verdict;

/// Ends a test in which something doesn't hold. A test that asks so by a call is short to prove.
pub fn holds(rt: &impl Abort, verdict: Verdict) {
    match verdict {
        Ok(true) => {}
        Ok(false) => rt.panic("it does not hold"),
        Err(NoMemory) => rt.panic("error: out of memory"),
    }
}
