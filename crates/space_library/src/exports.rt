//! What C calls.

ghost use Rattle.std.specs.Prelude.{◌≡◌, ◌≢◌, ◌≤◌, length, take, drop};
ghost use Rattle.space.specs.Applying.{nothing_in};
ghost use Rattle.space.specs.declared.version.Version.TheVariants as Version;
ghost use Rattle.space_library.specs.Running.{EndsTooLong, RunsAnew, SpellsNone};

use crate::running::{BAD_VERSION, run_all};
use space::{Space, Version};
use std::alloc::Global;

/// How far a run came.
#[repr(C)]
#[derive(Clone, Copy, Debug)]
pub struct Ran {
    /// How many bytes of the operations were read. All of them spell operations that were applied.
    pub read: usize,
    /// How many bytes of the results were written.
    pub written: usize,
}

/// Applies operations, one behind another, to a new space of version 1 or 2, as client 0's, and writes their answers
/// one behind another. The space is gone at the end.
///
/// It gives 0 at the end of the operations, or the number of a refusal:
///
/// - 4, memory ran out;
/// - 5, no front of the rest spells an operation;
/// - 7, the next answer doesn't fit the results;
/// - 21, no birth number is left, which takes 2 to the power of 53 operations;
/// - 25, there is no such version.
#[unsafe(no_mangle)]
pub extern "C" fn btspace_run(
    alloc: Global,
    version: u8,
    operations: &[u8],
    results: &mut [u8],
    ran: &mut Ran,
) -> u8
    // What was read and written is a run.
    ensures one { version ≡ 1 → RunsAnew Version.One
        (take ran.new.read operations.now) (take ran.new.written results.new) }
    ensures two { version ≡ 2 → RunsAnew Version.Two
        (take ran.new.read operations.now) (take ran.new.written results.new) }
    ensures other { version ≢ 1 → version ≢ 2 → (result ≡ 25) × (ran.new.read ≡ 0) × (ran.new.written ≡ 0) }

    // The rest of the results stays.
    ensures rest { drop ran.new.written results.new ≡ drop ran.new.written results.old }

    ensures read { ran.new.read ≤ length operations.now }
    ensures written { ran.new.written ≤ length results.old }

    // At 0 all was read, at 5 the rest begins with no operation, at 7 the answer to its first one doesn't fit.
    ensures whole { result ≡ 0 → ran.new.read ≡ length operations.now }
    ensures malformed { result ≡ 5 → SpellsNone (drop ran.new.read operations.now) }
    ensures too_large_one { version ≡ 1 → result ≡ 7 → EndsTooLong (nothing_in Version.One) (take ran.new.read operations.now)
        (take ran.new.written results.new) (drop ran.new.read operations.now) (length results.old) }
    ensures too_large_two { version ≡ 2 → result ≡ 7 → EndsTooLong (nothing_in Version.Two) (take ran.new.read operations.now)
        (take ran.new.written results.new) (drop ran.new.read operations.now) (length results.old) }
    ensures known { result ≡ 25 → (version ≢ 1) × (version ≢ 2) }
{
    let mut space = match version {
        1 => Space::new(alloc),
        2 => Space::new_v2(alloc),
        _ => {
            *ran = Ran {
                read: 0,
                written: 0,
            };
            return BAD_VERSION;
        }
    };
    let mut answers = Vec::new(alloc);
    let ended = run_all(alloc, &mut space, operations, results.len(), &mut answers);
    let written = answers.len();
    results[..written].copy_from_slice(answers.as_slice());
    *ran = Ran {
        read: ended.read,
        written,
    };
    ended.refusal
}
