//! The answers of tests. A helper that answers in place of ending by `?` has one way out, and so has what asks several.

use terms::NoMemory;

/// Whether something holds, or that memory ran out before that was known.
pub type Verdict = Result<bool, NoMemory>;

/// Whether both hold: the first that doesn't decides.
pub fn both(one: Verdict, other: Verdict) -> Verdict {
    match one {
        Ok(true) => other,
        _ => one,
    }
}

/// Whether all of these hold: the first that doesn't decides.
pub fn all_hold(verdicts: &[Verdict]) -> Verdict {
    for verdict in verdicts {
        match verdict {
            Ok(true) => {}
            first => return *first,
        }
    }
    Ok(true)
}
