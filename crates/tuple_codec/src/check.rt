//! Whether bytes spell a tuple, a template, an operation or an answer. Nothing here takes memory.

ghost use Rattle.std.specs.Prelude.{IsTrue, ◌↔◌};
ghost use Rattle.tuple_codec.specs.Operations.{Operation, Outcome};
ghost use Rattle.tuple_tree.specs.Results.{Yields};
ghost use Rattle.tuple_codec.specs.Spelling.{SpellsOperation, SpellsOutcome};
ghost use Rattle.tuple_tree.specs.Reading.{rest_of, tuple_at, template_at};
ghost use Rattle.tuple_codec.specs.Reading.{cas_at, counted_template_at, operation_behind, operation_at, tuples_at};
ghost use Rattle.tuple_codec.specs.Reading.{outcome_behind, outcome_at};

use crate::operations::{MAX_ANSWERS, Max};
use crate::reading::frame;
use tuple_tree::{behind_template, behind_tuple, read_byte, read_flag};

/// Whether the bytes, whole, spell an operation within the limits. Takes no memory.
pub fn is_op(bytes: &[u8]) -> bool
    ensures { IsTrue result ↔ ((o : Operation) × SpellsOperation bytes.now o) }
{
    match skip_op(bytes) {
        Some(rest) => rest.is_empty(),
        None => false,
    }
}

/// Whether the bytes, whole, spell an answer within the limits. Takes no memory.
pub fn is_result(bytes: &[u8]) -> bool
    ensures { IsTrue result ↔ ((r : Outcome) × SpellsOutcome bytes.now r) }
{
    match skip_answer(bytes) {
        Some(rest) => rest.is_empty(),
        None => false,
    }
}

// Each of these gives the bytes after the spelling at the front.
#[tactic(auto, unfolding(crate::specs::Reading::operation_at))]
pub fn skip_op(bytes: &[u8]) -> Option<&[u8]>
    ensures { Yields (λ rest. rest.now) result (rest_of (operation_at bytes.now)) }
{
    let (tag, rest) = read_byte(bytes)?;
    skip_op_behind(tag, rest)
}

#[tactic(auto, unfolding(crate::specs::Reading::operation_behind))]
fn skip_op_behind(tag: u8, bytes: &[u8]) -> Option<&[u8]>
    ensures { Yields (λ rest. rest.now) result (rest_of (operation_behind tag bytes.now)) }
{
    match tag {
        0x21 => skip_tuple(bytes),
        0x22 => skip_template(bytes),
        0x23 => skip_template(bytes),
        0x24 => skip_cas(bytes),
        0x25 => skip_counted(bytes),
        0x26 => skip_counted(bytes),
        0x27 => Some(bytes),
        _ => None,
    }
}

fn skip_cas(bytes: &[u8]) -> Option<&[u8]>
    ensures { Yields (λ rest. rest.now) result (rest_of (cas_at bytes.now)) }
{
    match skip_template(bytes) {
        Some(after) => skip_tuple(after),
        None => None,
    }
}

#[tactic(auto, unfolding(crate::specs::Reading::counted_template_at))]
fn skip_counted(bytes: &[u8]) -> Option<&[u8]>
    ensures { Yields (λ rest. rest.now) result (rest_of (counted_template_at bytes.now)) }
{
    let (count, after) = read_byte(bytes)?;
    match Max::new(count) {
        Some(_) => skip_template(after),
        None => None,
    }
}

#[tactic(auto, unfolding(crate::specs::Reading::outcome_at))]
pub fn skip_answer(bytes: &[u8]) -> Option<&[u8]>
    ensures { Yields (λ rest. rest.now) result (rest_of (outcome_at bytes.now)) }
{
    let (tag, rest) = read_byte(bytes)?;
    skip_answer_behind(tag, rest)
}

#[tactic(auto, unfolding(crate::specs::Reading::outcome_behind))]
fn skip_answer_behind(tag: u8, bytes: &[u8]) -> Option<&[u8]>
    ensures { Yields (λ rest. rest.now) result (rest_of (outcome_behind tag bytes.now)) }
{
    match tag {
        0x31 => Some(bytes),
        0x32 => skip_tuple(bytes),
        0x33 => Some(bytes),
        0x34 => match read_flag(bytes) {
            Some((_, rest)) => Some(rest),
            None => None,
        },
        0x35 => skip_tuples(bytes),
        0x36 => Some(bytes),
        0x37 => Some(bytes),
        _ => None,
    }
}

#[tactic(auto, unfolding(crate::specs::Reading::tuples_at))]
fn skip_tuples(bytes: &[u8]) -> Option<&[u8]>
    ensures { Yields (λ rest. rest.now) result (rest_of (tuples_at bytes.now)) }
{
    let (count, front) = read_byte(bytes)?;
    if count as usize > MAX_ANSWERS {
        return None;
    }
    let mut rest = front;
    for _i in 0..count {
        rest = skip_tuple(rest)?;
    }
    Some(rest)
}

pub fn skip_tuple(bytes: &[u8]) -> Option<&[u8]>
    ensures { Yields (λ rest. rest.now) result (rest_of (tuple_at bytes.now)) }
{
    let front = frame(bytes);
    match behind_tuple(front) {
        Some(rest) => Some(bytes.split_at(front.len() - rest.len()).1),
        None => None,
    }
}

pub fn skip_template(bytes: &[u8]) -> Option<&[u8]>
    ensures { Yields (λ rest. rest.now) result (rest_of (template_at bytes.now)) }
{
    let front = frame(bytes);
    match behind_template(front) {
        Some(rest) => Some(bytes.split_at(front.len() - rest.len()).1),
        None => None,
    }
}
