//! From bytes to operations and answers.

ghost use Rattle.std.specs.Prelude.{◌≡◌, ◌≢◌, ◌+◌, ◌<◌, ◌≤◌, length, IfErr, IfOk, OnOk};
ghost use Rattle.tuple_codec.specs.Operations.{out, rdp, inp, rd_all, in_all};
ghost use Rattle.tuple_codec.specs.OperationView.{operation_of, outcome_of};
ghost use Rattle.tuple_codec.specs.Results.{DecodingReturns, DecodesSpelled, DecodesEach};
ghost use Rattle.tuple_codec.specs.Spelling.{SpellsOperation, SpellsOutcome, SpellsSomeOperation, FrontSpellsOperation};
ghost use Rattle.tuple_codec.specs.Spelling.{FrontSpellsOutcome};
ghost use Rattle.tuple_tree.specs.Reading.{read_as, tuple_at, template_at};
ghost use Rattle.tuple_codec.specs.Reading.{cas_at, counted_template_at, operation_behind, operation_at, tuples_at};
ghost use Rattle.tuple_codec.specs.Reading.{found_at, swapped_at, all_at, outcome_behind, outcome_at, with_last_tuple};

use crate::bad::Bad;
use crate::check::{skip_answer, skip_op};
use crate::decode::{next_byte, read_template, read_tuple};
use crate::operations::{Answer, MAX_ANSWERS, Max, Op, Tuples};
use std::alloc::Allocator;
use terms::NoMemory;
use tuple_tree::{Template, Tuple, read_flag};

/// The operation at the front, and how many bytes spell it.
///
/// # Errors
///
/// Malformed if no front of the bytes spells an operation within the limits. Otherwise NoMemory if memory runs out.
pub fn decode_op<A: Allocator + Clone>(alloc: A, bytes: &[u8]) -> Result<(Op<A>, usize), Bad>
    // The bytes spell the given operation.
    ensures found { DecodesSpelled operation_of SpellsOperation bytes.now result }

    // If the bytes spell an operation, it is given, unless memory runs out.
    ensures only { DecodesEach operation_of SpellsOperation bytes.now result }

    // Memory runs out only if some front of the bytes spells an operation.
    ensures memory { IfErr result (λ bad. bad ≡ Bad.NoMemory → FrontSpellsOperation bytes.now) }
{
    let Some(_) = skip_op(bytes) else {
        return Err(Bad::Malformed);
    };
    match read_op(&alloc, bytes) {
        Ok((op, rest)) => Ok((op, bytes.len() - rest.len())),
        Err(bad) => Err(bad),
    }
}

/// The answer at the front, and how many bytes spell it.
///
/// # Errors
///
/// Malformed if no front of the bytes spells an answer within the limits. Otherwise NoMemory if memory runs out.
pub fn decode_result<A: Allocator + Clone>(
    alloc: A,
    bytes: &[u8],
) -> Result<(Answer<A>, usize), Bad>
    // The bytes spell the given answer.
    ensures found { DecodesSpelled outcome_of SpellsOutcome bytes.now result }

    // If the bytes spell an answer, it is given, unless memory runs out.
    ensures only { DecodesEach outcome_of SpellsOutcome bytes.now result }

    // Memory runs out only if some front of the bytes spells an answer.
    ensures memory { IfErr result (λ bad. bad ≡ Bad.NoMemory → FrontSpellsOutcome bytes.now) }
{
    let Some(_) = skip_answer(bytes) else {
        return Err(Bad::Malformed);
    };
    match read_answer(&alloc, bytes) {
        Ok((answer, rest)) => Ok((answer, bytes.len() - rest.len())),
        Err(bad) => Err(bad),
    }
}

/// The operation that the bytes, whole, spell; the caller judged them before. NoMemory if memory runs out.
pub fn decode_judged_op<A: Allocator + Clone>(alloc: A, bytes: &[u8]) -> Result<Op<A>, NoMemory>
    requires { SpellsSomeOperation bytes.now }
    ensures { IfOk result (λ op. SpellsOperation bytes.now (operation_of op)) }
{
    match read_op(&alloc, bytes) {
        Ok((op, _rest)) => Ok(op),
        Err(Bad::NoMemory) => Err(NoMemory),
        Err(Bad::Malformed) => unreachable!(),
    }
}

/// The operation at the front, and the rest. It reads the bytes once, so those that spell none may take memory before
/// they are refused.
#[tactic(auto, unfolding(crate::specs::Reading::operation_at))]
pub fn read_op<'b, A: Allocator + Clone>(
    alloc: &A,
    bytes: &'b [u8],
) -> Result<(Op<A>, &'b [u8]), Bad>
    ensures { DecodingReturns (λ x. (operation_of x.0, x.1.now)) result (operation_at bytes.now) }
{
    let (tag, rest) = next_byte(bytes)?;
    read_op_behind(alloc, tag, rest)
}

#[tactic(auto, unfolding(crate::specs::Reading::operation_behind))]
fn read_op_behind<'b, A: Allocator + Clone>(
    alloc: &A,
    tag: u8,
    bytes: &'b [u8],
) -> Result<(Op<A>, &'b [u8]), Bad>
    ensures { DecodingReturns (λ x. (operation_of x.0, x.1.now)) result (operation_behind tag bytes.now) }
{
    match tag {
        0x21 => read_out(alloc, bytes),
        0x22 => read_rdp(alloc, bytes),
        0x23 => read_inp(alloc, bytes),
        0x24 => read_cas(alloc, bytes),
        0x25 => read_rd_all(alloc, bytes),
        0x26 => read_in_all(alloc, bytes),
        0x27 => Ok((Op::Upgrade, bytes)),
        _ => Err(Bad::Malformed),
    }
}

fn read_out<'b, A: Allocator + Clone>(alloc: &A, bytes: &'b [u8]) -> Result<(Op<A>, &'b [u8]), Bad>
    ensures { DecodingReturns (λ x. (operation_of x.0, x.1.now)) result (read_as out tuple_at bytes.now) }
{
    match read_tuple(alloc, bytes) {
        Ok((tuple, rest)) => Ok((Op::Out(tuple), rest)),
        Err(bad) => Err(bad),
    }
}

fn read_rdp<'b, A: Allocator + Clone>(alloc: &A, bytes: &'b [u8]) -> Result<(Op<A>, &'b [u8]), Bad>
    ensures { DecodingReturns (λ x. (operation_of x.0, x.1.now)) result (read_as rdp template_at bytes.now) }
{
    match read_template(alloc, bytes) {
        Ok((template, rest)) => Ok((Op::Rdp(template), rest)),
        Err(bad) => Err(bad),
    }
}

fn read_inp<'b, A: Allocator + Clone>(alloc: &A, bytes: &'b [u8]) -> Result<(Op<A>, &'b [u8]), Bad>
    ensures { DecodingReturns (λ x. (operation_of x.0, x.1.now)) result (read_as inp template_at bytes.now) }
{
    match read_template(alloc, bytes) {
        Ok((template, rest)) => Ok((Op::Inp(template), rest)),
        Err(bad) => Err(bad),
    }
}

#[tactic(auto, unfolding(crate::specs::Reading::cas_at))]
fn read_cas<'b, A: Allocator + Clone>(alloc: &A, bytes: &'b [u8]) -> Result<(Op<A>, &'b [u8]), Bad>
    ensures { DecodingReturns (λ x. (operation_of x.0, x.1.now)) result (cas_at bytes.now) }
{
    let (template, after) = read_template(alloc, bytes)?;
    let (tuple, rest) = read_tuple(alloc, after)?;
    Ok((Op::Cas(template, tuple), rest))
}

fn read_rd_all<'b, A: Allocator + Clone>(
    alloc: &A,
    bytes: &'b [u8],
) -> Result<(Op<A>, &'b [u8]), Bad>
    ensures { DecodingReturns (λ x. (operation_of x.0, x.1.now)) result
        (read_as (λ x. rd_all x.0 x.1) counted_template_at bytes.now) }
{
    match read_counted(alloc, bytes) {
        Ok(((max, template), rest)) => Ok((Op::RdAll(max, template), rest)),
        Err(bad) => Err(bad),
    }
}

fn read_in_all<'b, A: Allocator + Clone>(
    alloc: &A,
    bytes: &'b [u8],
) -> Result<(Op<A>, &'b [u8]), Bad>
    ensures { DecodingReturns (λ x. (operation_of x.0, x.1.now)) result
        (read_as (λ x. in_all x.0 x.1) counted_template_at bytes.now) }
{
    match read_counted(alloc, bytes) {
        Ok(((max, template), rest)) => Ok((Op::InAll(max, template), rest)),
        Err(bad) => Err(bad),
    }
}

#[tactic(auto, unfolding(crate::specs::Reading::counted_template_at))]
fn read_counted<'b, A: Allocator + Clone>(
    alloc: &A,
    bytes: &'b [u8],
) -> Result<((Max, Template<A>), &'b [u8]), Bad>
    ensures { DecodingReturns (λ x. ((x.0.0.count, x.0.1), x.1.now)) result (counted_template_at bytes.now) }
{
    let (count, after) = next_byte(bytes)?;
    match Max::new(count) {
        Some(max) => {
            let (template, rest) = read_template(alloc, after)?;
            Ok(((max, template), rest))
        }
        None => Err(Bad::Malformed),
    }
}

/// The answer at the front, and the rest. It reads the bytes once, so those that spell none may take memory before they
/// are refused.
#[tactic(auto, unfolding(crate::specs::Reading::outcome_at))]
pub fn read_answer<'b, A: Allocator + Clone>(
    alloc: &A,
    bytes: &'b [u8],
) -> Result<(Answer<A>, &'b [u8]), Bad>
    ensures { DecodingReturns (λ x. (outcome_of x.0, x.1.now)) result (outcome_at bytes.now) }
{
    let (tag, rest) = next_byte(bytes)?;
    read_answer_behind(alloc, tag, rest)
}

#[tactic(auto, unfolding(crate::specs::Reading::outcome_behind))]
fn read_answer_behind<'b, A: Allocator + Clone>(
    alloc: &A,
    tag: u8,
    bytes: &'b [u8],
) -> Result<(Answer<A>, &'b [u8]), Bad>
    ensures { DecodingReturns (λ x. (outcome_of x.0, x.1.now)) result (outcome_behind tag bytes.now) }
{
    match tag {
        0x31 => Ok((Answer::Done, bytes)),
        0x32 => read_found(alloc, bytes),
        0x33 => Ok((Answer::Absent, bytes)),
        0x34 => read_swapped(bytes),
        0x35 => read_all(alloc, bytes),
        0x36 => Ok((Answer::Full, bytes)),
        0x37 => Ok((Answer::Refused, bytes)),
        _ => Err(Bad::Malformed),
    }
}

fn read_found<'b, A: Allocator + Clone>(
    alloc: &A,
    bytes: &'b [u8],
) -> Result<(Answer<A>, &'b [u8]), Bad>
    ensures { DecodingReturns (λ x. (outcome_of x.0, x.1.now)) result (found_at bytes.now) }
{
    match read_tuple(alloc, bytes) {
        Ok((tuple, rest)) => Ok((Answer::Found(tuple), rest)),
        Err(bad) => Err(bad),
    }
}

fn read_swapped<A: Allocator>(bytes: &[u8]) -> Result<(Answer<A>, &[u8]), Bad>
    ensures { DecodingReturns (λ x. (outcome_of x.0, x.1.now)) result (swapped_at bytes.now) }
{
    match read_flag(bytes) {
        Some((swapped, rest)) => Ok((Answer::Swapped(swapped), rest)),
        None => Err(Bad::Malformed),
    }
}

fn read_all<'b, A: Allocator + Clone>(
    alloc: &A,
    bytes: &'b [u8],
) -> Result<(Answer<A>, &'b [u8]), Bad>
    ensures { DecodingReturns (λ x. (outcome_of x.0, x.1.now)) result (all_at bytes.now) }
{
    match read_tuples(alloc, bytes) {
        Ok((tuples, rest)) => Ok((Answer::All(tuples), rest)),
        Err(bad) => Err(bad),
    }
}

#[tactic(auto, unfolding(crate::specs::Reading::tuples_at))]
fn read_tuples<'b, A: Allocator + Clone>(
    alloc: &A,
    bytes: &'b [u8],
) -> Result<(Tuples<A>, &'b [u8]), Bad>
    ensures { DecodingReturns (λ x. (x.0, x.1.now)) result (tuples_at bytes.now) }
{
    let (count, front) = next_byte(bytes)?;
    if count as usize > MAX_ANSWERS {
        return Err(Bad::Malformed);
    }
    let mut tuples = Tuples::new_in(alloc.clone()?);
    let mut rest = front;
    for _i in 0..count {
        let (tuple, after) = read_tuple(alloc, rest)?;
        push_tuple(&mut tuples, tuple)?;
        rest = after;
    }
    Ok((tuples, rest))
}

fn push_tuple<A: Allocator>(tuples: &mut Tuples<A>, tuple: Tuple<A>) -> Result<(), NoMemory>
    requires { length tuples.old < 64 }
    ensures { OnOk result (tuples.new ≡ with_last_tuple tuples.old tuple) }
{
    match tuples.push(tuple) {
        Ok(()) => Ok(()),
        Err(_) => Err(NoMemory),
    }
}
