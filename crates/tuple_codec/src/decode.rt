//! From bytes to tuples and templates.

ghost use Rattle.std.specs.Prelude.{◌≡◌, IfErr};
ghost use Rattle.tuple_codec.specs.Results.{DecodingReturns, DecodesSpelled, DecodesEach};
ghost use Rattle.tuple_codec.specs.Spelling.{SpellsTuple, SpellsTemplate, FrontSpellsTuple, FrontSpellsTemplate};
ghost use Rattle.tuple_tree.specs.Reading.{byte_at, tuple_at, template_at};

use crate::bad::Bad;
use crate::check::{skip_template, skip_tuple};
use crate::reading::frame;
use std::alloc::Allocator;
use tuple_tree::{Template, Tuple, read_byte};

/// The tuple at the front, and how many bytes spell it.
///
/// # Errors
///
/// Malformed if no front of the bytes spells a tuple within the limits. Otherwise NoMemory if memory runs out.
pub fn decode_tuple<A: Allocator + Clone>(alloc: A, bytes: &[u8]) -> Result<(Tuple<A>, usize), Bad>
    // The bytes spell the given tuple.
    ensures found { DecodesSpelled (λ t. t) SpellsTuple bytes.now result }

    // If the bytes spell a tuple, it is given, unless memory runs out.
    ensures only { DecodesEach (λ t. t) SpellsTuple bytes.now result }

    // Memory runs out only if some front of the bytes spells a tuple.
    ensures memory { IfErr result (λ bad. bad ≡ Bad.NoMemory → FrontSpellsTuple bytes.now) }
{
    let Some(_) = skip_tuple(bytes) else {
        return Err(Bad::Malformed);
    };
    match read_tuple(&alloc, bytes) {
        Ok((tuple, rest)) => Ok((tuple, bytes.len() - rest.len())),
        Err(bad) => Err(bad),
    }
}

/// The template at the front, and how many bytes spell it.
///
/// # Errors
///
/// Malformed if no front of the bytes spells a template within the limits. Otherwise NoMemory if memory runs out.
pub fn decode_template<A: Allocator + Clone>(
    alloc: A,
    bytes: &[u8],
) -> Result<(Template<A>, usize), Bad>
    // The bytes spell the given template.
    ensures found { DecodesSpelled (λ p. p) SpellsTemplate bytes.now result }

    // If the bytes spell a template, it is given, unless memory runs out.
    ensures only { DecodesEach (λ p. p) SpellsTemplate bytes.now result }

    // Memory runs out only if some front of the bytes spells a template.
    ensures memory { IfErr result (λ bad. bad ≡ Bad.NoMemory → FrontSpellsTemplate bytes.now) }
{
    let Some(_) = skip_template(bytes) else {
        return Err(Bad::Malformed);
    };
    match read_template(&alloc, bytes) {
        Ok((template, rest)) => Ok((template, bytes.len() - rest.len())),
        Err(bad) => Err(bad),
    }
}

pub fn read_tuple<'b, A: Allocator + Clone>(
    alloc: &A,
    bytes: &'b [u8],
) -> Result<(Tuple<A>, &'b [u8]), Bad>
    ensures { DecodingReturns (λ x. (x.0, x.1.now)) result (tuple_at bytes.now) }
{
    let front = frame(bytes);
    let read = Tuple::read_in(alloc.clone()?, front)?;
    match read {
        Some((tuple, rest)) => Ok((tuple, bytes.split_at(front.len() - rest.len()).1)),
        None => Err(Bad::Malformed),
    }
}

pub fn read_template<'b, A: Allocator + Clone>(
    alloc: &A,
    bytes: &'b [u8],
) -> Result<(Template<A>, &'b [u8]), Bad>
    ensures { DecodingReturns (λ x. (x.0, x.1.now)) result (template_at bytes.now) }
{
    let front = frame(bytes);
    let read = Template::read_in(alloc.clone()?, front)?;
    match read {
        Some((template, rest)) => Ok((template, bytes.split_at(front.len() - rest.len()).1)),
        None => Err(Bad::Malformed),
    }
}

pub fn next_byte(bytes: &[u8]) -> Result<(u8, &[u8]), Bad>
    ensures { DecodingReturns (λ x. (x.0, x.1.now)) result (byte_at bytes.now) }
{
    match read_byte(bytes) {
        Some(read) => Ok(read),
        None => Err(Bad::Malformed),
    }
}
