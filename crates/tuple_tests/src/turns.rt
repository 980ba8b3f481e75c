//! Calls of the trees and of the codec, which answer whether all was right, or that memory ran out.

use crate::items::{Item, Sort, are_same, copied, read, write};
use std::alloc::Allocator;
use terms::NoMemory;
use tuple_codec::Bad;
use tuple_tree::{Atom, Field, Refusal, Template, Tuple, Value};

// `(1 ("a" x09))`.
static TUPLE: [u8; 20] = [2, 1, 0, 0, 0, 0, 0, 0, 0, 1, 5, 2, 2, 0, 1, 97, 3, 0, 1, 9];

// `((* "a") ?int)`.
static TEMPLATE: [u8; 9] = [2, 5, 2, 0x10, 2, 0, 1, 97, 0x11];

// `cas ("k" *) ("k" 1)`.
static CAS: [u8; 21] = [
    0x24, 2, 2, 0, 1, 0x6b, 0x10, 2, 2, 0, 1, 0x6b, 1, 0, 0, 0, 0, 0, 0, 0, 1,
];

// `all 2 ("k") (true)`.
static ALL: [u8; 10] = [0x35, 2, 1, 2, 0, 1, 0x6b, 1, 4, 1];

// How many values or fields a list gets, so that its memory grows more than once.
const PUSHES: u8 = 9;

#[derive(Clone, Copy)]
pub enum Turn {
    Values,
    Fields,
    Tuple,
    Template,
    Op,
    Answer,
}

pub static TURNS: [Turn; 6] = [
    Turn::Values,
    Turn::Fields,
    Turn::Tuple,
    Turn::Template,
    Turn::Op,
    Turn::Answer,
];

// Runs the calls of a turn in this memory.
pub fn run<A: Allocator + Clone>(turn: Turn, alloc: A) -> Result<bool, Bad> {
    match turn {
        Turn::Values => values(alloc),
        Turn::Fields => fields(alloc),
        Turn::Tuple => coded(&alloc, Sort::Tuple, TUPLE.as_slice()),
        Turn::Template => coded(&alloc, Sort::Template, TEMPLATE.as_slice()),
        Turn::Op => coded(&alloc, Sort::Op, CAS.as_slice()),
        Turn::Answer => coded(&alloc, Sort::Answer, ALL.as_slice()),
    }
}

fn values<A: Allocator + Clone>(alloc: A) -> Result<bool, Bad> {
    let mut tuple = Tuple::new_in(alloc);
    for number in 0..PUSHES {
        if let Err(pushed) = tuple.push(Value::Atom(Atom::Number(i64::from(number)))) {
            let is_back =
                matches!(&pushed.value, Value::Atom(Atom::Number(n)) if *n == i64::from(number));
            return refused(
                pushed.refusal,
                is_back && tuple.len() == usize::from(number),
            );
        }
    }
    Ok(tuple.len() == usize::from(PUSHES))
}

fn fields<A: Allocator + Clone>(alloc: A) -> Result<bool, Bad> {
    let mut template: Template<A> = Template::new_in(alloc);
    for number in 0..PUSHES {
        if let Err(pushed) = template.push(Field::Actual(Atom::Number(i64::from(number)))) {
            let is_back =
                matches!(&pushed.value, Field::Actual(Atom::Number(n)) if *n == i64::from(number));
            return refused(
                pushed.refusal,
                is_back && template.len() == usize::from(number),
            );
        }
    }
    Ok(template.len() == usize::from(PUSHES))
}

fn refused(refusal: Refusal, is_as_before: bool) -> Result<bool, Bad> {
    if is_as_before && refusal == Refusal::NoMemory {
        Err(Bad::NoMemory)
    } else {
        Ok(false)
    }
}

// The bytes that an encoder appended to a first byte: these, or none after a refusal.
fn spelled<A: Allocator>(
    encoded: Result<(), NoMemory>,
    out: &Vec<u8, A>,
    bytes: &[u8],
) -> Result<bool, Bad> {
    match (encoded, out.as_slice()) {
        (Ok(()), [9, rest @ ..]) => Ok(rest == bytes),
        (Err(_), [9]) => Err(Bad::NoMemory),
        _ => Ok(false),
    }
}

// The item that these bytes spell, and its copy, which is written as they are.
fn coded<A: Allocator>(alloc: &A, sort: Sort, bytes: &[u8]) -> Result<bool, Bad> {
    let (item, len) = read(alloc, sort, bytes)?;
    let is_right = is_copied(alloc, &item, bytes);
    drop(item);
    Ok(is_right? && len == bytes.len())
}

fn is_copied<'a, A: Allocator>(
    alloc: &'a A,
    item: &Item<&'a A>,
    bytes: &[u8],
) -> Result<bool, Bad> {
    let copy = copied(item, alloc)?;
    let is_right = is_written(alloc, &copy, bytes);
    let is_same = are_same(&copy, item);
    drop(copy);
    Ok(is_right? && is_same)
}

fn is_written<A: Allocator>(alloc: A, item: &Item<A>, bytes: &[u8]) -> Result<bool, Bad> {
    let mut out = Vec::from_elem(alloc, 9u8, 1)?;
    let encoded = write(item, &mut out);
    let is_right = spelled(encoded, &out, bytes);
    drop(out);
    is_right
}
