//! A value of any of the four sorts that have bytes, so that a test asks each sort the same by one function. Each owner
//! drops its item by one call: the drop of an operation is long, and written out wherever it happens.

use std::alloc::Allocator;
use terms::NoMemory;
use tuple_codec::{
    Answer, Bad, Op, decode_op, decode_result, decode_template, decode_tuple, encode_op,
    encode_result, encode_template, encode_tuple,
};
use tuple_tree::{Template, Tuple};

#[derive(Clone, Copy)]
pub enum Sort {
    Tuple,
    Template,
    Op,
    Answer,
}

#[derive(Drop)]
pub enum Item<A: Allocator> {
    Tuple(Tuple<A>),
    Template(Template<A>),
    Op(Op<A>),
    Answer(Answer<A>),
}

// The item that these bytes begin with, and how many of them spell it.
pub fn read<A: Allocator + Clone>(
    alloc: A,
    sort: Sort,
    bytes: &[u8],
) -> Result<(Item<A>, usize), Bad> {
    match sort {
        Sort::Tuple => {
            let (tuple, len) = decode_tuple(alloc, bytes)?;
            Ok((Item::Tuple(tuple), len))
        }
        Sort::Template => {
            let (template, len) = decode_template(alloc, bytes)?;
            Ok((Item::Template(template), len))
        }
        Sort::Op => {
            let (op, len) = decode_op(alloc, bytes)?;
            Ok((Item::Op(op), len))
        }
        Sort::Answer => {
            let (answer, len) = decode_result(alloc, bytes)?;
            Ok((Item::Answer(answer), len))
        }
    }
}

pub fn copied<A: Allocator, B: Allocator + Clone>(
    item: &Item<A>,
    alloc: B,
) -> Result<Item<B>, NoMemory> {
    match item {
        Item::Tuple(tuple) => Ok(Item::Tuple(tuple.copy_in(alloc)?)),
        Item::Template(template) => Ok(Item::Template(template.copy_in(alloc)?)),
        Item::Op(op) => Ok(Item::Op(op.copy_in(alloc)?)),
        Item::Answer(answer) => Ok(Item::Answer(answer.copy_in(alloc)?)),
    }
}

pub fn write<A: Allocator, B: Allocator>(
    item: &Item<A>,
    out: &mut Vec<u8, B>,
) -> Result<(), NoMemory> {
    match item {
        Item::Tuple(tuple) => encode_tuple(tuple, out),
        Item::Template(template) => encode_template(template, out),
        Item::Op(op) => encode_op(op, out),
        Item::Answer(answer) => encode_result(answer, out),
    }
}

pub fn are_same<A: Allocator, B: Allocator>(one: &Item<A>, other: &Item<B>) -> bool {
    match (one, other) {
        (Item::Tuple(a), Item::Tuple(b)) => a.same(b),
        (Item::Template(a), Item::Template(b)) => a.same(b),
        (Item::Op(a), Item::Op(b)) => a.same(b),
        (Item::Answer(a), Item::Answer(b)) => a.same(b),
        _ => false,
    }
}
