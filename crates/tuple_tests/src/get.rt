//! The item at a place of a tuple and of a template, where it lies.

use std::alloc::Global;
use std::test::Fail;
use tuple_codec::{Bad, decode_template, decode_tuple};
use tuple_tree::{AtomRef, FieldRef, Kind, ValueRef};

// What stands at a place.
#[derive(Clone, Copy, PartialEq, Eq)]
enum Seen {
    Nothing,
    Number(i64),
    // How many bytes a text has.
    Text(usize),
    Truth(bool),
    Any,
    Texts,
    // Whether the first item in a list is this number.
    List(i64),
    Other,
}

// (1 "ab" (7) true)
const TUPLE: &[u8] =
    b"\x04\x01\0\0\0\0\0\0\0\x01\x02\x00\x02ab\x05\x01\x01\0\0\0\0\0\0\0\x07\x04\x01";

// (2 * (8) ?text)
const TEMPLATE: &[u8] = b"\x04\x01\0\0\0\0\0\0\0\x02\x10\x05\x01\x01\0\0\0\0\0\0\0\x08\x12";

// Each place of both, and the first two places behind the last.
static ROWS: [(usize, Seen, Seen); 6] = [
    (0, Seen::Number(1), Seen::Number(2)),
    (1, Seen::Text(2), Seen::Any),
    (2, Seen::List(7), Seen::List(8)),
    (3, Seen::Truth(true), Seen::Texts),
    (4, Seen::Nothing, Seen::Nothing),
    (usize::MAX, Seen::Nothing, Seen::Nothing),
];

fn atom(atom: AtomRef<'_>) -> Seen {
    match atom {
        AtomRef::Number(number) => Seen::Number(number),
        AtomRef::Text(text) => Seen::Text(text.len()),
        AtomRef::Truth(truth) => Seen::Truth(truth),
        _ => Seen::Other,
    }
}

fn value(value: Option<ValueRef<'_>>) -> Seen {
    match value {
        None => Seen::Nothing,
        Some(ValueRef::Atom(inner)) => atom(inner),
        Some(ValueRef::Nested(mut values)) => match values.next() {
            Some(ValueRef::Atom(AtomRef::Number(number))) => Seen::List(number),
            _ => Seen::Other,
        },
    }
}

fn field(field: Option<FieldRef<'_>>) -> Seen {
    match field {
        None => Seen::Nothing,
        Some(FieldRef::Actual(inner)) => atom(inner),
        Some(FieldRef::Any) => Seen::Any,
        Some(FieldRef::Formal(Kind::Text)) => Seen::Texts,
        Some(FieldRef::Formal(_)) => Seen::Other,
        Some(FieldRef::Nested(mut fields)) => match fields.next() {
            Some(FieldRef::Actual(AtomRef::Number(number))) => Seen::List(number),
            _ => Seen::Other,
        },
    }
}

fn stands_at(alloc: Global, row: (usize, Seen, Seen)) -> Result<bool, Bad> {
    let (tuple, _) = decode_tuple(alloc, TUPLE)?;
    let (template, _) = decode_template(alloc, TEMPLATE)?;
    let (place, in_tuple, in_template) = row;
    let is_right = value(tuple.get(place)) == in_tuple && field(template.get(place)) == in_template;
    drop(tuple);
    drop(template);
    Ok(is_right)
}

#[test]
fn items_are_seen_at_their_places(rt: HostRuntime) -> Result<(), Fail> {
    for &row in &ROWS {
        assert!(rt; stands_at(rt.alloc(), row)?);
    }
    Ok(())
}
