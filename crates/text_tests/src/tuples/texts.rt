//! Worked texts of tuples and answers.

use std::alloc::{AllocError, Global};
use std::string::String;
use std::test::Fail;
use terms::NoMemory;
use tuple_codec::{Answer, Tuples};
use tuple_text::{write_answer, write_tuple, written_is_read, written_is_text};
use tuple_tree::{Atom, Refusal, Tuple, Value};

fn text_of(alloc: Global, text: &str) -> Result<Value<Global>, AllocError> {
    let text = String::from_str(alloc, text)?;
    Ok(Value::Atom(Atom::Text(text)))
}

fn bytes_of(alloc: Global, bytes: &[u8]) -> Result<Value<Global>, AllocError> {
    let bytes = bytes.to_vec(alloc)?;
    Ok(Value::Atom(Atom::Bytes(bytes)))
}

// The tuple with the value at its end.
fn with_last(mut tuple: Tuple<Global>, value: Value<Global>) -> Result<Tuple<Global>, Refusal> {
    match tuple.push(value) {
        Ok(()) => Ok(tuple),
        Err(pushed) => Err(pushed.refusal),
    }
}

fn tuple_of_one(alloc: Global, value: Value<Global>) -> Result<Tuple<Global>, Refusal> {
    with_last(Tuple::new_in(alloc), value)
}

fn tuple_written(alloc: Global, tuple: &Tuple<Global>) -> Result<Vec<u8>, NoMemory> {
    let mut out = Vec::new(alloc);
    write_tuple(tuple, &mut out)?;
    Ok(out)
}

// (("x") true)
fn nested(alloc: Global) -> Result<Vec<u8>, Fail> {
    let inner = tuple_of_one(alloc, text_of(alloc, "x")?)?;
    let outer = tuple_of_one(alloc, inner.into_value())?;
    let tuple = with_last(outer, Value::Atom(Atom::Truth(true)))?;
    Ok(tuple_written(alloc, &tuple)?)
}

#[test]
fn writes_a_nested_tuple(rt: HostRuntime) -> Result<(), Fail> {
    let text = nested(rt.alloc())?;
    assert_eq!(rt; text.as_slice(), b"((\"x\") true)".as_slice());
    Ok(())
}

// A tuple of a tab.
fn tab(alloc: Global) -> Result<Vec<u8>, Fail> {
    let tuple = tuple_of_one(alloc, text_of(alloc, "\t")?)?;
    Ok(tuple_written(alloc, &tuple)?)
}

#[test]
fn escapes_a_tab(rt: HostRuntime) -> Result<(), Fail> {
    let text = tab(rt.alloc())?;
    assert_eq!(rt; text.as_slice(), b"(\"\\x09\")".as_slice());
    Ok(())
}

fn all_of_one(alloc: Global, tuple: Tuple<Global>) -> Result<Answer<Global>, AllocError> {
    let mut tuples = Tuples::new_in(alloc);
    tuples.push(tuple)?;
    Ok(Answer::All(tuples))
}

// All of (x00ff -7)
fn answer(alloc: Global) -> Result<Answer<Global>, Fail> {
    let bytes = tuple_of_one(alloc, bytes_of(alloc, &[0, 255])?)?;
    let tuple = with_last(bytes, Value::Atom(Atom::Number(-7)))?;
    Ok(all_of_one(alloc, tuple)?)
}

fn written(alloc: Global, answer: &Answer<Global>) -> Result<Vec<u8>, NoMemory> {
    let mut out = Vec::new(alloc);
    write_answer(answer, &mut out)?;
    Ok(out)
}

#[test]
fn writes_all(rt: HostRuntime) -> Result<(), Fail> {
    let answer = answer(rt.alloc())?;
    let text = written(rt.alloc(), &answer)?;
    assert_eq!(rt; text.as_slice(), b"all 1 (x00ff -7)".as_slice());
    Ok(())
}

#[test]
fn laws() {
    written_is_text();
    written_is_read();
}
