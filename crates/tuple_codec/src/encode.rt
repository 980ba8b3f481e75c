//! From values to bytes.

ghost use Rattle.std.specs.Prelude.{◌≡◌, ◌++◌, ◌∷◌, OnOk, OnErr};
ghost use Rattle.tuple_tree.specs.Puts.{PutsText};
ghost use Rattle.tuple_codec.specs.Operations.{all};
ghost use Rattle.tuple_codec.specs.OperationView.{op_spelling, answer_spelling};
ghost use Rattle.tuple_tree.specs.Spelling.{flag, tuple_spelling, template_spelling};
ghost use Rattle.tuple_codec.specs.Spelling.{cas_spelling, counted_spelling, tuples_spelling, outcome_spelling};

use crate::operations::{Answer, Max, Op, Tuples};
use std::alloc::Allocator;
use terms::NoMemory;
use tuple_tree::{Template, Tuple, put_behind, put_byte, put_template, put_tuple};

/// Appends the spelling of the tuple: a count, and then the tag and the content of each value. An `Err` leaves the
/// bytes as they were.
pub fn encode_tuple<A: Allocator, B: Allocator>(
    tuple: &Tuple<A>,
    out: &mut Vec<u8, B>,
) -> Result<(), NoMemory>
    ensures ok { OnOk result (out.new.items ≡ out.old.items ++ tuple_spelling tuple.now) }
    ensures err { OnErr result (out.new.items ≡ out.old.items) }
{
    let old_len = out.len();
    match put_tuple(tuple, out) {
        Ok(()) => Ok(()),
        Err(error) => {
            out.truncate(old_len);
            Err(error)
        }
    }
}

/// Appends the spelling of the template: as of a tuple, with more tags. An `Err` leaves the bytes as they were.
pub fn encode_template<A: Allocator, B: Allocator>(
    template: &Template<A>,
    out: &mut Vec<u8, B>,
) -> Result<(), NoMemory>
    ensures ok { OnOk result (out.new.items ≡ out.old.items ++ template_spelling template.now) }
    ensures err { OnErr result (out.new.items ≡ out.old.items) }
{
    let old_len = out.len();
    match put_template(template, out) {
        Ok(()) => Ok(()),
        Err(error) => {
            out.truncate(old_len);
            Err(error)
        }
    }
}

/// Appends the spelling of the operation: a tag, and then its arguments. An `Err` leaves the bytes as they were.
pub fn encode_op<A: Allocator, B: Allocator>(
    op: &Op<A>,
    out: &mut Vec<u8, B>,
) -> Result<(), NoMemory>
    ensures ok { OnOk result (out.new.items ≡ out.old.items ++ op_spelling op.now) }
    ensures err { OnErr result (out.new.items ≡ out.old.items) }
{
    let old_len = out.len();
    match put_op(op, out) {
        Ok(()) => Ok(()),
        Err(error) => {
            out.truncate(old_len);
            Err(error)
        }
    }
}

/// Appends the spelling of the answer: a tag, and then its content. An `Err` leaves the bytes as they were.
pub fn encode_result<A: Allocator, B: Allocator>(
    answer: &Answer<A>,
    out: &mut Vec<u8, B>,
) -> Result<(), NoMemory>
    ensures ok { OnOk result (out.new.items ≡ out.old.items ++ answer_spelling answer.now) }
    ensures err { OnErr result (out.new.items ≡ out.old.items) }
{
    let old_len = out.len();
    match put_answer(answer, out) {
        Ok(()) => Ok(()),
        Err(error) => {
            out.truncate(old_len);
            Err(error)
        }
    }
}

fn put_op<A: Allocator, B: Allocator>(op: &Op<A>, out: &mut Vec<u8, B>) -> Result<(), NoMemory>
    ensures { PutsText (op_spelling op.now) out.old.items out.new.items result }
{
    match op {
        Op::Out(tuple) => put_tuple_behind(0x21, tuple, out),
        Op::Rdp(template) => put_template_behind(0x22, template, out),
        Op::Inp(template) => put_template_behind(0x23, template, out),
        Op::Cas(template, tuple) => put_cas(template, tuple, out),
        Op::RdAll(max, template) => put_counted(0x25, *max, template, out),
        Op::InAll(max, template) => put_counted(0x26, *max, template, out),
        Op::Upgrade => put_byte(0x27, out),
    }
}

fn put_cas<A: Allocator, B: Allocator>(
    template: &Template<A>,
    tuple: &Tuple<A>,
    out: &mut Vec<u8, B>,
) -> Result<(), NoMemory>
    ensures { PutsText (cas_spelling template.now tuple.now) out.old.items out.new.items result }
{
    put_template_behind(0x24, template, out)?;
    put_tuple(tuple, out)
}

fn put_counted<A: Allocator, B: Allocator>(
    tag: u8,
    max: Max,
    template: &Template<A>,
    out: &mut Vec<u8, B>,
) -> Result<(), NoMemory>
    ensures { PutsText (tag ∷ counted_spelling (max.count, template.now)) out.old.items out.new.items result }
{
    put_byte(tag, out)?;
    put_template_behind(max.count, template, out)
}

fn put_answer<A: Allocator, B: Allocator>(
    answer: &Answer<A>,
    out: &mut Vec<u8, B>,
) -> Result<(), NoMemory>
    ensures { PutsText (answer_spelling answer.now) out.old.items out.new.items result }
{
    match answer {
        Answer::Done => put_byte(0x31, out),
        Answer::Found(tuple) => put_tuple_behind(0x32, tuple, out),
        Answer::Absent => put_byte(0x33, out),
        Answer::Swapped(swapped) => put_behind(0x34, &[*swapped as u8], out),
        Answer::All(tuples) => put_all(tuples, out),
        Answer::Full => put_byte(0x36, out),
        Answer::Refused => put_byte(0x37, out),
    }
}

fn put_all<A: Allocator, B: Allocator>(
    tuples: &Tuples<A>,
    out: &mut Vec<u8, B>,
) -> Result<(), NoMemory>
    ensures { PutsText (outcome_spelling (all tuples.now)) out.old.items out.new.items result }
{
    put_behind(0x35, &[tuples.len() as u8], out)?;
    put_tuples(tuples, out)
}

fn put_tuples<A: Allocator, B: Allocator>(
    tuples: &Tuples<A>,
    out: &mut Vec<u8, B>,
) -> Result<(), NoMemory>
    ensures { PutsText (tuples_spelling tuples.now) out.old.items out.new.items result }
{
    for tuple in tuples.as_slice() {
        put_tuple(tuple, out)?;
    }
    Ok(())
}

fn put_tuple_behind<A: Allocator, B: Allocator>(
    tag: u8,
    tuple: &Tuple<A>,
    out: &mut Vec<u8, B>,
) -> Result<(), NoMemory>
    ensures { PutsText (tag ∷ tuple_spelling tuple.now) out.old.items out.new.items result }
{
    put_byte(tag, out)?;
    put_tuple(tuple, out)
}

fn put_template_behind<A: Allocator, B: Allocator>(
    tag: u8,
    template: &Template<A>,
    out: &mut Vec<u8, B>,
) -> Result<(), NoMemory>
    ensures { PutsText (tag ∷ template_spelling template.now) out.old.items out.new.items result }
{
    put_byte(tag, out)?;
    put_template(template, out)
}
