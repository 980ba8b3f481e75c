//! Answers and texts, written into bytes of the caller's. Nothing here takes memory.

ghost use Rattle.std.specs.Prelude.{◌≡◌, ◌+◌, ◌≤◌, ◌∷◌, length};
ghost use Rattle.tuple_tree.specs.Spelling.{tuple_spelling};
ghost use Rattle.tuple_codec.specs.OperationView.{answer_spelling};
ghost use Rattle.tuple_codec.specs.Spelling.{tuples_spelling};
ghost use Rattle.space_library.specs.Written.{PutsAt};

use std::alloc::Global;
use tuple_codec::Answer;
use tuple_tree::Tuple;

/// Writes the answer's spelling in front, and gives how many bytes it has.
pub fn write_answer(answer: &Answer<Global>, out: &mut [u8]) -> usize
    requires { length (answer_spelling answer.now) ≤ length out.old }
    ensures { PutsAt 0 (answer_spelling answer.now) out.old out.new result }
{
    match answer {
        Answer::Done => put(0, &[0x31], out),
        Answer::Found(tuple) => write_found(tuple, out),
        Answer::Absent => put(0, &[0x33], out),
        Answer::Swapped(swapped) => put(0, &[0x34, *swapped as u8], out),
        Answer::All(tuples) => write_all(tuples.as_slice(), out),
        Answer::Full => put(0, &[0x36], out),
        Answer::Refused => put(0, &[0x37], out),
    }
}

fn write_found(tuple: &Tuple<Global>, out: &mut [u8]) -> usize
    requires { 1 + length (tuple_spelling tuple.now) ≤ length out.old }
    ensures { PutsAt 0 (0x32 ∷ tuple_spelling tuple.now) out.old out.new result }
{
    let at = put(0, &[0x32], out);
    put_tuple(at, tuple, out)
}

fn write_all(tuples: &[Tuple<Global>], out: &mut [u8]) -> usize
    requires count { length tuples.now ≤ 64 }
    requires room { 2 + length (tuples_spelling tuples.now) ≤ length out.old }
    ensures { PutsAt 0 (0x35 ∷ length tuples.now ∷ tuples_spelling tuples.now) out.old out.new result }
{
    let at = put(0, &[0x35, tuples.len() as u8], out);
    put_tuples(at, tuples, out)
}

fn put_tuples(start: usize, tuples: &[Tuple<Global>], out: &mut [u8]) -> usize
    requires { start + length (tuples_spelling tuples.now) ≤ length out.old }
    ensures { PutsAt start (tuples_spelling tuples.now) out.old out.new result }
{
    let mut at = start;
    for tuple in tuples {
        at = put_tuple(at, tuple, out);
    }
    at
}

fn put_tuple(at: usize, tuple: &Tuple<Global>, out: &mut [u8]) -> usize
    requires { at + length (tuple_spelling tuple.now) ≤ length out.old }
    ensures { PutsAt at (tuple_spelling tuple.now) out.old out.new result }
{
    let behind = put(at, &[tuple.len() as u8], out);
    put(behind, tuple.bytes(), out)
}

/// Writes a text from this place on, and gives the place behind it.
pub fn put(at: usize, text: &[u8], out: &mut [u8]) -> usize
    requires { at + length text.now ≤ length out.old }
    ensures { PutsAt at text.now out.old out.new result }
{
    let end = at + text.len();
    out[at..end].copy_from_slice(text);
    end
}
