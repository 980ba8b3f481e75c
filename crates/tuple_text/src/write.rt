//! From values to text.

ghost use Rattle.std.specs.Prelude.{◌≡◌, ◌+◌, ◌<◌, ◌≤◌, ◌++◌, ◌∷◌, [], false, length, slice_index, OnOk, OnErr, IsTrue};
ghost use Rattle.std.specs.Prelude.{ℕ, List};
ghost use Rattle.std.specs.List.{flat_map};
ghost use Rattle.std.specs.Fmt.{signed_decimal};
ghost use Rattle.tuple_tree.specs.Values.{TupleTree, TemplateTree};
ghost use Rattle.tuple_tree.specs.Seen.{seen_datum};
ghost use Rattle.tuple_codec.specs.Operations.{Operation};
ghost use Rattle.tuple_text.specs.Laws.{TuplesAreLines, TemplatesAreLines};
ghost use Rattle.tuple_text.specs.Lines.{IsLine};
ghost use Rattle.tuple_text.specs.Texts.{TupleText, TemplateText, datum_text, quoted_text, truth_text, escaped};
ghost use Rattle.tuple_text.specs.Texts.{hex_pair};
ghost use Rattle.tuple_text.specs.Texts as Texts;
ghost use Rattle.tuple_text.specs.Written.{tuple_written, template_written, counted_written, answer_text, is_escaped};
ghost use Rattle.tuple_text.specs.Written.{WritesText, PutsSome};

use crate::fields::put_list;
use itoa::Buffer;
use std::alloc::Allocator;
use terms::NoMemory;
use tuple_codec::{Answer, Tuples};
use tuple_tree::{AtomRef, Tuple};

// So many bytes of a text are tested together, and so many of a byte string written.
const GROUP: usize = 16;

/// Appends the text of the tuple: its values in parentheses, one blank between them. An `Err` leaves the bytes as they
/// were.
pub fn write_tuple<A: Allocator, B: Allocator>(
    tuple: &Tuple<A>,
    out: &mut Vec<u8, B>,
) -> Result<(), NoMemory>
    ensures ok { OnOk result (out.new.items ≡ out.old.items ++ tuple_written tuple.now) }
    ensures err { OnErr result (out.new.items ≡ out.old.items) }
{
    let old_len = out.len();
    match put_tuple(tuple, out) {
        Ok(()) => Ok(()),
        Err(error) => {
            out.truncate(old_len);
            Err(error)
        }
    }
}

/// Appends the text of the answer: its name, and a blank before each part of its content. An `Err` leaves the bytes
/// as they were.
pub fn write_answer<A: Allocator, B: Allocator>(
    answer: &Answer<A>,
    out: &mut Vec<u8, B>,
) -> Result<(), NoMemory>
    ensures ok { OnOk result (out.new.items ≡ out.old.items ++ answer_text answer.now) }
    ensures err { OnErr result (out.new.items ≡ out.old.items) }
{
    let old_len = out.len();
    match put_answer(answer, out) {
        Ok(()) => Ok(()),
        Err(error) => {
            out.truncate(old_len);
            Err(error)
        }
    }
}

/// A law: the written text of a tuple or template is a text of that tuple or template.
pub fn written_is_text()
    ensures tuples { (t : TupleTree) → TupleText t (tuple_written t) }
    ensures templates { (p : TemplateTree) → TemplateText p (template_written p) }
{}

/// A law: [`read_line`](crate::read_line) reads `out ` and the written text of a tuple within the limits as that
/// tuple again, and `rdp ` and the written text of a template as that template. No line is that of two operations.
pub fn written_is_read()
    ensures tuples { TuplesAreLines }
    ensures templates { TemplatesAreLines }
    ensures one { (o p : Operation) (line : List ℕ) → IsLine o line → IsLine p line → o ≡ p }
{}

// Appends these bytes.
pub(crate) fn append<B: Allocator>(text: &[u8], out: &mut Vec<u8, B>) -> Result<(), NoMemory>
    ensures { WritesText result out.old.items text.now out.new.items }
{
    Ok(out.extend_from_slice(text)?)
}

// Appends one byte.
pub(crate) fn put_byte<B: Allocator>(byte: u8, out: &mut Vec<u8, B>) -> Result<(), NoMemory>
    ensures { WritesText result out.old.items (byte ∷ []) out.new.items }
{
    Ok(out.push(byte)?)
}

fn put_answer<A: Allocator, B: Allocator>(
    answer: &Answer<A>,
    out: &mut Vec<u8, B>,
) -> Result<(), NoMemory>
    ensures { WritesText result out.old.items (answer_text answer.now) out.new.items }
{
    match answer {
        Answer::Done => append(b"done", out),
        Answer::Found(tuple) => {
            append(b"found ", out)?;
            put_tuple(tuple, out)
        }
        Answer::Absent => append(b"absent", out),
        Answer::Swapped(swapped) => {
            append(b"swapped ", out)?;
            put_truth(*swapped, out)
        }
        Answer::All(tuples) => {
            append(b"all ", out)?;
            put_tuples(tuples, out)
        }
        Answer::Full => append(b"full", out),
        Answer::Refused => append(b"refused", out),
    }
}

fn put_tuples<A: Allocator, B: Allocator>(
    tuples: &Tuples<A>,
    out: &mut Vec<u8, B>,
) -> Result<(), NoMemory>
    ensures { WritesText result out.old.items (counted_written tuples.now) out.new.items }
{
    let mut buffer = Buffer::new();
    append(buffer.format(tuples.len()).as_bytes(), out)?;
    for tuple in tuples.as_slice() {
        put_byte(b' ', out)?;
        put_tuple(tuple, out)?;
    }
    Ok(())
}

pub(crate) fn put_tuple<A: Allocator, B: Allocator>(
    tuple: &Tuple<A>,
    out: &mut Vec<u8, B>,
) -> Result<(), NoMemory>
    ensures { WritesText result out.old.items (tuple_written tuple.now) out.new.items }
{
    let _rest = put_list(tuple.len() as u8, tuple.bytes(), 7, out)?;
    Ok(())
}

pub(crate) fn put_atom<B: Allocator>(
    atom: &AtomRef<'_>,
    out: &mut Vec<u8, B>,
) -> Result<(), NoMemory>
    ensures { WritesText result out.old.items (datum_text (seen_datum atom.now)) out.new.items }
{
    match atom {
        AtomRef::Number(number) => put_number(*number, out),
        AtomRef::Text(text) => put_text(text, out),
        AtomRef::Bytes(bytes) => put_bytes(bytes, out),
        AtomRef::Truth(truth) => put_truth(*truth, out),
        AtomRef::Wide(number) => put_wide(*number, out),
    }
}

fn put_number<B: Allocator>(number: i64, out: &mut Vec<u8, B>) -> Result<(), NoMemory>
    ensures { WritesText result out.old.items (signed_decimal number) out.new.items }
{
    let mut buffer = Buffer::new();
    append(buffer.format(number).as_bytes(), out)
}

// A wide number: a `w` and its digits.
fn put_wide<B: Allocator>(number: i128, out: &mut Vec<u8, B>) -> Result<(), NoMemory>
    ensures { WritesText result out.old.items (119 ∷ signed_decimal number) out.new.items }
{
    let mut buffer = Buffer::new();
    put_byte(b'w', out)?;
    append(buffer.format(number).as_bytes(), out)
}

fn put_truth<B: Allocator>(truth: bool, out: &mut Vec<u8, B>) -> Result<(), NoMemory>
    ensures { WritesText result out.old.items (truth_text truth) out.new.items }
{
    let text: &[u8] = if truth { b"true" } else { b"false" };
    append(text, out)
}

// A text in quotes, with its escapes. Most texts have none, and are put at once.
fn put_text<B: Allocator>(text: &[u8], out: &mut Vec<u8, B>) -> Result<(), NoMemory>
    ensures { WritesText result out.old.items (quoted_text text.now) out.new.items }
{
    if plain_len(text) == text.len() {
        put_plain(text, out)
    } else {
        put_escapes(text, out)
    }
}

// A text in quotes that has no escapes.
fn put_plain<B: Allocator>(text: &[u8], out: &mut Vec<u8, B>) -> Result<(), NoMemory>
    requires { flat_map escaped text.now ≡ text.now }
    ensures { WritesText result out.old.items (quoted_text text.now) out.new.items }
{
    out.reserve(text.len() + 2)?;
    out.push_reserved(b'"');
    append(text, out)?;
    put_byte(b'"', out)
}

// A text in quotes, some of it at a time.
fn put_escapes<B: Allocator>(text: &[u8], out: &mut Vec<u8, B>) -> Result<(), NoMemory>
    ensures { WritesText result out.old.items (quoted_text text.now) out.new.items }
{
    put_byte(b'"', out)?;
    let mut done = 0;
    while done < text.len() {
        let (_, rest) = text.split_at(done);
        done += put_some(rest, out)?;
    }
    put_byte(b'"', out)
}

// The bytes up to the first that is escaped, as they are, or if that comes first its escape. Gives how many it put.
fn put_some<B: Allocator>(text: &[u8], out: &mut Vec<u8, B>) -> Result<usize, NoMemory>
    requires { 0 < length text.now }
    ensures { PutsSome result text.now out.old.items out.new.items }
{
    let plain = plain_len(text);
    if plain == 0 {
        put_escaped(text[0], out)?;
        return Ok(1);
    }
    append(&text[..plain], out)?;
    Ok(plain)
}

// How many bytes stand before the first that is escaped, or how many there are.
fn plain_len(text: &[u8]) -> usize
    ensures within { result ≤ length text.now }
    ensures plain { (k : ℕ) → k < result → is_escaped (slice_index text.now k) ≡ false }
{
    let groups = plain_groups(text);
    let (_, rest) = text.split_at(groups);
    groups + plain_front(rest)
}

// The same, byte by byte.
fn plain_front(text: &[u8]) -> usize
    ensures within { result ≤ length text.now }
    ensures plain { (k : ℕ) → k < result → is_escaped (slice_index text.now k) ≡ false }
{
    match text
        .iter()
        .position(|byte| *byte < b' ' || *byte == b'"' || *byte == b'\\')
    {
        Some(place) => place,
        None => text.len(),
    }
}

// How many bytes at the front are in groups of 16 with none that is escaped.
fn plain_groups(text: &[u8]) -> usize
    ensures within { result ≤ length text.now }
    ensures plain { (k : ℕ) → k < result → is_escaped (slice_index text.now k) ≡ false }
{
    let mut passed = 0;
    while text.len() - passed >= GROUP {
        let (_, rest) = text.split_at(passed);
        let (group, _) = rest.split_at(GROUP);
        if !are_plain(group) {
            return passed;
        }
        passed += GROUP;
    }
    passed
}

// Whether no byte is escaped. It looks at each, so that many are tested by one instruction.
fn are_plain(bytes: &[u8]) -> bool
    ensures { IsTrue result → (k : ℕ) → k < length bytes.now → is_escaped (slice_index bytes.now k) ≡ false }
{
    let mut plain = true;
    for byte in bytes {
        if *byte < b' ' || *byte == b'"' || *byte == b'\\' {
            plain = false;
        }
    }
    plain
}

fn put_escaped<B: Allocator>(byte: u8, out: &mut Vec<u8, B>) -> Result<(), NoMemory>
    ensures { WritesText result out.old.items (escaped byte) out.new.items }
{
    match byte {
        b'"' => append(b"\\\"", out),
        b'\\' => append(b"\\\\", out),
        b'\n' => append(b"\\n", out),
        0..=31 => append(
            &[b'\\', b'x', hex_digit(byte / 16), hex_digit(byte % 16)],
            out,
        ),
        _ => put_byte(byte, out),
    }
}

// A byte string: an `x` and two digits for each byte.
fn put_bytes<B: Allocator>(bytes: &[u8], out: &mut Vec<u8, B>) -> Result<(), NoMemory>
    ensures { WritesText result out.old.items (120 ∷ flat_map hex_pair bytes.now) out.new.items }
{
    out.reserve(1 + 2 * bytes.len())?;
    out.push_reserved(b'x');
    let mut left = bytes;
    while left.len() >= GROUP {
        let (group, rest) = left.split_at(GROUP);
        append(&hex_digits(group), out)?;
        left = rest;
    }
    put_pairs(left, out)
}

// The digits of a group of bytes, made in place, so that many are made by one instruction.
fn hex_digits(group: &[u8]) -> [u8; 2 * GROUP]
    requires { length group.now ≡ 16 }
    ensures { result ≡ flat_map hex_pair group.now }
{
    let mut digits = [0; 2 * GROUP];
    for i in 0..GROUP {
        digits[2 * i] = hex_digit(group[i] / 16);
        digits[2 * i + 1] = hex_digit(group[i] % 16);
    }
    digits
}

// Two digits for each byte.
fn put_pairs<B: Allocator>(bytes: &[u8], out: &mut Vec<u8, B>) -> Result<(), NoMemory>
    ensures { WritesText result out.old.items (flat_map hex_pair bytes.now) out.new.items }
{
    out.reserve(2 * bytes.len())?;
    for byte in bytes {
        out.push_reserved(hex_digit(*byte / 16));
        out.push_reserved(hex_digit(*byte % 16));
    }
    Ok(())
}

fn hex_digit(digit: u8) -> u8
    requires { digit < 16 }
    ensures { result ≡ Texts.hex_digit digit }
{
    if digit < 10 {
        b'0' + digit
    } else {
        b'a' + (digit - 10)
    }
}
