//! The reader of text literals and byte string literals.

ghost use Rattle.std.specs.Prelude.{◌≡◌, ◌+◌, ◌++◌, ◌∷◌, ◌<◌, ◌≤◌, ◌%◌, ℕ, [], None, true, false, length, slice_index};
ghost use Rattle.std.specs.Prelude.{vec_len, vec_capacity, IfOk, IfErr, IfSome, IfNone, OnOk, IsTrue};
ghost use Rattle.tuple_tree.specs.Seen.{seen_datum};
ghost use Rattle.tuple_tree.specs.Values.{text};
ghost use Rattle.tuple_text.specs.Literals.{is_hex, hex_value, led, step, is_plain, text_rest, PassesPlain, AreHex};
ghost use Rattle.tuple_text.specs.Literals.{NoHex, PassesPairs, digit_pairs};
ghost use Rattle.tuple_text.specs.Reading.{got, datum, quoted, byte_string};
ghost use Rattle.tuple_text.specs.Parts.{MethodReads, datum_read};

use crate::reader::{Reader, Stop};
use std::alloc::Allocator;
use tuple_tree::AtomRef;

// So many bytes of a text are tested together.
const GROUP: usize = 16;

// So many of a short one.
const HALF: usize = 8;

/// The bytes that may stand next in a text literal. Within a character of several bytes these are the bytes that RFC
/// 3629, section 4, allows next.
#[derive(Clone, Copy)]
pub(crate) enum Expected {
    /// A character, an escape, or the closing quote.
    Character,
    /// The byte after a backslash.
    Escape,
    /// The first hexadecimal digit of an escape by number.
    FirstDigit,
    DigitBehindZero,
    DigitBehindOne,
    OneByte,
    TwoBytes,
    ThreeBytes,
    BytesBehindE0,
    BytesBehindEd,
    BytesBehindF0,
    BytesBehindF4,
}

/// The effect of a byte.
pub(crate) enum Step {
    /// It can't continue any text.
    Refused,
    /// It closes the text.
    Ends,
    /// It is passed, and this is expected next.
    Passes(Expected),
    /// It is passed, this byte is added to the text, and this is expected next.
    Adds(u8, Expected),
}

/// A value that is no tuple, as it was read.
#[derive(Drop)]
pub(crate) enum Literal<A: Allocator> {
    /// A number or a truth value.
    Scalar(AtomRef<'static>),
    Text(Vec<u8, A>),
    Bytes(Vec<u8, A>),
}

impl<A: Allocator> Literal<A> {
    /// The value.
    pub(crate) fn atom(&self) -> AtomRef<'_>
        ensures { seen_datum result ≡ datum_read self.now }
    {
        match self {
            Literal::Scalar(atom) => *atom,
            Literal::Text(bytes) => AtomRef::Text(bytes.as_slice()),
            Literal::Bytes(bytes) => AtomRef::Bytes(bytes.as_slice()),
        }
    }
}

impl Expected {
    fn step(self, byte: u8) -> Step
        ensures { result ≡ step self byte }
    {
        match (self, byte) {
            (Expected::Character, b'"') => Step::Ends,
            (Expected::Character, b'\\') => Step::Passes(Expected::Escape),
            (Expected::Character, 0x20..=0x7F) => Step::Adds(byte, Expected::Character),
            (Expected::Character, _) => led(byte),
            (Expected::Escape, b'"') => Step::Adds(b'"', Expected::Character),
            (Expected::Escape, b'\\') => Step::Adds(b'\\', Expected::Character),
            (Expected::Escape, b'n') => Step::Adds(b'\n', Expected::Character),
            (Expected::Escape, b'x') => Step::Passes(Expected::FirstDigit),
            (Expected::FirstDigit, b'0') => Step::Passes(Expected::DigitBehindZero),
            (Expected::FirstDigit, b'1') => Step::Passes(Expected::DigitBehindOne),
            // A line feed has a spelling of its own.
            (Expected::DigitBehindZero, b'a') => Step::Refused,
            (Expected::DigitBehindZero, b'0'..=b'9' | b'b'..=b'f') => {
                Step::Adds(hex_value(byte), Expected::Character)
            }
            (Expected::DigitBehindOne, b'0'..=b'9' | b'a'..=b'f') => {
                Step::Adds(16 + hex_value(byte), Expected::Character)
            }
            (Expected::OneByte, 0x80..=0xBF) => Step::Adds(byte, Expected::Character),
            (Expected::TwoBytes, 0x80..=0xBF) => Step::Adds(byte, Expected::OneByte),
            (Expected::ThreeBytes, 0x80..=0xBF) => Step::Adds(byte, Expected::TwoBytes),
            (Expected::BytesBehindE0, 0xA0..=0xBF) => Step::Adds(byte, Expected::OneByte),
            (Expected::BytesBehindEd, 0x80..=0x9F) => Step::Adds(byte, Expected::OneByte),
            (Expected::BytesBehindF0, 0x90..=0xBF) => Step::Adds(byte, Expected::TwoBytes),
            (Expected::BytesBehindF4, 0x80..=0x8F) => Step::Adds(byte, Expected::TwoBytes),
            _ => Step::Refused,
        }
    }
}

// The first byte of a character of several.
fn led(byte: u8) -> Step
    ensures { result ≡ led byte }
{
    match byte {
        0xC2..=0xDF => Step::Adds(byte, Expected::OneByte),
        0xE0 => Step::Adds(byte, Expected::BytesBehindE0),
        0xED => Step::Adds(byte, Expected::BytesBehindEd),
        0xE1..=0xEF => Step::Adds(byte, Expected::TwoBytes),
        0xF0 => Step::Adds(byte, Expected::BytesBehindF0),
        0xF1..=0xF3 => Step::Adds(byte, Expected::ThreeBytes),
        0xF4 => Step::Adds(byte, Expected::BytesBehindF4),
        _ => Step::Refused,
    }
}

// The value of a lower case hexadecimal digit.
fn hex_value(digit: u8) -> u8
    requires { is_hex digit ≡ true }
    ensures value { result ≡ hex_value digit }
    ensures bound { result < 16 }
{
    if digit <= b'9' {
        digit - b'0'
    } else {
        digit - b'a' + 10
    }
}

fn push_byte<A: Allocator>(bytes: &mut Vec<u8, A>, byte: u8) -> Result<(), Stop>
    ensures ok { OnOk result (bytes.new.items ≡ bytes.old.items ++ byte ∷ []) }
    ensures err { IfErr result (λ s. s ≡ Stop.NoMemory) }
{
    match bytes.push(byte) {
        Ok(()) => Ok(()),
        Err(_full) => Err(Stop::NoMemory),
    }
}

// So many bytes at the front stand for themselves in a text literal.
fn plain_len(bytes: &[u8]) -> usize
    ensures within { result ≤ length bytes.now }
    ensures plain { (k : ℕ) → k < result → is_plain (slice_index bytes.now k) ≡ true }
{
    let (front, rest) = bytes.split_at(bytes.len().min(HALF));
    if front.len() < HALF || !are_plain(front) {
        return plain_front(front);
    }
    HALF + later_plain_len(rest)
}

// The same of what comes later. Most texts are short, so the first bytes are tested one by one.
fn later_plain_len(bytes: &[u8]) -> usize
    ensures within { result ≤ length bytes.now }
    ensures plain { (k : ℕ) → k < result → is_plain (slice_index bytes.now k) ≡ true }
{
    let (front, rest) = bytes.split_at(bytes.len().min(GROUP));
    let plain = plain_front(front);
    if plain < front.len() {
        return plain;
    }
    plain + long_plain_len(rest)
}

fn long_plain_len(bytes: &[u8]) -> usize
    ensures within { result ≤ length bytes.now }
    ensures plain { (k : ℕ) → k < result → is_plain (slice_index bytes.now k) ≡ true }
{
    let groups = plain_groups(bytes);
    let (_, rest) = bytes.split_at(groups);
    groups + plain_front(rest)
}

// The same, byte by byte.
fn plain_front(bytes: &[u8]) -> usize
    ensures within { result ≤ length bytes.now }
    ensures plain { (k : ℕ) → k < result → is_plain (slice_index bytes.now k) ≡ true }
{
    match bytes.iter().position(|byte| *byte < b' '
        || *byte > 127
        || *byte == b'"'
        || *byte == b'\\')
    {
        Some(place) => place,
        None => bytes.len(),
    }
}

// The same, in groups of 16.
fn plain_groups(bytes: &[u8]) -> usize
    ensures within { result ≤ length bytes.now }
    ensures plain { (k : ℕ) → k < result → is_plain (slice_index bytes.now k) ≡ true }
{
    let mut passed = 0;
    while bytes.len() - passed >= GROUP {
        let (_, rest) = bytes.split_at(passed);
        let (group, _) = rest.split_at(GROUP);
        if !are_plain(group) {
            return passed;
        }
        passed += GROUP;
    }
    passed
}

// Whether each byte stands for itself. It looks at each, so that many are tested by one instruction.
fn are_plain(bytes: &[u8]) -> bool
    ensures { IsTrue result → (k : ℕ) → k < length bytes.now → is_plain (slice_index bytes.now k) ≡ true }
{
    let mut plain = true;
    for byte in bytes {
        if *byte < b' ' || *byte > 127 || *byte == b'"' || *byte == b'\\' {
            plain = false;
        }
    }
    plain
}

// A copy of these bytes.
fn copy_of<A: Allocator + Copy>(alloc: A, bytes: &[u8]) -> Result<Vec<u8, A>, Stop>
    ensures ok { IfOk result (λ v. v.items ≡ bytes.now) }
    ensures err { IfErr result (λ s. s ≡ Stop.NoMemory) }
{
    match Vec::from_slice(alloc, bytes) {
        Ok(copy) => Ok(copy),
        Err(_full) => Err(Stop::NoMemory),
    }
}

// So many bytes at the front are hexadecimal digits, and no more.
fn hex_len(bytes: &[u8]) -> usize
    ensures within { result ≤ length bytes.now }
    ensures hex { (k : ℕ) → k < result → is_hex (slice_index bytes.now k) ≡ true }
    ensures ends { result < length bytes.now → is_hex (slice_index bytes.now result) ≡ false }
{
    let groups = hex_groups(bytes);
    let (_, rest) = bytes.split_at(groups);
    groups + hex_front(rest)
}

// The same, byte by byte.
fn hex_front(bytes: &[u8]) -> usize
    ensures within { result ≤ length bytes.now }
    ensures hex { (k : ℕ) → k < result → is_hex (slice_index bytes.now k) ≡ true }
    ensures ends { result < length bytes.now → is_hex (slice_index bytes.now result) ≡ false }
{
    match bytes
        .iter()
        .position(|byte| !matches!(*byte, b'0'..=b'9' | b'a'..=b'f'))
    {
        Some(place) => place,
        None => bytes.len(),
    }
}

// So many bytes at the front are groups of 16 digits.
fn hex_groups(bytes: &[u8]) -> usize
    ensures within { result ≤ length bytes.now }
    ensures hex { (k : ℕ) → k < result → is_hex (slice_index bytes.now k) ≡ true }
{
    let mut passed = 0;
    while bytes.len() - passed >= GROUP {
        let (_, rest) = bytes.split_at(passed);
        let (group, _) = rest.split_at(GROUP);
        if !are_hex(group) {
            return passed;
        }
        passed += GROUP;
    }
    passed
}

// Whether each byte is a hexadecimal digit. It looks at each, as `are_plain` does.
fn are_hex(bytes: &[u8]) -> bool
    ensures { IsTrue result → AreHex bytes.now }
{
    let mut hex = true;
    for byte in bytes {
        if *byte < b'0' || *byte > b'f' || (*byte > b'9' && *byte < b'a') {
            hex = false;
        }
    }
    hex
}

// Empty, with room for so many bytes.
fn room_for<A: Allocator>(alloc: A, len: usize) -> Result<Vec<u8, A>, Stop>
    ensures ok { IfOk result (λ v. v.items ≡ []) }
    ensures room { IfOk result (λ v. vec_len v + len ≤ vec_capacity v) }
    ensures err { IfErr result (λ s. s ≡ Stop.NoMemory) }
{
    match Vec::with_capacity(alloc, len) {
        Ok(bytes) => Ok(bytes),
        Err(_full) => Err(Stop::NoMemory),
    }
}

// The bytes that the digits spell.
fn bytes_of<A: Allocator>(alloc: A, digits: &[u8]) -> Result<Vec<u8, A>, Stop>
    requires hex { AreHex digits.now }
    requires even { length digits.now % 2 ≡ 0 }
    ensures ok { IfOk result (λ v. PassesPairs v.items digits.now) }
    ensures err { IfErr result (λ s. s ≡ Stop.NoMemory) }
{
    let mut bytes = room_for(alloc, digits.len() / 2)?;
    let mut left = digits;
    while let [high, low, rest @ ..] = left {
        bytes.push_reserved(hex_value(*high) * 16 + hex_value(*low));
        left = rest;
    }
    Ok(bytes)
}

impl<'a> Reader<'a> {
    // Passes the bytes at the front that stand for themselves, all at once, and gives them.
    fn plain_bytes<A: Allocator + Copy>(&mut self, alloc: A) -> Result<Vec<u8, A>, Stop>
        ensures ok { IfOk result (λ v. PassesPlain v.items self.old.rest.now self.new.rest.now) }
        ensures err { IfErr result (λ s. s ≡ Stop.NoMemory) }
    {
        let (front, rest) = self.rest.split_at(plain_len(self.rest));
        let bytes = copy_of(alloc, front)?;
        self.rest = rest;
        Ok(bytes)
    }

    // The rest of a text after its first quote.
    fn text_bytes<A: Allocator + Copy>(&mut self, alloc: A) -> Result<Vec<u8, A>, Stop>
        ensures { MethodReads (λ v. v.items) result text_rest self.old self.new }
    {
        let mut bytes = self.plain_bytes(alloc)?;
        let mut expected = Expected::Character;
        while let [byte, rest @ ..] = self.rest {
            match expected.step(*byte) {
                Step::Refused => return Err(Stop::BadByte),
                Step::Ends => {
                    self.rest = rest;
                    return Ok(bytes);
                }
                Step::Passes(next) => expected = next,
                Step::Adds(value, next) => {
                    push_byte(&mut bytes, value)?;
                    expected = next;
                }
            }
            self.rest = rest;
        }
        Err(Stop::BadByte)
    }

    /// Reads a text literal without escapes and characters of several bytes, and gives its text where it lies. If no
    /// such literal stands there, nothing is passed.
    #[inline(always)]
    pub(crate) fn plain_text(&mut self) -> Option<&'a [u8]>
        ensures some { IfSome result (λ s. datum self.old.rest.now ≡ got (text s.now) self.new.rest.now) }
        ensures none { IfNone result (self.new.rest.now ≡ self.old.rest.now) }
    {
        let [b'"', front @ ..] = self.rest else {
            return None;
        };
        let (plain, behind) = front.split_at(plain_len(front));
        let [b'"', rest @ ..] = behind else {
            return None;
        };
        self.rest = rest;
        Some(plain)
    }

    /// Reads a text literal.
    #[tactic(auto, unfolding(crate::specs::Reading::quoted, crate::specs::Literals::text_literal))]
    pub(crate) fn text_literal<A: Allocator + Copy>(&mut self, alloc: A) -> Result<Literal<A>, Stop>
        ensures { MethodReads datum_read result quoted self.old self.new }
    {
        match self.rest {
            [b'"', rest @ ..] => {
                self.rest = rest;
                let bytes = self.text_bytes(alloc)?;
                Ok(Literal::Text(bytes))
            }
            _ => Err(Stop::BadByte),
        }
    }

    // Passes the hexadecimal digits at the front, and gives them.
    fn hex_digits(&mut self) -> &'a [u8]
        ensures passed { self.old.rest.now ≡ result.now ++ self.new.rest.now }
        ensures hex { AreHex result.now }
        ensures ends { NoHex self.new.rest.now }
    {
        let (digits, rest) = self.rest.split_at(hex_len(self.rest));
        self.rest = rest;
        digits
    }

    // The rest of a byte string after its first letter.
    fn pairs<A: Allocator>(&mut self, alloc: A) -> Result<Vec<u8, A>, Stop>
        ensures { MethodReads (λ v. v.items) result (digit_pairs [] None) self.old self.new }
    {
        let digits = self.hex_digits();
        if digits.len() % 2 == 1 {
            return Err(Stop::BadByte);
        }
        bytes_of(alloc, digits)
    }

    /// Reads a byte string literal.
    #[tactic(auto, unfolding(crate::specs::Reading::byte_string, crate::specs::Literals::bytes_literal))]
    pub(crate) fn bytes_literal<A: Allocator>(&mut self, alloc: A) -> Result<Literal<A>, Stop>
        ensures { MethodReads datum_read result byte_string self.old self.new }
    {
        match self.rest {
            [b'x', rest @ ..] => {
                self.rest = rest;
                let bytes = self.pairs(alloc)?;
                Ok(Literal::Bytes(bytes))
            }
            _ => Err(Stop::BadByte),
        }
    }
}
