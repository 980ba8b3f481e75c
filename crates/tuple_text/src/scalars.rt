//! The reader of numbers and truth values.

ghost use Rattle.std.specs.Prelude.{◌≡◌, ◌+◌, ◌≤◌, pos, negsuc, ◌≤ℤ◌, IfOk};
ghost use Rattle.tuple_tree.specs.Seen.{seen_datum};
ghost use Rattle.tuple_tree.specs.Values.{truth as truth_datum, IsUtf8IfText};
ghost use Rattle.tuple_text.specs.Reading.{digits, positive, signed, numeral, wide_numeral, named, truth_or_number};
ghost use Rattle.tuple_text.specs.Parts.{datum_read, MethodReads};

use crate::literals::Literal;
use crate::reader::{Reader, Stop};
use std::alloc::Allocator;
use tuple_tree::AtomRef;

// The greatest number, and the greatest wide one.
const MOST: u128 = 9223372036854775807;

const MOST_WIDE: u128 = 170141183460469231731687303715884105727;

// Any digit may follow a number below this one, and the longer number is no greater than the greatest.
const SHORT: u64 = 922337203685477580;

impl Reader<'_> {
    // Passes digits as long as the number surely is no greater than the greatest, since sums of 128 bits take longer.
    fn short_digits(&mut self, limit: u128, first: u64) -> u64
        requires first { first ≤ limit }
        requires positive { 1 ≤ first }
        ensures gives { digits limit result self.new.rest.now ≡ digits limit first self.old.rest.now }
        ensures low { 1 ≤ result }
        ensures high { result ≤ limit }
    {
        if limit < MOST {
            return first;
        }
        let mut number = first;
        while let [byte @ b'0'..=b'9', rest @ ..] = self.rest {
            if number >= SHORT {
                return number;
            }
            number = number * 10 + u64::from(*byte - b'0');
            self.rest = rest;
        }
        number
    }

    // The digits after `first`, the number that the digits before them spell.
    fn digits(&mut self, limit: u128, first: u128) -> Result<u128, Stop>
        requires low { 9 ≤ limit }
        requires high { limit ≤ MOST_WIDE + 1 }
        requires first { first ≤ limit }
        requires positive { 1 ≤ first }
        ensures gives { MethodReads (λ n. n) result (digits limit first) self.old self.new }
        ensures low { IfOk result (λ n. 1 ≤ n) }
        ensures high { IfOk result (λ n. n ≤ limit) }
    {
        let mut number = first;
        while let [byte @ b'0'..=b'9', rest @ ..] = self.rest {
            let digit = u128::from(*byte - b'0');
            if number > (limit - digit) / 10 {
                return Err(Stop::BadByte);
            }
            number = number * 10 + digit;
            self.rest = rest;
        }
        Ok(number)
    }

    #[tactic(auto, unfolding(crate::specs::Reading::positive))]
    pub(crate) fn positive(&mut self, limit: u128) -> Result<u128, Stop>
        requires low { 9 ≤ limit }
        requires high { limit ≤ MOST_WIDE + 1 }
        ensures gives { MethodReads (λ n. n) result (positive limit) self.old self.new }
        ensures low { IfOk result (λ n. 1 ≤ n) }
        ensures high { IfOk result (λ n. n ≤ limit) }
    {
        match self.rest {
            [byte @ b'1'..=b'9', rest @ ..] => {
                self.rest = rest;
                let number = self.short_digits(limit, u64::from(*byte - b'0'));
                self.digits(limit, u128::from(number))
            }
            _ => Err(Stop::BadByte),
        }
    }

    #[tactic(auto, unfolding(crate::specs::Reading::signed))]
    fn signed(&mut self, most: u128) -> Result<i128, Stop>
        requires low { 9 ≤ most }
        requires high { most ≤ MOST_WIDE }
        ensures gives { MethodReads (λ n. n) result (signed most) self.old self.new }
        ensures low { IfOk result (λ n. negsuc most ≤ℤ n) }
        ensures high { IfOk result (λ n. n ≤ℤ pos most) }
    {
        match self.rest {
            [] => Err(Stop::BadByte),
            [b'-', rest @ ..] => {
                self.rest = rest;
                let number = self.positive(most + 1)?;
                Ok(-1 - (number - 1) as i128)
            }
            [b'0', rest @ ..] => {
                self.rest = rest;
                Ok(0)
            }
            [_, ..] => {
                let number = self.positive(most)?;
                Ok(number as i128)
            }
        }
    }

    #[tactic(auto, unfolding(crate::specs::Reading::numeral))]
    fn numeral(&mut self) -> Result<AtomRef<'static>, Stop>
        ensures gives { MethodReads seen_datum result numeral self.old self.new }
        ensures utf8 { IfOk result (λ x. IsUtf8IfText (seen_datum x)) }
    {
        let number = self.signed(MOST)?;
        Ok(AtomRef::Number(number as i64))
    }

    // A wide number, after its `w`.
    #[tactic(auto, unfolding(crate::specs::Reading::wide_numeral))]
    pub(crate) fn wide_numeral<A: Allocator>(&mut self) -> Result<Literal<A>, Stop>
        ensures { MethodReads datum_read result wide_numeral self.old self.new }
    {
        self.word(b"w")?;
        let number = self.signed(MOST_WIDE)?;
        Ok(Literal::Scalar(AtomRef::Wide(number)))
    }

    // A word that stands for a truth value.
    fn truth(&mut self, letters: &[u8], truth: bool) -> Result<AtomRef<'static>, Stop>
        ensures gives { MethodReads seen_datum result (named letters.now (truth_datum truth)) self.old self.new }
        ensures utf8 { IfOk result (λ x. IsUtf8IfText (seen_datum x)) }
    {
        self.word(letters)?;
        Ok(AtomRef::Truth(truth))
    }

    // A number or a truth value. Inlined, so that its kind is known where it is added.
    #[inline(always)]
    pub(crate) fn scalar(&mut self) -> Result<AtomRef<'static>, Stop>
        ensures gives { MethodReads seen_datum result truth_or_number self.old self.new }
        ensures utf8 { IfOk result (λ x. IsUtf8IfText (seen_datum x)) }
    {
        match self.rest {
            [] => Err(Stop::BadByte),
            [b't', ..] => self.truth(b"true", true),
            [b'f', ..] => self.truth(b"false", false),
            [_, ..] => self.numeral(),
        }
    }
}
