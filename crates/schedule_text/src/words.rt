//! The words of a line, which blanks separate.

ghost use Rattle.std.specs.Prelude.{◌≡◌, ◌≢◌, ◌≤◌, ◌<◌, ℕ, [], length, map, slice_index, MatchOption, MatchResult};
ghost use Rattle.terms.specs.Parties.{party_number};
ghost use Rattle.schedule_text.specs.Words.{trimmed};
ghost use Rattle.schedule_text.specs.Steps.{IsHex};
ghost use Rattle.schedule_text.specs.Reading.{Because, IsFirstWord, ReadsWord, NumberText, PartyText, ClientText, PartiesText};

use crate::arguments::{bytes_of, client_in, number_in, parties_of, party_in};
use crate::fault::{Argument, Reason, StepFault};
use std::alloc::Global;
use terms::{ClientId, Party};

/// How many bytes stand before the first byte of this value, or how many there are.
pub(crate) fn len_before(byte: u8, text: &[u8]) -> usize
    ensures within { result ≤ length text.now }
    ensures before { (k : ℕ) → k < result → slice_index text.now k ≢ byte }
    ensures found { result < length text.now → slice_index text.now result ≡ byte }
{
    match text.iter().position(|other| *other == byte) {
        Some(place) => place,
        None => text.len(),
    }
}

/// A word of a line, with the place of its first byte in the line, from 0.
#[derive(Clone, Copy, Drop)]
pub(crate) struct Word<'a> {
    pub(crate) text: &'a [u8],
    pub(crate) byte: usize,
}

impl Word<'_> {
    /// The place in the line of the first byte of the rest of the word.
    pub(crate) fn byte_at(&self, rest: &[u8]) -> usize {
        self.byte
            .saturating_add(self.text.len().saturating_sub(rest.len()))
    }
}

/// The rest of a line, from which words are read.
#[derive(Drop)]
pub(crate) struct Words<'a> {
    len: usize,
    rest: &'a [u8],
}

impl<'a> Words<'a> {
    /// The words of a line.
    pub(crate) fn new(line: &'a [u8]) -> Words<'a>
        ensures { result.rest.now ≡ trimmed line.now }
    {
        let mut words = Words {
            len: line.len(),
            rest: line,
        };
        words.pass_blanks();
        words
    }

    /// The rest after the words that were read and the blanks after them.
    pub(crate) fn rest(&self) -> &'a [u8]
        ensures { result.now ≡ self.now.rest.now }
    {
        self.rest
    }

    /// The place of the rest's first byte in the line, from 0.
    pub(crate) fn byte(&self) -> usize {
        self.len.saturating_sub(self.rest.len())
    }

    /// The next word. It is passed, with the blanks around it.
    pub(crate) fn next(&mut self) -> Option<Word<'a>>
        ensures { MatchOption result (trimmed self.old.rest.now ≡ [])
            (λ w. IsFirstWord self.old.rest.now w.text.now self.new.rest.now) }
    {
        self.pass_blanks();
        if self.rest.is_empty() {
            return None;
        }
        let byte = self.byte();
        let (text, rest) = self.rest.split_at(len_before(b' ', self.rest));
        self.rest = rest;
        self.pass_blanks();
        Some(Word { text, byte })
    }

    fn pass_blanks(&mut self)
        ensures { self.new.rest.now ≡ trimmed self.old.rest.now }
    {
        while let [b' ', rest @ ..] = self.rest {
            self.rest = rest;
        }
    }

    /// The next word, or a refusal if there is none.
    pub(crate) fn word(&mut self, argument: Argument) -> Result<Word<'a>, StepFault>
        ensures { MatchResult result (λ w. IsFirstWord self.old.rest.now w.text.now self.new.rest.now)
            (λ fault. trimmed self.old.rest.now ≡ []) }
    {
        match self.next() {
            Some(word) => Ok(word),
            None => Err(StepFault::Refused {
                byte: self.len,
                reason: Reason::Missing(argument),
            }),
        }
    }

    pub(crate) fn number(&mut self, argument: Argument) -> Result<u64, StepFault>
        ensures { ReadsWord (λ n. n) NumberText self.old.rest.now result self.new.rest.now }
    {
        let word = self.word(argument)?;
        match number_in(word.text) {
            Some(number) => Ok(number),
            None => Err(StepFault::Refused {
                byte: word.byte,
                reason: Reason::NoNumber(argument),
            }),
        }
    }

    pub(crate) fn party(&mut self) -> Result<Party, StepFault>
        ensures { ReadsWord party_number PartyText self.old.rest.now result self.new.rest.now }
    {
        let word = self.word(Argument::Party)?;
        match party_in(word.text) {
            Some(party) => Ok(party),
            None => Err(StepFault::Refused {
                byte: word.byte,
                reason: Reason::NoParty(Argument::Party),
            }),
        }
    }

    pub(crate) fn client(&mut self) -> Result<ClientId, StepFault>
        ensures { ReadsWord (λ k. k.number) ClientText self.old.rest.now result self.new.rest.now }
    {
        let word = self.word(Argument::Client)?;
        match client_in(word.text) {
            Some(client) => Ok(client),
            None => Err(StepFault::Refused {
                byte: word.byte,
                reason: Reason::NoNumber(Argument::Client),
            }),
        }
    }

    pub(crate) fn parties(&mut self, alloc: Global) -> Result<Vec<Party>, StepFault>
        ensures { ReadsWord (λ ps. map party_number ps.items) PartiesText self.old.rest.now result self.new.rest.now }
    {
        let word = self.word(Argument::Parties)?;
        parties_of(alloc, word)
    }

    pub(crate) fn bytes(&mut self, alloc: Global) -> Result<Vec<u8>, StepFault>
        ensures { ReadsWord (λ bs. bs.items) IsHex self.old.rest.now result self.new.rest.now }
    {
        let word = self.word(Argument::Hex)?;
        bytes_of(alloc, word)
    }

    /// A refusal if there is a further word.
    pub(crate) fn end(&mut self) -> Result<(), StepFault>
        ensures { MatchResult result (λ _. trimmed self.old.rest.now ≡ [])
            (λ fault. Because fault (trimmed self.old.rest.now ≡ [] → ⊥)) }
    {
        match self.next() {
            Some(word) => Err(StepFault::Refused {
                byte: word.byte,
                reason: Reason::SpareWord,
            }),
            None => Ok(()),
        }
    }
}
