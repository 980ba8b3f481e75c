//! The reader of lines, a method for each part of the grammar.

ghost use Rattle.std.specs.Prelude.{◌≡◌, ◌+◌, ◌-◌, ◌≤◌, ◌<◌, ◌^◌, codes, true, length, IfOk, IfErr, OnOk, IsTrue, ◌↔◌};
ghost use Rattle.std.specs.Prelude.{Option, option_map};
ghost use Rattle.tuple_codec.specs.OperationView.{operation_of};
ghost use Rattle.tuple_text.specs.Texts.{AreBlanks};
ghost use Rattle.tuple_text.specs.Reading.{fault_at, blanks, word, gap, finish, positive, datum, kind, named, behind_b};
ghost use Rattle.tuple_text.specs.Reading.{behind_t, slot_item, turn, follows, got, stop, opens, tuple, template};
ghost use Rattle.tuple_text.specs.Reading.{argument, ending, last, operation, line, out_line, cas_line, upgrade_line};
ghost use Rattle.tuple_text.specs.Reading.{one_line, all_line, verb_line, lone_template};
ghost use Rattle.tuple_text.specs.Parts.{HasNoValueRoom, HasNoFieldRoom, datum_read, adding_atom, adding_slot};
ghost use Rattle.tuple_text.specs.Parts.{adding_actual, adding_tuple, adding_template, adding_value, adding_field};
ghost use Rattle.tuple_text.specs.Parts.{value_follows, field_follows, values_at, fields_at, close_tuple};
ghost use Rattle.tuple_text.specs.Parts.{close_template, MethodReads};

use crate::faults::LineFault;
use crate::growing::{add_actual, add_atom, add_field, add_open, add_value};
use crate::literals::Literal;
use crate::verbs::Verb;
use std::alloc::Allocator;
use tuple_codec::{Max, Op};
use tuple_tree::{AtomRef, Kind, MAX_FIELDS, Template, Tuple};

// How many levels may lie below the outermost list.
const BELOW: usize = 7;

/// Why a reader stops.
#[derive(Clone, Copy)]
pub(crate) enum Stop {
    /// The next byte can't continue any text.
    BadByte,
    TooDeep,
    TooManyFields,
    TooLong,
    NoMemory,
}

impl Stop {
    /// The fault of a line that was read up to `offset`.
    pub(crate) fn fault(self, offset: usize) -> LineFault
        ensures { result ≡ fault_at offset self }
    {
        match self {
            Stop::BadByte => LineFault::BadByte { offset },
            Stop::TooDeep => LineFault::TooDeep,
            Stop::TooManyFields => LineFault::TooManyFields,
            Stop::TooLong => LineFault::TooLong,
            Stop::NoMemory => LineFault::NoMemory,
        }
    }
}

/// A reader of a line. If it stops, it stands before the byte that stopped it.
#[derive(Drop)]
pub(crate) struct Reader<'a> {
    pub(crate) rest: &'a [u8],
}

impl<'a> Reader<'a> {
    pub(crate) fn new(bytes: &'a [u8]) -> Reader<'a>
        ensures { result.rest.now ≡ bytes.now }
    {
        Reader { rest: bytes }
    }

    /// How many bytes are left.
    pub(crate) fn left(&self) -> usize
        ensures { result ≡ length self.now.rest.now }
    {
        self.rest.len()
    }

    /// Whether the rest is blanks alone.
    pub(crate) fn is_blank(mut self) -> bool
        ensures { IsTrue result ↔ AreBlanks self.entry.rest.now }
    {
        self.blanks(true);
        self.rest.is_empty()
    }

    // Passes blanks. Gives whether an item may begin here: if one might before, or if a blank was passed.
    fn blanks(&mut self, mut free: bool) -> bool
        ensures { blanks free self.old.rest.now ≡ got result self.new.rest.now }
    {
        while let [b' ', rest @ ..] = self.rest {
            self.rest = rest;
            free = true;
        }
        free
    }

    pub(crate) fn word(&mut self, letters: &[u8]) -> Result<(), Stop>
        ensures { MethodReads (λ _. true) result (word letters.now) self.old self.new }
    {
        for letter in letters {
            match self.rest {
                [] => return Err(Stop::BadByte),
                [first, rest @ ..] => {
                    if *first != *letter {
                        return Err(Stop::BadByte);
                    }
                    self.rest = rest;
                }
            }
        }
        Ok(())
    }

    fn gap(&mut self) -> Result<(), Stop>
        ensures { MethodReads (λ _. true) result gap self.old self.new }
    {
        if self.blanks(false) {
            Ok(())
        } else {
            Err(Stop::BadByte)
        }
    }

    fn finish(&mut self) -> Result<(), Stop>
        ensures { MethodReads (λ _. true) result finish self.old self.new }
    {
        if self.rest.is_empty() {
            Ok(())
        } else {
            Err(Stop::BadByte)
        }
    }

    // A value that is no tuple.
    #[tactic(auto, unfolding(crate::specs::Reading::datum))]
    fn literal<A: Allocator + Copy>(&mut self, alloc: A) -> Result<Literal<A>, Stop>
        ensures { MethodReads datum_read result datum self.old self.new }
    {
        match self.rest {
            [] => Err(Stop::BadByte),
            [b'"', ..] => self.text_literal(alloc),
            [b'x', ..] => self.bytes_literal(alloc),
            [b'w', ..] => self.wide_numeral(),
            [_, ..] => {
                let scalar = self.scalar()?;
                Ok(Literal::Scalar(scalar))
            }
        }
    }

    // The rest of a kind's name.
    fn named(&mut self, letters: &[u8], kind: Kind) -> Result<Kind, Stop>
        ensures { MethodReads (λ k. k) result (named letters.now kind) self.old self.new }
    {
        self.word(letters)?;
        Ok(kind)
    }

    // The rest of a kind's name after its `b`.
    fn kind_b(&mut self) -> Result<Kind, Stop>
        ensures { MethodReads (λ k. k) result behind_b self.old self.new }
    {
        match self.rest {
            [] => Err(Stop::BadByte),
            [b'y', ..] => self.named(b"ytes", Kind::Bytes),
            [_, ..] => self.named(b"ool", Kind::Truth),
        }
    }

    // The rest of a kind's name after its `t`.
    fn kind_t(&mut self) -> Result<Kind, Stop>
        ensures { MethodReads (λ k. k) result behind_t self.old self.new }
    {
        match self.rest {
            [] => Err(Stop::BadByte),
            [b'e', ..] => self.named(b"ext", Kind::Text),
            [_, ..] => self.named(b"uple", Kind::Tuple),
        }
    }

    // The name of a kind.
    #[tactic(auto, unfolding(crate::specs::Reading::kind, crate::specs::Reading::kind_b, crate::specs::Reading::kind_t))]
    fn kind(&mut self) -> Result<Kind, Stop>
        ensures { MethodReads (λ k. k) result kind self.old self.new }
    {
        match self.rest {
            [] => Err(Stop::BadByte),
            [b'i', ..] => self.named(b"int", Kind::Number),
            [b'b', rest @ ..] => {
                self.rest = rest;
                self.kind_b()
            }
            [b't', rest @ ..] => {
                self.rest = rest;
                self.kind_t()
            }
            [b'w', ..] => self.named(b"wide", Kind::Wide),
            [_, ..] => Err(Stop::BadByte),
        }
    }

    #[tactic(auto, unfolding(crate::specs::Reading::follows))]
    fn follows(&mut self, free: bool) -> Result<bool, Stop>
        ensures { MethodReads (λ on. on) result (follows free) self.old self.new }
    {
        match self.rest {
            [] => Err(Stop::BadByte),
            [b')', ..] => Ok(false),
            _ if free => Ok(true),
            _ => Err(Stop::BadByte),
        }
    }

    // Passes blanks. Gives whether an item follows or the list is closed; the parenthesis is left.
    #[tactic(auto, unfolding(crate::specs::Reading::turn))]
    fn turn(&mut self, free: bool) -> Result<bool, Stop>
        ensures { MethodReads (λ on. on) result (turn free) self.old self.new }
    {
        let free = self.blanks(free);
        self.follows(free)
    }

    // Why no further value has room here, with so many levels below.
    #[tactic(auto, unfolding(crate::specs::Reading::full))]
    fn full_tuple(&self, levels: usize) -> Stop
        ensures { HasNoValueRoom levels self.now result }
    {
        match self.rest {
            [b'(', ..] if levels == 0 => Stop::TooDeep,
            [
                b'(' | b'"' | b'x' | b'w' | b't' | b'f' | b'-' | b'0'..=b'9',
                ..
            ] => Stop::TooManyFields,
            _ => Stop::BadByte,
        }
    }

    #[tactic(auto, unfolding(crate::specs::Reading::full))]
    fn full_template(&self, levels: usize) -> Stop
        ensures { HasNoFieldRoom levels self.now result }
    {
        match self.rest {
            [b'(', ..] if levels == 0 => Stop::TooDeep,
            [
                b'(' | b'*' | b'?' | b'"' | b'x' | b'w' | b't' | b'f' | b'-' | b'0'..=b'9',
                ..
            ] => Stop::TooManyFields,
            _ => Stop::BadByte,
        }
    }

    // Whether a list begins here.
    fn opens(&self) -> bool
        ensures { result ≡ opens self.now.rest.now }
    {
        matches!(self.rest, [b'(', ..])
    }

    // Reads a value that is no tuple, and adds it. Most values need no memory, so the others have a call of their own.
    #[inline(never)]
    fn add_literal<A: Allocator + Copy>(
        &mut self,
        alloc: A,
        tuple: &mut Option<Tuple<A>>,
    ) -> Result<(), Stop>
        ensures { MethodReads (λ _. tuple.new) result (adding_atom tuple.old) self.old self.new }
    {
        let literal = self.literal(alloc)?;
        add_atom(tuple, literal.atom())
    }

    // The same, without a call where no memory is needed.
    #[tactic(auto, unfolding(crate::specs::Reading::datum))]
    fn add_atom<A: Allocator + Copy>(
        &mut self,
        alloc: A,
        tuple: &mut Option<Tuple<A>>,
    ) -> Result<(), Stop>
        ensures { MethodReads (λ _. tuple.new) result (adding_atom tuple.old) self.old self.new }
    {
        if let Some(text) = self.plain_text() {
            return add_atom(tuple, AtomRef::Text(text));
        }
        match self.rest {
            [b'"' | b'x' | b'w', ..] => self.add_literal(alloc, tuple),
            _ => {
                let scalar = self.scalar()?;
                add_atom(tuple, scalar)
            }
        }
    }

    // Passes the closing parenthesis of a nested tuple, and adds it.
    fn add_closed_tuple<A: Allocator>(
        &mut self,
        nested: Option<Tuple<A>>,
        tuple: &mut Option<Tuple<A>>,
    ) -> Result<(), Stop>
        ensures { MethodReads (λ _. tuple.new) result (adding_tuple nested tuple.old) self.old self.new }
    {
        self.word(b")")?;
        match nested {
            Some(nested) => add_value(tuple, nested.into_value()),
            None => {
                *tuple = None;
                Ok(())
            }
        }
    }

    // Reads a value with at most so many levels, and adds it.
    #[cycle(value)]
    fn add_next_value<A: Allocator + Copy>(
        &mut self,
        alloc: A,
        levels: usize,
        tuple: &mut Option<Tuple<A>>,
    ) -> Result<(), Stop>
        ensures { MethodReads (λ _. tuple.new) result (adding_value levels tuple.old) self.old self.new }
    {
        if !self.opens() {
            return self.add_atom(alloc, tuple);
        }
        if levels == 0 {
            return Err(Stop::TooDeep);
        }
        self.word(b"(")?;
        let nested = self.values(alloc, levels - 1)?;
        self.add_closed_tuple(nested, tuple)
    }

    // Whether a further value follows `count` others. If the list is full, a further value is refused.
    fn value_follows(&mut self, levels: usize, count: usize, free: bool) -> Result<bool, Stop>
        ensures { MethodReads (λ on. on) result (value_follows levels count free) self.old self.new }
    {
        let follows = self.turn(free)?;
        if follows && count == MAX_FIELDS {
            return Err(self.full_tuple(levels));
        }
        Ok(follows)
    }

    // The values up to the closing parenthesis, which is left. The values of a tuple that is too long are still
    // judged.
    #[cycle(value)]
    fn values<A: Allocator + Copy>(
        &mut self,
        alloc: A,
        levels: usize,
    ) -> Result<Option<Tuple<A>>, Stop>
        ensures { MethodReads (λ t. t) result (values_at levels) self.old self.new }
    {
        let mut tuple = Some(Tuple::new_in(alloc));
        let mut count = 0;
        let mut free = true;
        while self.value_follows(levels, count, free)? {
            self.add_next_value(alloc, levels, &mut tuple)?;
            count += 1;
            free = false;
        }
        Ok(tuple)
    }

    #[inline(always)]
    #[tactic(auto, unfolding(crate::specs::Reading::close))]
    fn close_tuple<A: Allocator>(&mut self, tuple: Option<Tuple<A>>) -> Result<Tuple<A>, Stop>
        ensures { MethodReads (λ t. t) result (close_tuple tuple) self.old self.new }
    {
        match self.rest {
            [b')', rest @ ..] => match tuple {
                Some(tuple) => {
                    self.rest = rest;
                    Ok(tuple)
                }
                None => Err(Stop::TooLong),
            },
            _ => Err(Stop::BadByte),
        }
    }

    #[tactic(auto, unfolding(crate::specs::Reading::whole))]
    fn tuple<A: Allocator + Copy>(&mut self, alloc: A) -> Result<Tuple<A>, Stop>
        ensures { MethodReads (λ t. t) result tuple self.old self.new }
    {
        self.word(b"(")?;
        let tuple = self.values(alloc, BELOW)?;
        self.close_tuple(tuple)
    }

    // Reads an actual, and adds it. Most actuals are plain texts, so the others have a call of their own.
    #[inline(never)]
    #[tactic(auto, unfolding(crate::specs::Reading::actual_slot))]
    fn add_literal_actual<A: Allocator + Copy>(
        &mut self,
        alloc: A,
        template: &mut Option<Template<A>>,
    ) -> Result<(), Stop>
        ensures { MethodReads (λ _. template.new) result (adding_actual template.old) self.old self.new }
    {
        let literal = self.literal(alloc)?;
        add_actual(template, literal.atom())
    }

    // Reads a field that is no template, and adds it.
    #[tactic(auto, unfolding(crate::specs::Reading::slot, crate::specs::Reading::formal_slot, crate::specs::Reading::actual_slot))]
    fn add_plain_field<A: Allocator + Copy>(
        &mut self,
        alloc: A,
        template: &mut Option<Template<A>>,
    ) -> Result<(), Stop>
        ensures { MethodReads (λ _. template.new) result (adding_slot template.old) self.old self.new }
    {
        match self.rest {
            [] => Err(Stop::BadByte),
            [b'*', rest @ ..] => {
                self.rest = rest;
                add_open(template, None)
            }
            [b'?', rest @ ..] => {
                self.rest = rest;
                let kind = self.kind()?;
                add_open(template, Some(kind))
            }
            [_, ..] => {
                if let Some(text) = self.plain_text() {
                    return add_actual(template, AtomRef::Text(text));
                }
                self.add_literal_actual(alloc, template)
            }
        }
    }

    // Passes the closing parenthesis of a nested template, and adds it.
    fn add_closed_template<A: Allocator>(
        &mut self,
        nested: Option<Template<A>>,
        template: &mut Option<Template<A>>,
    ) -> Result<(), Stop>
        ensures { MethodReads (λ _. template.new) result (adding_template nested template.old) self.old self.new }
    {
        self.word(b")")?;
        match nested {
            Some(nested) => add_field(template, nested.into_field()),
            None => {
                *template = None;
                Ok(())
            }
        }
    }

    // Reads a field with at most so many levels, and adds it.
    #[cycle(field)]
    fn add_next_field<A: Allocator + Copy>(
        &mut self,
        alloc: A,
        levels: usize,
        template: &mut Option<Template<A>>,
    ) -> Result<(), Stop>
        ensures { MethodReads (λ _. template.new) result (adding_field levels template.old) self.old self.new }
    {
        if !self.opens() {
            return self.add_plain_field(alloc, template);
        }
        if levels == 0 {
            return Err(Stop::TooDeep);
        }
        self.word(b"(")?;
        let nested = self.fields(alloc, levels - 1)?;
        self.add_closed_template(nested, template)
    }

    // Whether a further field follows `count` others. If the list is full, a further field is refused.
    fn field_follows(&mut self, levels: usize, count: usize, free: bool) -> Result<bool, Stop>
        ensures { MethodReads (λ on. on) result (field_follows levels count free) self.old self.new }
    {
        let follows = self.turn(free)?;
        if follows && count == MAX_FIELDS {
            return Err(self.full_template(levels));
        }
        Ok(follows)
    }

    // The fields up to the closing parenthesis, which is left. The fields of a template that is too long are still
    // judged.
    #[cycle(field)]
    fn fields<A: Allocator + Copy>(
        &mut self,
        alloc: A,
        levels: usize,
    ) -> Result<Option<Template<A>>, Stop>
        ensures { MethodReads (λ t. t) result (fields_at levels) self.old self.new }
    {
        let mut template = Some(Template::new_in(alloc));
        let mut count = 0;
        let mut free = true;
        while self.field_follows(levels, count, free)? {
            self.add_next_field(alloc, levels, &mut template)?;
            count += 1;
            free = false;
        }
        Ok(template)
    }

    #[inline(always)]
    #[tactic(auto, unfolding(crate::specs::Reading::close))]
    fn close_template<A: Allocator>(
        &mut self,
        template: Option<Template<A>>,
    ) -> Result<Template<A>, Stop>
        ensures { MethodReads (λ p. p) result (close_template template) self.old self.new }
    {
        match self.rest {
            [b')', rest @ ..] => match template {
                Some(template) => {
                    self.rest = rest;
                    Ok(template)
                }
                None => Err(Stop::TooLong),
            },
            _ => Err(Stop::BadByte),
        }
    }

    #[inline(always)]
    #[tactic(auto, unfolding(crate::specs::Reading::whole))]
    fn template<A: Allocator + Copy>(&mut self, alloc: A) -> Result<Template<A>, Stop>
        ensures { MethodReads (λ p. p) result template self.old self.new }
    {
        self.word(b"(")?;
        let template = self.fields(alloc, BELOW)?;
        self.close_template(template)
    }

    #[inline(always)]
    #[tactic(auto, unfolding(crate::specs::Reading::argument))]
    fn tuple_argument<A: Allocator + Copy>(&mut self, alloc: A) -> Result<Tuple<A>, Stop>
        ensures { MethodReads (λ t. t) result (argument tuple) self.old self.new }
    {
        self.gap()?;
        self.tuple(alloc)
    }

    #[tactic(auto, unfolding(crate::specs::Reading::argument))]
    fn template_argument<A: Allocator + Copy>(&mut self, alloc: A) -> Result<Template<A>, Stop>
        ensures { MethodReads (λ p. p) result (argument template) self.old self.new }
    {
        self.gap()?;
        self.template(alloc)
    }

    // A gap, a tuple, and blanks alone up to the end.
    #[inline(always)]
    fn last_tuple<A: Allocator + Copy>(&mut self, alloc: A) -> Result<Tuple<A>, Stop>
        ensures { MethodReads (λ t. t) result (last (argument tuple)) self.old self.new }
    {
        let tuple = self.tuple_argument(alloc)?;
        self.ending()?;
        Ok(tuple)
    }

    // A template, and blanks alone up to the end.
    #[inline(always)]
    fn closing_template<A: Allocator + Copy>(&mut self, alloc: A) -> Result<Template<A>, Stop>
        ensures { MethodReads (λ p. p) result (last template) self.old self.new }
    {
        let template = self.template(alloc)?;
        self.ending()?;
        Ok(template)
    }

    // A gap, a template, and blanks alone up to the end.
    #[inline(always)]
    #[tactic(auto, unfolding(crate::specs::Reading::argument))]
    fn last_template<A: Allocator + Copy>(&mut self, alloc: A) -> Result<Template<A>, Stop>
        ensures { MethodReads (λ p. p) result (last (argument template)) self.old self.new }
    {
        self.gap()?;
        self.closing_template(alloc)
    }

    // How many tuples an `rdAll` or `inAll` asks for.
    #[tactic(auto, unfolding(crate::specs::Reading::argument))]
    fn count_argument(&mut self) -> Result<Max, Stop>
        ensures { MethodReads (λ max. max.count) result (argument (positive 64)) self.old self.new }
    {
        self.gap()?;
        let count = self.positive(64)?;
        match Max::new(count as u8) {
            Some(max) => Ok(max),
            None => unreachable!(),
        }
    }

    #[tactic(auto, unfolding(crate::specs::Reading::ending, crate::specs::Reading::ended))]
    fn ending(&mut self) -> Result<(), Stop>
        ensures { MethodReads (λ _. true) result ending self.old self.new }
    {
        self.blanks(true);
        self.finish()
    }

    #[tactic(auto, unfolding(crate::specs::Reading::out_line, crate::specs::Reading::ended))]
    fn out_line<A: Allocator + Copy>(&mut self, alloc: A) -> Result<Op<A>, Stop>
        ensures { MethodReads operation_of result out_line self.old self.new }
    {
        self.word(b"out")?;
        let tuple = self.last_tuple(alloc)?;
        Ok(Op::Out(tuple))
    }

    #[tactic(auto, unfolding(crate::specs::Reading::cas_line, crate::specs::Reading::ended))]
    fn cas_line<A: Allocator + Copy>(&mut self, alloc: A) -> Result<Op<A>, Stop>
        ensures { MethodReads operation_of result cas_line self.old self.new }
    {
        self.word(b"cas")?;
        let template = self.template_argument(alloc)?;
        let tuple = self.last_tuple(alloc)?;
        Ok(Op::Cas(template, tuple))
    }

    #[tactic(auto, unfolding(crate::specs::Reading::upgrade_line, crate::specs::Reading::ended))]
    fn upgrade_line<A: Allocator>(&mut self) -> Result<Op<A>, Stop>
        ensures { MethodReads operation_of result upgrade_line self.old self.new }
    {
        self.word(b"upgrade")?;
        self.ending()?;
        Ok(Op::Upgrade)
    }

    // The rest of an `rdp` or `inp` line, after its first two letters.
    #[tactic(auto, unfolding(crate::specs::Reading::one_line, crate::specs::Reading::ended))]
    fn one_line<A: Allocator + Copy>(&mut self, alloc: A, verb: Verb) -> Result<Op<A>, Stop>
        ensures { MethodReads operation_of result (one_line verb) self.old self.new }
    {
        self.word(b"p")?;
        let template = self.last_template(alloc)?;
        Ok(verb.one_of(template))
    }

    // The rest of an `rdAll` or `inAll` line, after its first two letters.
    #[tactic(auto, unfolding(crate::specs::Reading::all_line, crate::specs::Reading::ended))]
    fn all_line<A: Allocator + Copy>(&mut self, alloc: A, verb: Verb) -> Result<Op<A>, Stop>
        ensures { MethodReads operation_of result (all_line verb) self.old self.new }
    {
        self.word(b"All")?;
        let max = self.count_argument()?;
        let template = self.last_template(alloc)?;
        Ok(verb.all_of(max, template))
    }

    // Inlined, as are the other lines, so that the operation is made where it is wanted.
    #[inline(always)]
    #[tactic(auto, unfolding(crate::specs::Reading::verb_line))]
    fn verb_line<A: Allocator + Copy>(&mut self, alloc: A, verb: Verb) -> Result<Op<A>, Stop>
        ensures { MethodReads operation_of result (verb_line verb) self.old self.new }
    {
        self.word(verb.letters())?;
        match self.rest {
            [] => Err(Stop::BadByte),
            [b'p', ..] => self.one_line(alloc, verb),
            [_, ..] => self.all_line(alloc, verb),
        }
    }

    #[tactic(auto, unfolding(crate::specs::Reading::operation))]
    fn operation<A: Allocator + Copy>(&mut self, alloc: A) -> Result<Op<A>, Stop>
        ensures { MethodReads operation_of result operation self.old self.new }
    {
        match self.rest {
            [b'o', ..] => self.out_line(alloc),
            [b'r', ..] => self.verb_line(alloc, Verb::Rd),
            [b'i', ..] => self.verb_line(alloc, Verb::In),
            [b'c', ..] => self.cas_line(alloc),
            [b'u', ..] => self.upgrade_line(),
            _ => Err(Stop::BadByte),
        }
    }

    /// A template that stands alone, with blanks at both ends.
    #[tactic(auto, unfolding(crate::specs::Reading::lone_template))]
    pub(crate) fn lone_template<A: Allocator + Copy>(
        &mut self,
        alloc: A,
    ) -> Result<Template<A>, Stop>
        ensures { MethodReads (λ p. p) result lone_template self.old self.new }
    {
        self.blanks(true);
        self.closing_template(alloc)
    }

    /// The operation of the line.
    #[tactic(auto, unfolding(crate::specs::Reading::line))]
    pub(crate) fn line<A: Allocator + Copy>(&mut self, alloc: A) -> Result<Op<A>, Stop>
        ensures { MethodReads operation_of result line self.old self.new }
    {
        self.blanks(true);
        self.operation(alloc)
    }
}
