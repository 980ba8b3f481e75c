//! Operations on a tuple space and their answers (Bessani and others, DepSpace, EuroSys 2008, section 3).

ghost use Rattle.std.specs.Prelude.{◌≡◌, ◌+◌, ◌<◌, ◌≤◌, [], ◌∷◌, ◌++◌, length, map, OnOk, OnErr, IfOk, IfErr, IsTrue};
ghost use Rattle.std.specs.Prelude.{SomeIff, IsSome, IfSome, ◌↔◌};
ghost use Rattle.tuple_tree.specs.Values.{IsTuple, IsTemplate};
ghost use Rattle.tuple_codec.specs.Operations.{AreTuples};
ghost use Rattle.tuple_tree.specs.Spelling.{tuple_spelling, template_spelling};
ghost use Rattle.tuple_codec.specs.Spelling.{tuples_spelling};

use std::alloc::{AllocFailed, Allocator};
use std::marker::Model;
use terms::NoMemory;
use tuple_tree::{Template, Tuple};

/// Most tuples of one answer.
pub const MAX_ANSWERS: usize = 64;

/// How many tuples an `rdAll` asks for: 1 to 64.
#[derive(Clone, Copy)]
pub struct Max {
    pub count: u8,
    ghost in_range: { (1 ≤ count) × (count ≤ 64) },
}

impl Max {
    /// The count, if it is 1 to 64.
    pub fn new(count: u8) -> Option<Max>
        ensures some { IsSome result ↔ ((1 ≤ count) × (count ≤ 64)) }
        ensures value { IfSome result (λ max. max.count ≡ count) }
    {
        if count >= 1 && count <= 64 {
            Some(Max { count })
        } else {
            None
        }
    }
}

/// Up to 64 tuples.
#[derive(Drop)]
pub struct Tuples<A: Allocator> {
    tuples: Vec<Tuple<A>, A>,
}

impl<A: Allocator> Model for Tuples<A> {
    ghost use Rattle.std.specs.Prelude.{List, ◌≤◌, length};
    ghost use Rattle.tuple_tree.specs.Values.{TupleTree};
    ghost use Rattle.tuple_codec.specs.TuplesView.{tuples_code};

    ghost Value = { List TupleTree };

    ghost coded = { tuples_code };

    ghost view = { λ a. a.tuples.items };

    ghost invariant = { λ a. length a.tuples.items ≤ 64 };
}

impl<A: Allocator> Tuples<A> {
    /// No tuples. Takes no memory.
    pub fn new_in(alloc: A) -> Tuples<A>
        ensures { result ≡ [] }
    {
        Tuples {
            tuples: Vec::new(alloc),
        }
    }

    /// How many tuples there are, 0 to 64.
    pub fn len(&self) -> usize
        ensures value { result ≡ length self.now }
        ensures bound { result ≤ 64 }
    {
        self.tuples.len()
    }

    /// The tuples in order.
    pub fn as_slice(&self) -> &[Tuple<A>]
        ensures value { result.now ≡ self.now }
        ensures bound { length self.now ≤ 64 }
    {
        self.tuples.as_slice()
    }

    /// Adds a tuple at the end. An `Err` hands it back and changes nothing.
    pub fn push(&mut self, tuple: Tuple<A>) -> Result<(), AllocFailed<Tuple<A>>>
        requires { length self.old < 64 }
        ensures ok { OnOk result (self.new ≡ self.old ++ tuple ∷ []) }
        ensures err { OnErr result (self.new ≡ self.old) }
        ensures returned { IfErr result (λ e. e.value ≡ tuple) }
    {
        self.tuples.push(tuple)
    }

    /// Equal tuples under another allocator.
    pub fn copy_in<B: Allocator + Clone>(&self, alloc: B) -> Result<Tuples<B>, NoMemory>
        ensures { IfOk result (λ copies. copies ≡ self.now) }
    {
        let tuples = copy_tuples(self.tuples.as_slice(), &alloc)?;
        Ok(Tuples { tuples })
    }

    /// Whether both are equal tuples in the same order, wherever they lie.
    pub fn same<B: Allocator>(&self, other: &Tuples<B>) -> bool
        ensures { IsTrue result ↔ (self.now ≡ other.now) }
    {
        are_same(self.as_slice(), other.as_slice())
    }
}

fn are_same<A: Allocator, B: Allocator>(tuples: &[Tuple<A>], others: &[Tuple<B>]) -> bool
    ensures { IsTrue result ↔ (tuples.now ≡ others.now) }
{
    let mut at = 0;
    for tuple in tuples {
        if at == others.len() {
            return false;
        }
        if !tuple.same(&others[at]) {
            return false;
        }
        at += 1;
    }
    at == others.len()
}

fn copy_tuples<A: Allocator, B: Allocator + Clone>(
    tuples: &[Tuple<A>],
    alloc: &B,
) -> Result<Vec<Tuple<B>, B>, NoMemory>
    ensures { IfOk result (λ copies. copies.items ≡ tuples.now) }
{
    let mut copies = Vec::with_capacity(alloc.clone()?, tuples.len())?;
    for tuple in tuples {
        let copy = tuple.copy_in(alloc.clone()?)?;
        copies.push(copy)?;
    }
    Ok(copies)
}

/// An operation on a tuple space.
#[derive(Drop)]
pub enum Op<A: Allocator> {
    /// Puts the tuple into the space.
    Out(Tuple<A>),
    /// Reads the oldest match.
    Rdp(Template<A>),
    /// Takes the oldest match.
    Inp(Template<A>),
    /// Puts the tuple into the space if nothing matches.
    Cas(Template<A>, Tuple<A>),
    /// Reads the oldest matches, at most so many.
    RdAll(Max, Template<A>),
    /// Takes the oldest matches, at most so many.
    InAll(Max, Template<A>),
    /// Makes the space one of version 2.
    Upgrade,
}

impl<A: Allocator> Op<A> {
    ghost use Rattle.std.specs.Prelude.{◌≡◌, ◌≤◌, ◌↔◌, IfOk, IsTrue, length};
    ghost use Rattle.tuple_codec.specs.Operations.{IsOperation, is_read_only, is_version_2};
    ghost use Rattle.tuple_codec.specs.OperationView.{operation_of};
    ghost use Rattle.tuple_codec.specs.Spelling.{operation_spelling};

    /// An equal operation under another allocator.
    pub fn copy_in<B: Allocator + Clone>(&self, alloc: B) -> Result<Op<B>, NoMemory>
        ensures { IfOk result (λ copy. operation_of copy ≡ operation_of self.now) }
    {
        match self {
            Op::Out(tuple) => Ok(Op::Out(tuple.copy_in(alloc)?)),
            Op::Rdp(template) => Ok(Op::Rdp(template.copy_in(alloc)?)),
            Op::Inp(template) => Ok(Op::Inp(template.copy_in(alloc)?)),
            Op::Cas(template, tuple) => {
                let template = template.copy_in(alloc.clone()?)?;
                Ok(Op::Cas(template, tuple.copy_in(alloc)?))
            }
            Op::RdAll(max, template) => Ok(Op::RdAll(*max, template.copy_in(alloc)?)),
            Op::InAll(max, template) => Ok(Op::InAll(*max, template.copy_in(alloc)?)),
            Op::Upgrade => Ok(Op::Upgrade),
        }
    }

    /// Whether the two operations are equal, wherever they lie.
    pub fn same<B: Allocator>(&self, other: &Op<B>) -> bool
        ensures { IsTrue result ↔ (operation_of self.now ≡ operation_of other.now) }
    {
        match (self, other) {
            (Op::Out(a), Op::Out(b)) => a.same(b),
            (Op::Rdp(a), Op::Rdp(b)) => a.same(b),
            (Op::Inp(a), Op::Inp(b)) => a.same(b),
            (Op::Cas(a, x), Op::Cas(b, y)) => a.same(b) && x.same(y),
            (Op::RdAll(max, a), Op::RdAll(most, b)) => max.count == most.count && a.same(b),
            (Op::InAll(max, a), Op::InAll(most, b)) => max.count == most.count && a.same(b),
            (Op::Upgrade, Op::Upgrade) => true,
            _ => false,
        }
    }

    /// The length of the spelling in bytes, 1 to 2,049. Constant time.
    pub fn encoded_len(&self) -> usize
        ensures value { result ≡ length (operation_spelling (operation_of self.now)) }
        ensures bound { result ≤ 2049 }
    {
        match self {
            Op::Out(tuple) => 1 + tuple_len(tuple),
            Op::Rdp(template) | Op::Inp(template) => 1 + template_len(template),
            Op::Cas(template, tuple) => 1 + template_len(template) + tuple_len(tuple),
            Op::RdAll(_, template) | Op::InAll(_, template) => 2 + template_len(template),
            Op::Upgrade => 1,
        }
    }

    /// Whether the operation only reads.
    pub fn is_read(&self) -> bool
        ensures { result ≡ is_read_only (operation_of self.now) }
    {
        match self {
            Op::Rdp(_) | Op::RdAll(_, _) => true,
            Op::Out(_) | Op::Inp(_) | Op::Cas(_, _) | Op::InAll(_, _) | Op::Upgrade => false,
        }
    }

    /// Whether the operation is one of version 2 of the space: an `inAll`, or one that has a wide number or asks for
    /// one. Constant time.
    pub fn is_version_2(&self) -> bool
        ensures { result ≡ is_version_2 (operation_of self.now) }
    {
        match self {
            Op::Out(tuple) => tuple.has_wide(),
            Op::Rdp(template) | Op::Inp(template) => template.has_wide(),
            Op::Cas(template, tuple) => template.has_wide() || tuple.has_wide(),
            Op::RdAll(_, template) => template.has_wide(),
            Op::InAll(_, _) => true,
            Op::Upgrade => false,
        }
    }

    /// Each operation that the program holds is within the limits. Does nothing, and takes no memory: a caller calls
    /// it if a proof needs the fact.
    pub fn note_valid(&self)
        ensures { IsOperation (operation_of self.now) }
    {
        match self {
            Op::Out(tuple) => note_tuple(tuple),
            Op::Rdp(template) => note_template(template),
            Op::Inp(template) => note_template(template),
            Op::Cas(template, tuple) => {
                note_template(template);
                note_tuple(tuple);
            }
            Op::RdAll(max, template) | Op::InAll(max, template) => {
                let _max = *max;
                note_template(template);
            }
            Op::Upgrade => {}
        }
    }
}

/// The answer to an operation.
#[derive(Drop)]
pub enum Answer<A: Allocator> {
    Done,
    Found(Tuple<A>),
    Absent,
    Swapped(bool),
    All(Tuples<A>),
    /// The space holds as many tuples as it may.
    Full,
    /// The space doesn't know the operation.
    Refused,
}

impl<A: Allocator> Answer<A> {
    ghost use Rattle.std.specs.Prelude.{◌≡◌, ◌≤◌, ◌↔◌, IfOk, IsTrue, length};
    ghost use Rattle.tuple_codec.specs.Operations.{IsOutcome};
    ghost use Rattle.tuple_codec.specs.OperationView.{outcome_of};
    ghost use Rattle.tuple_codec.specs.Spelling.{outcome_spelling};

    /// An equal answer under another allocator.
    pub fn copy_in<B: Allocator + Clone>(&self, alloc: B) -> Result<Answer<B>, NoMemory>
        ensures { IfOk result (λ copy. outcome_of copy ≡ outcome_of self.now) }
    {
        match self {
            Answer::Done => Ok(Answer::Done),
            Answer::Found(tuple) => Ok(Answer::Found(tuple.copy_in(alloc)?)),
            Answer::Absent => Ok(Answer::Absent),
            Answer::Swapped(swapped) => Ok(Answer::Swapped(*swapped)),
            Answer::All(tuples) => Ok(Answer::All(tuples.copy_in(alloc)?)),
            Answer::Full => Ok(Answer::Full),
            Answer::Refused => Ok(Answer::Refused),
        }
    }

    /// Whether the two answers are equal, wherever they lie.
    pub fn same<B: Allocator>(&self, other: &Answer<B>) -> bool
        ensures { IsTrue result ↔ (outcome_of self.now ≡ outcome_of other.now) }
    {
        match (self, other) {
            (Answer::Found(a), Answer::Found(b)) => a.same(b),
            (Answer::Swapped(a), Answer::Swapped(b)) => *a == *b,
            (Answer::All(a), Answer::All(b)) => a.same(b),
            (Answer::Done, Answer::Done) => true,
            (Answer::Absent, Answer::Absent) => true,
            (Answer::Full, Answer::Full) => true,
            (Answer::Refused, Answer::Refused) => true,
            _ => false,
        }
    }

    /// The length of the spelling in bytes, 1 to 65,538.
    pub fn encoded_len(&self) -> usize
        ensures value { result ≡ length (outcome_spelling (outcome_of self.now)) }
        ensures bound { result ≤ 65538 }
    {
        match self {
            Answer::Done | Answer::Absent | Answer::Full | Answer::Refused => 1,
            Answer::Found(tuple) => 1 + tuple_len(tuple),
            Answer::Swapped(_) => 2,
            Answer::All(tuples) => 2 + tuples_len(tuples),
        }
    }

    /// Each answer that the program holds is within the limits. Does nothing, and takes no memory: a caller calls it
    /// if a proof needs the fact.
    pub fn note_valid(&self)
        ensures { IsOutcome (outcome_of self.now) }
    {
        match self {
            Answer::Found(tuple) => note_tuple(tuple),
            Answer::All(tuples) => note_tuples(tuples.as_slice()),
            Answer::Done | Answer::Absent | Answer::Swapped(_) | Answer::Full | Answer::Refused =>
                {}
        }
    }
}

fn note_tuples<A: Allocator>(tuples: &[Tuple<A>])
    ensures { AreTuples tuples.now }
{
    for tuple in tuples {
        note_tuple(tuple);
    }
}

fn note_tuple<A: Allocator>(tuple: &Tuple<A>)
    ensures { IsTuple tuple.now }
{
    let _depth = tuple.depth();
}

fn note_template<A: Allocator>(template: &Template<A>)
    ensures { IsTemplate template.now }
{
    let _depth = template.depth();
}

fn tuple_len<A: Allocator>(tuple: &Tuple<A>) -> usize
    ensures value { result ≡ length (tuple_spelling tuple.now) }
    ensures bound { result ≤ 1024 }
{
    tuple.encoded_len()
}

fn template_len<A: Allocator>(template: &Template<A>) -> usize
    ensures value { result ≡ length (template_spelling template.now) }
    ensures bound { result ≤ 1024 }
{
    template.encoded_len()
}

fn tuples_len<A: Allocator>(tuples: &Tuples<A>) -> usize
    ensures value { result ≡ length (tuples_spelling tuples.now) }
    ensures bound { result ≤ 65536 }
{
    let mut len = 0;
    for tuple in tuples.as_slice() {
        len += tuple_len(tuple);
    }
    len
}
