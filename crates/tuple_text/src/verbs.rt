//! The verbs of operations on what a template finds.

ghost use Rattle.std.specs.Prelude.{◌≡◌};
ghost use Rattle.tuple_codec.specs.OperationView.{operation_of};
ghost use Rattle.tuple_text.specs.Reading.{letters, one_of, all_of};

use std::alloc::Allocator;
use tuple_codec::{Max, Op};
use tuple_tree::Template;

/// What an operation does with the tuples that it finds: `rd` reads them, `in` takes them.
#[derive(Clone, Copy)]
pub(crate) enum Verb {
    Rd,
    In,
}

impl Verb {
    /// The letters that begin the names of its operations.
    pub(crate) fn letters(self) -> &'static [u8]
        ensures { result.now ≡ letters self }
    {
        match self {
            Verb::Rd => b"rd",
            Verb::In => b"in",
        }
    }

    /// Its operation on the oldest match.
    pub(crate) fn one_of<A: Allocator>(self, template: Template<A>) -> Op<A>
        ensures { operation_of result ≡ one_of self template }
    {
        match self {
            Verb::Rd => Op::Rdp(template),
            Verb::In => Op::Inp(template),
        }
    }

    /// Its operation on the oldest `max` matches.
    pub(crate) fn all_of<A: Allocator>(self, max: Max, template: Template<A>) -> Op<A>
        ensures { operation_of result ≡ all_of self max.count template }
    {
        match self {
            Verb::Rd => Op::RdAll(max, template),
            Verb::In => Op::InAll(max, template),
        }
    }
}
