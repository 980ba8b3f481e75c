//! Which tuples a template matches.
//!
//! A template matches a tuple if both have the same number of fields and each field matches (Bessani and others,
//! DepSpace, EuroSys 2008, section 2). An actual matches an equal value, a formal each value of its kind, `Any` each
//! value, and a nested template each nested tuple that it matches. Formals by kind and nesting are this project's own.
//!
//! # What is proved
//!
//! `matches` is true exactly if the relation `Matches` holds. `matching_is_decided` says that the test in the space's
//! definition is that relation.
#![tactic(auto)]

mod strip;
mod walks;

ghost use Rattle.std.specs.Prelude.{◌≡◌, IsTrue, ◌↔◌};
ghost use Rattle.tuple_tree.specs.Values.{TupleTree, TemplateTree};
ghost use Rattle.template_match.specs.Matches.{Matches};
ghost use Rattle.template_match.specs.Tests.{is_match};

use crate::strip::strip_front;
use crate::walks::match_fields;
use std::alloc::Allocator;
use tuple_tree::{Template, Tuple};

/// Whether the template matches the tuple, wherever they lie. Takes no memory.
pub fn matches<A: Allocator, B: Allocator>(template: &Template<A>, tuple: &Tuple<B>) -> bool
    ensures relation { IsTrue result ↔ Matches template.now tuple.now }
    ensures value { result ≡ is_match template.now tuple.now }
{
    walks_match(template, tuple)
}

fn walks_match<A: Allocator, B: Allocator>(template: &Template<A>, tuple: &Tuple<B>) -> bool
    ensures { result ≡ is_match template.now tuple.now }
{
    if template.len() != tuple.len() {
        return false;
    }
    let values = tuple.bytes();
    // Without an open field all bytes decide, by one comparison.
    if template.is_fixed() {
        let Some(_) = strip_front(template.fixed_bytes(), values) else {
            return false;
        };
        return true;
    }
    match match_fields(template.len() as u8, template.bytes(), values, 7) {
        Some(_) => true,
        None => false,
    }
}

/// The test of a match by recursion on the template is true exactly if the template matches.
pub fn matching_is_decided()
    ensures { (p : TemplateTree) (t : TupleTree) → IsTrue (is_match p t) ↔ Matches p t }
{}
