//! Lists that grow as they are read.

ghost use Rattle.std.specs.Prelude.{◌≡◌, Some, None, OnOk};
ghost use Rattle.tuple_tree.specs.Items.{leaf};
ghost use Rattle.tuple_tree.specs.Values.{actual, IsUtf8IfText};
ghost use Rattle.tuple_tree.specs.Seen.{seen_datum, open_slot};
ghost use Rattle.tuple_tree.specs.TupleView.{value_of};
ghost use Rattle.tuple_tree.specs.TemplateView.{field_of};
ghost use Rattle.tuple_text.specs.Parts.{ListBecomes, tuple_with, template_with};

use crate::reader::Stop;
use std::alloc::Allocator;
use tuple_tree::{AtomRef, Field, Kind, Refusal, Template, Tuple, Value};

// A list that gets too long isn't kept, but its bytes are still judged. The reader keeps the other limits itself.
fn refuse<L: Drop>(list: &mut Option<L>, refusal: Refusal) -> Result<(), Stop>
    ensures forgotten { ListBecomes result None list.new }
    ensures too_long { OnOk result (refusal ≡ Refusal.TooLong) }
{
    match refusal {
        Refusal::TooLong => {
            *list = None;
            Ok(())
        }
        Refusal::TooManyFields | Refusal::TooDeep | Refusal::NoMemory => Err(Stop::NoMemory),
    }
}

/// Adds a value that is no tuple, unless the tuple is too long.
#[inline(always)]
pub(crate) fn add_atom<A: Allocator>(
    tuple: &mut Option<Tuple<A>>,
    atom: AtomRef<'_>,
) -> Result<(), Stop>
    requires { IsUtf8IfText (seen_datum atom) }
    ensures { ListBecomes result (tuple_with tuple.old (Some (leaf (seen_datum atom.entry)))) tuple.new }
{
    let Some(kept) = tuple else {
        return Ok(());
    };
    match kept.push_atom(atom) {
        Ok(()) => Ok(()),
        Err(refusal) => refuse(tuple, refusal),
    }
}

/// Adds a nested tuple, unless the tuple is too long.
#[inline(always)]
pub(crate) fn add_value<A: Allocator>(
    tuple: &mut Option<Tuple<A>>,
    value: Value<A>,
) -> Result<(), Stop>
    ensures { ListBecomes result (tuple_with tuple.old (Some (value_of value))) tuple.new }
{
    let Some(kept) = tuple else {
        return Ok(());
    };
    match kept.push(value) {
        Ok(()) => Ok(()),
        Err(refused) => refuse(tuple, refused.refusal),
    }
}

/// Adds an actual, unless the template is too long.
#[inline(always)]
pub(crate) fn add_actual<A: Allocator>(
    template: &mut Option<Template<A>>,
    atom: AtomRef<'_>,
) -> Result<(), Stop>
    requires { IsUtf8IfText (seen_datum atom) }
    ensures { ListBecomes result
        (template_with template.old (Some (leaf (actual (seen_datum atom.entry))))) template.new }
{
    let Some(kept) = template else {
        return Ok(());
    };
    match kept.push_atom(atom) {
        Ok(()) => Ok(()),
        Err(refusal) => refuse(template, refusal),
    }
}

/// Adds the formal of a kind, or without one a field that each value matches, unless the template is too long.
#[inline(always)]
pub(crate) fn add_open<A: Allocator>(
    template: &mut Option<Template<A>>,
    kind: Option<Kind>,
) -> Result<(), Stop>
    ensures { ListBecomes result (template_with template.old (Some (leaf (open_slot kind)))) template.new }
{
    let Some(kept) = template else {
        return Ok(());
    };
    match kept.push_open(kind) {
        Ok(()) => Ok(()),
        Err(refusal) => refuse(template, refusal),
    }
}

/// Adds another field, unless the template is too long.
#[inline(always)]
pub(crate) fn add_field<A: Allocator>(
    template: &mut Option<Template<A>>,
    field: Field<A>,
) -> Result<(), Stop>
    ensures { ListBecomes result (template_with template.old (Some (field_of field))) template.new }
{
    let Some(kept) = template else {
        return Ok(());
    };
    match kept.push(field) {
        Ok(()) => Ok(()),
        Err(refused) => refuse(template, refused.refusal),
    }
}
