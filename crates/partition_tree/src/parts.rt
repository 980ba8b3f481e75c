//! The inner parts of a tree, each with an owner of its own that others may share, and changes of their pages.

ghost use Rattle.std.specs.Prelude.{◌≡◌, ◌<◌, false, IfOk, OnOk, OnErr, map, length};
ghost use Rattle.partition_tree.specs.Changes.{AreKnown};
ghost use Rattle.partition_tree.specs.Owners.{SetsText, KeepsPart, SetsPages, KeepsOthers};
ghost use Rattle.partition_tree.specs.Parts.{AreFull, parts_held, part_digest};

use crate::children::Children;
use crate::digests::CHILDREN;
use crate::page::Page;
use crate::part::Part;
use std::sync::Arc;
use terms::NoMemory;

/// Replaces the text of a page, in a copy of the part if others share it.
pub fn put(part: &mut Arc<Part>, child: usize, text: Vec<u8>) -> Result<(), NoMemory>
    requires { child < CHILDREN }
    ensures ok { OnOk result (SetsText part.old part.new child text.items) }
    ensures err { OnErr result (KeepsPart part.old part.new) }
{
    let part = Arc::make_mut(part)?;
    part.set(child, text)
}

// Replaces the text of a page, unless the page has it already. Gives whether the page changed.
fn change(part: &mut Arc<Part>, child: usize, text: Vec<u8>) -> Result<bool, NoMemory>
    requires { child < CHILDREN }
    ensures ok { OnOk result (SetsText part.old part.new child text.items) }
    ensures kept { IfOk result (λ changed. changed ≡ false → KeepsPart part.old part.new) }
{
    if part.page(child) == text.as_slice() {
        return Ok(false);
    }
    put(part, child, text)?;
    Ok(true)
}

/// Sets these texts, and tells of each part whether one of its pages changed.
pub fn change_all(
    parts: &mut Vec<Arc<Part>>,
    pages: Vec<Page>,
) -> Result<[bool; CHILDREN], NoMemory>
    requires full { AreFull (parts_held parts.old.items) }
    requires count { length parts.old.items ≡ CHILDREN }
    ensures pages { OnOk result (SetsPages pages.items parts.old.items parts.new.items) }
    ensures full { OnOk result (AreFull (parts_held parts.new.items)) }
    ensures count { OnOk result (length parts.new.items ≡ CHILDREN) }
    ensures kept { IfOk result (λ changed. KeepsOthers changed parts.old.items parts.new.items) }
{
    let mut changed = [false; CHILDREN];
    for page in pages {
        let Page { index, text } = page;
        let part = index / CHILDREN;
        if change(&mut parts[part], index % CHILDREN, text)? {
            changed[part] = true;
        }
    }
    Ok(changed)
}

/// Renews the digests of the parts where they lie. Those of changed parts are hashed, the others are known.
pub fn renew(digests: &mut Children, parts: &[Arc<Part>], changed: &[bool; CHILDREN])
    requires whole { length digests.old ≡ CHILDREN }
    requires count { length parts.now ≡ CHILDREN }
    requires known { AreKnown changed.now digests.old (parts_held parts.now) }
    ensures { digests.new ≡ map part_digest (parts_held parts.now) }
{
    for part in 0..CHILDREN {
        if changed[part] {
            digests.set(part, parts[part].digest());
        }
    }
}
