//! Keys of first values.

ghost use Rattle.std.specs.Prelude.{◌≡◌, ◌≤◌, option_map};
ghost use Rattle.space.specs.Firsts.{front_spelling};
ghost use Rattle.space.specs.Keys.{tuple_key, template_key, key_of};

use std::alloc::Allocator;
use std::hash::{FoldHasher, Hasher};
use tuple_tree::{Template, Tuple, read_byte, skip_atom};

/// The key of a tuple: a hash of its number of values and of the first one, which is 0 if no value is first or a tuple
/// is. So equal first values have one key, and others mostly another one.
pub fn tuple_key<A: Allocator>(tuple: &Tuple<A>) -> u64
    ensures { result ≡ tuple_key tuple.now }
{
    match first_value(tuple.bytes()) {
        Some(value) => key_of(tuple.len(), value),
        None => 0,
    }
}

/// The key of the tuples that a template may match, if its first field is an actual.
pub fn template_key<A: Allocator>(template: &Template<A>) -> Option<u64>
    ensures { result ≡ template_key template.now }
{
    match first_value(template.bytes()) {
        Some(value) => Some(key_of(template.len(), value)),
        None => None,
    }
}

// The spelling of the value at the front. There is none if a list or a formal stands there.
fn first_value(bytes: &[u8]) -> Option<&[u8]>
    ensures { option_map (λ value. value.now) result ≡ front_spelling bytes.now }
{
    let (tag, after) = read_byte(bytes)?;
    let rest = skip_atom(tag, after)?;
    let (value, _) = bytes.split_at(bytes.len() - rest.len());
    Some(value)
}

// The key of a number of values, and of the first one by its spelling.
#[tactic(auto, unfolding(crate::specs::Keys::key_of))]
fn key_of(count: usize, value: &[u8]) -> u64
    requires { count ≤ 32 }
    ensures { result ≡ key_of count value.now }
{
    let mut hasher = FoldHasher::default();
    hasher.write(&[count as u8]);
    hasher.write(value);
    hasher.finish()
}
