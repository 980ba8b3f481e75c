//! A law of escaped texts.

ghost use Rattle.std.specs.Prelude.{◌≡◌, ℕ, List, true};
ghost use Rattle.std.specs.List.{list_all};
ghost use Rattle.picture.specs.Escaping.{escaped_text, is_plain_character, EntitiesBegin};

/// A law: an escaped text has only characters of XML, no `<`, `>` or quote, and each of its `&` begins an entity.
pub fn escaped_is_plain()
    ensures plain { (cs : List ℕ) → list_all is_plain_character (escaped_text cs) ≡ true }
    ensures entities { (cs : List ℕ) → EntitiesBegin (escaped_text cs) }
{}
