//! Text within XML.

ghost use Rattle.std.specs.Prelude.{◌≡◌, ◌++◌, OnOk, codes, chars, string_bytes, encode_utf8_all, flat_map, encode_utf8};
ghost use Rattle.tuple_text.specs.Written.{WritesText};
ghost use Rattle.picture.specs.Escaping.{allowed, escaped_character, escaped_text};

use terms::NoMemory;

/// Appends the text, for a place between tags or between the quotes of an attribute. An `Err` may leave a part of it
/// after the old text.
pub fn escape(text: &str, out: &mut String) -> Result<(), NoMemory>
    ensures { WritesText result (string_bytes out.old) (encode_utf8_all (escaped_text (chars text.now)))
        (string_bytes out.new) }
{
    for character in text.chars() {
        put_character(character, out)?;
    }
    Ok(())
}

fn put_character(character: char, out: &mut String) -> Result<(), NoMemory>
    ensures { WritesText result (string_bytes out.old) (encode_utf8_all (escaped_character character))
        (string_bytes out.new) }
{
    match character {
        '&' => put_entity("&amp;", out),
        '<' => put_entity("&lt;", out),
        '>' => put_entity("&gt;", out),
        '"' => put_entity("&quot;", out),
        '\'' => put_entity("&apos;", out),
        _ => put_other(character, out),
    }
}

fn put_other(character: char, out: &mut String) -> Result<(), NoMemory>
    ensures { WritesText result (string_bytes out.old) (encode_utf8 (allowed character)) (string_bytes out.new) }
{
    Ok(out.push(allowed(character))?)
}

fn allowed(character: char) -> char
    ensures { result ≡ allowed character }
{
    match character {
        '\t' | '\n' | '\r' | ' '..='\u{fffd}' | '\u{10000}'..='\u{10ffff}' => character,
        _ => '\u{fffd}',
    }
}

fn put_entity(entity: &str, out: &mut String) -> Result<(), NoMemory>
    ensures { WritesText result (string_bytes out.old) entity.now (string_bytes out.new) }
{
    Ok(out.push_str(entity)?)
}
