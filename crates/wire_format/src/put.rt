//! Numbers, digests and other parts of bodies, appended to bytes.

ghost use Rattle.std.specs.Prelude.{◌∷◌, [], ◌<◌, ◌^◌, length};
ghost use Rattle.std.specs.Int.{w16, w32, w64, to_be_bytes};
ghost use Rattle.wire_format.specs.Lists.{each_spelling};
ghost use Rattle.wire_format.specs.Spelling.{mode_byte, level_byte, piece};
ghost use Rattle.wire_format.specs.Appends.{Appends};

use terms::{Digest, Level, Mode, NoMemory};

/// Appends the number in two bytes, the highest first.
pub fn put_u16(number: u16, out: &mut Vec<u8>) -> Result<(), NoMemory>
    ensures { Appends (to_be_bytes w16 number) out.old out.new result }
{
    Ok(out.extend_from_slice(&number.to_be_bytes())?)
}

/// Appends the number in eight bytes, the highest first.
pub fn put_u64(number: u64, out: &mut Vec<u8>) -> Result<(), NoMemory>
    ensures { Appends (to_be_bytes w64 number) out.old out.new result }
{
    Ok(out.extend_from_slice(&number.to_be_bytes())?)
}

/// Appends the byte of the mode.
pub fn put_mode(mode: Mode, out: &mut Vec<u8>) -> Result<(), NoMemory>
    ensures { Appends (mode_byte mode ∷ []) out.old out.new result }
{
    let byte = match mode {
        Mode::Ordered => 0,
        Mode::ReadOnly => 1,
    };
    Ok(out.push(byte)?)
}

/// Appends the byte of the level.
pub fn put_level(level: Level, out: &mut Vec<u8>) -> Result<(), NoMemory>
    ensures { Appends (level_byte level ∷ []) out.old out.new result }
{
    let byte = match level {
        Level::Root => 0,
        Level::Inner => 1,
        Level::Page => 2,
    };
    Ok(out.push(byte)?)
}

/// Appends the length of the bytes, and then the bytes.
pub fn put_piece(bytes: &[u8], out: &mut Vec<u8>) -> Result<(), NoMemory>
    requires { length bytes.now < 2 ^ 32 }
    ensures { Appends (piece bytes.now) out.old out.new result }
{
    let len = bytes.len() as u32;
    out.extend_from_slice(&len.to_be_bytes())?;
    Ok(out.extend_from_slice(bytes)?)
}

/// Appends the digests one after another, without a count.
pub fn put_digests(digests: &[Digest], out: &mut Vec<u8>) -> Result<(), NoMemory>
    ensures { Appends (each_spelling (λ d. d) digests.now) out.old out.new result }
{
    for digest in digests {
        out.extend_from_slice(digest)?;
    }
    Ok(())
}
