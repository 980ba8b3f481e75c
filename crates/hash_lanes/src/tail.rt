//! The end of a padded text (FIPS 180-4, section 5.1.1).

ghost use Rattle.std.specs.Prelude.{◌≡◌, ◌+◌, ◌-◌, ◌%◌, ◌≤◌, ◌<◌, ◌++◌, ◌∷◌, length, replicate, take};
ghost use Rattle.std.specs.Int.{w64, to_be_bytes};
ghost use Rattle.hash_lanes.specs.Tails.{padded_tail, tail_length};

// A bit 1, and zeros.
const PADDING: [u8; 64] = [
    0x80, 0, 0, 0, 0, 0, 0, 0, 0, 0, 0, 0, 0, 0, 0, 0, 0, 0, 0, 0, 0, 0, 0, 0, 0, 0, 0, 0, 0, 0, 0,
    0, 0, 0, 0, 0, 0, 0, 0, 0, 0, 0, 0, 0, 0, 0, 0, 0, 0, 0, 0, 0, 0, 0, 0, 0, 0, 0, 0, 0, 0, 0, 0,
    0,
];

/// The last block of a padded text of fewer than 56 bytes behind whole blocks. `bits` is the length of all, in bits.
pub(crate) fn padded_block(text: &[u8], bits: u64) -> [u8; 64]
    requires { length text.now < 56 }
    ensures { result ≡ padded_tail text.now bits }
{
    let mut block = [0; 64];
    block[..text.len()].copy_from_slice(text);
    block[text.len()] = 0x80;
    block[56..].copy_from_slice(&bits.to_be_bytes());
    block
}

/// The last block of a padded text, or the last two: what follows the text's whole blocks. With it come its length, 64
/// or 128, and what is past that counts for nothing. `bits` is the length of the whole text, in bits.
pub(crate) fn padded(rest: &[u8], bits: u64) -> ([u8; 128], usize)
    requires { length rest.now < 64 }
    ensures length { result.1 ≡ tail_length (length rest.now) }
    ensures room { length result.0 ≡ 128 }
    ensures tail { take result.1 result.0 ≡ padded_tail rest.now bits }
{
    let mut bytes = [0; 128];
    let end = rest.len() + 1 + (119 - rest.len()) % 64;
    bytes[..rest.len()].copy_from_slice(rest);
    bytes[rest.len()..end].copy_from_slice(&PADDING[..end - rest.len()]);
    bytes[end..end + 8].copy_from_slice(&bits.to_be_bytes());
    (bytes, end + 8)
}
