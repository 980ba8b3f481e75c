//! Codes for tests.

use hex::FromHex;

// Whether these digits spell the code.
pub fn is_code(code: [u8; 32], digits: &str) -> bool {
    <[u8; 32]>::from_hex(digits).ok() == Some(code)
}
