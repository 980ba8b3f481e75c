//! Places in a text.

/// The line and the column, both from 1, of the place after these bytes. A column counts characters.
pub(crate) fn place_after(before: &[u8]) -> (usize, usize) {
    let mut line = 1usize;
    let mut column = 1usize;
    for byte in before {
        if *byte == b'\n' {
            line = line.saturating_add(1);
            column = 1;
        } else if !is_continued(*byte) {
            column = column.saturating_add(1);
        }
    }
    (line, column)
}

// Whether a byte of UTF-8 goes on with a character.
fn is_continued(byte: u8) -> bool {
    matches!(byte, 0x80..=0xbf)
}
