//! Lines and columns of a source.

/// A line and a column, both from 1. A column counts characters.
#[derive(Debug, Drop)]
pub(crate) struct Position {
    pub(crate) line: u64,
    pub(crate) column: u64,
}

/// Whether a byte stands within a character and does not begin it.
fn is_inner(byte: u8) -> bool {
    (0x80..0xC0).contains(&byte)
}

impl Position {
    /// The place of the byte at an offset, or behind the last byte.
    pub(crate) fn of(source: &[u8], at: u64) -> Position {
        let mut position = Position { line: 1, column: 1 };
        for byte in source.iter().take(at as usize) {
            position.pass(*byte);
        }
        position
    }

    /// Goes on behind a byte.
    fn pass(&mut self, byte: u8) {
        if byte == b'\n' {
            self.line = self.line.saturating_add(1);
            self.column = 1;
        } else if !is_inner(byte) {
            self.column = self.column.saturating_add(1);
        }
    }
}
