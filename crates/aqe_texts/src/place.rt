//! The detail that a fault line shows: a place, a name or a path.

ghost use Rattle.std.specs.Prelude.{◌<◌, length};

use crate::position::Position;
use itoa::Buffer;
use std::alloc::{AllocError, Global};

/// The digits of a byte.
const DIGITS: [u8; 16] = *b"0123456789abcdef";

/// Whether the byte at a place is a control character, or part of one that has two bytes.
fn is_control(bytes: &[u8], at: usize) -> bool
    requires { at < length bytes.now }
{
    let byte = bytes[at];
    let is_inner = (0x80..0xA0).contains(&byte);
    let is_after = at > 0 && bytes[at - 1] == 0xC2;
    let is_before = at + 1 < bytes.len() && (0x80..0xA0).contains(&bytes[at + 1]);
    byte < 0x20 || byte == 0x7F || (is_inner && is_after) || (byte == 0xC2 && is_before)
}

fn push_coded(line: &mut Vec<u8>, byte: u8) -> Result<(), AllocError> {
    line.extend_from_slice(b"\\x")?;
    line.push(DIGITS[(byte / 16) as usize])?;
    line.push(DIGITS[(byte % 16) as usize])?;
    Ok(())
}

/// Appends bytes as a terminal may show them: a backslash, a tab, a line feed and a return as a backslash and a letter,
/// and each byte of another control character as `\x` and two digits.
pub(crate) fn push_shown(line: &mut Vec<u8>, bytes: &[u8]) -> Result<(), AllocError> {
    for at in 0..bytes.len() {
        match bytes[at] {
            b'\\' => line.extend_from_slice(b"\\\\")?,
            b'\t' => line.extend_from_slice(b"\\t")?,
            b'\n' => line.extend_from_slice(b"\\n")?,
            b'\r' => line.extend_from_slice(b"\\r")?,
            byte if is_control(bytes, at) => push_coded(line, byte)?,
            byte => line.push(byte)?,
        }
    }
    Ok(())
}

/// What a fault line shows behind the kind's name, if anything.
#[derive(Debug, Drop)]
pub struct FaultPlace {
    text: Vec<u8>,
}

impl FaultPlace {
    /// Nothing.
    pub fn new(alloc: Global) -> FaultPlace {
        FaultPlace {
            text: Vec::new(alloc),
        }
    }

    /// Keeps a name or a path to be shown. Where memory is wanting the line may show less of it, or nothing.
    pub fn note(&mut self, name: &str) {
        let _ = self.text.extend_from_slice(name.as_bytes());
    }

    /// Keeps the path of a file of a folder.
    pub fn note_file(&mut self, folder: &str, file: &str) {
        self.note(folder);
        self.note("/");
        self.note(file);
    }

    /// Keeps the line and the column of an offset of the source.
    pub fn note_position(&mut self, source: &[u8], at: u64) {
        let position = Position::of(source, at);
        let _ = self.push_position(&position);
    }

    fn push_position(&mut self, position: &Position) -> Result<(), AllocError> {
        let mut digits = Buffer::new();
        self.text
            .extend_from_slice(digits.format(position.line).as_bytes())?;
        self.text.push(b':')?;
        self.text
            .extend_from_slice(digits.format(position.column).as_bytes())
    }

    /// The bytes to show.
    pub(crate) fn shown(&self) -> &[u8] {
        self.text.as_slice()
    }
}
