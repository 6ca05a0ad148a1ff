//! An explanation: a text in one line, without characters that command a terminal or hide.
ghost use Rattle.std.specs.Prelude.{◌≡◌, true};
ghost use Rattle.std.specs.List.{list_all};
ghost use Rattle.rrd_explain.specs.Lines.{is_in_line};

use std::alloc::{AllocError, Global};

/// A text in one line, in UTF-8.
///
/// Control characters, and characters that a reader cannot see or that turn the direction of a text, are escaped as in
/// Rust: `\n`, `\u{202e}`.
#[derive(Drop)]
pub struct Explanation {
    bytes: Vec<u8>,
    ghost in_line: { list_all is_in_line bytes.items ≡ true },
}

// Checks whether a byte belongs into a line: it is no control character of ASCII.
fn is_in_line(byte: u8) -> bool
    ensures { result ≡ is_in_line byte }
{
    b' ' <= byte && byte != 0x7f
}

// Checks whether a character is shown as its code: a control character, or one that Unicode shows as nothing
// (Default_Ignorable_Code_Point), or that joins, separates or turns others.
fn is_hidden(character: char) -> bool {
    character.is_control()
        || matches!(
            character as u32,
            0xad | 0x34f
                | 0x61c
                | 0x115f..=0x1160
                | 0x17b4..=0x17b5
                | 0x180b..=0x180f
                | 0x200b..=0x200f
                | 0x2028..=0x202e
                | 0x2060..=0x206f
                | 0x3164
                | 0xfe00..=0xfe0f
                | 0xfeff
                | 0xffa0
                | 0xfff0..=0xfffb
                | 0x1bca0..=0x1bca3
                | 0x1d173..=0x1d17a
                | 0xe0000..=0xe0fff
        )
}

impl Explanation {
    /// Creates an explanation from a text, which may have any characters.
    ///
    /// # Errors
    /// `AllocError` if memory runs out.
    pub fn new(alloc: Global, text: &str) -> Result<Explanation, AllocError> {
        let mut explanation = Explanation {
            bytes: Vec::new(alloc),
        };
        for character in text.chars() {
            explanation.push(character)?;
        }
        Ok(explanation)
    }

    /// Returns the bytes: no line feed, and no other control character of ASCII.
    pub fn as_bytes(&self) -> &[u8]
        ensures { list_all is_in_line result.now ≡ true }
    {
        &self.bytes
    }

    // Adds a character, or its code.
    fn push(&mut self, character: char) -> Result<(), AllocError> {
        match character {
            '\n' => self.push_bytes(b"\\n"),
            '\r' => self.push_bytes(b"\\r"),
            '\t' => self.push_bytes(b"\\t"),
            other if is_hidden(other) => self.push_code(other),
            other => self.push_plain(other),
        }
    }

    // Adds the code of a character.
    fn push_code(&mut self, character: char) -> Result<(), AllocError> {
        for part in character.escape_unicode() {
            self.push_plain(part)?;
        }
        Ok(())
    }

    // Adds a character as it is.
    fn push_plain(&mut self, character: char) -> Result<(), AllocError> {
        let mut buffer = [0; 4];
        self.push_bytes(character.encode_utf8(&mut buffer).as_bytes())
    }

    // Adds the bytes of a character.
    fn push_bytes(&mut self, bytes: &[u8]) -> Result<(), AllocError> {
        for byte in bytes {
            self.push_byte(*byte)?;
        }
        Ok(())
    }

    // Adds a byte, unless it is a control character.
    fn push_byte(&mut self, byte: u8) -> Result<(), AllocError> {
        if is_in_line(byte) {
            self.bytes.push(byte)?;
        }
        Ok(())
    }
}
