//! How a line or a file begins.

use std::io;
use std::io::Read;

/// How many bytes are kept. No line is longer that is looked at.
const KEPT: usize = 80;

/// The first bytes of a line or of a file.
#[derive(Clone, Copy)]
pub struct Prefix {
    bytes: [u8; KEPT],
    length: usize,
}

impl Prefix {
    /// That of a line without bytes.
    pub fn new() -> Prefix {
        Prefix {
            bytes: [0; KEPT],
            length: 0,
        }
    }

    /// Reads that of a file.
    pub fn read<R: Read>(file: &mut R) -> io::Result<Prefix> {
        let mut bytes = [0; KEPT];
        let length = file.read(&mut bytes)?;
        Ok(Prefix { bytes, length })
    }

    /// Adds a byte, if there is room for it.
    pub fn push(&mut self, byte: u8) {
        if self.length < KEPT {
            self.bytes[self.length] = byte;
            self.length += 1;
        }
    }

    pub fn as_bytes(&self) -> &[u8] {
        self.bytes.get(..self.length).unwrap_or(&[])
    }

    /// The bytes as a text, if they are one.
    pub fn as_str(&self) -> &str {
        str::from_utf8(self.as_bytes()).unwrap_or("")
    }
}
