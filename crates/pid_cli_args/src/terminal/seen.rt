//! Readers and writers that are looked at.
ghost use Rattle.std.specs.Prelude.{◌≡◌};

use std::io;
use std::io::{Read, Write};

/// Looks at the bytes that a reader or a writer passes on.
pub trait Looks {
    /// These were read or written by one call, none if it failed.
    fn look(&mut self, bytes: &[u8]);
}

/// A reader or a writer, which reads and writes what the inner one does.
#[derive(Drop)]
pub struct Seen<T, L> {
    inner: T,
    looks: L,
}

impl<T, L> Seen<T, L> {
    /// The reader or the writer, and what looks at it.
    pub fn new(inner: T, looks: L) -> Seen<T, L>
        ensures { result.inner ≡ inner }
    {
        Seen { inner, looks }
    }
}

impl<R: Read, L: Looks> Read for Seen<R, L> {
    ghost remaining = { λ seen. R.remaining seen.inner };

    fn read(&mut self, buffer: &mut [u8]) -> io::Result<usize> {
        let read = self.inner.read(buffer);
        let count = *read.as_ref().unwrap_or(&0);
        self.looks.look(&buffer[..count.min(buffer.len())]);
        read
    }
}

impl<W: Write, L: Looks> Write for Seen<W, L> {
    ghost contents = { λ seen. W.contents seen.inner };

    fn write(&mut self, bytes: &[u8]) -> io::Result<usize> {
        let written = self.inner.write(bytes);
        let count = *written.as_ref().unwrap_or(&0);
        self.looks.look(&bytes[..count.min(bytes.len())]);
        written
    }

    fn flush(&mut self) -> io::Result<()> {
        self.inner.flush()
    }
}
