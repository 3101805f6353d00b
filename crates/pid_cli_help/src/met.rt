//! What the standard streams of a run met.
ghost use Rattle.std.specs.Prelude.{◌≡◌};
ghost use Rattle.std.specs.Io.{ReadsAtMost, WritesAtMost};
ghost use Rattle.std.specs.Io.KnownBytes.{Keeps, ReadConsumes, WriteAppends};

use crate::file_looks::looks_of;
use std::io;
use std::io::{ErrorKind, Read, Write};

/// What a stream met: what its first bytes look like, and why it failed last.
#[derive(Clone, Copy)]
pub struct Met {
    pub looks: Option<&'static str>,
    pub fault: Option<ErrorKind>,
    has_begun: bool,
}

impl Met {
    /// Nothing yet.
    pub fn new() -> Met {
        Met {
            looks: None,
            fault: None,
            has_begun: false,
        }
    }

    fn begin(&mut self, bytes: &[u8]) {
        if !self.has_begun && !bytes.is_empty() {
            self.looks = looks_of(bytes);
            self.has_begun = true;
        }
    }
}

/// A reader or a writer, which reads and writes what the inner one does. What that meets is noted.
#[derive(Drop)]
pub struct Noted<'m, T> {
    inner: T,
    met: &'m mut Met,
}

impl<'m, T> Noted<'m, T> {
    /// The reader or the writer, and where to note what it meets.
    pub fn new(inner: T, met: &'m mut Met) -> Noted<'m, T>
        ensures { result.inner ≡ inner }
    {
        Noted { inner, met }
    }
}

impl<R: Read> Read for Noted<'_, R> {
    ghost remaining = { λ noted. R.remaining noted.inner };

    fn read(&mut self, buffer: &mut [u8]) -> io::Result<usize>
        ensures bound { ReadsAtMost result buffer.new }
        ensures bytes { ReadConsumes (R.remaining self.old.inner)
            (R.remaining self.new.inner) result buffer.new }
    {
        let read = self.inner.read(buffer);
        match &read {
            Ok(count) => self.met.begin(&buffer[..*count]),
            Err(error) => self.met.fault = Some(error.kind()),
        }
        read
    }
}

impl<W: Write> Write for Noted<'_, W> {
    ghost contents = { λ noted. W.contents noted.inner };

    fn write(&mut self, bytes: &[u8]) -> io::Result<usize>
        ensures bound { WritesAtMost result bytes.now }
        ensures bytes { WriteAppends (W.contents self.old.inner)
            (W.contents self.new.inner) result bytes.now }
    {
        let written = self.inner.write(bytes);
        if let Err(error) = &written {
            self.met.fault = Some(error.kind());
        }
        written
    }

    fn flush(&mut self) -> io::Result<()>
        ensures bytes { Keeps (W.contents self.old.inner) (W.contents self.new.inner) }
    {
        let flushed = self.inner.flush();
        if let Err(error) = &flushed {
            self.met.fault = Some(error.kind());
        }
        flushed
    }
}
