//! The two sides of a connection: a reader that first sends what the writer holds back.
ghost use Rattle.std.specs.Io.{ReadsAtMost};
ghost use Rattle.std.specs.Io.Buffered.{reader_remaining};
ghost use Rattle.std.specs.Io.KnownBytes.{ReadConsumes};

use std::cell::RefCell;
use std::io;
use std::io::{BufReader, BufWriter, ErrorKind, Read, Write};

/// Sends what a writer holds back.
pub(crate) fn send_held<W: Write + Drop>(writer: &RefCell<BufWriter<W>>) -> io::Result<()> {
    match writer.try_borrow_mut() {
        Ok(mut writer) => writer.flush(),
        Err(_) => Err(ErrorKind::ResourceBusy.into()),
    }
}

/// What a client sends. Before more of it is waited for, all replies to what it sent so far are
/// sent; if that fails no more is read.
#[derive(Drop)]
pub(crate) struct Requests<'w, R: Drop, W: Write + Drop> {
    pub(crate) reader: BufReader<R>,
    pub(crate) writer: &'w RefCell<BufWriter<W>>,
}

impl<R: Read + Drop, W: Write + Drop> Read for Requests<'_, R, W> {
    ghost remaining = { λ r. reader_remaining R.remaining r.reader };

    fn read(&mut self, buffer: &mut [u8]) -> io::Result<usize>
        ensures bound { ReadsAtMost result buffer.new }
        ensures bytes { ReadConsumes (reader_remaining R.remaining self.old.reader)
            (reader_remaining R.remaining self.new.reader) result buffer.new }
    {
        if self.reader.buffer().is_empty() {
            send_held(self.writer)?;
        }
        self.reader.read(buffer)
    }
}

/// What is replied to it, held back until it is asked for.
#[derive(Drop)]
pub(crate) struct Replies<'w, W: Write + Drop> {
    pub(crate) writer: &'w RefCell<BufWriter<W>>,
}

impl<W: Write + Drop> Write for Replies<'_, W> {
    fn write(&mut self, bytes: &[u8]) -> io::Result<usize> {
        match self.writer.try_borrow_mut() {
            Ok(mut writer) => writer.write(bytes),
            Err(_) => Err(ErrorKind::ResourceBusy.into()),
        }
    }

    fn flush(&mut self) -> io::Result<()> {
        send_held(self.writer)
    }
}
