//! Readers and writers of std as an `Input` and an `Output`.
ghost use Rattle.std.specs.Prelude.{◌≡◌, ◌≢◌, ◌<◌, ◌≤◌, None, Some, Ok, Err, IfOk, IfErr, length};
ghost use Rattle.std.specs.Io.KnownBytes.{ReadConsumes, WriteAppends};
ghost use Rattle.std.specs.IoError.{error_kind};
ghost use Rattle.pid_file.specs.Steps.Wrapping.{
  wrapped,
  kept_read_fault,
  kept_write_fault,
  count_of_reads,
};

use crate::io::{Input, Output, ReadFault, WriteFault};
use std::io;
use std::io::{ErrorKind, Read, Write};

/// A reader or a writer of std, with the fault that it had.
///
/// A call that a signal interrupts is made again, and counts as one. Every other error is the fault
/// `Device`, and a write that takes none of some bytes is the fault `Zero`.
#[derive(Drop)]
pub struct Plain<T> {
    inner: T,
    reads: u64,
    read_fault: Option<ReadFault>,
    write_fault: Option<WriteFault>,
}

impl<T> Plain<T> {
    /// The reader or the writer, with no fault kept and no read counted.
    pub fn new(inner: T) -> Plain<T>
        ensures wraps { wrapped result ≡ inner }
        ensures no_read_fault { kept_read_fault result ≡ None }
        ensures no_write_fault { kept_write_fault result ≡ None }
        ensures no_reads { count_of_reads result ≡ 0 }
    {
        Plain {
            inner,
            reads: 0,
            read_fault: None,
            write_fault: None,
        }
    }

    /// The reader or the writer itself.
    pub fn into_inner(self) -> T
        ensures { result ≡ wrapped self }
    {
        self.inner
    }
}

// What a read of std is here; none if a signal interrupted it, so that it is made again.
fn read_said(read: io::Result<usize>) -> Option<Result<usize, ReadFault>>
    ensures good { IfOk read (λ n. result ≡ Some (Ok n)) }
    ensures again { IfErr read (λ e. error_kind e ≡ ErrorKind.Interrupted → result ≡ None) }
    ensures fault { IfErr read (λ e. error_kind e ≢ ErrorKind.Interrupted
        → result ≡ Some (Err ReadFault.Device)) }
{
    match read {
        Ok(count) => Some(Ok(count)),
        Err(error) if error.kind() == ErrorKind::Interrupted => None,
        Err(_) => Some(Err(ReadFault::Device)),
    }
}

// What a write of std is here, of so many bytes; none if a signal interrupted it, so that it is
// made again.
fn write_said(written: io::Result<usize>, bytes: usize) -> Option<Result<usize, WriteFault>>
    ensures good { IfOk written (λ n. (n ≡ 0 → bytes ≡ 0) → result ≡ Some (Ok n)) }
    ensures zero { IfOk written (λ n. n ≡ 0 → bytes ≢ 0 → result ≡ Some (Err WriteFault.Zero)) }
    ensures again { IfErr written (λ e. error_kind e ≡ ErrorKind.Interrupted → result ≡ None) }
    ensures fault { IfErr written (λ e. error_kind e ≢ ErrorKind.Interrupted
        → result ≡ Some (Err WriteFault.Device)) }
{
    match written {
        Ok(0) if bytes != 0 => Some(Err(WriteFault::Zero)),
        Ok(count) => Some(Ok(count)),
        Err(error) if error.kind() == ErrorKind::Interrupted => None,
        Err(_) => Some(Err(WriteFault::Device)),
    }
}

// What one read returns that no signal interrupts.
fn read_once<R: Read>(reader: &mut R, buffer: &mut [u8]) -> Result<usize, ReadFault>
    ensures room { IfOk result (λ n. n ≤ length buffer.new) }
    ensures bytes { ReadConsumes (R.remaining reader.old)
        (R.remaining reader.new) result buffer.new }
{
    for _ in 0..u64::MAX {
        if let Some(said) = read_said(reader.read(buffer)) {
            return said;
        }
    }
    Err(ReadFault::Device)
}

// What one write takes that no signal interrupts.
fn write_once<W: Write>(writer: &mut W, bytes: &[u8]) -> Result<usize, WriteFault>
    ensures room { IfOk result (λ n. n ≤ length bytes.now) }
    ensures some { IfOk result (λ n. 0 < length bytes.now → 0 < n) }
    ensures bytes { WriteAppends (W.contents writer.old) (W.contents writer.new) result bytes.now }
{
    for _ in 0..u64::MAX {
        if let Some(said) = write_said(writer.write(bytes), bytes.len()) {
            return said;
        }
    }
    Err(WriteFault::Device)
}

impl<R: Read> Input for Plain<R> {
    ghost use Rattle.std.proofs.Common.{refl, ◌∙◌};
    ghost use Rattle.pid_file.specs.Steps.ReadingLaws.{no_reads, more_reads};
    ghost use Rattle.pid_file.specs.Steps.Wrapping.{GoesOn};

    ghost to_come = { λ p. R.remaining (wrapped p) };

    ghost read_fault = { λ p. kept_read_fault p };

    ghost reads = { λ p. count_of_reads p };

    // Reads leave what was written as it is.
    ghost goes = { λ a b. GoesOn (R.remaining (wrapped a)) (R.remaining (wrapped b)) a b };

    ghost stays = { λ a. (
      no_reads (R.remaining (wrapped a)) (kept_read_fault a)
          (count_of_reads a),
      refl,
    ) };

    ghost joins = { λ a b c p q. (
      more_reads _ (R.remaining (wrapped b)) _ _ (kept_read_fault b) _ _
          (count_of_reads b) _ p.0 q.0,
      q.1 ∙ p.1,
    ) };

    fn read(&mut self, buffer: &mut [u8]) -> Result<usize, ReadFault> {
        self.reads = self.reads.saturating_add(1);
        if let Some(fault) = self.read_fault {
            return Err(fault);
        }
        let said = read_once(&mut self.inner, buffer);
        if let Err(fault) = said {
            self.read_fault = Some(fault);
        }
        said
    }
}

impl<W: Write> Output for Plain<W> {
    ghost taken = { λ p. W.contents (wrapped p) };

    ghost write_fault = { λ p. kept_write_fault p };

    fn write(&mut self, bytes: &[u8]) -> Result<usize, WriteFault> {
        if let Some(fault) = self.write_fault {
            return Err(fault);
        }
        let said = write_once(&mut self.inner, bytes);
        if let Err(fault) = said {
            self.write_fault = Some(fault);
        }
        said
    }
}
