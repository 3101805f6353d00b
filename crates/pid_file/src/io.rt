//! Readers and writers that keep their faults.
ghost use Rattle.std.specs.Prelude.{
  ◌≡◌,
  ℕ,
  ◌+◌,
  ◌-◌,
  ◌^◌,
  ◌<◌,
  ◌≤◌,
  min,
  length,
  List,
  Option,
  None,
  Some,
  IfOk,
  IfSome,
  MatchResult,
};
ghost use Rattle.std.specs.Io.KnownBytes.{ReadConsumes, WriteAppends};

/// A read failed.
#[derive(Clone, Copy)]
pub enum ReadFault {
    /// The reader failed.
    Device,
}

/// A write failed, or took no byte.
#[derive(Clone, Copy, Debug)]
pub enum WriteFault {
    /// The writer failed.
    Device,
    /// The writer took no byte.
    Zero,
}

impl WriteFault {
    ghost use Rattle.pid_file.specs.Sending.{write_fault_number};

    /// 1 `Device` or 2 `Zero`.
    pub fn number(self) -> u8
        ensures { result ≡ write_fault_number self }
    {
        match self {
            WriteFault::Device => 1,
            WriteFault::Zero => 2,
        }
    }
}

/// A reader.
pub trait Input {
    ghost use Rattle.pid_file.specs.declared.io.ReadFault.{ReadFault};

    /// The bytes to come, if they are known.
    ghost to_come: { Self → Option (List ℕ) };

    /// The fault that is kept.
    ghost read_fault: { Self → Option ReadFault };

    /// How many reads were made, up to the greatest count.
    ghost reads: { Self → ℕ };

    /// What calls of `read`, however many, may make of a reader: the reader before them, and the
    /// reader after.
    ///
    /// Each function that takes `&mut I` for any reader `I` ensures `I.goes` of what it got and
    /// what it leaves. So a caller who lends a reader of a kind that it knows learns what it gets
    /// back: a reader of at most some bytes of another one, for instance, is still over that other
    /// one, and used no more of it than it may.
    ghost goes: { Self → Self → Type 0 };

    /// Reads some bytes. None into a buffer with room is the end. A fault is kept: each later call
    /// fails with it again.
    fn read(&mut self, buffer: &mut [u8]) -> Result<usize, ReadFault>
        ensures room { IfOk result (λ n. n ≤ length buffer.new) }
        ensures bytes { ReadConsumes (to_come self.old) (to_come self.new) result buffer.new }
        ensures fault { MatchResult result (λ _. read_fault self.new ≡ None)
            (λ f. read_fault self.new ≡ Some f) }
        ensures kept { IfSome (read_fault self.old) (λ f. result ≡ Err f) }
        ensures count { reads self.new ≡ min (reads self.old + 1) (2 ^ 64 - 1) }
        ensures goes { goes self.old self.new };

    /// No call leaves the reader as it is.
    ghost stays: { (a : Self) → goes a a };

    /// Some calls and then others are calls.
    ghost joins: { (a b c : Self) → goes a b → goes b c → goes a c };
}

/// A writer.
pub trait Output {
    ghost use Rattle.pid_file.specs.declared.io.WriteFault.{WriteFault};

    /// The bytes taken, if they are known.
    ghost taken: { Self → Option (List ℕ) };

    /// The fault that is kept.
    ghost write_fault: { Self → Option WriteFault };

    /// Takes some of the bytes, at least one if there are any. A fault is kept: each later call
    /// fails with it again.
    fn write(&mut self, bytes: &[u8]) -> Result<usize, WriteFault>
        ensures room { IfOk result (λ n. n ≤ length bytes.now) }
        ensures some { IfOk result (λ n. 0 < length bytes.now → 0 < n) }
        ensures bytes { WriteAppends (taken self.old) (taken self.new) result bytes.now }
        ensures fault { MatchResult result (λ _. write_fault self.new ≡ None)
            (λ f. write_fault self.new ≡ Some f) }
        ensures kept { IfSome (write_fault self.old) (λ f. result ≡ Err f) };
}
