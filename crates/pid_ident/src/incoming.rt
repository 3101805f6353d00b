//! What is read, over the writer of the replies to it.
ghost use Rattle.std.specs.Prelude.{
  ◌≡◌,
  ◌+◌,
  ◌-◌,
  ◌^◌,
  ◌≤◌,
  min,
  length,
  Some,
  Err,
  IfOk,
  IfSome,
  MatchResult,
};
ghost use Rattle.std.specs.Io.KnownBytes.{ReadConsumes};
ghost use Rattle.pid_ident.specs.Steps.Moments.{IsNoted};

use pid_file::{Input, Output, ReadFault};

/// A reader that is shown the writer of the replies to what it gives, each time that it is read.
///
/// So one that keeps account of these moments records when replies go out. Each `Input` is one that
/// keeps none.
pub trait Incoming<W: Output> {
    ghost use Rattle.std.specs.Prelude.{ℕ, List, Option, None};
    ghost use Rattle.pid_file.specs.declared.io.ReadFault.{ReadFault};
    ghost use Rattle.pid_ident.specs.Moments.{Moment};

    /// The bytes to come, if they are known.
    ghost to_come: { Self → Option (List ℕ) };

    /// The fault that is kept.
    ghost read_fault: { Self → Option ReadFault };

    /// How many reads were made, up to the greatest count.
    ghost reads: { Self → ℕ };

    /// What reads, however many, may make of it: before them and after.
    ghost goes: { Self → Self → Type 0 };

    /// The moments at which it was read, in order, one for each read, if it keeps account of them.
    ghost moments: { Self → Option (List Moment) } = { λ _. None };

    /// Reads some bytes, after what the writer has taken. None into a buffer with room is the end.
    fn read_after(&mut self, output: &W, buffer: &mut [u8]) -> Result<usize, ReadFault>
        ensures room { IfOk result (λ n. n ≤ length buffer.new) }
        ensures bytes { ReadConsumes (to_come self.old) (to_come self.new) result buffer.new }
        ensures fault { MatchResult result (λ _. read_fault self.new ≡ None)
            (λ f. read_fault self.new ≡ Some f) }
        ensures kept { IfSome (read_fault self.old) (λ f. result ≡ Err f) }
        ensures count { reads self.new ≡ min (reads self.old + 1) (2 ^ 64 - 1) }
        ensures goes { goes self.old self.new }
        ensures noted { IsNoted (to_come self.old) (W.taken output.now)
            (moments self.old) (moments self.new) };

    /// No read leaves it as it is.
    ghost stays: { (a : Self) → goes a a };

    /// Some reads and then others are reads.
    ghost joins: { (a b c : Self) → goes a b → goes b c → goes a c };
}

impl<I: Input, W: Output> Incoming<W> for I {
    ghost to_come = { λ i. I.to_come i };

    ghost read_fault = { λ i. I.read_fault i };

    ghost reads = { λ i. I.reads i };

    ghost goes = { λ a b. I.goes a b };

    ghost stays = { λ a. I.stays a };

    ghost joins = { λ a b c p q. I.joins a b c p q };

    fn read_after(&mut self, _output: &W, buffer: &mut [u8]) -> Result<usize, ReadFault> {
        self.read(buffer)
    }
}
