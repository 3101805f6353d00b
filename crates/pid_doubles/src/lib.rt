//! A reader and a writer over memory that fail where a test wants it.
#![tactic(auto)]

ghost use Rattle.std.specs.Prelude.{
  ◌≡◌,
  ◌↔◌,
  ℕ,
  ◌+◌,
  ◌-◌,
  ◌^◌,
  ◌<◌,
  ◌≤◌,
  min,
  max,
  length,
  [],
  true,
  false,
  IsTrue,
};
ghost use Rattle.std.specs.Prelude.{None, Some, Err, IfOk, IfErr, IfSome, MatchResult, is_err};
ghost use Rattle.std.specs.Io.KnownBytes.{ReadConsumes, WriteAppends};
ghost use Rattle.pid_doubles.specs.Doubles.{ReadsAsMade, WritesAsMade, made, one_less};
ghost use Rattle.pid_file.specs.Steps.InputCalls.{HasReadOn, HasNoMore};

use pid_file::{Input, Output, ReadFault, WriteFault};
use std::alloc::Global;

/// A reader of given bytes, for tests: each call moves at most some bytes, and from one call on
/// each fails.
#[derive(Drop)]
pub struct FaultyInput<'a> {
    /// The bytes to come.
    pub rest: &'a [u8],
    /// The most bytes that a call returns, at least one.
    pub most: usize,
    /// How many calls are still good; `None` if none fails.
    pub good_calls: Option<u64>,
    /// The fault that is kept.
    pub fault: Option<ReadFault>,
    /// How many reads were made.
    pub reads: u64,
    ghost moves: { 0 < most },
}

impl<'a> FaultyInput<'a> {
    /// A reader of the bytes that returns at most `most` of them a call, and at least one.
    pub fn new(bytes: &'a [u8], most: usize) -> FaultyInput<'a>
        ensures rest { result.rest.now ≡ bytes.now }
        ensures most { result.most ≡ max most 1 }
        ensures good { result.good_calls ≡ None }
        ensures no_fault { result.fault ≡ None }
        ensures no_reads { result.reads ≡ 0 }
    {
        FaultyInput {
            rest: bytes,
            most: most.max(1),
            good_calls: None,
            fault: None,
            reads: 0,
        }
    }

    /// The reader, failing after so many reads.
    pub fn failing_after(mut self, reads: u64) -> FaultyInput<'a>
        ensures rest { result.rest.now ≡ self.entry.rest.now }
        ensures most { result.most ≡ self.entry.most }
        ensures good { result.good_calls ≡ Some reads }
        ensures same_fault { result.fault ≡ self.entry.fault }
        ensures same_reads { result.reads ≡ self.entry.reads }
    {
        self.good_calls = Some(reads);
        self
    }
}

impl Input for FaultyInput<'_> {
    ghost use Rattle.std.proofs.Common.{refl, ◌∙◌};
    ghost use Rattle.pid_file.specs.Steps.ReadingLaws.{
      no_reads,
      more_reads,
      no_more_stays,
      no_more_then,
    };

    ghost to_come = { λ i. Some i.rest.now };

    ghost read_fault = { λ i. i.fault };

    ghost reads = { λ i. i.reads };

    // It is made to fail as before, or sooner.
    ghost goes = { λ a b. HasReadOn (Some a.rest.now)
        (Some b.rest.now) a.fault b.fault a.reads b.reads × (b.most ≡ a.most)
        × HasNoMore a.good_calls b.good_calls };

    ghost stays = { λ a.
        (no_reads (Some a.rest.now) a.fault a.reads, refl, no_more_stays a.good_calls) };

    ghost joins = { λ a b c p q. (
      more_reads _
          (Some b.rest.now) _ _ b.fault _ _ b.reads _ p.0 q.0,
      q.1 ∙ p.1,
      no_more_then a.good_calls b.good_calls c.good_calls p.2 q.2,
    ) };

    fn read(&mut self, buffer: &mut [u8]) -> Result<usize, ReadFault>
        ensures room { IfOk result (λ n. n ≤ length buffer.new) }
        ensures bytes { ReadConsumes (Some self.old.rest.now)
            (Some self.new.rest.now) result buffer.new }
        ensures fault { MatchResult result (λ _. self.new.fault ≡ None)
            (λ f. self.new.fault ≡ Some f) }
        ensures kept { IfSome self.old.fault (λ f. result ≡ Err f) }
        ensures count { self.new.reads ≡ min (self.old.reads + 1) (2 ^ 64 - 1) }
        ensures goes { HasReadOn (Some self.old.rest.now)
            (Some self.new.rest.now) self.old.fault self.new.fault self.old.reads self.new.reads
            × (self.new.most ≡ self.old.most)
            × HasNoMore self.old.good_calls self.new.good_calls }
        ensures as_made { ReadsAsMade (made self.old.fault self.old.good_calls self.old.most)
            (made self.new.fault self.new.good_calls self.new.most) result
            (length buffer.new) (length self.old.rest.now) }
    {
        self.reads = self.reads.saturating_add(1);
        if let Some(fault) = self.fault {
            return Err(fault);
        }
        if is_spent(&mut self.good_calls) {
            self.fault = Some(ReadFault::Device);
            return Err(ReadFault::Device);
        }
        let count = self.most.min(buffer.len()).min(self.rest.len());
        let (front, behind) = self.rest.split_at(count);
        buffer[..count].copy_from_slice(front);
        self.rest = behind;
        Ok(count)
    }
}

// Whether no good call is left; else there is one less.
fn is_spent(good_calls: &mut Option<u64>) -> bool
    ensures spent { IsTrue result ↔ (good_calls.old ≡ Some 0) }
    ensures left { good_calls.new ≡ one_less good_calls.old }
{
    match *good_calls {
        None => false,
        Some(0) => true,
        Some(calls) => {
            *good_calls = Some(calls - 1);
            false
        }
    }
}

/// A writer that keeps what it takes, for tests: each call takes at most some bytes, and from one
/// call on each fails. If it has no memory for the bytes, that is the fault `Device`.
#[derive(Drop)]
pub struct FaultyOutput {
    /// The bytes that were taken.
    pub taken: Vec<u8>,
    /// The most bytes that a call takes, at least one.
    pub most: usize,
    /// How many calls are still good; `None` if none fails.
    pub good_calls: Option<u64>,
    /// What the first bad call fails with.
    pub last_fault: WriteFault,
    /// The fault that is kept.
    pub fault: Option<WriteFault>,
    ghost moves: { 0 < most },
}

impl FaultyOutput {
    /// A writer that takes at most `most` bytes a call, and at least one.
    pub fn new(alloc: Global, most: usize) -> FaultyOutput
        ensures taken { result.taken.items ≡ [] }
        ensures most { result.most ≡ max most 1 }
        ensures good { result.good_calls ≡ None }
        ensures to_come { result.last_fault ≡ WriteFault.Device }
        ensures no_fault { result.fault ≡ None }
    {
        FaultyOutput {
            taken: Vec::new(alloc),
            most: most.max(1),
            good_calls: None,
            last_fault: WriteFault::Device,
            fault: None,
        }
    }

    /// The writer, failing with the fault after so many writes.
    pub fn failing_after(mut self, writes: u64, fault: WriteFault) -> FaultyOutput
        ensures taken { result.taken.items ≡ self.taken.items }
        ensures most { result.most ≡ self.most }
        ensures good { result.good_calls ≡ Some writes }
        ensures to_come { result.last_fault ≡ fault }
        ensures same_fault { result.fault ≡ self.fault }
    {
        self.good_calls = Some(writes);
        self.last_fault = fault;
        self
    }
}

impl Output for FaultyOutput {
    ghost taken = { λ o. Some o.taken.items };

    ghost write_fault = { λ o. o.fault };

    fn write(&mut self, bytes: &[u8]) -> Result<usize, WriteFault>
        ensures room { IfOk result (λ n. n ≤ length bytes.now) }
        ensures some { IfOk result (λ n. 0 < length bytes.now → 0 < n) }
        ensures bytes { WriteAppends (Some self.old.taken.items)
            (Some self.new.taken.items) result bytes.now }
        ensures fault { MatchResult result (λ _. self.new.fault ≡ None)
            (λ f. self.new.fault ≡ Some f) }
        ensures kept { IfSome self.old.fault (λ f. result ≡ Err f) }
        ensures as_made { WritesAsMade (made self.old.fault self.old.good_calls self.old.most)
            (made self.new.fault self.new.good_calls self.new.most) result
            self.old.last_fault (length bytes.now) }
        ensures same { self.new.last_fault ≡ self.old.last_fault }
    {
        if let Some(fault) = self.fault {
            return Err(fault);
        }
        if is_spent(&mut self.good_calls) {
            self.fault = Some(self.last_fault);
            return Err(self.last_fault);
        }
        let (front, _) = bytes.split_at(self.most.min(bytes.len()));
        if self.taken.extend_from_slice(front).is_err() {
            self.fault = Some(WriteFault::Device);
            return Err(WriteFault::Device);
        }
        Ok(front.len())
    }
}
