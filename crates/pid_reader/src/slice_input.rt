//! Bytes in memory as an input.
ghost use Rattle.std.specs.Prelude.{◌≡◌, ◌+◌, ◌^◌, ◌≤◌, min, length, None, Some, IfOk, IfErr};
ghost use Rattle.std.specs.Io.KnownBytes.{ReadConsumes};
ghost use Rattle.pid_file.specs.Steps.InputCalls.{HasReadOn};
ghost use Rattle.pid_file.specs.declared.io.ReadFault.{ReadFault};

use pid_file::{Input, ReadFault};

/// Bytes in memory as an input, which never fails.
#[derive(Drop)]
pub struct SliceInput<'a> {
    /// The bytes to come.
    pub rest: &'a [u8],
    /// How many reads were made.
    pub reads: u64,
}

impl<'a> SliceInput<'a> {
    /// The bytes, all to come, with no read counted.
    pub fn new(bytes: &'a [u8]) -> SliceInput<'a>
        ensures rest { result.rest.now ≡ bytes.now }
        ensures no_reads { result.reads ≡ 0 }
    {
        SliceInput {
            rest: bytes,
            reads: 0,
        }
    }
}

impl Input for SliceInput<'_> {
    ghost use Rattle.pid_file.specs.Steps.ReadingLaws.{no_reads, more_reads};

    ghost to_come = { λ i. Some i.rest.now };

    ghost read_fault = { λ i. None };

    ghost reads = { λ i. i.reads };

    ghost goes = { λ a b. HasReadOn {F = ReadFault} (Some a.rest.now)
        (Some b.rest.now) None None a.reads b.reads };

    ghost stays = { λ a. no_reads {F = ReadFault} (Some a.rest.now) None a.reads };

    ghost joins = { λ a b c p q. more_reads {F = ReadFault} _
        (Some b.rest.now) _ None None None _ b.reads _ p q };

    fn read(&mut self, buffer: &mut [u8]) -> Result<usize, ReadFault> {
        self.reads = self.reads.saturating_add(1);
        let count = buffer.len().min(self.rest.len());
        let (front, behind) = self.rest.split_at(count);
        buffer[..count].copy_from_slice(front);
        self.rest = behind;
        Ok(count)
    }
}
