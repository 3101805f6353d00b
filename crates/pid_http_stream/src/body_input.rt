//! The body of a request as a reader of its own.
ghost use Rattle.std.specs.Prelude.{◌≡◌, ◌≤◌, ◌++◌, length, min, take};

use crate::turn::read_turn;
use pid_ident::{Incoming, Input, Output, ReadFault};

/// Why a body was not read to its end.
#[derive(Clone, Copy)]
pub(crate) enum BodyFault {
    /// The reader ended before it.
    Short,
    /// The reader failed.
    ReadFault,
    /// No read was left.
    TurnsSpent,
}

/// The body of a request: what came with its head, and then the reader under it, up to the length
/// that the head said. It keeps its fault.
#[derive(Drop)]
pub(crate) struct BodyInput<'h, 'i, 'o, I: Incoming<W>, W: Output> {
    /// What came with the head and was not given yet.
    pub(crate) held: &'h [u8],
    /// How many bytes are still to be given.
    pub(crate) wanted: usize,
    /// The reader under it.
    pub(crate) input: &'i mut I,
    /// The writer that is shown to that.
    pub(crate) output: &'o W,
    /// How many reads of that may still be made.
    pub(crate) left: u64,
    /// How many reads were made of the body.
    pub(crate) reads: u64,
    /// The fault that is kept.
    pub(crate) fault: Option<BodyFault>,
    ghost fits: { length held.now ≤ wanted },
}

// Gives the first of the bytes held: how many, and those after them.
fn give_front<'h>(held: &'h [u8], buffer: &mut [u8]) -> (usize, &'h [u8])
    ensures count { result.0 ≡ min (length buffer.new) (length held.now) }
    ensures given { held.now ≡ take result.0 buffer.new ++ result.1.now }
{
    let count = buffer.len().min(held.len());
    let (front, behind) = held.split_at(count);
    buffer[..count].copy_from_slice(front);
    (count, behind)
}

impl<I: Incoming<W>, W: Output> Input for BodyInput<'_, '_, '_, I, W> {
    ghost use Rattle.std.specs.Prelude.{◌≡◌, ◌++◌, option_map};
    ghost use Rattle.std.proofs.Common.{refl, ◌∙◌};
    ghost use Rattle.pid_http_stream.specs.Steps.Bodies.{padded, kept_fault, HasReadBody, turns_at};
    ghost use Rattle.pid_http_stream.specs.Steps.BodyLaws.{no_body_reads, more_body_reads};

    ghost to_come = { λ b. option_map (λ s. padded b.wanted (b.held.now ++ s))
        (I.to_come b.input.now) };

    ghost read_fault = { λ b. kept_fault b.fault };

    ghost reads = { λ b. b.reads };

    ghost goes = { λ a b. (b.input.ghost_name ≡ a.input.ghost_name)
        × I.goes a.input.now b.input.now
        × HasReadBody
        (record {
          held = a.held.now;
          wanted = a.wanted;
          fault = a.fault;
          turns = turns_at I.Incoming a.input.now a.left;
          taken = W.taken a.output.now;
        })
        (record {
          held = b.held.now;
          wanted = b.wanted;
          fault = b.fault;
          turns = turns_at I.Incoming b.input.now b.left;
          taken = W.taken b.output.now;
        }) };

    ghost stays = { λ a. (refl, I.stays a.input.now, no_body_reads _) };

    ghost joins = { λ a b c p q. (
      q.0 ∙ p.0,
      I.joins a.input.now b.input.now c.input.now p.1 q.1,
      more_body_reads _ _ _ p.2 q.2,
    ) };

    fn read(&mut self, buffer: &mut [u8]) -> Result<usize, ReadFault> {
        self.reads = self.reads.saturating_add(1);
        if self.fault.is_some() {
            return Err(ReadFault::Device);
        }
        let room = buffer.len().min(self.wanted);
        if room == 0 {
            return Ok(0);
        }
        if !self.held.is_empty() {
            let (count, behind) = give_front(self.held, &mut buffer[..room]);
            self.held = behind;
            self.wanted -= count;
            return Ok(count);
        }
        match read_turn(self.input, self.output, &mut self.left, &mut buffer[..room]) {
            Ok(count) => {
                self.wanted -= count;
                Ok(count)
            }
            Err(fault) => {
                self.fault = Some(fault);
                Err(ReadFault::Device)
            }
        }
    }
}
