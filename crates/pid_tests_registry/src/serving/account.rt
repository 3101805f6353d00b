//! A reader that keeps account of when it is read.
ghost use Rattle.std.specs.Prelude.{◌≡◌, Some};
ghost use Rattle.pid_ident.specs.Steps.Moments.{IsNoted};

use pid_doubles::FaultyOutput;
use pid_http_stream::Incoming;
use pid_ident::ReadFault;
use std::alloc::Global;

/// When it was read: what was still to come, and what the writer had taken.
#[derive(Drop)]
pub struct Kept<'a> {
    pub to_come: &'a [u8],
    pub taken: Vec<u8>,
}

/// A reader of given bytes, one a read, that keeps account of what the writer had taken at each.
#[derive(Drop)]
pub struct Account<'a> {
    pub alloc: Global,
    /// The bytes to come.
    pub rest: &'a [u8],
    /// How many reads were made.
    pub reads: u64,
    /// The account, in order.
    pub kept: Vec<Kept<'a>>,
    /// Whether memory ran out for a part of it.
    pub is_lost: bool,
}

impl<'a> Account<'a> {
    pub fn new(alloc: Global, bytes: &'a [u8]) -> Account<'a> {
        Account {
            alloc,
            rest: bytes,
            reads: 0,
            kept: Vec::new(alloc),
            is_lost: false,
        }
    }
}

impl<'a> Account<'a> {
    ghost use Rattle.pid_tests_registry.specs.Accounts.{moments_of};

    // Keeps what the writer has taken by now.
    fn note(&mut self, output: &FaultyOutput)
        ensures noted { IsNoted (Some self.old.rest.now) (Some output.now.taken.items)
            (moments_of self.old) (moments_of self.new) }
        ensures rest { self.new.rest ≡ self.old.rest }
        ensures reads { self.new.reads ≡ self.old.reads }
    {
        let Ok(taken) = Vec::from_slice(self.alloc, &output.taken) else {
            self.is_lost = true;
            return;
        };
        let to_come = self.rest;
        if self.kept.push(Kept { to_come, taken }).is_err() {
            self.is_lost = true;
        }
    }
}

impl<'a> Incoming<FaultyOutput> for Account<'a> {
    ghost use Rattle.std.specs.Prelude.{⊤, None};
    ghost use Rattle.pid_tests_registry.specs.Accounts.{moments_of};

    ghost to_come = { λ a. Some a.rest.now };

    ghost read_fault = { λ a. None };

    ghost reads = { λ a. a.reads };

    ghost goes = { λ a b. ⊤ };

    ghost moments = { λ a. moments_of a };

    ghost stays = { λ a. tt };

    ghost joins = { λ a b c p q. tt };

    fn read_after(&mut self, output: &FaultyOutput, buffer: &mut [u8]) -> Result<usize, ReadFault> {
        self.reads = self.reads.saturating_add(1);
        self.note(output);
        let count = buffer.len().min(self.rest.len()).min(1);
        let (front, behind) = self.rest.split_at(count);
        buffer[..count].copy_from_slice(front);
        self.rest = behind;
        Ok(count)
    }
}
