//! A registry with a journal in front of it.
ghost use Rattle.std.specs.Prelude.{◌≡◌};
ghost use Rattle.pid_journal.specs.Pairs.{pair_parts};

use std::alloc::Global;

/// A registry, and in front of it a journal in which each command is safe before it is judged.
#[derive(Drop)]
pub struct Journaled<R, J> {
    pub(crate) registry: R,
    pub(crate) journal: J,
    // An entry whose command was not obeyed could not be cut off again.
    pub(crate) failed: bool,
    pub(crate) alloc: Global,
}

impl<R, J> Journaled<R, J> {
    ghost use Rattle.std.specs.Borrow.{sem};
    ghost use Rattle.pid_journal.specs.Steps.Lending.{LendsRegistry};

    /// The registry without the journal.
    pub fn registry(&self) -> &R
        ensures { result.now ≡ (pair_parts self.now).0 }
    {
        &self.registry
    }

    /// Lends the registry without the journal. A command that it is given there has no entry.
    pub fn registry_mut(&mut self) -> &mut R
        ensures* writes_back { sem 𝓛 (LendsRegistry R.row J.row self.entry result) }
        ensures value { result.now ≡ (pair_parts self.old).0 }
    {
        &mut self.registry
    }

    /// Whether it has failed since an entry, whose command was not obeyed, could not be cut off.
    pub fn has_failed(&self) -> bool
        ensures { result ≡ (pair_parts self.now).2 }
    {
        self.failed
    }

    /// The registry, and the file of its journal.
    pub fn into_parts(self) -> (R, J)
        ensures { result ≡ ((pair_parts self).0, (pair_parts self).1) }
    {
        (self.registry, self.journal)
    }
}
