//! The entries of a file, put into a transaction one by one.
ghost use Rattle.std.specs.Prelude.{◌≡◌, ◌+◌, IfOk};
ghost use Rattle.pid_tables.specs.Steps.Tallies.{tallied};
ghost use Rattle.pid_tables.specs.Steps.Tallies.{no_tally};

use crate::batch::put;
use crate::database::Batch;
use crate::putting::Put;
use crate::rows::TableFault;
use crate::tally::Tally;
use pid_ident::Path;
use pid_reader::{Entry, Sink};
use std::alloc::Global;

/// What names are put into.
pub(crate) trait Putter {
    ghost use Rattle.std.specs.Prelude.{List, ℕ, IfOk, OnErr};
    ghost use Rattle.pid_ident.specs.PathTexts.{path_text};
    ghost use Rattle.pid_tables.specs.declared.putting.Put.{Put};

    /// The number of the command, before, an item, what it was to what is there, and after.
    ghost puts: { ℕ → Self → List ℕ × List ℕ → Put → Self → Type 0 };

    /// Before and after, if nothing is put.
    ghost gives_up: { Self → Self → Type 0 };

    fn put_name(
        &mut self,
        alloc: Global,
        path: &Path,
        name: &str,
        revision: u64,
    ) -> Result<Put, TableFault>
        ensures put { IfOk result (λ put. puts revision self.old
            (path_text path.now, name.now) put self.new) }
        ensures fault { OnErr result (gives_up self.old self.new) };
}

impl<B: Batch> Putter for B {
    ghost use Rattle.std.specs.Prelude.{◌≡◌};
    ghost use Rattle.pid_tables.specs.Steps.ImportClauses.{Puts, GivesUp};

    ghost puts = { λ n s item put t. (B.batch.reference t ≡ B.batch.reference s)
        × Puts B.batch.state n s t item put };

    ghost gives_up = { λ s t. (B.batch.reference t ≡ B.batch.reference s) × GivesUp B.batch.state s t };

    fn put_name(
        &mut self,
        alloc: Global,
        path: &Path,
        name: &str,
        revision: u64,
    ) -> Result<Put, TableFault> {
        put(self, alloc, path, name, revision)
    }
}

/// Puts entries where they go, with the number of their command, and counts them.
#[derive(Drop)]
pub(crate) struct PutSink<'k, K: Putter, A> {
    batch: &'k mut K,
    alloc: A,
    revision: u64,
    pub(crate) tally: Tally,
}

impl<'k, K: Putter> PutSink<'k, K, Global> {
    pub(crate) fn new(batch: &'k mut K, alloc: Global, revision: u64) -> PutSink<'k, K, Global>
        ensures same_reference { result.batch.ghost_name ≡ batch.entry.ghost_name }
        ensures now { result.batch.now ≡ batch.old }
        ensures number { result.revision ≡ revision }
        ensures none { result.tally ≡ no_tally }
    {
        PutSink {
            batch,
            alloc,
            revision,
            tally: Tally {
                added: 0,
                renamed: 0,
                same: 0,
            },
        }
    }
}

fn checked_next(count: u32) -> Result<u32, TableFault>
    ensures { IfOk result (λ n. n ≡ count + 1) }
{
    match count.checked_add(1) {
        Some(count) => Ok(count),
        None => Err(TableFault::Memory),
    }
}

// A file has far fewer entries than the counts reach to.
fn tally_with(put: Put, tally: Tally) -> Result<Tally, TableFault>
    ensures { IfOk result (λ t. t ≡ tallied put tally) }
{
    let mut tally = tally;
    match put {
        Put::Added => tally.added = checked_next(tally.added)?,
        Put::Renamed => tally.renamed = checked_next(tally.renamed)?,
        Put::Same => tally.same = checked_next(tally.same)?,
    }
    Ok(tally)
}

impl<K: Putter> Sink for PutSink<'_, K, Global> {
    ghost use Rattle.std.specs.Prelude.{◌≡◌};
    ghost use Rattle.pid_tables.specs.Steps.PutSinks.{TakesEntry, LeavesEntry};

    type Fault = TableFault;

    ghost takes = { TakesEntry K.puts };

    ghost faults = { LeavesEntry K.puts K.gives_up };

    fn entry(&mut self, entry: &Entry<'_>) -> Result<(), TableFault> {
        let put = self
            .batch
            .put_name(self.alloc, &entry.path, entry.name, self.revision)?;
        self.tally = tally_with(put, self.tally)?;
        Ok(())
    }
}
