//! A whole file, put into a transaction.
ghost use Rattle.std.specs.Prelude.{◌≡◌, ◌≢◌, ℕ, List, false, IfErr, IsSome};
ghost use Rattle.std.specs.Io.KnownBytes.{Consumes};
ghost use Rattle.pid_reader.specs.Lines.{lines_of};
ghost use Rattle.pid_reader.specs.Reading.{entries_of};
ghost use Rattle.pid_moderation.specs.History.{History, asked};
ghost use Rattle.pid_moderation.specs.Views.{views_of};
ghost use Rattle.pid_tables.specs.Rows.Clauses.{AtRest, HasCleanDisk};
ghost use Rattle.pid_tables.specs.ImportClauses.{EndsImport, EndsOutside};
ghost use Rattle.pid_tables.specs.Steps.ImportClauses.{AppliesFile};
ghost use Rattle.pid_moderation.specs.Files.{file_reading};
ghost use Rattle.pid_tables.specs.Importing.{ReadsFile, StopIsNotFailed, TellsReadFault};
ghost use Rattle.pid_tables.specs.Steps.ImportParts.{IsPut, IsStopOf, JudgesFile};
ghost use Rattle.pid_tables.specs.Judging.{WhereOpen};
ghost use Rattle.pid_tables.specs.Steps.PutFiles.{PutsFile};

use crate::batch::apply;
use crate::database::{Batch, Database};
use crate::faults::refusal_of;
use crate::laws;
use crate::put_sink::{PutSink, Putter};
use crate::rows::TableFault;
use crate::tally::Tally;
use pid_ident::Input;
use pid_moderation::{
    Change, Command, FILE_BYTES, Facts, FileFault, Refusal, Reply, Verdict, decide,
};
use pid_reader::{CutEnd, InputEnd, ReadRefusal, cut_input};
use std::alloc::Global;

/// Why a file was not imported.
///
/// - `Body`: the input failed. The tables are as before.
/// - `Refused`: the import is refused for this reason. The tables are as before.
/// - `Failed`: out of memory, or the store failed within the transaction. Of the tables no more is
///   known than that what a crash may leave shows the history before the import, or with it.
#[derive(Clone, Copy)]
pub enum Stop {
    Body,
    Refused(Refusal),
    Failed(Refusal),
}

/// Puts the entries of the input's text where names go, with the number of their command, and
/// counts them.
pub(crate) fn put_file<K: Putter, I: Input>(
    batch: &mut K,
    alloc: Global,
    revision: u64,
    input: &mut I,
) -> Result<Tally, InputEnd<TableFault>>
    ensures puts { (text : List ℕ) × Consumes (I.to_come input.old) (I.to_come input.new) text
        × PutsFile (K.puts revision) K.gives_up result
        (I.to_come input.new) text batch.old batch.new }
    ensures fault { result ≡ Err InputEnd.ReadFault → IsSome (I.read_fault input.new) }
    ensures fault_first { IsSome (I.read_fault input.new) → result ≡ Err InputEnd.ReadFault }
    ensures goes { I.goes input.old input.new }
{
    pid_reader::laws::numbered_entries_are_entries(); // proof only
    let mut sink = PutSink::new(batch, alloc, revision);
    match cut_input(alloc, FILE_BYTES, input, &mut sink) {
        Ok(()) => Ok(sink.tally),
        Err(end) => Err(end),
    }
}

pub(crate) fn stop_of(end: InputEnd<TableFault>) -> Stop
    ensures { IsStopOf end result }
{
    match end {
        InputEnd::ReadFault => Stop::Body,
        InputEnd::TooLong => Stop::Refused(Refusal::BadText),
        InputEnd::Cut(CutEnd::Refused(ReadRefusal::Line { line, kind })) => {
            Stop::Refused(Refusal::FileFault(FileFault::Line {
                line: line as u64,
                kind,
            }))
        }
        InputEnd::Cut(CutEnd::Refused(ReadRefusal::TooManyEntries)) => {
            Stop::Refused(Refusal::FileFault(FileFault::TooMany))
        }
        InputEnd::Cut(CutEnd::Refused(ReadRefusal::Memory)) => Stop::Failed(Refusal::Memory),
        InputEnd::Cut(CutEnd::Fault(fault)) => Stop::Failed(refusal_of(fault)),
    }
}

// Judges an import whose file was put.
fn judge_file(
    facts: &mut Facts,
    items: u32,
    tally: Tally,
    command: &Command,
) -> Result<(Change, Reply), Refusal>
    ensures judged { (h : History) (text : List ℕ) → WhereOpen h command.now facts.old items
        (IsPut h text tally → JudgesFile h (asked command.now (file_reading text))
        (entries_of (lines_of text)) result) }
    ensures alive { IfErr result (λ e. e ≢ Refusal.Failed) }
{
    laws::texts_read_to_files(); // proof only
    pid_moderation::laws::items_are_sorted(); // proof only
    let Some(items) = items.checked_add(tally.added) else {
        return Err(Refusal::Memory);
    };
    facts.file = Some(Verdict::Good {
        added: tally.added,
        renamed: tally.renamed,
        same: tally.same,
        items,
    });
    decide(facts, command)
}

// Applies the rest of an import whose file was put.
pub(crate) fn apply_file<B: Batch>(
    batch: &mut B,
    alloc: Global,
    facts: &mut Facts,
    items: u32,
    tally: Tally,
    command: &Command,
) -> Result<Reply, Stop>
    ensures { AppliesFile B.batch command.now facts.old items tally batch.old batch.new result }
{
    laws::texts_read_to_files(); // proof only
    match judge_file(facts, items, tally, command) {
        Err(refusal) => Err(Stop::Refused(refusal)),
        Ok((change, reply)) => {
            let applied = apply(batch, alloc, &change);
            drop(change);
            match applied {
                Ok(()) => Ok(reply),
                Err(fault) => Err(Stop::Failed(refusal_of(fault))),
            }
        }
    }
}
