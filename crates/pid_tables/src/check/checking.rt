//! The check of all tables: first which are there, and then their rows.
ghost use Rattle.std.specs.Prelude.{◌≡◌, ◌≤◌, false, Some, MatchResult};
ghost use Rattle.pid_moderation.specs.CheckTables.{most_revision};
ghost use Rattle.pid_moderation.specs.History.{History};
ghost use Rattle.pid_moderation.specs.Sound.{IsSound};
ghost use Rattle.pid_moderation.specs.Views.{revision_of, views_of};
ghost use Rattle.pid_tables.specs.Rows.Faults.{IsMemoryOrStore};
ghost use Rattle.pid_tables.specs.Rows.Clauses.{HasCleanDisk, OnlyReads, RestsIn, is_open, seen};
ghost use Rattle.pid_tables.specs.Check.Checking.{Explains, FindsVersion, ShowsRegistry};
ghost use Rattle.pid_tables.specs.Check.Steps.Clauses.{JudgesRows};
ghost use Rattle.pid_tables.specs.Check.Steps.Labels.{ShowsLabels};
ghost use Rattle.pid_tables.specs.Check.Steps.Reading.{TellsDamage};
ghost use Rattle.pid_tables.specs.Check.Shapes.{HasEachTable, HasTables};

use crate::check::lacking::check_lacking;
use crate::check::meta::{Labels, are_labels, read_labels, revision_told};
use crate::check::schema::{SIX, has_some_table, some_can, tables_of};
use crate::check::tables::read_tables;
use crate::database::Database;
use crate::rows::{TableFault, Version};
use crate::tables::Tables;
use std::alloc::Global;

fn check_rows<C: Database + Drop>(
    tables: &mut Tables<C>,
    alloc: Global,
    version: Version,
    labels: Labels,
) -> Result<(), TableFault>
    ensures { JudgesRows C.state tables.old.conn tables.new.conn result
        (λ d. HasTables version d.schema × ShowsLabels d labels)
        (λ d x. ShowsRegistry version d) (TellsDamage version) }
{
    let revision = revision_told(labels);
    let judged = read_tables(tables, alloc, version, revision)?;
    if !judged.good {
        return Err(TableFault::Damaged);
    }
    if !are_labels(labels, version, judged.items, judged.submissions, revision) {
        return Err(TableFault::Damaged);
    }
    Ok(())
}

// The schema of the tables, where each of the six is there.
fn check_tables<C: Database + Drop>(
    tables: &mut Tables<C>,
    alloc: Global,
) -> Result<Option<Version>, TableFault>
    ensures rests { OnlyReads C.state tables.old.conn tables.new.conn }
    ensures told { HasCleanDisk C.state tables.new.conn
        → HasEachTable (seen C.state tables.old.conn).schema
        → MatchResult result (FindsVersion (seen C.state tables.old.conn))
        (Explains (seen C.state tables.old.conn)) }
{
    let found = tables_of(tables)?;
    let labels = read_labels(tables)?;
    if let Some(number) = labels.later {
        return Err(TableFault::NewerSchema(number));
    }
    let Some(version) = found else {
        return Err(TableFault::Damaged);
    };
    check_rows(tables, alloc, version, labels)?;
    Ok(found)
}

impl<C: Database + Drop> Tables<C> {
    /// The schema of the tables, if they are those of some registry; `None` if there is no table:
    /// every row is read and judged. `docs/STORAGE.md` has the conditions.
    ///
    /// It finds out which tables are there by preparing a query of each table's columns by their
    /// names. If none can be prepared, it answers `None`: there is nothing to be damaged. If some
    /// can, and not each of a schema, it answers `Damaged`, and so it does if a table `item_since`
    /// of any columns is there with the six of schema 1. It answers a schema only if all conditions
    /// of that schema hold of the rows that the queries answer, and `Damaged` only if one of them
    /// fails. A later schema is judged before either, whatever the tables: `NewerSchema` only if
    /// the labels have that greater number, and a schema or `Damaged` only if they have none. It
    /// answers `Memory` and `Store` otherwise, and changes nothing. Other tables, indexes and views
    /// are allowed.
    pub fn check(&mut self, alloc: Global) -> Result<Option<Version>, TableFault>
        ensures rests { OnlyReads C.state self.old.conn self.new.conn }
        ensures shut { HasCleanDisk C.state self.new.conn → is_open C.state self.old.conn ≡ false
            → MatchResult result (λ x. ⊥) IsMemoryOrStore }
        // Whatever the schema: what it answers is so of the rows that the queries of the tables
        // answer, and by `judgements_hold_of_storage` of those that storage has.
        ensures told { HasCleanDisk C.state self.new.conn
            → MatchResult result (FindsVersion (seen C.state self.old.conn))
            (Explains (seen C.state self.old.conn)) }
        // Tables that show a sound history, whose revision is within its limit, are neither damaged
        // nor of a later schema.
        ensures good { HasCleanDisk C.state self.new.conn → (h : History) → IsSound h
            → revision_of h ≤ most_revision → (schema : Version)
            → RestsIn C.state schema self.old.conn (views_of h)
            → MatchResult result (λ found. found ≡ Some schema) IsMemoryOrStore }
    {
        crate::check::laws::sound_histories_are_registries(); // proof only
        if !some_can(self, &SIX, false)? {
            return check_tables(self, alloc);
        }
        if has_some_table(self)? {
            return check_lacking(self);
        }
        Ok(None)
    }
}
