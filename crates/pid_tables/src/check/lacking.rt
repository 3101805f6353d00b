//! A database that has some of the tables, but not each.
ghost use Rattle.std.specs.Prelude.{MatchResult};
ghost use Rattle.pid_tables.specs.Rows.Clauses.{HasCleanDisk, OnlyReads, seen};
ghost use Rattle.pid_tables.specs.Check.Steps.Lacking.{ExplainsLater};

use crate::check::meta::read_labels;
use crate::check::schema::{Table, can_ask, query};
use crate::database::Database;
use crate::rows::{TableFault, Version};
use crate::tables::Tables;

/// Why it is no registry's: it never answers `Ok`.
pub(crate) fn check_lacking<C: Database + Drop>(
    tables: &mut Tables<C>,
) -> Result<Option<Version>, TableFault>
    ensures rests { OnlyReads C.state tables.old.conn tables.new.conn }
    ensures told { HasCleanDisk C.state tables.new.conn
        → MatchResult result (λ x. ⊥) (ExplainsLater (seen C.state tables.old.conn)) }
{
    if !can_ask(tables, query(Table::Meta))? {
        return Err(TableFault::Damaged);
    }
    let labels = read_labels(tables)?;
    match labels.later {
        Some(number) => Err(TableFault::NewerSchema(number)),
        None => Err(TableFault::Damaged),
    }
}
