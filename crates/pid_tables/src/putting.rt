//! Items of a file, put one by one within a transaction.
ghost use Rattle.std.specs.Prelude.{◌≡◌, ℕ, List, Ok, Option, option_map, slice_get};
ghost use Rattle.pid_moderation.specs.Items.{name_at};
ghost use Rattle.pid_tables.specs.Steps.Puts.{put_over};
ghost use Rattle.pid_tables.specs.Steps.Clauses.{TellsWithin};
ghost use Rattle.pid_tables.specs.Rows.Steps.Answers.{name_row};
ghost use Rattle.pid_tables.specs.Rows.Steps.Writes.{with_name};

use crate::database::Batch;
use crate::rows::TableFault;
use crate::rows::item::{add_item, rename_item};
use crate::rows::value::is_text_at;
use sqlite::Row;
use sqlite::types::ToSql;

/// What a name that was put at a path was to it.
#[derive(Clone, Copy)]
pub enum Put {
    /// There was no item.
    Added,
    /// There was an item of another name.
    Renamed,
    /// The item had the name already.
    Same,
}

// What a name is to the row that was found at its path.
fn put_by(rows: &[Row], name: &str) -> Result<Put, TableFault>
    ensures { (found : Option (List ℕ)) → slice_get rows.now 0 ≡ option_map name_row found
        → result ≡ Ok (put_over name.now found) }
{
    let Some(row) = rows.first() else {
        return Ok(Put::Added);
    };
    match is_text_at(row, 0, name) {
        Ok(true) => Ok(Put::Same),
        Ok(false) => Ok(Put::Renamed),
        Err(fault) => Err(fault),
    }
}

fn compare<B: Batch>(batch: &mut B, path: &str, name: &str) -> Result<Put, TableFault>
    ensures { TellsWithin B.batch batch.old batch.new result (λ v. v)
        (λ v put. put ≡ put_over name.now (name_at path.now v.items)) }
{
    let path = path.to_sql();
    let rows = batch.read_inside("SELECT name FROM item WHERE path = ?1", &[path])?;
    put_by(rows.as_slice(), name)
}

pub(crate) fn put_text<B: Batch>(
    batch: &mut B,
    path: &str,
    name: &str,
    revision: u64,
) -> Result<Put, TableFault>
    ensures { TellsWithin B.batch batch.old batch.new result
        (with_name revision path.now name.now)
        (λ v put. put ≡ put_over name.now (name_at path.now v.items)) }
{
    let put = compare(batch, path, name)?;
    let written = match put {
        Put::Added => add_item(batch, path, name, revision),
        Put::Renamed => rename_item(batch, path, name, revision),
        Put::Same => Ok(()),
    };
    written?;
    Ok(put)
}
