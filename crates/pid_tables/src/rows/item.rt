//! The tables of items: paths and their names, and the numbers of the last changes of these.
ghost use Rattle.std.specs.Prelude.{◌≡◌, ◌++◌, [], ◌∷◌, false, None, IfOk, IfErr, IsSome};
ghost use Rattle.pid_moderation.specs.Items.{
  name_at as item_at,
  has_children as are_children,
  has_name,
};
ghost use Rattle.sqlite.specs.Order.{column};
ghost use Rattle.sqlite.specs.declared.types.Value.TheVariants.{Text as TextValue};
ghost use Rattle.pid_tables.specs.Rows.Steps.Both.{WritesBoth};
ghost use Rattle.pid_tables.specs.Rows.Steps.Ranges.{holds_under};
ghost use Rattle.pid_tables.specs.Rows.TableRows.{number};
ghost use Rattle.pid_ident.specs.PathTexts.{path_text};
ghost use Rattle.pid_moderation.specs.WellMade.{AllItems, HoldsParents};
ghost use Rattle.pid_tables.specs.Rows.Shows.{AreViews};
ghost use Rattle.pid_tables.specs.Rows.Steps.Unread.{IsDamagedRow, ReadsAsItem};
ghost use Rattle.pid_tables.specs.Rows.Steps.Writes.{with_name};
ghost use Rattle.pid_tables.specs.Rows.Steps.Writes.{without_item};
ghost use Rattle.pid_tables.specs.Rows.Clauses.{Reads};
ghost use Rattle.pid_tables.specs.Rows.Steps.Clauses.{ChangesTo};

use crate::database::{Batch, Database};
use crate::rows::fault::TableFault;
use crate::rows::run::read_rows;
use crate::rows::value::{name_at, path_at, stored};
use crate::tables::Tables;
use pid_ident::{Name, Path, PathText, hex4};
use pid_moderation::Item;
use sqlite::Row;
use sqlite::types::{ToSql, ValueRef};
use std::alloc::{AllocError, Global};

// Runs two statements in turn: one with a path and a name, one with the path and a number. A number
// that 63 bits do not hold is refused with `Store`.
fn write_both<B: Batch>(
    tx: &mut B,
    naming: &str,
    numbering: &str,
    path: &str,
    name: &str,
    since: u64,
) -> Result<(), TableFault>
    ensures { WritesBoth B.batch (record {
      first = naming.now;
      named = TextValue path.now ∷ TextValue name.now ∷ [];
      second = numbering.now;
      numbered = TextValue path.now ∷ number since ∷ [];
    }) tx.old tx.new result }
{
    let path = path.to_sql();
    let name = name.to_sql();
    let since = stored(since)?;
    tx.write_one(naming, &[path, name])?;
    tx.write_one(numbering, &[path, since])
}

/// Adds an item at a path that has none, with the number of its change. The path is the text of a
/// path, as `PC/8086/1237`; neither it nor the name is tested, and nor is whether the path's parent
/// is there. A path that has an item is refused with `Store`, and so is a number that 63 bits do
/// not hold.
pub fn add_item<B: Batch>(tx: &mut B, path: &str, name: &str, since: u64) -> Result<(), TableFault>
    ensures { ChangesTo B.batch tx.old tx.new result
        (λ v. item_at path.now v.items ≡ None) (with_name since path.now name.now) }
{
    write_both(
        tx,
        "INSERT INTO item (path, name) VALUES (?1, ?2)",
        "INSERT INTO item_since (path, since) VALUES (?1, ?2)",
        path,
        name,
        since,
    )
}

/// Sets another name of the item at a path, which is not tested, and the number of its change. If
/// the path has no item, it writes nothing and answers `Ok`. A number that 63 bits do not hold is
/// refused with `Store`.
pub fn rename_item<B: Batch>(
    tx: &mut B,
    path: &str,
    name: &str,
    since: u64,
) -> Result<(), TableFault>
    ensures { ChangesTo B.batch tx.old tx.new result
        (λ v. IsSome (item_at path.now v.items)
        × (has_name name.now (item_at path.now v.items) ≡ false))
        (with_name since path.now name.now) }
{
    write_both(
        tx,
        "UPDATE item SET name = ?2 WHERE path = ?1",
        "UPDATE item_since SET since = ?2 WHERE path = ?1",
        path,
        name,
        since,
    )
}

/// Takes the item of a path away, if there is one, with its number. Items below it stay.
pub fn remove_item<B: Batch>(tx: &mut B, path: &str) -> Result<(), TableFault>
    ensures { ChangesTo B.batch tx.old tx.new result (λ v. Unit {0})
        (without_item path.now) }
{
    let path = path.to_sql();
    tx.write_one("DELETE FROM item WHERE path = ?1", &[path])
}

impl<C: Database + Drop> Tables<C> {
    /// The name of the item at a path. A stored text that is no name is `Damaged`.
    pub fn item(&mut self, alloc: Global, path: &Path) -> Result<Option<Name>, TableFault>
        ensures { Reads C.state self.old.conn self.new.conn result
            (λ v name. name ≡ item_at (path_text path.now) v.items) }
    {
        let text = path.path_text(alloc)?;
        let key = text.as_str().to_sql();
        let rows = read_rows(self, "SELECT name FROM item WHERE path = ?1", &[key]);
        drop(text);
        let rows = rows?;
        match rows.first() {
            Some(row) => Ok(Some(name_at(row, alloc, 0)?)),
            None => Ok(None),
        }
    }
}

/// A range of paths: those above the one text and below the other, neither of them included.
#[derive(Drop)]
pub struct Range {
    pub low: Vec<u8>,
    pub high: Vec<u8>,
}

/// The paths that go on after the text of the two parts and a slash. Those below `PC/8086` are
/// between `PC/8086/` and `PC/80860`.
pub fn range_below(alloc: Global, front: &[u8], rest: &[u8]) -> Result<Range, AllocError>
    ensures low { IfOk result (λ range. range.low.items ≡ (front.now ++ rest.now) ++ 47 ∷ []) }
    ensures high { IfOk result (λ range. range.high.items ≡ (front.now ++ rest.now) ++ 48 ∷ []) }
{
    let low = [front, rest, &[b'/']].concat(alloc)?;
    let high = [front, rest, &[b'0']].concat(alloc)?;
    Ok(Range { low, high })
}

// Whether some item's path goes on after the text of the two parts and a slash.
fn any_below<C: Database + Drop>(
    tables: &mut Tables<C>,
    alloc: Global,
    front: &[u8],
    rest: &[u8],
) -> Result<bool, TableFault>
    ensures { Reads C.state tables.old.conn tables.new.conn result
        (λ v some. AreViews v × (some ≡ holds_under (front.now ++ rest.now) v.items)) }
{
    let range = range_below(alloc, front, rest)?;
    let low = ValueRef::Text(range.low.as_slice());
    let high = ValueRef::Text(range.high.as_slice());
    let rows = read_rows(
        tables,
        "SELECT path FROM item WHERE path > ?1 AND path < ?2 LIMIT 1",
        &[low, high],
    )?;
    Ok(!rows.is_empty())
}

/// Whether some item has the path as its parent. A generic subsystem counts for its vendor.
pub fn has_children<C: Database + Drop>(
    tables: &mut Tables<C>,
    alloc: Global,
    path: Path,
) -> Result<bool, TableFault>
    ensures { Reads C.state tables.old.conn tables.new.conn result
        (λ v some. AllItems v.items → HoldsParents v.items
        → some ≡ are_children (path_text path) v.items) }
{
    let text = path.path_text(alloc)?;
    let below = any_below(tables, alloc, b"", text.as_bytes());
    drop(text);
    if below? {
        return Ok(true);
    }
    match path {
        Path::Vendor { vendor } => any_below(tables, alloc, b"PS/", hex4(vendor).as_slice()),
        _ => Ok(false),
    }
}

/// The item of a row that has the text of its path in the first column and its name in the second;
/// further columns are not looked at. If a column is missing or breaks its rule, the row is
/// `Damaged`.
pub fn item_of(row: &Row, alloc: Global) -> Result<Item, TableFault>
    ensures path { IfOk result (λ item. column row.now 0 ≡ TextValue (path_text item.path)) }
    ensures name { IfOk result (λ item. column row.now 1 ≡ TextValue item.name) }
    ensures unread { IfErr result (IsDamagedRow (ReadsAsItem row.now)) }
{
    let path = path_at(row, 0)?;
    let name = name_at(row, alloc, 1)?;
    Ok(Item { path, name })
}
