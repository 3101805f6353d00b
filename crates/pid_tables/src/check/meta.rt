//! The table of labels: the number of the schema, how many items and submissions there are, and the
//! revision.
ghost use Rattle.std.specs.Prelude.{
  ◌≡◌,
  ◌↔◌,
  ◌≤◌,
  ◌++◌,
  ◌∷◌,
  ℕ,
  List,
  [],
  false,
  IsTrue,
  IfSome,
  IfNone,
};
ghost use Rattle.sqlite.specs.Order.{Row as Values};
ghost use Rattle.pid_moderation.specs.CheckTables.{most_revision};
ghost use Rattle.pid_tables.specs.Check.Conditions.{label_row, AreLabels};
ghost use Rattle.pid_tables.specs.Check.Steps.Clauses.{KeepsTable};
ghost use Rattle.pid_tables.specs.Check.Steps.Labels.{
  IsLabel,
  IsLater,
  IsOf,
  IsToldOfSchema,
  IsToldOfLabel,
  TakesLabels,
};
ghost use Rattle.pid_tables.specs.declared.check.meta.Occurrence.TheVariants.{Never, Once};
ghost use Rattle.pid_tables.specs.declared.check.schema.Table.TheVariants as table;

use crate::check::read::{RowFold, fold_rows};
use crate::check::schema::Table;
use crate::check::value::{is_text_at, number_at};
use crate::database::Database;
use crate::rows::{LATEST, TableFault, Version};
use crate::tables::Tables;
use pid_moderation::REVISIONS;
use sqlite::Row;

// The number under a label.
fn labelled(row: &Row, label: &str) -> Option<u64>
    ensures found { IfSome result (λ n. row.now ≡ label_row (label.now, n)) }
    ensures none { IfNone result ((n : ℕ) → row.now ≡ label_row (label.now, n) → ⊥) }
{
    if row.column_count() != 2 {
        return None;
    }
    if !is_text_at(row, 0, label) {
        return None;
    }
    number_at(row, 1)
}

// The number of a later schema, with one more row.
fn later_so_far(found: Option<u64>, row: &Row) -> Option<u64>
    ensures { (rows : List Values) → IsLater rows found
        → IsLater (rows ++ row.now ∷ []) result }
{
    if let Some(number) = found {
        return Some(number);
    }
    let Some(number) = labelled(row, "schema") else {
        return None;
    };
    if number > LATEST as u64 {
        Some(number)
    } else {
        None
    }
}

/// What rows say of a label: no number, one, or several.
#[derive(Clone, Copy)]
pub(crate) enum Occurrence {
    Never,
    Once(u64),
    Several,
}

// What the rows say of a label, with one more.
fn occurrence_so_far(told: Occurrence, label: &str, row: &Row) -> Occurrence
    ensures { (rows : List Values) → IsToldOfLabel label.now rows told
        → IsToldOfLabel label.now (rows ++ row.now ∷ []) result }
{
    let Some(number) = labelled(row, label) else {
        return told;
    };
    match told {
        Occurrence::Never => Occurrence::Once(number),
        Occurrence::Once(one) => if one == number {
            Occurrence::Once(one)
        } else {
            Occurrence::Several
        },
        Occurrence::Several => Occurrence::Several,
    }
}

fn is_never(told: Occurrence) -> bool
    ensures { IsTrue result ↔ (told ≡ Never) }
{
    match told {
        Occurrence::Never => true,
        Occurrence::Once(_) => false,
        Occurrence::Several => false,
    }
}

fn is_once(told: Occurrence, number: u64) -> bool
    ensures { IsTrue result ↔ (told ≡ Once number) }
{
    match told {
        Occurrence::Never => false,
        Occurrence::Once(one) => one == number,
        Occurrence::Several => false,
    }
}

fn is_of(row: &Row, label: &str) -> bool
    ensures { IsTrue result ↔ IsOf label.now row.now }
{
    match labelled(row, label) {
        Some(_) => true,
        None => false,
    }
}

fn is_label(row: &Row) -> bool
    ensures { IsTrue result ↔ IsLabel row.now }
{
    is_of(row, "schema")
        || is_of(row, "items")
        || is_of(row, "submissions")
        || is_of(row, "revision")
}

/// What is kept of the labels: whether each row is one, what the rows say of each, and the number of
/// a later schema, if a row says one.
#[derive(Clone, Copy)]
pub(crate) struct Labels {
    good: bool,
    pub(crate) later: Option<u64>,
    schema: Occurrence,
    items: Occurrence,
    submissions: Occurrence,
    revision: Occurrence,
}

impl RowFold for Labels {
    ghost use Rattle.pid_tables.specs.Check.Steps.Labels.{TakesLabels};

    ghost keeps = { λ first rows it. TakesLabels rows it };

    fn keep(&mut self, row: &Row) -> Result<(), TableFault> {
        self.good &= is_label(row);
        self.later = later_so_far(self.later, row);
        self.schema = occurrence_so_far(self.schema, "schema", row);
        self.items = occurrence_so_far(self.items, "items", row);
        self.submissions = occurrence_so_far(self.submissions, "submissions", row);
        self.revision = occurrence_so_far(self.revision, "revision", row);
        Ok(())
    }
}

/// Reads the labels.
pub(crate) fn read_labels<C: Database + Drop>(tables: &mut Tables<C>) -> Result<Labels, TableFault>
    ensures { KeepsTable C.state tables.old.conn tables.new.conn result table.Meta
        TakesLabels }
{
    let mut labels = Labels {
        good: true,
        later: None,
        schema: Occurrence::Never,
        items: Occurrence::Never,
        submissions: Occurrence::Never,
        revision: Occurrence::Never,
    };
    fold_rows(tables, Table::Meta, &mut labels)?;
    Ok(labels)
}

/// The revision that the labels have, or else 0.
pub(crate) fn revision_told(labels: Labels) -> u64
    ensures limit { result ≤ most_revision }
    ensures told { (n : ℕ) → n ≤ most_revision → labels.revision ≡ Once n → result ≡ n }
{
    match labels.revision {
        Occurrence::Never => 0,
        Occurrence::Once(number) => { if number <= REVISIONS { number } else { 0 } }
        Occurrence::Several => 0,
    }
}

fn is_told_of_schema(labels: Labels, version: Version, revision: u64) -> bool
    ensures { IsTrue result ↔ IsToldOfSchema version revision labels }
{
    match version {
        Version::One => is_once(labels.schema, 1) && is_never(labels.revision),
        Version::Two => is_once(labels.schema, LATEST as u64) && is_once(labels.revision, revision),
    }
}

/// Whether the rows of meta are those of a registry in a schema, with so many items and submissions
/// and this revision.
pub(crate) fn are_labels(
    labels: Labels,
    version: Version,
    items: u64,
    submissions: u64,
    revision: u64,
) -> bool
    ensures { (rows : List Values) → TakesLabels rows labels
        → IsTrue result ↔ AreLabels version items submissions revision rows }
{
    if !labels.good {
        return false;
    }
    if !is_once(labels.items, items) {
        return false;
    }
    if !is_once(labels.submissions, submissions) {
        return false;
    }
    is_told_of_schema(labels, version, revision)
}
