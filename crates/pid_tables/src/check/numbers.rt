//! The numbers of submissions, which count from 1.
ghost use Rattle.std.specs.Prelude.{
  ◌≡◌,
  ◌↔◌,
  List,
  [],
  length,
  IsTrue,
};
ghost use Rattle.sqlite.specs.Order.{Row as Values};
ghost use Rattle.pid_tables.specs.Check.Steps.Reading.{TakesRow};
ghost use Rattle.pid_tables.specs.Check.Steps.NumberSets.{AreNumbersOf, CountFromOne};

use crate::check::value::number_at;
use crate::rows::TableFault;
use sqlite::Row;
use std::alloc::Global;
use std::collections::BTreeSet;

/// The numbers of some rows: how many came in turn, from 1 on, and the others.
#[derive(Drop)]
pub(crate) struct Numbers {
    turn: u64,
    others: BTreeSet<u64>,
}

/// No numbers yet.
pub(crate) fn no_numbers(alloc: Global) -> Numbers
    ensures { AreNumbersOf result [] }
{
    Numbers {
        turn: 0,
        others: BTreeSet::new(alloc),
    }
}

/// Adds the number of a row.
pub(crate) fn add_number(numbers: &mut Numbers, row: &Row) -> Result<(), TableFault>
    ensures { TakesRow result (AreNumbersOf numbers.old) (AreNumbersOf numbers.new) row.now }
{
    let Some(num) = number_at(row, 0) else {
        return Ok(());
    };
    if num > 0 && num - 1 == numbers.turn {
        numbers.turn = num;
        return Ok(());
    }
    match numbers.others.insert(num) {
        Ok(_) => Ok(()),
        Err(_) => Err(TableFault::Memory),
    }
}

/// Whether each number up to the count of the rows is there.
pub(crate) fn count_from_one(numbers: &Numbers, count: u64) -> bool
    ensures { (rows : List Values) → AreNumbersOf numbers.now rows → count ≡ length rows
        → IsTrue result ↔ CountFromOne rows }
{
    for at in numbers.turn..count {
        if !numbers.others.contains(&(at + 1)) {
            return false;
        }
    }
    true
}
