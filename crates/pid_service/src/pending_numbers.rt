//! The numbers of what is pending.
ghost use Rattle.std.specs.Prelude.{
  ◌≡◌,
  ◌∷◌,
  ◌++◌,
  ◌+◌,
  [],
  true,
  false,
  nat_lt,
  IfSome,
  filter,
  length,
  map,
  take,
};
ghost use Rattle.pid_moderation.specs.PendingPages.{told_of, pending_above};
ghost use Rattle.pid_tables.specs.Lists.Laws.{pending_number};
ghost use Rattle.pid_tables.specs.Lists.Pages.{last_of};
ghost use Rattle.pid_service.specs.KeptViews.{HoldsPending};
ghost use Rattle.pid_service.specs.Steps.PendingNumbers.{its_number};
ghost use Rattle.pid_service.specs.Steps.Asking.{ReadsIn};

use pid_moderation::{PAGE, Pending};
use pid_tables::{Database, TableFault, Tables};
use std::alloc::Global;

// The most numbers that are kept, and the pages that have them.
const MOST_NUMBERS: usize = 10_000_000;

const PAGES: u32 = 100_001;

/// Adds a number, if memory is there and the most are not reached.
pub(crate) fn add_number(numbers: &mut Vec<u32>, number: u32) -> bool
    ensures { result ≡ true → numbers.new.items ≡ numbers.old.items ++ number ∷ [] }
{
    numbers.len() < MOST_NUMBERS && numbers.push(number).is_ok()
}

// Adds the numbers of a page.
fn add_numbers(numbers: &mut Vec<u32>, page: &[Pending]) -> bool
    ensures { result ≡ true
        → numbers.new.items ≡ numbers.old.items ++ map its_number page.now }
{
    for pending in page {
        if !add_number(numbers, pending.number) {
            return false;
        }
    }
    true
}

// The number after which the next page is asked.
fn last_number(after: u32, page: &[Pending]) -> u32
    ensures { result ≡ last_of pending_number after (map told_of page.now) }
{
    match page.last() {
        Some(pending) => pending.number,
        None => after,
    }
}

/// The numbers of what is pending, rising, by pages of submissions. None if they are too many, or if
/// there is no memory for them.
pub(crate) fn read_pending_numbers<C: Database + Drop>(
    tables: &mut Tables<C>,
    alloc: Global,
) -> Result<Option<Vec<u32>>, TableFault>
    ensures { ReadsIn C.Database tables.old tables.new result
        (λ v numbers. HoldsPending numbers v) }
{
    let mut numbers = Vec::new(alloc);
    let mut after = 0;
    for _ in 0..PAGES {
        let page = tables.pending_page(alloc, after)?;
        let listed = page.as_slice();
        let added = add_numbers(&mut numbers, listed);
        let is_last = listed.len() < PAGE;
        after = last_number(after, listed);
        drop(page);
        if !added {
            return Ok(None);
        }
        if is_last {
            return Ok(Some(numbers));
        }
    }
    Ok(None)
}

// A count and the length of a page.
fn count_page(count: u32, page: &[Pending]) -> Option<u32>
    ensures { IfSome result (λ n. n ≡ count + length page.now) }
{
    match u32::try_from(page.len()) {
        Ok(more) => count.checked_add(more),
        Err(_) => None,
    }
}

/// How many submissions are pending: their numbers are counted, if they are kept, and else pages of
/// them.
pub(crate) fn count_pending<C: Database + Drop>(
    tables: &mut Tables<C>,
    alloc: Global,
    numbers: &Option<Vec<u32>>,
) -> Result<u32, TableFault>
    ensures { ReadsIn C.Database tables.old tables.new result
        (λ v n. HoldsPending numbers.now v → n ≡ length (pending_above 0 v)) }
{
    if let Some(numbers) = numbers {
        return match u32::try_from(numbers.len()) {
            Ok(count) => Ok(count),
            Err(_) => Err(TableFault::Memory),
        };
    }
    let mut count = 0u32;
    let mut after = 0;
    for _ in 0..u32::MAX {
        let page = tables.pending_page(alloc, after)?;
        let listed = page.as_slice();
        let more = count_page(count, listed);
        let is_last = listed.len() < PAGE;
        after = last_number(after, listed);
        drop(page);
        let Some(more) = more else {
            return Err(TableFault::Memory);
        };
        if is_last {
            return Ok(more);
        }
        count = more;
    }
    Err(TableFault::Memory)
}

/// The first numbers above a number, as many as a page holds. None if memory runs out.
pub(crate) fn numbers_above(alloc: Global, numbers: &[u32], after: u32) -> Option<Vec<u32>>
    ensures { IfSome result
        (λ page. page.items ≡ take PAGE (filter (nat_lt after) numbers.now)) }
{
    let mut page = Vec::new(alloc);
    for number in numbers {
        if after < *number && page.len() < PAGE && page.push(*number).is_err() {
            return None;
        }
    }
    Some(page)
}
