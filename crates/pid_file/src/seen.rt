//! Keys of paths that were seen, most of which come in order.
ghost use Rattle.std.specs.Prelude.{
  ◌≡◌,
  ◌∷◌,
  ◌++◌,
  [],
  true,
  false,
  IsTrue,
  not,
  IfOk,
  if◌then◌else◌,
};
ghost use Rattle.std.specs.Ordering.{nat_cmp};
ghost use Rattle.pid_file.specs.SeenItems.{IsRising, has_item, seen_items};
ghost use Rattle.pid_file.specs.Steps.SeenPaths.{IsOneMore};

use std::alloc::{AllocError, Global};
use std::collections::BTreeSet;

/// The keys that were seen: a run that rises, and the rest.
///
/// Those of a text in canonical order fill the run alone, where a new one costs one comparison.
#[derive(Drop)]
pub struct Seen {
    /// None is less than the one before it.
    pub run: Vec<u128>,
    /// Those that were not greater than the last of the run.
    pub rest: BTreeSet<u128>,
}

impl Seen {
    /// Nothing was seen.
    pub fn new(alloc: Global) -> Seen
        ensures empty { seen_items result ≡ [] }
        ensures rising { IsRising nat_cmp result.run.items }
    {
        Seen {
            run: Vec::new(alloc),
            rest: BTreeSet::new(alloc),
        }
    }

    /// Forgets all items.
    pub fn clear(&mut self)
        ensures empty { seen_items self.new ≡ [] }
        ensures rising { IsRising nat_cmp self.new.run.items }
    {
        self.run.clear();
        self.rest.clear();
    }

    // Whether the item is greater than all of the run.
    fn is_above_run(&self, item: &u128) -> bool
        ensures absent { IsTrue result → IsRising nat_cmp self.now.run.items
            → has_item nat_cmp self.now.run.items item.now ≡ false }
        ensures rising { IsTrue result → IsRising nat_cmp self.now.run.items
            → IsRising nat_cmp (self.now.run.items ++ item.now ∷ []) }
    {
        match self.run.last() {
            None => true,
            Some(last) => last.cmp(item).is_lt(),
        }
    }

    fn is_in_run(&self, item: &u128) -> bool
        ensures { IsRising nat_cmp self.now.run.items
            → result ≡ has_item nat_cmp self.now.run.items item.now }
    {
        self.run.binary_search(item).is_ok()
    }

    /// One more item, and whether it was not seen before.
    pub fn insert(&mut self, item: u128) -> Result<bool, AllocError>
        ensures rising { IsRising nat_cmp self.old.run.items → IsRising nat_cmp self.new.run.items }
        ensures added { IsRising nat_cmp self.old.run.items
            → IfOk result (λ added. added ≡ not (has_item nat_cmp (seen_items self.old) item)) }
        ensures updates { IsRising nat_cmp self.old.run.items
            → IfOk result (λ added. IsTrue added
            → IsOneMore nat_cmp (seen_items self.old) item (seen_items self.new)) }
    {
        if self.is_above_run(&item) {
            if self.rest.contains(&item) {
                return Ok(false);
            }
            if self.run.push(item).is_err() {
                return Err(AllocError);
            }
            return Ok(true);
        }
        if self.is_in_run(&item) {
            return Ok(false);
        }
        match self.rest.insert(item) {
            Ok(added) => Ok(added),
            Err(_) => Err(AllocError),
        }
    }
}
