//! The items directly below a path.
ghost use Rattle.std.specs.Prelude.{
  ◌≡◌,
  ◌∷◌,
  ◌++◌,
  [],
  None,
  Some,
  false,
  map,
  option_map,
  MatchResult,
};
ghost use Rattle.pid_ident.specs.PathTexts.{path_text};
ghost use Rattle.pid_ident.specs.PathReading.{parent_text};
ghost use Rattle.pid_moderation.specs.Items.{Items, is_parent};
ghost use Rattle.pid_moderation.specs.WellMade.{IsItem, AllItems};
ghost use Rattle.pid_reader.specs.LookingBack.{Item as Pair};
ghost use Rattle.pid_tables.specs.Rows.Steps.Answers.{item_shown};
ghost use Rattle.pid_moderation.specs.ItemPairs.{pair_of};
ghost use Rattle.pid_tables.specs.Rows.Steps.Unread.{IsDamagedRow};
ghost use Rattle.pid_tables.specs.Rows.Shows.{AreViews};
ghost use Rattle.pid_moderation.specs.Children.{children_of};
ghost use Rattle.pid_tables.specs.Lists.Steps.Adding.{Adds};
ghost use Rattle.pid_tables.specs.Lists.Steps.Children.{children_among, under};
ghost use Rattle.pid_tables.specs.Lists.Children.{AreChildren};
ghost use Rattle.pid_tables.specs.Rows.Clauses.{Reads};

use crate::database::Database;
use crate::lists::adding::push_last;
use crate::lists::walk::EachEnd;
use crate::rows::TableFault;
use crate::rows::item::{item_of, range_below};
use crate::rows::run::read_rows;
use crate::tables::Tables;
use pid_ident::{Name, Path, PathText, hex4};
use pid_moderation::Item;
use pid_reader::{Entry, Sink};
use sqlite::Row;
use sqlite::types::ValueRef;
use std::alloc::Global;

fn is_child(item: Path, path: Path) -> bool
    ensures { result ≡ is_parent (path_text path) (parent_text (path_text item)) }
{
    match item.parent() {
        Some(parent) => path == parent,
        None => false,
    }
}

// One more row, whose item is kept if it is a child.
fn add_child(kept: &mut Vec<Item>, row: &Row, alloc: Global, path: Path) -> Result<(), TableFault>
    ensures { (e : Pair) → row.now ≡ item_shown e → MatchResult result
        (λ _. Adds pair_of kept.old.items kept.new.items (children_among path (e ∷ [])))
        (IsDamagedRow (IsItem e.0 e.1)) }
{
    let item = item_of(row, alloc)?;
    if is_child(item.path, path) {
        push_last(kept, item)
    } else {
        Ok(())
    }
}

fn add_children(
    kept: &mut Vec<Item>,
    rows: &[Row],
    alloc: Global,
    path: Path,
) -> Result<(), TableFault>
    ensures { (items : Items) → rows.now ≡ map item_shown items → MatchResult result
        (λ _. Adds pair_of kept.old.items kept.new.items (children_among path items))
        (IsDamagedRow (AllItems items)) }
{
    for row in rows {
        add_child(kept, row, alloc, path)?;
    }
    Ok(())
}

// Keeps the items that are directly below the path, of those whose paths go on after the text of
// the two parts and a slash.
fn add_under<C: Database + Drop>(
    kept: &mut Vec<Item>,
    tables: &mut Tables<C>,
    alloc: Global,
    front: &[u8],
    rest: &[u8],
    path: Path,
) -> Result<(), TableFault>
    ensures { Reads C.state tables.old.conn tables.new.conn result (λ v _. AreViews v
        × Adds pair_of kept.old.items kept.new.items
        (children_among path (under (front.now ++ rest.now) v.items))) }
{
    let range = range_below(alloc, front, rest)?;
    let low = ValueRef::Text(range.low.as_slice());
    let high = ValueRef::Text(range.high.as_slice());
    let rows = read_rows(
        tables,
        "SELECT path, name FROM item WHERE path > ?1 AND path < ?2 ORDER BY path",
        &[low, high],
    )?;
    add_children(kept, rows.as_slice(), alloc, path)
}

// Keeps the items at the top.
#[derive(Drop)]
struct Tops {
    kept: Vec<Item>,
    alloc: Global,
}

impl Sink for Tops {
    ghost use Rattle.std.specs.Prelude.{◌≡◌, ◌∷◌, ◌++◌, [], None, filter, map};
    ghost use Rattle.pid_reader.specs.Numbered.{item_in};
    ghost use Rattle.pid_moderation.specs.ItemPairs.{pair_of};
    ghost use Rattle.pid_tables.specs.declared.rows.fault.TableFault.TheVariants.{Memory};
    ghost use Rattle.pid_moderation.specs.Children.{stands_below};

    type Fault = TableFault;

    ghost takes = { λ s e t. map pair_of t.kept.items
        ≡ map pair_of s.kept.items ++ filter (λ e. stands_below None e.0) (item_in e ∷ []) };

    ghost faults = { λ s e f t. f ≡ Memory };

    fn entry(&mut self, entry: &Entry<'_>) -> Result<(), TableFault> {
        match entry.path.parent() {
            Some(_) => Ok(()),
            None => {
                let name = Name::of_checked(self.alloc, entry.name)?;
                let path = entry.path;
                push_last(&mut self.kept, Item { path, name })
            }
        }
    }
}

impl<C: Database + Drop> Tables<C> {
    fn at_the_top(&mut self, alloc: Global) -> Result<Vec<Item>, TableFault>
        ensures { Reads C.state self.old.conn self.new.conn result
            (λ v items. map pair_of items.items ≡ children_of None v.items) }
    {
        let mut tops = Tops {
            kept: Vec::new(alloc),
            alloc,
        };
        match self.each_item(&mut tops) {
            Ok(()) => {
                let Tops { kept, alloc: _ } = tops;
                Ok(kept)
            }
            Err(EachEnd::Tables(fault)) => Err(fault),
            Err(EachEnd::Fault(fault)) => Err(fault),
        }
    }

    /// The items directly below a path, in the canonical order, which puts the generic subsystems
    /// of a vendor after its devices. Without a path, the vendors and the classes.
    ///
    /// Vendors and classes have no range of their own, so all items are walked over. It holds of
    /// views whose paths are paths, as those of every history are.
    pub fn children(&mut self, alloc: Global, above: Option<Path>) -> Result<Vec<Item>, TableFault>
        ensures { Reads C.state self.old.conn self.new.conn result
            (λ v items. AreChildren (option_map path_text above) v items.items) }
    {
        let Some(path) = above else {
            return self.at_the_top(alloc);
        };
        let text = path.path_text(alloc)?;
        let mut kept = Vec::new(alloc);
        let added = add_under(&mut kept, self, alloc, b"", text.as_bytes(), path);
        drop(text);
        added?;
        match path {
            Path::Vendor { vendor } => {
                // its generic subsystems, as PS/8086/.. of PC/8086
                let digits = hex4(vendor);
                add_under(&mut kept, self, alloc, b"PS/", digits.as_slice(), path)?;
                Ok(kept)
            }
            _ => Ok(kept),
        }
    }
}
