//! The items directly below a path, from what is kept in memory.
ghost use Rattle.std.specs.Prelude.{
  ◌≡◌,
  ◌≤◌,
  ◌∷◌,
  ◌-◌,
  [],
  drop,
  length,
  map,
  option_map,
  take,
  true,
  IfSome,
};
ghost use Rattle.pid_file.specs.PathTexts.{path_text};
ghost use Rattle.pid_file.specs.Steps.Printing.{text_or_none};
ghost use Rattle.pid_moderation.specs.Children.{children_of, stands_below};
ghost use Rattle.pid_moderation.specs.ItemPairs.{pair_of};
ghost use Rattle.pid_moderation.specs.Items.{Items};
ghost use Rattle.pid_moderation.specs.Views.{Views};
ghost use Rattle.pid_service.specs.KeptViews.{IsKeptText, IsRightFor};
ghost use Rattle.pid_service.specs.Steps.KeptChildren.{before_name};
ghost use Rattle.pid_tables.specs.Lists.Steps.Adding.{Adds};

use crate::items_text::{block_length, label_length};
use crate::kept_text::{Extent, FIRST, KeptText, MOST_BYTES};
use crate::kept_views::KeptViews;
use crate::top::copied;
use pid_ident::{Name, NameText, Path};
use pid_moderation::Item;
use std::alloc::Global;

// How many bytes come before the name in the lines of an item.
fn before_name_length(before: Option<Path>, path: Path) -> usize
    ensures exact { result ≡ length (before_name (text_or_none before) (path_text path)) }
    ensures few { result ≤ 20 }
{
    (block_length(before, path) + label_length(path)) as usize + 2
}

// Whether a path is directly below another one, or at the top.
fn is_below(path: Path, above: Option<Path>) -> bool
    ensures { result ≡ stands_below (option_map path_text above) (path_text path) }
{
    match path.parent() {
        Some(parent) => match above {
            Some(above) => above == parent,
            None => false,
        },
        None => above.is_none(),
    }
}

// The name that these bytes are, if memory is there for it.
fn name_in(alloc: Global, bytes: &[u8]) -> Option<Name>
    ensures { IfSome result (λ name. name ≡ bytes.now) }
{
    match str::from_utf8(bytes) {
        Ok(text) => match Name::of(alloc, text) {
            Ok(name) => Some(name),
            Err(_) => None,
        },
        Err(_) => None,
    }
}

// Adds the item whose name begins in the text at one place, and whose line ends at another.
fn add_child(
    alloc: Global,
    found: &mut Vec<Item>,
    bytes: &[u8],
    path: Path,
    first: usize,
    end: usize,
) -> bool
    ensures { result ≡ true → Adds pair_of found.old.items found.new.items
        ((path_text path, take (end - 1 - first) (drop first bytes.now)) ∷ []) }
{
    if end <= first || bytes.len() < end {
        return false;
    }
    match name_in(alloc, &bytes[first..end - 1]) {
        Some(name) => found.push(Item { path, name }).is_ok(),
        None => false,
    }
}

// The items directly below a path, or at the top, read from the text. None if memory runs out.
fn children_in(alloc: Global, text: &KeptText, above: Option<Path>) -> Option<Vec<Item>>
    ensures { (items : Items) → IsKeptText text.now items → IfSome result (λ found.
        map pair_of found.items ≡ children_of (option_map path_text above) items) }
{
    let bytes = text.bytes.as_slice();
    let extents = text.extents.as_slice();
    let mut found = Vec::new(alloc);
    let mut start = FIRST;
    let mut before = None;
    for extent in extents {
        let end = start + usize::from(extent.length);
        if MOST_BYTES < end {
            return None;
        }
        if is_below(extent.path, above) {
            let first = start + before_name_length(before, extent.path);
            if !add_child(alloc, &mut found, bytes, extent.path, first, end) {
                return None;
            }
        }
        start = end;
        before = Some(extent.path);
    }
    Some(found)
}

// Up to so many items below a path are always read from their rows: the text is walked over whole.
const FEW: usize = 256;

// Whether a path is below another one, at any depth.
fn is_within(path: Path, above: Path) -> bool {
    match path.parent() {
        Some(parent) if parent == above => true,
        Some(parent) => parent.parent() == Some(above),
        None => false,
    }
}

// Whether what is below a path is sooner found in the text than in the rows. Both have the same: this
// decides about time alone. To read a row takes as long as to walk over some 128 items.
fn is_sooner_in_text(extents: &[Extent], above: Option<Path>) -> bool {
    let Some(above) = above else {
        return true;
    };
    let few = FEW.max(extents.len() / 128);
    let first = extents.partition_point(|extent| extent.path <= above);
    match extents.get(first.saturating_add(few)) {
        Some(extent) => is_within(extent.path, above),
        None => false,
    }
}

impl KeptViews {
    /// The items directly below a path, or at the top, if they are kept, if they are many or at the
    /// top, and if memory is there for them.
    pub(crate) fn children(&self, alloc: Global, above: Option<Path>) -> Option<Vec<Item>>
        ensures { (v : Views) → IsRightFor self.now v → IfSome result (λ found.
            map pair_of found.items ≡ children_of (option_map path_text above) v.items) }
    {
        if above.is_none() {
            if let Some(top) = &self.top {
                return copied(alloc, top.as_slice());
            }
        }
        let Some(text) = &self.items.text else {
            return None;
        };
        if is_sooner_in_text(text.extents.as_slice(), above) {
            children_in(alloc, text, above)
        } else {
            None
        }
    }
}
