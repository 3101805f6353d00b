//! The items that were changed last, as a registry keeps them in memory.
ghost use Rattle.std.specs.Prelude.{◌≡◌, ◌≤◌, ◌∷◌, ℕ, List, [], None, true, IfSome, map};
ghost use Rattle.std.specs.Ordering.{is_lt};
ghost use Rattle.pid_file.specs.PathTexts.{path_text};
ghost use Rattle.pid_file.specs.Trees.{text_cmp};
ghost use Rattle.pid_moderation.specs.ChangePages.{changed_after, changed_of, start_text};
ghost use Rattle.pid_moderation.specs.Changes.{
  FitsEdit,
  FitsEffect,
  affected,
};
ghost use Rattle.pid_moderation.specs.Items.{name_at};
ghost use Rattle.pid_moderation.specs.Views.{Views};
ghost use Rattle.pid_service.specs.KeptViews.{AreChanged, HoldsChanges};
ghost use Rattle.pid_service.specs.Steps.KeptChanges.{IsPage, changed_item, comes_after, later_in};
ghost use Rattle.pid_service.specs.Steps.KeptChanges.{after_write, on_side, with_edit};
ghost use Rattle.pid_service.specs.Steps.KeptChanges as steps;
ghost use Rattle.pid_tables.specs.Lists.Steps.Adding.{Adds};
ghost use Rattle.pid_tables.specs.Rows.Shows.{AreViews};

use pid_ident::{NameText, Path};
use pid_moderation::{ChangedItem, Edit, Effect, PAGE, Write};
use std::alloc::Global;

/// All items whose last change has a number above `since`, in the canonical order: fewer than a
/// page holds.
#[derive(Drop)]
pub struct KeptChanges {
    pub(crate) since: u64,
    pub(crate) items: Vec<ChangedItem>,
}

// Whether a path comes after another one. Without one, each does.
fn is_after(path: Path, after: Option<Path>) -> bool
    ensures { result ≡ is_lt (text_cmp (start_text after) (path_text path)) }
{
    match after {
        None => true,
        Some(after) => after.cmp(&path).is_lt(),
    }
}

// Whether the last change of an item has a number above `since`, and its path comes after that one.
fn is_later(item: &ChangedItem, since: u64, after: Option<Path>) -> bool
    ensures { result ≡ comes_after since (start_text after) (changed_of item.now) }
{
    is_after(item.path, after) && since < item.since
}

// Adds a copy of an item, if memory is there.
fn add_copy(page: &mut Vec<ChangedItem>, item: &ChangedItem) -> bool
    ensures { result ≡ true
        → Adds changed_of page.old.items page.new.items (changed_of item.now ∷ []) }
{
    match item.name.copy() {
        Ok(name) => {
            let path = item.path;
            let since = item.since;
            page.push(ChangedItem { path, name, since }).is_ok()
        }
        Err(_) => false,
    }
}

// Adds a copy of an item if it belongs to a page, if memory is there.
fn add_later(
    page: &mut Vec<ChangedItem>,
    item: &ChangedItem,
    since: u64,
    after: Option<Path>,
) -> bool
    ensures { result ≡ true → Adds changed_of page.old.items page.new.items
        (later_in since after (item.now ∷ [])) }
{
    if is_later(item, since, after) {
        add_copy(page, item)
    } else {
        true
    }
}

// Copies of the items that belong to a page. None if memory runs out.
fn later_items(
    alloc: Global,
    items: &[ChangedItem],
    since: u64,
    after: Option<Path>,
) -> Option<Vec<ChangedItem>>
    ensures { IfSome result
        (λ page. map changed_of page.items ≡ later_in since after items.now) }
{
    let mut page = Vec::new(alloc);
    for item in items {
        if !add_later(&mut page, item, since, after) {
            return None;
        }
    }
    Some(page)
}

/// The items of a page, if none was changed after the number, or if what is kept has them all and
/// memory is there for them.
pub(crate) fn known_page(
    alloc: Global,
    kept: &Option<KeptChanges>,
    revision: u64,
    since: u64,
    after: Option<Path>,
) -> Option<Vec<ChangedItem>>
    ensures { (v : Views) → revision ≡ v.revision
        → ((path : List ℕ) → v.since path ≤ v.revision) → HoldsChanges kept.now v
        → IfSome result (λ page. IsPage since after v page.items) }
{
    if revision <= since {
        return Some(Vec::new(alloc));
    }
    let Some(kept) = kept else {
        return None;
    };
    if since < kept.since {
        return None;
    }
    later_items(alloc, kept.items.as_slice(), since, after)
}

// The items of a first page, if it has all that were changed after a number. None if it is full, or
// if memory runs out.
fn whole_page(alloc: Global, since: u64, page: &[ChangedItem]) -> Option<KeptChanges>
    ensures { (v : Views) → IsPage since None v page.now → HoldsChanges result v }
{
    if PAGE <= page.len() {
        return None;
    }
    let items = later_items(alloc, page, since, None)?;
    Some(KeptChanges { since, items })
}

/// Keeps a page that was read, if it has all that were changed after a number and memory is there
/// for it.
pub(crate) fn keep_page(
    alloc: Global,
    kept: &mut Option<KeptChanges>,
    since: u64,
    after: Option<Path>,
    page: &[ChangedItem],
)
    ensures { (v : Views) → HoldsChanges kept.old v → IsPage since after v page.now
        → HoldsChanges kept.new v }
{
    match after {
        Some(_) => {}
        None => match whole_page(alloc, since, page) {
            Some(whole) => *kept = Some(whole),
            None => {}
        },
    }
}

// Whether an item comes before a path, or else after it.
fn is_on(before: bool, path: Path, item: &ChangedItem) -> bool
    ensures { result ≡ steps.is_on before (path_text path) (path_text item.now.path) }
{
    let order = path.cmp(&item.path);
    if before { order.is_gt() } else { order.is_lt() }
}

// Adds a copy of an item if it comes before a path, or else after it, if memory is there.
fn add_on(page: &mut Vec<ChangedItem>, item: &ChangedItem, path: Path, before: bool) -> bool
    ensures { result ≡ true → Adds changed_of page.old.items page.new.items
        (on_side before (path_text path) (changed_of item.now ∷ [])) }
{
    if is_on(before, path, item) {
        add_copy(page, item)
    } else {
        true
    }
}

// Adds copies of the items that come before a path, or else after it, if memory is there.
fn add_side(page: &mut Vec<ChangedItem>, items: &[ChangedItem], path: Path, before: bool) -> bool
    ensures { result ≡ true → Adds changed_of page.old.items page.new.items
        (on_side before (path_text path) (map changed_of items.now)) }
{
    for item in items {
        if !add_on(page, item, path, before) {
            return false;
        }
    }
    true
}

// Adds the item that a write leaves at its path, if it leaves one and memory is there.
fn add_written(page: &mut Vec<ChangedItem>, write: &Write, since: u64) -> bool
    ensures { result ≡ true → Adds changed_of page.old.items page.new.items
        (changed_item since (path_text write.now.path) write.now.edit) }
{
    match &write.edit {
        Edit::Add(name) | Edit::Rename(name) => match name.copy() {
            Ok(name) => {
                let path = write.path;
                page.push(ChangedItem { path, name, since }).is_ok()
            }
            Err(_) => false,
        },
        Edit::Remove => true,
    }
}

// Copies of the items, with the one that a write leaves in its place. None if memory runs out.
fn with_write(
    alloc: Global,
    items: &[ChangedItem],
    write: &Write,
    since: u64,
) -> Option<Vec<ChangedItem>>
    ensures { IfSome result (λ page. map changed_of page.items
        ≡ with_edit since (path_text write.now.path) write.now.edit (map changed_of items.now)) }
{
    let mut page = Vec::new(alloc);
    let before = add_side(&mut page, items, write.path, true);
    if !before || !add_written(&mut page, write, since) {
        return None;
    }
    let after = add_side(&mut page, items, write.path, false);
    if after { Some(page) } else { None }
}

// The least number of an item.
fn least_number(items: &[ChangedItem]) -> u64 {
    let mut least = u64::MAX;
    for item in items {
        if item.since < least {
            least = item.since;
        }
    }
    least
}

// All items but those that were changed first. None if they are a page still, or if memory runs
// out.
fn without_first(alloc: Global, since: u64, items: &[ChangedItem]) -> Option<KeptChanges>
    ensures { (v : Views) → map changed_of items.now ≡ changed_after since [] v
        → HoldsChanges result v }
{
    let least = least_number(items);
    if least < since {
        return None;
    }
    let items = later_items(alloc, items, least, None)?;
    if PAGE <= items.len() {
        return None;
    }
    Some(KeptChanges {
        since: least,
        items,
    })
}

// What is kept after a command with this number wrote an item.
fn renewed(alloc: Global, kept: &KeptChanges, number: u64, write: &Write) -> Option<KeptChanges>
    ensures { (v : Views) → AreViews v
        → FitsEdit write.now.edit (name_at (path_text write.now.path) v.items)
        → AreChanged kept.now v → HoldsChanges result (after_write number write.now v) }
{
    let since = kept.since;
    if number <= since {
        return None;
    }
    let items = with_write(alloc, kept.items.as_slice(), write, number)?;
    if items.len() < PAGE {
        return Some(KeptChanges { since, items });
    }
    without_first(alloc, since, items.as_slice())
}

/// What is kept after a change that leads to this revision and writes an item: that item is among
/// what was changed last, and what was changed first is let go where they would be a page. None
/// after an import, and if memory runs out.
pub(crate) fn changes_after(
    alloc: Global,
    kept: &Option<KeptChanges>,
    revision: u64,
    effect: &Effect,
) -> Option<KeptChanges>
    ensures { (v : Views) → AreViews v → FitsEffect effect.now v → HoldsChanges kept.now v
        → HoldsChanges result (affected revision effect.now v) }
{
    let Some(kept) = kept else {
        return None;
    };
    match effect {
        Effect::Decided { write, .. } => match write {
            Some(write) => renewed(alloc, kept, revision, write),
            None => None,
        },
        Effect::Imported { .. }
        | Effect::Nothing
        | Effect::Ranked { .. }
        | Effect::Submitted { .. }
        | Effect::Remarked { .. } => None,
    }
}
