//! The vendors and the classes with their names, as a registry keeps them in memory.
ghost use Rattle.std.specs.Prelude.{◌≡◌, ◌∷◌, [], ℕ, true, false, IfSome, map, option_map};
ghost use Rattle.pid_file.specs.PathTexts.{path_text};
ghost use Rattle.pid_moderation.specs.Changes.{affected};
ghost use Rattle.pid_moderation.specs.Children.{children_of};
ghost use Rattle.pid_moderation.specs.ItemPairs.{pair_of};
ghost use Rattle.pid_moderation.specs.Views.{Views};
ghost use Rattle.pid_service.specs.KeptViews.{HoldsTop, IsRightFor, top_of};
ghost use Rattle.pid_tables.specs.Lists.Steps.Adding.{Adds};

use crate::kept_views::KeptViews;
use pid_ident::{NameText, Path};
use pid_moderation::{Effect, Item};
use std::alloc::Global;

// Whether a change may write a vendor or a class.
fn writes_top(effect: &Effect) -> bool
    ensures { (n : ℕ) (v : Views) → result ≡ false
        → top_of (affected n effect.now v) ≡ top_of v }
{
    match effect {
        Effect::Decided { write, .. } => match write {
            Some(write) => write.path.parent().is_none(),
            None => false,
        },
        Effect::Imported { .. } => true,
        Effect::Nothing
        | Effect::Ranked { .. }
        | Effect::Submitted { .. }
        | Effect::Remarked { .. } => false,
    }
}

/// Keeps the vendors and the classes through a change, unless it may write one of them.
pub(crate) fn follow_top(top: &mut Option<Vec<Item>>, effect: &Effect)
    ensures { (n : ℕ) (v : Views) → HoldsTop top.old v
        → HoldsTop top.new (affected n effect.now v) }
{
    if !writes_top(effect) {
        return;
    }
    *top = None;
}

// Adds a copy of an item, if memory is there.
fn add_copy(copy: &mut Vec<Item>, item: &Item) -> bool
    ensures { result ≡ true → Adds pair_of copy.old.items copy.new.items (pair_of item.now ∷ []) }
{
    match item.name.copy() {
        Ok(name) => {
            let path = item.path;
            copy.push(Item { path, name }).is_ok()
        }
        Err(_) => false,
    }
}

/// The items once more. None if memory runs out.
pub(crate) fn copied(alloc: Global, items: &[Item]) -> Option<Vec<Item>>
    ensures { IfSome result (λ copy. map pair_of copy.items ≡ map pair_of items.now) }
{
    let mut copy = Vec::new(alloc);
    for item in items {
        if !add_copy(&mut copy, item) {
            return None;
        }
    }
    Some(copy)
}

impl KeptViews {
    /// Keeps a copy of what is at the top, if that was asked for and memory is there for it.
    pub(crate) fn keep_top(&mut self, alloc: Global, above: Option<Path>, items: &[Item])
        ensures { (v : Views) → IsRightFor self.old v
            → map pair_of items.now ≡ children_of (option_map path_text above) v.items
            → IsRightFor self.new v }
    {
        match above {
            None => {
                if self.top.is_none() {
                    self.top = copied(alloc, items);
                }
            }
            Some(_) => {}
        }
    }
}
