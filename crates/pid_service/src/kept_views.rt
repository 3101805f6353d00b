//! What a registry keeps in memory of what is asked for again and again.
ghost use Rattle.std.specs.Prelude.{◌≡◌, ℕ, false, IfOk};
ghost use Rattle.pid_moderation.specs.Changes.{FitsEffect, FitsViews, affected, changed};
ghost use Rattle.pid_moderation.specs.Views.{Views};
ghost use Rattle.pid_tables.specs.Rows.Shows.{AreViews};
ghost use Rattle.pid_service.specs.KeptViews.{HoldsPending, IsRightFor, KeepsNothing, nothing};
ghost use Rattle.pid_service.specs.Steps.KeptItems.{LeavesTheRest};

use crate::accounts::accounts_after;
use crate::changes::{KeptChanges, changes_after};
use crate::kept_text::KeptText;
use crate::pending_numbers::add_number;
use crate::renewing::follow_text;
use crate::top::follow_top;
use pid_lookup::NameCache;
use pid_moderation::{Change, Effect, Item, State};
use pid_tables::searches::{Searches, numbers_after};
use std::alloc::{AllocError, Global};
use std::mem::replace;

/// Views of the items that the tables show, or nothing: the names that were asked for last, 1,024
/// at most, and the canonical text of all items, of 16,777,216 bytes at most.
#[derive(Drop)]
pub struct KeptItems {
    pub(crate) names: NameCache,
    pub(crate) text: Option<KeptText>,
}

/// Views of the history that the tables show, or nothing: those of the items, the vendors and the
/// classes with their names, the items that were changed last, 99 at most, the numbers of what is
/// pending, rising, those of all submissions, by their paths and by their authors, 10,000,000 of
/// either at most, and how many accounts there are.
#[derive(Drop)]
pub struct KeptViews {
    pub(crate) items: KeptItems,
    pub(crate) top: Option<Vec<Item>>,
    pub(crate) changes: Option<KeptChanges>,
    pub(crate) pending: Option<Vec<u32>>,
    /// Whether the numbers were read. If none are kept then, they were too many, or memory ran out.
    pub(crate) pending_read: bool,
    pub(crate) numbers: Searches,
    pub(crate) accounts: Option<u64>,
}

fn writes_items(effect: &Effect) -> bool
    ensures spares { (n : ℕ) (v : Views) → result ≡ false
        → (affected n effect.now v).items ≡ v.items }
    ensures numbers { (n : ℕ) (v : Views) → result ≡ false
        → (affected n effect.now v).since ≡ v.since }
{
    match effect {
        Effect::Decided { write, .. } => write.is_some(),
        Effect::Imported { .. } => true,
        Effect::Nothing
        | Effect::Ranked { .. }
        | Effect::Submitted { .. }
        | Effect::Remarked { .. } => false,
    }
}

// Renews the numbers of what is pending after a change. None are kept if memory runs out.
fn follow_pending(kept: &mut Option<Vec<u32>>, effect: &Effect)
    ensures { (n : ℕ) (v : Views) → AreViews v → FitsEffect effect.now v
        → HoldsPending kept.old v → HoldsPending kept.new (affected n effect.now v) }
{
    let Some(numbers) = kept else {
        return;
    };
    match effect {
        Effect::Submitted { number, .. } => {
            if !add_number(numbers, *number) {
                *kept = None;
            }
        }
        Effect::Decided { number, state, .. } => match state {
            State::Pending => *kept = None,
            State::Approved { .. } | State::Rejected { .. } | State::Withdrawn => {
                numbers.retain(|pending| *pending != *number);
            }
        },
        Effect::Nothing
        | Effect::Ranked { .. }
        | Effect::Remarked { .. }
        | Effect::Imported { .. } => {}
    }
}

impl KeptItems {
    /// Drops all that is kept.
    pub(crate) fn clear(&mut self)
        ensures { self.new ≡ nothing }
    {
        self.names.clear();
        self.text = None;
    }
}

impl KeptViews {
    /// Nothing is kept.
    pub(crate) fn new(alloc: Global) -> Result<KeptViews, AllocError>
        ensures { IfOk result KeepsNothing }
    {
        Ok(KeptViews {
            items: KeptItems {
                names: NameCache::new(alloc)?,
                text: None,
            },
            top: None,
            changes: None,
            pending: None,
            pending_read: false,
            numbers: Searches::Unread,
            accounts: None,
        })
    }

    /// Drops all that is kept.
    pub(crate) fn clear(&mut self)
        ensures { KeepsNothing self.new }
    {
        self.items.clear();
        self.top = None;
        self.changes = None;
        self.pending = None;
        self.pending_read = false;
        self.numbers = Searches::Unread;
        self.accounts = None;
    }

    /// Drops what is kept of items.
    pub(crate) fn forget_items(&mut self)
        ensures { (v w : Views) → LeavesTheRest v w → IsRightFor self.old v → IsRightFor self.new w }
    {
        self.items.clear();
        self.top = None;
        self.changes = None;
    }

    /// Follows a change: if it writes an item, the names are dropped, and the text and the changed
    /// items are renewed where that item is; the vendors and the classes are dropped if it writes
    /// one of them; the number of a submission is added when it is made, and taken away when it is
    /// decided; a new account is counted.
    pub(crate) fn follow(&mut self, alloc: Global, change: &Change)
        ensures { (v : Views) → AreViews v → FitsViews change.now v → IsRightFor self.old v
            → IsRightFor self.new (changed change.now v) }
    {
        follow_pending(&mut self.pending, &change.effect);
        let kept = replace(&mut self.numbers, Searches::Lacking);
        self.numbers = numbers_after(alloc, kept, &change.effect);
        self.accounts = accounts_after(self.accounts, &change.effect);
        follow_top(&mut self.top, &change.effect);
        if !writes_items(&change.effect) {
            return;
        }
        self.items.names.clear();
        follow_text(alloc, &mut self.items.text, &change.effect);
        self.changes = changes_after(alloc, &self.changes, change.revision, &change.effect);
    }
}
