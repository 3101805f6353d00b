//! The text of all items after a command that writes one of them: its lines are found by the
//! lengths of those before, and what comes after them is moved.
ghost use Rattle.std.specs.Prelude.{
  ◌≡◌,
  ◌++◌,
  ℕ,
  true,
  drop,
  if◌then◌else◌,
  map,
  take,
  IfSome,
  Some,
};
ghost use Rattle.std.specs.FinMap.Entries.{is_sorted};
ghost use Rattle.pid_file.specs.PathTexts.{path_text};
ghost use Rattle.pid_file.specs.Steps.Printing.{text_or_none};
ghost use Rattle.pid_file.specs.Trees.{text_cmp};
ghost use Rattle.pid_moderation.specs.Changes.{affected, edited};
ghost use Rattle.pid_moderation.specs.Items.{Items};
ghost use Rattle.pid_moderation.specs.Views.{Views};
ghost use Rattle.pid_tables.specs.Rows.Shows.{AreViews};
ghost use Rattle.pid_service.specs.KeptViews.{HoldsText, IsKeptText, extent_in};
ghost use Rattle.pid_service.specs.Steps.Renewing.{IsPlace, OpensTheSame, PutsLines, new_items};
ghost use Rattle.pid_service.specs.Steps.TextSinks.{HasItems};

use crate::items_text::GrowingText;
use crate::kept_text::{Extent, FIRST, KeptText, MOST_BYTES};
use pid_file::opened_block;
use pid_ident::Path;
use pid_moderation::{Edit, Effect, Write};
use std::alloc::Global;
use std::cmp::Ordering;

// Where the lines of a path are in the text, or would be.
#[derive(Clone, Copy)]
struct TextPlace {
    // Whether the path has lines.
    there: bool,
    // How many items come before it, and how many with it.
    index: usize,
    after: usize,
    // Where its lines begin and end.
    start: usize,
    end: usize,
    // The item before it.
    before: Option<Path>,
}

// The place of a path. None if the text is longer than one that is kept.
fn place_of(extents: &[Extent], path: Path) -> Option<TextPlace>
    ensures { IfSome result (λ place. IsPlace place (map extent_in extents.now) (path_text path)) }
{
    let mut start = FIRST;
    let mut before = None;
    for (index, extent) in extents.iter().enumerate() {
        let end = start + usize::from(extent.length);
        if MOST_BYTES < end {
            return None;
        }
        match path.cmp(&extent.path) {
            Ordering::Greater => {
                start = end;
                before = Some(extent.path);
            }
            Ordering::Equal => {
                return Some(TextPlace {
                    there: true,
                    index,
                    after: index + 1,
                    start,
                    end,
                    before,
                });
            }
            Ordering::Less => {
                return Some(TextPlace {
                    there: false,
                    index,
                    after: index,
                    start,
                    end: start,
                    before,
                });
            }
        }
    }
    let index = extents.len();
    Some(TextPlace {
        there: false,
        index,
        after: index,
        start,
        end: start,
        before,
    })
}

// The lines of a path after an edit, if memory is there for them: none if its item is removed.
fn new_lines(alloc: Global, before: Option<Path>, write: &Write) -> Option<GrowingText>
    ensures { IfSome result
        (λ text. HasItems text (text_or_none before) (new_items write.now)) }
{
    let mut text = GrowingText::new(alloc);
    match &write.edit {
        Edit::Add(name) | Edit::Rename(name) => {
            if text.add_lines(before, &write.path, name.as_str()) {
                Some(text)
            } else {
                None
            }
        }
        Edit::Remove => Some(text),
    }
}

// Whether the first of these items opens a block after the one path as it does after the other.
fn opens_the_same(before: Option<Path>, now: Option<Path>, extents: &[Extent]) -> bool
    ensures { result ≡ true
        → OpensTheSame (text_or_none before) (text_or_none now)
        (map extent_in extents.now) }
{
    match extents.first() {
        Some(extent) => {
            let was = opened_block(before, extent.path).is_some();
            opened_block(now, extent.path).is_some() == was
        }
        None => true,
    }
}

// Puts these elements in the place of those from one index to another, if memory is there.
fn put<T: Copy + Drop>(
    alloc: Global,
    items: &mut Vec<T>,
    start: usize,
    end: usize,
    new: &[T],
) -> bool
    ensures { result ≡ true
        → items.new.items ≡ take start items.old.items ++ (new.now ++ drop end items.old.items) }
{
    if items.len() < end {
        return false;
    }
    match Vec::from_slice(alloc, &items.as_slice()[end..]) {
        Ok(rest) => {
            items.truncate(start);
            let done = items.extend_from_slice(new).is_ok()
                && items.extend_from_slice(rest.as_slice()).is_ok();
            drop(rest);
            done
        }
        Err(_) => false,
    }
}

// The path before what follows a place: that of the place, if it has lines.
fn path_before(place: &TextPlace, path: Path, has_lines: bool) -> Option<Path>
    ensures { result ≡ (if has_lines then Some path else place.now.before) }
{
    if has_lines { Some(path) } else { place.before }
}

// Puts new lines in their place. False if memory runs out, if the text gets too long, or if the
// item after them begins a block that it did not begin, or begins it no more.
fn put_lines(
    alloc: Global,
    text: &mut KeptText,
    place: &TextPlace,
    path: Path,
    new: &GrowingText,
) -> bool
    ensures { result ≡ true → PutsLines text.old text.new place.now path new.now }
{
    if text.extents.len() < place.after {
        return false;
    }
    let before = path_before(place, path, place.there);
    let now = path_before(place, path, !new.extents.is_empty());
    let same = opens_the_same(before, now, &text.extents.as_slice()[place.after..]);
    if !same {
        return false;
    }
    let lines = new.buffer.taken.as_slice();
    if !put(alloc, &mut text.bytes, place.start, place.end, lines) {
        return false;
    }
    let extents = new.extents.as_slice();
    let done = put(alloc, &mut text.extents, place.index, place.after, extents);
    done && text.bytes.len() <= MOST_BYTES
}

// Writes an item into the text of all.
fn renew(alloc: Global, text: &mut KeptText, write: &Write) -> bool
    ensures { result ≡ true → (items : Items) → is_sorted text_cmp items ≡ true
        → IsKeptText text.old items
        → IsKeptText text.new (edited (path_text write.now.path) write.now.edit items) }
{
    let Some(place) = place_of(text.extents.as_slice(), write.path) else {
        return false;
    };
    match new_lines(alloc, place.before, write) {
        Some(new) => {
            let done = put_lines(alloc, text, &place, write.path, &new);
            drop(new);
            done
        }
        None => false,
    }
}

/// Renews the text of all items after a change. None is kept after an import, if memory runs out,
/// and if the first generic subsystem of a vendor comes or goes before another one, which is rare.
pub(crate) fn follow_text(alloc: Global, kept: &mut Option<KeptText>, effect: &Effect)
    ensures { (n : ℕ) (v : Views) → AreViews v → HoldsText kept.old v.items
        → HoldsText kept.new (affected n effect.now v).items }
{
    let Some(text) = kept else {
        return;
    };
    match effect {
        Effect::Decided { write, .. } => match write {
            Some(write) => {
                if !renew(alloc, text, write) {
                    *kept = None;
                }
            }
            None => {}
        },
        Effect::Imported { .. } => *kept = None,
        Effect::Nothing
        | Effect::Ranked { .. }
        | Effect::Submitted { .. }
        | Effect::Remarked { .. } => {}
    }
}
