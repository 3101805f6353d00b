//! The numbers of submissions, by their paths and by their authors.
ghost use Rattle.std.specs.Prelude.{
  ◌≡◌,
  ◌⊎◌,
  ◌∷◌,
  ◌++◌,
  ◌+◌,
  [],
  ℕ,
  List,
  Option,
  true,
  length,
  IfSome,
};
ghost use Rattle.std.specs.List.Sorted.{IsNonDecreasing};
ghost use Rattle.std.specs.Option.{option_copied};
ghost use Rattle.pid_moderation.specs.Changes.{FitsEffect, affected};
ghost use Rattle.pid_moderation.specs.Views.{Views};
ghost use Rattle.pid_tables.specs.Searches.Steps.Among.{IsServing, LeavesOutNone, are_below};
ghost use Rattle.pid_tables.specs.Searches.Filings.{filings_in};
ghost use Rattle.pid_tables.specs.Searches.KeptNumbers.{
  AreListsOf,
  AreKeptFor,
  HoldsNumbers,
  numbers_named,
};

use pid_ident::{Account, Path, PathText};
use pid_moderation::Effect;
use std::alloc::Global;
use std::collections::BTreeMap;

/// The numbers of all submissions, rising: those for each path, and those of each author.
#[derive(Drop)]
pub struct Kept {
    pub paths: BTreeMap<String, Vec<u32>>,
    pub authors: BTreeMap<String, Vec<u32>>,
}

/// The numbers, if they are kept.
#[derive(Drop)]
pub enum Searches {
    /// They were not read.
    Unread,
    /// They are too many, or memory ran out.
    Lacking,
    Kept(Kept),
}

// Adds a number to the list of a text, if memory is there.
fn add_to(lists: &mut BTreeMap<String, Vec<u32>>, alloc: Global, text: &str, number: u32) -> bool
    ensures { (texts : List (List ℕ)) → AreListsOf lists.old texts
        → number ≡ length texts + 1 → result ≡ true
        → AreListsOf lists.new (texts ++ text.now ∷ []) }
{
    let Ok(key) = String::from_str(alloc, text) else {
        return false;
    };
    match lists.entry(key) {
        Ok(entry) => entry.or_default().push(number).is_ok(),
        Err(_) => false,
    }
}

/// Adds the number of a submission, if memory is there.
pub(crate) fn add_number(
    kept: &mut Kept,
    alloc: Global,
    number: u32,
    path: &str,
    author: &str,
) -> bool
    ensures { (filings : List (List ℕ × List ℕ)) → AreKeptFor kept.old filings
        → number ≡ length filings + 1 → result ≡ true
        → AreKeptFor kept.new (filings ++ (path.now, author.now) ∷ []) }
{
    add_to(&mut kept.paths, alloc, path, number) && add_to(&mut kept.authors, alloc, author, number)
}

/// The numbers after a change.
pub fn numbers_after(alloc: Global, numbers: Searches, effect: &Effect) -> Searches
    ensures { (n : ℕ) (v : Views) → FitsEffect effect.now v → HoldsNumbers numbers v
        → HoldsNumbers result (affected n effect.now v) }
{
    let Searches::Kept(mut kept) = numbers else {
        return numbers;
    };
    match effect {
        Effect::Submitted {
            number,
            author,
            path,
            ..
        } => match path.path_text(alloc) {
            Ok(text) => {
                if add_number(&mut kept, alloc, *number, text.as_str(), author.as_str()) {
                    Searches::Kept(kept)
                } else {
                    Searches::Lacking
                }
            }
            Err(_) => Searches::Lacking,
        },
        Effect::Nothing
        | Effect::Ranked { .. }
        | Effect::Remarked { .. }
        | Effect::Decided { .. }
        | Effect::Imported { .. } => Searches::Kept(kept),
    }
}

// The numbers in the list of a text.
fn list_at<'a>(lists: &'a BTreeMap<String, Vec<u32>>, text: &str) -> &'a [u32]
    ensures { (texts : List (List ℕ)) → AreListsOf lists.now texts
        → result.now ≡ numbers_named text.now 1 texts }
{
    match lists.get(text) {
        Some(list) => list.as_slice(),
        None => &[],
    }
}

// The shorter of two lists.
fn shorter<'a>(one: &'a [u32], other: &'a [u32]) -> &'a [u32]
    ensures { (result.now ≡ one.now) ⊎ (result.now ≡ other.now) }
{
    if other.len() < one.len() { other } else { one }
}

// Those of rising numbers that are below one, of which 0 stands for no bound.
fn cut_at(numbers: &[u32], before: u32) -> &[u32]
    ensures { IsNonDecreasing numbers.now → result.now ≡ are_below before numbers.now }
{
    if before == 0 {
        return numbers;
    }
    let end = numbers.partition_point(|number| *number < before);
    &numbers[..end]
}

// The numbers of the submissions for a path. None if none is named, or if memory runs out.
fn by_path<'a>(kept: &'a Kept, alloc: Global, path: Option<&Path>) -> Option<&'a [u32]>
    ensures { IfSome result (λ numbers. (author : Option (List ℕ)) (v : Views)
        → AreKeptFor kept.now (filings_in v)
        → IsServing (option_copied path.entry) author numbers.now v) }
{
    match path?.path_text(alloc) {
        Ok(text) => Some(list_at(&kept.paths, text.as_str())),
        Err(_) => None,
    }
}

// The numbers of the submissions of an author. None if none is named.
fn by_author<'a>(kept: &'a Kept, author: Option<&Account>) -> Option<&'a [u32]>
    ensures { IfSome result (λ numbers. (path : Option Path) (v : Views)
        → AreKeptFor kept.now (filings_in v)
        → IsServing path (option_copied author.entry) numbers.now v) }
{
    Some(list_at(&kept.authors, author?.as_str()))
}

/// Numbers that leave out no submission for the path and of the author that are named, below a
/// number: of both lists the shorter. None if neither is named, if the numbers are not kept, or if
/// memory runs out.
pub(crate) fn list_below<'a>(
    numbers: &'a Searches,
    alloc: Global,
    path: Option<&Path>,
    author: Option<&Account>,
    before: u32,
) -> Option<&'a [u32]>
    ensures { IfSome result (λ list. (v : Views) → HoldsNumbers numbers.now v
        → LeavesOutNone (record {
          path = option_copied path.entry;
          author = option_copied author.entry;
          before = before;
        }) list.now v) }
{
    let Searches::Kept(kept) = numbers else {
        return None;
    };
    let one = by_path(kept, alloc, path);
    let other = by_author(kept, author);
    match one {
        None => Some(cut_at(other?, before)),
        Some(one) => match other {
            None => Some(cut_at(one, before)),
            Some(other) => Some(cut_at(shorter(one, other), before)),
        },
    }
}
