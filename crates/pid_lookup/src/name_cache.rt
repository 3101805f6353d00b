//! The cache of names.
ghost use Rattle.std.specs.Prelude.{
  ◌≡◌,
  ◌⊎◌,
  ◌≤◌,
  ℕ,
  List,
  [],
  Option,
  Some,
  length,
  IfOk,
  IfSome,
  IfErr,
};
ghost use Rattle.pid_file.specs.PathTexts.{path_text};
ghost use Rattle.pid_lookup.specs.CacheEntries.{entry_at, used, with_answer};
ghost use Rattle.pid_lookup.specs.CacheAgreement.{Agrees};

use crate::cache_key::PathKey;
use lru::LruCache;
use pid_ident::{Name, NameText, Path};
use std::alloc::{AllocError, Global};
use std::marker::Model;
use std::num::NonZeroUsize;

/// The most paths that a cache keeps.
pub const CAPACITY: usize = 1024;

/// What was found for the paths that were asked for last: the name of an item, or that there is
/// none.
///
/// A path is one entry. A new path in a full cache takes the place of the one that was not used for
/// the longest time. The hasher has a fixed seed: whoever picks the paths can make a look-up as
/// slow as one through all entries.
#[derive(Drop)]
pub struct NameCache {
    answers: LruCache<PathKey, Option<Name>>,
}

impl Model for NameCache {
    ghost use Rattle.std.specs.Prelude.{◌≡◌, ℕ, List, Option};
    ghost use Rattle.pid_lookup.specs.declared.name_cache.TheConstants.{CAPACITY};

    ghost Value = { List (List ℕ × Option (List ℕ)) };

    ghost view = { λ cache. cache.answers.entries };

    ghost invariant = { λ cache. cache.answers.cap ≡ CAPACITY };
}

impl NameCache {
    /// An empty cache. Its table has room for all entries, so that only the entries take memory
    /// later.
    pub fn new(alloc: Global) -> Result<NameCache, AllocError>
        ensures empty { IfOk result (λ cache. cache ≡ []) }
    {
        let capacity = NonZeroUsize::new(CAPACITY).unwrap();
        Ok(NameCache {
            answers: LruCache::new(alloc, capacity)?,
        })
    }

    /// What is known of the path: None if it has no entry, and else a copy of its name or the
    /// absence of one. It fails only if memory for the copy is refused. The path counts as used
    /// either way.
    pub fn get(&mut self, path: &Path) -> Result<Option<Option<Name>>, AllocError>
        ensures found { IfOk result (λ found. found ≡ entry_at (path_text path.now) self.old) }
        ensures refused { IfErr result (λ _. (name : List ℕ)
            × (entry_at (path_text path.now) self.old ≡ Some (Some name))) }
        ensures order { self.new ≡ used (path_text path.now) self.old }
        ensures right { (at : List ℕ → Option (List ℕ)) → Agrees self.old at
            → IfOk result (λ found. IfSome found (λ name. name ≡ at (path_text path.now))) }
        ensures agrees { (at : List ℕ → Option (List ℕ)) → Agrees self.old at → Agrees self.new at }
    {
        match self.answers.get(&PathKey::of(path)) {
            Some(Some(name)) => Ok(Some(Some(name.copy()?))),
            Some(None) => Ok(Some(None)),
            None => Ok(None),
        }
    }

    /// Keeps what was found for the path. If memory for it is refused, the cache stays as it
    /// was.
    pub fn put(&mut self, path: &Path, name: &Option<Name>)
        ensures kept_or_not { (self.new ≡ with_answer (path_text path.now) name.now self.old)
            ⊎ (self.new ≡ self.old) }
        ensures agrees { (at : List ℕ → Option (List ℕ)) → at (path_text path.now) ≡ name.now
            → Agrees self.old at → Agrees self.new at }
    {
        if let Ok(name) = copy_of(name) {
            drop(self.answers.put(PathKey::of(path), name));
        }
    }

    /// Forgets all.
    pub fn clear(&mut self)
        ensures empty { self.new ≡ [] }
        ensures agrees { (at : List ℕ → Option (List ℕ)) → Agrees self.new at }
    {
        self.answers.clear();
    }

    /// The number of entries.
    pub fn len(&self) -> u32
        ensures count { result ≡ length self.now }
        ensures fits { result ≤ CAPACITY }
    {
        self.answers.len() as u32
    }
}

fn copy_of(name: &Option<Name>) -> Result<Option<Name>, AllocError>
    ensures { IfOk result (λ copy. copy ≡ name.now) }
{
    match name {
        Some(name) => Ok(Some(name.copy()?)),
        None => Ok(None),
    }
}
