//! The names of a text that a look-up can ask for.
ghost use Rattle.std.specs.Prelude.{◌≡◌, false};
ghost use Rattle.std.specs.FinMap.{empty};
ghost use Rattle.std.specs.List.{All, list_any};
ghost use Rattle.std.specs.Ordering.{eq_by_cmp};
ghost use Rattle.pid_file.specs.Steps.Paths.{path_cmp};
ghost use Rattle.pid_lookup.specs.Steps.AskedNames.{asked_paths as paths_asked};
ghost use Rattle.pid_lookup.specs.Steps.Kept.{kept_map};

use crate::args::Args;
use crate::asked::asked_paths;
use crate::names::Names;
use pid_ident::{Name, NameText, Path};
use pid_reader::{Entry, Sink};
use std::alloc::{AllocError, Global};
use std::collections::BTreeMap;

/// The names of those paths that a look-up with some arguments can ask for, whatever its flags. Its
/// fault is that there is no memory.
#[derive(Drop)]
pub struct AskedNames {
    asked: [Path; 8],
    kept: BTreeMap<Path, Name>,
    alloc: Global,
}

impl AskedNames {
    /// No names yet.
    pub fn new(alloc: Global, args: &Args) -> AskedNames
        ensures asked { result.asked ≡ paths_asked args.now }
        ensures none { kept_map result ≡ empty }
    {
        AskedNames {
            asked: asked_paths(args),
            kept: BTreeMap::new(alloc),
            alloc,
        }
    }
}

fn is_among(path: &Path, asked: &[Path; 8]) -> bool
    ensures others { result ≡ false → All (λ p. eq_by_cmp path_cmp p path.now ≡ false) asked.now }
    ensures among { result ≡ list_any (λ p. eq_by_cmp path_cmp p path.now) asked.now }
{
    asked.iter().any(|one| *one == *path)
}

impl Sink for AskedNames {
    ghost use Rattle.pid_lookup.specs.Steps.AskedNames.{KeepsAllNames, TakesAsked};

    type Fault = AllocError;

    ghost takes = { TakesAsked };

    ghost faults = { λ s entry f t. KeepsAllNames s t };

    fn entry(&mut self, entry: &Entry<'_>) -> Result<(), AllocError> {
        if !is_among(&entry.path, &self.asked) {
            return Ok(());
        }
        let name = Name::of_checked(self.alloc, entry.name)?;
        match self.kept.insert(entry.path, name) {
            Ok(_) => Ok(()),
            Err(_) => Err(AllocError),
        }
    }
}

impl Names for AskedNames {
    type Fault = AllocError;

    ghost use Rattle.std.specs.Prelude.{◌≡◌, ⊤};
    ghost use Rattle.pid_file.specs.Trees.{TreeMap};
    ghost use Rattle.pid_lookup.specs.Steps.Kept.{kept_map};

    ghost Shown = { TreeMap };

    ghost map_of = { λ map. map };

    ghost shows = { λ names map. kept_map names ≡ map };

    ghost is_honest = { λ _. ⊤ };

    ghost may_give = { λ _ _. ⊤ };

    ghost only_asked = { λ start names. names ≡ start };

    fn name_of(&mut self, path: &Path) -> Result<Option<Name>, AllocError> {
        match self.kept.get(path) {
            Some(name) => Ok(Some(name.copy()?)),
            None => Ok(None),
        }
    }
}
