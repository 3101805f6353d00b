//! The names of a tree.
ghost use Rattle.std.specs.Prelude.{◌≡◌};
ghost use Rattle.std.specs.FinMap as finite;
ghost use Rattle.std.specs.Option.{option_copied};
ghost use Rattle.pid_file.specs.PathTexts.{path_text};
ghost use Rattle.pid_lookup.specs.TreeNames.{tree_shown};

use crate::names::Names;
use pid_file::Tree;
use pid_ident::{Name, NameText, Path};
use std::alloc::AllocError;

/// The names of a tree that is lent. Its fault is that there is no memory for a copy.
#[derive(Drop)]
pub struct TreeNames<'a> {
    tree: &'a Tree,
}

impl<'a> TreeNames<'a> {
    /// The holder of the names of this tree.
    pub fn new(tree: &'a Tree) -> TreeNames<'a>
        ensures { tree_shown result ≡ tree.now }
    {
        TreeNames { tree }
    }
}

impl Names for TreeNames<'_> {
    type Fault = AllocError;

    ghost use Rattle.std.specs.Prelude.{◌≡◌, ⊤};
    ghost use Rattle.pid_file.specs.Trees.{TreeMap};
    ghost use Rattle.pid_lookup.specs.TreeNames.{tree_shown};

    ghost Shown = { TreeMap };

    ghost map_of = { λ map. map };

    ghost shows = { λ names map. tree_shown names ≡ map };

    ghost is_honest = { λ _. ⊤ };

    ghost may_give = { λ _ _. ⊤ };

    ghost only_asked = { λ start names. names ≡ start };

    fn name_of(&mut self, path: &Path) -> Result<Option<Name>, AllocError> {
        match name_at(self.tree, path) {
            Some(name) => Ok(Some(name.copy()?)),
            None => Ok(None),
        }
    }
}

// The name of a path in the tree.
fn name_at<'a>(tree: &'a Tree, path: &Path) -> Option<&'a Name>
    ensures { option_copied result ≡ finite.get tree.now (path_text path.now) }
{
    tree.items.get(path)
}
